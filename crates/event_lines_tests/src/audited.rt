// Whole inputs.
use event_lines::audit::{Audited, audit_input};
use std::alloc::Global;
use std::test::Fail;

// What is printed of the first line that is no event, or nothing.
fn wrong(heap: Global, audited: &Audited) -> Result<String, Fail> {
    match audited.misread {
        Some(misread) => Ok(format!(in heap; "{misread}")?),
        None => Ok(String::new(heap)),
    }
}

#[test]
fn a_last_line_without_its_end_is_told(rt: HostRuntime) -> Result<(), Fail> {
    let audited = audit_input(rt.alloc(), b"(stopped)\n(stop -5)")?;
    assert_eq!(rt;
        audited.text.as_slice(),
        b"a22dba7b  (stopped)\nefadbd21  (stop -5)\n".as_slice()
    );
    assert_eq!(rt; wrong(rt.alloc(), &audited)?.as_str(), "");
    Ok(())
}

#[test]
fn what_comes_before_a_bad_line_is_told_and_the_line_is_named(rt: HostRuntime) -> Result<(), Fail> {
    let audited = audit_input(rt.alloc(), b"(stopped)\n(stop 2147483648)\n(stopped)\n")?;
    assert_eq!(rt;
        audited.text.as_slice(),
        b"a22dba7b  (stopped)\n".as_slice()
    );
    assert_eq!(rt;
        wrong(rt.alloc(), &audited)?.as_str(),
        "line 2: the stop value is no whole number from -2147483648 to 2147483647"
    );
    Ok(())
}
