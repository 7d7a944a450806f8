// How entries and the report are printed.
use entry::Entry;
use entry::report::Report;
use reasons::cause::Cause;
use reasons::end::End;
use reasons::ending::Ending;
use std::test::Fail;

#[test]
fn each_form_is_printed_by_its_word_and_numbers(rt: HostRuntime) -> Result<(), Fail> {
    let lines = [
        (Entry::Reg(0), "(reg 0)"),
        (Entry::Round(3), "(round 3)"),
        (Entry::Poll(1, true), "(poll 1 1)"),
        (Entry::Poll(2, false), "(poll 2 0)"),
        (Entry::Skip(10), "(skip 10)"),
        (
            Entry::Arm(1, 18446744073709551615),
            "(arm 1 18446744073709551615)",
        ),
        (Entry::Ring(1, 30), "(ring 1 30)"),
        (Entry::Tick(20), "(tick 20)"),
        (Entry::Jump(50), "(jump 50)"),
        (Entry::Wake(4, Cause::Wake), "(wake 4 0)"),
        (Entry::Wake(4, Cause::Fault), "(wake 4 3)"),
        (Entry::Mark(5), "(mark 5)"),
        (Entry::Done(6, Ending::Faulted), "(done 6 2)"),
        (Entry::End(End::Ledger), "(end 5)"),
    ];
    for (entry, line) in lines {
        let printed = format!(in rt.alloc(); "{entry}")?;
        assert_eq!(rt; printed.as_str(), line);
    }
    Ok(())
}

#[test]
fn the_report_is_printed_in_its_order(rt: HostRuntime) -> Result<(), Fail> {
    let report = Report {
        rounds: 3,
        dealt: 4,
        undealt: 0,
        registered: 2,
        woken: 12,
    };
    let printed = format!(in rt.alloc(); "{report}")?;
    assert_eq!(rt; printed.as_str(), "(report 3 4 0 2 12)");
    Ok(())
}
