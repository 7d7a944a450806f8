// What the audit tells of a whole input, line by line.
ghost use Rattle.std.specs.Prelude.{◌≡◌, ◌<◌, List, [], ◌∷◌, ◌++◌, length, IfSome, IfOk, MatchOption, OnOk};
ghost use Rattle.auditor.specs.Events.{digest_after};
ghost use Rattle.event_lines.specs.Lines.{event_of};
ghost use Rattle.event_lines.specs.Outcomes.{outcome_of};
ghost use Rattle.event_lines.specs.Told.{audited, digest_by, lines_of, told_by, told_line, trouble_by};
ghost use Rattle.event_lines.specs.Views.{meant};

use crate::event::{Event, Misread, Trouble};
use crate::hex::hex;
use crate::reader::read_event;
use auditor::{Auditor, Digest};
use lines::{Lines, Unended};
use std::alloc::{AllocError, Global};

// What is told, and the first line that is no event.
#[derive(Drop)]
pub struct Audited {
    pub text: Vec<u8>,
    pub misread: Option<Misread>,
}

// Tells the auditor an event.
fn tell(auditor: &mut Auditor, event: Event<'_>)
    ensures { auditor.new.digest ≡ digest_after auditor.old.digest (meant event.entry) }
{
    match event {
        Event::ProcessTask(id, label) => auditor.process_task(id, label),
        Event::Stop(value) => auditor.stop(value),
        Event::Stopped => auditor.stopped(),
    }
}

// Adds what is told of a line.
fn push_line(text: &mut Vec<u8>, digest: Digest, line: &[u8]) -> Result<(), AllocError>
    ensures { OnOk result (text.new.items ≡ text.old.items ++ told_line digest line.now) }
{
    text.extend_from_slice(&hex(digest))?;
    text.extend_from_slice(b"  ")?;
    text.extend_from_slice(line)?;
    text.push(b'\n')?;
    Ok(())
}

// Reads a line, tells the auditor its event and adds what is told of it; or answers what is wrong with it.
fn audit_line(
    auditor: &mut Auditor,
    text: &mut Vec<u8>,
    line: &[u8],
) -> Result<Option<Trouble>, AllocError>
    ensures answer { IfOk result (λ t. t ≡ trouble_by (event_of line.now)) }
    ensures digest { OnOk result (auditor.new.digest ≡ digest_by (event_of line.now) auditor.old.digest) }
    ensures text { OnOk result (text.new.items ≡ text.old.items ++ told_by (event_of line.now) auditor.old.digest line.now) }
{
    match read_event(line) {
        Ok(event) => {
            tell(auditor, event);
            push_line(text, auditor.digest(), line)?;
            Ok(None)
        }
        Err(trouble) => Ok(Some(trouble)),
    }
}

// What the audit tells of the whole input: a line for each event, up to the first line that is none. The last line may
// lack its LF.
pub fn audit_input(heap: Global, input: &[u8]) -> Result<Audited, AllocError>
    ensures { IfOk result (λ a. outcome_of a ≡ audited input.now) }
{
    let mut auditor = Auditor::new();
    let mut text = Vec::new(heap);
    for (i, line) in Lines::new(input).enumerate() {
        let line = line.unwrap_or_else(|Unended(last)| last);
        if let Some(trouble) = audit_line(&mut auditor, &mut text, line)? {
            let misread = Some(Misread {
                line: i + 1,
                trouble,
            });
            return Ok(Audited { text, misread });
        }
    }
    Ok(Audited {
        text,
        misread: None,
    })
}
