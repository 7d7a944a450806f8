// A whole script from its bytes.
ghost use Rattle.lines.specs.Lines.{text_of};
ghost use Rattle.grammar.specs.Reading.{blank, draft_of, reading};
ghost use Rattle.grammar.specs.Reads.{Exact, Grows, OneReading, Respelled, Settled};
ghost use Rattle.script.specs.Drafts.{said_in};
ghost use Rattle.script.specs.Views.{script_of, Agrees};

use crate::draft::Draft;
use crate::script::Script;
use faults::fault::Reason;
use faults::read_fault::ReadFault;
use lines::{Lines, Unended};
use std::alloc::Global;

const MOST_BYTES: usize = 4096;

// The three readers take the memory and the bytes: a struct of both would be made and taken apart at once, and is no plainer.
// What the lines say, one after another; bytes after the last LF are no line, hence no form.
fn read_lines<'a>(heap: Global, bytes: &'a [u8]) -> Result<Draft<'a>, ReadFault>
    ensures { Agrees said_in result (draft_of 1 blank (text_of bytes.now).lines (text_of bytes.now).rest) }
{
    let mut draft = Draft::new(heap);
    for (i, line) in Lines::new(bytes).enumerate() {
        let number = i + 1;
        match line {
            Ok(line) => draft.take_line(heap, number, line)?,
            Err(Unended(_)) => return Err(Reason::NoForm.at(number).into()),
        }
    }
    Ok(draft)
}

// The bytes are counted first, then read line by line, and at last the names are compared.
fn read_plan<'a>(heap: Global, bytes: &'a [u8]) -> Result<Script<'a>, ReadFault>
    ensures { Agrees script_of result (reading bytes.now) }
{
    if bytes.len() > MOST_BYTES {
        return Err(Reason::TooLong.at(0).into());
    }
    Ok(read_lines(heap, bytes)?.finish()?)
}

// The script that the bytes say, or the first reason to refuse them.
pub fn read<'a>(heap: Global, bytes: &'a [u8]) -> Result<Script<'a>, ReadFault>
    ensures plan { Agrees script_of result (reading bytes.now) }
    ensures exact { Exact bytes.now }
    ensures once { OneReading bytes.now }
    ensures respelled { Respelled bytes.now }
    ensures settled { Settled bytes.now }
    ensures grows { Grows bytes.now }
{
    read_plan(heap, bytes)
}
