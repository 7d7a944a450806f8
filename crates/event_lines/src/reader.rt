// How a line is read as an event.
ghost use Rattle.std.specs.Prelude.{◌≡◌};
ghost use Rattle.auditor.specs.Events.{stopped};
ghost use Rattle.std.specs.Option.{option_map};
ghost use Rattle.tokens.specs.Cursor.{ahead, later};
ghost use Rattle.tokens.specs.Expected.{first_number};
ghost use Rattle.tokens.specs.Numbers.{natural_of, integer_of};
ghost use Rattle.event_lines.specs.Lines.{and_then, asked, closed_as, event_by, event_in, event_of, polled};
ghost use Rattle.event_lines.specs.Said.{Exact};
ghost use Rattle.event_lines.specs.Views.{answered, meant};

use crate::event::{Event, Trouble};
use tokens::cursor::Tokens;
use tokens::number::Numeral;

// The event, if the form closes here and ends the line.
fn closed<'a>(tokens: &mut Tokens<'a>, event: Event<'a>) -> Result<Event<'a>, Trouble>
    ensures { answered result ≡ closed_as (meant event.entry) (ahead tokens.old) }
{
    if tokens.closes() {
        Ok(event)
    } else {
        Err(Trouble::NoEvent)
    }
}

// The number that comes next, if it is one of its type.
fn next_number<T: Numeral>(tokens: &mut Tokens<'_>) -> Option<T>
    ensures answer { result ≡ and_then (first_number (ahead tokens.old)) T.reading }
    ensures state { ahead tokens.new ≡ later (ahead tokens.old) }
{
    let digits = tokens.number()?;
    T::read(digits).ok()
}

// The poll of a task: its id and its label.
fn read_poll<'a>(tokens: &mut Tokens<'a>) -> Result<Event<'a>, Trouble>
    ensures { answered result ≡ polled (and_then (first_number (ahead tokens.old)) (natural_of 64)) (later (ahead tokens.old)) }
{
    let id = next_number(tokens).ok_or(Trouble::NoId)?;
    let label = tokens.name().ok_or(Trouble::NoEvent)?;
    closed(tokens, Event::ProcessTask(id, label))
}

// A stop: its value.
fn read_stop<'a>(tokens: &mut Tokens<'a>) -> Result<Event<'a>, Trouble>
    ensures { answered result ≡ asked (and_then (first_number (ahead tokens.old)) (integer_of 32)) (later (ahead tokens.old)) }
{
    let value = next_number(tokens).ok_or(Trouble::NoValue)?;
    closed(tokens, Event::Stop(value))
}

// The event of a name. Comparisons, since a `match` on the names was tried and its last arm did not close.
fn read_named<'a>(name: &[u8], tokens: &mut Tokens<'a>) -> Result<Event<'a>, Trouble>
    ensures { answered result ≡ event_by name.now (ahead tokens.old) }
{
    if name == b"process_task".as_slice() {
        read_poll(tokens)
    } else if name == b"stop".as_slice() {
        read_stop(tokens)
    } else if name == b"stopped".as_slice() {
        closed(tokens, Event::Stopped)
    } else {
        Err(Trouble::NoEvent)
    }
}

// The event that the tokens of a line are.
fn read_tokens<'a>(tokens: &mut Tokens<'a>) -> Result<Event<'a>, Trouble>
    ensures { answered result ≡ event_in (ahead tokens.old) }
{
    if !tokens.opens() {
        return Err(Trouble::NoEvent);
    }
    let name = tokens.word().ok_or(Trouble::NoEvent)?;
    read_named(name, tokens)
}

// The event that a line is, or what is wrong with it.
pub fn read_event<'a>(line: &'a [u8]) -> Result<Event<'a>, Trouble>
    ensures value { answered result ≡ event_of line.now }
    ensures exact { Exact line.now }
{
    let mut tokens = Tokens::new(line);
    read_tokens(&mut tokens)
}
