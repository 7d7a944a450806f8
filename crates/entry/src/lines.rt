// How an entry is printed: its word and its numbers, in brackets.
ghost use Rattle.std.specs.Prelude.{Some};
ghost use Rattle.entry.specs.Lines.{line_of};

use crate::Entry;
use std::fmt;

impl fmt::Display for Entry {
    ghost output = { λ e. Some (line_of e) };

    fn fmt<W: fmt::Write>(&self, f: &mut fmt::Formatter<W>) -> fmt::Result {
        match *self {
            Entry::Reg(id) => write!(f, "(reg {id})"),
            Entry::Round(drained) => write!(f, "(round {drained})"),
            Entry::Poll(id, called) => write!(f, "(poll {id} {})", u8::from(called)),
            Entry::Skip(id) => write!(f, "(skip {id})"),
            Entry::Arm(id, time) => write!(f, "(arm {id} {time})"),
            Entry::Ring(id, time) => write!(f, "(ring {id} {time})"),
            Entry::Tick(time) => write!(f, "(tick {time})"),
            Entry::Jump(time) => write!(f, "(jump {time})"),
            Entry::Wake(id, cause) => write!(f, "(wake {id} {})", u8::from(cause)),
            Entry::Mark(id) => write!(f, "(mark {id})"),
            Entry::Done(id, ending) => write!(f, "(done {id} {})", u8::from(ending)),
            Entry::End(end) => write!(f, "(end {})", u8::from(end)),
        }
    }
}
