// What a user is told of a line that is no event. Written out, since a derived `Display` does not state what it prints.
ghost use Rattle.std.specs.Prelude.{Some};
ghost use Rattle.event_lines.specs.Told.{explained, misread_line};

use crate::event::{Misread, Trouble};
use std::fmt;

impl fmt::Display for Trouble {
    ghost output = { λ t. Some (explained t) };

    fn fmt<W: fmt::Write>(&self, f: &mut fmt::Formatter<W>) -> fmt::Result {
        f.write_str(match self {
            Trouble::NoEvent =>
                "no event; one is (process_task ID LABEL), (stop VALUE) or (stopped)",
            Trouble::NoId => "the id is no whole number from 0 to 18446744073709551615",
            Trouble::NoValue => "the stop value is no whole number from -2147483648 to 2147483647",
        })
    }
}

impl fmt::Display for Misread {
    ghost output = { λ m. Some (misread_line m) };

    fn fmt<W: fmt::Write>(&self, f: &mut fmt::Formatter<W>) -> fmt::Result {
        write!(f, "line {}: {}", self.line, self.trouble)
    }
}
