// A token of a line, and the fault of a line that has none where one is due.

// A bracket, a word or a number. A word and a number are parts of the line's own bytes: which type a number must fit
// is known only where it is used, and a name may look like a number.
#[derive(Clone, Copy, PartialEq, Eq)]
pub enum Token<'a> {
    Open,
    Close,
    Word(&'a [u8]),
    Number(&'a [u8]),
}

// Why a line cannot be read; which line it is, the reader of the whole script knows.
#[derive(Clone, Copy, PartialEq, Eq, Debug)]
pub enum LineFault {
    NoForm,
}
