// Bytes line by line.
#![tactic(auto)]

ghost use Rattle.std.specs.Prelude.{◌≡◌, ◌<◌, length, IfSome, MatchOption};
ghost use Rattle.std.specs.Iterator.{at_most};
ghost use Rattle.lines.specs.Lines.{text_of, unended, with_line};
ghost use Rattle.lines.specs.Left.{bytes_left, NextLine};

// The first line, without the LF that ends it, and the bytes after that; none where no LF is left.
pub fn split_line(bytes: &[u8]) -> Option<(&[u8], &[u8])>
    ensures cases { MatchOption result (text_of bytes.now ≡ unended bytes.now) (λ p. text_of bytes.now ≡ with_line p.0.now (text_of p.1.now)) }
    ensures shorter { IfSome result (λ p. length p.1.now < length bytes.now) }
{
    let end = bytes.iter().position(|byte| *byte == b'\n')?;
    Some((&bytes[..end], &bytes[end + 1..]))
}

// The bytes after the last LF, which no LF ends.
#[derive(Clone, Copy, PartialEq, Eq)]
pub struct Unended<'a>(pub &'a [u8]);

// The lines that are left, each without the LF that ends it; the bytes that no LF ends come last, if there are any.
#[derive(Drop)]
pub struct Lines<'a> {
    rest: &'a [u8],
}

impl<'a> Lines<'a> {
    // The lines of some bytes.
    pub fn new(bytes: &'a [u8]) -> Self
        ensures { bytes_left result ≡ bytes.now }
    {
        Lines { rest: bytes }
    }
}

impl<'a> Iterator for Lines<'a> {
    type Item = Result<&'a [u8], Unended<'a>>;

    ghost next_gives = { λ s r t. NextLine (bytes_left s) r (bytes_left t) };

    ghost remaining = { λ s. at_most (length (bytes_left s)) };

    fn next(&mut self) -> Option<Result<&'a [u8], Unended<'a>>> {
        if let Some((line, rest)) = split_line(self.rest) {
            self.rest = rest;
            return Some(Ok(line));
        }
        if self.rest.is_empty() {
            return None;
        }
        let last = self.rest;
        self.rest = &[];
        Some(Err(Unended(last)))
    }
}
