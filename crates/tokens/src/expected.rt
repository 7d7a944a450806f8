// What a reader of a line asks its cursor for.
ghost use Rattle.std.specs.Prelude.{◌≡◌};
ghost use Rattle.std.specs.Option.{option_map};
ghost use Rattle.tokens.specs.Cursor.{ahead, later};
ghost use Rattle.tokens.specs.Expected.{opens, first_word, first_number, first_name, closes, after_closes};

use crate::cursor::Tokens;
use crate::token::Token;

// Each asks for another kind of token. One method over a pattern would want a closure that takes the token apart, which is no
// plainer; and each says of the cursor in a clause of its own that one token is taken.
impl<'a> Tokens<'a> {
    // Whether an opening bracket comes next.
    pub fn opens(&mut self) -> bool
        ensures answer { result ≡ opens (ahead self.old) }
        ensures state { ahead self.new ≡ later (ahead self.old) }
    {
        matches!(self.next(), Ok(Some(Token::Open)))
    }

    // The word that comes next.
    pub fn word(&mut self) -> Option<&'a [u8]>
        ensures answer { option_map (λ x. x.now) result ≡ first_word (ahead self.old) }
        ensures state { ahead self.new ≡ later (ahead self.old) }
    {
        match self.next() {
            Ok(Some(Token::Word(word))) => Some(word),
            _ => None,
        }
    }

    // The bytes of the number that comes next.
    pub fn number(&mut self) -> Option<&'a [u8]>
        ensures answer { option_map (λ x. x.now) result ≡ first_number (ahead self.old) }
        ensures state { ahead self.new ≡ later (ahead self.old) }
    {
        match self.next() {
            Ok(Some(Token::Number(digits))) => Some(digits),
            _ => None,
        }
    }

    // The name that comes next: a word, or what looks like a number.
    pub fn name(&mut self) -> Option<&'a [u8]>
        ensures answer { option_map (λ x. x.now) result ≡ first_name (ahead self.old) }
        ensures state { ahead self.new ≡ later (ahead self.old) }
    {
        match self.next() {
            Ok(Some(Token::Word(name) | Token::Number(name))) => Some(name),
            _ => None,
        }
    }

    // Whether a closing bracket comes next, and ends the line.
    pub fn closes(&mut self) -> bool
        ensures answer { result ≡ closes (ahead self.old) }
        ensures state { ahead self.new ≡ after_closes (ahead self.old) }
    {
        matches!(self.next(), Ok(Some(Token::Close))) && matches!(self.next(), Ok(None))
    }
}
