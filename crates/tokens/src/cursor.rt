// A cursor over the bytes of a line, which gives its tokens one by one.
ghost use Rattle.std.specs.Prelude.{◌≡◌};
ghost use Rattle.tokens.specs.Cursor.{ahead, first, heard, later, mark_of, marked, opener_of, part_of, Split};
ghost use Rattle.tokens.specs.Tokens.{named, tokens_of, Spelled};
ghost use Rattle.std.specs.Option.{ok_or};
ghost use Rattle.tokens.specs.declared.token.LineFault.TheVariants.{NoForm};

use crate::number::is_number;
use crate::piece::{Piece, split_piece};
use crate::token::{LineFault, Token};

// The bytes that are left, and whether the line or a form has just begun, so that no space is due.
#[derive(Drop)]
pub struct Tokens<'a> {
    rest: &'a [u8],
    begun: bool,
}

// A word is a number if it looks like one.
fn named_token<'a>(word: &'a [u8]) -> Token<'a>
    ensures { mark_of result ≡ named word.now }
{
    if is_number(word) {
        Token::Number(word)
    } else {
        Token::Word(word)
    }
}

// The token that a piece is where a form or a word may begin.
fn opener<'a>(piece: Piece<'a>) -> Result<Token<'a>, LineFault>
    ensures { marked result ≡ ok_or (opener_of (part_of piece.entry)) NoForm }
{
    match piece {
        Piece::Left => Ok(Token::Open),
        Piece::Run(word) => Ok(named_token(word)),
        _ => Err(LineFault::NoForm),
    }
}

// The first token of some bytes and the bytes that follow it, or none where no bytes are left.
#[tactic(auto, unfolding(crate::specs::Tokens::marks))]
fn split_token<'a>(begun: bool, bytes: &'a [u8]) -> Result<Option<(Token<'a>, &'a [u8])>, LineFault>
    ensures { Split begun bytes.now result }
{
    let Some((piece, rest)) = split_piece(bytes) else {
        return Ok(None);
    };
    if let Piece::Right = piece {
        return Ok(Some((Token::Close, rest)));
    }
    if begun {
        let token = opener(piece)?;
        return Ok(Some((token, rest)));
    }
    let Piece::Space = piece else {
        return Err(LineFault::NoForm);
    };
    let Some((piece, rest)) = split_piece(rest) else {
        return Err(LineFault::NoForm);
    };
    let token = opener(piece)?;
    Ok(Some((token, rest)))
}

impl<'a> Tokens<'a> {
    // A cursor at the front of a line.
    pub fn new(line: &'a [u8]) -> Self
        ensures ahead { ahead result ≡ tokens_of line.now }
        ensures spelled { Spelled line.now }
    {
        Tokens {
            rest: line,
            begun: true,
        }
    }

    // The next token, or none at the line's end; what is no token in its place is refused, and stays ahead.
    pub fn next(&mut self) -> Result<Option<Token<'a>>, LineFault>
        ensures answer { heard result ≡ first (ahead self.old) }
        ensures state { ahead self.new ≡ later (ahead self.old) }
    {
        let Some((token, rest)) = split_token(self.begun, self.rest)? else {
            return Ok(None);
        };
        self.begun = matches!(token, Token::Open);
        self.rest = rest;
        Ok(Some(token))
    }
}
