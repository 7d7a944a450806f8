// How a step is read.
ghost use Rattle.std.specs.Prelude.{◌≡◌};
ghost use Rattle.std.specs.Option.{option_map, ok_or};
ghost use Rattle.tokens.specs.Cursor.{ahead, later, mark_of};
ghost use Rattle.tokens.specs.declared.token.LineFault.TheVariants.{NoForm};
ghost use Rattle.forms.specs.Forms.{name_in, digits_in, bind, bare_act, act_with};
ghost use Rattle.forms.specs.Steps.{act_by, ends_step, argument_in, after_argument, step_in, after_step, next_in, after_next};
ghost use Rattle.forms.specs.Views.{acted, argued, stepped, worded};

use crate::form::Step;
use tokens::cursor::Tokens;
use tokens::number::Numeral;
use tokens::token::{LineFault, Token};

// The name that a token is: a word, or what looks like a number.
fn name_in<'a>(token: Token<'a>) -> Result<&'a [u8], LineFault>
    ensures { worded result ≡ ok_or (name_in (mark_of token.entry)) NoForm }
{
    match token {
        Token::Word(name) | Token::Number(name) => Ok(name),
        _ => Err(LineFault::NoForm),
    }
}

// The bytes of a number.
fn digits_in<'a>(token: Token<'a>) -> Result<&'a [u8], LineFault>
    ensures { worded result ≡ ok_or (digits_in (mark_of token.entry)) NoForm }
{
    match token {
        Token::Number(digits) => Ok(digits),
        _ => Err(LineFault::NoForm),
    }
}

// The number that a token is, where it fits what it fills.
fn number_in<T: Numeral>(token: Token<'_>) -> Result<T, LineFault>
    ensures { result ≡ ok_or (bind (digits_in (mark_of token.entry)) T.reading) NoForm }
{
    T::read(digits_in(token)?)
}

// The step that a keyword is by itself.
fn bare_step<'a>(keyword: &[u8]) -> Result<Step<'a>, LineFault>
    ensures { acted result ≡ ok_or (bare_act keyword.now) NoForm }
{
    match keyword {
        b"await" => Ok(Step::Await),
        _ => Err(LineFault::NoForm),
    }
}

// The step that a keyword and its argument are.
fn step_with<'a>(keyword: &[u8], argument: Token<'a>) -> Result<Step<'a>, LineFault>
    ensures { acted result ≡ ok_or (act_with keyword.now (mark_of argument.entry)) NoForm }
{
    match keyword {
        b"sleep" => Ok(Step::Sleep(number_in(argument)?)),
        b"spawn" => Ok(Step::Spawn(name_in(argument)?)),
        b"wake" => Ok(Step::Wake(name_in(argument)?)),
        b"abort" => Ok(Step::Abort(name_in(argument)?)),
        b"stop" => Ok(Step::Stop(number_in(argument)?)),
        b"done" => Ok(Step::Done(number_in(argument)?)),
        b"fault" => Ok(Step::Fault(number_in(argument)?)),
        _ => Err(LineFault::NoForm),
    }
}

// The step that a keyword is, with an argument or by itself.
fn step_by<'a>(keyword: &[u8], argument: Option<Token<'a>>) -> Result<Step<'a>, LineFault>
    ensures { acted result ≡ ok_or (act_by keyword.now (option_map mark_of argument.entry)) NoForm }
{
    match argument {
        None => bare_step(keyword),
        Some(argument) => step_with(keyword, argument),
    }
}

// Whether the bracket that closes a step comes next.
fn ends_step(tokens: &mut Tokens<'_>) -> bool
    ensures answer { result ≡ ends_step (ahead tokens.old) }
    ensures state { ahead tokens.new ≡ later (ahead tokens.old) }
{
    matches!(tokens.next(), Ok(Some(Token::Close)))
}

// The argument of a step, or none, up to the bracket that closes it.
fn read_argument<'a>(tokens: &mut Tokens<'a>) -> Result<Option<Token<'a>>, LineFault>
    ensures answer { argued result ≡ ok_or (argument_in (ahead tokens.old)) NoForm }
    ensures state { ahead tokens.new ≡ after_argument (ahead tokens.old) }
{
    match tokens.next()? {
        Some(Token::Close) => Ok(None),
        Some(token @ (Token::Word(_) | Token::Number(_))) if ends_step(tokens) => Ok(Some(token)),
        _ => Err(LineFault::NoForm),
    }
}

// The step whose opening bracket was read.
fn read_step<'a>(tokens: &mut Tokens<'a>) -> Result<Step<'a>, LineFault>
    ensures answer { acted result ≡ ok_or (step_in (ahead tokens.old)) NoForm }
    ensures state { ahead tokens.new ≡ after_step (ahead tokens.old) }
{
    let keyword = tokens.word().ok_or(LineFault::NoForm)?;
    let argument = read_argument(tokens)?;
    step_by(keyword, argument)
}

// The next step of a task, or none where the task and the line end.
pub fn next_step<'a>(tokens: &mut Tokens<'a>) -> Result<Option<Step<'a>>, LineFault>
    ensures answer { stepped result ≡ next_in (ahead tokens.old) }
    ensures state { ahead tokens.new ≡ after_next (ahead tokens.old) }
{
    match tokens.next()? {
        Some(Token::Open) => Ok(Some(read_step(tokens)?)),
        Some(Token::Close) if tokens.next()?.is_none() => Ok(None),
        _ => Err(LineFault::NoForm),
    }
}
