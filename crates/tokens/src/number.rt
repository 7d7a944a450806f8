// Numbers from the bytes of a word: decimal digits, a minus sign before them only where a signed number is read. They are read
// by a loop of their own: std's `parse` takes a text, so that a word would be gone through twice more before it, however long.
ghost use Rattle.std.specs.Prelude.{◌≡◌, ℕ, ◌+◌, ◌-◌, ◌*◌, ◌^◌, ◌<◌, ◌≤◌, true, false, pos, neg_ℤ, ◌≤ℤ◌, List, Option, IfOk, MatchOption};
ghost use Rattle.std.specs.Option.{SomeIff, ok_or};
ghost use Rattle.tokens.specs.declared.token.LineFault.TheVariants.{NoForm};
ghost use Rattle.tokens.specs.Numbers.{is_digit, has_minus, after_minus, is_number, numeral_up_to, integer_up_to, natural_of, integer_of, with_sign};

use crate::token::LineFault;

// A number that the bytes of a word may write.
pub trait Numeral: Sized {
    // The number that the bytes write, where they write one that fits the type.
    ghost reading: { List ℕ → Option Self };

    fn read(word: &[u8]) -> Result<Self, LineFault>
        ensures { result ≡ ok_or (reading word.now) NoForm };
}

impl Numeral for u64 {
    ghost reading = { natural_of 64 };

    fn read(digits: &[u8]) -> Result<u64, LineFault> {
        read_up_to(digits, u64::MAX)
    }
}

impl Numeral for u32 {
    ghost reading = { natural_of 32 };

    fn read(digits: &[u8]) -> Result<u32, LineFault> {
        let number = read_up_to(digits, u32::MAX as u64)?;
        Ok(number as u32)
    }
}

impl Numeral for i64 {
    ghost reading = { integer_of 64 };

    fn read(word: &[u8]) -> Result<i64, LineFault> {
        let number = read_signed(word, i64::MAX as u64)?;
        Ok(number as i64)
    }
}

impl Numeral for i32 {
    ghost reading = { integer_of 32 };

    fn read(word: &[u8]) -> Result<i32, LineFault> {
        let number = read_signed(word, i32::MAX as u64)?;
        Ok(number as i32)
    }
}

// What a digit stands for.
fn digit(byte: u8) -> Option<u8>
    ensures { MatchOption result (is_digit byte ≡ false) (λ d. (is_digit byte ≡ true) × (d ≡ byte - 48)) }
{
    if byte.is_ascii_digit() {
        Some(byte - b'0')
    } else {
        None
    }
}

// The number with one digit more, where it still fits.
fn shift(number: u64, digit: u8) -> Option<u64>
    ensures { SomeIff result (number * 10 + digit < 2 ^ 64) (number * 10 + digit) }
{
    let tens = number.checked_mul(10)?;
    tens.checked_add(digit as u64)
}

// The number that the digits write, where it is at most the given one.
fn read_up_to(digits: &[u8], most: u64) -> Result<u64, LineFault>
    ensures value { result ≡ ok_or (numeral_up_to most digits.now) NoForm }
    ensures within { IfOk result (λ n. n ≤ most) }
{
    if digits.is_empty() {
        return Err(LineFault::NoForm);
    }
    let mut number: u64 = 0;
    for byte in digits {
        let digit = digit(*byte).ok_or(LineFault::NoForm)?;
        number = shift(number, digit).ok_or(LineFault::NoForm)?;
    }
    if number > most {
        return Err(LineFault::NoForm);
    }
    Ok(number)
}

// Whether a minus sign comes first, and the bytes after it.
fn split_minus(bytes: &[u8]) -> (bool, &[u8])
    ensures { (result.0 ≡ has_minus bytes.now) × (result.1.now ≡ after_minus bytes.now) }
{
    match bytes.strip_prefix(b"-") {
        Some(digits) => (true, digits),
        None => (false, bytes),
    }
}

// The number of that magnitude and sign.
fn with_sign(minus: bool, magnitude: u64) -> i128
    ensures { result ≡ with_sign minus magnitude }
{
    if minus {
        -(magnitude as i128)
    } else {
        magnitude as i128
    }
}

// The signed number that the bytes write, where it is from - most - 1 to most.
fn read_signed(bytes: &[u8], most: u64) -> Result<i128, LineFault>
    requires { most < 2 ^ 63 }
    ensures value { result ≡ ok_or (integer_up_to most bytes.now) NoForm }
    ensures within { IfOk result (λ z. (neg_ℤ (pos (most + 1)) ≤ℤ z) × (z ≤ℤ pos most)) }
{
    let (minus, digits) = split_minus(bytes);
    let farthest = if minus { most + 1 } else { most };
    let magnitude = read_up_to(digits, farthest)?;
    Ok(with_sign(minus, magnitude))
}

// Whether the bytes look like a number: digits, with or without a minus sign before them.
pub fn is_number(bytes: &[u8]) -> bool
    ensures { result ≡ is_number bytes.now }
{
    let digits = bytes.strip_prefix(b"-").unwrap_or(bytes);
    !digits.is_empty() && digits.iter().all(u8::is_ascii_digit)
}
