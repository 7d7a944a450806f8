// Hexadecimal digits. Written out, since a format of four numbers would be about half of the work of a line, and most of it where
// the line is short.
ghost use Rattle.std.specs.Prelude.{◌≡◌, ◌<◌};
ghost use Rattle.event_lines.specs.Told.{hex_digit, hex_of};

use auditor::Digest;

// The lowercase digit of a number below 16.
fn hex_digit(number: u8) -> u8
    requires { number < 16 }
    ensures { result ≡ hex_digit number }
{
    if number < 10 {
        b'0' + number
    } else {
        b'a' - 10 + number
    }
}

// A digest in eight digits.
pub fn hex(digest: Digest) -> [u8; 8]
    ensures { result ≡ hex_of digest }
{
    let [a, b, c, d] = digest;
    [
        hex_digit(a / 16),
        hex_digit(a % 16),
        hex_digit(b / 16),
        hex_digit(b % 16),
        hex_digit(c / 16),
        hex_digit(c % 16),
        hex_digit(d / 16),
        hex_digit(d % 16),
    ]
}
