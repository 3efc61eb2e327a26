//! The octal string at the end of a text.
ghost use Rattle.std.specs.Prelude.{◌≡◌};
ghost use Rattle.trac_rules.specs.Octal.{IsOctal, is_octal_digit, octal_tail};

use trac_rules::octals::{SEVEN, ZERO};

// Whether a byte is a digit from 0 to 7.
fn is_octal_digit(b: u8) -> bool
    ensures { result ≡ is_octal_digit b }
{
    ZERO <= b && b <= SEVEN
}

/// The octal string of a text: its longest tail of the digits 0 to 7, empty if there is none.
pub fn octal_tail(text: &[u8]) -> &[u8]
    ensures value { result.now ≡ octal_tail text.now }
    ensures octal { IsOctal result.now }
{
    let mut from = text.len();
    while from > 0 && is_octal_digit(text[from - 1]) {
        from -= 1;
    }
    text.split_at(from).1
}
