//! The number that a numeral writes.
ghost use Rattle.std.specs.Prelude.{◌≡◌, ◌≤◌, length, true};
ghost use Rattle.trac_rules.specs.Number.{IsNumeralOrNull, fits, number_of, whole_number};
ghost use Rattle.trac_rules.specs.declared.width.Width.TheVariants.{W64};

use crate::comparison::{has_minus, unsigned};
use std::str;
use trac_rules::width::Width;

// A numeral of at most so many bytes writes a number of fewer digits than the greatest one of 64 bits has.
const SHORT: usize = 18;

// The number that a short numeral writes, digit by digit.
fn short_value(numeral: &[u8]) -> i64
    requires form { IsNumeralOrNull numeral.now }
    requires short { length numeral.now ≤ 18 }
    ensures number { result ≡ whole_number numeral.now }
    ensures fits { fits W64 result ≡ true }
{
    let digits = unsigned(numeral);
    let mut sum = 0;
    for digit in digits {
        sum = sum * 10 + u64::from(*digit - b'0');
    }
    let sum = sum as i64;
    if has_minus(numeral) { -sum } else { sum }
}

/// The number that a numeral writes, if it fits the width; an empty numeral writes 0. `None`: it does not fit. A
/// numeral may be of any length, and it is read in a time that grows with its length alone.
pub fn value(numeral: &[u8], width: Width) -> Option<i128>
    requires { IsNumeralOrNull numeral.now }
    ensures { result ≡ number_of width numeral.now }
{
    if numeral.len() <= SHORT {
        return Some(short_value(numeral) as i128);
    }
    let Ok(text) = str::from_utf8(numeral) else {
        return None;
    };
    if let Ok(n) = text.parse::<i64>() {
        return Some(n as i128);
    }
    match width {
        Width::W64 => None,
        Width::W128 => text.parse().ok(),
    }
}
