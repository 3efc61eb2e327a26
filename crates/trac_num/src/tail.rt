//! The numeral at the end of a text.
ghost use Rattle.std.specs.Prelude.{◌≡◌, ◌≤◌, length, drop};
ghost use Rattle.trac_rules.specs.Number.{IsNumeralOrNull, numeral_of, prefix_of};

/// A text, cut before its numeral.
#[derive(Clone, Copy, Debug, PartialEq, Eq)]
pub struct Tail<'a> {
    /// What stands before the numeral: the whole text if there is none.
    pub prefix: &'a [u8],
    /// The longest tail of the text that is an optional `+` or `-` and then at least one digit; empty if there is none.
    pub numeral: &'a [u8],
}

// Where the numeral begins: at the digits of the end, or at the sign before them.
fn numeral_place(text: &[u8]) -> usize
    ensures within { result ≤ length text.now }
    ensures numeral { drop result text.now ≡ numeral_of text.now }
{
    // The place where the digits at the end begin.
    let mut digits = text.len();
    while digits > 0 && text[digits - 1].is_ascii_digit() {
        digits -= 1;
    }
    if digits == 0 || digits == text.len() {
        return digits;
    }
    let before = text[digits - 1];
    if before == b'+' || before == b'-' {
        return digits - 1;
    }
    digits
}

/// The numeral of a text, which stands at its end, and the prefix before it (T-64: the prefix of an operand is kept).
pub fn read_tail(text: &[u8]) -> Tail<'_>
    ensures prefix { result.prefix.now ≡ prefix_of text.now }
    ensures numeral { result.numeral.now ≡ numeral_of text.now }
    ensures form { IsNumeralOrNull result.numeral.now }
{
    let (prefix, numeral) = text.split_at(numeral_place(text));
    Tail { prefix, numeral }
}
