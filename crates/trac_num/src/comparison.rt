//! Comparison of numerals of any length.
ghost use Rattle.std.specs.Prelude.{◌≡◌, nat_lt};
ghost use Rattle.std.specs.Str.Parse.{digits_value, starts_with_minus, without_leading_sign};
ghost use Rattle.trac_num.specs.Magnitude.{IsMagnitude, IsMagnitudeOf};
ghost use Rattle.trac_rules.specs.Number.{IsNumeralOrNull, is_greater};

// The digits after a sign, or all of them.
pub(crate) fn unsigned(numeral: &[u8]) -> &[u8]
    ensures { result.now ≡ without_leading_sign numeral.now }
{
    if numeral.is_empty() {
        return numeral;
    }
    let first = numeral[0];
    if first == b'+' || first == b'-' {
        return numeral.split_at(1).1;
    }
    numeral
}

// The digits of a numeral without its sign and its leading zeros: empty for 0.
fn magnitude(numeral: &[u8]) -> &[u8]
    requires { IsNumeralOrNull numeral.now }
    ensures { IsMagnitudeOf numeral.now result.now }
{
    let digits = unsigned(numeral);
    let mut place = 0;
    while place < digits.len() {
        let first = digits[place];
        if first != b'0' {
            return digits.split_at(place).1;
        }
        place += 1;
    }
    digits.split_at(place).1
}

// Whether a minus stands first.
pub(crate) fn has_minus(numeral: &[u8]) -> bool
    ensures { result ≡ starts_with_minus numeral.now }
{
    if numeral.is_empty() {
        return false;
    }
    let first = numeral[0];
    first == b'-'
}

// The longer one is the larger one; of two with the same length it is the one with the greater
// digit where they first differ.
fn is_larger(a: &[u8], b: &[u8]) -> bool
    requires a_form { IsMagnitude a.now }
    requires b_form { IsMagnitude b.now }
    ensures { result ≡ nat_lt (digits_value 10 b.now) (digits_value 10 a.now) }
{
    if a.len() == b.len() {
        return a > b;
    }
    a.len() > b.len()
}

/// Whether the number of the first numeral is greater. They are compared exactly, whether they fit the range of numbers
/// or not, and -0 is 0. Nothing is copied.
pub fn greater(a: &[u8], b: &[u8]) -> bool
    requires a_form { IsNumeralOrNull a.now }
    requires b_form { IsNumeralOrNull b.now }
    ensures { result ≡ is_greater a.now b.now }
{
    let first = magnitude(a);
    let second = magnitude(b);
    if has_minus(a) {
        return has_minus(b) && is_larger(second, first);
    }
    if has_minus(b) {
        return !first.is_empty() || !second.is_empty();
    }
    is_larger(first, second)
}
