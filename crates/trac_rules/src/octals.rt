//! Octal digits, and the laws and worked rows of octal strings as contracts.
ghost use Rattle.std.specs.Prelude.{◌≡◌, ◌++◌, ◌≤◌, List, ℕ, length, pos, negsuc};
ghost use Rattle.trac_rules.specs.Octal.{IsOctal, bits_of, complement, meet, octal_tail, rotate, shift, text_of, union};
ghost use Rattle.trac_rules.specs.Rows.{OfOne, OfTwo};

/// `0`, the least octal digit.
pub const ZERO: u8 = b'0';

/// `7`, the greatest octal digit.
pub const SEVEN: u8 = b'7';

/// The octal string of a text is a tail of it, of octal digits alone, and no tail of octal digits alone is longer; what
/// stands before it is dropped.
pub fn octal_tail_is_longest()
    ensures tail { (text : List ℕ) → (front : List ℕ) × (text ≡ front ++ octal_tail text) }
    ensures octal { (text : List ℕ) → IsOctal (octal_tail text) }
    ensures longest { (text front tail : List ℕ) → text ≡ front ++ tail → IsOctal tail →
        length tail ≤ length (octal_tail text) }
{}

/// An octal text is the one of its bits, so two octal texts with the same bits are the same.
pub fn text_is_that_of_its_bits()
    ensures { (text : List ℕ) → IsOctal text → text_of (bits_of text) ≡ text }
{}

/// Examples of the operations, each on the octal strings of texts.
pub fn worked_octals()
    ensures union { OfTwo union "12" "x7" "17" }
    ensures union_after_zeros { OfTwo union "7" "10" "17" }
    ensures union_of_none { OfTwo union "8" "9" "" }
    ensures meet { OfTwo meet "123" "7" "3" }
    ensures meet_at_the_right { OfTwo meet "70" "5" "0" }
    ensures complement { OfOne complement "017" "760" }
    ensures complement_of_zero { OfOne complement "0" "7" }
    ensures shift_out { OfOne (shift (pos 1)) "4" "0" }
    ensures shift_a_digit { OfOne (shift (pos 3)) "12" "20" }
    ensures shift_all { OfOne (shift (pos 99)) "7" "0" }
    ensures shift_right { OfOne (shift (negsuc 0)) "4" "2" }
    // By the least number of 64 bits.
    ensures shift_least { OfOne (shift (negsuc 9223372036854775807)) "7" "0" }
    // By the least number of 128 bits.
    ensures shift_wide_least { OfOne (shift (negsuc 170141183460469231731687303715884105727)) "7" "0" }
    ensures shift_of_none { OfOne (shift (pos 1)) "" "" }
    ensures rotate_right { OfOne (rotate (negsuc 0)) "1" "4" }
    ensures rotate_left { OfOne (rotate (pos 1)) "4" "1" }
    ensures rotate_four { OfOne (rotate (pos 4)) "12" "42" }
    // By the greatest and the least number of 64 bits.
    ensures rotate_greatest { OfOne (rotate (pos 9223372036854775807)) "12" "24" }
    ensures rotate_least { OfOne (rotate (negsuc 9223372036854775807)) "12" "42" }
    // By the greatest and the least number of 128 bits.
    ensures rotate_wide_greatest { OfOne (rotate (pos 170141183460469231731687303715884105727)) "12" "24" }
    ensures rotate_wide_least { OfOne (rotate (negsuc 170141183460469231731687303715884105727)) "12" "42" }
    ensures rotate_none { OfOne (rotate (pos 1)) "" "" }
{}
