//! Laws of numerals and numbers, each the contract of a function that does nothing, and worked rows,
//! computed from the definitions.
ghost use Rattle.std.specs.Prelude.{◌≡◌, ◌≤◌, ◌++◌, List, ℕ, length, codes, true, false, None, Some, ℤ, pos, neg_ℤ};
ghost use Rattle.trac_rules.specs.Computing.{result_of};
ghost use Rattle.trac_rules.specs.Number.{IsCutQuotient, IsNumeralOrNull, calculated, difference_of, fits, is_greater};
ghost use Rattle.trac_rules.specs.Number.{is_numeral, number_of, number_text, numeral_of, prefix_of, product_of};
ghost use Rattle.trac_rules.specs.Number.{quotient_of, sum_of};
ghost use Rattle.trac_rules.specs.declared.primitive.Operation.{Operation};
ghost use Rattle.trac_rules.specs.declared.width.Width.{Width};
ghost use Rattle.trac_rules.specs.declared.width.Width.TheVariants.{W64, W128};
ghost use Rattle.trac_rules.specs.Rows.{Calculates, ProductsEnd, QuotientsEnd, ReadsAs, SumsEnd};

/// The numeral of a text, which is found as the first tail of the form, is its longest one: a tail of the form or
/// empty, with the prefix before it, and no tail of the form is longer.
pub fn numeral_is_longest()
    ensures parts { (text : List ℕ) → prefix_of text ++ numeral_of text ≡ text }
    ensures form { (text : List ℕ) → IsNumeralOrNull (numeral_of text) }
    ensures longest { (text front tail : List ℕ) → text ≡ front ++ tail → is_numeral tail ≡ true →
        length tail ≤ length (numeral_of text) }
{}

/// A number that fits 64 bits fits 128 bits too. So a numeral that has a number of 64 bits has the same one of 128
/// bits, and two numbers that have a result of 64 bits have the same one of 128 bits.
pub fn narrow_numbers_stay()
    ensures fitting { (n : ℤ) → fits W64 n ≡ true → fits W128 n ≡ true }
    ensures read { (numeral : List ℕ) (n : ℤ) → number_of W64 numeral ≡ Some n → number_of W128 numeral ≡ Some n }
    ensures calculated { (operation : Operation) (a b n : ℤ) → result_of operation W64 a b ≡ Some n →
        result_of operation W128 a b ≡ Some n }
{}

/// A quotient is cut toward zero.
pub fn quotient_is_cut()
    ensures { (width : Width) (a b q : ℤ) → quotient_of width a b ≡ Some q → IsCutQuotient a b q }
{}

/// A number of the range that is printed is a numeral, and is read back as the same number.
#[tactic(auto, using(crate::proofs::Calculated::printed_form, crate::proofs::Calculated::printed_number))]
pub fn printed_is_read_back()
    ensures form { (width : Width) (n : ℤ) → fits width n ≡ true → is_numeral (number_text n) ≡ true }
    ensures number { (width : Width) (n : ℤ) → fits width n ≡ true → number_of width (number_text n) ≡ Some n }
{}

/// What stands at the end of texts, and what is calculated from it.
pub fn worked_numerals()
    // A numeral with and without a sign, after a prefix.
    ensures plain { ReadsAs "apples5" "apples" "5" (pos 5) }
    ensures minus { ReadsAs "a-5" "a" "-5" (neg_ℤ (pos 5)) }
    // A numeral has one sign at most.
    ensures two_signs { ReadsAs "--4" "-" "-4" (neg_ℤ (pos 4)) }
    // Leading zeros are allowed.
    ensures zeros { ReadsAs "+0012" "" "+0012" (pos 12) }
    // Without a numeral the whole text is the prefix, and the number is 0.
    ensures sign_last { ReadsAs "5-" "5-" "" (pos 0) }
    ensures null { ReadsAs "" "" "" (pos 0) }
    // Minus zero is zero.
    ensures minus_zero { number_of W128 (codes "-0") ≡ Some (pos 0) }
    // The prefix of the first text stands before the result.
    ensures difference { Calculates difference_of W128 "a-5" "b2" "a-7" }
    ensures after_a_sign { Calculates sum_of W128 "--4" "1" "--3" }
    ensures after_all { Calculates sum_of W128 "5-" "3" "5-3" }
    ensures times_zero { Calculates product_of W128 "x" "3" "x0" }
    // A quotient is cut toward zero.
    ensures cut { Calculates quotient_of W128 "7" "-2" "-3" }
    ensures cut_negative { Calculates quotient_of W128 "-7" "2" "-3" }
    // Whole numbers are compared, of any length.
    ensures minus_zero_first { is_greater (codes "-0") (codes "0") ≡ false }
    ensures minus_zero_second { is_greater (codes "0") (codes "-0") ≡ false }
    ensures longer { is_greater (numeral_of (codes "a10")) (numeral_of (codes "b9")) ≡ true }
    ensures leading_zeros { is_greater (codes "0009") (codes "10") ≡ false }
    ensures past_the_range { is_greater (codes "340282366920938463463374607431768211457")
        (codes "340282366920938463463374607431768211456") ≡ true }
{}

/// Where numbers of each width end.
pub fn worked_widths()
    // The ends of the range of 64 bits, and what lies one past them; leading zeros do not count.
    ensures narrow_least { number_of W64 (codes "-9223372036854775808") ≡ Some (neg_ℤ (pos 9223372036854775808)) }
    ensures narrow_below_least { number_of W64 (codes "-9223372036854775809") ≡ None }
    ensures narrow_greatest { number_of W64 (codes "9223372036854775807") ≡ Some (pos 9223372036854775807) }
    ensures narrow_above_greatest { number_of W64 (codes "9223372036854775808") ≡ None }
    ensures narrow_zeros { number_of W64 (codes "-000000000000000000000000000000000000000009223372036854775808")
        ≡ Some (neg_ℤ (pos 9223372036854775808)) }
    // Results at the ends of 64 bits, and one past them; an operand that does not fit has no result, whatever would be
    // made of it.
    ensures narrow_sums { SumsEnd W64 "9223372036854775806" "9223372036854775807" "9223372036854775808"
        "-9223372036854775807" "-9223372036854775808" "-9223372036854775809" }
    ensures narrow_products { ProductsEnd W64 "4294967296" "2147483648" "-4294967296" "9223372036854775807"
        "9223372036854775808" "-9223372036854775808" }
    ensures narrow_quotients { QuotientsEnd W64 "9223372036854775807" "9223372036854775808" "-9223372036854775807"
        "-9223372036854775808" }
    // The ends of the range of 128 bits, and what lies one past them; leading zeros do not count.
    ensures wide_least { number_of W128 (codes "-170141183460469231731687303715884105728")
        ≡ Some (neg_ℤ (pos 170141183460469231731687303715884105728)) }
    ensures wide_below_least { number_of W128 (codes "-170141183460469231731687303715884105729") ≡ None }
    ensures wide_greatest { number_of W128 (codes "170141183460469231731687303715884105727")
        ≡ Some (pos 170141183460469231731687303715884105727) }
    ensures wide_above_greatest { number_of W128 (codes "170141183460469231731687303715884105728") ≡ None }
    ensures wide_zeros { number_of W128
        (codes "-00000000000000000000000000000000000000000170141183460469231731687303715884105728")
        ≡ Some (neg_ℤ (pos 170141183460469231731687303715884105728)) }
    // Results at the ends of 128 bits, and one past them; an operand that does not fit has no result, whatever would be
    // made of it.
    ensures wide_sums { SumsEnd W128 "170141183460469231731687303715884105726" "170141183460469231731687303715884105727"
        "170141183460469231731687303715884105728" "-170141183460469231731687303715884105727"
        "-170141183460469231731687303715884105728" "-170141183460469231731687303715884105729" }
    ensures wide_products { ProductsEnd W128 "18446744073709551616" "9223372036854775808" "-18446744073709551616"
        "170141183460469231731687303715884105727" "170141183460469231731687303715884105728"
        "-170141183460469231731687303715884105728" }
    ensures wide_quotients { QuotientsEnd W128 "170141183460469231731687303715884105727"
        "170141183460469231731687303715884105728" "-170141183460469231731687303715884105727"
        "-170141183460469231731687303715884105728" }
    // What does not fit 64 bits may fit 128.
    ensures wider_operand { Calculates sum_of W128 "9223372036854775808" "-1" "9223372036854775807" }
    ensures wider_product { Calculates product_of W128 "9223372036854775808" "9223372036854775808"
        "85070591730234615865843651857942052864" }
    ensures wider_quotient { Calculates quotient_of W128 "-9223372036854775808" "-1" "9223372036854775808" }
{}
