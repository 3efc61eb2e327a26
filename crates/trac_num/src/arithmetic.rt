//! Arithmetic on numbers of a width. `None` stands for a result that does not fit. Sums and differences are always
//! calculated in 128 bits, which costs little more. Products and quotients of 128 bits take much longer: so these are
//! calculated in 64 bits if both numbers and the result fit these.
ghost use Rattle.std.specs.Prelude.{◌≡◌, MatchOption, Some, IfSome, false, true};
ghost use Rattle.std.specs.Option.{option_and_then};
ghost use Rattle.trac_rules.specs.Number.{difference_of, fits, if_fits, product_of, quotient_of, sum_of};
ghost use Rattle.trac_rules.specs.declared.width.Width.TheVariants.{W64};

use trac_rules::width::Width;

// A number in 64 bits. `None`: it does not fit them.
fn narrow(n: i128) -> Option<i64>
    ensures { MatchOption result (fits W64 n ≡ false) (λ x. (x ≡ n) × (fits W64 n ≡ true)) }
{
    i64::try_from(n).ok()
}

// What there is in 128 bits, if it fits the width.
fn within(exact: Option<i128>, width: Width) -> Option<i128>
    ensures { result ≡ option_and_then (if_fits width) exact }
{
    let n = exact?;
    if width == Width::W64 && narrow(n).is_none() {
        return None;
    }
    Some(n)
}

// The product of numbers of 64 bits, if it is one too.
fn narrow_product(a: i128, b: i128) -> Option<i64>
    ensures { IfSome result (λ n. product_of W64 a b ≡ Some n) }
{
    let first = narrow(a)?;
    let second = narrow(b)?;
    first.checked_mul(second)
}

// The quotient of numbers of 64 bits, if it is one too.
fn narrow_quotient(a: i128, b: i128) -> Option<i64>
    ensures { IfSome result (λ n. quotient_of W64 a b ≡ Some n) }
{
    let first = narrow(a)?;
    let second = narrow(b)?;
    first.checked_div(second)
}

/// The sum. `None`: it does not fit the width.
pub fn add(a: i128, b: i128, width: Width) -> Option<i128>
    ensures { result ≡ sum_of width a b }
{
    within(a.checked_add(b), width)
}

/// `a` less `b`. `None`: it does not fit the width.
pub fn sub(a: i128, b: i128, width: Width) -> Option<i128>
    ensures { result ≡ difference_of width a b }
{
    within(a.checked_sub(b), width)
}

/// The product. `None`: it does not fit the width.
pub fn mul(a: i128, b: i128, width: Width) -> Option<i128>
    ensures { result ≡ product_of width a b }
{
    if let Some(n) = narrow_product(a, b) {
        return Some(n as i128);
    }
    within(a.checked_mul(b), width)
}

/// `a` by `b`, cut toward zero. `None`: `b` is 0, or the quotient does not fit the width.
pub fn div(a: i128, b: i128, width: Width) -> Option<i128>
    ensures { result ≡ quotient_of width a b }
{
    if let Some(n) = narrow_quotient(a, b) {
        return Some(n as i128);
    }
    within(a.checked_div(b), width)
}
