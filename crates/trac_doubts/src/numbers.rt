//! Arguments that count as numbers, and results.
ghost use Rattle.std.specs.Prelude.{◌≡◌, ◌++◌, length, nat_lt, OnOk, IsOkUnless};
ghost use Rattle.std.specs.Option.{option_to_list};
ghost use Rattle.trac_rules.specs.Doubts.{has_no_number, number_doubts, numbers_read, result_doubts};

use std::alloc::Allocator;
use trac_num::read_tail;
use trac_prims::result_on;
use trac_rules::doubt::Doubt;
use trac_rules::primitive::{Computation, FormAction, FormReading, Primitive};
use trac_rules::refusal::Refusal;
use trac_rules::width::Width;
use trac_text::Args;

// Whether one of the arguments that a primitive reads as numbers is not null, and has none.
pub(crate) fn has_no_numbers(primitive: Primitive, args: &Args<'_>) -> bool
    ensures { result ≡ nat_lt 0 (length (number_doubts primitive args.now)) }
{
    for k in numbers_read(primitive) {
        if has_no_number(args.get(*k)) {
            return true;
        }
    }
    false
}

// Puts the doubt of each of them at the end of `out`.
pub(crate) fn number_doubts_into<B: Allocator>(
    primitive: Primitive,
    args: &Args<'_>,
    out: &mut Vec<Doubt, B>,
) -> Result<(), Refusal>
    ensures ok { OnOk result (out.new.items ≡ out.old.items ++ number_doubts primitive args.now) }
    ensures err { IsOkUnless result Refusal.Memory }
{
    for k in numbers_read(primitive) {
        if has_no_number(args.get(*k)) {
            out.push(Doubt::NoNumber(*k))?;
        }
    }
    Ok(())
}

// Which arguments a primitive reads as decimals.
fn numbers_read(primitive: Primitive) -> &'static [usize]
    ensures { result.now ≡ numbers_read primitive }
{
    match primitive {
        Primitive::Compute(Computation::Greater | Computation::Calculate(_)) => &[1, 2],
        Primitive::Compute(Computation::Shift | Computation::Rotate) => &[1],
        Primitive::Handle(FormAction::Read(FormReading::ReadCount)) => &[2],
        _ => &[],
    }
}

// Whether a text is not null, and has no number at its end.
fn has_no_number(text: &[u8]) -> bool
    ensures { result ≡ has_no_number text.now }
{
    !text.is_empty() && read_tail(text).numeral.is_empty()
}

// The doubt of an operation that gives no result, by a call that has no argument in its place.
pub(crate) fn result_doubt(primitive: Primitive, args: &Args<'_>, width: Width) -> Option<Doubt>
    ensures { option_to_list result ≡ result_doubts primitive width args.now }
{
    let Primitive::Compute(Computation::Calculate(operation)) = primitive else {
        return None;
    };
    if result_on(operation, args, width).is_some() {
        return None;
    }
    // Argument 3, if there is one, is given in place of the result.
    (args.count() <= 3).then_some(Doubt::NoResult)
}
