//! Calls whose value is made of their arguments alone: decisions, numbers and bit strings.
ghost use Rattle.std.specs.Prelude.{◌≡◌, ◌++◌, List, ℕ, Ok, IfOk, IsOkUnless, OnOk, cond};
ghost use Rattle.trac_rules.specs.Computing.{chosen, computed, number_argument, result_of};
ghost use Rattle.trac_rules.specs.Effect.{argument, gives};
ghost use Rattle.trac_rules.specs.Number.{on_both};
ghost use Rattle.trac_rules.specs.Octal.{IsOctal, octal_tail};
ghost use Rattle.trac_rules.specs.State.{Storage};
ghost use Rattle.trac_rules.specs.declared.primitive.Computation.TheVariants.{Calculate, Rotate, Shift};
ghost use Rattle.trac_change.specs.declared.change.UnnamedChange.TheVariants.{Keep};
ghost use Rattle.trac_prims.specs.Effects.{IsDone};

use crate::effect::{Deed, Made, NOTHING};
use std::alloc::Allocator;
use trac_num::{
    add, complement, div, greater, meet, mul, octal_tail, print_into, read_tail, rotate, shift,
    sub, union, value,
};
use trac_rules::primitive::{Computation, Operation};
use trac_rules::refusal::Refusal;
use trac_rules::width::Width;
use trac_text::Args;

// What a primitive does that looks at its arguments alone.
pub(crate) fn compute<A: Allocator + Copy>(
    alloc: A,
    computation: Computation,
    args: &Args<'_>,
    width: Width,
    made: &mut Made<A>,
) -> Result<Deed, Refusal>
    ensures { (storage : Storage) →
        IsDone args.now storage (Ok (computed computation width args.now storage)) made.old made.new Keep result }
{
    match computation {
        Computation::Equal => give(choose(args.get(1) == args.get(2), args), made),
        Computation::Greater => {
            let first = read_tail(args.get(1)).numeral;
            let second = read_tail(args.get(2)).numeral;
            give(choose(greater(first, second), args), made)
        }
        Computation::Calculate(operation) => calculate(operation, args, width, made),
        Computation::Union => give(
            union(alloc, octal_at(args, 1), octal_at(args, 2))?.as_slice(),
            made,
        ),
        Computation::Meet => give(
            meet(alloc, octal_at(args, 1), octal_at(args, 2))?.as_slice(),
            made,
        ),
        Computation::Complement => give(complement(alloc, octal_at(args, 1))?.as_slice(), made),
        Computation::Shift => give(moved_of(alloc, false, args, width)?.as_slice(), made),
        Computation::Rotate => give(moved_of(alloc, true, args, width)?.as_slice(), made),
    }
}

// Gives a text as the value.
fn give<A: Allocator + Copy>(text: &[u8], made: &mut Made<A>) -> Result<Deed, Refusal>
    ensures { (arguments : List (List ℕ)) (storage : Storage) →
        IsDone arguments storage (Ok (gives text.now storage)) made.old made.new Keep result }
{
    made.value.extend_from_slice(text)?;
    Ok(NOTHING)
}

/// The number of the argument of this place, the name being at 0: its numeral, the prefix dropped; `None` if it does
/// not fit the width. A text without a numeral has the number 0, as has an argument that is not given.
pub fn number_at(args: &Args<'_>, k: usize, width: Width) -> Option<i128>
    ensures { result ≡ number_argument width k args.now }
{
    value(read_tail(args.get(k)).numeral, width)
}

// ---- decisions

// The argument that a decision gives.
fn choose<'a>(first: bool, args: &Args<'a>) -> &'a [u8]
    ensures { result.now ≡ chosen first args.now }
{
    if first { args.get(3) } else { args.get(4) }
}

// ---- numbers

// `ad`, `su`, `ml` and `dv`: the prefix of the first number, and then the result; if there is no result, the default
// argument, which is forced.
fn calculate<A: Allocator + Copy>(
    operation: Operation,
    args: &Args<'_>,
    width: Width,
    made: &mut Made<A>,
) -> Result<Deed, Refusal>
    ensures { (storage : Storage) → IsDone args.now storage (Ok (computed (Calculate operation) width args.now storage))
        made.old made.new Keep result }
{
    let Some(n) = result_on(operation, args, width) else {
        made.value.extend_from_slice(args.get(3))?;
        return Ok(Deed {
            forced: true,
            ..NOTHING
        });
    };
    put_prefix(read_tail(args.get(1)).prefix, &mut made.value)?;
    print_into(n, &mut made.value)?;
    Ok(NOTHING)
}

// Puts the prefix of a number at the end of `out`. Most numbers have none, and then nothing is called.
fn put_prefix<A: Allocator + Copy>(prefix: &[u8], out: &mut Vec<u8, A>) -> Result<(), Refusal>
    ensures items { OnOk result (out.new.items ≡ out.old.items ++ prefix.now) }
    ensures err { IsOkUnless result Refusal.Memory }
{
    if !prefix.is_empty() {
        out.extend_from_slice(prefix)?;
    }
    Ok(())
}

/// The result of `ad`, `su`, `ml` or `dv` on the numbers of the two arguments after the name; `None` if one of them or
/// the result does not fit the width, or the divisor is 0.
pub fn result_on(operation: Operation, args: &Args<'_>, width: Width) -> Option<i128>
    ensures { result
        ≡ on_both (result_of operation width) (number_argument width 1 args.now) (number_argument width 2 args.now) }
{
    let a = number_at(args, 1, width)?;
    let b = number_at(args, 2, width)?;
    match operation {
        Operation::Add => add(a, b, width),
        Operation::Subtract => sub(a, b, width),
        Operation::Multiply => mul(a, b, width),
        Operation::Divide => div(a, b, width),
    }
}

// ---- bit strings

// `bs`, or `br` if it rotates: an octal string with its bits moved, or rotated; empty if the number does not fit.
fn moved_of<A: Allocator + Copy>(
    alloc: A,
    rotates: bool,
    args: &Args<'_>,
    width: Width,
) -> Result<Vec<u8, A>, Refusal>
    ensures made { IfOk result (λ text. (storage : Storage) →
        computed (cond rotates Rotate Shift) width args.now storage ≡ gives text.items storage) }
    ensures err { IsOkUnless result Refusal.Memory }
{
    match number_at(args, 1, width) {
        Some(by) if rotates => Ok(rotate(alloc, by, octal_at(args, 2))?),
        Some(by) => Ok(shift(alloc, by, octal_at(args, 2))?),
        None => Ok(Vec::new(alloc)),
    }
}

// The octal string at the end of an argument.
fn octal_at<'a>(args: &Args<'a>, k: usize) -> &'a [u8]
    ensures value { result.now ≡ octal_tail (argument k args.now) }
    ensures octal { IsOctal result.now }
{
    octal_tail(args.get(k))
}
