//! Where the bytes of a value come from.
ghost use Rattle.std.specs.Prelude.{◌≡◌, ◌+◌, false, length, ℕ, IfOk, OnErr};
ghost use Rattle.trac_rules.specs.Effect.{argument};
ghost use Rattle.trac_rules.specs.Number.{is_greater, numeral_of};
ghost use Rattle.trac_rules.specs.Performing.{primitive_of};
ghost use Rattle.trac_rules.specs.declared.primitive.Computation.TheVariants.{Calculate};
ghost use Rattle.trac_rules.specs.declared.primitive.FormAction.TheVariants.{ListNames};
ghost use Rattle.trac_rules.specs.declared.primitive.Primitive.TheVariants.{Handle};
ghost use Rattle.trac_origins.specs.Lengths.{number_chosen};
ghost use Rattle.trac_follow_step.specs.declared.place.Origin.TheVariants.{Carried};
ghost use Rattle.trac_follow_step.specs.declared.place.Place.TheVariants.{Argument};
ghost use Rattle.trac_follow_step.specs.Formed.{ToldAsListed};
ghost use Rattle.trac_follow_step.specs.Places.{IsCalling, IsListing, TellsComputed, TellsValue, ToldAsRead};
ghost use Rattle.trac_follow_step.specs.Places.{is_from_form};

use crate::formed::{called_byte, read_byte_of};
use crate::place::{Origin, Place};
use std::alloc::{AllocError, Allocator};
use trac_gap::TwoEnds;
use trac_num::{greater, read_tail};
use trac_prims::{Args, primitive_named, result_on};
use trac_rules::primitive::{Computation, FormAction, Operation, Primitive};
use trac_rules::width::Width;
use trac_step::{Core, Mark};

// A byte of the value of a call that is asked for.
#[derive(Clone, Copy)]
pub(crate) struct Asked {
    // The number of the call's function.
    pub function: usize,
    // How wide numbers are.
    pub width: Width,
    // How long the value is, if it is scanned.
    pub seen: Option<usize>,
    // The byte's number in the value.
    pub byte: usize,
}

// Where the byte comes from that is asked for of the value of the next step, which performs a call with these
// arguments. The error is that memory was refused, here and below.
pub(crate) fn value_byte<'a, E: TwoEnds<u8, A>, M: TwoEnds<Mark, A>, A: Allocator + Copy>(
    before: &Core<E, M, A>,
    arguments: &Args<'_>,
    asked: Asked,
) -> Result<Origin<'a>, AllocError>
    requires call { IsCalling before.now.state arguments.now }
    requires number { asked.function + 1 ≡ length before.now.state.frames }
    ensures tells { IfOk result (λ origin. TellsValue before.now.state asked.width asked.seen asked.byte origin) }
    ensures taken { IfOk result (λ origin. is_from_form origin ≡ false) }
    ensures lists { OnErr result (IsListing before.now.state) }
{
    match primitive_named(arguments.get(0)) {
        Primitive::ReadString | Primitive::ReadByte => Ok(read_byte(before.position(), asked.byte)),
        Primitive::Compute(computation) => Ok(computed_byte(computation, arguments, asked)),
        Primitive::Handle(action) => handled_byte(action, before, arguments, asked),
        _ => Ok(Origin::Nothing),
    }
}

// Of a call on forms.
fn handled_byte<'a, E: TwoEnds<u8, A>, M: TwoEnds<Mark, A>, A: Allocator + Copy>(
    action: FormAction,
    before: &Core<E, M, A>,
    arguments: &Args<'_>,
    asked: Asked,
) -> Result<Origin<'a>, AllocError>
    requires call { IsCalling before.now.state arguments.now }
    requires named { primitive_of (argument 0 arguments.now) ≡ Handle action }
    requires number { asked.function + 1 ≡ length before.now.state.frames }
    ensures tells { IfOk result (λ origin. TellsValue before.now.state asked.width asked.seen asked.byte origin) }
    ensures taken { IfOk result (λ origin. is_from_form origin ≡ false) }
    ensures lists { OnErr result (IsListing before.now.state) }
{
    if let FormAction::ListNames = action {
        return listed_byte(before, arguments.get(1).len(), asked.function, asked.byte);
    }
    let Some(form) = before.store().get(arguments.get(1)) else {
        return Ok(Origin::Nothing);
    };
    match action {
        FormAction::Call => Ok(called_byte(form, arguments, asked.function, asked.byte)),
        FormAction::Read(reading) => Ok(read_byte_of(reading, form, arguments, asked)),
        _ => Ok(Origin::Nothing),
    }
}

// Of the value of `ln`, which has a text of this length before each name: of the text, and names are made.
fn listed_byte<'a, E: TwoEnds<u8, A>, M: TwoEnds<Mark, A>, A: Allocator + Copy>(
    before: &Core<E, M, A>,
    text: usize,
    function: usize,
    i: usize,
) -> Result<Origin<'a>, AllocError>
    ensures tells { IfOk result (λ origin. ToldAsListed before.now.state.forms text function i origin) }
    ensures taken { IfOk result (λ origin. is_from_form origin ≡ false) }
{
    let Ok(found) = before.store().byte_listed(text, i) else {
        return Err(AllocError);
    };
    match found {
        Some(byte) if byte < text => Ok(argument_byte(function, 1, byte)),
        Some(_) => Ok(Origin::Made),
        None => Ok(Origin::Nothing),
    }
}

// Of a text of the input, which the step reads from the position on.
fn read_byte<'a>(position: usize, i: usize) -> Origin<'a>
    ensures tells { ToldAsRead position i result }
    ensures taken { is_from_form result ≡ false }
{
    if i > usize::MAX - position {
        return Origin::Nothing;
    }
    Origin::Read(position + i)
}

// Of a computation with these arguments.
fn computed_byte<'a>(computation: Computation, arguments: &Args<'_>, asked: Asked) -> Origin<'a>
    ensures tells { TellsComputed computation arguments.now asked.function asked.width asked.byte result }
    ensures taken { is_from_form result ≡ false }
{
    match computation {
        Computation::Equal => argument_byte(
            asked.function,
            chosen(arguments.get(1) == arguments.get(2)),
            asked.byte,
        ),
        Computation::Greater => {
            let first = read_tail(arguments.get(1)).numeral;
            let second = read_tail(arguments.get(2)).numeral;
            argument_byte(asked.function, chosen(greater(first, second)), asked.byte)
        }
        Computation::Calculate(operation) => calculated_byte(operation, arguments, asked),
        _ => Origin::Made,
    }
}

// A byte of an argument of this function.
pub(crate) fn argument_byte<'a>(function: usize, argument: usize, byte: usize) -> Origin<'a>
    ensures { result ≡ Carried (Argument function argument byte) }
{
    Origin::Carried(Place::Argument {
        function,
        argument,
        byte,
    })
}

// Which argument a decision gives.
fn chosen(first: bool) -> usize
    ensures { result ≡ number_chosen first }
{
    if first { 3 } else { 4 }
}

// ---- numbers

// Of `ad`, `su`, `ml` or `dv`: the prefix is that of the first number, and the digits are made. If there is no result,
// the byte is of the default argument.
fn calculated_byte<'a>(operation: Operation, arguments: &Args<'_>, asked: Asked) -> Origin<'a>
    ensures tells { TellsComputed (Calculate operation) arguments.now asked.function asked.width asked.byte result }
    ensures taken { is_from_form result ≡ false }
{
    if result_on(operation, arguments, asked.width).is_none() {
        return argument_byte(asked.function, 3, asked.byte);
    }
    if asked.byte < read_tail(arguments.get(1)).prefix.len() {
        return argument_byte(asked.function, 1, asked.byte);
    }
    Origin::Made
}
