//! Where bytes come from by a call.
ghost use Rattle.std.specs.Prelude.{◌≡◌, ◌+◌, false, length, true, IfOk, MatchBool, OnErr};
ghost use Rattle.trac_origins.specs.Lengths.{is_silent};
ghost use Rattle.trac_origins.specs.Places.{InActive, InForm, InHeld, InOutput};
ghost use Rattle.trac_rules.specs.declared.primitive.BlockAction.TheVariants.{StoreBlock};
ghost use Rattle.trac_rules.specs.declared.primitive.Primitive.TheVariants.{HandleBlock};
ghost use Rattle.trac_rules.specs.declared.width.Width.{Width};
ghost use Rattle.trac_rules.specs.Effect.{argument};
ghost use Rattle.trac_rules.specs.Performing.{primitive_of};
ghost use Rattle.trac_rules.specs.Scanning.{Call, Calls, scan};
ghost use Rattle.trac_follow_step.specs.declared.place.After.{After as Lengths};
ghost use Rattle.trac_follow_step.specs.Putting.{put_by};
ghost use Rattle.trac_follow_step.specs.Places.{IsCalling, IsListing, IsTakenOut, TellsOf, ToldAsPrinted};
ghost use Rattle.trac_follow_step.specs.Places.{is_from_form, is_in_text, place_of};

use crate::fetched::before_fetch;
use crate::formed::{Printed, cut_item, printed_at, shown_byte};
use crate::place::{After, Origin, Place};
use crate::standing::{past_current, stands_around};
use crate::valued::{Asked, argument_byte, value_byte};
use std::alloc::{AllocError, Allocator};
use trac_gap::TwoEnds;
use trac_prims::{Args, primitive_named};
use trac_rules::primitive::{BlockAction, FormAction, Primitive};
use trac_rules::width::Width;
use trac_step::{Core, Mark};

// Where what stands at a place comes from, after a step that performs this call and leaves texts of these lengths. The
// error is that memory was refused, here and below.
pub(crate) fn called<'a, E: TwoEnds<u8, A>, M: TwoEnds<Mark, A>, A: Allocator + Copy>(
    before: &Core<E, M, A>,
    width: Width,
    after: After,
    arguments: &Args<'_>,
    place: Place<'a>,
) -> Result<Origin<'a>, AllocError>
    requires call { IsCalling before.now.state arguments.now }
    ensures tells { IfOk result (λ origin. TellsOf before.now.state width after (place_of place.entry) origin) }
    ensures taken { IfOk result (λ origin. IsTakenOut (place_of place.entry) origin) }
    ensures lists { OnErr result (IsListing before.now.state) }
{
    match place {
        Place::Active(i) => of_active(before, width, after, arguments, i),
        Place::Form(name, i) => Ok(of_form(before, after, arguments, name, i)),
        Place::Held(number, name, i) => Ok(of_block(before, arguments, number, name, i)),
        Place::Output(i) => Ok(of_output(before, after, arguments, i)),
        Place::Base(_) | Place::Argument { .. } => of_text(before, width, arguments, place),
    }
}

// The number of the innermost function, which a call ends.
fn innermost<E: TwoEnds<u8, A>, M: TwoEnds<Mark, A>, A: Allocator + Copy>(
    before: &Core<E, M, A>,
) -> usize
    ensures { (call : Call) → scan before.now.state ≡ Calls call → result + 1 ≡ length before.now.state.frames }
{
    before.depth().saturating_sub(1)
}

// Of the active text: the value, if it is scanned, and then what was left.
fn of_active<'a, E: TwoEnds<u8, A>, M: TwoEnds<Mark, A>, A: Allocator + Copy>(
    before: &Core<E, M, A>,
    width: Width,
    after: After,
    arguments: &Args<'_>,
    i: usize,
) -> Result<Origin<'a>, AllocError>
    requires call { IsCalling before.now.state arguments.now }
    ensures tells { IfOk result (λ origin. TellsOf before.now.state width after (InActive i) origin) }
    ensures taken { IfOk result (λ origin. IsTakenOut (InActive i) origin) }
    ensures lists { OnErr result (IsListing before.now.state) }
{
    let rest = before.active().len().saturating_sub(1);
    if after.active < rest {
        return Ok(Origin::Nothing);
    }
    let value = after.active - rest;
    if i < value {
        let asked = Asked {
            function: innermost(before),
            width,
            seen: Some(value),
            byte: i,
        };
        return value_byte(before, arguments, asked);
    }
    if i - value >= rest {
        return Ok(Origin::Nothing);
    }
    Ok(Origin::Carried(Place::Active(i - value + 1)))
}

// Of the texts without the function: what stood there, and after the current text the value, if it is not scanned.
fn of_text<'a, E: TwoEnds<u8, A>, M: TwoEnds<Mark, A>, A: Allocator + Copy>(
    before: &Core<E, M, A>,
    width: Width,
    arguments: &Args<'_>,
    place: Place<'a>,
) -> Result<Origin<'a>, AllocError>
    requires call { IsCalling before.now.state arguments.now }
    requires text { is_in_text (place_of place) ≡ true }
    ensures tells { IfOk result
        (λ origin. (after : Lengths) → TellsOf before.now.state width after (place_of place.entry) origin) }
    ensures taken { IfOk result (λ origin. IsTakenOut (place_of place.entry) origin) }
    ensures lists { OnErr result (IsListing before.now.state) }
{
    let function = innermost(before);
    if stands_around(before, function, place) {
        return Ok(Origin::Carried(place));
    }
    let asked = Asked {
        function,
        width,
        seen: None,
        byte: past_current(before, function, place),
    };
    value_byte(before, arguments, asked)
}

// Of the output: what was printed, then the line of the trace, and what the primitive prints.
fn of_output<'a, E: TwoEnds<u8, A>, M: TwoEnds<Mark, A>, A: Allocator + Copy>(
    before: &Core<E, M, A>,
    after: After,
    arguments: &Args<'_>,
    i: usize,
) -> Origin<'a>
    requires call { IsCalling before.now.state arguments.now }
    ensures tells { (width : Width) → TellsOf before.now.state width after (InOutput i) result }
    ensures taken { IsTakenOut (InOutput i) result }
{
    if i < before.output().len() {
        return Origin::Carried(Place::Output(i));
    }
    let primitive = primitive_named(arguments.get(0));
    if is_silent(primitive) {
        return Origin::Made;
    }
    match primitive {
        Primitive::PrintString => {
            printed(arguments.get(1).len(), innermost(before), after.output, i)
        }
        // No other primitive but `pf` prints.
        _ => shown_byte(before, arguments.get(1), after.output, i),
    }
}

// Whether a primitive prints nothing.
fn is_silent(primitive: Primitive) -> bool
    ensures { result ≡ is_silent primitive }
{
    !matches!(
        primitive,
        Primitive::PrintString | Primitive::Handle(FormAction::PrintForm)
    )
}

// Of what `ps` prints, a text that is so long, after which the output ends.
fn printed<'a>(text: usize, function: usize, end: usize, i: usize) -> Origin<'a>
    ensures tells { ToldAsPrinted text function end i result }
    ensures taken { is_from_form result ≡ false }
{
    match printed_at(text, end, i) {
        Printed::Text(byte) => argument_byte(function, 1, byte),
        Printed::Line => Origin::Made,
        Printed::Nowhere => Origin::Nothing,
    }
}

// Of a form.
fn of_form<'a, E: TwoEnds<u8, A>, M: TwoEnds<Mark, A>, A: Allocator + Copy>(
    before: &Core<E, M, A>,
    after: After,
    arguments: &Args<'_>,
    name: &'a [u8],
    i: usize,
) -> Origin<'a>
    requires call { IsCalling before.now.state arguments.now }
    ensures tells { (width : Width) → TellsOf before.now.state width after (InForm name.now i) result }
    ensures taken { IsTakenOut (InForm name.now i) result }
{
    match put_by(arguments, name) {
        Put::Text if i < arguments.get(2).len() => argument_byte(innermost(before), 2, i),
        Put::Text => Origin::Nothing,
        Put::Cut => cut_item(before, name, after),
        Put::Fetched => Origin::Carried(before_fetch(before.store(), arguments.get(1), name, i)),
        Put::Address => Origin::Made,
        Put::Nothing => Origin::Carried(Place::Form(name, i)),
    }
}

// What a call puts under a name.
#[derive(Clone, Copy)]
pub(crate) enum Put {
    // Its argument 2.
    Text,
    // The form that stood there, cut.
    Cut,
    // A form of a block, if that holds one of this name.
    Fetched,
    // The number of a new block.
    Address,
    // Nothing: what stood there stays.
    Nothing,
}

// What a call with these arguments puts under a name.
pub(crate) fn put_by(arguments: &Args<'_>, name: &[u8]) -> Put
    ensures { result ≡ put_by (primitive_of (argument 0 arguments.now)) (argument 1 arguments.now) name.now }
{
    let is_given = name == arguments.get(1);
    match primitive_named(arguments.get(0)) {
        Primitive::Handle(FormAction::Define) if is_given => Put::Text,
        Primitive::Handle(FormAction::Segment) if is_given => Put::Cut,
        Primitive::HandleBlock(BlockAction::StoreBlock) if is_given => Put::Address,
        Primitive::HandleBlock(BlockAction::FetchBlock) => Put::Fetched,
        _ => Put::Nothing,
    }
}

// Of a form that a block holds, which held it before, or of a new block, whose forms were among the others.
fn of_block<'a, E: TwoEnds<u8, A>, M: TwoEnds<Mark, A>, A: Allocator + Copy>(
    before: &Core<E, M, A>,
    arguments: &Args<'_>,
    number: usize,
    name: &'a [u8],
    i: usize,
) -> Origin<'a>
    requires call { IsCalling before.now.state arguments.now }
    ensures tells { (width : Width) (after : Lengths) →
        TellsOf before.now.state width after (InHeld number name.now i) result }
    ensures taken { IsTakenOut (InHeld number name.now i) result }
{
    let count = before.store().block_count();
    if number < count {
        return Origin::Carried(Place::Held(number, name, i));
    }
    if number > count {
        return Origin::Nothing;
    }
    if stores_block(primitive_named(arguments.get(0))) {
        return Origin::Carried(Place::Form(name, i));
    }
    Origin::Nothing
}

// Whether a primitive puts forms into a new block.
fn stores_block(primitive: Primitive) -> bool
    ensures { MatchBool result (primitive ≡ HandleBlock StoreBlock) (primitive ≡ HandleBlock StoreBlock → ⊥) }
{
    matches!(primitive, Primitive::HandleBlock(BlockAction::StoreBlock))
}
