//! What stands at a place, and what is past the current text.
ghost use Rattle.std.specs.Prelude.{◌≡◌, ◌+◌, ◌-◌, ◌<◌, ◌≤◌, drop, false, length, true, Some, IsTrue};
ghost use Rattle.std.specs.Prelude.{option_copied, slice_get, ℕ};
ghost use Rattle.trac_origins.specs.Lengths.{current_text, in_current, is_of_text};
ghost use Rattle.trac_origins.specs.Places.{byte_at, items_of, InArgument};
ghost use Rattle.trac_rules.specs.declared.item.Item.{Item};
ghost use Rattle.trac_follow_step.specs.Places.{IsBare, IsOutside, Stands, is_in_text, place_of};

use crate::fetched::held_in;
use crate::place::Place;
use std::alloc::Allocator;
use trac_forms::Form;
use trac_gap::TwoEnds;
use trac_step::{Core, Mark};

/// Whether something stands at a place of a machine: a byte in the texts or in the output, an item in a form or in a
/// block.
pub fn stands<E: TwoEnds<u8, A>, M: TwoEnds<Mark, A>, A: Allocator + Copy>(
    machine: &Core<E, M, A>,
    place: Place<'_>,
) -> bool
    ensures there { IsTrue result → Stands machine.now.state (place_of place.entry) }
    ensures bare { result ≡ false → IsBare machine.now.state (place_of place.entry) }
{
    match place {
        Place::Active(i) => has_byte(machine.active(), i),
        Place::Base(i) => has_byte(machine.base(), i),
        Place::Argument {
            function,
            argument,
            byte,
        } => stands_in_argument(machine, function, argument, byte),
        Place::Form(name, i) => has_item(machine.store().get(name), i),
        Place::Held(number, name, i) => has_item(held_in(machine.store(), number, name), i),
        Place::Output(i) => has_byte(machine.output(), i),
    }
}

// The same, for a place that is in the base text, or in an argument of a function that has a number below this one.
pub(crate) fn stands_around<E: TwoEnds<u8, A>, M: TwoEnds<Mark, A>, A: Allocator + Copy>(
    machine: &Core<E, M, A>,
    function: usize,
    place: Place<'_>,
) -> bool
    ensures there { IsTrue result → Stands machine.now.state (place_of place.entry)
        × ((is_of_text (place_of place.entry) ≡ true) × IsOutside function (place_of place.entry)) }
    ensures bare { result ≡ false → is_in_text (place_of place.entry) ≡ true →
        IsOutside function (place_of place.entry) → IsBare machine.now.state (place_of place.entry) }
{
    match place {
        Place::Base(i) => has_byte(machine.base(), i),
        Place::Argument {
            function: number,
            argument,
            byte,
        } if number < function => stands_in_argument(machine, number, argument, byte),
        _ => false,
    }
}

// Whether a text has such a byte.
fn has_byte(text: &[u8], i: usize) -> bool
    ensures there { IsTrue result → (item : Item) × (byte_at i text.now ≡ Some item) }
    ensures bare { result ≡ false → (item : Item) → byte_at i text.now ≡ Some item → ⊥ }
{
    i < text.len()
}

// Whether an argument of a begun function has such a byte.
fn stands_in_argument<E: TwoEnds<u8, A>, M: TwoEnds<Mark, A>, A: Allocator + Copy>(
    machine: &Core<E, M, A>,
    function: usize,
    argument: usize,
    byte: usize,
) -> bool
    ensures there { IsTrue result → Stands machine.now.state (InArgument function argument byte) }
    ensures bare { result ≡ false → IsBare machine.now.state (InArgument function argument byte) }
{
    byte < argument_len(machine, function, argument)
}

// How many bytes an argument of a begun function has; none if there is no such function.
fn argument_len<E: TwoEnds<u8, A>, M: TwoEnds<Mark, A>, A: Allocator + Copy>(
    machine: &Core<E, M, A>,
    function: usize,
    argument: usize,
) -> usize
    ensures there { (byte : ℕ) → byte < result → Stands machine.now.state (InArgument function argument byte) }
    ensures bare { (byte : ℕ) → result ≤ byte → IsBare machine.now.state (InArgument function argument byte) }
    ensures past { (byte depth n : ℕ) → InArgument function argument byte
        ≡ in_current (drop (length machine.now.state.frames - depth) machine.now.state.frames) (length (current_text
        (drop (length machine.now.state.frames - depth) machine.now.state.frames) machine.now.state) + n) →
        byte - result ≡ n }
{
    match machine.frame(function) {
        Some((_, arguments)) => arguments.get(argument).len(),
        None => 0,
    }
}

// Whether there is a form here, and it has an item of this number.
fn has_item<A: Allocator + Copy>(form: Option<&Form<A>>, i: usize) -> bool
    ensures there { IsTrue result → (item : Item) × (slice_get (items_of (option_copied form.entry)) i ≡ Some item) }
    ensures bare { result ≡ false → (item : Item) → slice_get (items_of (option_copied form.entry)) i ≡ Some item → ⊥ }
{
    match form {
        Some(form) => form.item(i).is_some(),
        None => false,
    }
}

// How far a place is past the current text of the state in which only so many functions are begun.
pub(crate) fn past_current<E: TwoEnds<u8, A>, M: TwoEnds<Mark, A>, A: Allocator + Copy>(
    machine: &Core<E, M, A>,
    depth: usize,
    place: Place<'_>,
) -> usize
    ensures { (n : ℕ) → place_of place.entry
        ≡ in_current (drop (length machine.now.state.frames - depth) machine.now.state.frames) (length (current_text
        (drop (length machine.now.state.frames - depth) machine.now.state.frames) machine.now.state) + n) → result ≡ n }
{
    match place {
        Place::Base(i) => i.saturating_sub(machine.base().len()),
        Place::Argument {
            function,
            argument,
            byte,
        } => byte.saturating_sub(argument_len(machine, function, argument)),
        _ => 0,
    }
}
