//! Steps back over which a byte is followed without a look at where it comes from.
ghost use Rattle.std.specs.Prelude.{◌≡◌, ◌+◌, ◌<◌, ◌≤◌, length, Bool, IfSome, IsTrue, Some, ℕ};
ghost use Rattle.trac_follow_step.specs.Offsets.{IsPlaced, bytes_left};
ghost use Rattle.trac_follow_step.specs.Places.{place_of};
ghost use Rattle.trac_follow_step.specs.Running.{CameFrom, StaysAt};
ghost use Rattle.trac_origins.specs.Lengths.{before_moved, in_active};
ghost use Rattle.trac_origins.specs.Places.{InForm, found_at};
ghost use Rattle.trac_rules.specs.declared.item.Item.{Item};
ghost use Rattle.trac_rules.specs.PlainRuns.{moved_on};

use crate::called::{Put, put_by};
use crate::place::Place;
use std::alloc::Allocator;
use trac_gap::TwoEnds;
use trac_step::{Core, Mark};

// ---- runs of bytes that moved one by one

/// Where what stands at a place stood in this machine, before so many bytes of its active text moved one by one.
///
/// `measure` is what is known of the place after they moved. Of a place in a form it holds how many bytes the items
/// before it stand for, and whether a gap stands there. Of one in the base text or in an argument its number is how
/// many bytes of the neutral text stand before it. All else in it says nothing.
pub fn before_run<'a, E: TwoEnds<u8, A>, M: TwoEnds<Mark, A>, A: Allocator + Copy>(
    before: &Core<E, M, A>,
    count: u64,
    measure: (usize, bool),
    place: Place<'a>,
) -> Place<'a>
    ensures { (item : Item) → count ≤ length before.now.state.active →
        found_at (moved_on count before.now.state) (place_of place.entry) ≡ Some item →
        IsPlaced measure.0 measure.1 (moved_on count before.now.state) (place_of place.entry) →
        place_of result ≡ before_moved count before.now.state (place_of place.entry) }
{
    match place {
        Place::Active(i) => Place::Active(further_on(before.active(), count, i)),
        Place::Base(_) | Place::Argument { .. } => {
            // A byte past the end of this machine's neutral text was that far into its active text.
            in_active(measure.0.checked_sub(before.neutral_len()), place)
        }
        Place::Form(_, _) | Place::Held(_, _, _) | Place::Output(_) => place,
    }
}

// A byte of the active text, if there is one, else another place.
fn in_active<'a>(byte: Option<usize>, place: Place<'a>) -> Place<'a>
    ensures { place_of result ≡ in_active byte (place_of place.entry) }
{
    match byte {
        Some(i) => Place::Active(i),
        None => place,
    }
}

// The byte so many further on in a text, if there is one.
fn further_on(text: &[u8], count: u64, i: usize) -> usize
    ensures { count + i < length text.now → result ≡ count + i }
{
    let len = text.len();
    if count >= len as u64 {
        return i;
    }
    let first = count as usize;
    if i >= len - first {
        return i;
    }
    first + i
}

// ---- steps that leave the rest of the active text

/// Where a byte of the active text stood before the next step of a machine: as far from the end. `left` is how long
/// the text is after that step. `None` if the step put the byte there, if the byte stood first, which the step takes,
/// if there is no such byte, or if the place is not in the active text.
pub fn before_in_active<'a, E: TwoEnds<u8, A>, M: TwoEnds<Mark, A>, A: Allocator + Copy>(
    before: &Core<E, M, A>,
    left: usize,
    place: Place<'a>,
) -> Option<Place<'a>>
    ensures { IfSome result (λ there. CameFrom before.now.state left (place_of place.entry) (place_of there)) }
{
    let Place::Active(i) = place else {
        return None;
    };
    let len = before.active().len();
    if i >= left || left - i >= len {
        return None;
    }
    Some(Place::Active(len - (left - i)))
}

// ---- steps that leave what they do not act on

/// Whether it is told at once that what stands at a place after the next step of a machine stood there before it, in a
/// form or in a text that held what it holds then. If not, `origin_of` tells where it stood. `measure` is what is known
/// of the place after the step, as in `before_run`.
pub fn stays<E: TwoEnds<u8, A>, M: TwoEnds<Mark, A>, A: Allocator + Copy>(
    before: &Core<E, M, A>,
    measure: (usize, bool),
    place: Place<'_>,
) -> bool
    ensures { IsTrue result → StaysAt before.now.state measure.0 measure.1 (place_of place.entry) }
{
    match place {
        Place::Output(i) => i < before.output().len(),
        Place::Form(name, _) => stays_in_form(before, name),
        Place::Held(number, _, _) => number < before.store().block_count(),
        Place::Base(_) | Place::Argument { .. } => measure.0 < bytes_left(before),
        Place::Active(_) => false,
    }
}

// How many bytes of the neutral text the next step leaves where they are: all, but for the function that it performs.
fn bytes_left<E: TwoEnds<u8, A>, M: TwoEnds<Mark, A>, A: Allocator + Copy>(
    before: &Core<E, M, A>,
) -> usize
    ensures { result ≡ bytes_left before.now.state }
{
    match before.next_call() {
        Some((_, arguments)) => before.neutral_len() - arguments.joined().len(),
        None => before.neutral_len(),
    }
}

// Whether all that stands in the form of a name stays, as `stays` says it.
fn stays_in_form<E: TwoEnds<u8, A>, M: TwoEnds<Mark, A>, A: Allocator + Copy>(
    before: &Core<E, M, A>,
    name: &[u8],
) -> bool
    ensures { IsTrue result → (bytes i : ℕ) (gap : Bool) → StaysAt before.now.state bytes gap (InForm name.now i) }
{
    match before.next_call() {
        Some((_, arguments)) => matches!(put_by(&arguments, name), Put::Nothing),
        None => true,
    }
}
