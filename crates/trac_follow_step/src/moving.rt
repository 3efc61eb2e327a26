//! Where bytes come from by the rules of scanning that move on.
ghost use Rattle.std.specs.Prelude.{◌≡◌, ◌≤◌, false, length, true, IfSome, MatchOption, Ok, Some};
ghost use Rattle.trac_origins.specs.Lengths.{first_moved, moves_bytes};
ghost use Rattle.trac_origins.specs.Places.{InActive, found_at};
ghost use Rattle.trac_origins.specs.Stepping.{origin};
ghost use Rattle.trac_rules.specs.declared.item.Item.{Item};
ghost use Rattle.trac_rules.specs.Scanning.{Moves, front_of, scan};
ghost use Rattle.trac_rules.specs.State.{Environment, State};
ghost use Rattle.trac_rules.specs.Stepping.{step};
ghost use Rattle.trac_follow_step.specs.Places.{IsTakenOut, Tells, place_of};

use crate::place::{Origin, Place};
use crate::standing::{past_current, stands};
use std::alloc::Allocator;
use trac_gap::TwoEnds;
use trac_rules::scan::Front;
use trac_step::{Core, Mark};
use trac_text::front::front_at;

// Where what stands at a place comes from, after a step by which scanning moves on and which leaves
// so much of the active text.
pub(crate) fn moved<'a, E: TwoEnds<u8, A>, M: TwoEnds<Mark, A>, A: Allocator + Copy>(
    before: &Core<E, M, A>,
    left: usize,
    place: Place<'a>,
) -> Origin<'a>
    ensures tells { (environment : Environment) (t : State) (item : Item) → step environment before.now.state ≡ Ok t →
        scan before.now.state ≡ Moves t → left ≡ length t.active → found_at t (place_of place.entry) ≡ Some item →
        Tells before.now.state result (origin environment before.now.state (place_of place.entry)) }
    ensures taken { IsTakenOut (place_of place.entry) result }
{
    if let Place::Active(i) = place {
        return left_over(before.active(), left, i);
    }
    if stands(before, place) {
        return Origin::Carried(place);
    }
    // It is new in the current text.
    let Some(first) = first_moved_at(before.active()) else {
        return Origin::Nothing;
    };
    let n = past_current(before, before.depth(), place);
    if n >= before.active().len() {
        return Origin::Nothing;
    }
    Origin::Carried(Place::Active(first + n))
}

// Of the active text that is left.
fn left_over<'a>(active: &[u8], left: usize, i: usize) -> Origin<'a>
    ensures tells { (environment : Environment) (s t : State) (item : Item) → step environment s ≡ Ok t →
        scan s ≡ Moves t → s.active ≡ active.now → left ≡ length t.active → found_at t (InActive i) ≡ Some item →
        Tells s result (origin environment s (InActive i)) }
    ensures taken { IsTakenOut (InActive i) result }
{
    if active.is_empty() {
        return Origin::Made;
    }
    if left > active.len() {
        return Origin::Nothing;
    }
    if i >= left {
        return Origin::Nothing;
    }
    Origin::Carried(Place::Active(active.len() - left + i))
}

// Where the first byte stands in the active text that the rule moves to the current text, if the rule moves any.
fn first_moved_at(active: &[u8]) -> Option<usize>
    ensures moves { MatchOption result (moves_bytes (front_of active.now) ≡ false)
        (λ n. (moves_bytes (front_of active.now) ≡ true) × (n ≡ first_moved (front_of active.now))) }
    ensures small { IfSome result (λ n. n ≤ 1) }
{
    match front_at(active) {
        Front::Opening => Some(1),
        Front::Sharp | Front::Plain => Some(0),
        _ => None,
    }
}
