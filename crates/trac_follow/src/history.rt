//! Following a byte back over many steps.
ghost use Rattle.std.specs.Prelude.{◌≡◌, ◌+◌, ◌^◌, ◌<◌, ◌≤◌, length, Some};
ghost use Rattle.trac_follow.specs.Following.{IsFollowed, IsKnown};
ghost use Rattle.trac_follow_step.specs.Items.{IsMeasured};
ghost use Rattle.trac_follow_step.specs.Offsets.{IsPlaced};
ghost use Rattle.trac_follow_step.specs.Places.{IsTakenOut, Stands, is_in_form, is_passed, place_of};
ghost use Rattle.trac_follow.specs.Turns.{IsTurn};
ghost use Rattle.trac_origins.specs.Places.{InForm};
ghost use Rattle.trac_rules.specs.Session.{Back, repeated};

use std::alloc::Allocator;
use trac_follow_step::{
    After, Origin, Place, argument_offset, before_in_active, before_run, extent_before,
    is_innermost, origin_of, stands, stays,
};
use trac_gap::TwoEnds;
use trac_rules::item::Item;
use trac_rules::width::Width;
use trac_session::Session;
use trac_step::{Core, Mark};

/// What was found by following a byte back.
#[derive(Clone, Copy)]
pub enum Source<'a> {
    /// Nothing stood at the place.
    Nothing,
    /// All steps that were gone back over carried it; it stands at this place. There are no more steps, or as
    /// many were taken as were wanted.
    Here(Place<'a>),
    /// All steps that were gone back over carried it; it stands at this place, and the call that comes next carried it
    /// from there: from an argument of its own, or between a form and a block.
    Passed(Place<'a>),
    /// All steps that were gone back over carried it, the last of them from this item of the form that argument 1 of
    /// the call that comes next names.
    OfForm(usize),
    /// The step that comes next read it, as the byte of this number of the tape.
    Read(usize),
    /// The step that comes next made it.
    Made,
    /// All steps that were gone back over after the step that comes next carried it. That step performs a call of `ln`,
    /// and memory was refused to tell where the byte comes from.
    Memory,
}

/// How a byte was followed back.
#[derive(Clone, Copy)]
pub struct Followed<'a> {
    /// Over how many steps the session has gone back.
    pub steps: u64,
    /// What was found.
    pub source: Source<'a>,
}

/// Goes back over up to `most` steps, as long as these carried the byte at a place, or the item of a form. It does so
/// until a step made or read it, has it from a form, or performs a call that passed it on. Bytes that moved one by one
/// are passed at once, as `Session::back` passes them. It says that nothing is there only if nothing stands at the
/// place. It takes no memory, but for a list of all names if the byte may be of the value of `ln`.
pub fn follow<'a, A: Allocator + Copy>(
    session: &mut Session<A>,
    place: Place<'a>,
    most: u64,
) -> Followed<'a>
    ensures back { repeated Back result.steps session.old ≡ Some session.new }
    ensures most { result.steps ≤ most }
    ensures followed { IsFollowed session.old (place_of place.entry) most session.new result }
{
    if !stands(session.machine(), place) {
        return Followed {
            steps: 0,
            source: Source::Nothing,
        };
    }
    let width = session.width();
    follow_from(session, width, place, most)
}

// The same, if something stands at the place, and this is the width of the session's numbers.
pub(crate) fn follow_from<'a, A: Allocator + Copy>(
    session: &mut Session<A>,
    width: Width,
    place: Place<'a>,
    most: u64,
) -> Followed<'a>
    ensures back { repeated Back result.steps session.old ≡ Some session.new }
    ensures most { result.steps ≤ most }
    ensures followed { IsKnown width session.old (place_of place.entry) →
        IsFollowed session.old (place_of place.entry) most session.new result }
{
    let mut here = place;
    let mut measure = measured(session.machine(), place);
    let mut steps = 0;
    while steps < most {
        let count = session.pass_back(most - steps);
        if count > 0 {
            here = before_run(session.machine(), count, measure, here);
            steps += count;
            continue;
        }
        let after = seen_after(session.machine(), measure);
        if session.back(1).why.is_some() {
            break;
        }
        steps += 1;
        if let Some(there) = before_in_active(session.machine(), after.active, here) {
            here = there;
            continue;
        }
        if stays(session.machine(), measure, here) {
            continue;
        }
        let Ok(origin) = origin_of(session.machine(), width, after, here) else {
            let source = Source::Memory;
            return Followed { steps, source };
        };
        match turn_of(session.machine(), here, origin) {
            Turn::On(there) => {
                measure = measured(session.machine(), there);
                here = there;
            }
            Turn::Found(source) => return Followed { steps, source },
        }
    }
    let source = Source::Here(here);
    Followed { steps, source }
}

// What is told of a machine and of a place in it, of which so much is measured.
fn seen_after<E: TwoEnds<u8, A>, M: TwoEnds<Mark, A>, A: Allocator + Copy>(
    machine: &Core<E, M, A>,
    measure: (usize, bool),
) -> After
    ensures active { result.active ≡ length machine.now.state.active }
    ensures output { result.output ≡ length machine.now.state.output }
    ensures read { machine.now.state.position < 2 ^ 64 }
    ensures extent { result.extent ≡ measure.0 }
    ensures gap { result.is_gap ≡ measure.1 }
{
    // For the clause `read`: a machine counts what it read.
    let _read = machine.position();
    After {
        active: machine.active().len(),
        output: machine.output().len(),
        extent: measure.0,
        is_gap: measure.1,
    }
}

// How a byte is followed further back.
#[derive(Clone, Copy)]
pub(crate) enum Turn<'a> {
    // On from this place.
    On(Place<'a>),
    // No further: this was found.
    Found(Source<'a>),
}

// By its origin, how what stands here after the next step of a machine is followed further back.
fn turn_of<'a, E: TwoEnds<u8, A>, M: TwoEnds<Mark, A>, A: Allocator + Copy>(
    before: &Core<E, M, A>,
    here: Place<'a>,
    origin: Origin<'a>,
) -> Turn<'a>
    requires { IsTakenOut (place_of here) origin }
    ensures { IsTurn before.now.state here.entry origin.entry result }
{
    match origin {
        Origin::Carried(there) => {
            if is_passed(before, here, there) {
                return Turn::Found(Source::Passed(there));
            }
            Turn::On(there)
        }
        Origin::OfForm(i) => Turn::Found(Source::OfForm(i)),
        Origin::Read(n) => Turn::Found(Source::Read(n)),
        Origin::Made => Turn::Found(Source::Made),
        Origin::Nothing => Turn::Found(Source::Nothing),
    }
}

// Of a place at which something stands: in a form, how many bytes the items before it stand for, and whether a gap
// stands there; in the base text or in an argument, how many bytes of the neutral text stand before it.
fn measured<E: TwoEnds<u8, A>, M: TwoEnds<Mark, A>, A: Allocator + Copy>(
    machine: &Core<E, M, A>,
    place: Place<'_>,
) -> (usize, bool)
    ensures { Stands machine.now.state (place_of place.entry) →
        IsPlaced result.0 result.1 machine.now.state (place_of place.entry) }
{
    match place {
        Place::Form(name, i) => measured_in(machine, name, i),
        Place::Base(i) => (i, false),
        Place::Argument {
            function,
            argument,
            byte,
        } => (argument_offset(machine, function, argument, byte), false),
        _ => (0, false),
    }
}

// The same, of an item of a form. If there is none, nothing is told.
fn measured_in<E: TwoEnds<u8, A>, M: TwoEnds<Mark, A>, A: Allocator + Copy>(
    machine: &Core<E, M, A>,
    name: &[u8],
    i: usize,
) -> (usize, bool)
    ensures { IsMeasured result.0 result.1 machine.now.state (InForm name.now i) }
{
    let Some(form) = machine.store().get(name) else {
        return (0, false);
    };
    match form.item(i) {
        Some(Item::Byte(_)) => (extent_before(form, i), false),
        Some(Item::Gap { .. }) => (extent_before(form, i), true),
        None => (0, false),
    }
}

// Of a byte that the next step carried here from there: whether a call passed it on. It did if it took the byte from an
// argument of its own, from a block into a form, or out of a form.
fn is_passed<E: TwoEnds<u8, A>, M: TwoEnds<Mark, A>, A: Allocator + Copy>(
    machine: &Core<E, M, A>,
    here: Place<'_>,
    there: Place<'_>,
) -> bool
    ensures { result ≡ is_passed machine.now.state (place_of here.entry) (place_of there.entry) }
{
    match there {
        Place::Argument { function, .. } => {
            // The arguments of the next call, if there is one, are those of the innermost function.
            machine.next_call().is_some() && is_innermost(function, machine.depth())
        }
        Place::Held(_, _, _) => is_form(here),
        Place::Form(_, _) => !is_form(here),
        _ => false,
    }
}

// Whether a place is in a form.
fn is_form(place: Place<'_>) -> bool
    ensures { result ≡ is_in_form (place_of place.entry) }
{
    matches!(place, Place::Form(_, _))
}
