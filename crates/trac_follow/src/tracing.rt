//! Following a byte back to where it comes from, past each call that passed it on. A call passes a byte on if it takes
//! it from one of its arguments to another place. So it does from a block to a form, and from a form to its value, the
//! output or a block.
ghost use Rattle.std.specs.Prelude.{◌≡◌, ◌≤◌, ⊤, IfErr, IfOk, OnErr, OnOk, Some};
ghost use Rattle.trac_follow.specs.Following.{IsFollowed, IsKnown};
ghost use Rattle.trac_follow.specs.Kept.{kept_place};
ghost use Rattle.trac_follow.specs.Passing.{Passing};
ghost use Rattle.trac_follow_step.specs.Places.{place_of};
ghost use Rattle.trac_follow.specs.Tracing.{IsNamed, IsTold, IsTraced, LeadsTo, end_of, told_steps, way_of};
ghost use Rattle.trac_rules.specs.Session.{Back, repeated};

use crate::history::{Followed, Source, follow_from};
use crate::kept::KeptPlace;
use std::alloc::{AllocError, Allocator};
use trac_follow_step::{Place, stands};
use trac_rules::width::Width;
use trac_session::{Machine, Session};

/// Who is told of the calls on the way of a byte.
pub trait Witness<A: Allocator + Copy> {
    // `passes` relates the witness before it is told of a call to the witness after. `refuses` relates them if it
    // refuses. A witness that gives neither promises nothing.
    ghost passes: { Self → Passing → Self → Type 0 } = { λ _ _ _. ⊤ };

    ghost refuses: { Self → Passing → Self → Type 0 } = { λ _ _ _. ⊤ };

    /// Told of a call that passed the byte on, the latest call first. `machine` is about to perform the call, `steps`
    /// steps before the state where the trace begins.
    ///
    /// `from` is the place in a later state from which the byte was followed to this call. At the first telling it is
    /// the place that `trace` was given. Later it is the place from which the call told before had taken the byte.
    ///
    /// If the witness answers the error, for want of memory or because it has heard enough, the trace ends.
    fn passed(
        &mut self,
        machine: &Machine<A>,
        steps: u64,
        from: Place<'_>,
    ) -> Result<(), AllocError>
        ensures ok { OnOk result (passes self.old
            (record { state = machine.now.state; steps = steps; from = place_of from.entry }) self.new) }
        ensures err { OnErr result (refuses self.old
            (record { state = machine.now.state; steps = steps; from = place_of from.entry }) self.new) };
}

/// How a trace ended. The session stays in the state that the trace reached. The step that comes next from there is
/// the one that it went back over last.
#[derive(Clone, Copy)]
pub enum End {
    /// Nothing stood at the place, and the session has not moved.
    Nothing,
    /// The byte stands in the state reached already. No further step is kept, or the trace has gone back over as many
    /// steps as it was asked to.
    Earlier,
    /// The step that comes next read it: it is the byte of this number on the session's tape. Number 0 is the first
    /// byte that the tape holds now, whether it is read or not.
    Read(usize),
    /// The step that comes next made it.
    Made,
    /// The call that comes next passed it on, and the witness refused to be told of that.
    Untold,
    /// Memory was refused. The step that comes next performs a call of `ln`, and it cannot be told where the byte comes
    /// from; or a call that passed the byte on from a form, whose name the trace cannot keep. The witness was not told
    /// of that call.
    Memory,
}

/// How far a byte was followed back.
#[derive(Clone, Copy)]
pub struct Traced {
    /// Over how many steps the session has gone back.
    pub steps: u64,
    /// What was found.
    pub end: End,
}

/// Follows what stands at a place, a byte or an item of a form, back to where it comes from. Here both are called the
/// byte. The session goes back over up to `most` steps, past each call that passed the byte on, to the step that made
/// or read it. It stays in the state that it reached.
///
/// The witness is told of just the calls that passed the byte on. If it refuses, the trace ends.
///
/// The trace takes no memory but what the witness takes, and this. If a call took the byte from a form, of the store or
/// of a block, the trace keeps a copy of the form's name up to the next such call. If the byte may be of the value of
/// `ln`, it takes a list of all names for a while. If any of that is refused, it ends as `End::Memory`.
///
/// `End::Nothing` is answered only if nothing stands at the place.
pub fn trace<A: Allocator + Copy, W: Witness<A>>(
    alloc: A,
    session: &mut Session<A>,
    place: Place<'_>,
    most: u64,
    witness: &mut W,
) -> Traced
    ensures back { repeated Back result.steps session.old ≡ Some session.new }
    ensures most { result.steps ≤ most }
    ensures traced { IsTraced session.old (place_of place.entry) most session.new result }
    ensures told { IsTold W.passes W.refuses
        (way_of session.old (place_of place.entry) (told_steps result.steps result.end)) result.steps result.end
        witness.old witness.new }
{
    if !stands(session.machine(), place) {
        return ended(0, End::Nothing);
    }
    // It is the same on all legs, and asked once.
    let width = session.width();
    let mut here = KeptPlace::Lent(place);
    let mut steps = 0;
    // A leg that ends at a call has gone back over one step at least: so `most` legs are enough.
    for _leg in 0..most {
        let leg = follow_leg(session, width, &here, most - steps);
        steps += leg.steps;
        let machine = session.machine();
        // It is kept before the witness is told: so no call is told if there is no memory.
        let there = match onward_of(alloc, machine, leg.source) {
            Ok(there) => there,
            Err(end) => return ended(steps, end),
        };
        let Ok(()) = witness.passed(machine, steps, here.place()) else {
            return ended(steps, End::Untold);
        };
        here = there;
    }
    ended(steps, End::Earlier)
}

// Follows a byte back over one leg: to the nearest call that passed it on, or to the step that made or read it. The leg
// ends before that if no further step is kept, or after `most` steps. It is apart from the loop for its proof alone.
fn follow_leg<'a, A: Allocator + Copy>(
    session: &mut Session<A>,
    width: Width,
    place: &'a KeptPlace<'_, A>,
    most: u64,
) -> Followed<'a>
    ensures back { repeated Back result.steps session.old ≡ Some session.new }
    ensures most { result.steps ≤ most }
    ensures followed { IsKnown width session.old (kept_place place.now) →
        IsFollowed session.old (kept_place place.now) most session.new result }
{
    follow_from(session, width, place.place(), most)
}

// What the trace returns when it ends.
fn ended(steps: u64, end: End) -> Traced
    ensures steps { result.steps ≡ steps }
    ensures end { result.end ≡ end }
{
    Traced { steps, end }
}

// Where the byte stood before a call passed it on, if the leg that found this ended at a call. Else how the trace ends.
// So it does as well if memory is refused for the name of a form.
fn onward_of<'n, A: Allocator + Copy>(
    alloc: A,
    machine: &Machine<A>,
    source: Source<'_>,
) -> Result<KeptPlace<'n, A>, End>
    ensures leads { IfOk result (λ there. LeadsTo machine.now.state source.entry (kept_place there)) }
    ensures ends { IfErr result (λ end. end ≡ end_of source.entry) }
    ensures named { OnErr result (IsNamed source.entry) }
{
    let kept = match source {
        Source::Passed(there) => KeptPlace::of(alloc, there),
        Source::OfForm(item) => match machine.next_call() {
            Some((_, arguments)) => KeptPlace::of(alloc, Place::Form(arguments.get(1), item)),
            // There is a call next, since it took the item out of the form.
            None => Err(AllocError),
        },
        Source::Here(_) => return Err(End::Earlier),
        Source::Read(n) => return Err(End::Read(n)),
        Source::Made => return Err(End::Made),
        Source::Memory => Err(AllocError),
        // It is not found on a leg: something stands where each begins.
        Source::Nothing => return Err(End::Nothing),
    };
    match kept {
        Ok(there) => Ok(there),
        Err(_) => Err(End::Memory),
    }
}
