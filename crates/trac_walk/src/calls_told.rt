//! The calls that passed a byte on, of which a reply is made.
ghost use Rattle.std.specs.Prelude.{◌≡◌, length};
ghost use Rattle.trac_follow_step.specs.Places.{place_of};
ghost use Rattle.trac_follow.specs.Tracing.{told_steps, way_of};
ghost use Rattle.trac_moves.specs.Steps.{number_of_step};
ghost use Rattle.trac_walk.specs.Ways.{AreTold, Tells, deed_at};

use crate::manner::{Giver, Manner, Manners, TextPlace};
use crate::tracing::traced;
use std::alloc::{AllocError, Allocator};
use trac_follow::{End, Place, Source, Traced, Witness, follow};
use trac_moves::Walker;
use trac_person_lines::{
    ScreenLine, Treatment, comparison_of, reason_into, step_line, treated_into,
};
use trac_replies::{LINE_COUNT, REASON_COLUMN};
use trac_session::Machine;
use trac_sight::{Sight, sight_of};

/// Of a longer way than `LINE_COUNT` so many calls are shown: two lines are left, for how many are left out, and for
/// the end.
pub(crate) const FIRST_COUNT: usize = LINE_COUNT - 2;

/// A call that passed a byte on.
#[derive(Drop)]
pub(crate) struct Told<A: Allocator + Copy> {
    // the number of its step
    pub(crate) step: u64,
    // what it did with the byte
    pub(crate) deed: Treatment,
    // the beginning of its line, which shows the call
    pub(crate) front: ScreenLine<A>,
    // why it gave the argument that has the byte, if it compared others
    pub(crate) reason: ScreenLine<A>,
}

/// What is said of the way of a byte.
#[derive(Drop)]
pub(crate) struct Way<A: Allocator + Copy> {
    pub(crate) alloc: A,
    // the step at which it begins
    pub(crate) step: u64,
    // the calls that passed it on and are shown, the latest first
    pub(crate) told: Vec<Told<A>, A>,
    // from where each of these had it
    pub(crate) manners: Manners<A>,
    // how many calls passed it on so far
    pub(crate) count: usize,
}

impl<A: Allocator + Copy> Way<A> {
    /// Of how many calls nothing is shown.
    pub(crate) fn left_out(&self) -> usize {
        if self.count < LINE_COUNT {
            0
        } else {
            self.count - FIRST_COUNT
        }
    }

    /// Of how many calls lines are shown.
    pub(crate) fn told_count(&self) -> usize {
        self.told.len()
    }

    /// Puts the line of the call of this number at the end of a text. Returns its step if it gave its default argument.
    /// The error is that memory was refused.
    pub(crate) fn told_into(
        &self,
        number: usize,
        out: &mut Vec<u8, A>,
    ) -> Result<Option<u64>, AllocError> {
        let Some(told) = self.told.as_slice().get(number) else {
            return Ok(None);
        };
        let manner = self.manners.of(number);
        let mut line = ScreenLine::new(self.alloc);
        line.say(told.front.bytes());
        treated_into(manner.treatment(told.deed), &mut line);
        told.front.check()?;
        told.reason.check()?;
        reason_after_into(self.alloc, line, &told.reason, out)?;
        Ok(match manner {
            Manner::Default => Some(told.step),
            _ => None,
        })
    }

    // The step from which the byte was followed to the call that was told last.
    fn last_start(&self) -> u64 {
        match self.told.as_slice() {
            [.., before, _] => before.step,
            _ => self.step,
        }
    }
}

impl<A: Allocator + Copy> Witness<A> for Way<A> {
    ghost passes = { λ old call new. Tells old call new };

    fn passed(
        &mut self,
        machine: &Machine<A>,
        steps: u64,
        from: Place<'_>,
    ) -> Result<(), AllocError> {
        self.manners.hear(machine, from, self.count)?;
        let count = self.count.saturating_add(1);
        // The end takes a line too: so with this call the way is too long, and the line of the one
        // before is taken back.
        if count >= LINE_COUNT {
            self.told.truncate(FIRST_COUNT);
            self.count = count;
            return Ok(());
        }
        let step = self.step.saturating_sub(steps);
        let deed = deed_at(from);
        let sight = sight_of(machine);
        let front = step_line(self.alloc, step, &sight);
        let reason = comparison_in(self.alloc, &sight, deed);
        self.told.push(Told {
            step,
            deed,
            front,
            reason,
        })?;
        self.count = count;
        Ok(())
    }
}

// Puts a line at the end of a text, and a reason after it, in a line of its own if there is no room. An empty one is
// none.
fn reason_after_into<A: Allocator + Copy>(
    alloc: A,
    mut line: ScreenLine<A>,
    reason: &ScreenLine<A>,
    out: &mut Vec<u8, A>,
) -> Result<(), AllocError> {
    let words = reason.bytes();
    if words.is_empty() {
        return line.end_into(out);
    }
    if line.has_room(reason.columns().saturating_add(2)) {
        line.say(b": ");
        line.say(words);
        return line.end_into(out);
    }
    line.end_into(out)?;
    let mut own = ScreenLine::new(alloc);
    own.pad(REASON_COLUMN);
    own.say(words);
    own.end_into(out)
}

// What the call that comes next compares to choose the argument that it gives, in words; empty if it gives none so.
fn comparison_in<A: Allocator + Copy>(
    alloc: A,
    sight: &Sight<'_, A>,
    deed: Treatment,
) -> ScreenLine<A> {
    let mut line = ScreenLine::new(alloc);
    if !matches!(deed, Treatment::Gives) {
        return line;
    }
    if let Some(reason) = comparison_of(sight) {
        reason_into(reason, &mut line);
    }
    line
}

// What a call did to a byte that is here after it.
fn deed_at(from: Place<'_>) -> Treatment
    ensures { result ≡ deed_at (place_of from.entry) }
{
    match from {
        Place::Output(_) => Treatment::Prints,
        Place::Form(_, _) | Place::Held(_, _, _) => Treatment::Puts,
        _ => Treatment::Gives,
    }
}

/// Goes back to where a byte comes from, and tells of each call that passed it on. `End::Untold`: memory was refused.
pub(crate) fn told_way<A: Allocator + Copy>(
    alloc: A,
    walker: &mut Walker<A>,
    place: Place<'_>,
) -> (Way<A>, Traced)
    ensures { AreTold (number_of_step walker.old.window.forgotten (length walker.old.window.session.earlier))
        (way_of walker.old.window.session (place_of place.entry) (told_steps result.1.steps result.1.end)) result.1.end
        result.0 }
{
    let mut way = Way {
        alloc,
        step: walker.step(),
        told: Vec::new(alloc),
        manners: Manners::new(alloc),
        count: 0,
    };
    let found = traced(alloc, walker, place, &mut way);
    (way, found)
}

/// Says of the last call on a way from where it had the byte, if that is known only now. The walker stands where the
/// way ended so, and comes back there.
pub(crate) fn end_way<A: Allocator + Copy>(
    walker: &mut Walker<A>,
    way: &mut Way<A>,
    end: End,
) -> Result<(), AllocError> {
    if !is_found(end) {
        return Ok(());
    }
    if let Some(from) = way.manners.last_from(way.count) {
        let manner = last_manner(walker, way.manners.giver(), from, way.last_start())?;
        way.manners.put_last(manner);
    }
    Ok(())
}

// Whether a way was told up to where the byte was read, was made or stands.
fn is_found(end: End) -> bool {
    matches!(end, End::Read(_) | End::Made | End::Earlier)
}

// From where the last call on a way had the byte, which is at this place at this step, further on. It goes there, and
// comes back. The error is that memory was refused.
fn last_manner<A: Allocator + Copy>(
    walker: &mut Walker<A>,
    giver: Giver,
    from: TextPlace,
    step: u64,
) -> Result<Manner, AllocError> {
    let end = walker.step();
    let manner = match walker.go_to(step) {
        Some(_) => Err(AllocError),
        None => followed_manner(walker, giver, from),
    };
    let here = walker.step();
    let _ = walker.back(here.saturating_sub(end));
    manner
}

// The same from where the byte is followed to that call.
fn followed_manner<A: Allocator + Copy>(
    walker: &mut Walker<A>,
    giver: Giver,
    from: TextPlace,
) -> Result<Manner, AllocError> {
    let most = walker.window.session.len() as u64;
    match follow(&mut walker.window.session, from.place(), most).source {
        Source::Passed(place) => Ok(giver.manner_from(place)),
        Source::Memory => Err(AllocError),
        _ => Ok(Manner::Plain),
    }
}
