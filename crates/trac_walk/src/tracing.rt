//! The way of a byte back, over the steps of a walker.
ghost use Rattle.std.specs.Prelude.{length};
ghost use Rattle.trac_follow_step.specs.Places.{place_of};
ghost use Rattle.trac_follow.specs.Tracing.{IsTold, IsTraced, told_steps, way_of};

use std::alloc::Allocator;
use trac_follow::{Place, Traced, Witness, trace};
use trac_moves::Walker;

/// Goes back to where the byte at a place comes from, or the item of a form, and tells a
/// witness of each call on the way.
pub(crate) fn traced<W: Witness<A>, A: Allocator + Copy>(
    alloc: A,
    walker: &mut Walker<A>,
    place: Place<'_>,
    witness: &mut W,
) -> Traced
    ensures traced { IsTraced walker.old.window.session (place_of place.entry)
        (length walker.old.window.session.earlier) walker.new.window.session result }
    ensures told { IsTold W.passes W.refuses
        (way_of walker.old.window.session (place_of place.entry) (told_steps result.steps result.end))
        result.steps result.end witness.old witness.new }
{
    let most = walker.window.session.len() as u64;
    trace(alloc, &mut walker.window.session, place, most, witness)
}
