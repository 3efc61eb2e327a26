//! Where what stands at a place after a step comes from, told by the machine before the step.
ghost use Rattle.std.specs.Prelude.{IfOk, OnErr};
ghost use Rattle.trac_follow_step.specs.Places.{IsListing, IsTakenOut, TellsOf, place_of};

use crate::called::called;
use crate::moving::moved;
use crate::place::{After, Origin, Place};
use std::alloc::{AllocError, Allocator};
use trac_gap::TwoEnds;
use trac_rules::width::Width;
use trac_step::{Core, Mark};

/// Where what stands at a place comes from after the next step of a machine, whose numbers are of this width. If that
/// step leaves texts of these lengths, this is the origin of whatever stands there, for any input, by the definitions
/// of `trac_origins`. Of a step after which 2^64 bytes or more are read nothing is promised; no machine counts so many.
///
/// It takes time for the begun functions, for the arguments of the call, and for the form that is named. If the call
/// fetches a block, it takes time also for each block and for the forms of that one. If the call lists names, as `ln`
/// does, it takes time to put them in order, and memory for a list of them. It takes no other memory. The error is that
/// this memory was refused.
pub fn origin_of<'a, E: TwoEnds<u8, A>, M: TwoEnds<Mark, A>, A: Allocator + Copy>(
    before: &Core<E, M, A>,
    width: Width,
    after: After,
    place: Place<'a>,
) -> Result<Origin<'a>, AllocError>
    ensures tells { IfOk result (λ origin. TellsOf before.now.state width after (place_of place.entry) origin) }
    ensures taken { IfOk result (λ origin. IsTakenOut (place_of place.entry) origin) }
    ensures lists { OnErr result (IsListing before.now.state) }
{
    match before.next_call() {
        Some((_, arguments)) => called(before, width, after, &arguments, place),
        None => Ok(moved(before, after.active, place)),
    }
}
