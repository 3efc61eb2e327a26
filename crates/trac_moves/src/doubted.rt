//! The bytes that doubts are about.
ghost use Rattle.std.specs.Prelude.{◌≤◌};
ghost use Rattle.trac_moves.specs.Walkers.{Moves, StaysAt};

use crate::aim::Aim;
use crate::walker::Walker;
use std::alloc::Allocator;
use trac_follow_step::Place;
use trac_session::Doubt;
use trac_sight::{argument_doubted, is_nameless};

/// The byte that a doubt of the next step is about: the first one of an argument or of a name, or the one that comes
/// next. Of a call without a name it is the `#` that began it: the walker goes back to before that, if it keeps the
/// steps since then, and else it is the byte that comes next.
pub fn place_of<'p, A: Allocator + Copy>(walker: &mut Walker<A>, doubt: Doubt) -> Place<'p>
    ensures moved { Moves (λ steps after. after ≤ steps) walker.old walker.new }
    ensures stays { StaysAt result walker.old walker.new }
{
    let depth = walker.glance().depth;
    match doubt {
        Doubt::Unclosed | Doubt::EndsNothing => Place::Active(0),
        Doubt::Unended(_) if is_nameless(walker.machine(), 0) => beginning_of(walker, 1),
        Doubt::Unended(_) => first_byte(0, 0),
        _ => match argument_doubted(&walker.sight(), doubt) {
            Some(argument) => first_byte(depth.saturating_sub(1), argument),
            None => beginning_of(walker, depth),
        },
    }
}

// The place of the byte that began the function of this number, the outermost being number 1, to which the walker goes
// back.
fn beginning_of<'p, A: Allocator + Copy>(walker: &mut Walker<A>, number: usize) -> Place<'p>
    ensures moved { Moves (λ steps after. after ≤ steps) walker.old walker.new }
    ensures stays { StaysAt result walker.old walker.new }
{
    walker.return_to(Aim::Shallower(number));
    Place::Active(0)
}

fn first_byte<'p>(function: usize, argument: usize) -> Place<'p> {
    Place::Argument {
        function,
        argument,
        byte: 0,
    }
}
