//! What a walker is sent to.
ghost use Rattle.std.specs.Prelude.{◌≡◌};
ghost use Rattle.trac_session.specs.Goals.{goal_of};
ghost use Rattle.trac_moves.specs.Aims.{goal_of_aim};

use std::alloc::Allocator;
use trac_rules::width::Width;
use trac_session::Goal;

/// A goal of a walk that names no form, so that it can be said without the allocator of forms.
#[derive(Clone, Copy)]
pub enum Aim<'a> {
    /// A call whose first arguments are these.
    Call(&'a [&'a [u8]]),
    /// A call of the program's own.
    OwnCall,
    /// The end of the begun function of this number, counted from the outermost, from 1.
    End(usize),
    /// Fewer begun functions than so many.
    Shallower(usize),
    /// At most so many bytes left to scan.
    Rest(usize),
    /// At most so many bytes of output that are not released.
    Unprinted(usize),
    /// A step of which there is a doubt, if numbers are of this width.
    Doubtful(Width),
}

/// The goal that this is for a session.
pub fn goal_for<'a, A: Allocator + Copy>(aim: Aim<'a>) -> Goal<'a, A>
    ensures { goal_of result ≡ goal_of_aim aim.entry }
{
    match aim {
        Aim::Call(call) => Goal::Call(call),
        Aim::OwnCall => Goal::OwnCall,
        Aim::End(number) => Goal::End(number),
        Aim::Shallower(count) => Goal::Shallower(count),
        Aim::Rest(most) => Goal::Rest(most),
        Aim::Unprinted(most) => Goal::Unprinted(most),
        Aim::Doubtful(width) => Goal::Doubtful(width),
    }
}
