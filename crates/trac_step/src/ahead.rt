//! The call that the next step would perform.
ghost use Rattle.std.specs.Prelude.{◌≡◌, None, MatchOption};
ghost use Rattle.trac_rules.specs.Goals.{IsCall, next_call};

use crate::engine::Core;
use std::alloc::Allocator;
use trac_gap::TwoEnds;
use trac_rules::scan::Front;
use trac_text::{Args, Kind, Mark};

impl<E: TwoEnds<u8, A>, M: TwoEnds<Mark, A>, A: Allocator + Copy> Core<E, M, A> {
    /// The call that the next step would perform: its kind, and all its arguments, its name first; none if it would
    /// perform none. It takes no memory, and no time for the functions that are begun around it.
    pub fn next_call(&self) -> Option<(Kind, Args<'_>)>
        ensures { MatchOption result (next_call self.now.state ≡ None)
            (λ r. IsCall (next_call self.now.state) r.0 r.1) }
    {
        if self.texts.front() != Front::Closing {
            return None;
        }
        let function = self.texts.neutral().innermost()?;
        Some((function.kind, function.arguments))
    }
}
