//! What the arguments of functions weigh, and what idle steps emptied.
ghost use Rattle.std.specs.Prelude.{◌≡◌, ◌+◌, ◌-◌, ◌<◌, ◌^◌, length};
ghost use Rattle.trac_rules.specs.Limits.{total_length};
ghost use Rattle.trac_rules.specs.Weights.{frames_weight};
ghost use Rattle.trac_text.specs.Pieces.{all_texts, frames_in};

use crate::emptied::Emptied;
use std::alloc::Allocator;
use trac_rules::kind::Kind;
use trac_text::Pieces;

impl<A: Allocator + Copy> Emptied<A> {
    /// What this weighs: its bytes, and one for each `,` and each begun function. The sum has to fit a `usize`. It
    /// takes time for the begun functions alone.
    pub fn weight(&self) -> usize
        requires { length self.now.base.items + frames_weight (frames_in self.now.frames.items) < 2 ^ 64 }
        ensures { result ≡ length self.now.base.items + frames_weight (frames_in self.now.frames.items) }
    {
        self.base.len() + weigh_functions(self.frames.as_slice())
    }
}

/// What the arguments of a function weigh: the bytes of all of them, and one for each `,` between
/// them. The sum has to fit a `usize`.
pub fn weigh_pieces<A: Allocator + Copy>(arguments: &Pieces<A>) -> usize
    requires { total_length (all_texts arguments.now) + (length (all_texts arguments.now) - 1) < 2 ^ 64 }
    ensures { result ≡ total_length (all_texts arguments.now) + (length (all_texts arguments.now) - 1) }
{
    let lent = arguments.lend();
    lent.text().len() + lent.commas().len()
}

/// What begun functions weigh: the arguments of each, and one. The sum has to fit a `usize`.
pub fn weigh_functions<A: Allocator + Copy>(functions: &[(Kind, Pieces<A>)]) -> usize
    requires { frames_weight (frames_in functions.now) < 2 ^ 64 }
    ensures { result ≡ frames_weight (frames_in functions.now) }
{
    let mut weight = 0;
    for function in functions {
        weight += weigh_pieces(&function.1) + 1;
    }
    weight
}
