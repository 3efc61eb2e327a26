//! The doubts of the next step.
ghost use Rattle.std.specs.Prelude.{◌≡◌, option_map, IfOk, IsOkUnless};
ghost use Rattle.trac_doubts.specs.Ahead.{doubts_ahead};
ghost use Rattle.trac_rules.specs.Doubts.{doubts};
ghost use Rattle.trac_rules.specs.Goals.{next_call};

use crate::session::Session;
use std::alloc::Allocator;
use trac_doubts::Ahead;
use trac_gap::TwoEnds;
use trac_rules::doubt::Doubt;
use trac_rules::refusal::Refusal;
use trac_rules::width::Width;
use trac_step::{Args, Core, Mark};

impl<A: Allocator + Copy> Session<A> {
    /// What the next step would do that a person is unlikely to have meant, in the order in which doubts are defined.
    /// The tape decides nothing, so a step may be refused and have doubts. Refused with `Memory` if the allocator
    /// refuses.
    pub fn doubts(&self, alloc: A) -> Result<Vec<Doubt, A>, Refusal>
        ensures made { IfOk result (λ v. v.items ≡ doubts self.now.width self.now.last) }
        ensures err { IsOkUnless result Refusal.Memory }
    {
        let mut found = Vec::new(alloc);
        ahead(self.machine(), self.width()).doubts_into(&mut found)?;
        Ok(found)
    }
}

// What a machine's next step is judged by.
pub(crate) fn ahead<E: TwoEnds<u8, A>, M: TwoEnds<Mark, A>, A: Allocator + Copy>(
    machine: &Core<E, M, A>,
    width: Width,
) -> Ahead<'_, A>
    ensures { doubts_ahead result ≡ doubts width machine.now.state }
{
    let call = arguments_called(machine);
    Ahead {
        active: machine.active(),
        depth: machine.depth(),
        call,
        store: machine.store(),
        width,
    }
}

// All arguments of the call that a machine's next step performs, its name first, if it performs one.
fn arguments_called<E: TwoEnds<u8, A>, M: TwoEnds<Mark, A>, A: Allocator + Copy>(
    machine: &Core<E, M, A>,
) -> Option<Args<'_>>
    ensures { result ≡ option_map (λ call. call.arguments) (next_call machine.now.state) }
{
    match machine.next_call() {
        Some((_, arguments)) => Some(arguments),
        None => None,
    }
}
