//! Loading: a machine made from the parts of a state.
ghost use Rattle.std.specs.Prelude.{◌≡◌, ◌≤◌, length, IfOk, IsOkUnless};
ghost use Rattle.trac_rules.specs.Outcomes.{MayAnswer};
ghost use Rattle.trac_text.specs.Framing.{EachGathers};
ghost use Rattle.trac_storage.specs.Loading.{loaded};
ghost use Rattle.trac_step.specs.Loading.{HasAsked};
ghost use Rattle.trac_step.specs.Room.{HasRoom};

use crate::engine::Core;
use std::alloc::Allocator;
use trac_gap::{SlidingBuf, TwoEnds};
use trac_rules::width::Width;
pub use trac_storage::Parts;
use trac_storage::{lengths_within, stored};
use trac_text::{Mark, Refusal, Texts};

// The output of parts, with no less room than is wanted.
fn output_of<A: Allocator + Copy>(alloc: A, parts: &Parts<A>) -> Result<SlidingBuf<u8, A>, Refusal>
    ensures items { IfOk result (λ output. output.items ≡ parts.now.output.items) }
    ensures room { IfOk result (λ output. parts.now.output_room ≤ output.capacity) }
    ensures holds { IfOk result (λ output. length output.items ≤ output.capacity) }
    ensures err { IsOkUnless result Refusal.Memory }
{
    let printed = parts.output.as_slice();
    let room = printed.len().max(parts.output_room);
    let mut output = SlidingBuf::with_capacity(alloc, room)?;
    output.put(printed);
    Ok(output)
}

impl<E: TwoEnds<u8, A>, M: TwoEnds<Mark, A>, A: Allocator + Copy> Core<E, M, A> {
    /// A machine that shows the state of the parts, with numbers of this width. It has at least the rooms
    /// that they ask for, and knows their names and those of all forms. It has memory of its own, and a room
    /// that is less than the state needs is made as large as that. Each begun function has to have an
    /// argument, the one that is being gathered.
    ///
    /// Refused with `TooLong` if the state, a room or a name passes a limit, and with `Memory` if the allocator
    /// refuses. `Memory` may come first if there are too many forms: they are counted in their store.
    pub fn load(alloc: A, parts: &Parts<A>, width: Width) -> Result<Self, Refusal>
        requires { EachGathers parts.now.frames.items }
        ensures answer { MayAnswer (λ m. m.state) (loaded parts.now) result }
        ensures asked { IfOk result (HasAsked parts.now) }
        ensures width { IfOk result (λ m. m.width ≡ width) }

        // A machine has room for its own state.
        ensures holds { IfOk result (λ m. HasRoom m m.state) }
    {
        if !lengths_within(parts) {
            return Err(Refusal::TooLong);
        }
        let store = stored(alloc, parts)?;
        let texts = Texts::load(
            alloc,
            parts.active.as_slice(),
            parts.base.as_slice(),
            parts.frames.as_slice(),
            parts.text_room,
            parts.mark_room,
        )?;
        let output = output_of(alloc, parts)?;
        texts.recall_room();
        Ok(Core {
            texts,
            store,
            meta: parts.meta,
            trace: parts.trace,
            position: parts.position,
            output,
            width,
        })
    }
}
