//! What keeps the records of steps, whatever holds them.
ghost use Rattle.std.specs.Prelude.{◌≡◌, ◌<◌, ◌≤◌, ◌^◌, ◌∷◌, ℕ, List, length, IsOkUnless, MatchOption, OnErr, OnOk};
ghost use Rattle.std.specs.List.{concat};
ghost use Rattle.trac_rules.specs.Records.{Called as CallOf, Idle, Moved, Record};
ghost use Rattle.trac_text.specs.Pieces.{all_texts, frames_in};
ghost use Rattle.trac_text.specs.Ruled.{said_by};
ghost use Rattle.trac_change.specs.Undone.{undone_in};
ghost use Rattle.trac_journal.specs.Journaled.{IsLight};
ghost use Rattle.trac_journal.specs.Listed.{AreSmall};
ghost use Rattle.trac_journal.specs.Told.{record_with, FitsEntry, HasCallFirst, HasCallOut, IsCallFirst};
ghost use Rattle.trac_journal.specs.Told.{IsIdleFirst, IsShortFirst};

use crate::called::{Called, LentCall};
use crate::emptied::Emptied;
use std::alloc::Allocator;
use trac_change::Undone;
use trac_rules::refusal::Refusal;
use trac_text::{Args, Functions, Short};

/// Keeps the records of steps, the newest first, up to a number of them.
///
/// A step first reserves, then changes the machine, and pushes its record, which cannot be refused. On the way
/// back the newest record is taken out by the function for its kind; that of a call is lent before, and taken out
/// after its texts are put back. Only calls that reserve can be refused, with `Memory`, and then the records stay.
pub trait Keeper<A: Allocator + Copy> {
    ghost records: { Self → List Record };

    // how many it may hold
    ghost most: { ℕ };

    // for how many more short records it has places
    ghost places: { Self → ℕ };

    // whether it has room for the record of a call with these arguments
    ghost has_room: { Self → List (List ℕ) → Type 0 };

    // and for that of a step that empties all texts
    ghost has_idle_room: { Self → Type 0 };

    /// Makes room for one short record.
    /// Refused with `Memory` if there is none yet and the allocator refuses it; the records stay.
    fn reserve_short(&mut self) -> Result<(), Refusal>
        ensures ok { OnOk result (1 ≤ places self.new) }
        ensures same { records self.new ≡ records self.old }
        ensures err { IsOkUnless result Refusal.Memory }
        ensures full { OnErr result (places self.old ≡ 0) };

    /// Makes room for the record of one call with these arguments, which have fewer than 2^32 bytes together.
    /// Refused with `Memory` if the allocator refuses; the records stay.
    fn reserve_call(&mut self, arguments: &Args<'_>) -> Result<(), Refusal>
        requires { length (concat arguments.now) < 2 ^ 32 }
        ensures ok { OnOk result (has_room self.new arguments.now) }
        ensures same { records self.new ≡ records self.old }
        ensures err { IsOkUnless result Refusal.Memory };

    /// Makes room for the record of one step that empties all texts.
    /// Refused with `Memory` if the allocator refuses; the records stay.
    fn reserve_idle(&mut self) -> Result<(), Refusal>
        ensures ok { OnOk result (has_idle_room self.new) }
        ensures same { records self.new ≡ records self.old }
        ensures err { IsOkUnless result Refusal.Memory };

    /// Keeps one record more, the newest, of a byte that was moved. It needs no room.
    fn push_moved_byte(&mut self)
        requires { length (records self.old) < most }
        ensures { records self.new ≡ Moved ∷ records self.old };

    /// Keeps one short record more, the newest. There has to be room for it, and a protected text to be shorter than
    /// 2^32 bytes, as every text of a machine is.
    fn push_short(&mut self, newest: Short)
        requires not_full { length (records self.old) < most }
        requires place { 1 ≤ places self.old }
        requires fits { FitsEntry newest }
        ensures { records self.new ≡ said_by newest ∷ records self.old };

    /// Keeps the record of one call more, the newest: what it says beside its arguments, these, and what it destroyed
    /// of forms and blocks, which is moved out of `undone`. There has to be room for it, each number to be below 2^32,
    /// and the record to weigh no more than 2^42, as that of every step from a proper state does.
    fn push_call(&mut self, called: Called, arguments: &Args<'_>, undone: &mut Undone<A>)
        requires not_full { length (records self.old) < most }
        requires small { AreSmall called (length (concat arguments.now)) (length arguments.now) }
        requires light { IsLight (CallOf (record_with called arguments.now (undone_in undone.old))) }
        requires room { has_room self.old arguments.now }
        ensures { records self.new
            ≡ CallOf (record_with called arguments.now (undone_in undone.old)) ∷ records self.old };

    /// Keeps the record of one step more that emptied all texts, the newest: the base text and the begun functions are
    /// moved out of these. There has to be room for it, and it may not weigh more than 2^42, as that of no step from a
    /// proper state does.
    fn push_idle(&mut self, base: &mut Vec<u8, A>, frames: &mut Functions<A>)
        requires not_full { length (records self.old) < most }
        requires light { IsLight (Idle base.old.items (frames_in frames.old.items)) }
        requires room { has_idle_room self.old }
        ensures { records self.new ≡ Idle base.old.items (frames_in frames.old.items) ∷ records self.old };

    /// Takes out the newest record and returns it, if its step performed no function and did not empty the texts; else
    /// returns none, and changes nothing.
    fn pop_short(&mut self) -> Option<Short>
        ensures { MatchOption result ((IsShortFirst (records self.old) → ⊥) × (self.new ≡ self.old))
            (λ short. records self.old ≡ said_by short ∷ records self.new) };

    /// The newest record, lent, if it is of a call; else none.
    fn newest_call(&self) -> Option<LentCall<'_>>
        ensures { MatchOption result (IsCallFirst (records self.now) → ⊥)
            (λ call. HasCallFirst call.called (all_texts call.arguments) (records self.now)) };

    /// Takes out the newest record, which has to be of a call, and returns what its step destroyed of forms and blocks.
    fn pop_call(&mut self) -> Undone<A>
        requires { IsCallFirst (records self.old) }
        ensures { HasCallOut (undone_in result) (records self.old) (records self.new) };

    /// Takes out the newest record and returns what its step emptied, if it emptied all texts; else returns none, and
    /// changes nothing.
    fn pop_idle(&mut self) -> Option<Emptied<A>>
        ensures { MatchOption result ((IsIdleFirst (records self.old) → ⊥) × (self.new ≡ self.old)) (λ emptied.
            records self.old ≡ Idle emptied.base.items (frames_in emptied.frames.items) ∷ records self.new) };
}
