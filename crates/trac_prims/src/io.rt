//! Calls that read the input. `ps`, which prints, has its arm in `perform`, `planning.rt`.
ghost use Rattle.std.specs.Prelude.{◌≡◌, ◌+◌, ◌≤◌, List, ℕ, length, drop, IfOk, Ok};
ghost use Rattle.trac_rules.specs.Effect.{reads};
ghost use Rattle.trac_rules.specs.Reading.{byte_read, string_read};
ghost use Rattle.trac_rules.specs.State.{Storage};
ghost use Rattle.trac_change.specs.declared.change.UnnamedChange.TheVariants.{Keep};
ghost use Rattle.trac_prims.specs.Effects.{IsDone};

use crate::effect::{Deed, Made, NOTHING};
use crate::tape::Tape;
use memchr::memchr;
use std::alloc::Allocator;
use trac_rules::refusal::Refusal;

// `rs`: the input from this place on, up to the first meta character, or all of it at its end.
pub(crate) fn read_string<A: Allocator + Copy>(
    tape: Tape<'_>,
    place: usize,
    meta: u8,
    made: &mut Made<A>,
) -> Result<Deed, Refusal>
    requires { place ≤ length tape.bytes.now }
    ensures outcome { (arguments : List (List ℕ)) (storage : Storage) → IsDone arguments storage
        (string_read (drop place tape.entry.bytes.now) tape.entry.ended meta storage) made.old made.new Keep result }
    ensures within { IfOk result (λ d. place + d.read ≤ length tape.entry.bytes.now) }
{
    let unread = tape.bytes.split_at(place).1;
    if let Some(k) = memchr(meta, unread) {
        return take(unread.split_at(k).0, k + 1, made);
    }
    if !tape.ended {
        return Err(Refusal::NeedInput);
    }
    if unread.is_empty() {
        return Err(Refusal::Ended);
    }
    take(unread, unread.len(), made)
}

// `rc`: the next byte of the input, whichever it is.
pub(crate) fn read_byte<A: Allocator + Copy>(
    tape: Tape<'_>,
    place: usize,
    made: &mut Made<A>,
) -> Result<Deed, Refusal>
    requires { place ≤ length tape.bytes.now }
    ensures outcome { (arguments : List (List ℕ)) (storage : Storage) → IsDone arguments storage
        (byte_read (drop place tape.entry.bytes.now) tape.entry.ended storage) made.old made.new Keep result }
    ensures within { IfOk result (λ d. place + d.read ≤ length tape.entry.bytes.now) }
{
    let unread = tape.bytes.split_at(place).1;
    if unread.is_empty() {
        return Err(if tape.ended {
            Refusal::Ended
        } else {
            Refusal::NeedInput
        });
    }
    take(unread.split_at(1).0, 1, made)
}

// Gives a text as the value, for which so many bytes of the input are read.
fn take<A: Allocator + Copy>(text: &[u8], read: usize, made: &mut Made<A>) -> Result<Deed, Refusal>
    ensures outcome { (arguments : List (List ℕ)) (storage : Storage) →
        IsDone arguments storage (Ok (reads text.now read storage)) made.old made.new Keep result }
    ensures read { IfOk result (λ d. d.read ≡ read) }
{
    made.value.extend_from_slice(text)?;
    Ok(Deed { read, ..NOTHING })
}
