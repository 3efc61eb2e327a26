//! The room that is left of a limit, and what a block takes of it.
ghost use Rattle.std.specs.Prelude.{◌≡◌, ◌+◌, ◌<◌, MatchOption};
ghost use Rattle.trac_memory.specs.Room.{room_of, room_with};

use std::cell::Cell;

/// What a block takes of the room beside its bytes: as much as the heap of the C library needs for it, at most.
pub const BLOCK_COST: usize = 32;

/// What is left of this room once a block of `new` bytes stands in place of one of `old`, where 0 bytes are no block.
/// None if it is too little.
pub(crate) fn room_after(room: usize, old: usize, new: usize) -> Option<usize>
    ensures { MatchOption result (room_with room old < room_of new) (λ left. left + room_of new ≡ room_with room old) }
{
    room.saturating_add(cost_of(old)).checked_sub(cost_of(new))
}

// What a block of so many bytes takes of the room.
fn cost_of(bytes: usize) -> usize
    ensures { result ≡ room_of bytes }
{
    match bytes {
        0 => 0,
        bytes => bytes.saturating_add(BLOCK_COST),
    }
}

/// Counts a block for `new` values in place of one for `old`, each of `size` bytes, if there is room for it; whether
/// there is. No product wraps, since no block has 2 ^ 63 bytes.
pub(crate) fn exchange(room: &Cell<usize>, old: usize, new: usize, size: usize) -> bool {
    match room_after(room.get(), old.wrapping_mul(size), new.wrapping_mul(size)) {
        Some(left) => {
            room.set(left);
            true
        }
        None => false,
    }
}
