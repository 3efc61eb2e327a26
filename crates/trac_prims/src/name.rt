//! The names of the primitives.
ghost use Rattle.std.specs.Prelude.{◌≡◌};
ghost use Rattle.trac_rules.specs.Performing.{primitive_of};

use trac_rules::primitive::{NAMES, Primitive};

/// How many slots the names are spread over, so that no two of them share one.
const SLOT_COUNT: usize = 82;

/// At the slot of each name its place in the table of names. At the other slots stands a place past
/// the end of the table.
const PLACES: [u8; SLOT_COUNT] = [
    33, 33, 12, 33, 33, 15, 8, 33, 33, 1, 33, 14, 32, 33, 33, 33, 11, 33, 29, 33, 17, 16, 30, 13,
    33, 33, 33, 7, 33, 33, 3, 0, 33, 33, 33, 25, 33, 33, 33, 21, 33, 10, 31, 33, 23, 4, 26, 33, 33,
    33, 22, 24, 33, 33, 33, 33, 6, 33, 9, 33, 33, 33, 27, 20, 5, 33, 19, 33, 33, 33, 28, 33, 33,
    33, 33, 2, 33, 33, 33, 33, 33, 18,
];

/// What a name stands for, each letter in either case: all names are of two letters. A name that is no
/// primitive's stands for `Unknown`.
pub fn primitive_named(name: &[u8]) -> Primitive
    ensures { result ≡ primitive_of name.now }
{
    let [first, second] = name else {
        return Primitive::Unknown;
    };
    let letters = [first.to_ascii_lowercase(), second.to_ascii_lowercase()];
    // Only the entry at their slot can be theirs.
    let slot = (usize::from(letters[0]) * 30 + usize::from(letters[1])) % SLOT_COUNT;
    let Some(entry) = NAMES.get(usize::from(PLACES[slot])) else {
        return Primitive::Unknown;
    };
    if entry.letters == letters {
        entry.primitive
    } else {
        Primitive::Unknown
    }
}
