//! The text of a file that an editor holds: its positions, as lines and characters, and its edits. This is the
//! arithmetic of the Language Server Protocol, over bytes alone.
#![tactic(auto)]

mod editing;
mod positions;

pub use editing::{Range, changed, edited};
pub use positions::{Encoding, Position, offset_of, position_of};
