//! The memory that a program may take: an allocator that keeps within a limit, the limit if none is asked for, and
//! tapes within it. All of it is this project's profile.
//!
//! What is proved: the allocator hands out, grows and gives back blocks as std's trait asks, and whether a block still
//! has room is decided exactly as its definition says. What a cell holds no clause can say, so that the room is counted
//! over all calls is shown by tests alone.
#![tactic(auto)]

mod limited;
mod machine;
mod room;
mod tape;

pub use limited::Limited;
pub use machine::{MOST_BY_DEFAULT, limit_in};
pub use room::BLOCK_COST;
pub use tape::tape_in;
