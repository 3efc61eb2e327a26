//! A debugger for a person at a terminal: a walker that the replies ask, its moves, and the way of a byte back to where
//! it comes from.
#![tactic(auto)]

mod calls_told;
mod carrying_out;
mod following;
mod manner;
mod restarting;
mod seeking;
mod tracing;
mod walking;
mod walks;

pub use trac_dialogue::{OneProgram, Programs, Unread};
pub use walking::{Settings, walk, walk_among};
