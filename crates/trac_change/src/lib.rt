//! What a call changes of forms and blocks, as data: what it will change, as it is planned, with the arguments that
//! this names, and what it destroyed, by which that can be got back. Limits, refusals, what takes memory and what else
//! T-64 does not name are this project's profile.
#![tactic(auto)]

pub mod change;
pub mod later;
pub mod undone;
mod weighing;

pub use change::{Change, UnnamedChange};
pub use later::{LaterArguments, after};
pub use undone::Undone;
