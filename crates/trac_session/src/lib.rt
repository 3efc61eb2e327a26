//! Sessions: a processor that goes forwards and backwards over an input that is fed to it, with a journal of its steps.
//! Limits, refusals, what takes memory and what else T-64 does not name are this project's profile.
#![tactic(auto)]

mod commands;
mod doubts;
pub mod goal;
pub mod outputs;
mod passing;
pub mod session;
mod sweep_mark;
mod walk;
mod walking;

pub use commands::{Command, Replies, Reply};
pub use goal::Goal;
pub use session::{Session, WEIGHED_BYTES};
pub use trac_forms::Form;
pub use trac_rules::doubt::Doubt;
pub use trac_rules::refusal::Refusal;
pub use trac_step::{Args, Block, Item, Kind, Machine, Mark, Store, Tape, Texts, Width};
pub use walk::{Return, Walk};
