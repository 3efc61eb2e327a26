//! The adapter of `trac dap`, which speaks the Debug Adapter Protocol over a reader and a writer: an editor steps
//! through a program with it, forwards and backwards.
#![tactic(auto)]

mod adapter;
mod breaking;
mod breakpoints;
mod conditions;
mod debuggee;
mod evaluating;
mod launching;
mod messages;
mod moving;
mod outbox;
mod printing;
mod programs;
mod progress;
mod running;
mod serving;
mod stack;
mod stepping;
mod stopping;
mod variables;

pub use adapter::{Adapter, Turn};
pub use outbox::Outbox;
pub use programs::Programs;
pub use serving::{Finish, serve};
