//! Runs: a program's input from a reader, its output to a writer, and how it ended.
#![tactic(auto)]

mod running;

pub use running::{RunReport, run, run_session};
pub use trac_streams::{Ending, Options};
