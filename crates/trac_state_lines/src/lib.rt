//! The state of a machine, as `trac debug` shows it. All of it is this project's profile.
#![tactic(auto)]

mod form_lines;
mod states;

pub use states::machine_lines;
