//! The command lines of `trac run`, `trac debug`, `trac walk` and `trac lint`: what their words ask for. All of it is
//! this project's profile.
#![tactic(auto)]

pub mod help;
pub mod lint_words;
pub mod memory_words;
pub mod names;
mod tips;
pub mod walk_words;
pub mod words;
