//! The processor and its debuggers for a host that is no process, as a page of a browser: over slices alone.
#![tactic(auto)]

mod doubting;
mod exports;

pub use exports::{trac_web_debug, trac_web_doubts, trac_web_run, trac_web_walk, trac_web_way};
