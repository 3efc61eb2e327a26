//! What is replied to a person who walks through a program, whoever walks: what each line asks for, and what is said.
#![tactic(auto)]

mod begun_told;
mod breaks;
mod call_list;
mod doubts_told;
mod guide;
mod later;
mod missing;
mod origins;
mod output;
mod places;
mod programs;
mod reasons;
mod replying;
mod restarting;
mod telling;
pub mod walks;

pub use guide::Guide;
pub use output::{printed, printed_text};
pub use telling::{LINE_COUNT, REASON_COLUMN};
pub use walks::{End, Walks};
