//! Rows of random programs and calls, worked out by a plain interpreter and computed from the definitions.
#![tactic(auto)]

pub mod drawn_rows;
