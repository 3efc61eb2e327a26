//! What a run, the debugger and a walk have in common: options, tapes and lines from a reader, whole texts to a writer,
//! bytes and numbers as they are shown, and how it ended. All of it is this project's profile.
#![tactic(auto)]

mod ending;
mod escaping;
mod finding;
mod input;
mod laws;
mod lines;
mod options;
mod system;
pub mod writing;

pub use ending::Ending;
pub use escaping::{
    byte_into, escaped_into, lead_into, number_into, number_line_into, text_into, text_line_into,
};
pub use finding::place_of;
pub use input::{READ_SIZE, read_tape};
pub use laws::sizes_are_as_stated;
pub use lines::{LINE_COUNT_LIMIT, LINE_LIMIT, Lines, NextLine, READ_COUNT_LIMIT};
pub use options::{BUDGET_LIMIT, DEFAULT_BUDGET, Options, decimals_of, is_in_range};
pub use system::say;
