//! The debugger: commands, one a line, to a session that walks forwards and backwards, and the replies to them. All
//! of it is this project's profile.
#![tactic(auto)]

mod command;
mod debugging;
mod one_text;
mod replies;

pub use command::{LineCommand, command_in, words_are_as_stated};
pub use debugging::{DebugReport, debug, debug_session};
pub use one_text::one_text_has_no_refused_memory;
pub use replies::state_lines;
