//! The frames in which an editor's protocols put their messages: a header that announces how long a message is, and
//! the message. The Language Server Protocol and the Debug Adapter Protocol share them; the limits are this project's
//! profile.
#![tactic(auto)]

mod header;
mod incoming;
mod laws;
mod writing;

pub use header::{HEADER_LIMIT, Heading, MESSAGE_LIMIT, heading_of};
pub use incoming::{Incoming, Next};
pub use laws::{limits_are_as_stated, written_messages_are_read};
pub use writing::write_message;
