//! What a session answers to a command.
use crate::refusal::Refusal;

/// The reply to one command of a session.
#[derive(Clone, Copy, Debug, PartialEq, Eq)]
pub enum Reply {
    /// The command was carried out.
    Done,
    /// The command was refused, and nothing changed.
    Refused(Refusal),
}
