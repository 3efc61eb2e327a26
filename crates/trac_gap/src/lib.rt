//! Lists with two ends: one list that grows at its end and one that grows at its front, over places that both
//! share; and a list that grows at its end and loses items at both ends. T-64 says nothing of such lists: all
//! of it is this project's profile.
#![tactic(auto)]

pub mod error;
pub mod gap_buf;
pub mod plain;
mod runs;
pub mod sliding;
mod slots;
pub mod two_ends;

// A crate above can name a buffer in a contract only if the types of its fields are exported.
pub use error::GapError;
pub use gap_buf::GapBuf;
pub use plain::PlainEnds;
pub use sliding::SlidingBuf;
#[doc(hidden)]
pub use slots::{BlockStart, Lease, Slots};
pub use two_ends::TwoEnds;
