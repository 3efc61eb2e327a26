//! What is remembered while the doubts of a program are looked for: which were met, and through which places bytes were
//! followed back. All of it is this project's profile.
#![tactic(auto)]

mod memory;
mod stand;
mod ways;

pub use memory::{Kind, Meeting, Memory, kind_of, number_of};
pub use stand::Stand;
pub use ways::{Post, Since, Span, Ways};
