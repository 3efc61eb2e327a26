//! Following a byte back to the step that made it, or to the byte of the input that it is. All of
//! it is this project's profile.
#![tactic(auto)]

pub mod history;
mod kept;
pub mod tracing;

pub use history::{Followed, Source, follow};
pub use trac_follow_step::{After, Origin, Place, origin_of};
pub use tracing::{End, Traced, Witness, trace};
