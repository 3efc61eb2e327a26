//! Following a byte back over one step: where it stood before the step, or that the step made or read it. All of it is
//! this project's profile.
#![tactic(auto)]

mod called;
mod fetched;
mod formed;
mod items;
mod moving;
mod offset;
pub mod origin;
pub mod place;
mod running;
mod standing;
mod valued;

pub use items::extent_before;
pub use offset::{argument_offset, is_innermost};
pub use origin::origin_of;
pub use place::{After, Origin, Place};
pub use running::{before_in_active, before_run, stays};
pub use standing::stands;
