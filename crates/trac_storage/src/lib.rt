//! Forms and blocks without the machine: what a call changes of them, there and back, and the parts of which they are
//! loaded. Limits, refusals, what takes memory and what else T-64 does not name are this project's profile.
#![tactic(auto)]

mod blocking;
mod changing;
mod leaving;
mod parts;
mod storage_back;
mod storing;

pub use changing::change_forms;
pub use parts::{Parts, lengths_within};
pub use storage_back::put_storage;
pub use storing::stored;
