//! The journal: what the steps of a machine destroyed, a record for each, packed one after another, and
//! the parts of which records are made. Nothing here knows a machine. All of it is this project's profile:
//! T-64 says nothing of ways back.
#![tactic(auto)]

pub mod called;
pub mod dropping;
pub mod emptied;
mod emptied_weight;
pub mod entry;
pub mod journal;
pub mod keeper;
pub mod lists;

pub use called::{Called, LentCall};
pub use dropping::Passed;
pub use emptied::Emptied;
pub use emptied_weight::{weigh_functions, weigh_pieces};
#[doc(hidden)]
pub use entry::{CallEntry, Entry, Kept};
pub use journal::{Journal, weigh_call};
pub use keeper::Keeper;
#[doc(hidden)]
pub use lists::Lists;
pub use trac_change::{Undone, undone};
pub use trac_rules::kind::Kind;
pub use trac_rules::refusal::Refusal;
pub use trac_text::{Functions, Pieces, PiecesRef};
