//! The machine: a state of the language that takes one step at a time, and goes back over it. Limits, refusals, what
//! takes memory and what else T-64 does not name are this project's profile.
#![tactic(auto)]

mod ahead;
mod back;
mod calling;
pub mod engine;
pub mod loading;
mod moves;
mod one;
mod readers;
pub mod record;
mod scanning;
mod stepping;
mod undoing;

pub use engine::{Core, Machine};
pub use loading::Parts;
pub use record::Record;
pub use trac_forms::{Block, Form, Item, Store, Texts};
pub use trac_journal::{Journal, Undone};
pub use trac_prims::Tape;
pub use trac_rules::kind::Kind;
pub use trac_rules::refusal::Refusal;
pub use trac_rules::width::Width;
pub use trac_text::{Args, Mark, Pieces, PiecesRef};
