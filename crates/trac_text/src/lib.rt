//! Texts and marks, without forms: the neutral text with its marks, read as base text and begun functions, and the
//! texts of a processor, with what scanning, calls and the ways back make of them. Limits, refusals, what takes memory
//! and what else T-64 does not name are this project's profile.
#![tactic(auto)]

pub mod args;
pub mod begun;
pub mod calls;
mod calls_back;
mod emptying;
mod ends;
pub mod frames;
pub mod framing;
pub mod front;
pub mod mark;
pub mod matching;
pub mod pieces;
pub mod scanning;
pub mod texts;
mod texts_back;

pub use args::Args;
pub use begun::BegunFunctions;
pub use calls::Beginning;
pub use frames::{Innermost, NeutralText};
pub use mark::Mark;
pub use pieces::{Functions, Pieces, PiecesRef};
pub use scanning::{Rule, Short};
pub use texts::Texts;
pub use trac_rules::kind::Kind;
pub use trac_rules::refusal::Refusal;
