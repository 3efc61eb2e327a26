//! A dialogue with a person at a terminal: lines are read, and a reply is written to each, whoever replies. A line is
//! split into its words, and these say an order. All of it is this project's profile.
#![tactic(auto)]

mod calls;
mod dialogue;
mod order;
mod programs;
mod splitting;

pub use calls::{Calls, Wanted, wanted_of};
pub use dialogue::{Replier, converse};
pub use order::{HELP, Move, NOT_UNDERSTOOD, Order, Spot, UNQUOTED, misunderstood, order_of};
pub use programs::{OneProgram, Programs, Unread};
pub use splitting::{Word, after_first, has_words, is_second_quoted, texts_of, words_of};
