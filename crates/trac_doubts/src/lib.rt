//! Doubts: what the next step would do that a person is unlikely to have meant. They are judged by parts of a state,
//! and nothing is changed. All of it is this project's profile.
#![tactic(auto)]

mod addresses;
pub mod ahead;
mod calls;
mod counts;
mod gaps;
mod numbers;
mod texts;

pub use ahead::Ahead;
pub use trac_rules::doubt::Doubt;
