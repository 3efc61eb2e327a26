//! What is found in a program that is looked through: places in its files, the lines that tell of them, and a guess at
//! the parenthesis that is wrong. All of it is this project's profile.
#![tactic(auto)]

mod parentheses;
mod report;
mod sources;

pub use parentheses::{Advice, Fault, advice_on};
pub use report::{Found, Halt, PLACE_LIMIT, Report, write_found};
pub use sources::{Sources, Spot};
