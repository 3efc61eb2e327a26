//! A window over a session, of which the last steps are kept; and a walker over it: moves and searches that forget
//! steps where they must, and go back over those that are kept.
#![tactic(auto)]

mod aim;
mod doubted;
mod searching;
mod walker;
mod window;

pub use aim::Aim;
pub use doubted::place_of;
pub use searching::Search;
pub use walker::Walker;
pub use window::{Window, windows_are_walked, windows_show_what_steps_print};
