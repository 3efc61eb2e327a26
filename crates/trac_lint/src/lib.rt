//! Doubts of a whole program: it is run to its end, and each doubt is told once for each place of its files. All
//! of it is this project's profile.
#![tactic(auto)]

mod alike;
mod linting;
mod mentioning;
mod near;
mod origins;
mod scout;
mod texts;
mod track;

pub use alike::prints_alike;
pub use linting::{Settings, lint};
pub use mentioning::mentions;
pub use trac_places::{Found, Halt, PLACE_LIMIT, Sources};
