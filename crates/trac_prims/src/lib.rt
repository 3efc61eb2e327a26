//! What the primitives do: each call is planned, its pieces already made, before anything changes. Limits, refusals,
//! what takes memory and what else T-64 does not name are this project's profile.
#![tactic(auto)]

mod blocks;
mod computing;
pub mod effect;
mod forms;
mod io;
mod name;
mod planning;
mod reading;
pub mod tape;
mod tracing;

pub use computing::{number_at, result_on};
pub use effect::{Deed, Effect, Made, Now};
pub use name::primitive_named;
pub use planning::{plan, plan_into};
pub use tape::Tape;
pub use trac_change::{Change, LaterArguments, UnnamedChange, after, change, later};
pub use trac_forms::{Block, Form, Item, Store, Texts};
pub use trac_rules::kind::Kind;
pub use trac_rules::refusal::Refusal;
pub use trac_rules::width::Width;
pub use trac_text::{Args, BegunFunctions, Innermost, Mark, NeutralText};
