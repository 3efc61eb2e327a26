//! What is seen of a machine around the place that scanning has reached, without a line of it.
#![tactic(auto)]

mod default;
mod doubted;
mod glance;
mod printing;
mod reach;
mod sight;

pub use default::{gives_nothing, takes_default};
pub use doubted::{argument_doubted, argument_of};
pub use glance::{Glance, glance_at};
pub use printing::lacks_output_room;
pub use reach::{Forgetting, Reach};
pub use sight::{Sight, argument_count, is_nameless, last_of, performed_in, reads_text, sight_of};
