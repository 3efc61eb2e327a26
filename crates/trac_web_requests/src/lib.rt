//! Requests of a host that is no process, as a page of a browser, over slices alone: which numbers are taken, a run, a
//! session of the debugger, the way of a byte, and how a reply comes into the buffer of the host. A law says of these,
//! of a run, the debugger and a window that they show the same.
#![tactic(auto)]

mod debugging;
mod judging;
mod laws;
mod outcome;
mod reply;
mod rows;
mod running;
mod ways;

pub use debugging::replies_text;
pub use judging::{width_for_run, width_for_walk};
pub use laws::every_way_shows_what_steps_print;
pub use outcome::Outcome;
pub use reply::{Reply, deliver};
pub use running::run_text;
pub use ways::{Spot, way_text};
