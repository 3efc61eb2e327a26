//! What a form is made of: its items, kept in eight bytes each or as a text; runs of bytes among them, many at a time;
//! and the gaps that segmenting makes in such a run.
#![tactic(auto)]

mod after;
mod byte_runs;
mod packed;
mod run_gaps;
mod text_lists;

pub use after::{After, text_within};
pub use byte_runs::{first_run_into, last_run_len, run_len};
pub use packed::PackedItem;
pub use run_gaps::{RunGap, cut_run};
pub use text_lists::Texts;
