//! Faults on demand, for tests: an allocator that refuses chosen requests for memory, and readers and writers over
//! memory that fail at chosen calls.
//!
//! No product crate stands on this one but for its tests. In a test, with `run(alloc, &mut reader, &mut writer)` as the
//! code under test:
//!
//! ```text
//! fn run_once(rt: &impl Abort, memory: &Refusing<Global>) -> Result<(), RunError> {
//!     let mut reader = FaultyReader::new(b"AB'").at_most(1);
//!     let mut writer = FaultyWriter::new(memory);
//!     ..
//! }
//!
//! // a test: each request is refused in turn, until a run makes none of that number
//! fn each_request(rt: HostRuntime) {
//!     for nth in 1..10_000 {
//!         let memory = Refusing::new(rt.alloc());
//!         memory.refuse_nth(nth);
//!         let ended = run_once(&rt, &memory);
//!         if memory.refusals() == 0 {
//!             assert!(rt; nth > 1 && ended.is_ok());
//!             return;
//!         }
//!         assert!(rt; ended.is_err());
//!     }
//!     panic!(rt; "too few runs");
//! }
//! ```
//!
//! What is proved: the allocator hands out, grows and gives back blocks as std's trait asks; each reader and writer
//! keeps what std's traits say of its bytes, after errors too; and the rules by which requests and calls are chosen.
//! What a cell holds no clause can say, so the counts and the log are shown by tests alone.
#![tactic(auto)]

mod faulty_reader;
mod faulty_writer;
mod logging;
mod memory;
mod requests;
mod schedule;

pub use faulty_reader::FaultyReader;
pub use faulty_writer::FaultyWriter;
pub use logging::{CallLog, Logged, LoggedCall};
pub use memory::Refusing;
