//! The language: what a TRAC T-64 processor does, as definitions (the folder `specs/`), the small types that both the
//! definitions and the programs name, and the laws of the definitions as contracts. Limits, refusals and what else T-64
//! does not name are this project's profile.
#![tactic(auto)]

pub mod blocks;
pub mod byte;
pub mod call_rows;
pub mod commits;
pub mod doubt;
pub mod doubt_rows;
pub mod goals;
pub mod item;
pub mod kind;
pub mod laws;
pub mod limit;
pub mod longer_tapes;
pub mod numbers;
pub mod octals;
pub mod plain_runs;
pub mod primitive;
pub mod records;
pub mod refusal;
pub mod reply;
pub mod rows;
pub mod scan;
pub mod segmenting;
pub mod trails;
pub mod width;
