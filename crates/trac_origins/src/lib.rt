//! Where each byte comes from: of every byte of a state after a step, and of every item of a form, the place at
//! which it stood before, the byte of the tape that it is, or that the step made it. Nothing runs here: the
//! definitions stand in the folder `specs/`, and the laws over them are contracts. All of it is this project's
//! profile: T-64 says nothing of origins.
#![tactic(auto)]

pub mod accounts;
pub mod lengths;
pub mod rows;
