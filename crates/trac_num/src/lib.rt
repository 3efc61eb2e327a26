//! Numbers and octal strings at the ends of texts: decimals are read, calculated within the range of a width, compared
//! and printed, and the bits of octal strings are joined, turned over, moved and rotated. How far numbers reach and
//! what T-64 leaves open of them are this project's profile.
#![tactic(auto)]

pub mod arithmetic;
pub mod bitwise;
pub mod comparison;
pub mod error;
pub mod numeral;
pub mod octal;
pub mod print;
pub mod shifting;
pub mod tail;

pub use arithmetic::{add, div, mul, sub};
pub use bitwise::{complement, meet, union};
pub use comparison::greater;
pub use error::NumError;
pub use numeral::value;
pub use octal::octal_tail;
pub use print::print_into;
pub use shifting::{rotate, shift};
pub use tail::{Tail, read_tail};
pub use trac_rules::width::Width;
