//! Why a call on lists with two ends can be refused.
ghost use Rattle.std.specs.Prelude.{◌≡◌};
ghost use Rattle.trac_gap.specs.declared.error.GapError.TheVariants.{Memory};

use std::alloc::AllocError;
use std::error::Error;
use std::fmt;

/// Why `reserve` or `copy` did nothing.
#[derive(Clone, Copy, Debug, PartialEq, Eq)]
pub enum GapError {
    /// The allocator refused the memory.
    Memory = 1,
}

impl From<AllocError> for GapError {
    ghost from_gives = { λ _ e. e ≡ Memory };

    fn from(_error: AllocError) -> GapError {
        GapError::Memory
    }
}

impl fmt::Display for GapError {
    fn fmt<W: fmt::Write>(&self, f: &mut fmt::Formatter<W>) -> fmt::Result {
        match self {
            GapError::Memory => write!(f, "out of memory"),
        }
    }
}

impl Error for GapError {}
