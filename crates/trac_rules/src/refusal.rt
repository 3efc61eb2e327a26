//! Why a call was refused.
ghost use Rattle.std.specs.Prelude.{◌≡◌};
ghost use Rattle.trac_rules.specs.declared.refusal.Refusal.TheVariants.{Memory};

use std::alloc::{AllocError, AllocFailed};
use thiserror::Error;

/// Why a call was refused. A refused step, backward step or feed leaves the state as it was;
/// after a walk that a refusal ended, the steps that it counted stand.
#[derive(Clone, Copy, Debug, PartialEq, Eq, Error)]
pub enum Refusal {
    /// A growth was refused memory.
    #[error("no memory")]
    Memory = 1,
    /// A limit would be passed.
    #[error("a limit would be passed")]
    TooLong = 2,
    /// More input has to be fed first.
    #[error("more input is needed")]
    NeedInput = 3,
    /// The input has ended and is all read, or the program halts.
    #[error("the input has ended")]
    Ended = 4,
    /// The journal holds as many records as it may.
    #[error("the journal is full")]
    JournalFull = 5,
    /// There is no record to go back over.
    #[error("this is the first state")]
    AtStart = 6,
    /// Something was fed after the end of the input.
    #[error("the input was closed")]
    Closed = 7,
    /// The name that was looked for was not met.
    #[error("the name was not met")]
    NotMet = 8,
}

impl From<AllocError> for Refusal {
    ghost from_gives = { λ _ refusal. refusal ≡ Memory };

    fn from(_error: AllocError) -> Refusal {
        Refusal::Memory
    }
}

impl<T: Drop> From<AllocFailed<T>> for Refusal {
    ghost from_gives = { λ _ refusal. refusal ≡ Memory };

    fn from(_failed: AllocFailed<T>) -> Refusal {
        Refusal::Memory
    }
}
