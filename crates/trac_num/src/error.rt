//! Why a call on numbers can be refused.
ghost use Rattle.std.specs.Prelude.{◌≡◌};
ghost use Rattle.trac_num.specs.declared.error.NumError.TheVariants.{Memory};
ghost use Rattle.trac_rules.specs.declared.refusal.Refusal.TheVariants as refused;

use std::alloc::{AllocError, AllocFailed};
use thiserror::Error;
use trac_rules::refusal::Refusal;

/// Why a text could not be made.
#[derive(Clone, Copy, Debug, PartialEq, Eq, Error)]
pub enum NumError {
    /// The allocator refused the memory.
    #[error("no memory")]
    Memory = 1,
}

impl From<AllocError> for NumError {
    ghost from_gives = { λ _ e. e ≡ Memory };

    fn from(_error: AllocError) -> NumError {
        NumError::Memory
    }
}

impl<T: Drop> From<AllocFailed<T>> for NumError {
    ghost from_gives = { λ _ e. e ≡ Memory };

    fn from(_failed: AllocFailed<T>) -> NumError {
        NumError::Memory
    }
}

impl From<NumError> for Refusal {
    ghost from_gives = { λ _ refusal. refusal ≡ refused.Memory };

    fn from(error: NumError) -> Refusal {
        match error {
            NumError::Memory => Refusal::Memory,
        }
    }
}
