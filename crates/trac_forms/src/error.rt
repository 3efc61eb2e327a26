//! Why a call on forms can be refused.
ghost use Rattle.std.specs.Prelude.{◌≡◌};
ghost use Rattle.trac_forms.specs.Outcomes.{as_refusal};
ghost use Rattle.trac_forms.specs.declared.error.FormError.TheVariants.{Memory};

use std::alloc::{AllocError, AllocFailed};
use thiserror::Error;
use trac_gap::GapError;
use trac_rules::refusal::Refusal;

/// Why a call on a form or on a store was refused. After each the forms, their names and their pointers are as they
/// were, and a text to whose end the call was to add still begins with what it held.
#[derive(Clone, Copy, Debug, PartialEq, Eq, Error)]
pub enum FormError {
    /// The allocator refused the memory.
    #[error("no memory")]
    Memory = 1,
    /// A form would pass a limit.
    #[error("a form would be too long")]
    TooLong = 2,
}

impl From<AllocError> for FormError {
    ghost from_gives = { λ _ e. e ≡ Memory };

    fn from(_error: AllocError) -> FormError {
        FormError::Memory
    }
}

impl<T: Drop> From<AllocFailed<T>> for FormError {
    ghost from_gives = { λ _ e. e ≡ Memory };

    fn from(_failed: AllocFailed<T>) -> FormError {
        FormError::Memory
    }
}

impl From<GapError> for FormError {
    ghost from_gives = { λ _ e. e ≡ Memory };

    fn from(error: GapError) -> FormError {
        match error {
            GapError::Memory => FormError::Memory,
        }
    }
}

impl From<FormError> for Refusal {
    ghost from_gives = { λ e refusal. refusal ≡ as_refusal e };

    fn from(error: FormError) -> Refusal {
        match error {
            FormError::Memory => Refusal::Memory,
            FormError::TooLong => Refusal::TooLong,
        }
    }
}
