//! Why a test ends early.

ghost use Rattle.std.specs.Prelude.{◌≡◌, ◌↔◌};
ghost use Rattle.rpki_testing.specs.declared.fail.Fail.{Fail};
ghost use Rattle.rpki_der.specs.declared.error.DecodeError.{DecodeError};
ghost use Rattle.rpki_faults.specs.declared.validation.ValidationError.{ValidationError};

use rpki_der::DecodeError;
use rpki_faults::ValidationError;
use std::alloc::{AllocError, AllocFailed};

/// Why a test ends early: only want of memory is none of its answers.
#[derive(Clone, Copy, Debug, PartialEq, Eq)]
pub enum Fail {
    Memory,
    Refused,
}

impl From<AllocError> for Fail {
    ghost from_gives = { λ _ why. why ≡ Fail.Memory };

    fn from(_error: AllocError) -> Fail {
        Fail::Memory
    }
}

impl<T: Drop> From<AllocFailed<T>> for Fail {
    ghost from_gives = { λ _ why. why ≡ Fail.Memory };

    fn from(_error: AllocFailed<T>) -> Fail {
        Fail::Memory
    }
}

impl From<DecodeError> for Fail {
    ghost from_gives = { λ error why. (why ≡ Fail.Memory) ↔ (error ≡ DecodeError.Memory) };

    fn from(error: DecodeError) -> Fail {
        match error {
            DecodeError::Memory => Fail::Memory,
            DecodeError::Malformed => Fail::Refused,
            DecodeError::Content(_) => Fail::Refused,
        }
    }
}

impl From<ValidationError> for Fail {
    ghost from_gives = { λ error why. (why ≡ Fail.Memory) ↔ (error ≡ ValidationError.Memory) };

    fn from(error: ValidationError) -> Fail {
        match error {
            ValidationError::Memory => Fail::Memory,
            ValidationError::Inspection(_) => Fail::Refused,
            ValidationError::Verification(_) => Fail::Refused,
        }
    }
}
