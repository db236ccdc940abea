//! Why a certificate or an object is not valid.

ghost use Rattle.std.specs.Prelude.{◌≡◌, Some};
ghost use Rattle.rpki_faults.specs.Text.Fault.{text_of};
ghost use Rattle.rpki_faults.specs.Text.Validation.{validation_text};
ghost use Rattle.rpki_faults.specs.declared.validation.ValidationError.TheVariants.{Inspection};
ghost use Rattle.rpki_faults.specs.declared.validation.ValidationError.TheVariants.{Verification};
ghost use Rattle.rpki_faults.specs.declared.validation.ValidationError.TheVariants.{Memory};

use crate::inspection::InspectionError;
use crate::text::FaultText;
use crate::verification::VerificationError;
use std::alloc::{AllocError, AllocFailed};
use std::error::Error;
use std::fmt;

/// Why a certificate or an object is not valid.
#[derive(Clone, Copy, Debug, PartialEq, Eq)]
pub enum ValidationError {
    /// It does not fit the profile.
    Inspection(InspectionError),
    /// It fits the profile, and is not good under its issuer at the moment.
    Verification(VerificationError),
    /// No memory was to be had.
    Memory,
}

impl ValidationError {
    /// Why it is not valid, in words: those of the fault in it.
    pub fn text(&self) -> FaultText
        ensures { text_of result ≡ validation_text self.now }
    {
        match self {
            ValidationError::Inspection(error) => FaultText::Fixed(error.text()),
            ValidationError::Verification(error) => error.text(),
            ValidationError::Memory => FaultText::Fixed("out of memory"),
        }
    }
}

impl fmt::Display for ValidationError {
    ghost output = { λ error. Some (validation_text error) };

    fn fmt<W: fmt::Write>(&self, f: &mut fmt::Formatter<W>) -> fmt::Result {
        self.text().fmt(f)
    }
}

impl Error for ValidationError {}

impl From<InspectionError> for ValidationError {
    ghost from_gives = { λ error shown. shown ≡ Inspection error };

    fn from(error: InspectionError) -> ValidationError {
        ValidationError::Inspection(error)
    }
}

impl From<VerificationError> for ValidationError {
    ghost from_gives = { λ error shown. shown ≡ Verification error };

    fn from(error: VerificationError) -> ValidationError {
        ValidationError::Verification(error)
    }
}

impl From<AllocError> for ValidationError {
    ghost from_gives = { λ _ shown. shown ≡ Memory };

    fn from(_error: AllocError) -> ValidationError {
        ValidationError::Memory
    }
}

impl<T: Drop> From<AllocFailed<T>> for ValidationError {
    ghost from_gives = { λ _ shown. shown ≡ Memory };

    fn from(_error: AllocFailed<T>) -> ValidationError {
        ValidationError::Memory
    }
}
