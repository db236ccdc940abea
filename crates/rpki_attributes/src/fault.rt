//! Why signed attributes are not made.

ghost use Rattle.std.specs.Prelude.{◌≡◌, Some};
ghost use Rattle.rpki_attributes.specs.Signing.{attrs_error};
ghost use Rattle.rpki_attributes.specs.Text.{fault_text};
ghost use Rattle.rpki_attributes.specs.declared.fault.AttrsFault.TheVariants.{Memory};

use rpki_basics::SigningError;
use std::alloc::{AllocError, AllocFailed};
use std::error::Error;
use std::fmt;

/// Why signed attributes are not made.
#[derive(Clone, Copy, Debug)]
pub enum AttrsFault {
    /// They would have more than 65535 octets.
    AttrsTooLong,
    /// No memory was to be had.
    Memory,
}

impl AttrsFault {
    /// The same as an error of what is signed.
    pub fn signing_error<E>(self) -> SigningError<E>
        ensures { result ≡ attrs_error self }
    {
        match self {
            AttrsFault::AttrsTooLong => SigningError::AttrsTooLong,
            AttrsFault::Memory => SigningError::Memory,
        }
    }
}

impl From<AllocError> for AttrsFault {
    ghost from_gives = { λ _ e. e ≡ Memory };

    fn from(_e: AllocError) -> AttrsFault {
        AttrsFault::Memory
    }
}

impl<T: Drop> From<AllocFailed<T>> for AttrsFault {
    ghost from_gives = { λ _ e. e ≡ Memory };

    fn from(_e: AllocFailed<T>) -> AttrsFault {
        AttrsFault::Memory
    }
}

impl fmt::Display for AttrsFault {
    ghost output = { λ fault. Some (fault_text fault) };

    fn fmt<W: fmt::Write>(&self, f: &mut fmt::Formatter<W>) -> fmt::Result {
        f.write_str(match self {
            AttrsFault::AttrsTooLong => "signed attributes too long",
            AttrsFault::Memory => "out of memory",
        })
    }
}

impl Error for AttrsFault {}
