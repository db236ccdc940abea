//! Why something is not built and signed.

ghost use Rattle.std.specs.Prelude.{◌≡◌};
ghost use Rattle.rpki_basics.specs.Signing.{signing_error};
ghost use Rattle.rpki_basics.specs.declared.signing.SigningError.TheVariants.{Memory};

use crate::build::BuildFault;
use crate::signer::SignerFault;
use std::alloc::{AllocError, AllocFailed};
use std::error::Error;
use std::fmt;

/// What a call that builds and signs answers. The first three are faults of the signer, and the
/// others are not, but that `Memory` may be the signer's too; which of them come of a call, its
/// contract says.
#[derive(Debug, Drop)]
pub enum SigningError<E> {
    /// The signer has no such key.
    KeyNotFound,
    /// The key is not one for this algorithm.
    IncompatibleKey,
    /// A fault of the signer's own.
    Signer(E),
    /// The signed attributes have more than 65535 octets.
    AttrsTooLong,
    /// Some contents has 2^32 octets or more.
    TooLong,
    /// The content breaks a rule of its kind.
    Content(BuildFault),
    /// A part was read in BER.
    NotDer,
    /// No memory was to be had.
    Memory,
}

impl<E: fmt::Display> fmt::Display for SigningError<E> {
    ghost use Rattle.rpki_basics.specs.Signing.{signing_text};

    ghost output = { λ error. signing_text E.Display.output error };

    fn fmt<W: fmt::Write>(&self, f: &mut fmt::Formatter<W>) -> fmt::Result {
        match self {
            SigningError::KeyNotFound => f.write_str("key not found"),
            SigningError::IncompatibleKey => f.write_str("incompatible key"),
            SigningError::Signer(e) => e.fmt(f),
            SigningError::AttrsTooLong => f.write_str("signed attributes too long"),
            SigningError::TooLong => f.write_str("too long"),
            SigningError::Content(fault) => fault.fmt(f),
            SigningError::NotDer => f.write_str("not DER"),
            SigningError::Memory => f.write_str("out of memory"),
        }
    }
}

impl<E: Error> Error for SigningError<E> {}

impl<E> From<SignerFault<E>> for SigningError<E> {
    ghost use Rattle.rpki_basics.specs.Signing.{signing_error};

    ghost from_gives = { λ fault e. e ≡ signing_error fault };

    fn from(fault: SignerFault<E>) -> SigningError<E> {
        match fault {
            SignerFault::KeyNotFound => SigningError::KeyNotFound,
            SignerFault::IncompatibleKey => SigningError::IncompatibleKey,
            SignerFault::Signer(e) => SigningError::Signer(e),
            SignerFault::Memory => SigningError::Memory,
        }
    }
}

impl<E> From<AllocError> for SigningError<E> {
    ghost from_gives = { λ _ e. e ≡ Memory };

    fn from(_e: AllocError) -> SigningError<E> {
        SigningError::Memory
    }
}

impl<T: Drop, E> From<AllocFailed<T>> for SigningError<E> {
    ghost from_gives = { λ _ e. e ≡ Memory };

    fn from(_e: AllocFailed<T>) -> SigningError<E> {
        SigningError::Memory
    }
}
