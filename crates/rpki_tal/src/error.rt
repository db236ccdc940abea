//! Why no locator was read.

ghost use Rattle.std.specs.Prelude.{◌≡◌};
ghost use Rattle.rpki_tal.specs.Faults.{uri_fault, key_fault};

use rpki_basics::uri;
use rpki_der::DecodeError;
use std::alloc::{AllocError, AllocFailed};

/// Why no trust anchor locator was read.
#[derive(Debug, Drop, thiserror::Error)]
pub enum ReadError {
    /// A call of the source has failed.
    #[error("read failed")]
    Io,
    /// A line feed that a comment, a URI or the empty line needs is not there (RFC 8630, section
    /// 2.2).
    #[error("unexpected end of file")]
    UnexpectedEof,
    /// A line of the list is no URI of a trust anchor (RFC 8630, section 2.2). It is never
    /// `uri::Error::Memory`.
    #[error("bad trust anchor URI: {0}")]
    BadUri(uri::Error),
    /// What follows the list is not base64 (RFC 4648, section 4), or has other bits than zeros
    /// where no octet needs them, which section 3.5 leaves open.
    #[error("bad key info: bad base64")]
    BadKeyInfoEncoding,
    /// What is encoded does not begin with a key (RFC 7935, section 3). It is never
    /// `DecodeError::Memory`.
    #[error("bad key info: {0}")]
    BadKeyInfo(DecodeError),
    /// No memory was to be had.
    #[error("out of memory")]
    Memory,
}

impl From<uri::Error> for ReadError {
    ghost from_gives = { λ e read. read ≡ uri_fault e };

    fn from(e: uri::Error) -> ReadError {
        match e {
            uri::Error::Memory => ReadError::Memory,
            uri::Error::InvalidCharacters => ReadError::BadUri(uri::Error::InvalidCharacters),
            uri::Error::BadScheme => ReadError::BadUri(uri::Error::BadScheme),
            uri::Error::BadUri => ReadError::BadUri(uri::Error::BadUri),
        }
    }
}

impl From<DecodeError> for ReadError {
    ghost from_gives = { λ e read. read ≡ key_fault e };

    fn from(e: DecodeError) -> ReadError {
        match e {
            DecodeError::Memory => ReadError::Memory,
            DecodeError::Malformed => ReadError::BadKeyInfo(DecodeError::Malformed),
            DecodeError::Content(fault) => ReadError::BadKeyInfo(DecodeError::Content(fault)),
        }
    }
}

impl From<AllocError> for ReadError {
    ghost use Rattle.rpki_tal.specs.declared.error.ReadError.TheVariants.{Memory};

    ghost from_gives = { λ _ read. read ≡ Memory };

    fn from(_e: AllocError) -> ReadError {
        ReadError::Memory
    }
}

impl<T: Drop> From<AllocFailed<T>> for ReadError {
    ghost use Rattle.rpki_tal.specs.declared.error.ReadError.TheVariants.{Memory};

    ghost from_gives = { λ _ read. read ≡ Memory };

    fn from(_e: AllocFailed<T>) -> ReadError {
        ReadError::Memory
    }
}
