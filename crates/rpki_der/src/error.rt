//! Why octets can't be read.

ghost use Rattle.std.specs.Prelude.{◌≡◌, IfOk, OnErr, Some, codes};
ghost use Rattle.rpki_der.specs.Read.Reads.{HoldsAttributeType};
ghost use Rattle.rpki_der.specs.Text.Error.{fault_text, error_text};
ghost use Rattle.rpki_der.specs.declared.error.DecodeError.TheVariants.{Memory};

use crate::oid::Oid;
use crate::static_text::StaticText;
use std::alloc::{AllocError, AllocFailed, Global};
use std::error::Error;
use std::fmt;
use std::marker::Model;

/// Why octets could not be read.
#[derive(Debug, Drop)]
pub enum DecodeError {
    /// They are not of the form.
    Malformed,
    /// They break a rule of the format beyond its ASN.1. A rule is met before the rest is read, so
    /// the rest need not be ASN.1 of the form. Such octets are as little in the form as malformed
    /// ones; which of the two is answered is not promised.
    Content(ContentFault),
    /// No memory was to be had.
    Memory,
}

/// What is wrong with a content.
#[derive(Debug, Drop)]
pub enum ContentFault {
    /// A signed attribute of another type than content type, message digest and signing time
    /// (RFC 6488, section 2.1.6.4, as RFC 9589 updates it: a binary signing time, which that
    /// section names too, is no longer allowed).
    InvalidSignedAttr(InvalidSignedAttr),
    /// A rule of the format that is broken, in words. The crate of the format has a text for each.
    Text(StaticText),
}

/// The type of a signed attribute that is not allowed.
#[derive(Debug, Drop)]
pub struct InvalidSignedAttr {
    // (on the heap, so that an error is small: each answer that may be an error has room for one)
    oid: Box<Oid>,
}

impl Model for InvalidSignedAttr {
    ghost use Rattle.std.specs.Prelude.{ℕ, List};

    ghost Value = { List ℕ };

    ghost view = { λ attr. attr.oid.value };
}

impl InvalidSignedAttr {
    /// The fault of an attribute of this type, unless no memory for it is to be had.
    pub fn new(alloc: Global, oid: Oid) -> Result<InvalidSignedAttr, AllocError>
        ensures { IfOk result (λ attr. attr ≡ oid) }
    {
        let oid = Box::new(alloc, oid)?;
        Ok(InvalidSignedAttr { oid })
    }

    /// The attribute's type.
    pub fn oid(&self) -> &Oid
        ensures { result.now ≡ self.now }
    {
        self.oid.as_ref()
    }
}

impl DecodeError {
    /// The refusal of a content by a rule of its format that this text states.
    pub fn refusal(text: &'static str) -> DecodeError
        ensures { result ≡ DecodeError.Content (ContentFault.Text text.now) }
    {
        DecodeError::Content(ContentFault::Text(StaticText::of(text)))
    }

    /// A copy, unless no memory for it is to be had. Only that of a signed attribute's type takes
    /// memory.
    pub(crate) fn copy(&self) -> Result<DecodeError, AllocError>
        ensures same { IfOk result (λ copy. copy ≡ self.now) }
        ensures content { OnErr result (HoldsAttributeType self.now) }
    {
        match self {
            DecodeError::Malformed => Ok(DecodeError::Malformed),
            DecodeError::Content(fault) => Ok(DecodeError::Content(fault.copy()?)),
            DecodeError::Memory => Ok(DecodeError::Memory),
        }
    }
}

impl ContentFault {
    fn copy(&self) -> Result<ContentFault, AllocError>
        ensures same { IfOk result (λ copy. copy ≡ self.now) }
        ensures attr { OnErr result (HoldsAttributeType (DecodeError.Content self.now)) }
    {
        match self {
            ContentFault::InvalidSignedAttr(attr) => {
                let oid = attr.oid.clone()?;
                Ok(ContentFault::InvalidSignedAttr(InvalidSignedAttr { oid }))
            }
            ContentFault::Text(text) => Ok(ContentFault::Text(text.again())),
        }
    }
}

impl From<AllocError> for DecodeError {
    ghost from_gives = { λ _ e. e ≡ Memory };

    fn from(_e: AllocError) -> DecodeError {
        DecodeError::Memory
    }
}

impl<T: Drop> From<AllocFailed<T>> for DecodeError {
    ghost from_gives = { λ _ e. e ≡ Memory };

    fn from(_e: AllocFailed<T>) -> DecodeError {
        DecodeError::Memory
    }
}

impl fmt::Display for InvalidSignedAttr {
    ghost use Rattle.std.specs.Prelude.{◌++◌, Some, codes};
    ghost use Rattle.rpki_der.specs.Oid.{oid_text};

    ghost output = { λ attr. Some (codes "invalid extension " ++ oid_text attr) };

    fn fmt<W: fmt::Write>(&self, f: &mut fmt::Formatter<W>) -> fmt::Result {
        let oid = self.oid();
        write!(f, "invalid extension {oid}")
    }
}

impl fmt::Display for ContentFault {
    ghost output = { λ fault. Some (fault_text fault) };

    fn fmt<W: fmt::Write>(&self, f: &mut fmt::Formatter<W>) -> fmt::Result {
        match self {
            ContentFault::InvalidSignedAttr(attr) => attr.fmt(f),
            ContentFault::Text(text) => f.write_str(text.as_str()),
        }
    }
}

impl fmt::Display for DecodeError {
    ghost output = { λ error. Some (error_text error) };

    fn fmt<W: fmt::Write>(&self, f: &mut fmt::Formatter<W>) -> fmt::Result {
        match self {
            DecodeError::Malformed => f.write_str("malformed"),
            DecodeError::Content(fault) => fault.fmt(f),
            DecodeError::Memory => f.write_str("out of memory"),
        }
    }
}

impl Error for InvalidSignedAttr {}

impl Error for ContentFault {}

impl Error for DecodeError {}
