//! Why a file is not good.

ghost use Rattle.std.specs.Prelude.{◌≡◌};
ghost use Rattle.rpki_show.specs.Grows.{Grows};
ghost use Rattle.rpki_validation.specs.Refusal.{ca_text, is_memory, is_memory_at_ca};
ghost use Rattle.rpki_validation.specs.Refusal.{is_memory_at_issuer, issuer_fault_text};
ghost use Rattle.rpki_validation.specs.Refusal.{refusal_text};

use rpki_certs::IssuerError;
use rpki_der::DecodeError;
use rpki_faults::ValidationError;
use rpki_signed::check::CheckError;
use std::alloc::AllocError;
use std::fmt::Write;

/// Why a certificate is none of a CA under an issuer.
#[derive(Debug, Drop)]
pub enum CaFault {
    /// It is not read, or not valid.
    Error(IssuerError),
    /// The list at this place revokes it.
    Revoked(usize),
}

/// Why certificates make no issuer.
#[derive(Debug, Drop)]
pub enum IssuerFault {
    /// That of the trust anchor is not read, or not valid.
    Anchor(IssuerError),
    /// It has another key than the locator.
    OtherKey,
    /// The one at this place of the chain is none of a CA under the one before.
    Chain(usize, CaFault),
}

/// Why there is no good object.
#[derive(Debug, Drop)]
pub enum Refusal {
    /// Memory ran out.
    Memory,
    /// What is to be the locator is none.
    NoLocator,
    /// What is to be the revocation list at this place is none.
    NoList(usize),
    /// The certificates make no issuer.
    Issuer(IssuerFault),
    /// The octets begin with no good object of the kind.
    Check(CheckError),
    /// They do, and the list at this place revokes a certificate of it.
    Revoked(usize),
}

impl CaFault {
    /// Whether it is want of memory.
    pub fn is_memory(&self) -> bool
        ensures { result ≡ is_memory_at_ca self.now }
    {
        match self {
            CaFault::Error(IssuerError::Decode(DecodeError::Memory)) => true,
            CaFault::Error(IssuerError::Decode(DecodeError::Malformed)) => false,
            CaFault::Error(IssuerError::Decode(DecodeError::Content(_))) => false,
            CaFault::Error(IssuerError::Validation(ValidationError::Memory)) => true,
            CaFault::Error(IssuerError::Validation(ValidationError::Inspection(_))) => false,
            CaFault::Error(IssuerError::Validation(ValidationError::Verification(_))) => false,
            CaFault::Revoked(_) => false,
        }
    }

    /// Appends its text.
    pub fn push(&self, text: &mut String) -> Result<(), AllocError>
        ensures { Grows result text.old text.new (ca_text self.now) }
    {
        match self {
            CaFault::Error(fault) => write!(text, "{fault}"),
            CaFault::Revoked(_) => text.push_str("revoked"),
        }
    }
}

impl IssuerFault {
    /// Whether it is want of memory.
    pub fn is_memory(&self) -> bool
        ensures { result ≡ is_memory_at_issuer self.now }
    {
        match self {
            IssuerFault::Anchor(IssuerError::Decode(DecodeError::Memory)) => true,
            IssuerFault::Anchor(IssuerError::Decode(DecodeError::Malformed)) => false,
            IssuerFault::Anchor(IssuerError::Decode(DecodeError::Content(_))) => false,
            IssuerFault::Anchor(IssuerError::Validation(ValidationError::Memory)) => true,
            IssuerFault::Anchor(IssuerError::Validation(ValidationError::Inspection(_))) => false,
            IssuerFault::Anchor(IssuerError::Validation(ValidationError::Verification(_))) => false,
            IssuerFault::OtherKey => false,
            IssuerFault::Chain(_, fault) => fault.is_memory(),
        }
    }

    /// Appends its text.
    pub fn push(&self, text: &mut String) -> Result<(), AllocError>
        ensures { Grows result text.old text.new (issuer_fault_text self.now) }
    {
        match self {
            IssuerFault::Anchor(fault) => write!(text, "{fault}"),
            IssuerFault::OtherKey => text.push_str("key is not that of the locator"),
            IssuerFault::Chain(_, fault) => fault.push(text),
        }
    }
}

impl Refusal {
    /// Whether it is want of memory.
    pub fn is_memory(&self) -> bool
        ensures { result ≡ is_memory self.now }
    {
        match self {
            Refusal::Memory => true,
            Refusal::NoLocator => false,
            Refusal::NoList(_) => false,
            Refusal::Issuer(fault) => fault.is_memory(),
            Refusal::Check(CheckError::Decode(DecodeError::Memory)) => true,
            Refusal::Check(CheckError::Decode(DecodeError::Malformed)) => false,
            Refusal::Check(CheckError::Decode(DecodeError::Content(_))) => false,
            Refusal::Check(CheckError::Validation(ValidationError::Memory)) => true,
            Refusal::Check(CheckError::Validation(ValidationError::Inspection(_))) => false,
            Refusal::Check(CheckError::Validation(ValidationError::Verification(_))) => false,
            Refusal::Revoked(_) => false,
        }
    }

    /// Appends its text.
    pub fn push(&self, text: &mut String) -> Result<(), AllocError>
        ensures { Grows result text.old text.new (refusal_text self.now) }
    {
        match self {
            Refusal::Memory => text.push_str("out of memory"),
            Refusal::NoLocator => text.push_str("no locator"),
            Refusal::NoList(_) => text.push_str("no revocation list"),
            Refusal::Issuer(fault) => fault.push(text),
            Refusal::Check(fault) => write!(text, "{fault}"),
            Refusal::Revoked(_) => text.push_str("revoked"),
        }
    }
}
