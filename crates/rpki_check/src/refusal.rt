//! Why there is no good object.

ghost use Rattle.std.specs.Prelude.{◌≡◌, Some};
ghost use Rattle.rpki_check.specs.Numbers.{check_number, issuer_number, refusal_number, status_of};
ghost use Rattle.rpki_check.specs.Refusal.{IsToldAs, IsUnlocated};
ghost use Rattle.rpki_check.specs.Report.{refusal_text};
ghost use Rattle.rpki_show.specs.Grows.{Grows};

use crate::numbers::{
    GOOD, MALFORMED, NO_LIST, NO_MEMORY, NO_MOMENT, OF_ISSUER, inspection_number,
    verification_number,
};
use rpki_certs::IssuerError;
use rpki_der::DecodeError;
use rpki_faults::{ValidationError, VerificationError};
use rpki_signed::check::CheckError;
use rpki_validation::refusal::{CaFault, IssuerFault, Refusal as Cause};
use std::alloc::AllocError;
use std::fmt::Write;

/// Why there is no good object.
#[derive(Debug, Drop)]
pub enum Refusal {
    /// Memory ran out.
    Memory,
    /// There is no such moment.
    NoMoment,
    /// One of the revocation lists is none.
    NoList,
    /// The certificates make no issuer.
    Issuer(IssuerError),
    /// The octets begin with no good object of the kind.
    Check(CheckError),
}

impl Refusal {
    /// Its number.
    pub fn number(&self) -> u32
        ensures { result ≡ refusal_number self.now }
    {
        match self {
            Refusal::Memory => NO_MEMORY,
            Refusal::NoMoment => NO_MOMENT,
            Refusal::NoList => NO_LIST,
            Refusal::Issuer(fault) => issuer_number(fault),
            Refusal::Check(fault) => check_number(fault),
        }
    }

    /// Appends its text.
    pub fn push(&self, text: &mut String) -> Result<(), AllocError>
        ensures { Grows result text.old text.new (refusal_text self.now) }
    {
        match self {
            Refusal::Memory => text.push_str("out of memory"),
            Refusal::NoMoment => text.push_str("no such moment"),
            Refusal::NoList => text.push_str("no revocation list"),
            Refusal::Issuer(fault) => write!(text, "{fault}"),
            Refusal::Check(fault) => write!(text, "{fault}"),
        }
    }
}

/// What C is told where no locator is named.
pub fn told_as(cause: Cause) -> Refusal
    requires { IsUnlocated cause }
    ensures { IsToldAs cause result }
{
    match cause {
        Cause::Memory => Refusal::Memory,
        Cause::NoLocator => unreachable!(),
        Cause::NoList(_) => Refusal::NoList,
        Cause::Issuer(IssuerFault::Anchor(fault)) => Refusal::Issuer(fault),
        Cause::Issuer(IssuerFault::OtherKey) => unreachable!(),
        Cause::Issuer(IssuerFault::Chain(_, CaFault::Error(fault))) => Refusal::Issuer(fault),
        Cause::Issuer(IssuerFault::Chain(_, CaFault::Revoked(_))) => Refusal::Issuer(
            IssuerError::Validation(ValidationError::Verification(VerificationError::Revoked)),
        ),
        Cause::Check(fault) => Refusal::Check(fault),
        Cause::Revoked(_) => Refusal::Check(CheckError::Validation(ValidationError::Verification(
            VerificationError::Caller,
        ))),
    }
}

/// The number of why an object is not good.
fn check_number(fault: &CheckError) -> u32
    ensures { result ≡ check_number fault.now }
{
    match fault {
        CheckError::Decode(DecodeError::Memory) => NO_MEMORY,
        CheckError::Decode(DecodeError::Malformed) => MALFORMED,
        CheckError::Decode(DecodeError::Content(_)) => MALFORMED,
        CheckError::Validation(ValidationError::Memory) => NO_MEMORY,
        CheckError::Validation(ValidationError::Inspection(fault)) => inspection_number(*fault),
        CheckError::Validation(ValidationError::Verification(fault)) => verification_number(*fault),
    }
}

/// The number of why certificates make no issuer.
fn issuer_number(fault: &IssuerError) -> u32
    ensures { result ≡ issuer_number fault.now }
{
    match fault {
        IssuerError::Decode(DecodeError::Memory) => NO_MEMORY,
        IssuerError::Decode(DecodeError::Malformed) => OF_ISSUER + MALFORMED,
        IssuerError::Decode(DecodeError::Content(_)) => OF_ISSUER + MALFORMED,
        IssuerError::Validation(ValidationError::Memory) => NO_MEMORY,
        IssuerError::Validation(ValidationError::Inspection(fault)) => {
            OF_ISSUER + inspection_number(*fault)
        }
        IssuerError::Validation(ValidationError::Verification(fault)) => {
            OF_ISSUER + verification_number(*fault)
        }
    }
}

/// The status of what is found.
pub fn status_of<X>(found: &Result<X, Refusal>) -> u32
    ensures { result ≡ status_of found.now }
{
    match found {
        Ok(_) => GOOD,
        Err(refusal) => refusal.number(),
    }
}
