//! Why something in a copy is refused.

ghost use Rattle.std.specs.Prelude.{◌≡◌, Some};
ghost use Rattle.rpki_faults.specs.Text.Fault.{text_of};
ghost use Rattle.rpki_relying_party.specs.Texts.{name_of, file_fault_text, object_fault_text};
ghost use Rattle.rpki_relying_party.specs.Texts.{validity_text, word_of};
ghost use Rattle.rpki_relying_party.specs.Texts.{certificate_fault_text, manifest_fault_text};
ghost use Rattle.rpki_relying_party.specs.Texts.{list_fault_text, cause_text};

use crate::copy::NoFile;
use rpki_basics::{Rsync, Time};
use rpki_certs::IssuerError;
use rpki_faults::{FaultText, ValidationError, VerificationError};
use rpki_signed::check::CheckError;
use std::alloc::{AllocError, AllocFailed};
use std::error::Error;
use std::fmt;

/// Why a CA has no manifest that is good and current.
#[derive(Debug, Drop)]
pub enum ManifestFault {
    NoFile(NoFile),
    Refused(CheckError),
    NotYet(Time),
    Stale(Time),
    /// It lists the file with this URI twice (RFC 9286, section 4.2.1).
    Twice(Rsync),
}

/// Why a publication point has no revocation list that is good and current.
#[derive(Debug, Drop)]
pub enum ListFault {
    /// The certificate of the manifest names none, or one that is not listed.
    Unlisted,
    Malformed,
    OtherKey,
    BadSignature,
    NotYet(Time),
    Stale(Time),
    /// It revokes the certificate of the manifest.
    RevokesManifest,
}

/// Why a file that a manifest lists is not there as it is listed.
#[derive(Clone, Copy, Debug, PartialEq, Eq)]
pub enum FileFault {
    NoFile(NoFile),
    OtherHash,
}

/// Why something is refused.
#[derive(Debug, Drop)]
pub enum Cause {
    Manifest(ManifestFault),
    List(ListFault),
    /// This listed file is not there as it is listed, so the whole point is refused.
    File(Rsync, FileFault),
    /// A ROA or an ASPA.
    Object(CheckError),
    /// The certificate of a ROA names AS numbers, or inherits (RFC 9582, section 5).
    RoaCertificate,
    /// A file that should hold the certificate of a CA.
    Certificate(IssuerError),
    /// So many CAs below it were not read, because the limit was reached.
    Limit(u64),
    /// So many CAs below it were not read, because memory ran out.
    Memory(u64),
}

impl fmt::Display for ManifestFault {
    ghost output = { λ fault. Some (manifest_fault_text fault) };

    fn fmt<W: fmt::Write>(&self, f: &mut fmt::Formatter<W>) -> fmt::Result {
        match self {
            ManifestFault::NoFile(why) => write!(f, "manifest {why}"),
            ManifestFault::Refused(error) => {
                let text = object_fault(error);
                write!(f, "manifest: {text}")
            }
            ManifestFault::NotYet(time) => {
                write!(f, "manifest is not yet current: thisUpdate {time}")
            }
            ManifestFault::Stale(time) => write!(f, "manifest is stale: nextUpdate {time}"),
            ManifestFault::Twice(uri) => {
                let name = name_of(uri.as_str());
                write!(f, "{name} is listed twice")
            }
        }
    }
}

impl Error for ManifestFault {}

impl fmt::Display for ListFault {
    ghost output = { λ fault. Some (list_fault_text fault) };

    fn fmt<W: fmt::Write>(&self, f: &mut fmt::Formatter<W>) -> fmt::Result {
        match self {
            ListFault::Unlisted => f.write_str("revocation list is not listed"),
            ListFault::Malformed => f.write_str("revocation list: malformed"),
            ListFault::OtherKey => f.write_str("revocation list: names another key"),
            ListFault::BadSignature => f.write_str("revocation list: signature is not valid"),
            ListFault::NotYet(time) => {
                write!(f, "revocation list is not yet current: thisUpdate {time}")
            }
            ListFault::Stale(time) => write!(f, "revocation list is stale: nextUpdate {time}"),
            ListFault::RevokesManifest => f.write_str("manifest: certificate has been revoked"),
        }
    }
}

impl Error for ListFault {}

impl fmt::Display for FileFault {
    ghost output = { λ fault. Some (file_fault_text fault) };

    fn fmt<W: fmt::Write>(&self, f: &mut fmt::Formatter<W>) -> fmt::Result {
        match self {
            FileFault::NoFile(why) => why.fmt(f),
            FileFault::OtherHash => f.write_str("has another hash"),
        }
    }
}

impl Error for FileFault {}

impl fmt::Display for Cause {
    ghost output = { λ cause. Some (cause_text cause) };

    fn fmt<W: fmt::Write>(&self, f: &mut fmt::Formatter<W>) -> fmt::Result {
        match self {
            Cause::Manifest(fault) => fault.fmt(f),
            Cause::List(fault) => fault.fmt(f),
            Cause::File(uri, fault) => {
                let name = name_of(uri.as_str());
                write!(f, "{name} {fault}")
            }
            Cause::Object(error) => object_fault(error).fmt(f),
            Cause::RoaCertificate => {
                f.write_str("certificate of a ROA names AS numbers or inherits")
            }
            Cause::Certificate(error) => certificate_fault(error).fmt(f),
            Cause::Limit(count) => {
                let word = word_of(*count);
                write!(f, "not read: {count} {word}, limit reached")
            }
            Cause::Memory(count) => {
                let word = word_of(*count);
                write!(f, "not read: {count} {word}, out of memory")
            }
        }
    }
}

impl Error for Cause {}

// The name of a file: what stands after the last slash of its URI.
fn name_of(uri: &str) -> &str
    ensures { result.now ≡ name_of uri.now }
{
    match uri.as_bytes().iter().rposition(|octet| *octet == b'/') {
        Some(at) => &uri[at + 1..],
        None => uri,
    }
}

// The word after a number of CAs.
fn word_of(count: u64) -> &'static str
    ensures { result.now ≡ word_of count }
{
    if count == 1 { "CA" } else { "CAs" }
}

// Why a certificate is not valid: where the caller refuses it, a list revokes it.
fn validity(fault: &ValidationError) -> FaultText
    ensures { text_of result ≡ validity_text fault.now }
{
    if let ValidationError::Verification(VerificationError::Caller) = fault {
        return FaultText::Fixed("certificate has been revoked");
    }
    fault.text()
}

// Why an object is refused; which fault a decoder meets first is left open.
fn object_fault(error: &CheckError) -> FaultText
    ensures { text_of result ≡ object_fault_text error.now }
{
    match error {
        CheckError::Decode(_) => FaultText::Fixed("malformed"),
        CheckError::Validation(fault) => validity(fault),
    }
}

// Why a certificate is refused.
fn certificate_fault(error: &IssuerError) -> FaultText
    ensures { text_of result ≡ certificate_fault_text error.now }
{
    match error {
        IssuerError::Decode(_) => FaultText::Fixed("malformed"),
        IssuerError::Validation(fault) => validity(fault),
    }
}

/// Why the reading of a publication point ends.
#[derive(Debug, Drop)]
pub(crate) enum Stop {
    /// There is no room for more.
    Room,
    /// No memory was to be had.
    Memory,
    /// The point is refused.
    Refused(Cause),
}

impl<T: Drop> From<AllocFailed<T>> for Stop {
    ghost use Rattle.rpki_relying_party.specs.declared.cause.Stop.TheVariants.{Memory};

    ghost from_gives = { λ _ stop. stop ≡ Memory };

    fn from(error: AllocFailed<T>) -> Stop {
        drop(error);
        Stop::Memory
    }
}

impl From<AllocError> for Stop {
    ghost use Rattle.rpki_relying_party.specs.declared.cause.Stop.TheVariants.{Memory};

    ghost from_gives = { λ _ stop. stop ≡ Memory };

    fn from(_error: AllocError) -> Stop {
        Stop::Memory
    }
}
