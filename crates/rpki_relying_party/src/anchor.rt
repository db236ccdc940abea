//! Trust anchors.

ghost use Rattle.std.specs.Prelude.{◌≡◌, ◌↔◌, ◌∷◌, [], IfOk, IsTrue, MatchResult, Ok, Some};
ghost use Rattle.rpki_certs.specs.Issuer.{BeginsWithCert, IsAnchored};
ghost use Rattle.rpki_relying_party.specs.Anchors.{IsAnchorOf, FindsFor, WhyNoAnchor, HasKey};
ghost use Rattle.rpki_relying_party.specs.Anchors.{IsJudged, IsTried, IsRefusalOf, first_fault};
ghost use Rattle.rpki_relying_party.specs.Anchors.{candidates, candidates_at, kept_text};
ghost use Rattle.rpki_relying_party.specs.Anchors.{anchor_fault_text};
ghost use Rattle.rpki_relying_party.specs.Passes.{setting};
ghost use Rattle.rpki_tal.specs.Uri.{https_first, uri_text};

use crate::copy::{Fetched, NoFile, Repository};
use crate::memory::is_issuer_memory;
use crate::pass::Pass;
use bytes::Bytes;
use rpki_basics::{Crypto, Time};
use rpki_certs::{Cert, IssuerError, ResourceCert};
use rpki_der::DecodeError;
use rpki_tal::{Tal, TalUri};
use std::alloc::{AllocError, Global};
use std::error::Error;
use std::fmt;

// A locator has at most so many URIs.
const MOST_URIS: usize = 64;

/// Why a locator has no trust anchor in a copy.
#[derive(Debug, Drop)]
pub enum AnchorFault {
    /// The locator has more than 64 URIs.
    TooManyUris,
    /// The copy gives no file for any of its URIs, for this reason.
    NoFile(NoFile),
    /// The copy has files for its URIs, but no certificate with its key.
    OtherKey,
    /// No certificate with its key is a good one of a trust anchor; this is why the first is not.
    Refused(IssuerError),
    /// No memory was to be had.
    Memory,
}

impl fmt::Display for AnchorFault {
    ghost output = { λ fault. Some (anchor_fault_text fault) };

    fn fmt<W: fmt::Write>(&self, f: &mut fmt::Formatter<W>) -> fmt::Result {
        match self {
            AnchorFault::TooManyUris => f.write_str("more than 64 URIs"),
            AnchorFault::NoFile(why) => write!(f, "its certificate {why}"),
            AnchorFault::OtherKey => f.write_str("no certificate with its key"),
            AnchorFault::Refused(IssuerError::Decode(_)) => {
                f.write_str("its certificate is refused: malformed")
            }
            AnchorFault::Refused(IssuerError::Validation(fault)) => {
                write!(f, "its certificate is refused: {fault}")
            }
            AnchorFault::Memory => f.write_str("out of memory"),
        }
    }
}

impl Error for AnchorFault {}

// The octets that the copy has for a text, or why there is no file.
fn read_text<R: Repository>(
    alloc: Global,
    copy: &R,
    text: &[u8],
) -> Result<Result<Bytes, NoFile>, AllocError>
    ensures { IfOk result (FindsFor (R.finds copy.now) text.now) }
{
    Ok(match copy.read(alloc, text, u64::MAX)? {
        Fetched::File(octets) => Ok(octets),
        Fetched::NoFile(why) => Err(why),
        Fetched::Larger => Err(NoFile::TooLarge),
    })
}

// Whether a certificate has the key of a locator.
fn has_key(cert: &Cert, tal: &Tal) -> bool
    ensures { IsTrue result ↔ (cert.now.certificate.tbs.key ≡ tal.now.key) }
{
    cert.subject_public_key_info().bits() == tal.key_info().bits()
}

// Whether octets begin with a certificate, in DER, that has the key of a locator.
fn begins_with_key(alloc: Global, octets: &Bytes, tal: &Tal) -> Result<bool, AllocError>
    ensures { IfOk result (λ is. IsTrue is
        ↔ BeginsWithCert octets.now (HasKey tal.now.key)) }
{
    match Cert::decode(alloc, octets.clone()?) {
        Err(DecodeError::Memory) => Err(AllocError),
        Err(DecodeError::Malformed) => Ok(false),
        Err(DecodeError::Content(fault)) => {
            drop(fault);
            Ok(false)
        }
        Ok(cert) => {
            let has_key = has_key(&cert, tal);
            drop(cert);
            Ok(has_key)
        }
    }
}

// Of two faults the first, unless the other says more: that there is a file says more than that
// there is none, and that there is a certificate with the key says most.
fn first_fault(before: AnchorFault, here: AnchorFault) -> AnchorFault
    ensures { result ≡ first_fault before here }
{
    match before {
        AnchorFault::NoFile(NoFile::Missing) => here,
        AnchorFault::NoFile(why) => match here {
            AnchorFault::NoFile(_) => AnchorFault::NoFile(why),
            other => other,
        },
        AnchorFault::OtherKey => match here {
            AnchorFault::NoFile(_) => AnchorFault::OtherKey,
            other => other,
        },
        AnchorFault::Refused(error) => {
            drop(here);
            AnchorFault::Refused(error)
        }
        AnchorFault::TooManyUris | AnchorFault::Memory => here,
    }
}

// The certificate of a trust anchor at the front of octets in DER, with the numbers that it claims,
// where it is valid.
fn anchor_in<C: Crypto>(
    alloc: Global,
    octets: Bytes,
    crypto: &C,
    now: Time,
) -> Result<ResourceCert, IssuerError>
    ensures { IsAnchored (C.is_signed crypto.now) now octets result }
{
    match Cert::decode(alloc, octets) {
        Err(error) => Err(IssuerError::Decode(error)),
        Ok(cert) => match cert.validate_ta_at(alloc, true, crypto, now) {
            Err(error) => Err(IssuerError::Validation(error)),
            Ok(valid) => Ok(valid),
        },
    }
}

// Why a certificate is that of no trust anchor, unless memory ran out.
fn refused(error: IssuerError) -> Result<AnchorFault, AllocError>
    ensures { IfOk result (IsRefusalOf error) }
{
    if is_issuer_memory(&error) {
        drop(error);
        return Err(AllocError);
    }
    Ok(AnchorFault::Refused(error))
}

// The trust anchor of a locator, or why there is none.
type Anchor = Result<ResourceCert, AnchorFault>;

// The trust anchor of a locator, where it is a good certificate at the front of these octets.
fn judge<R: Repository, C: Crypto>(
    alloc: Global,
    pass: &Pass<'_, R, C>,
    tal: &Tal,
    octets: Bytes,
) -> Result<Anchor, AllocError>
    ensures { IfOk result (IsJudged
        (setting R.finds C.digest_of C.is_signed pass.now) tal.now.key octets) }
{
    if !begins_with_key(alloc, &octets, tal)? {
        drop(octets);
        return Ok(Err(AnchorFault::OtherKey));
    }
    match anchor_in(alloc, octets, pass.crypto, pass.moment) {
        Err(error) => Ok(Err(refused(error)?)),
        Ok(anchor) => Ok(Ok(anchor)),
    }
}

// The same, where it is what the copy has for this text.
fn try_text<R: Repository, C: Crypto>(
    alloc: Global,
    pass: &Pass<'_, R, C>,
    tal: &Tal,
    text: &[u8],
) -> Result<Anchor, AllocError>
    ensures { IfOk result (IsTried
        (setting R.finds C.digest_of C.is_signed pass.now) tal.now.key (text.now ∷ [])) }
{
    match read_text(alloc, pass.copy, text)? {
        Err(why) => Ok(Err(AnchorFault::NoFile(why))),
        Ok(octets) => judge(alloc, pass, tal, octets),
    }
}

// What a copy is asked for where it keeps the certificate of a trust anchor.
fn kept_text(alloc: Global, uri: &TalUri) -> Result<Vec<u8>, AllocError>
    ensures { IfOk result (λ text. text.items ≡ kept_text (uri_text uri.now)) }
{
    let mut text = Vec::from_slice(alloc, b"ta:")?;
    text.extend_from_slice(uri.as_str().as_bytes())?;
    Ok(text)
}

// The same of the candidates of this URI.
fn try_uri<R: Repository, C: Crypto>(
    alloc: Global,
    pass: &Pass<'_, R, C>,
    tal: &Tal,
    uri: &TalUri,
) -> Result<Anchor, AllocError>
    ensures { IfOk result (IsTried
        (setting R.finds C.digest_of C.is_signed pass.now) tal.now.key (candidates_at uri.now)) }
{
    let kept = kept_text(alloc, uri)?;
    match try_text(alloc, pass, tal, uri.as_str().as_bytes())? {
        Ok(anchor) => Ok(Ok(anchor)),
        Err(fault) => match try_text(alloc, pass, tal, &kept)? {
            Ok(anchor) => Ok(Ok(anchor)),
            Err(here) => Ok(Err(first_fault(fault, here))),
        },
    }
}

// The same of those of all URIs of the locator, as they stand.
fn try_in_order<R: Repository, C: Crypto>(
    alloc: Global,
    pass: &Pass<'_, R, C>,
    tal: &Tal,
) -> Result<Anchor, AllocError>
    ensures { IfOk result (IsTried (setting R.finds C.digest_of C.is_signed pass.now) tal.now.key
        (candidates tal.now.uris)) }
{
    let mut fault = AnchorFault::NoFile(NoFile::Missing);
    for uri in tal.uris() {
        match try_uri(alloc, pass, tal, uri)? {
            Ok(anchor) => return Ok(Ok(anchor)),
            Err(here) => fault = first_fault(fault, here),
        }
    }
    Ok(Err(fault))
}

// The same in the order in which the URIs are tried, HTTPS first.
fn try_all<R: Repository, C: Crypto>(
    alloc: Global,
    pass: &Pass<'_, R, C>,
    tal: &Tal,
) -> Result<Anchor, AllocError>
    ensures { IfOk result (IsTried (setting R.finds C.digest_of C.is_signed pass.now) tal.now.key
        (candidates (https_first tal.now.uris))) }
{
    let mut ordered = tal.clone()?;
    ordered.prefer_https()?;
    try_in_order(alloc, pass, &ordered)
}

/// The trust anchor of a locator: the first good certificate among the candidates of its URIs,
/// HTTPS first. For each URI these are the file of the URI itself, and the one that the copy keeps
/// as that of the trust anchor. A certificate is good if it has the locator's key and is valid as
/// that of a trust anchor, which it signed itself (RFC 8630, section 3). So nobody but the holder
/// of the key makes one that counts, whoever else has a file at its URI. Each candidate is read
/// once at most. A locator with more than 64 URIs is refused.
pub fn anchor_of<R: Repository, C: Crypto>(
    alloc: Global,
    pass: &Pass<'_, R, C>,
    tal: &Tal,
) -> Result<ResourceCert, AnchorFault>
    ensures { MatchResult result
        (IsAnchorOf (setting R.finds C.digest_of C.is_signed pass.now) tal.now)
        (WhyNoAnchor (setting R.finds C.digest_of C.is_signed pass.now) tal.now) }
{
    if tal.uris().len() > MOST_URIS {
        return Err(AnchorFault::TooManyUris);
    }
    match try_all(alloc, pass, tal) {
        Err(_) => Err(AnchorFault::Memory),
        Ok(anchor) => anchor,
    }
}
