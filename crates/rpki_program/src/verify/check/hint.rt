//! What is said after a refusal, so that whoever reads it knows what to do.

use crate::verify::request::IssuerFiles;
use bytes::Bytes;
use rpki_certs::{Cert, IssuerError, ResourceCert};
use rpki_der::DecodeError;
use rpki_faults::{Family, ValidationError, VerificationError};
use rpki_resources::{Addr, AddressFamily, AsBlock, Block, Claim, IpBlock, IpResources, Number};
use rpki_rsa::Rsa;
use rpki_signed::check::CheckError;
use rpki_sigobj::SignedObject;
use rpki_validation::grounds::{Grounds, grounds_of};
use rpki_validation::question::{Manner, Question};
use rpki_validation::refusal::{CaFault, Refusal};
use std::alloc::{AllocError, Global};
use std::fmt::Write;

/// An issuer, and the file that its certificate is in.
#[derive(Drop)]
pub struct Issuer<'a> {
    pub cert: &'a ResourceCert,
    pub file: &'a str,
}

impl<'a> Issuer<'a> {
    /// That of grounds which certificates in these files make.
    pub fn on(grounds: &'a Grounds, files: &IssuerFiles<'a>) -> Issuer<'a> {
        Issuer {
            cert: &grounds.issuer,
            file: file_before(files, files.cas.len()),
        }
    }
}

/// The file of the certificate under which that at this place of a chain is.
fn file_before<'a>(files: &IssuerFiles<'a>, place: usize) -> &'a str {
    match place.checked_sub(1) {
        None => files.ta,
        Some(before) => match files.cas.get(before) {
            Some(file) => file,
            None => files.ta,
        },
    }
}

/// What is said of an object under an issuer after it is refused.
pub fn of_object(
    alloc: Global,
    issuer: &Issuer<'_>,
    manner: Manner,
    octets: &Bytes,
    refusal: &Refusal,
) -> Result<String, AllocError> {
    match refusal {
        Refusal::Check(CheckError::Validation(ValidationError::Verification(error))) => {
            match SignedObject::decode(alloc, octets.clone()?, manner.strict) {
                Ok(object) => {
                    let hint = of_signer(alloc, issuer, object.cert(), error);
                    drop(object);
                    hint
                }
                Err(error) => unread(alloc, error),
            }
        }
        _ => Ok(String::new(alloc)),
    }
}

/// The same of the certificate of a CA.
pub fn of_certificate(
    alloc: Global,
    issuer: &Issuer<'_>,
    octets: &Bytes,
    fault: &CaFault,
) -> Result<String, AllocError> {
    match fault {
        CaFault::Error(IssuerError::Validation(ValidationError::Verification(error))) => {
            match Cert::decode(alloc, octets.clone()?) {
                Ok(cert) => {
                    let hint = under(alloc, issuer, &cert, error);
                    drop(cert);
                    hint
                }
                Err(error) => unread(alloc, error),
            }
        }
        _ => Ok(String::new(alloc)),
    }
}

/// The same of that at this place of the chain of a question, whose files these are.
pub fn of_link(
    alloc: Global,
    question: &Question<'_>,
    files: &IssuerFiles<'_>,
    place: usize,
    fault: &CaFault,
) -> Result<String, AllocError> {
    if place >= question.chain.len() {
        return Ok(String::new(alloc));
    }
    let above = Question {
        anchor: question.anchor,
        locator: None,
        chain: &question.chain[..place],
        lists: &[],
        moment: question.moment,
        manner: question.manner,
    };
    match grounds_of(alloc, &above) {
        Ok(grounds) => {
            let issuer = Issuer {
                cert: &grounds.issuer,
                file: file_before(files, place),
            };
            let hint = of_certificate(alloc, &issuer, &question.chain[place], fault);
            drop(grounds);
            hint
        }
        Err(refusal) if refusal.is_memory() => Err(AllocError),
        Err(_) => Ok(String::new(alloc)),
    }
}

/// Nothing, where it is not memory that ran out.
fn unread(alloc: Global, error: DecodeError) -> Result<String, AllocError> {
    match error {
        DecodeError::Memory => Err(AllocError),
        DecodeError::Malformed | DecodeError::Content(_) => Ok(String::new(alloc)),
    }
}

/// What is said of an object that is not good under an issuer for this, of whose signer this is the
/// certificate.
fn of_signer(
    alloc: Global,
    issuer: &Issuer<'_>,
    cert: &Cert,
    error: &VerificationError,
) -> Result<String, AllocError> {
    match error {
        VerificationError::BadSignature => not_signed(alloc, issuer, cert),
        _ => under(alloc, issuer, cert, error),
    }
}

/// That it is the certificate that its issuer did not sign, if it did not.
fn not_signed(alloc: Global, issuer: &Issuer<'_>, cert: &Cert) -> Result<String, AllocError> {
    let file = issuer.file;
    match cert.verify_signature(issuer.cert.cert(), &Rsa) {
        Ok(()) => Ok(String::new(alloc)),
        Err(_) => format!(in alloc; ": the key in {file} did not sign its certificate"),
    }
}

/// What is said of a certificate that is not valid under an issuer for this.
fn under(
    alloc: Global,
    issuer: &Issuer<'_>,
    cert: &Cert,
    error: &VerificationError,
) -> Result<String, AllocError> {
    match error {
        VerificationError::IssuerClaim => of_another(alloc, issuer, cert),
        VerificationError::Overclaimed(family) => overclaimed(alloc, issuer, cert, *family),
        _ => Ok(String::new(alloc)),
    }
}

/// Whose certificate it is, of which the issuer is another one.
fn of_another(alloc: Global, issuer: &Issuer<'_>, cert: &Cert) -> Result<String, AllocError> {
    let mut text = String::new(alloc);
    if let Some(key) = cert.authority_key_identifier() {
        write!(text, ": its issuer has the key {key}")?;
        if let Some(uri) = cert.ca_issuer() {
            let uri = uri.as_str();
            write!(text, " ({uri})")?;
        }
        let (file, key) = (issuer.file, issuer.cert.cert().subject_key_identifier());
        write!(text, ", and {file} has {key}")?;
    }
    text.push_str(": give its CA before it, with --ca")?;
    Ok(text)
}

/// The first numbers of this family that a certificate claims and its issuer does not have.
fn overclaimed(
    alloc: Global,
    issuer: &Issuer<'_>,
    cert: &Cert,
    family: Family,
) -> Result<String, AllocError> {
    let file = issuer.file;
    let held = issuer.cert;
    let outside = match family {
        Family::As => as_outside(alloc, held, cert)?,
        Family::V4 => {
            let (held, claimed) = (held.v4_resources().as_slice(), cert.v4_resources());
            ip_outside(alloc, held, claimed, AddressFamily::Ipv4)?
        }
        Family::V6 => {
            let (held, claimed) = (held.v6_resources().as_slice(), cert.v6_resources());
            ip_outside(alloc, held, claimed, AddressFamily::Ipv6)?
        }
    };
    match outside {
        Some(numbers) => format!(in alloc; ": {numbers} is not in {file}"),
        None => Ok(String::new(alloc)),
    }
}

/// The first AS numbers that a certificate claims and its issuer does not have.
fn as_outside(
    alloc: Global,
    issuer: &ResourceCert,
    cert: &Cert,
) -> Result<Option<String>, AllocError> {
    let Claim::Explicit(claimed) = cert.as_resources().claim() else {
        return Ok(None);
    };
    match first_outside(issuer.as_resources().as_slice(), claimed.as_slice()) {
        None => Ok(None),
        Some(Block { min, max }) => {
            let block = if min == max {
                AsBlock::Id(min)
            } else {
                AsBlock::Range(min, max)
            };
            Ok(Some(block.to_string(alloc)?))
        }
    }
}

/// The first addresses of this family that are claimed and not held.
fn ip_outside(
    alloc: Global,
    held: &[Block<Addr>],
    claimed: &IpResources,
    family: AddressFamily,
) -> Result<Option<String>, AllocError> {
    let Claim::Explicit(claimed) = claimed.claim() else {
        return Ok(None);
    };
    match first_outside(held, claimed.as_slice()) {
        None => Ok(None),
        Some(Block { min, max }) => {
            let block = IpBlock::from_range(min, max).display(family);
            Ok(Some(block.to_string(alloc)?))
        }
    }
}

/// The first block of a set that is not whole in another set. Both are in ascending order.
fn first_outside<T: Number>(held: &[Block<T>], claimed: &[Block<T>]) -> Option<Block<T>> {
    let (mut held, mut claimed) = (held, claimed);
    while let Some((block, later)) = claimed.split_first() {
        let Some((a, others)) = held.split_first() else {
            return Some(*block);
        };
        if a.max.value() < block.min.value() {
            held = others;
        } else if a.min.value() <= block.min.value() && block.max.value() <= a.max.value() {
            claimed = later;
        } else {
            return Some(*block);
        }
    }
    None
}
