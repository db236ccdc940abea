//! Chains of certificates.

ghost use Rattle.std.specs.Prelude.{◌≡◌, Some, IfOk};
ghost use Rattle.rpki_der.specs.declared.mode.Mode.TheVariants.{Der};
ghost use Rattle.rpki_der.specs.Form.Decodes.{Decodes};
ghost use Rattle.rpki_certs.specs.Cert.{CertForm};
ghost use Rattle.rpki_certs.specs.Issuer.{IsAnchored, IsIssued, Follows};
ghost use Rattle.rpki_certs.specs.Issuer.{MakesIssuer, issuer_text};

use crate::cert::Cert;
use crate::validate::ResourceCert;
use bytes::Bytes;
use rpki_basics::{Crypto, Time};
use rpki_der::DecodeError;
use rpki_faults::ValidationError;
use std::alloc::Global;
use std::error::Error;
use std::fmt;

/// Why certificates make no issuer.
#[derive(Debug, Drop)]
pub enum IssuerError {
    /// The octets of one don't begin with a certificate.
    Decode(DecodeError),
    /// One is not valid.
    Validation(ValidationError),
}

impl fmt::Display for IssuerError {
    ghost output = { λ error. Some (issuer_text error) };

    fn fmt<W: fmt::Write>(&self, f: &mut fmt::Formatter<W>) -> fmt::Result {
        match self {
            IssuerError::Decode(error) => error.fmt(f),
            IssuerError::Validation(error) => error.fmt(f),
        }
    }
}

impl Error for IssuerError {}

/// The issuer that certificates make, at this moment: the first is that of a trust anchor, as
/// `Cert::validate_ta_at` validates it, and each of the chain is that of a CA under the one before,
/// as `Cert::validate_ca_at` does (RFC 6487, section 7.2). The last one is the issuer.
///
/// Each is read, in DER, and validated before the next one; octets after it are left. Refuses by
/// the fault of the first that is not read, by `Decode`, or not valid, by `Validation`. Memory may
/// run out at any of them.
pub fn issuer_at<C: Crypto>(
    alloc: Global,
    anchor: &Bytes,
    chain: &[Bytes],
    crypto: &C,
    now: Time,
) -> Result<ResourceCert, IssuerError>
    ensures { MakesIssuer (C.is_signed crypto.now) now anchor.now chain.now result }
{
    match anchor_at(alloc, anchor, crypto, now) {
        Err(error) => Err(error),
        Ok(first) => follow(alloc, first, chain, crypto, now),
    }
}

/// The last certificate of a chain under this one.
fn follow<C: Crypto>(
    alloc: Global,
    first: ResourceCert,
    chain: &[Bytes],
    crypto: &C,
    now: Time,
) -> Result<ResourceCert, IssuerError>
    ensures { Follows (C.is_signed crypto.now) now first chain.now result }
{
    let mut issuer = first;
    for octets in chain {
        match issued_at(alloc, octets, &issuer, crypto, now) {
            Err(error) => {
                drop(issuer);
                return Err(error);
            }
            Ok(next) => {
                drop(issuer);
                issuer = next;
            }
        }
    }
    Ok(issuer)
}

/// The certificate of a trust anchor at the front of the octets.
fn anchor_at<C: Crypto>(
    alloc: Global,
    octets: &Bytes,
    crypto: &C,
    now: Time,
) -> Result<ResourceCert, IssuerError>
    ensures { IsAnchored (C.is_signed crypto.now) now octets.now result }
{
    match read_cert(alloc, octets) {
        Err(error) => Err(IssuerError::Decode(error)),
        Ok(cert) => match cert.validate_ta_at(alloc, true, crypto, now) {
            Err(error) => Err(IssuerError::Validation(error)),
            Ok(valid) => Ok(valid),
        },
    }
}

/// The certificate of a CA under this issuer at the front of the octets, in DER, read and validated
/// (RFC 6487, section 7.2). Octets after it are ignored. Refuses by `Decode` where there is none, and
/// by `Validation` for the first check that fails.
pub fn issued_at<C: Crypto>(
    alloc: Global,
    octets: &Bytes,
    issuer: &ResourceCert,
    crypto: &C,
    now: Time,
) -> Result<ResourceCert, IssuerError>
    ensures { IsIssued (C.is_signed crypto.now) now issuer.now octets.now result }
{
    match read_cert(alloc, octets) {
        Err(error) => Err(IssuerError::Decode(error)),
        Ok(cert) => match cert.validate_ca_at(alloc, issuer, true, crypto, now) {
            Err(error) => Err(IssuerError::Validation(error)),
            Ok(valid) => Ok(valid),
        },
    }
}

/// The certificate at the front of the octets, in DER. Octets after it are ignored. Refuses by
/// `Malformed` or `Content` where there is none, or by `Memory`.
pub fn read_cert(alloc: Global, octets: &Bytes) -> Result<Cert, DecodeError>
    ensures decodes { Decodes (CertForm Der) (λ c. c.certificate) octets.now result }
    ensures mode { IfOk result (λ c. c.mode ≡ Der) }
{
    match octets.clone() {
        Err(_) => Err(DecodeError::Memory),
        Ok(source) => Cert::decode(alloc, source),
    }
}
