//! Chains of certificates, as those who check what was issued under them use them.

ghost use Rattle.std.specs.Prelude.{◌≡◌, Ok, Err, Some, MatchResult};
ghost use Rattle.rpki_der.specs.declared.mode.Mode.TheVariants.{Der};
ghost use Rattle.rpki_certs.specs.Validate.{Validated};
ghost use Rattle.rpki_certs.specs.Issuer.{MakesIssuer};
ghost use Rattle.rpki_routes.specs.Roa.Form.{RoaForm};
ghost use Rattle.rpki_routes.specs.Roa.Checks.{roa_kind};
ghost use Rattle.rpki_signed.specs.Exact.{IsExact};
ghost use Rattle.rpki_examples.specs.Issuers.{chain_text, UnderIssuer};
ghost use Rattle.rpki_examples.specs.Received.{SaysOf};

use crate::received::roa_under;
use bytes::Bytes;
use rpki::cert::{IssuerError, ResourceCert, issuer_at};
use rpki::check::CheckError;
use rpki::crl::Crl;
use rpki::crypto::{Crypto, KeyIdentifier};
use rpki::roa::RouteOriginAttestation;
use rpki::x509::Time;
use std::alloc::Global;
use std::error::Error;
use std::fmt;

/// Why octets are no good object under a chain of certificates.
#[derive(Debug, Drop)]
pub enum ChainError {
    /// The certificates make no issuer.
    Issuer(IssuerError),
    /// The octets are no good object under the issuer that they make.
    Object(CheckError),
}

impl fmt::Display for ChainError {
    ghost output = { λ error. Some (chain_text error) };

    fn fmt<W: fmt::Write>(&self, f: &mut fmt::Formatter<W>) -> fmt::Result {
        match self {
            ChainError::Issuer(error) => error.fmt(f),
            ChainError::Object(error) => error.fmt(f),
        }
    }
}

impl Error for ChainError {}

/// The identifier of the key of the issuer that a chain makes, as its certificate states it.
pub fn key_of_issuer<C: Crypto>(
    alloc: Global,
    anchor: &Bytes,
    chain: &[Bytes],
    crypto: &C,
    now: Time,
) -> Result<KeyIdentifier, IssuerError>
    ensures { MatchResult result
        (λ identifier. (issuer : Validated)
        × MakesIssuer (C.is_signed crypto.now) now anchor.now chain.now (Ok issuer)
        × (identifier ≡ issuer.cert.certificate.tbs.extensions.key.subject_key))
        (λ error.
        MakesIssuer (C.is_signed crypto.now) now anchor.now chain.now (Err error)) }
{
    let issuer = issuer_at(alloc, anchor, chain, crypto, now)?;
    let identifier = issuer.cert().subject_key_identifier();
    drop(issuer);
    Ok(identifier)
}

/// What the ROA at the front of octets in DER says, and its certificate with its numbers, where it
/// is good under the issuer that a chain makes, and the list does not revoke it.
pub fn roa_under_chain<C: Crypto>(
    alloc: Global,
    octets: Bytes,
    anchor: &Bytes,
    chain: &[Bytes],
    list: &Crl,
    crypto: &C,
    now: Time,
) -> Result<(ResourceCert, RouteOriginAttestation), ChainError>
    ensures { UnderIssuer
        (MakesIssuer (C.is_signed crypto.now) now anchor.now chain.now)
        (λ issuer answer. IsExact roa_kind RoaForm Der (C.digest_of crypto.now)
        (C.is_signed crypto.now) issuer now (SaysOf list.now.list) octets answer) result }
{
    match issuer_at(alloc, anchor, chain, crypto, now) {
        Err(error) => {
            drop(octets);
            Err(ChainError::Issuer(error))
        }
        Ok(issuer) => {
            let answer = roa_under(alloc, octets, &issuer, list, crypto, now);
            drop(issuer);
            match answer {
                Err(error) => Err(ChainError::Object(error)),
                Ok(answer) => Ok(answer),
            }
        }
    }
}
