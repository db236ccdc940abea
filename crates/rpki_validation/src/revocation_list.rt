//! Revocation lists of an issuer: whether they are current, and which of those that are given count
//! for a CA.

ghost use Rattle.std.specs.Prelude.{◌≡◌, ◌↔◌, IfOk, IsTrue};
ghost use Rattle.rpki_faults.specs.Checks.{AnswersFirstFault};
ghost use Rattle.rpki_validation.specs.RevocationList.{CountsAmong, CountsUnder, IsListFound};
ghost use Rattle.rpki_validation.specs.RevocationList.{is_memory_of_list, list_checks};

use crate::grounds::{Grounds, list_in};
use crate::revoked::is_list_of;
use bytes::Bytes;
use rpki_basics::Time;
use rpki_certs::{ResourceCert, read_cert};
use rpki_crls::Crl;
use rpki_der::DecodeError;
use rpki_rsa::Rsa;
use std::alloc::Global;

/// Why a list is not the current one of an issuer.
#[derive(Clone, Copy, Debug, PartialEq, Eq)]
pub enum ListCheck {
    /// It states the identifier of another key.
    OtherKey,
    /// The issuer's key did not sign it.
    BadSignature,
    /// It was made after the moment, at this one.
    NotYet(Time),
    /// The next one was to be made before the moment, at this one.
    Stale(Time),
}

/// Why octets are not the current list of an issuer.
#[derive(Debug, Drop)]
pub enum ListFault {
    /// They begin with none, or memory ran out.
    Decode(DecodeError),
    /// They begin with one, and this is the first check that fails.
    Check(ListCheck),
}

impl ListFault {
    /// Whether it is want of memory.
    pub fn is_memory(&self) -> bool
        ensures { result ≡ is_memory_of_list self.now }
    {
        match self {
            ListFault::Decode(DecodeError::Memory) => true,
            ListFault::Decode(DecodeError::Malformed) => false,
            ListFault::Decode(DecodeError::Content(_)) => false,
            ListFault::Check(_) => false,
        }
    }
}

/// The revocation list at the front of octets, which is the current one of the issuer of these
/// grounds.
pub fn list_on(alloc: Global, octets: &Bytes, grounds: &Grounds) -> Result<Crl, ListFault>
    ensures { IsListFound grounds.now octets.now result }
{
    match list_in(alloc, octets) {
        Err(error) => Err(ListFault::Decode(error)),
        Ok(list) => match check_list(&list, &grounds.issuer, grounds.moment) {
            Ok(()) => Ok(list),
            Err(fault) => {
                drop(list);
                Err(ListFault::Check(fault))
            }
        },
    }
}

/// Whether a list is the current one of this issuer, by the first check that fails.
fn check_list(list: &Crl, issuer: &ResourceCert, now: Time) -> Result<(), ListCheck>
    ensures { AnswersFirstFault (list_checks issuer.now now list.now.list) result }
{
    if list.authority_key_identifier() != issuer.cert().subject_key_identifier() {
        return Err(ListCheck::OtherKey);
    }
    if list
        .verify_signature(issuer.cert().subject_public_key_info(), &Rsa)
        .is_err()
    {
        return Err(ListCheck::BadSignature);
    }
    if now < list.this_update() {
        return Err(ListCheck::NotYet(list.this_update()));
    }
    if list.next_update() < now {
        return Err(ListCheck::Stale(list.next_update()));
    }
    Ok(())
}

/// Whether a list counts for one of the CAs whose certificates the octets begin with. Refuses where
/// some begin with none, or memory runs out.
pub fn counts_among(alloc: Global, list: &Crl, chain: &[Bytes]) -> Result<bool, DecodeError>
    ensures { IfOk result (λ counts. IsTrue counts ↔ CountsAmong chain.now list.now.list) }
{
    for octets in chain {
        if counts_under(alloc, list, octets)? {
            return Ok(true);
        }
    }
    Ok(false)
}

/// Whether a list counts for the CA whose certificate the octets begin with. Refuses where they
/// begin with none, or memory runs out.
pub fn counts_under(alloc: Global, list: &Crl, octets: &Bytes) -> Result<bool, DecodeError>
    ensures { IfOk result (λ counts. IsTrue counts ↔ CountsUnder octets.now list.now.list) }
{
    let cert = read_cert(alloc, octets)?;
    let counts = is_list_of(list, &cert);
    drop(cert);
    Ok(counts)
}
