//! The issuer that certificates make, none of which a list revokes.

ghost use Rattle.std.specs.Prelude.{◌↔◌, IsTrue};
ghost use Rattle.rpki_validation.specs.Issuer.{IsAnchorMade, IsIssuerOf, IsKeyed, IsNextCa, Leads};

use crate::locator::has_key;
use crate::refusal::{CaFault, IssuerFault};
use crate::revoked::revoking_under;
use bytes::Bytes;
use rpki_basics::Time;
use rpki_certs::{ResourceCert, issued_at, issuer_at};
use rpki_crls::Crl;
use rpki_rsa::Rsa;
use rpki_tal::Tal;
use std::alloc::Global;

/// The issuer that the certificate of a trust anchor, which has the key of the locator, if there is
/// one, and those of CAs make, each under the one before, none of which a list revokes.
pub fn issuer_of(
    alloc: Global,
    anchor: &Bytes,
    locator: &Option<Tal>,
    chain: &[Bytes],
    lists: &[Crl],
    now: Time,
) -> Result<ResourceCert, IssuerFault>
    ensures { IsIssuerOf lists.now now anchor.now locator.now chain.now result }
{
    match anchor_of(alloc, anchor, locator, now) {
        Err(fault) => Err(fault),
        Ok(first) => follow(alloc, first, chain, lists, now),
    }
}

/// The certificate of a trust anchor.
fn anchor_of(
    alloc: Global,
    octets: &Bytes,
    locator: &Option<Tal>,
    now: Time,
) -> Result<ResourceCert, IssuerFault>
    ensures { IsAnchorMade now locator.now octets.now result }
{
    match issuer_at(alloc, octets, &[], &Rsa, now) {
        Err(fault) => Err(IssuerFault::Anchor(fault)),
        Ok(anchor) => {
            if is_keyed(&anchor, locator) {
                Ok(anchor)
            } else {
                drop(anchor);
                Err(IssuerFault::OtherKey)
            }
        }
    }
}

/// Whether a certificate has the key of the locator, if there is one.
fn is_keyed(anchor: &ResourceCert, locator: &Option<Tal>) -> bool
    ensures { IsTrue result ↔ IsKeyed anchor.now.cert.certificate locator.now }
{
    match locator {
        None => true,
        Some(locator) => has_key(anchor.cert(), locator),
    }
}

/// The last certificate of a chain under this one.
fn follow(
    alloc: Global,
    first: ResourceCert,
    chain: &[Bytes],
    lists: &[Crl],
    now: Time,
) -> Result<ResourceCert, IssuerFault>
    ensures { Leads lists.now now 0 first chain.now result }
{
    let mut issuer = first;
    for i in 0..chain.len() {
        match next_under(alloc, &issuer, &chain[i], lists, now) {
            Err(fault) => {
                drop(issuer);
                return Err(IssuerFault::Chain(i, fault));
            }
            Ok(next) => {
                drop(issuer);
                issuer = next;
            }
        }
    }
    Ok(issuer)
}

/// The certificate of a CA under this issuer, which no list revokes.
pub fn next_under(
    alloc: Global,
    issuer: &ResourceCert,
    octets: &Bytes,
    lists: &[Crl],
    now: Time,
) -> Result<ResourceCert, CaFault>
    ensures { IsNextCa lists.now now issuer.now octets.now result }
{
    match issued_at(alloc, octets, issuer, &Rsa, now) {
        Err(fault) => Err(CaFault::Error(fault)),
        Ok(next) => {
            next.is_resource_cert();
            match revoking_under(lists, issuer, &next) {
                None => Ok(next),
                Some(place) => {
                    drop(next);
                    Err(CaFault::Revoked(place))
                }
            }
        }
    }
}
