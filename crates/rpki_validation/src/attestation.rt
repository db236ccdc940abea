//! Multi-signed attestations, where the locator of a question, if there is one, and the issuer that
//! its certificates make are what is supplied.

ghost use Rattle.std.specs.Prelude.{◌↔◌, IsTrue, MatchOption, map};
ghost use Rattle.rpki_rta.specs.Refused.{supply_in};
ghost use Rattle.rpki_validation.specs.Attestation.{AreUnrevokedOf, IsAttested, IsGrantedOn};
ghost use Rattle.rpki_validation.specs.Attestation.{IsOfIssuer, IsOneRevoked, IsUnrevokedOf};
ghost use Rattle.rpki_validation.specs.Attestation.{supplies_on};
ghost use Rattle.rpki_validation.specs.Revoked.{IsRevokedAt};

use crate::grounds::Grounds;
use crate::refusal::Refusal;
use crate::revoked::revoking;
use bytes::Bytes;
use rpki_basics::Time;
use rpki_certs::Cert;
use rpki_crls::Crl;
use rpki_multi::Rta;
use rpki_paths::Supplied;
use rpki_rsa::Rsa;
use rpki_rta::Supply;
use rpki_signed::check;
use rpki_signed::check::CheckError;
use std::alloc::Global;

/// Whether a certificate states the identifier of this issuer's key as that of its authority.
fn is_of_issuer(issuer: &Cert, cert: &Cert) -> bool
    ensures { IsTrue result ↔ IsOfIssuer issuer.now.certificate cert.now.certificate }
{
    match cert.authority_key_identifier() {
        None => false,
        Some(authority) => authority == issuer.subject_key_identifier(),
    }
}

/// The place of the first of the lists that revokes a certificate, if it is of this issuer and one
/// does.
fn revoking_of(lists: &[Crl], issuer: &Cert, cert: &Cert) -> Option<usize>
    ensures { MatchOption result
        (IsUnrevokedOf lists.now issuer.now.certificate cert.now.certificate)
        (λ place. IsOfIssuer issuer.now.certificate cert.now.certificate
        × IsRevokedAt lists.now issuer.now.certificate cert.now.certificate place) }
{
    if is_of_issuer(issuer, cert) {
        revoking(lists, issuer, cert)
    } else {
        None
    }
}

/// The place of the first of the lists that revokes the first of these certificates that is of this
/// issuer and that one revokes.
fn revoking_one(lists: &[Crl], issuer: &Cert, certs: &[Cert]) -> Option<usize>
    ensures { MatchOption result (AreUnrevokedOf lists.now issuer.now.certificate certs.now)
        (λ place. IsOneRevoked lists.now issuer.now.certificate certs.now place) }
{
    for cert in certs {
        match revoking_of(lists, issuer, cert) {
            None => {}
            Some(place) => return Some(place),
        }
    }
    None
}

/// The same of the certificates that an attestation carries, on these grounds.
fn revoking_any(grounds: &Grounds, rta: &Rta) -> Option<usize>
    ensures { MatchOption result
        (AreUnrevokedOf grounds.now.lists.items grounds.now.issuer.cert.certificate
        rta.now.signed.certs)
        (λ place. IsOneRevoked grounds.now.lists.items grounds.now.issuer.cert.certificate
        rta.now.signed.certs place) }
{
    revoking_one(
        &grounds.lists,
        grounds.issuer.cert(),
        rta.signed().certificates(),
    )
}

/// Whether octets begin with an attestation that is granted at this moment under these supplies.
pub fn check_supplied(
    alloc: Global,
    octets: Bytes,
    supplies: &[Supply<'_>],
    now: Time,
) -> Result<Rta, CheckError>
    ensures { IsAttested now (map supply_in supplies.now) octets result }
{
    check::rta(alloc, octets, true, &Rsa, now, supplies)
}

/// Whether octets begin with an attestation that is granted on these grounds.
fn check_granted(alloc: Global, octets: Bytes, grounds: &Grounds) -> Result<Rta, CheckError>
    ensures { IsAttested grounds.now.moment (supplies_on grounds.now) octets result }
{
    match &grounds.locator {
        None => {
            let supplies = [Supplied::Ca(&grounds.issuer)];
            check_supplied(alloc, octets, &supplies, grounds.moment)
        }
        Some(locator) => {
            let both = [Supplied::Tal(locator), Supplied::Ca(&grounds.issuer)];
            check_supplied(alloc, octets, &both, grounds.moment)
        }
    }
}

/// What is found of octets on these grounds.
pub fn granted_on(alloc: Global, octets: &Bytes, grounds: &Grounds) -> Result<Rta, Refusal>
    ensures { IsGrantedOn grounds.now octets.now result }
{
    let Ok(source) = octets.clone() else {
        return Err(Refusal::Memory);
    };
    match check_granted(alloc, source, grounds) {
        Err(fault) => Err(Refusal::Check(fault)),
        Ok(rta) => match revoking_any(grounds, &rta) {
            None => Ok(rta),
            Some(place) => {
                drop(rta);
                Err(Refusal::Revoked(place))
            }
        },
    }
}
