//! What an attestation carries, all of it as handles, and its paths.

ghost use Rattle.std.specs.Prelude.{◌≡◌, ◌≤◌, ◌+◌, All, map, IfOk, IfErr, OnOk};
ghost use Rattle.rpki_multi.specs.Attestation.{whole_of};
ghost use Rattle.rpki_paths.specs.Accepting.{AreAccepted, most_verdicts};
ghost use Rattle.rpki_rta.specs.Begun.{HaveHandles, cert_of};
ghost use Rattle.rpki_rta.specs.Carried.{IsValid, seen_crl, seen_signer};
ghost use Rattle.rpki_rta.specs.Granted.{IsDistinct, carried_by};
ghost use Rattle.rpki_rta.specs.Handles.{unchecked_view, crl_of, signer_of};
ghost use Rattle.rpki_rta.specs.Refused.{WhyRefused};

use crate::carried::{Carried, CarriedCrl};
use crate::faults::of_acceptance;
use crate::signers::Signer;
use crate::unchecked::UncheckedCert;
use rpki_basics::{Crypto, Digest, KeyIdentifier, Time};
use rpki_certs::Cert;
use rpki_crls::Crl;
use rpki_faults::ValidationError;
use rpki_multi::{Rta, SignerInfo};
use rpki_paths::{Attestation, Attested, KeyId, Path, VerdictCount, accept};
use rpki_tagged::ResourceTaggedAttestation;
use std::alloc::{AllocError, Global};
use std::sync::ledger::Ledger;

// The carried certificates, before they are known to be good.
fn unchecked_certs<'a, 'n, C>(
    alloc: Global,
    certs: &'a [Cert],
    crypto: &'a C,
    now: &'n Time,
) -> Result<Vec<UncheckedCert<'a, 'n, C>>, AllocError>
    ensures { IfOk result (λ unchecked. map unchecked_view unchecked.items
        ≡ map (λ c. (c.certificate, (crypto.now, now.now))) certs.now) }
{
    let mut unchecked = Vec::new(alloc);
    for i in 0..certs.len() {
        unchecked.push(UncheckedCert::new(&certs[i], crypto, now))?;
    }
    Ok(unchecked)
}

// The carried revocation lists.
fn lists_of<'a, C: Crypto>(
    alloc: Global,
    crls: &'a [Crl],
    crypto: &'a C,
) -> Result<Vec<CarriedCrl<'a, C>>, AllocError>
    ensures { IfOk result (λ lists. map (crl_of C.is_signed) lists.items
        ≡ map (λ l. seen_crl (C.is_signed crypto.now) l.list) crls.now) }
{
    let mut lists = Vec::new(alloc);
    for i in 0..crls.len() {
        lists.push(CarriedCrl::new(&crls[i], crypto))?;
    }
    Ok(lists)
}

// The octets of the subject keys.
fn keys_of(alloc: Global, ids: &[KeyIdentifier]) -> Result<Vec<KeyId>, AllocError>
    ensures { IfOk result (λ keys. keys.items ≡ ids.now) }
{
    let mut keys = Vec::new(alloc);
    for i in 0..ids.len() {
        keys.push(ids[i].octets())?;
    }
    Ok(keys)
}

// The signers, of a content with this digest.
fn signers_of<'a, C: Crypto>(
    alloc: Global,
    infos: &'a [SignerInfo],
    digest: Digest,
    crypto: &'a C,
) -> Result<Vec<Signer<'a, C>>, AllocError>
    ensures { IfOk result (λ signers. map (signer_of C.is_signed) signers.items
        ≡ map (λ s. seen_signer (C.is_signed crypto.now) digest s.signer) infos.now) }
{
    let mut signers = Vec::new(alloc);
    for i in 0..infos.len() {
        signers.push(Signer::new(alloc, &infos[i], digest, crypto)?)?;
    }
    Ok(signers)
}

/// The sets that a content attests.
pub fn attested_in(content: &ResourceTaggedAttestation) -> Attested<'_>
    ensures asn { result.asn.now ≡ content.now.as_resources }
    ensures v4 { result.v4.now ≡ content.now.v4_resources }
    ensures v6 { result.v6.now ≡ content.now.v6_resources }
{
    Attested {
        asn: content.as_resources(),
        v4: content.v4_resources(),
        v6: content.v6_resources(),
    }
}

/// What an attestation carries, as handles, each list in carried order.
#[derive(Drop)]
struct Handles<'a, 'n, C> {
    unchecked: Vec<UncheckedCert<'a, 'n, C>>,
    lists: Vec<CarriedCrl<'a, C>>,
    keys: Vec<KeyId>,
    signers: Vec<Signer<'a, C>>,
}

// What an attestation carries.
fn handles_of<'a, 'n, C: Crypto>(
    alloc: Global,
    rta: &'a Rta,
    crypto: &'a C,
    now: &'n Time,
) -> Result<Handles<'a, 'n, C>, AllocError>
    ensures unchecked { IfOk result (λ h. map unchecked_view h.unchecked.items
        ≡ map (λ c. (c.certificate, (crypto.now, now.now))) rta.now.signed.certs) }
    ensures lists { IfOk result (λ h. map (crl_of C.is_signed) h.lists.items
        ≡ map (λ l. seen_crl (C.is_signed crypto.now) l.list) rta.now.signed.crls) }
    ensures keys { IfOk result (λ h. h.keys.items ≡ rta.now.content.subject_keys) }
    ensures signers { IfOk result (λ h. map (signer_of C.is_signed) h.signers.items
        ≡ map (λ s. seen_signer (C.is_signed crypto.now)
        (C.digest_of crypto.now rta.now.signed.content) s.signer) rta.now.signed.signers) }
{
    let signed = rta.signed();
    let digest = crypto.digest(signed.content().as_slice());
    let unchecked = unchecked_certs(alloc, signed.certificates(), crypto, now)?;
    let lists = lists_of(alloc, signed.crls(), crypto)?;
    let keys = keys_of(alloc, rta.content().subject_keys())?;
    let signers = signers_of(alloc, signed.signer_infos(), digest, crypto)?;
    Ok(Handles {
        unchecked,
        lists,
        keys,
        signers,
    })
}

/// Accepts what an attestation carries, at a moment, in carried order. The paths wait for what
/// anchors them.
pub fn accepted<'a, C: Crypto, L: Ledger>(
    alloc: Global,
    rta: &'a Rta,
    crypto: &'a C,
    now: Time,
    asked: &mut VerdictCount<L>,
) -> Result<Vec<Path<Carried<'a, C>>>, ValidationError>
    ensures good { OnOk result (All (λ c. IsValid c.tbs now) (whole_of rta.now).signed.certs) }
    ensures accepted { IfOk result (λ paths. AreAccepted (cert_of C.is_signed)
        (carried_by (C.digest_of crypto.now) (C.is_signed crypto.now) (whole_of rta.now))
        paths.items) }
    ensures heads { IfOk result (λ paths. HaveHandles crypto.now now (whole_of rta.now)
        paths.items) }
    ensures why { IfErr result (WhyRefused (C.digest_of crypto.now) (C.is_signed crypto.now) now
        (whole_of rta.now)) }
    ensures cost { OnOk result (IsDistinct (C.digest_of crypto.now) (C.is_signed crypto.now)
        (whole_of rta.now) → asked.new ≤ asked.old + most_verdicts
        (carried_by (C.digest_of crypto.now) (C.is_signed crypto.now) (whole_of rta.now))) }
{
    let handles = handles_of(alloc, rta, crypto, &now)?;
    let attestation = Attestation {
        subject_keys: handles.keys.as_slice(),
        signers: handles.signers.as_slice(),
        certs: handles.unchecked.as_slice(),
        crls: handles.lists.as_slice(),
        sets: attested_in(rta.content()),
    };
    match accept(alloc, &attestation, asked) {
        Ok(paths) => Ok(paths),
        Err(fault) => Err(of_acceptance(fault)),
    }
}
