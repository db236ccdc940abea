//! How often verdicts are asked on an attestation whose path has 1,000 CAs. All of them trim, and
//! inherit from the CA above the path, which has AS1 to AS9.

ghost use Rattle.rpki_basics.specs.StandIn.{is_stand_in_signature};
ghost use Rattle.sha2.specs.Sha256.{sha256};

use super::given::{ca_of, now};
use super::long::{ALONE, CA, ENTITY, Form, LIST, TOP};
use bytes::Bytes;
use rpki_basics::standin::{StandIn, StandInSigner};
use rpki_basics::{Crypto, Digest, KeyIdentifier, PublicKey, RpkiSignature};
use rpki_certs::Cert;
use rpki_crls::Crl;
use rpki_issued::signing::sign_and_join;
use rpki_multi::{Rta, RtaBuilder};
use rpki_rta::{Supply, Validation, run};
use rpki_testing::{Fail, copied, joined, ok};
use std::alloc::Global;
use std::cell::Cell;

/// The stand-in, which counts the verdicts that it is asked for.
#[derive(Drop)]
struct Counting {
    asked: Cell<u32>,
}

impl Crypto for Counting {
    ghost digest_of = { λ _ octets. sha256 octets };

    ghost is_signed = { λ _ key message signature. is_stand_in_signature key message signature };

    fn digest(&self, octets: &[u8]) -> Digest {
        StandIn.digest(octets)
    }

    fn verify(&self, key: &PublicKey, message: &[u8], signature: &RpkiSignature) -> bool {
        self.asked.set(self.asked.get().saturating_add(1));
        StandIn.verify(key, message, signature)
    }
}

/// How many CAs stand on the path. Their keys are numbered from 2 on, and each is issued by the
/// next; the last one by the CA that is supplied.
const LENGTH: u64 = 1_000;

/// The key of the end entity.
const SIGNER: u64 = 5_000;

fn id_of(key: u64) -> [u8; 20] {
    KeyIdentifier::of(&key.to_be_bytes()).octets()
}

/// What is signed by a key, with its signature.
fn signed(
    alloc: Global,
    signer: &mut StandInSigner,
    parts: &[&[u8]],
    key: u64,
) -> Result<Bytes, Fail> {
    let octets = joined(alloc, parts)?;
    Ok(Bytes::from_vec(ok(alloc, sign_and_join(alloc, &octets, signer, &key))?)?)
}

/// Adds the certificate of a key that another issued.
fn push_cert(
    alloc: Global,
    signer: &mut StandInSigner,
    builder: &mut RtaBuilder,
    form: &Form,
    key: u64,
    issuer: u64,
) -> Result<(), Fail> {
    let (bits, subject, authority) = (key.to_be_bytes(), id_of(key), id_of(issuer));
    let parts: [&[u8]; 7] = [
        form.before_key,
        &bits,
        form.before_subject,
        &subject,
        form.before_authority,
        &authority,
        form.after,
    ];
    let cert = signed(alloc, signer, &parts, issuer)?;
    builder.push_cert(Cert::decode(alloc, cert)?)?;
    Ok(())
}

/// Adds the revocation list of a key.
fn push_list(
    alloc: Global,
    signer: &mut StandInSigner,
    builder: &mut RtaBuilder,
    key: u64,
) -> Result<(), Fail> {
    let (before, after) = LIST;
    let list = signed(alloc, signer, &[before, &id_of(key), after], key)?;
    builder.push_crl(Crl::decode(alloc, list)?)?;
    Ok(())
}

/// Adds the path and its signer.
fn add_path(alloc: Global, builder: &mut RtaBuilder) -> Result<(), Fail> {
    let mut signer = StandInSigner::new(alloc);
    push_cert(alloc, &mut signer, builder, &ENTITY, SIGNER, 2)?;
    for key in 2..LENGTH + 2 {
        push_cert(alloc, &mut signer, builder, &CA, key, key + 1)?;
        push_list(alloc, &mut signer, builder, key)?;
    }
    ok(alloc, builder.sign(alloc, &mut signer, &SIGNER, now()?))
}

/// The attestation.
fn attestation(alloc: Global) -> Result<Rta, Fail> {
    let mut builder = RtaBuilder::from_rta(Rta::decode(alloc, Bytes::from_static(ALONE))?);
    match add_path(alloc, &mut builder) {
        Ok(()) => ok(alloc, builder.finalize()),
        Err(fail) => {
            drop(builder);
            Err(fail)
        }
    }
}

/// Begins the validation.
fn begin(alloc: Global, rta: &Rta, crypto: &Counting) -> Result<(), Fail> {
    let begun = Validation::new_at(alloc, rta, true, crypto, now()?)?;
    drop(begun);
    Ok(())
}

/// Has the attestation granted in one call, under a copy of a supply.
fn asked_in_all(alloc: Global, rta: &Rta, crypto: &Counting) -> Result<(), Fail> {
    let now = now()?;
    let top = ca_of(alloc, TOP)?;
    let supply = copied(Supply::Ca(&top))?;
    run(alloc, rta, true, crypto, now, &[supply])?;
    drop(top);
    Ok(())
}

/// How many verdicts are asked at first, and in all.
fn asked(alloc: Global) -> Result<(u32, u32), Fail> {
    let rta = attestation(alloc)?;
    let crypto = Counting {
        asked: Cell::new(0),
    };
    let begun = begin(alloc, &rta, &crypto);
    let first = crypto.asked.get();
    crypto.asked.set(0);
    let granted = asked_in_all(alloc, &rta, &crypto);
    drop(rta);
    begun?;
    granted?;
    Ok((first, crypto.asked.get()))
}

/// One verdict for the signer, one for each revocation list, and one for each certificate that a
/// carried CA issued; and one more for the CA that is supplied.
#[test]
fn verdicts_are_counted(rt: HostRuntime) -> Result<(), Fail> {
    assert!(rt; asked(rt.alloc())? == (2_001, 2_002));
    Ok(())
}
