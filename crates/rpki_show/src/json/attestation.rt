//! The members of an attestation.

use crate::dated_rta::DatedRta;
use crate::json::blocks::{put_as_blocks, put_ip_blocks};
use crate::json::certificate::put_certificate;
use crate::json::crl::put_crl;
use crate::json::unshown::{Unshown, refusal, shown};
use crate::json::values::{Members, put_objects, put_shown, put_texts};
use bytes::Bytes;
use rpki_der::LowerHex;
use rpki_multi::MultiSignedObject;
use rpki_resources::AddressFamily;
use rpki_tagged::ResourceTaggedAttestation;
use serde_json::{Map, Value, put};
use std::alloc::{AllocError, Global};

/// The members of the attestation at the front of the octets, if there is one: `keys`, `asns`,
/// `ipv4` and `ipv6`, lists, and `digest`; `certificates` and `crls`, lists of objects with the
/// members of a certificate and of a revocation list; and `signers`, how many have signed it.
pub fn attestation_members(alloc: Global, octets: Bytes) -> Result<Members, Unshown> {
    match DatedRta::decode(alloc, octets) {
        Err(error) => Err(refusal(alloc, error)),
        Ok(rta) => {
            let members = of_attestation(alloc, &rta);
            drop(rta);
            members
        }
    }
}

/// The members of an attestation.
fn of_attestation(alloc: Global, rta: &DatedRta) -> Result<Members, Unshown> {
    let mut members = Map::new(alloc);
    let filled = put_attestation(alloc, &mut members, rta);
    shown(filled, members)
}

/// Puts the members of an attestation.
fn put_attestation(alloc: Global, members: &mut Members, rta: &DatedRta) -> Result<(), AllocError> {
    put_content(alloc, members, rta.rta().content())?;
    put_signed(alloc, members, rta.rta().signed())?;
    let lists = rta.lists().iter();
    put_objects(alloc, members, "crls", lists, |members, list| {
        put_crl(alloc, members, list)
    })
}

/// Puts the members of the content.
fn put_content(
    alloc: Global,
    members: &mut Members,
    content: &ResourceTaggedAttestation,
) -> Result<(), AllocError> {
    let keys = content.subject_keys();
    put_texts(alloc, members, "keys", keys.iter(), |key| {
        key.to_string(alloc)
    })?;
    put_as_blocks(alloc, members, "asns", content.as_resources())?;
    let v4 = content.v4_resources();
    put_ip_blocks(alloc, members, "ipv4", AddressFamily::Ipv4, v4)?;
    let v6 = content.v6_resources();
    put_ip_blocks(alloc, members, "ipv6", AddressFamily::Ipv6, v6)?;
    let digest = LowerHex(content.message_digest().as_slice());
    put_shown(alloc, members, "digest", &digest)
}

/// Puts the certificates, and how many have signed.
fn put_signed(
    alloc: Global,
    members: &mut Members,
    object: &MultiSignedObject,
) -> Result<(), AllocError> {
    let signers = object.signer_infos().len();
    put(members, alloc, "signers", Value::from(signers))?;
    let certs = object.certificates().iter();
    put_objects(alloc, members, "certificates", certs, |members, cert| {
        put_certificate(alloc, members, cert)
    })
}
