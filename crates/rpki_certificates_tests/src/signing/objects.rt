//! Objects of each kind that are built and signed.

use super::given::{ISSUER, builder};
use bytes::Bytes;
use rpki_basics::standin::{Refused, StandInSigner};
use rpki_basics::{ManifestRule, ProviderLimit, SigningError};
use rpki_der::Oid;
use rpki_files::{Manifest, ManifestContent, ResourceSignedChecklist};
use rpki_resources::Asn;
use rpki_routes::{Aspa, AspaBuilder, Roa, RoaBuilder, RouteOriginAttestation};
use rpki_sigobj::{Content, Signed};
use rpki_testing::{Fail, copied, ok};
use std::alloc::{AllocError, Global};
use std::net::{Ipv4Addr, Ipv6Addr};

/// What a signer answers.
pub type Answer<T> = Result<T, SigningError<Refused>>;

/// What is signed.
pub enum Object {
    /// A number, of the type of ROAs.
    Number,
    Checklist,
    Manifest,
    /// A ROA of 2001:db8::/32 and of 192.0.2.0 with a prefix of this length, or of nothing.
    Roa(Option<u8>),
    /// An ASPA of these providers.
    Aspa(&'static [u32]),
}

/// The content of the object that has a number.
pub const NUMBER: &[u8] = b"\x02\x01\x05";

/// A checklist of AS64496 for a file without a name.
pub const CHECKLIST: &[u8] = b"\x30\x26\x30\x0D\xA0\x0B\x30\x09\xA0\x07\
    \x30\x05\x02\x03\x00\xFB\xF0\x30\x0B\x06\x09\x60\x86\x48\x01\x65\x03\x04\x02\x01\
    \x30\x08\x30\x06\x04\x04hash";

/// Number 12, from 2029 to 2031, with the files `ca.crl` and `b.roa`.
pub const MANIFEST: &[u8] = b"\
    \x30\x4D\x02\x01\x0C\x18\x0F\x32\x30\x32\x39\x30\x31\x30\x31\x30\x30\x30\x30\x30\x30\x5A\x18\
    \x0F\x32\x30\x33\x31\x30\x31\x30\x31\x30\x30\x30\x30\x30\x30\x5A\x06\x09\x60\x86\x48\x01\x65\
    \x03\x04\x02\x01\x30\x1B\x30\x0C\x16\x06\x63\x61\x2E\x63\x72\x6C\x03\x02\x00\x31\x30\x0B\x16\
    \x05\x62\x2E\x72\x6F\x61\x03\x02\x00\x32";

/// AS64496, 192.0.2.0/24 and 2001:db8::/32.
pub const ROA: &[u8] = b"\x30\x28\x02\x03\x00\xFB\xF0\x30\x21\x30\x0E\x04\x02\x00\x01\x30\x08\
    \x30\x06\x03\x04\x00\xC0\x00\x02\x30\x0F\x04\x02\x00\x02\x30\x09\x30\x07\x03\x05\x00\x20\
    \x01\x0D\xB8";

/// AS64496 with AS64497, AS64498 and AS64499.
pub const ASPA: &[u8] = b"\x30\x1B\xA0\x03\x02\x01\x01\x02\x03\x00\xFB\xF0\x30\x0F\x02\x03\x00\
    \xFB\xF1\x02\x03\x00\xFB\xF2\x02\x03\x00\xFB\xF3";

/// The autonomous system of each ROA, and the customer of each ASPA.
const AS: u32 = 64496;

/// An object with this content, signed in this year.
fn signed_object(
    alloc: Global,
    signer: &mut StandInSigner,
    kind: &Oid,
    content: &[u8],
    at: u16,
) -> Result<Answer<Bytes>, Fail> {
    match builder(alloc, at)?.finalize(alloc, kind, content, signer, &ISSUER) {
        Err(fault) => Ok(Err(fault)),
        Ok(object) => {
            let octets = object.to_captured();
            drop(object);
            Ok(Ok(ok(alloc, octets)?))
        }
    }
}

/// A manifest, signed in this year.
fn manifest(alloc: Global, signer: &mut StandInSigner, at: u16) -> Result<Answer<Manifest>, Fail> {
    let octets = Bytes::from_static(MANIFEST);
    let content = ManifestContent::decode(alloc, octets, ManifestRule::Registered)?;
    match builder(alloc, at) {
        Ok(builder) => Ok(content.into_manifest(alloc, builder, signer, &ISSUER)),
        Err(fail) => {
            drop(content);
            Err(fail)
        }
    }
}

/// A builder of a ROA of two prefixes, of which this is the length of the second one, if a prefix
/// may have it.
fn with_addresses(alloc: Global, len: Option<u8>) -> Result<RoaBuilder, AllocError> {
    let mut roa = RoaBuilder::new(alloc, Asn::from_u32(AS));
    if let Some(len) = len {
        roa.push_v6_addr(Ipv6Addr::new(0x2001, 0xDB8, 0, 0, 0, 0, 0, 0), 32, None)?;
        if len <= 128 {
            roa.push_v4_addr(Ipv4Addr::new(192, 0, 2, 0), len, None)?;
        }
    }
    Ok(roa)
}

/// A ROA, signed in this year.
fn roa(
    alloc: Global,
    signer: &mut StandInSigner,
    len: Option<u8>,
    at: u16,
) -> Result<Answer<Roa>, Fail> {
    let content = with_addresses(alloc, len)?;
    match builder(alloc, at) {
        Ok(builder) => Ok(content.finalize(alloc, builder, signer, &ISSUER)),
        Err(fail) => {
            drop(content);
            Err(fail)
        }
    }
}

/// A builder of an ASPA with these providers.
fn with_providers(alloc: Global, providers: &[u32]) -> Result<AspaBuilder, Fail> {
    let mut aspa = AspaBuilder::empty(alloc, Asn::from_u32(AS));
    for provider in providers {
        ok(alloc, aspa.add_provider(Asn::from_u32(*provider)))?;
    }
    Ok(aspa)
}

/// An ASPA, signed in this year.
fn aspa(
    alloc: Global,
    signer: &mut StandInSigner,
    providers: &[u32],
    at: u16,
) -> Result<Answer<Aspa>, Fail> {
    let content = with_providers(alloc, providers)?;
    match builder(alloc, at) {
        Ok(builder) => Ok(content.finalize(alloc, builder, signer, &ISSUER, ProviderLimit::Narrow)),
        Err(fail) => {
            drop(content);
            Err(fail)
        }
    }
}

/// The octets of a copy of what was signed.
fn octets<T: Content>(
    alloc: Global,
    answer: Result<Answer<Signed<T>>, Fail>,
) -> Result<Answer<Bytes>, Fail> {
    match answer? {
        Err(fault) => Ok(Err(fault)),
        Ok(object) => {
            let copy = copied(object)?;
            let octets = copy.to_captured();
            drop(copy);
            Ok(Ok(ok(alloc, octets)?))
        }
    }
}

/// The octets of an object that this signer has signed in this year.
pub fn made(
    alloc: Global,
    object: &Object,
    signer: &mut StandInSigner,
    at: u16,
) -> Result<Answer<Bytes>, Fail> {
    match object {
        Object::Number => {
            signed_object(alloc, signer, &RouteOriginAttestation::oid(), NUMBER, at)
        }
        Object::Checklist => {
            signed_object(
                alloc,
                signer,
                &ResourceSignedChecklist::oid(),
                CHECKLIST,
                at,
            )
        }
        Object::Manifest => octets(alloc, manifest(alloc, signer, at)),
        Object::Roa(len) => octets(alloc, roa(alloc, signer, *len, at)),
        Object::Aspa(providers) => octets(alloc, aspa(alloc, signer, *providers, at)),
    }
}
