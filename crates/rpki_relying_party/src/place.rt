//! Places of a validation run: certification authorities (CAs) with the numbers that they have.

ghost use Rattle.std.specs.Prelude.{◌≡◌, ◌*◌, ◌<◌, ◌^◌, length, ◌++◌, IfOk, OnOk, option_map};
ghost use Rattle.std.specs.List.{flat_map};
ghost use Rattle.rpki_resources.specs.Claim.{added};
ghost use Rattle.rpki_relying_party.specs.Costs.{blocks_of, claimed_of, waiting_cost};
ghost use Rattle.rpki_relying_party.specs.Place.{octets_of, part_of, uri_part, ends_of, set_part};
ghost use Rattle.rpki_relying_party.specs.Place.{cert_part, sets_part, key_of};
ghost use Rattle.rpki_relying_party.specs.Tells.{earlier};

use bytes::Bytes;
use rpki_basics::{Rsync, Time};
use rpki_certs::{Cert, ResourceCert};
use rpki_resources::{Block, Blocks, Claim, Number, Resources};
use std::alloc::{AllocError, Global};

/// The certificate of a CA with its validated numbers; until when all the certificates, manifests
/// and revocation lists that lead to it hold; and the URI of the manifest of the CA that listed it,
/// if it is no trust anchor.
#[derive(Drop)]
pub struct Place {
    pub ca: ResourceCert,
    pub until: Time,
    pub listed_by: Option<Rsync>,
}

// Puts a number in 8 octets.
fn put_number(key: &mut Vec<u8>, number: u64) -> Result<(), AllocError>
    ensures { OnOk result (key.new.items ≡ key.old.items ++ octets_of 7 number) }
{
    key.extend_from_slice(&number.to_be_bytes())
}

// Puts an end of a block in 16 octets.
fn put_end(key: &mut Vec<u8>, end: u128) -> Result<(), AllocError>
    ensures { OnOk result (key.new.items ≡ key.old.items ++ octets_of 15 end) }
{
    key.extend_from_slice(&end.to_be_bytes())
}

// Puts octets, after their number.
fn put_part(key: &mut Vec<u8>, part: &[u8]) -> Result<(), AllocError>
    ensures { OnOk result (key.new.items ≡ key.old.items ++ part_of part.now) }
{
    put_number(key, part.len() as u64)?;
    key.extend_from_slice(part)
}

// Puts a URI, after whether there is one.
fn put_uri(key: &mut Vec<u8>, uri: Option<&Rsync>) -> Result<(), AllocError>
    ensures { OnOk result (key.new.items
        ≡ key.old.items ++ uri_part (option_map (λ u. u.now) uri.entry)) }
{
    match uri {
        None => {
            key.push(0)?;
            Ok(())
        }
        Some(uri) => {
            key.push(1)?;
            put_part(key, uri.as_slice())
        }
    }
}

// Puts the two ends of a block.
fn put_block<T: Number>(key: &mut Vec<u8>, block: &Block<T>) -> Result<(), AllocError>
    ensures { OnOk result (key.new.items ≡ key.old.items ++ ends_of T.number block.now) }
{
    put_end(key, block.min.value())?;
    put_end(key, block.max.value())
}

// Puts the two ends of each block.
fn put_blocks<T: Number>(key: &mut Vec<u8>, blocks: &[Block<T>]) -> Result<(), AllocError>
    ensures { OnOk result (key.new.items
        ≡ key.old.items ++ flat_map (ends_of T.number) blocks.now) }
{
    for block in blocks {
        put_block(key, block)?;
    }
    Ok(())
}

// Puts the blocks of a set, after their number.
fn put_set<T: Number>(key: &mut Vec<u8>, set: &Blocks<T>) -> Result<(), AllocError>
    ensures { OnOk result (key.new.items ≡ key.old.items ++ set_part T.number set.now) }
{
    let blocks = set.as_slice();
    put_number(key, blocks.len() as u64)?;
    put_blocks(key, blocks)
}

// Puts the public key of a CA with its identifier, and the URIs of its folder and its manifest.
fn put_cert(key: &mut Vec<u8>, ca: &ResourceCert) -> Result<(), AllocError>
    ensures { OnOk result (key.new.items ≡ key.old.items ++ cert_part ca.now.cert.certificate.tbs) }
{
    let cert = ca.cert();
    let identifier = cert.subject_key_identifier();
    put_part(key, cert.subject_public_key_info().bits())?;
    put_part(key, identifier.as_slice())?;
    put_uri(key, cert.ca_repository())?;
    put_uri(key, cert.rpki_manifest())
}

// Puts the three sets of a CA.
fn put_sets(key: &mut Vec<u8>, ca: &ResourceCert) -> Result<(), AllocError>
    ensures { OnOk result (key.new.items ≡ key.old.items ++ sets_part ca.now.sets) }
{
    put_set(key, ca.as_resources())?;
    put_set(key, ca.v4_resources())?;
    put_set(key, ca.v6_resources())
}

/// The key of a place: its public key with its identifier, the URIs of its folder and of its
/// manifest, and its sets. These decide what the place says, but for until when, and below which CA
/// a refusal stands.
pub(crate) fn key_of(alloc: Global, place: &Place) -> Result<Vec<u8>, AllocError>
    ensures { IfOk result (λ key. key.items ≡ key_of place.now) }
{
    let mut key = Vec::new(alloc);
    put_cert(&mut key, &place.ca)?;
    put_sets(&mut key, &place.ca)?;
    Ok(key)
}

// How many blocks a set has.
fn count_of<T: Number>(blocks: &Blocks<T>) -> u128
    ensures counts { result ≡ length blocks.now }
    ensures fits { result < 2 ^ 64 }
{
    blocks.as_slice().len() as u128
}

/// How many blocks the three sets of a CA have.
pub(crate) fn count_blocks(ca: &ResourceCert) -> u128
    ensures counts { result ≡ blocks_of ca.now }
    ensures fits { result < 3 * 2 ^ 64 }
{
    let addresses = count_of(ca.v4_resources()) + count_of(ca.v6_resources());
    count_of(ca.as_resources()) + addresses
}

// How many blocks a claim has.
fn count_in<T: Number>(claim: &Resources<T>) -> u128
    ensures counts { result ≡ length (added claim.now) }
    ensures fits { result < 2 ^ 64 }
{
    match claim.claim() {
        Claim::Missing => 0,
        Claim::Inherit => 0,
        Claim::Explicit(blocks) => count_of(blocks),
    }
}

// How many blocks a certificate claims.
fn count_claimed(cert: &Cert) -> u128
    ensures counts { result ≡ claimed_of cert.now.certificate }
    ensures fits { result < 3 * 2 ^ 64 }
{
    let addresses = count_in(cert.v4_resources()) + count_in(cert.v6_resources());
    count_in(cert.as_resources()) + addresses
}

/// What a place takes that waits: its certificate, which has these octets, with what it claims, its
/// key and its sets.
pub(crate) fn cost_of(octets: &Bytes, ca: &ResourceCert) -> u128
    ensures { result ≡ waiting_cost octets.now ca.now }
{
    let blocks = count_blocks(ca) + count_claimed(ca.cert());
    16_384 + 8 * (octets.len() as u128) + 1_024 * blocks
}

/// The earlier of two moments.
pub(crate) fn earlier(a: Time, b: Time) -> Time
    ensures { result ≡ earlier a b }
{
    if a.stamp() <= b.stamp() { a } else { b }
}
