//! Reading a content.

ghost use Rattle.std.specs.Prelude.{◌≡◌, ◌↔◌, ◌≤◌, IfOk, IsTrue, nat_le};
ghost use Rattle.rpki_basics.specs.Moment.{stamp};
ghost use Rattle.rpki_basics.specs.Algorithm.{named, sha_256};
ghost use Rattle.rpki_der.specs.declared.mode.Mode.TheVariants.{Der};
ghost use Rattle.rpki_der.specs.Read.Parse.{oid_at, optional};
ghost use Rattle.rpki_der.specs.Read.Reads.{Found, Reads, Stays};
ghost use Rattle.rpki_der.specs.Form.Made.{partly};
ghost use Rattle.rpki_der.specs.Tags.{context};
ghost use Rattle.rpki_lists.specs.Version.{version_at};
ghost use Rattle.rpki_files.specs.Manifest.{head_at, fields_at, manifest_at};

use crate::faults;
use crate::manifest::ManifestContent;
use crate::manifest::files::take_files;
use crate::version::take_version;
use bytes::Bytes;
use rpki_basics::{ManifestRule, Serial, Time};
use rpki_der::{Constructed, DecodeError, Mode, Tag};
use std::alloc::Global;

/// The contents of the OBJECT IDENTIFIER of SHA-256 (RFC 5754, section 2.2).
pub const SHA_256: [u8; 9] = [0x60, 0x86, 0x48, 0x01, 0x65, 0x03, 0x04, 0x02, 0x01];

// Reads the algorithm of the hashes, SHA-256.
fn take_algorithm(cons: &mut Constructed<'_>) -> Result<(), DecodeError>
    ensures { Reads (λ u. u) (partly (named sha_256) oid_at) cons.old result cons.new }
{
    let oid = cons.take_oid()?;
    if oid.as_slice() == &SHA_256[..] {
        Ok(())
    } else {
        Err(cons.refuse_for(faults::UNKNOWN_HASH_ALGORITHM))
    }
}

/// Whether the next update is not before this one.
pub fn are_in_order(this_update: Time, next_update: Time) -> bool
    ensures test { result ≡ nat_le (stamp this_update) (stamp next_update) }
    ensures order { IsTrue result ↔ (stamp this_update ≤ stamp next_update) }
{
    this_update <= next_update
}

// Reads the version, if it is there.
fn take_opt_version(cons: &mut Constructed<'_>) -> Result<Option<()>, DecodeError>
    ensures { Reads (λ u. u) (optional (context 0) version_at) cons.old result cons.new }
{
    cons.take_opt_constructed_if(Tag::CTX_0, take_version)
}

// Reads the version, the number and both updates.
#[tactic(auto, unfolding(crate::specs::Manifest::head_at))]
fn take_head(cons: &mut Constructed<'_>) -> Result<(Serial, Time, Time), DecodeError>
    ensures reads { Reads (λ head. head) head_at cons.old result cons.new }
    ensures order { IfOk result (λ head. stamp head.1 ≤ stamp head.2) }
{
    take_opt_version(cons)?;
    let number = Serial::take_from(cons)?;
    let this_update = Time::take_from(cons)?;
    let next_update = Time::take_from(cons)?;
    if are_in_order(this_update, next_update) {
        Ok((number, this_update, next_update))
    } else {
        Err(cons.refuse_for(faults::UPDATES_NOT_IN_ORDER))
    }
}

// Reads the fields, one after another.
#[tactic(auto, unfolding(crate::specs::Manifest::fields_at))]
fn take_fields(
    alloc: Global,
    cons: &mut Constructed<'_>,
    rule: ManifestRule,
) -> Result<ManifestContent, DecodeError>
    ensures { Reads (λ m. m) (fields_at rule) cons.old result cons.new }
{
    let (number, this_update, next_update) = take_head(cons)?;
    take_algorithm(cons)?;
    let files = take_files(alloc, cons, rule)?;
    Ok(ManifestContent {
        number,
        this_update,
        next_update,
        files,
    })
}

/// Reads a content. Refuses as `ManifestContent::take_from` does.
pub fn take_manifest(
    alloc: Global,
    cons: &mut Constructed<'_>,
    rule: ManifestRule,
) -> Result<ManifestContent, DecodeError>
    ensures reads { Reads (λ m. m) (manifest_at rule) cons.old result cons.new }
    ensures stays { Stays result cons.new }
{
    cons.take_sequence(|cons| take_fields(alloc, cons, rule))
}

/// Reads the content at the front. Refuses as `ManifestContent::decode` does.
pub fn read_front(
    alloc: Global,
    source: Bytes,
    rule: ManifestRule,
) -> Result<ManifestContent, DecodeError>
    ensures { Found (λ m. m) (manifest_at rule Der source) result }
{
    Constructed::decode(source, Mode::Der, |cons| take_manifest(alloc, cons, rule))
}
