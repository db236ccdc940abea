//! Reading a content.

ghost use Rattle.rpki_der.specs.declared.mode.Mode.TheVariants.{Der};
ghost use Rattle.rpki_der.specs.Read.Parse.{optional};
ghost use Rattle.rpki_der.specs.Read.Reads.{Found, Reads, Stays};
ghost use Rattle.rpki_der.specs.Form.Parts.{context_at};
ghost use Rattle.rpki_der.specs.Tags.{context};
ghost use Rattle.rpki_resources.specs.As.Read.{as_blocks_at};
ghost use Rattle.rpki_lists.specs.Named.{named_fields_at, sets_at};
ghost use Rattle.rpki_tagged.specs.Attestation.{subject_keys_at, fields_at, attestation_at};

use crate::attestation::ResourceTaggedAttestation;
use crate::faults;
use bytes::Bytes;
use rpki_attributes::MessageDigest;
use rpki_basics::{DigestAlgorithm, KeyIdentifier};
use rpki_der::{Constructed, DecodeError, Mode, Tag};
use rpki_lists::named::{Named, Sets, names_some, sets_of, take_addresses};
use rpki_lists::version::skip_version;
use rpki_resources::AsBlocks;
use std::alloc::Global;

// Reads the identifiers of the keys.
fn take_subject_keys(
    cons: &mut Constructed<'_>,
    alloc: Global,
) -> Result<Vec<KeyIdentifier>, DecodeError>
    ensures { Reads (λ keys. keys.items) subject_keys_at cons.old result cons.new }
{
    cons.take_set(|cons| cons.take_items(alloc))
}

// Reads the AS numbers, if they are there.
fn take_asns(cons: &mut Constructed<'_>, alloc: Global) -> Result<Option<AsBlocks>, DecodeError>
    ensures { Reads (λ set. set) (optional (context 0) (context_at 0 as_blocks_at))
        cons.old result cons.new }
{
    cons.take_opt_constructed_if(Tag::CTX_0, |cons| AsBlocks::take_from(alloc, cons))
}

// Reads the AS numbers and the addresses, one after the other.
#[tactic(auto, unfolding(rpki_lists::specs::Named::named_fields_at))]
fn take_named(cons: &mut Constructed<'_>, alloc: Global) -> Result<Named, DecodeError>
    ensures { Reads (λ named. named) (named_fields_at as_blocks_at) cons.old result cons.new }
{
    let asns = take_asns(cons, alloc)?;
    let addresses = take_addresses(cons, alloc)?;
    Ok(Named { asns, addresses })
}

// Reads the sets, where something is named.
#[tactic(auto, unfolding(rpki_der::specs::Read::Parse::tested))]
fn take_sets(cons: &mut Constructed<'_>, alloc: Global) -> Result<Sets, DecodeError>
    ensures { Reads (λ sets. sets) (sets_at as_blocks_at) cons.old result cons.new }
{
    let named = cons.take_sequence(|cons| take_named(cons, alloc))?;
    if names_some(&named) {
        Ok(sets_of(alloc, named))
    } else {
        Err(cons.refuse_for(faults::NO_RESOURCES))
    }
}

// Reads the fields, one after another.
#[tactic(auto, unfolding(crate::specs::Attestation::fields_at))]
fn take_fields(
    alloc: Global,
    cons: &mut Constructed<'_>,
) -> Result<ResourceTaggedAttestation, DecodeError>
    ensures { Reads (λ a. a) fields_at cons.old result cons.new }
{
    skip_version(cons)?;
    cons.holds_octets();
    let subject_keys = take_subject_keys(cons, alloc)?;
    let (as_resources, (v4_resources, v6_resources)) = take_sets(cons, alloc)?;
    DigestAlgorithm::take_from(cons)?;
    let digest = cons.take_octets(alloc)?;
    Ok(ResourceTaggedAttestation {
        subject_keys,
        as_resources,
        v4_resources,
        v6_resources,
        message_digest: MessageDigest::from(digest),
    })
}

// Reads a content.
fn take_attestation(
    alloc: Global,
    cons: &mut Constructed<'_>,
) -> Result<ResourceTaggedAttestation, DecodeError>
    ensures reads { Reads (λ a. a) attestation_at cons.old result cons.new }
    ensures stays { Stays result cons.new }
{
    cons.take_sequence(|cons| take_fields(alloc, cons))
}

/// Reads the content at the front.
pub fn read_front(alloc: Global, source: Bytes) -> Result<ResourceTaggedAttestation, DecodeError>
    ensures { Found (λ a. a) (attestation_at Der source) result }
{
    Constructed::decode(source, Mode::Der, |cons| take_attestation(alloc, cons))
}
