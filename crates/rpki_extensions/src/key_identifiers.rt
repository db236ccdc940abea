//! Identifiers of keys.

ghost use Rattle.rpki_der.specs.Form.Decodes.{DecodesNext};
ghost use Rattle.rpki_der.specs.Read.Reads.{Reads, Stays, OnlyMalformedOrMemory};
ghost use Rattle.rpki_extensions.specs.KeyIdentifiers.{SubjectKeyForm, AuthorityKeyForm};
ghost use Rattle.rpki_extensions.specs.KeyIdentifiers.{subject_key_at, key_id_at};
ghost use Rattle.rpki_extensions.specs.KeyIdentifiers.{authority_fields_at, authority_key_at};

use rpki_basics::KeyIdentifier;
use rpki_der::{Constructed, DecodeError, Tag};
use std::alloc::Global;

// How many octets an identifier has: those of a SHA-1 digest (RFC 6487, section 4.8.2).
const ID_LENGTH: usize = 20;

// Reads the identifier of the subject's key.
fn take_subject(alloc: Global, cons: &mut Constructed<'_>) -> Result<KeyIdentifier, DecodeError>
    ensures reads { Reads (λ id. id) subject_key_at cons.old result cons.new }
    ensures stays { Stays result cons.new }
    ensures refused { OnlyMalformedOrMemory cons.old result }
{
    let octets = cons.take_octets_of::<ID_LENGTH>(alloc)?;
    Ok(KeyIdentifier::from_octets(octets))
}

/// Reads the identifier of the subject's key: an OCTET STRING of 20 octets (RFC 5280, section
/// 4.2.1.2; RFC 6487, section 4.8.2). Refuses by `Malformed`, or by `Memory`.
pub fn take_subject_key_identifier(
    alloc: Global,
    cons: &mut Constructed<'_>,
) -> Result<KeyIdentifier, DecodeError>
    ensures reads { Reads (λ id. id) subject_key_at cons.old result cons.new }
    ensures decodes { DecodesNext SubjectKeyForm (λ id. id) cons.old result cons.new }
    ensures stays { Stays result cons.new }
    ensures refused { OnlyMalformedOrMemory cons.old result }
{
    cons.holds_octets();
    take_subject(alloc, cons)
}

// Reads the identifier under [0].
#[tactic(auto, unfolding(rpki_der::specs::Read::Parse::tested))]
fn take_key_id(cons: &mut Constructed<'_>) -> Result<KeyIdentifier, DecodeError>
    ensures reads { Reads (λ id. id) key_id_at cons.old result cons.new }
    ensures stays { Stays result cons.new }
    ensures refused { OnlyMalformedOrMemory cons.old result }
{
    let octets = cons.take_primitive_if(Tag::CTX_0_PRIMITIVE)?;
    match <[u8; ID_LENGTH]>::try_from(octets.as_slice()) {
        Ok(octets) => Ok(KeyIdentifier::from_octets(octets)),
        Err(_) => Err(cons.fail(DecodeError::Malformed)),
    }
}

// Reads what stands in the SEQUENCE.
#[tactic(auto, unfolding(crate::specs::KeyIdentifiers::authority_fields_at))]
fn take_fields(cons: &mut Constructed<'_>) -> Result<KeyIdentifier, DecodeError>
    ensures reads { Reads (λ id. id) authority_fields_at cons.old result cons.new }
    ensures refused { OnlyMalformedOrMemory cons.old result }
{
    take_key_id(cons)
}

// Reads the identifier of the issuer's key.
fn take_authority(cons: &mut Constructed<'_>) -> Result<KeyIdentifier, DecodeError>
    ensures reads { Reads (λ id. id) authority_key_at cons.old result cons.new }
    ensures stays { Stays result cons.new }
    ensures refused { OnlyMalformedOrMemory cons.old result }
{
    cons.take_sequence(take_fields)
}

/// Reads the identifier of the issuer's key: 20 octets under [0] in a SEQUENCE (RFC 5280, section
/// 4.2.1.1), in which nothing else stands (RFC 6487, section 4.8.3). Refuses by `Malformed`, or by
/// `Memory`.
pub fn take_authority_key_identifier(
    cons: &mut Constructed<'_>,
) -> Result<KeyIdentifier, DecodeError>
    ensures reads { Reads (λ id. id) authority_key_at cons.old result cons.new }
    ensures decodes { DecodesNext AuthorityKeyForm (λ id. id) cons.old result cons.new }
    ensures stays { Stays result cons.new }
    ensures refused { OnlyMalformedOrMemory cons.old result }
{
    cons.holds_octets();
    take_authority(cons)
}
