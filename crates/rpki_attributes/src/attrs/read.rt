//! Reading signed attributes.

ghost use Rattle.rpki_der.specs.Numbers.{MAX_DEPTH};
ghost use Rattle.rpki_der.specs.Read.Parse.{oid_at, octets_at};
ghost use Rattle.rpki_der.specs.Read.Reads.{Reads, Stays, Tells};
ghost use Rattle.rpki_basics.specs.Time.Read.{time_at};
ghost use Rattle.rpki_attributes.specs.Attribute.{id_content_type, id_message_digest};
ghost use Rattle.rpki_attributes.specs.Attribute.{id_signing_time};
ghost use Rattle.rpki_attributes.specs.Attrs.Read.{said_by, fields_of, says_of, list_at};
ghost use Rattle.rpki_attributes.specs.Attrs.Read.{contents_at, attrs_at};

use crate::attribute::{Attribute, CONTENT_TYPE, MESSAGE_DIGEST, OtherTypes, SIGNING_TIME};
use crate::attrs::{Fields, MOST};
use crate::digest::MessageDigest;
use crate::faults;
use crate::list::{only_one, take_list};
use bytes::Bytes;
use rpki_basics::Time;
use rpki_der::{Captured, Constructed, DecodeError, Mode, Oid, Tag};
use std::alloc::Global;

// The type of the content (RFC 5652, section 11.1).
fn content_type(list: &[Attribute], mode: Mode) -> Result<Oid, DecodeError>
    ensures { Tells (λ oid. oid) (said_by id_content_type oid_at mode list.now) result }
{
    let attribute = only_one(list, &CONTENT_TYPE, faults::NO_CONTENT_TYPE)?;
    let values = attribute.values().clone()?;
    Constructed::decode_all(values, mode, |cons| cons.take_oid())
}

// The digest of the content (RFC 5652, section 11.2).
fn message_digest(
    list: &[Attribute],
    mode: Mode,
    alloc: Global,
) -> Result<MessageDigest, DecodeError>
    ensures { Tells (λ d. d)
        (said_by id_message_digest (octets_at MAX_DEPTH) mode list.now) result }
{
    let attribute = only_one(list, &MESSAGE_DIGEST, faults::NO_MESSAGE_DIGEST)?;
    let values = attribute.values().clone()?;
    let octets = Constructed::decode_all(values, mode, |cons| cons.take_octets(alloc))?;
    Ok(MessageDigest::from(octets))
}

// When the content was signed (RFC 5652, section 11.3).
fn signing_time(list: &[Attribute], mode: Mode) -> Result<Time, DecodeError>
    ensures { Tells (λ t. t) (said_by id_signing_time time_at mode list.now) result }
{
    let attribute = only_one(list, &SIGNING_TIME, faults::NO_SIGNING_TIME)?;
    let values = attribute.values().clone()?;
    Constructed::decode_all(values, mode, |cons| Time::take_from(cons))
}

// What these attributes say.
#[tactic(auto, unfolding(crate::specs::Attrs::Read::fields_of))]
fn fields_of(
    contents: Bytes,
    mode: Mode,
    list: &[Attribute],
    alloc: Global,
) -> Result<Fields, DecodeError>
    ensures { Tells (λ f. f) (fields_of contents mode list.now) result }
{
    let content_type = content_type(list, mode)?;
    let message_digest = message_digest(list, mode, alloc)?;
    let signing_time = signing_time(list, mode)?;
    Ok(Fields {
        contents,
        content_type,
        message_digest,
        signing_time,
    })
}

// What these attributes say, if they are not too many octets.
#[tactic(auto, unfolding(crate::specs::Attrs::Read::says_of))]
fn says_of(
    contents: Bytes,
    mode: Mode,
    list: &[Attribute],
    alloc: Global,
) -> Result<Fields, DecodeError>
    ensures { Tells (λ f. f) (says_of mode (list.now, contents)) result }
{
    if contents.len() <= MOST {
        fields_of(contents, mode, list, alloc)
    } else {
        Err(DecodeError::refusal(faults::ATTRIBUTES_TOO_LONG))
    }
}

// Reads the attributes, and keeps their octets.
fn take_kept(
    cons: &mut Constructed<'_>,
    alloc: Global,
    others: OtherTypes,
) -> Result<(Vec<Attribute>, Captured), DecodeError>
    ensures { Reads (λ k. (k.0.items, k.1.octets)) (list_at others) cons.old result cons.new }
{
    cons.capture_with(|cons| take_list(cons, alloc, others))
}

// Reads the attributes, and what they say.
fn take_contents(
    cons: &mut Constructed<'_>,
    alloc: Global,
    others: OtherTypes,
) -> Result<Fields, DecodeError>
    ensures { Reads (λ f. f) (contents_at others) cons.old result cons.new }
{
    let mode = cons.mode();
    let (list, captured) = take_kept(cons, alloc, others)?;
    says_of(captured.into_bytes(), mode, &list, alloc)
}

/// Reads signed attributes, with the header that they stand under. Refuses as
/// `SignedAttrs::take_from` does, and by `InvalidSignedAttr` only where `others` says so.
pub fn take_fields(
    cons: &mut Constructed<'_>,
    alloc: Global,
    others: OtherTypes,
) -> Result<Fields, DecodeError>
    ensures reads { Reads (λ f. f) (attrs_at others) cons.old result cons.new }
    ensures stays { Stays result cons.new }
{
    cons.take_constructed_if(Tag::CTX_0, |cons| take_contents(cons, alloc, others))
}
