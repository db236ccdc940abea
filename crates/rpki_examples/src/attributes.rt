//! Signed attributes, as readers and makers of signed objects use them.

ghost use Rattle.std.specs.Prelude.{◌≡◌, ◌≢◌, ℕ, List, IfOk, MatchOption, Some};
ghost use Rattle.rpki_der.specs.declared.mode.Mode.TheVariants.{Der};
ghost use Rattle.rpki_der.specs.Numbers.{MAX_DEPTH};
ghost use Rattle.rpki_der.specs.Read.Parse.{◌>>=◌ as ◌and_then◌, octets_at};
ghost use Rattle.rpki_der.specs.Read.Reads.{Reads};
ghost use Rattle.rpki_attributes.specs.declared.attribute.OtherTypes.TheVariants.{Refuse};
ghost use Rattle.rpki_attributes.specs.Attrs.{SignedAttributes, SignedAttrsForm};
ghost use Rattle.rpki_attributes.specs.Attrs.Made.{message_of};
ghost use Rattle.rpki_attributes.specs.Attrs.Read.{attrs_at};

use bytes::Bytes;
use rpki::crypto::Digest;
use rpki::der::{Constructed, DecodeError, Encode, Oid};
use rpki::sigobj::{AttrsFault, MessageDigest, SignedAttrs};
use rpki::x509::Time;
use std::alloc::{AllocError, Global};

/// Reads signed attributes and the octets of the signature that follows them.
pub fn take_signed(
    alloc: Global,
    cons: &mut Constructed<'_>,
) -> Result<(SignedAttrs, Bytes), DecodeError>
    ensures { Reads {X = SignedAttributes × List ℕ} (λ signed. (signed.0.attributes, signed.1))
        (λ mode octets. (attrs_at Refuse mode octets) and_then
        (λ attrs. (octets_at MAX_DEPTH mode attrs.1) and_then
        (λ signature. Some ((attrs.0, signature.0), signature.1)))) cons.old result cons.new }
{
    let attrs = SignedAttrs::take_from(alloc, cons)?;
    match cons.take_octets(alloc) {
        Ok(signature) => Ok((attrs, signature)),
        Err(error) => {
            drop(attrs);
            Err(error)
        }
    }
}

/// The message that is signed, where the attributes are those of a content with this digest, and
/// `None` where they say another one.
pub fn message_for(
    alloc: Global,
    attrs: &SignedAttrs,
    digest: &Digest,
) -> Result<Option<Vec<u8>>, AllocError>
    ensures { IfOk result (λ found. MatchOption found
        (attrs.now.attributes.message_digest ≢ digest.now)
        (λ message. (message.items ≡ message_of attrs.now.attributes)
        × (attrs.now.attributes.message_digest ≡ digest.now))) }
{
    if attrs.message_digest().as_slice() != digest.as_slice() {
        return Ok(None);
    }
    Ok(Some(attrs.encode_verify(alloc)?))
}

/// The attributes of a content of this type and digest that is signed at this moment, under [0].
pub fn attributes_for(
    alloc: Global,
    content_type: &Oid,
    digest: &Digest,
    now: Time,
) -> Result<Vec<u8>, AttrsFault>
    ensures { IfOk result (λ octets. (x : SignedAttributes)
        × SignedAttrsForm Refuse Der octets.items x × (x.content_type ≡ content_type.now)
        × (x.message_digest ≡ digest.now) × (x.signing_time ≡ now)) }
{
    let digest = MessageDigest::from_digest(alloc, digest)?;
    let attrs = SignedAttrs::new(alloc, content_type, &digest, now)?;
    let octets = attrs.encode_ref().to_bytes(alloc);
    drop(attrs);
    match octets {
        Ok(octets) => Ok(octets),
        Err(_) => Err(AttrsFault::Memory),
    }
}
