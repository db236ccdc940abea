//! One signed attribute.

ghost use Rattle.std.specs.Prelude.{◌≡◌};
ghost use Rattle.rpki_der.specs.Read.Parse.{optional};
ghost use Rattle.rpki_der.specs.Read.Reads.{Reads};
ghost use Rattle.rpki_der.specs.Tags.{SEQUENCE};
ghost use Rattle.rpki_attributes.specs.Attribute.Read.{is_known, attribute_fields_at};
ghost use Rattle.rpki_attributes.specs.Attribute.Read.{attribute_at};

use bytes::Bytes;
use rpki_der::{Constructed, ContentFault, DecodeError, InvalidSignedAttr, Oid, Tag};
use std::alloc::Global;
use std::marker::Model;

/// The attribute that names the type of the content (RFC 5652, section 11.1).
pub const CONTENT_TYPE: [u8; 9] = [0x2A, 0x86, 0x48, 0x86, 0xF7, 0x0D, 0x01, 0x09, 0x03];

/// The attribute that has the digest of the content (RFC 5652, section 11.2).
pub const MESSAGE_DIGEST: [u8; 9] = [0x2A, 0x86, 0x48, 0x86, 0xF7, 0x0D, 0x01, 0x09, 0x04];

/// The attribute that says when the content was signed (RFC 5652, section 11.3).
pub const SIGNING_TIME: [u8; 9] = [0x2A, 0x86, 0x48, 0x86, 0xF7, 0x0D, 0x01, 0x09, 0x05];

/// What is done with attributes of other types than these three.
#[derive(Clone, Copy, Debug, PartialEq, Eq)]
pub enum OtherTypes {
    /// They are refused.
    Refuse,
    /// They are skipped.
    Skip,
}

/// A signed attribute, whose values are not read yet (RFC 5652, section 5.3).
#[derive(Debug, Drop)]
pub struct Attribute {
    oid: Oid,
    values: Bytes,
}

impl Model for Attribute {
    ghost use Rattle.rpki_attributes.specs.Attribute.{Attribute};

    ghost Value = { Attribute };

    ghost view = { λ a. record { oid = a.oid; values = a.values } };
}

impl Attribute {
    /// The contents of its type.
    pub fn oid(&self) -> &[u8]
        ensures { result.now ≡ self.now.oid }
    {
        self.oid.as_slice()
    }

    /// The octets of its values, without the header of their SET.
    pub fn values(&self) -> &Bytes
        ensures { result.now ≡ self.now.values }
    {
        &self.values
    }
}

// Whether this is one of the three types that are known.
fn is_known(oid: &[u8]) -> bool
    ensures { result ≡ is_known oid.now }
{
    oid == CONTENT_TYPE.as_slice()
        || oid == MESSAGE_DIGEST.as_slice()
        || oid == SIGNING_TIME.as_slice()
}

// Reads the type of an attribute and its values.
#[tactic(auto, unfolding(crate::specs::Attribute::Read::attribute_fields_at, crate::specs::Attribute::Read::values_at, crate::specs::Attribute::Read::others_at))]
fn take_fields(
    cons: &mut Constructed<'_>,
    alloc: Global,
    others: OtherTypes,
) -> Result<Attribute, DecodeError>
    ensures { Reads (λ a. a) (attribute_fields_at others) cons.old result cons.new }
{
    let oid = cons.take_oid()?;
    if is_known(oid.as_slice()) {
        let values = cons.take_primitive_if(Tag::SET)?;
        return Ok(Attribute { oid, values });
    }
    match others {
        OtherTypes::Skip => {
            cons.skip_all()?;
            let values = Bytes::new();
            Ok(Attribute { oid, values })
        }
        OtherTypes::Refuse => match InvalidSignedAttr::new(alloc, oid) {
            Ok(attr) => Err(DecodeError::Content(ContentFault::InvalidSignedAttr(attr))),
            Err(_) => Err(DecodeError::Memory),
        },
    }
}

/// Reads an attribute, if one is next. Refuses by `InvalidSignedAttr` one of another type, where
/// `others` has these refused, by `Malformed`, or by `Memory`.
pub fn take_opt_attribute(
    cons: &mut Constructed<'_>,
    alloc: Global,
    others: OtherTypes,
) -> Result<Option<Attribute>, DecodeError>
    ensures { Reads (λ a. a) (optional SEQUENCE (attribute_at others)) cons.old result cons.new }
{
    cons.take_opt_sequence(|cons| take_fields(cons, alloc, others))
}
