//! Signed attributes.

mod encoder;
mod made;
mod read;

ghost use Rattle.std.specs.Prelude.{◌≡◌, ◌≤◌, IfOk, length};
ghost use Rattle.rpki_der.specs.declared.mode.Mode.TheVariants.{Der};
ghost use Rattle.rpki_der.specs.Form.Decodes.{DecodesNext};
ghost use Rattle.rpki_der.specs.Read.Reads.{Reads, Stays};
ghost use Rattle.rpki_attributes.specs.declared.attribute.OtherTypes.TheVariants.{Refuse, Skip};
ghost use Rattle.rpki_attributes.specs.Attrs.{SignedAttrsForm, most_octets};
ghost use Rattle.rpki_attributes.specs.Attrs.Made.{attrs_octets, message_of};
ghost use Rattle.rpki_attributes.specs.Attrs.Read.{attrs_at};

use crate::attribute::OtherTypes;
use crate::digest::MessageDigest;
use bytes::Bytes;
pub use encoder::SignedAttrsEncoder;
use rpki_basics::Time;
use rpki_der::build::tlv;
use rpki_der::{Constructed, DecodeError, EncodeError, Mode, Oid, Tag};
use std::alloc::{AllocError, Global};
use std::marker::Model;

// How many octets signed attributes have at most.
const MOST: usize = 65535;

// What signed attributes say, and their octets.
#[derive(Debug, Drop)]
struct Fields {
    contents: Bytes,
    content_type: Oid,
    message_digest: MessageDigest,
    signing_time: Time,
}

impl Model for Fields {
    ghost use Rattle.rpki_attributes.specs.Attrs.{SignedAttributes};

    ghost Value = { SignedAttributes };

    ghost view = { λ f. record {
      contents = f.contents;
      content_type = f.content_type;
      message_digest = f.message_digest;
      signing_time = f.signing_time;
    } };
}

/// Signed attributes (RFC 5652, section 5.3; RFC 6488, section 2.1.6.4): the type of the content,
/// its digest, and when it was signed. Their octets are kept as they were read or made, since the
/// signature is made over these.
#[derive(Debug, Drop)]
pub struct SignedAttrs {
    fields: Fields,
    mode: Mode,
}

impl Model for SignedAttrs {
    ghost use Rattle.rpki_attributes.specs.Attrs.{KeptAttributes, AreKept};

    ghost Value = { KeptAttributes };

    ghost view = { λ a. record { attributes = a.fields; mode = a.mode } };

    ghost invariant = { λ a. AreKept (record { attributes = a.fields; mode = a.mode }) };
}

// Reads signed attributes.
fn take_attrs(
    cons: &mut Constructed<'_>,
    alloc: Global,
    others: OtherTypes,
) -> Result<SignedAttrs, DecodeError>
    ensures reads { Reads (λ a. a.attributes) (attrs_at others) cons.old result cons.new }
    ensures decodes { DecodesNext (SignedAttrsForm others) (λ a. a.attributes)
        cons.old result cons.new }
    ensures mode { IfOk result (λ a. a.mode ≡ cons.old.mode) }
    ensures stays { Stays result cons.new }
{
    // The proof needs that each octet is below 256.
    cons.holds_octets();
    let mode = cons.mode();
    match read::take_fields(cons, alloc, others) {
        Err(e) => Err(e),
        Ok(fields) => Ok(SignedAttrs { fields, mode }),
    }
}

impl SignedAttrs {
    /// Reads signed attributes: content type, message digest and signing time, each once (RFC 6488,
    /// section 2.1.6.4). An attribute of another type is refused. That they are read in BER too,
    /// and in any order in DER too, against RFC 5652, section 5.3, and X.690, section 11.6, is this
    /// project's own rule.
    ///
    /// Refuses by `Malformed`, by `InvalidSignedAttr` for an attribute of another type, by
    /// `ATTRIBUTE_TWICE`, `NO_CONTENT_TYPE`, `NO_MESSAGE_DIGEST`, `NO_SIGNING_TIME`, by
    /// `ATTRIBUTES_TOO_LONG` for more than 65535 octets, and by what `Time::take_from` refuses by.
    /// `Memory` may come too.
    pub fn take_from(alloc: Global, cons: &mut Constructed<'_>) -> Result<SignedAttrs, DecodeError>
        ensures reads { Reads (λ a. a.attributes) (attrs_at Refuse) cons.old result cons.new }
        ensures decodes { DecodesNext (SignedAttrsForm Refuse) (λ a. a.attributes)
            cons.old result cons.new }
        ensures mode { IfOk result (λ a. a.mode ≡ cons.old.mode) }
        ensures stays { Stays result cons.new }
    {
        take_attrs(cons, alloc, OtherTypes::Refuse)
    }

    /// Reads signed attributes as `take_from` does, and skips those of other types. It is for the
    /// messages of RFC 6492 and RFC 8181. That any values may follow another type, or none, and
    /// that the signing time has to be there, is this project's own rule: RFC 5652 has a SET in
    /// section 5.3, and leaves the signing time open in section 11.3. Refuses as `take_from` does,
    /// but never by `InvalidSignedAttr`.
    pub fn take_from_signed_message(
        alloc: Global,
        cons: &mut Constructed<'_>,
    ) -> Result<SignedAttrs, DecodeError>
        ensures reads { Reads (λ a. a.attributes) (attrs_at Skip) cons.old result cons.new }
        ensures decodes { DecodesNext (SignedAttrsForm Skip) (λ a. a.attributes)
            cons.old result cons.new }
        ensures mode { IfOk result (λ a. a.mode ≡ cons.old.mode) }
        ensures stays { Stays result cons.new }
    {
        take_attrs(cons, alloc, OtherTypes::Skip)
    }

    /// The type of the content (RFC 5652, section 11.1).
    pub fn content_type(&self) -> &Oid
        ensures { result.now ≡ self.now.attributes.content_type }
    {
        &self.fields.content_type
    }

    /// The digest of the content (RFC 5652, section 11.2).
    pub fn message_digest(&self) -> &MessageDigest
        ensures { result.now ≡ self.now.attributes.message_digest }
    {
        &self.fields.message_digest
    }

    /// When the content was signed (RFC 5652, section 11.3).
    pub fn signing_time(&self) -> Time
        ensures { result ≡ self.now.attributes.signing_time }
    {
        self.fields.signing_time
    }

    /// The mode that they were read in. What was made is DER.
    pub fn mode(&self) -> Mode
        ensures { result ≡ self.now.mode }
    {
        self.mode
    }

    /// Their octets, without the header that they stand under.
    pub fn as_slice(&self) -> &[u8]
        ensures octets { result.now ≡ self.now.attributes.contents }
        ensures most { length self.now.attributes.contents ≤ most_octets }
    {
        self.fields.contents.as_slice()
    }

    /// The attributes under [0], as they were read or made (RFC 5652, section 5.3). Only those that
    /// were not read in BER can be written.
    pub fn encode_ref(&self) -> SignedAttrsEncoder<'_>
        ensures value { result ≡ self.now }
        ensures written { self.now.mode ≡ Der
            → SignedAttrsForm Skip Der (attrs_octets self.now.attributes) self.now.attributes }
    {
        // What a value's type promises is known to the proof only where one of its fields is read.
        let _ = &self.mode;
        SignedAttrsEncoder::new(self)
    }

    /// The message that is signed: the header of a SET with its length in DER, and the octets as
    /// they were read or made. It is the message of RFC 5652, section 5.4, where these are the DER
    /// of the SET, in order; that they are not encoded anew is this project's own rule. Refuses
    /// only for want of memory.
    pub fn encode_verify(&self, alloc: Global) -> Result<Vec<u8>, AllocError>
        ensures { IfOk result (λ message. message.items ≡ message_of self.now.attributes) }
    {
        match tlv(alloc, Tag::SET.octet, self.as_slice()) {
            Ok(message) => Ok(message),
            Err(EncodeError::Memory) => Err(AllocError),
            Err(_) => unreachable!(),
        }
    }
}

impl Clone for SignedAttrs {
    ghost is_clone = { λ a copy. copy ≡ a };

    fn clone(&self) -> Result<SignedAttrs, AllocError> {
        Ok(SignedAttrs {
            fields: self.fields.copy()?,
            mode: self.mode,
        })
    }
}

impl Fields {
    // A copy, unless no memory for it is to be had.
    fn copy(&self) -> Result<Fields, AllocError>
        ensures { IfOk result (λ copy. copy ≡ self.now) }
    {
        Ok(Fields {
            contents: self.contents.clone()?,
            content_type: self.content_type.clone()?,
            message_digest: self.message_digest.clone()?,
            signing_time: self.signing_time,
        })
    }
}
