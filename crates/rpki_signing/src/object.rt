//! Writing signed objects that are made (RFC 5652, section 3; RFC 6488, section 2).

ghost use Rattle.std.specs.Prelude.{◌≡◌, ◌<◌, ◌^◌, length, IfOk, IfErr};
ghost use Rattle.rpki_der.specs.declared.mode.Mode.TheVariants.{Der};
ghost use Rattle.rpki_der.specs.Tags.{OBJECT_IDENTIFIER, context};
ghost use Rattle.rpki_der.specs.Write.Encode.{IsBytesOf};
ghost use Rattle.rpki_attributes.specs.declared.attribute.OtherTypes.TheVariants.{Refuse};
ghost use Rattle.rpki_attributes.specs.Attrs.{SignedAttrsForm};
ghost use Rattle.rpki_attributes.specs.Attrs.Made.{attrs_octets};
ghost use Rattle.rpki_sigobj.specs.Object.{SignedObject as AnObject, SignedForm, id_signed_data};
ghost use Rattle.rpki_signing.specs.Written.{IsDataToWrite, IsNotWritten};
ghost use Rattle.rpki_signing.specs.Written.{made_object, object_contents, object_octets};

use crate::data::{Content, Data, DataTail, SignerInfo};
use bytes::Bytes;
use rpki_attributes::SignedAttrs;
use rpki_basics::{KeyIdentifier, RpkiSignature, SigningError};
use rpki_certs::Cert;
use rpki_der::encode::{Raw, Value, primitive, sequence, tagged};
use rpki_der::{Encode, EncodeError, Oid, Tag};
use rpki_issued::signing::only_memory;
use rpki_sigobj::SignedObject;
use std::alloc::{AllocError, Global};
use std::marker::Model;

// id-signedData (RFC 5652, section 5.1).
const SIGNED_DATA: [u8; 9] = [0x2A, 0x86, 0x48, 0x86, 0xF7, 0x0D, 0x01, 0x07, 0x02];

/// What a signed object is made of. The certificate and the attributes are in DER.
#[derive(Drop)]
pub struct Parts<'a> {
    pub content_type: &'a Oid,
    pub content: &'a [u8],
    pub cert: &'a Cert,
    pub sid: &'a KeyIdentifier,
    pub attributes: &'a SignedAttrs,
    pub signature: &'a RpkiSignature,
}

impl<'a> Model for Parts<'a> {
    ghost use Rattle.std.specs.Prelude.{◌≡◌};
    ghost use Rattle.rpki_der.specs.declared.mode.Mode.TheVariants.{Der};
    ghost use Rattle.rpki_sigobj.specs.Object.{SignedData};

    ghost Value = { SignedData };

    ghost view = { λ p. record {
      content_type = p.content_type.now;
      content = p.content.now;
      cert = p.cert.now.certificate;
      signer = record {
        sid = p.sid.now;
        attributes = p.attributes.now.attributes;
        signature = p.signature.now;
      };
    } };

    ghost invariant = { λ p. (p.cert.now.mode ≡ Der) × (p.attributes.now.mode ≡ Der) };
}

// The octets of a certificate.
fn cert_octets(cert: &Cert) -> &[u8]
    ensures { result.now ≡ cert.now.certificate.octets }
{
    let encoder = cert.encode_ref();
    encoder.0.as_slice()
}

// What writes what the signer says.
fn signer<'a>(p: &'a Parts<'_>) -> SignerInfo<'a>
    ensures sid { result.sid.now ≡ p.now.signer.sid }
    ensures attributes { result.attributes.now ≡ p.now.signer.attributes.contents }
    ensures signature { result.signature.now ≡ p.now.signer.signature }
{
    SignerInfo {
        sid: p.sid.as_slice(),
        attributes: p.attributes.as_slice(),
        signature: p.signature.value(),
    }
}

// What writes the content with its type.
fn content<'a>(p: &'a Parts<'_>) -> Content<'a>
    ensures kind { result.kind.now ≡ p.now.content_type }
    ensures content { result.content.now ≡ p.now.content }
{
    Content {
        kind: p.content_type.as_slice(),
        content: p.content,
    }
}

// What writes what is signed.
fn data<'a>(p: &'a Parts<'_>) -> Data<'a>
    ensures kind { result.content.kind.now ≡ p.now.content_type }
    ensures content { result.content.content.now ≡ p.now.content }
    ensures cert { result.tail.cert.now ≡ p.now.cert.octets }
    ensures sid { result.tail.signer.sid.now ≡ p.now.signer.sid }
    ensures attributes { result.tail.signer.attributes.now ≡ p.now.signer.attributes.contents }
    ensures signature { result.tail.signer.signature.now ≡ p.now.signer.signature }
{
    Data {
        content: content(p),
        tail: DataTail {
            cert: cert_octets(p.cert),
            signer: signer(p),
        },
    }
}

// What writes the identifier of signed data, and what is signed.
type Fields<'a> = (Value<Raw<'static>>, Value<Data<'a>>);

// The fields of the object.
fn fields<'a>(signed: Data<'a>) -> Fields<'a>
    ensures oid { result.0.tag.octet ≡ OBJECT_IDENTIFIER }
    ensures kind { result.0.contents.0.now ≡ id_signed_data }
    ensures tag { result.1.tag.octet ≡ context 0 }
    ensures signed { result.1.contents ≡ signed.entry }
{
    (
        primitive(Tag::OBJECT_IDENTIFIER, &SIGNED_DATA),
        tagged(Tag::CTX_0, signed),
    )
}

// The octets of the object.
fn octets(alloc: Global, p: &Parts<'_>) -> Result<Vec<u8>, EncodeError>
    ensures { IsBytesOf (Unit {0}) (length (object_contents p.now) < 2 ^ 32)
        (object_octets p.now) result }
{
    sequence(fields(data(p))).to_bytes(alloc)
}

// What is signed can be written.
fn can_be_written(p: &Parts<'_>)
    requires kind { p.now.signer.attributes.content_type ≡ p.now.content_type }
    requires form { SignedAttrsForm Refuse Der (attrs_octets p.now.signer.attributes)
        p.now.signer.attributes }
    ensures { IsDataToWrite p.now }
{
    let _ = p.content_type.as_slice();
    let _ = p.sid.as_slice();
    let _ = p.cert.encode_ref();
}

// The object of octets that have its form.
fn read_back(alloc: Global, octets: Vec<u8>) -> Result<SignedObject, AllocError>
    requires { (o : AnObject) × SignedForm Der octets.items o }
    ensures object { (o : AnObject) → SignedForm Der octets.items o
        → IfOk result (λ k. k.object ≡ o) }
    ensures mode { IfOk result (λ k. k.mode ≡ Der) }
{
    let source = Bytes::from_vec(octets)?;
    match SignedObject::decode(alloc, source, true) {
        Ok(object) => Ok(object),
        Err(fault) => Err(only_memory(fault)),
    }
}

/// The signed object of these parts. Refuses by `TooLong` where some contents has 2^32 octets or
/// more, and by `Memory`.
pub fn object_of<E>(alloc: Global, p: &Parts<'_>) -> Result<SignedObject, SigningError<E>>
    requires kind { p.now.signer.attributes.content_type ≡ p.now.content_type }
    requires form { SignedAttrsForm Refuse Der (attrs_octets p.now.signer.attributes)
        p.now.signer.attributes }
    ensures signed { IfOk result (λ o. o.object.signed ≡ p.now) }
    ensures written { IfOk result (λ o. o.object ≡ made_object p.now) }
    ensures mode { IfOk result (λ o. o.mode ≡ Der) }
    ensures refused { IfErr result (IsNotWritten p.now) }
{
    match octets(alloc, p) {
        Err(EncodeError::TooLong) => Err(SigningError::TooLong),
        Err(_) => Err(SigningError::Memory),
        Ok(octets) => {
            can_be_written(p);
            match read_back(alloc, octets) {
                Ok(object) => Ok(object),
                Err(_) => Err(SigningError::Memory),
            }
        }
    }
}
