//! Signed objects.

mod fields;
mod parts;
pub(crate) mod read;

ghost use Rattle.std.specs.Prelude.{◌≡◌, IfOk, IfErr, Err};
ghost use Rattle.rpki_der.specs.declared.mode.Mode.TheVariants.{Der, Ber};
ghost use Rattle.rpki_der.specs.declared.encode.EncodeError.TheVariants.{NotDer, Memory};
ghost use Rattle.rpki_der.specs.Form.Decodes.{Decodes, DecodesNext};
ghost use Rattle.rpki_der.specs.Read.Reads.{Reads, Stays, Found};
ghost use Rattle.rpki_sigobj.specs.Object.{SignedForm, SignedFormOf, IsKept, object_of, object_at};
ghost use Rattle.rpki_sigobj.specs.Object.{mode_of};

use crate::faults;
use bytes::Bytes;
use read::SignedData;
use rpki_der::encode::CapturedEncoder;
use rpki_der::laws::slices_hold_octets;
use rpki_der::{Captured, Constructed, DecodeError, EncodeError, Mode, Oid};
use std::alloc::{AllocError, Global};
use std::marker::Model;

/// A signed object (RFC 6488, section 2), with its octets as they were read.
#[derive(Debug, Drop)]
pub struct SignedObject {
    contents: SignedData,
    captured: Captured,
}

impl Model for SignedObject {
    ghost use Rattle.std.specs.Prelude.{◌≡◌};
    ghost use Rattle.rpki_sigobj.specs.Object.{KeptObject, IsKept, object_of};

    ghost Value = { KeptObject };

    ghost view = { λ o. record {
      object = object_of (o.contents.signed, o.captured.octets);
      mode = o.captured.mode;
    } };

    ghost invariant = { λ o. IsKept (record {
      object = object_of (o.contents.signed, o.captured.octets);
      mode = o.captured.mode;
    }) × (o.contents.cert_mode ≡ o.captured.mode) };
}

impl SignedObject {
    // The signed object of these contents and octets.
    fn of(contents: SignedData, captured: Captured) -> SignedObject
        requires form { IsKept (record {
          object = object_of (contents.signed, captured.octets);
          mode = captured.mode;
        }) }
        requires mode { contents.cert_mode ≡ captured.mode }
        ensures object { result.object ≡ object_of (contents.signed, captured.octets) }
        ensures mode { result.mode ≡ captured.mode }
    {
        SignedObject { contents, captured }
    }
}

// Reads a signed object.
fn take_object(cons: &mut Constructed<'_>, alloc: Global) -> Result<SignedObject, DecodeError>
    ensures reads { Reads (λ o. o.object) object_at cons.old result cons.new }
    ensures mode { IfOk result (λ o. o.mode ≡ cons.old.mode) }
    ensures stays { Stays result cons.new }
{
    // The proof needs that each octet is below 256.
    cons.holds_octets();
    match read::take_kept(cons, alloc) {
        Err(e) => Err(e),
        Ok((contents, captured)) => Ok(SignedObject::of(contents, captured)),
    }
}

// The mode that a source is read in.
fn mode_of(strict: bool) -> Mode
    ensures { result ≡ mode_of strict }
{
    if strict { Mode::Der } else { Mode::Ber }
}

// Reads the signed object at the front.
fn read_front(alloc: Global, source: Bytes, mode: Mode) -> Result<SignedObject, DecodeError>
    ensures found { Found (λ o. o.object) (object_at mode source) result }
    ensures mode { IfOk result (λ o. o.mode ≡ mode) }
{
    Constructed::decode(source, mode, |cons| take_object(cons, alloc))
}

impl SignedObject {
    /// Reads the signed object at the front of the source, by the rules of DER where it is read
    /// strictly, and else by those of BER (RFC 5652, section 3; RFC 6488, section 2). Octets after
    /// it are left. Refuses as `take_from` does.
    pub fn decode(alloc: Global, source: Bytes, strict: bool) -> Result<SignedObject, DecodeError>
        ensures decodes { Decodes (SignedForm (mode_of strict)) (λ o. o.object) source result }
        ensures mode { IfOk result (λ o. o.mode ≡ mode_of strict) }
    {
        slices_hold_octets(source.as_slice());
        read_front(alloc, source, mode_of(strict))
    }

    /// Reads the signed object at the front of the source, as `decode` does, if its content has
    /// this type. Refuses by `OTHER_CONTENT_TYPE` where it has another one, and else as `decode`
    /// does.
    pub fn decode_if_type(
        alloc: Global,
        source: Bytes,
        content_type: &Oid,
        strict: bool,
    ) -> Result<SignedObject, DecodeError>
        ensures decodes { Decodes (SignedFormOf content_type.now (mode_of strict)) (λ o. o.object)
            source result }
        ensures mode { IfOk result (λ o. o.mode ≡ mode_of strict) }
    {
        match SignedObject::decode(alloc, source, strict) {
            Err(e) => Err(e),
            Ok(object) => {
                if object.content_type().as_slice() == content_type.as_slice() {
                    Ok(object)
                } else {
                    drop(object);
                    Err(DecodeError::refusal(faults::OTHER_CONTENT_TYPE))
                }
            }
        }
    }

    /// Reads a signed object: a ContentInfo of SignedData with one certificate and one signer (RFC
    /// 5652, sections 3 and 5; RFC 6488, section 2). In BER the certificate is read in BER too, but
    /// for the values of its extensions, which are DER.
    ///
    /// Refuses by `UNKNOWN_ALGORITHM`, by `WRONG_CONTENT_TYPE` where the signed attributes say
    /// another type than that of the content, by what signed attributes and certificates are
    /// refused by, by `Malformed` for all else, or by `Memory`.
    pub fn take_from(alloc: Global, cons: &mut Constructed<'_>) -> Result<SignedObject, DecodeError>
        ensures reads { Reads (λ o. o.object) object_at cons.old result cons.new }
        ensures decodes { DecodesNext SignedForm (λ o. o.object) cons.old result cons.new }
        ensures mode { IfOk result (λ o. o.mode ≡ cons.old.mode) }
        ensures stays { Stays result cons.new }
    {
        cons.holds_octets();
        take_object(cons, alloc)
    }

    /// What writes the octets of the signed object as they were read, where they are DER, and
    /// answers `NotDer` where they were read in BER.
    pub fn encode_ref(&self) -> CapturedEncoder<'_>
        ensures octets { result.0.now.octets ≡ self.now.object.octets }
        ensures mode { result.0.now.mode ≡ self.now.mode }
        ensures written { SignedForm self.now.mode self.now.object.octets self.now.object }
    {
        self.captured.encode_ref()
    }

    /// The octets of the signed object as they were read, where they are DER. Refuses by `NotDer`
    /// where they were read in BER, and else only for want of memory.
    pub fn to_captured(&self) -> Result<Bytes, EncodeError>
        ensures octets { IfOk result (λ octets. octets ≡ self.now.object.octets) }
        ensures der { self.now.mode ≡ Der → IfErr result (λ e. e ≡ Memory) }
        ensures ber { self.now.mode ≡ Ber → result ≡ Err NotDer }
    {
        match self.captured.mode() {
            Mode::Ber => Err(EncodeError::NotDer),
            Mode::Der => match self.captured.clone() {
                Ok(captured) => Ok(captured.into_bytes()),
                Err(_) => Err(EncodeError::Memory),
            },
        }
    }
}

impl Clone for SignedObject {
    ghost is_clone = { λ o copy. copy ≡ o };

    fn clone(&self) -> Result<SignedObject, AllocError> {
        let captured = self.captured.clone()?;
        let contents = self.contents.clone()?;
        Ok(SignedObject { contents, captured })
    }
}
