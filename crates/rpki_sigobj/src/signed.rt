//! Signed objects with their contents.

mod content;
mod process;

ghost use Rattle.std.specs.Prelude.{◌↔◌, ◌≡◌, IfOk, IfErr, Err, IsTrue};
ghost use Rattle.rpki_der.specs.declared.mode.Mode.TheVariants.{Der, Ber};
ghost use Rattle.rpki_der.specs.declared.encode.EncodeError.TheVariants.{NotDer, Memory};
ghost use Rattle.rpki_der.specs.Form.Decodes.{Decodes};
ghost use Rattle.rpki_sigobj.specs.Object.{SignedForm, SignedFormOf, mode_of, cert_of};
ghost use Rattle.rpki_sigobj.specs.Signed.{ObjectForm, IsKeptWhole, whole_of};
ghost use Rattle.rpki_certs.specs.Verify.{IsClaimedOf};

use crate::object::SignedObject;
use bytes::Bytes;
pub use content::{Content, oid_of};
use rpki_certs::{Cert, ResourceCert};
use rpki_der::encode::CapturedEncoder;
use rpki_der::{DecodeError, EncodeError};
use std::alloc::{AllocError, Global};
use std::marker::Model;
use std::ops::Deref;

/// A signed object with a content of this kind.
#[derive(Debug, Drop)]
pub struct Signed<T: Content> {
    object: SignedObject,
    content: T,
}

impl<T: Content> Model for Signed<T> {
    ghost use Rattle.rpki_sigobj.specs.Signed.{KeptWhole, IsKeptWhole};

    ghost Value = { KeptWhole T };

    ghost view = { λ s. record { object = s.object; content = s.content } };

    ghost invariant = { λ s. IsKeptWhole T.kind.type T.form (record {
      object = s.object;
      content = s.content;
    }) };
}

impl<T: Content> Clone for Signed<T> {
    ghost is_clone = { λ s copy. copy ≡ s };

    fn clone(&self) -> Result<Signed<T>, AllocError> {
        let object = self.object.clone()?;
        match self.content.clone() {
            Err(e) => {
                drop(object);
                Err(e)
            }
            Ok(content) => Ok(Signed { object, content }),
        }
    }
}

// Reads a signed object whose content has the type of this kind.
fn read_object<T: Content>(
    alloc: Global,
    source: Bytes,
    strict: bool,
) -> Result<SignedObject, DecodeError>
    ensures decodes { Decodes (SignedFormOf T.kind.type (mode_of strict)) (λ o. o.object)
        source result }
    ensures mode { IfOk result (λ o. o.mode ≡ mode_of strict) }
{
    let oid = T::oid();
    SignedObject::decode_if_type(alloc, source, &oid, strict)
}

// Reads what the content of an object begins with.
fn read_content<T: Content>(
    alloc: Global,
    object: &SignedObject,
    rule: T::Rule,
) -> Result<T, DecodeError>
    ensures decodes { Decodes (T.form rule) (λ x. x) object.now.object.signed.content result }
    ensures content { IfOk result T.is_content }
{
    match object.content().clone() {
        Err(_) => Err(DecodeError::Memory),
        Ok(octets) => T::read(alloc, octets, rule),
    }
}

impl<T: Content> Signed<T> {
    /// Reads the object at the front of the source, by the rules of DER where it is read strictly,
    /// and else by those of BER; its content is in DER. Octets after it are left, and so are those
    /// after what the content says. `rule` is what the kind leaves to the caller of how contents
    /// are read, and `()` where that is nothing.
    ///
    /// Refuses by `OTHER_CONTENT_TYPE` where the object has another type, by what signed objects
    /// and contents of the kind are refused by, or by `Memory`.
    pub fn decode(
        alloc: Global,
        source: Bytes,
        strict: bool,
        rule: T::Rule,
    ) -> Result<Signed<T>, DecodeError>
        ensures decodes { Decodes (ObjectForm T.kind.type (T.form rule) (mode_of strict)) whole_of
            source result }
        ensures mode { IfOk result (λ o. o.object.mode ≡ mode_of strict) }
        ensures content { IfOk result (λ o. T.is_content o.content) }
    {
        match read_object::<T>(alloc, source, strict) {
            Err(e) => Err(e),
            Ok(object) => match read_content::<T>(alloc, &object, rule) {
                Err(e) => {
                    drop(object);
                    Err(e)
                }
                Ok(content) => Ok(Signed { object, content }),
            },
        }
    }

    /// The object with this content, which is what its octets begin with.
    pub fn from_parts(object: SignedObject, content: T) -> Signed<T>
        requires { IsKeptWhole T.kind.type T.form (record { object = object; content = content }) }
        ensures object { result.object ≡ object }
        ensures content { result.content ≡ content }
    {
        Signed { object, content }
    }

    /// The object and the content.
    pub fn into_parts(self) -> (SignedObject, T)
        ensures object { result.0 ≡ self.object }
        ensures content { result.1 ≡ self.content }
    {
        let Signed { object, content } = self;
        (object, content)
    }

    /// The signed object.
    pub fn signed(&self) -> &SignedObject
        ensures { result.now ≡ self.now.object }
    {
        &self.object
    }

    /// The certificate of its signer.
    pub fn cert(&self) -> &Cert
        ensures { result.now ≡ cert_of self.now.object }
    {
        self.object.cert()
    }

    /// Whether its certificate states the identifier of this issuer's key as that of its issuer's
    /// key (RFC 6487, section 4.8.3). `strict` changes nothing.
    pub fn is_issuer(&self, issuer: &ResourceCert, _strict: bool) -> bool
        ensures { IsTrue result ↔ IsClaimedOf issuer.now.cert.certificate.tbs
            self.now.object.object.signed.cert.tbs }
    {
        self.cert().verify_issuer_claim(issuer.cert()).is_ok()
    }

    /// What its content says: by some choice of how contents are read, the octets of the object say
    /// this, in the mode that they were read in.
    pub fn content(&self) -> &T
        ensures value { result.now ≡ self.now.content }
        ensures said { IsKeptWhole T.kind.type T.form self.now }
    {
        &self.content
    }

    /// What its content says, by value.
    pub fn into_content(self) -> T
        ensures { result ≡ self.content }
    {
        let (object, content) = self.into_parts();
        drop(object);
        content
    }

    /// What writes the octets of the object as they were read, where they are DER, and answers
    /// `NotDer` where they were read in BER.
    pub fn encode_ref(&self) -> CapturedEncoder<'_>
        ensures octets { result.0.now.octets ≡ self.now.object.object.octets }
        ensures mode { result.0.now.mode ≡ self.now.object.mode }
        ensures written { SignedForm self.now.object.mode self.now.object.object.octets
            self.now.object.object }
    {
        self.object.encode_ref()
    }

    /// The octets of the object as they were read, where they are DER. Refuses by `NotDer` where
    /// they were read in BER, and else only for want of memory.
    pub fn to_captured(&self) -> Result<Bytes, EncodeError>
        ensures octets { IfOk result (λ octets. octets ≡ self.now.object.object.octets) }
        ensures der { self.now.object.mode ≡ Der → IfErr result (λ e. e ≡ Memory) }
        ensures ber { self.now.object.mode ≡ Ber → result ≡ Err NotDer }
    {
        self.object.to_captured()
    }
}

impl<T: Content> Deref for Signed<T> {
    type Target = T;

    ghost deref_gives = { λ s content. content ≡ s.content };

    fn deref(&self) -> &T {
        self.content()
    }
}
