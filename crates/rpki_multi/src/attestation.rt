//! Multi-signed attestations (draft-michaelson-rpki-rta).

ghost use Rattle.std.specs.Prelude.{◌≡◌, ◌⊎◌, ◌<◌, ◌^◌, IfOk, IfErr, length};
ghost use Rattle.rpki_der.specs.declared.mode.Mode.TheVariants.{Der};
ghost use Rattle.rpki_der.specs.declared.encode.EncodeError.TheVariants.{TooLong, Memory};
ghost use Rattle.rpki_der.specs.Form.Decodes.{Decodes};
ghost use Rattle.rpki_der.specs.Write.Encode.{Fits};
ghost use Rattle.rpki_tagged.specs.Attestation.{AttestationForm};
ghost use Rattle.rpki_multi.specs.Attestation.{RtaForm, IsKeptRta, whole_of};
ghost use Rattle.rpki_multi.specs.Multi.{AreIn};
ghost use Rattle.rpki_multi.specs.Written.{multi_contents, multi_octets};

use crate::multi::{MultiSignedObject, MultiSignedObjectEncoder};
use bytes::Bytes;
use rpki_der::{DecodeError, Encode, EncodeError};
use rpki_tagged::ResourceTaggedAttestation;
use std::alloc::{AllocError, Global};
use std::marker::Model;
use std::ops::Deref;

/// A multi-signed attestation (draft-michaelson-rpki-rta): the object, and what its content says.
/// All of it was read or made in DER.
#[derive(Debug, Drop)]
pub struct Rta {
    signed: MultiSignedObject,
    content: ResourceTaggedAttestation,
}

impl Model for Rta {
    ghost use Rattle.rpki_multi.specs.Attestation.{KeptWhole, IsKeptRta};

    ghost Value = { KeptWhole };

    ghost view = { λ r. record { signed = r.signed; content = r.content } };

    ghost invariant = { λ r. IsKeptRta (record { signed = r.signed; content = r.content }) };
}

// Reads what the content of an object begins with.
fn read_content(
    alloc: Global,
    signed: &MultiSignedObject,
) -> Result<ResourceTaggedAttestation, DecodeError>
    ensures { Decodes (AttestationForm Der) (λ a. a) signed.now.content result }
{
    match signed.content().clone() {
        Err(_) => Err(DecodeError::Memory),
        Ok(octets) => ResourceTaggedAttestation::decode(alloc, octets),
    }
}

impl Rta {
    // The attestation of an object in DER, and of what its content begins with.
    pub(crate) fn of(signed: MultiSignedObject, content: ResourceTaggedAttestation) -> Rta
        requires { IsKeptRta (record { signed = signed; content = content }) }
        ensures { result ≡ record { signed = signed; content = content } }
    {
        Rta { signed, content }
    }

    // The object, and what its content begins with.
    pub(crate) fn into_parts(self) -> (MultiSignedObject, ResourceTaggedAttestation)
        ensures signed { result.0 ≡ self.signed }
        ensures content { result.1 ≡ self.content }
        ensures kept { IsKeptRta self }
    {
        let Rta { signed, content } = self;
        (signed, content)
    }

    /// Reads the attestation at the front of the source, by the rules of DER. Octets after it are
    /// left, and so are those after what the content says. Refuses by what multi-signed objects and
    /// contents are refused by, or by `Memory`.
    pub fn decode(alloc: Global, source: Bytes) -> Result<Rta, DecodeError>
        ensures { Decodes (RtaForm Der) whole_of source result }
    {
        match MultiSignedObject::decode(alloc, source) {
            Err(e) => Err(e),
            Ok(signed) => match read_content(alloc, &signed) {
                Err(e) => {
                    drop(signed);
                    Err(e)
                }
                Ok(content) => Ok(Rta { signed, content }),
            },
        }
    }

    /// What its content says: the octets of the content begin with it, in DER.
    pub fn content(&self) -> &ResourceTaggedAttestation
        ensures value { result.now ≡ self.now.content }
        ensures said { IsKeptRta self.now }
    {
        &self.content
    }

    /// The object.
    pub fn signed(&self) -> &MultiSignedObject
        ensures value { result.now ≡ self.now.signed }
        ensures mode { AreIn Der self.now.signed }
    {
        &self.signed
    }

    /// The attestation, to be written in DER, as `MultiSignedObject::encode_ref` does.
    pub fn encode_ref(&self) -> MultiSignedObjectEncoder<'_>
        ensures value { result ≡ self.now.signed }
        ensures mode { AreIn Der self.now.signed }
        ensures written { length (multi_contents self.now.signed) < 2 ^ 32
            → RtaForm Der (multi_octets self.now.signed) (whole_of self.now) }
    {
        self.signed.encode_ref()
    }

    /// Its octets in DER. Refuses by `TooLong` where its contents have 2^32 octets or more, and
    /// else only for want of memory.
    pub fn to_captured(&self, alloc: Global) -> Result<Bytes, EncodeError>
        ensures octets { IfOk result (λ octets. octets ≡ multi_octets self.now.signed) }
        ensures written { IfOk result (λ octets. RtaForm Der octets (whole_of self.now)) }
        ensures refused { IfErr result (λ e. (e ≡ Memory) ⊎ ((e ≡ TooLong)
            × ¬ (Fits (length (multi_contents self.now.signed) < 2 ^ 32)
            (multi_octets self.now.signed)))) }
    {
        match self.encode_ref().to_bytes(alloc) {
            Err(e) => Err(e),
            Ok(octets) => match Bytes::from_vec(octets) {
                Ok(octets) => Ok(octets),
                Err(_) => Err(EncodeError::Memory),
            },
        }
    }
}

impl Deref for Rta {
    type Target = ResourceTaggedAttestation;

    ghost deref_gives = { λ r content. content ≡ r.content };

    fn deref(&self) -> &ResourceTaggedAttestation {
        self.content()
    }
}

impl Clone for Rta {
    ghost is_clone = { λ r copy. copy ≡ r };

    fn clone(&self) -> Result<Rta, AllocError> {
        let content = self.content.clone()?;
        match self.signed.clone() {
            Err(e) => {
                drop(content);
                Err(e)
            }
            Ok(signed) => Ok(Rta { signed, content }),
        }
    }
}
