//! Multi-signed objects.

mod encoder;
pub(crate) mod parts;
mod read;

ghost use Rattle.std.specs.Prelude.{◌≡◌, ◌⊎◌, ◌<◌, ◌^◌, ◌++◌, ℕ, List, length, IfOk};
ghost use Rattle.std.specs.Prelude.{Result, Err, Some};
ghost use Rattle.std.specs.Fn.{FnOnceReturnsAtMut};
ghost use Rattle.rpki_der.specs.declared.error.DecodeError.{DecodeError};
ghost use Rattle.rpki_der.specs.declared.error.DecodeError.TheVariants.{Memory};
ghost use Rattle.rpki_der.specs.declared.mode.Mode.{Mode};
ghost use Rattle.rpki_der.specs.declared.mode.Mode.TheVariants.{Der};
ghost use Rattle.rpki_der.specs.Form.Decodes.{Decodes, DecodesNext};
ghost use Rattle.rpki_der.specs.Read.Reads.{Reads, Stays, Found, not_failed};
ghost use Rattle.rpki_der.specs.Read.State.{State, fresh};
ghost use Rattle.rpki_multi.specs.Multi.{MultiForm, multi_of, multi_at, AreIn, AreKept};
ghost use Rattle.rpki_multi.specs.Written.{multi_contents, multi_octets};

use crate::signer::SignerInfo;
use bytes::Bytes;
pub use encoder::MultiSignedObjectEncoder;
use parts::Parts;
use rpki_certs::Cert;
use rpki_crls::Crl;
use rpki_der::laws::slices_hold_octets;
use rpki_der::{Constructed, DecodeError, Mode};
use std::alloc::{AllocError, Global};
use std::marker::Model;

/// A multi-signed object: a content with the certificates and the revocation lists that are carried
/// with it, and what its signers say (RFC 5652, section 5.1; draft-michaelson-rpki-rta, section 3).
#[derive(Debug, Drop)]
pub struct MultiSignedObject {
    parts: Parts,
}

impl Model for MultiSignedObject {
    ghost use Rattle.rpki_multi.specs.Multi.{KeptMulti, AreKept};

    ghost Value = { KeptMulti };

    ghost view = { λ m. m.parts };

    ghost invariant = { λ m. AreKept m.parts };
}

impl MultiSignedObject {
    // The object of these parts.
    pub(crate) fn of(parts: Parts) -> MultiSignedObject
        requires { AreKept parts }
        ensures { result ≡ parts }
    {
        MultiSignedObject { parts }
    }

    // Its parts.
    pub(crate) fn into_parts(self) -> Parts
        ensures { result ≡ self }
    {
        self.parts
    }
}

// Reads a multi-signed object.
fn take_object(cons: &mut Constructed<'_>, alloc: Global) -> Result<MultiSignedObject, DecodeError>
    ensures reads { Reads multi_of multi_at cons.old result cons.new }
    ensures mode { IfOk result (AreIn cons.old.mode) }
    ensures stays { Stays result cons.new }
{
    // The proof needs that each octet is below 256.
    cons.holds_octets();
    match read::take_multi(cons, alloc) {
        Err(e) => Err(e),
        Ok(parts) => Ok(MultiSignedObject::of(parts)),
    }
}

// Reads the object at the front.
fn read_front(alloc: Global, source: Bytes) -> Result<MultiSignedObject, DecodeError>
    ensures found { Found multi_of (multi_at Der source) result }
    ensures mode { IfOk result (AreIn Der) }
{
    Constructed::decode(source, Mode::Der, |cons| take_object(cons, alloc))
}

impl MultiSignedObject {
    /// Reads the multi-signed object at the front of the source, by the rules of DER (RFC 5652,
    /// section 3; draft-michaelson-rpki-rta, section 3). Octets after it are left. Refuses as
    /// `take_from` does.
    pub fn decode(alloc: Global, source: Bytes) -> Result<MultiSignedObject, DecodeError>
        ensures decodes { Decodes (MultiForm Der) multi_of source result }
        ensures mode { IfOk result (AreIn Der) }
    {
        slices_hold_octets(source.as_slice());
        read_front(alloc, source)
    }

    /// Reads a multi-signed object in the mode of the reader. In BER the certificates, revocation
    /// lists and signers are read in BER too, but for the values of extensions, which are DER.
    ///
    /// Refuses by `UNKNOWN_ALGORITHM`, by what certificates, revocation lists and signers are
    /// refused by, by `Malformed` for all else, or by `Memory`.
    pub fn take_from(
        alloc: Global,
        cons: &mut Constructed<'_>,
    ) -> Result<MultiSignedObject, DecodeError>
        ensures reads { Reads multi_of multi_at cons.old result cons.new }
        ensures decodes { DecodesNext MultiForm multi_of cons.old result cons.new }
        ensures mode { IfOk result (AreIn cons.old.mode) }
        ensures stays { Stays result cons.new }
    {
        cons.holds_octets();
        take_object(cons, alloc)
    }

    /// The octets of its content (RFC 5652, section 5.2). Where they were read in pieces, they are
    /// joined.
    pub fn content(&self) -> &Bytes
        ensures { result.now ≡ self.now.content }
    {
        &self.parts.content
    }

    /// Reads the content, by the rules of DER, whatever mode the object was read in. Refuses by the
    /// error of `op`, by that which its reader has answered, or by `Memory`.
    pub fn decode_content<T: Drop, F: FnOnce(&mut Constructed<'_>) -> Result<T, DecodeError>>(
        &self,
        op: F,
    ) -> Result<T, DecodeError>
        requires { F.IsAlwaysCallable op }
        ensures { (result ≡ Err Memory) ⊎ ((r : Result T DecodeError) × (after : State)
            × FnOnceReturnsAtMut F.FnOnce op (fresh Der self.now.content) r after
            × (result ≡ not_failed r after)) }
    {
        let content = self.parts.content.clone()?;
        Constructed::decode(content, Mode::Der, op)
    }

    /// The certificates that are carried, in their order (RFC 5652, section 5.1).
    pub fn certificates(&self) -> &[Cert]
        ensures { result.now ≡ self.now.certs }
    {
        self.parts.certs.as_slice()
    }

    /// The revocation lists that are carried, in their order (RFC 5652, section 5.1).
    pub fn crls(&self) -> &[Crl]
        ensures { result.now ≡ self.now.crls }
    {
        self.parts.crls.as_slice()
    }

    /// What the signers say, in their order (RFC 5652, section 5.3).
    pub fn signer_infos(&self) -> &[SignerInfo]
        ensures { result.now ≡ self.now.signers }
    {
        self.parts.signers.as_slice()
    }

    /// The mode that it was read in. What was made is DER.
    pub fn mode(&self) -> Mode
        ensures { result ≡ self.now.mode }
    {
        self.parts.mode
    }

    /// The object, to be written in DER: each certificate and each revocation list as it was read,
    /// and no SET of lists where there is none. Refuses by `NotDer` where it, or a certificate, a
    /// revocation list or a signer, was read in BER, and by `TooLong` where some contents has 2^32
    /// octets or more.
    pub fn encode_ref(&self) -> MultiSignedObjectEncoder<'_>
        ensures value { result ≡ self.now }
        ensures written { AreIn Der self.now → length (multi_contents self.now) < 2 ^ 32
            → MultiForm Der (multi_octets self.now) (multi_of self.now) }
        ensures read { AreIn Der self.now → length (multi_contents self.now) < 2 ^ 32
            → (mode : Mode) (rest : List ℕ)
            → multi_at mode (multi_octets self.now ++ rest) ≡ Some (multi_of self.now, rest) }
    {
        // What a value's type promises is known to the proof only where its field is read.
        let _ = &self.parts;
        MultiSignedObjectEncoder::new(self)
    }
}

impl Clone for MultiSignedObject {
    ghost is_clone = { λ m copy. copy ≡ m };

    fn clone(&self) -> Result<MultiSignedObject, AllocError> {
        let parts = self.parts.clone()?;
        Ok(MultiSignedObject { parts })
    }
}
