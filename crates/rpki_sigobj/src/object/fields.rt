//! What a signed object says.

ghost use Rattle.std.specs.Prelude.{◌≡◌, ◌⊎◌, Result, Err};
ghost use Rattle.std.specs.Fn.{FnOnceReturnsAtMut};
ghost use Rattle.rpki_der.specs.declared.error.DecodeError.{DecodeError};
ghost use Rattle.rpki_der.specs.declared.error.DecodeError.TheVariants.{Memory};
ghost use Rattle.rpki_der.specs.declared.mode.Mode.TheVariants.{Der};
ghost use Rattle.rpki_der.specs.Read.Reads.{not_failed};
ghost use Rattle.rpki_der.specs.Read.State.{State, fresh};
ghost use Rattle.rpki_basics.specs.declared.algorithm.DigestAlgorithm.TheVariants.{Sha256};
ghost use Rattle.rpki_sigobj.specs.Object.{cert_of};

use crate::object::SignedObject;
use bytes::Bytes;
use rpki_basics::{DigestAlgorithm, Time};
use rpki_certs::Cert;
use rpki_der::{Constructed, DecodeError, Mode, Oid};

impl SignedObject {
    /// The type of its content (RFC 5652, section 5.2).
    pub fn content_type(&self) -> &Oid
        ensures { result.now ≡ self.now.object.signed.content_type }
    {
        &self.contents.content_type
    }

    /// The octets of its content (RFC 5652, section 5.2). Where they were read in pieces, they are
    /// joined.
    pub fn content(&self) -> &Bytes
        ensures { result.now ≡ self.now.object.signed.content }
    {
        &self.contents.content
    }

    /// Reads the content, by the rules of DER, whatever mode the object was read in. Refuses by the
    /// error of `op`, by that which its reader has answered, or by `Memory`.
    pub fn decode_content<T: Drop, F: FnOnce(&mut Constructed<'_>) -> Result<T, DecodeError>>(
        &self,
        op: F,
    ) -> Result<T, DecodeError>
        requires { F.IsAlwaysCallable op }
        ensures { (result ≡ Err Memory) ⊎ ((r : Result T DecodeError) × (after : State)
            × FnOnceReturnsAtMut F.FnOnce op (fresh Der self.now.object.signed.content) r after
            × (result ≡ not_failed r after)) }
    {
        let content = self.contents.content.clone()?;
        Constructed::decode(content, Mode::Der, op)
    }

    /// The certificate of its signer (RFC 5652, section 5.1).
    pub fn cert(&self) -> &Cert
        ensures { result.now ≡ cert_of self.now }
    {
        &self.contents.cert
    }

    /// When it was signed, as its signer says (RFC 5652, section 11.3).
    pub fn signing_time(&self) -> Time
        ensures { result ≡ self.now.object.signed.signer.attributes.signing_time }
    {
        self.contents.signer.attributes.signing_time()
    }

    /// The algorithm of the digest of its content, of which there is one (RFC 7935, section 2).
    pub fn digest_algorithm(&self) -> DigestAlgorithm
        ensures { result ≡ Sha256 }
    {
        DigestAlgorithm::sha256()
    }

    /// The mode that it was read in.
    pub fn mode(&self) -> Mode
        ensures { result ≡ self.now.mode }
    {
        self.captured.mode()
    }
}
