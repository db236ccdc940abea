//! Manifests of contents that are signed (RFC 9286, sections 4 and 5.1).

ghost use Rattle.std.specs.Prelude.{◌≡◌, ◌↔◌, ◌<◌, ◌^◌, ℕ, List, IfErr, IfOk, OnOk, length};
ghost use Rattle.rpki_basics.specs.Signing.{CountsError};
ghost use Rattle.rpki_der.specs.Write.Encode.{IsBytesOf};
ghost use Rattle.rpki_der.specs.declared.mode.Mode.TheVariants.{Der};
ghost use Rattle.rpki_sigobj.specs.Signed.{ObjectForm, whole_of};
ghost use Rattle.rpki_signing.specs.Built.{AreSignatures, IsBuilt, NamesInDer};
ghost use Rattle.rpki_signing.specs.Written.{made_object};
ghost use Rattle.rpki_files.specs.Manifest.Files.{MeetsRule};
ghost use Rattle.rpki_files.specs.Manifest.{ManifestForm, manifest_contents, manifest_octets};
ghost use Rattle.rpki_files.specs.Manifest.Signed.{IsNotSigned, inheriting};
ghost use Rattle.rpki_files.specs.Manifest.Checks.{ct_manifest};

use crate::manifest::{Manifest, ManifestContent};
use rpki_basics::{ManifestRule, Signer, SigningError};
use rpki_der::{Encode, EncodeError};
use rpki_signing::SignedObjectBuilder;
use std::alloc::Global;

// The builder, but that all numbers are inherited.
fn inheriting(builder: SignedObjectBuilder) -> SignedObjectBuilder
    ensures { result ≡ inheriting builder }
{
    let mut builder = builder;
    builder.set_as_resources_inherit();
    builder.set_v4_resources_inherit();
    builder.set_v6_resources_inherit();
    builder
}

impl ManifestContent {
    // The octets of the content.
    fn octets(&self, alloc: Global) -> Result<Vec<u8>, EncodeError>
        ensures octets { IsBytesOf (Unit {0}) (length (manifest_contents self.now) < 2 ^ 32)
            (manifest_octets self.now) result }
        ensures form { (rule : ManifestRule) → MeetsRule rule self.now.files
            → length (manifest_contents self.now) < 2 ^ 32
            → ManifestForm rule Der (manifest_octets self.now) self.now }
    {
        self.encode_ref().to_bytes(alloc)
    }

    /// The manifest of this content: its octets as a signed object, whose certificate inherits all
    /// numbers (RFC 9286, section 5.1), whatever the builder claims. Signs and refuses as
    /// `SignedObjectBuilder::finalize` does, and refuses by `TooLong` where the content has
    /// contents of 2^32 octets or more; no condition is put on the builder.
    pub fn into_manifest<S: Signer>(
        self,
        alloc: Global,
        builder: SignedObjectBuilder,
        signer: &mut S,
        issuer_key: &S::KeyId,
    ) -> Result<Manifest, SigningError<S::Error>>
        ensures content { IfOk result (λ o. o.content ≡ self) }
        ensures form { (rule : ManifestRule) → MeetsRule rule self.files → IfOk result (λ o.
            ObjectForm ct_manifest (ManifestForm rule Der) Der o.object.object.octets
            (whole_of o)) }
        ensures built { IfOk result (λ o. IsBuilt (inheriting builder)
            (S.key_of signer.old issuer_key.now) ct_manifest (manifest_octets self)
            (S.digest_of signer.old (manifest_octets self)) o.object.object.signed) }
        ensures der { IfOk result (λ o. o.object.mode ≡ Der) }
        ensures written { IfOk result
            (λ o. o.object.object ≡ made_object o.object.object.signed) }
        ensures signatures { IfOk result (λ o. AreSignatures (S.may_sign signer.old)
            (S.key_of signer.old issuer_key.now) o.object.object.signed) }
        ensures one_off { IfOk result
            (λ o. S.is_one_off signer.old o.object.object.signed.cert.tbs.key) }
        ensures names { OnOk result (NamesInDer builder) }
        ensures refused { IfErr result (IsNotSigned (S.may_sign signer.old)
            (S.is_one_off signer.old) builder (S.key_of signer.old issuer_key.now)
            (S.digest_of signer.old) self) }
        ensures cause { CountsError (S.failures signer.old) (S.failures signer.new) result }
        ensures keys { (k : S.KeyId) → S.key_of signer.new k ≡ S.key_of signer.old k }
        ensures signs { (k m s : List ℕ) →
            S.may_sign signer.new k m s ↔ S.may_sign signer.old k m s }
        ensures digests { (m : List ℕ) → S.digest_of signer.new m ≡ S.digest_of signer.old m }
        ensures verdicts { (k m s : List ℕ) →
            S.is_signed signer.new k m s ≡ S.is_signed signer.old k m s }
        ensures once { (k : List ℕ) → S.is_one_off signer.new k ↔ S.is_one_off signer.old k }
    {
        match self.octets(alloc) {
            Err(EncodeError::TooLong) => {
                drop(self);
                drop(builder);
                Err(SigningError::TooLong)
            }
            Err(_) => {
                drop(self);
                drop(builder);
                Err(SigningError::Memory)
            }
            Ok(octets) => {
                let builder = inheriting(builder);
                builder.finalize_content(alloc, self, &octets, signer, issuer_key)
            }
        }
    }
}
