//! Manifests as signed objects (RFC 9286).

ghost use Rattle.std.specs.Prelude.{◌≡◌};
ghost use Rattle.rpki_faults.specs.Checks.{AnswersFirstOr};
ghost use Rattle.rpki_faults.specs.declared.validation.ValidationError.TheVariants.{Memory};
ghost use Rattle.rpki_files.specs.Manifest.{Manifest as Said};
ghost use Rattle.rpki_sigobj.specs.Signed.{KeptWhole};
ghost use Rattle.rpki_sigobj.specs.Validate.{object_validation, IsCertUnder};

use crate::manifest::ManifestContent;
use bytes::Bytes;
use rpki_basics::{Clock, Crypto, ManifestRule, Time};
use rpki_certs::{Cert, ResourceCert};
use rpki_der::{DecodeError, Oid};
use rpki_faults::ValidationError;
use rpki_sigobj::{Content, Signed, oid_of};
use std::alloc::Global;

/// A manifest as a signed object, whose content is in DER (RFC 9286, section 4), with the names of
/// files that the rule takes.
pub type Manifest = Signed<ManifestContent>;

// id-ct-rpkiManifest (RFC 9286, section 4.1).
const CT_MANIFEST: [u8; 11] = [
    0x2A, 0x86, 0x48, 0x86, 0xF7, 0x0D, 0x01, 0x09, 0x10, 0x01, 0x1A,
];

impl Content for ManifestContent {
    ghost use Rattle.rpki_der.specs.declared.mode.Mode.TheVariants.{Der};
    ghost use Rattle.rpki_files.specs.Manifest.{ManifestForm};
    ghost use Rattle.rpki_files.specs.Manifest.Checks.{manifest_kind};

    type Rule = ManifestRule;

    ghost kind = { manifest_kind };

    ghost form = { λ rule. ManifestForm rule Der };

    ghost is_content = { λ _. Unit {0} };

    ghost copies = { λ x copy e. e };

    fn oid() -> Oid {
        oid_of(&CT_MANIFEST)
    }

    fn is_published() -> bool {
        true
    }

    fn read(
        alloc: Global,
        source: Bytes,
        rule: ManifestRule,
    ) -> Result<ManifestContent, DecodeError> {
        ManifestContent::decode(alloc, source, rule)
    }

    fn verify_claims(&self, _cert: &Cert) -> Result<(), ValidationError> {
        Ok(())
    }

    fn verify_held(&self, _cert: &ResourceCert) -> Result<(), ValidationError> {
        Ok(())
    }

    fn meaning() {}
}

/// What a manifest is asked beside what each object is (a trait, since `Signed` is a type of
/// another crate).
pub trait ValidateManifest: Sized {
    // The manifest, with its signed object.
    ghost seen: { Self → KeptWhole Said };

    /// Validates it under its issuer, at this moment (RFC 6488, section 3; RFC 9286, section 4.4).
    /// Validates and refuses as `SignedObject::validate_at` does. Answers the validated certificate
    /// and the content. Whether the certificate was revoked is left to the caller.
    fn validate_at<C: Crypto>(
        self,
        alloc: Global,
        issuer: &ResourceCert,
        strict: bool,
        crypto: &C,
        now: Time,
    ) -> Result<(ResourceCert, ManifestContent), ValidationError>
        ensures { AnswersFirstOr Memory (object_validation (C.digest_of crypto.now)
            (C.is_signed crypto.now) (seen self).object.object.signed issuer.now now)
            (λ a. IsCertUnder (seen self).object issuer.now a.0 × (a.1 ≡ (seen self).content))
            result };

    /// Validates it under its issuer, at the moment that the clock tells. Validates and refuses as
    /// `validate_at` does.
    fn validate<C: Crypto, K: Clock>(
        self,
        alloc: Global,
        issuer: &ResourceCert,
        strict: bool,
        crypto: &C,
        clock: &K,
    ) -> Result<(ResourceCert, ManifestContent), ValidationError>
        ensures { AnswersFirstOr Memory (object_validation (C.digest_of crypto.now)
            (C.is_signed crypto.now) (seen self).object.object.signed issuer.now
            (K.moment clock.now))
            (λ a. IsCertUnder (seen self).object issuer.now a.0 × (a.1 ≡ (seen self).content))
            result };
}

impl ValidateManifest for Manifest {
    ghost seen = { λ manifest. manifest };

    fn validate_at<C: Crypto>(
        self,
        alloc: Global,
        issuer: &ResourceCert,
        strict: bool,
        crypto: &C,
        now: Time,
    ) -> Result<(ResourceCert, ManifestContent), ValidationError> {
        let (object, content) = self.into_parts();
        let cert = object.validate_at(alloc, issuer, strict, crypto, now)?;
        Ok((cert, content))
    }

    fn validate<C: Crypto, K: Clock>(
        self,
        alloc: Global,
        issuer: &ResourceCert,
        strict: bool,
        crypto: &C,
        clock: &K,
    ) -> Result<(ResourceCert, ManifestContent), ValidationError> {
        self.validate_at(alloc, issuer, strict, crypto, clock.now())
    }
}
