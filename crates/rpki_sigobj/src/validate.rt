//! The validation of signed objects.

ghost use Rattle.rpki_faults.specs.Checks.{AnswersFirstOr};
ghost use Rattle.rpki_faults.specs.declared.validation.ValidationError.TheVariants.{Memory};
ghost use Rattle.rpki_sigobj.specs.Validate.{object_validation, detached_validation, IsCertUnder};

use crate::object::SignedObject;
use rpki_basics::{Clock, Crypto, Time};
use rpki_certs::ResourceCert;
use rpki_faults::ValidationError;
use std::alloc::Global;

impl SignedObject {
    /// Validates it under its issuer, at this moment (RFC 6488, section 3): that its signer is the
    /// key of its certificate, the digest of its content, that it was not signed after the
    /// certificate had expired, its signature, and then the certificate, as that of an end entity
    /// that signed a published object. `strict` changes nothing.
    ///
    /// Refuses by the fault of the first check that does not hold, in this order: `SidMismatch`,
    /// `DigestMismatch`, `SigningTime`, `BadSignature`, and those of `Cert::validate_ee_at`; or by
    /// `Memory`. That the content is digested once, no clause says.
    pub fn validate_at<C: Crypto>(
        self,
        alloc: Global,
        issuer: &ResourceCert,
        strict: bool,
        crypto: &C,
        now: Time,
    ) -> Result<ResourceCert, ValidationError>
        ensures { AnswersFirstOr Memory (object_validation (C.digest_of crypto.now)
            (C.is_signed crypto.now) self.object.signed issuer.now now)
            (IsCertUnder self issuer.now) result }
    {
        match self.verify_signed(alloc, crypto) {
            Err(e) => {
                drop(self);
                Err(e)
            }
            Ok(()) => self
                .into_cert()
                .validate_ee_at(alloc, issuer, strict, crypto, now),
        }
    }

    /// Validates it under its issuer, at the moment that the clock tells. Validates and refuses as
    /// `validate_at` does.
    pub fn validate<C: Crypto, K: Clock>(
        self,
        alloc: Global,
        issuer: &ResourceCert,
        strict: bool,
        crypto: &C,
        clock: &K,
    ) -> Result<ResourceCert, ValidationError>
        ensures { AnswersFirstOr Memory (object_validation (C.digest_of crypto.now)
            (C.is_signed crypto.now) self.object.signed issuer.now (K.moment clock.now))
            (IsCertUnder self issuer.now) result }
    {
        self.validate_at(alloc, issuer, strict, crypto, clock.now())
    }

    /// Validates an object that need not be published, as a checklist (RFC 9323, section 2), under
    /// its issuer, at this moment, as `validate_at` does. Refuses as it does, with the faults of
    /// `Cert::validate_detached_ee_at` in place of those of `Cert::validate_ee_at`.
    pub fn validate_detached_at<C: Crypto>(
        self,
        alloc: Global,
        issuer: &ResourceCert,
        strict: bool,
        crypto: &C,
        now: Time,
    ) -> Result<ResourceCert, ValidationError>
        ensures { AnswersFirstOr Memory (detached_validation (C.digest_of crypto.now)
            (C.is_signed crypto.now) self.object.signed issuer.now now)
            (IsCertUnder self issuer.now) result }
    {
        match self.verify_signed(alloc, crypto) {
            Err(e) => {
                drop(self);
                Err(e)
            }
            Ok(()) => self
                .into_cert()
                .validate_detached_ee_at(alloc, issuer, strict, crypto, now),
        }
    }

    /// Validates an object that need not be published, under its issuer, at the moment that the
    /// clock tells. Validates and refuses as `validate_detached_at` does.
    pub fn validate_detached<C: Crypto, K: Clock>(
        self,
        alloc: Global,
        issuer: &ResourceCert,
        strict: bool,
        crypto: &C,
        clock: &K,
    ) -> Result<ResourceCert, ValidationError>
        ensures { AnswersFirstOr Memory (detached_validation (C.digest_of crypto.now)
            (C.is_signed crypto.now) self.object.signed issuer.now (K.moment clock.now))
            (IsCertUnder self issuer.now) result }
    {
        self.validate_detached_at(alloc, issuer, strict, crypto, clock.now())
    }
}
