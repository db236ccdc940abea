//! Whether signed objects are signed by the key of their certificate.

ghost use Rattle.rpki_faults.specs.Checks.{AnswersFirstFault, AnswersFirstOr, ◌as_faults_of◌};
ghost use Rattle.rpki_faults.specs.declared.validation.ValidationError.TheVariants.{Memory};
ghost use Rattle.rpki_faults.specs.declared.validation.ValidationError.TheVariants.{Verification};
ghost use Rattle.rpki_sigobj.specs.Verify.{signer_checks, digest_checks, time_checks};
ghost use Rattle.rpki_sigobj.specs.Verify.{content_checks, signature_checks, object_checks};

use crate::object::SignedObject;
use rpki_basics::Crypto;
use rpki_faults::{InspectionError, ValidationError, VerificationError};
use std::alloc::Global;

impl SignedObject {
    // Inspects whether the signer is the key of the certificate.
    fn inspect_signer(&self) -> Result<(), InspectionError>
        ensures { AnswersFirstFault (signer_checks self.now.object.signed) result }
    {
        let identifier = self.cert().subject_key_identifier();
        if self.sid().as_slice() == identifier.as_slice() {
            Ok(())
        } else {
            Err(InspectionError::SidMismatch)
        }
    }

    // Verifies the digest of the content.
    fn verify_digest<C: Crypto>(&self, crypto: &C) -> Result<(), VerificationError>
        ensures { AnswersFirstFault (digest_checks (C.digest_of crypto.now) self.now.object.signed)
            result }
    {
        let digest = crypto.digest(self.content().as_slice());
        if self.attributes().message_digest().as_slice() == digest.as_slice() {
            Ok(())
        } else {
            Err(VerificationError::DigestMismatch)
        }
    }

    // Verifies that it was not signed after its certificate had expired.
    fn verify_time(&self) -> Result<(), VerificationError>
        ensures { AnswersFirstFault (time_checks self.now.object.signed) result }
    {
        if self.signing_time() > self.cert().validity().not_after() {
            return Err(VerificationError::SigningTime);
        }
        Ok(())
    }

    // Verifies what was signed.
    fn verify_content<C: Crypto>(&self, crypto: &C) -> Result<(), VerificationError>
        ensures { AnswersFirstFault (content_checks (C.digest_of crypto.now) self.now.object.signed)
            result }
    {
        self.verify_digest(crypto)?;
        self.verify_time()
    }

    // Verifies the signature.
    fn verify_signature<C: Crypto>(&self, alloc: Global, crypto: &C) -> Result<(), ValidationError>
        ensures { AnswersFirstOr Memory (Verification as_faults_of
            signature_checks (C.is_signed crypto.now) self.now.object.signed) (λ _. Unit {0})
            result }
    {
        let message = self.attributes().encode_verify(alloc)?;
        let key = self.cert().subject_public_key_info();
        if crypto.verify(key, message.as_slice(), self.signature()) {
            Ok(())
        } else {
            Err(ValidationError::Verification(VerificationError::BadSignature))
        }
    }

    /// Whether it is well signed: by the key of its certificate, over the digest of its content,
    /// and not after the certificate had expired.
    pub(crate) fn verify_signed<C: Crypto>(
        &self,
        alloc: Global,
        crypto: &C,
    ) -> Result<(), ValidationError>
        ensures { AnswersFirstOr Memory (object_checks (C.digest_of crypto.now)
            (C.is_signed crypto.now) self.now.object.signed) (λ _. Unit {0}) result }
    {
        self.inspect_signer()?;
        self.verify_content(crypto)?;
        self.verify_signature(alloc, crypto)
    }
}
