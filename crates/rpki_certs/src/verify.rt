//! Whether certificates are good under their issuer, at a moment.

ghost use Rattle.rpki_faults.specs.Checks.{AnswersFirstFault};
ghost use Rattle.rpki_certs.specs.Verify.{claim_checks, validity_checks, signature_checks};
ghost use Rattle.rpki_certs.specs.Verify.{ta_ref_checks};

use crate::cert::{Cert, are_same};
use rpki_basics::{Crypto, Time};
use rpki_faults::VerificationError;

impl Cert {
    /// Whether it says that this issuer issued it: the identifier of its issuer's key is that of
    /// this issuer (RFC 6487, section 4.8.3). Names are not compared. Refuses by `IssuerClaim`
    /// where it is another one, or where there is none.
    pub fn verify_issuer_claim(&self, issuer: &Cert) -> Result<(), VerificationError>
        ensures { AnswersFirstFault
            (claim_checks issuer.now.certificate.tbs self.now.certificate.tbs) result }
    {
        match self.authority_key_identifier() {
            None => Err(VerificationError::IssuerClaim),
            Some(authority) => {
                if are_same(authority, issuer.subject_key_identifier()) {
                    Ok(())
                } else {
                    Err(VerificationError::IssuerClaim)
                }
            }
        }
    }

    /// Whether this moment lies in the time in which it is valid. Both ends belong to it (RFC 5280,
    /// section 4.1.2.5). Refuses an earlier moment by `NotYetValid`, and a later one by `Expired`.
    pub fn verify_validity(&self, now: Time) -> Result<(), VerificationError>
        ensures { AnswersFirstFault (validity_checks self.now.certificate.tbs.validity now) result }
    {
        let validity = self.validity();
        if now < validity.not_before() {
            return Err(VerificationError::NotYetValid);
        }
        if now > validity.not_after() {
            return Err(VerificationError::Expired);
        }
        Ok(())
    }

    /// Whether the key of this issuer signed it (RFC 5280, section 6.1.3). What was signed are the
    /// octets as they were read. Refuses by `BadSignature` where it did not.
    pub fn verify_signature<C: Crypto>(
        &self,
        issuer: &Cert,
        crypto: &C,
    ) -> Result<(), VerificationError>
        ensures { AnswersFirstFault (signature_checks (C.is_signed crypto.now)
            issuer.now.certificate.tbs.key self.now.certificate) result }
    {
        let key = issuer.subject_public_key_info();
        if crypto.verify(key, self.signed(), self.signature()) {
            Ok(())
        } else {
            Err(VerificationError::BadSignature)
        }
    }

    /// Verifies the certificate of a trust anchor, which its own key signed (RFC 8630, section 3):
    /// the moment, then the signature. `strict` changes nothing. Refuses by the fault of the first
    /// check that does not hold, in this order: `NotYetValid`, `Expired`, `BadSignature`.
    pub fn verify_ta_ref_at<C: Crypto>(
        &self,
        _strict: bool,
        crypto: &C,
        now: Time,
    ) -> Result<(), VerificationError>
        ensures { AnswersFirstFault
            (ta_ref_checks (C.is_signed crypto.now) self.now.certificate now) result }
    {
        self.verify_validity(now)?;
        self.verify_signature(self, crypto)
    }
}
