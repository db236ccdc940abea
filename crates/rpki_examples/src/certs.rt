//! Certificates, as those who go down from a trust anchor validate them.

ghost use Rattle.std.specs.Prelude.{◌≡◌, ◌↔◌, IsTrue, IfOk};
ghost use Rattle.rpki_faults.specs.Checks.{AllHold, AnswersFirstFault};
ghost use Rattle.rpki_certs.specs.Inspect.{ca_checks};
ghost use Rattle.rpki_certs.specs.Validate.{Validated, AreHeld, IsGoodAnchor, IsGoodUnder};
ghost use Rattle.rpki_certs.specs.Validate.{IsAnchorOf, issuing_checks};

use rpki::cert::laws::{numbers_are_held, valid_anchors, valid_certificates};
use rpki::cert::{Cert, ResourceCert};
use rpki::crypto::Crypto;
use rpki::error::{ValidationError, VerificationError};
use rpki::x509::Time;
use std::alloc::Global;

/// Whether a certificate passes as one of a CA that another CA issued.
pub fn is_of_ca(cert: &Cert) -> bool
    ensures { IsTrue result ↔ AllHold (ca_checks cert.now.certificate.tbs) }
{
    match cert.inspect_ca() {
        Ok(()) => true,
        Err(_) => false,
    }
}

/// Whether a certificate is good under that of its issuer at this moment: what it says of the
/// issuer is looked at first, then the moment, then the signature.
pub fn verify_under<C: Crypto>(
    cert: &Cert,
    issuer: &Cert,
    crypto: &C,
    now: Time,
) -> Result<(), VerificationError>
    ensures { AnswersFirstFault (issuing_checks (C.is_signed crypto.now)
        cert.now.certificate issuer.now.certificate now) result }
{
    cert.verify_issuer_claim(issuer)?;
    cert.verify_validity(now)?;
    cert.verify_signature(issuer, crypto)
}

/// The certificate of a CA with its numbers, under an issuer that was validated. It is good, and
/// all its numbers are the issuer's.
pub fn authority_under<C: Crypto>(
    alloc: Global,
    cert: Cert,
    issuer: &ResourceCert,
    crypto: &C,
    now: Time,
) -> Result<ResourceCert, ValidationError>
    ensures good { IfOk result
        (λ _. IsGoodUnder (C.is_signed crypto.now) cert.certificate issuer.now now) }
    ensures held { IfOk result
        (λ made. (made.cert ≡ cert) × AreHeld issuer.now.sets made.sets) }
{
    valid_certificates();
    numbers_are_held();
    cert.validate_ca_at(alloc, issuer, true, crypto, now)
}

/// The certificate of a CA with its numbers, under that of a trust anchor: the numbers are among
/// those that the trust anchor claims.
pub fn authority_of<C: Crypto>(
    alloc: Global,
    anchor: Cert,
    cert: Cert,
    crypto: &C,
    now: Time,
) -> Result<ResourceCert, ValidationError>
    ensures { IfOk result (λ made. (issuer : Validated) × IsAnchorOf anchor issuer
        × IsGoodAnchor (C.is_signed crypto.now) anchor.certificate now
        × IsGoodUnder (C.is_signed crypto.now) cert.certificate issuer now
        × (made.cert ≡ cert) × AreHeld issuer.sets made.sets) }
{
    valid_anchors();
    match anchor.validate_ta_at(alloc, true, crypto, now) {
        Err(error) => {
            drop(cert);
            Err(error)
        }
        Ok(anchor) => {
            let made = authority_under(alloc, cert, &anchor, crypto, now);
            drop(anchor);
            made
        }
    }
}
