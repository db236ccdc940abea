//! The validation of signed objects, and what a caller says of their certificates.

ghost use Rattle.std.specs.Prelude.{◌≡◌, []};
ghost use Rattle.std.specs.Fn.{FnOnceTakesAt, FnOnceReturnsAt};
ghost use Rattle.rpki_faults.specs.Checks.{AllHold, AnswersFirst};
ghost use Rattle.rpki_faults.specs.declared.validation.ValidationError.TheVariants.{Memory};
ghost use Rattle.rpki_sigobj.specs.Object.{cert_of};
ghost use Rattle.rpki_sigobj.specs.Process.{AnswersThen, AsksThen};
ghost use Rattle.rpki_sigobj.specs.Validate.{object_validation, IsCertUnder};

use crate::object::SignedObject;
use bytes::Bytes;
use rpki_basics::{Clock, Crypto};
use rpki_certs::{Cert, ResourceCert};
use rpki_faults::ValidationError;
use std::alloc::Global;

// What the caller says of the certificate.
fn asked<F: FnOnce(&Cert) -> Result<(), ValidationError>>(
    cert: &ResourceCert,
    check_crl: F,
) -> Result<(), ValidationError>
    requires { FnOnceTakesAt F.FnOnce check_crl cert.now.cert }
    ensures { FnOnceReturnsAt F.FnOnce check_crl cert.now.cert result }
{
    check_crl(cert.cert())
}

impl SignedObject {
    /// Validates it as `validate` does, and then asks whether its certificate was revoked. Answers
    /// the validated certificate and the content.
    ///
    /// Refuses as `validate` does. `check_crl` is called once at most, where each check holds, with
    /// the certificate, and what it refuses by is refused.
    pub fn process<C: Crypto, K: Clock, F: FnOnce(&Cert) -> Result<(), ValidationError>>(
        self,
        alloc: Global,
        issuer: &ResourceCert,
        strict: bool,
        crypto: &C,
        clock: &K,
        check_crl: F,
    ) -> Result<(ResourceCert, Bytes), ValidationError>
        requires { AllHold (object_validation (C.digest_of crypto.now) (C.is_signed crypto.now)
            self.object.signed issuer.now (K.moment clock.now))
            → FnOnceTakesAt F.FnOnce check_crl (cert_of self) }
        ensures { AnswersThen Memory (object_validation (C.digest_of crypto.now)
            (C.is_signed crypto.now) self.object.signed issuer.now (K.moment clock.now))
            (AsksThen (λ said. FnOnceReturnsAt F.FnOnce check_crl (cert_of self) said)
            (AnswersFirst [] (λ p. IsCertUnder self issuer.now p.0
            × (p.1 ≡ self.object.signed.content)))) result }
    {
        let Ok(content) = self.content().clone() else {
            drop(self);
            return Err(ValidationError::Memory);
        };
        let cert = self.validate(alloc, issuer, strict, crypto, clock)?;
        match asked(&cert, check_crl) {
            Ok(()) => Ok((cert, content)),
            Err(e) => {
                drop(cert);
                Err(e)
            }
        }
    }
}
