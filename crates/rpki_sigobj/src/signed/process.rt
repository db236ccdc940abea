//! The validation of objects with their contents.

ghost use Rattle.std.specs.Fn.{FnOnceTakesAt, FnOnceReturnsAt};
ghost use Rattle.rpki_faults.specs.Checks.{AllHold, AnswersFirstOr};
ghost use Rattle.rpki_faults.specs.declared.validation.ValidationError.TheVariants.{Memory};
ghost use Rattle.rpki_sigobj.specs.Object.{cert_of};
ghost use Rattle.rpki_sigobj.specs.Validate.{IsCertUnder};
ghost use Rattle.rpki_sigobj.specs.Signed.Process.{AnswersAsked};
ghost use Rattle.rpki_sigobj.specs.Signed.Process.{validation, before_revocation, AsksFirst};
ghost use Rattle.rpki_sigobj.specs.Signed.{whole_of};

use crate::object::SignedObject;
use crate::signed::{Content, Signed};
use rpki_basics::{Clock, Crypto, Time};
use rpki_certs::{Cert, ResourceCert};
use rpki_faults::ValidationError;
use std::alloc::Global;

// Under which issuer and at which moment an object is validated, and what computes digests and
// verifies signatures.
#[derive(Drop)]
struct Under<'a, C> {
    alloc: Global,
    issuer: &'a ResourceCert,
    strict: bool,
    crypto: &'a C,
    moment: Time,
}

// Validates an object, which has to be published or need not be.
fn validate_object<C: Crypto>(
    object: SignedObject,
    is_published: bool,
    under: &Under<'_, C>,
) -> Result<ResourceCert, ValidationError>
    ensures { AnswersFirstOr Memory (validation is_published (C.digest_of under.now.crypto.now)
        (C.is_signed under.now.crypto.now) object.object.signed under.now.issuer.now
        under.now.moment) (IsCertUnder object under.now.issuer.now) result }
{
    let Under {
        alloc,
        issuer,
        strict,
        crypto,
        moment,
    } = *under;
    if is_published {
        object.validate_at(alloc, issuer, strict, crypto, moment)
    } else {
        object.validate_detached_at(alloc, issuer, strict, crypto, moment)
    }
}

// Validates what comes before the question whether the certificate was revoked.
fn validate_before_revocation<T: Content, C: Crypto>(
    object: SignedObject,
    content: &T,
    under: &Under<'_, C>,
) -> Result<ResourceCert, ValidationError>
    ensures { AnswersFirstOr Memory (before_revocation T.kind (C.digest_of under.now.crypto.now)
        (C.is_signed under.now.crypto.now)
        (record { object = object.object; content = content.now })
        under.now.issuer.now under.now.moment) (IsCertUnder object under.now.issuer.now) result }
{
    match content.verify_claims(object.cert()) {
        Err(e) => {
            drop(object);
            Err(e)
        }
        Ok(()) => validate_object(object, T::is_published(), under),
    }
}

// Asks whether the certificate was revoked.
fn ask_revocation<F: FnOnce(&Cert) -> Result<(), ValidationError>>(
    cert: &ResourceCert,
    check_crl: F,
) -> Result<(), ValidationError>
    requires { FnOnceTakesAt F.FnOnce check_crl cert.now.cert }
    ensures { FnOnceReturnsAt F.FnOnce check_crl cert.now.cert result }
{
    check_crl(cert.cert())
}

// Asks whether the certificate was revoked, and then looks at its numbers.
fn ask_before_numbers<T: Content, F: FnOnce(&Cert) -> Result<(), ValidationError>>(
    cert: &ResourceCert,
    content: &T,
    check_crl: F,
) -> Result<(), ValidationError>
    requires { FnOnceTakesAt F.FnOnce check_crl cert.now.cert }
    ensures { AsksFirst (λ said. FnOnceReturnsAt F.FnOnce check_crl cert.now.cert said)
        (T.kind.held content.now cert.now.sets) result }
{
    match ask_revocation(cert, check_crl) {
        Err(e) => Err(e),
        Ok(()) => content.verify_held(cert),
    }
}

// Validates an object with this content.
fn process_parts<T: Content, C: Crypto, F: FnOnce(&Cert) -> Result<(), ValidationError>>(
    object: SignedObject,
    content: T,
    under: &Under<'_, C>,
    check_crl: F,
) -> Result<(ResourceCert, T), ValidationError>
    requires { AllHold (before_revocation T.kind (C.digest_of under.now.crypto.now)
        (C.is_signed under.now.crypto.now) (record { object = object.object; content = content })
        under.now.issuer.now under.now.moment) → FnOnceTakesAt F.FnOnce check_crl (cert_of object) }
    ensures { AnswersAsked (before_revocation T.kind (C.digest_of under.now.crypto.now)
        (C.is_signed under.now.crypto.now) (record { object = object.object; content = content })
        under.now.issuer.now under.now.moment) (IsCertUnder object under.now.issuer.now)
        (λ said. FnOnceReturnsAt F.FnOnce check_crl (cert_of object) said)
        (T.kind.held content) content result }
{
    match validate_before_revocation(object, &content, under) {
        Err(e) => {
            drop(content);
            Err(e)
        }
        Ok(cert) => match ask_before_numbers(&cert, &content, check_crl) {
            Err(e) => {
                drop(cert);
                drop(content);
                Err(e)
            }
            Ok(()) => Ok((cert, content)),
        },
    }
}

impl<T: Content> Signed<T> {
    // Validates it under this issuer, at this moment, as `process_at` does.
    fn process_under<C: Crypto, F: FnOnce(&Cert) -> Result<(), ValidationError>>(
        self,
        under: &Under<'_, C>,
        check_crl: F,
    ) -> Result<(ResourceCert, T), ValidationError>
        requires { AllHold (before_revocation T.kind (C.digest_of under.now.crypto.now)
            (C.is_signed under.now.crypto.now) (whole_of self) under.now.issuer.now
            under.now.moment) → FnOnceTakesAt F.FnOnce check_crl (cert_of self.object) }
        ensures { AnswersAsked (before_revocation T.kind (C.digest_of under.now.crypto.now)
            (C.is_signed under.now.crypto.now) (whole_of self) under.now.issuer.now
            under.now.moment) (IsCertUnder self.object under.now.issuer.now)
            (λ said. FnOnceReturnsAt F.FnOnce check_crl (cert_of self.object) said)
            (T.kind.held self.content) self.content result }
    {
        let (object, content) = self.into_parts();
        process_parts(object, content, under, check_crl)
    }

    /// Validates it under its issuer, at this moment (RFC 6488, section 3): what its certificate
    /// claims, where the kind asks it first; the object and its certificate, as
    /// `SignedObject::validate_at` does, or `SignedObject::validate_detached_at` for a kind that
    /// need not be published; then whether the caller says that the certificate was not revoked;
    /// and then that the certificate has the numbers of which the content speaks. Answers the
    /// validated certificate and the content. `strict` changes nothing.
    ///
    /// `check_crl` is called once at most, with the certificate, where each check before it holds,
    /// and what it refuses by is refused. Else refuses by the fault of the first check that does
    /// not hold, or by `Memory`.
    pub fn process_at<C: Crypto, F: FnOnce(&Cert) -> Result<(), ValidationError>>(
        self,
        alloc: Global,
        issuer: &ResourceCert,
        strict: bool,
        crypto: &C,
        now: Time,
        check_crl: F,
    ) -> Result<(ResourceCert, T), ValidationError>
        requires { AllHold (before_revocation T.kind (C.digest_of crypto.now)
            (C.is_signed crypto.now) (whole_of self) issuer.now now)
            → FnOnceTakesAt F.FnOnce check_crl (cert_of self.object) }
        ensures { AnswersAsked (before_revocation T.kind (C.digest_of crypto.now)
            (C.is_signed crypto.now) (whole_of self) issuer.now now)
            (IsCertUnder self.object issuer.now)
            (λ said. FnOnceReturnsAt F.FnOnce check_crl (cert_of self.object) said)
            (T.kind.held self.content) self.content result }
    {
        let under = Under {
            alloc,
            issuer,
            strict,
            crypto,
            moment: now,
        };
        self.process_under(&under, check_crl)
    }

    /// Validates it under its issuer, at the moment that the clock tells. Validates and refuses as
    /// `process_at` does.
    pub fn process<C: Crypto, K: Clock, F: FnOnce(&Cert) -> Result<(), ValidationError>>(
        self,
        alloc: Global,
        issuer: &ResourceCert,
        strict: bool,
        crypto: &C,
        clock: &K,
        check_crl: F,
    ) -> Result<(ResourceCert, T), ValidationError>
        requires { AllHold (before_revocation T.kind (C.digest_of crypto.now)
            (C.is_signed crypto.now) (whole_of self) issuer.now (K.moment clock.now))
            → FnOnceTakesAt F.FnOnce check_crl (cert_of self.object) }
        ensures { AnswersAsked (before_revocation T.kind (C.digest_of crypto.now)
            (C.is_signed crypto.now) (whole_of self) issuer.now (K.moment clock.now))
            (IsCertUnder self.object issuer.now)
            (λ said. FnOnceReturnsAt F.FnOnce check_crl (cert_of self.object) said)
            (T.kind.held self.content) self.content result }
    {
        self.process_at(alloc, issuer, strict, crypto, clock.now(), check_crl)
    }
}
