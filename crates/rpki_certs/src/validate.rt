//! The validation of certificates.

ghost use Rattle.std.specs.Prelude.{◌≡◌, []};
ghost use Rattle.sha1.specs.Sha1.{sha1};
ghost use Rattle.rpki_resources.specs.declared.resources.Claim.TheVariants.{Inherit};
ghost use Rattle.rpki_resources.specs.Claim.{HasBlocks};
ghost use Rattle.rpki_faults.specs.Checks.{AnswersFirstFault, AnswersFirstOr};
ghost use Rattle.rpki_faults.specs.declared.validation.ValidationError.TheVariants.{Memory};
ghost use Rattle.rpki_certs.specs.Inspect.{Inherits};
ghost use Rattle.rpki_certs.specs.Validate.{AreClaimed, AreValidated, covering_checks};
ghost use Rattle.rpki_certs.specs.Validate.{issuing_checks, issued_validation, ta_validation};
ghost use Rattle.rpki_certs.specs.Validate.{ca_validation, ee_validation, detached_ee_validation};
ghost use Rattle.rpki_certs.specs.Validate.{IsAnchorOf, IsResourceCert, IsValidatedUnder};

use crate::cert::Cert;
use rpki_basics::{Crypto, Time};
use rpki_extensions::Claims;
use rpki_faults::{Family, ValidationError, VerificationError, validated};
use rpki_resources::{AsBlocks, Blocks, BlocksError, IpBlocks, Number, Resources};
use std::alloc::{AllocError, Global};
use std::marker::Model;

// The sets of the three families.
#[derive(Debug, Drop)]
struct Sets {
    as_numbers: AsBlocks,
    v4: IpBlocks,
    v6: IpBlocks,
}

impl Model for Sets {
    ghost use Rattle.rpki_certs.specs.Validate.{AreCanonical, Sets as ThreeSets};

    ghost Value = { ThreeSets };

    ghost view = { λ s. record { as_numbers = s.as_numbers; v4 = s.v4; v6 = s.v6 } };

    ghost invariant = { λ s. AreCanonical (record {
      as_numbers = s.as_numbers;
      v4 = s.v4;
      v6 = s.v6;
    }) };
}

impl Clone for Sets {
    ghost is_clone = { λ s copy. copy ≡ s };

    fn clone(&self) -> Result<Sets, AllocError> {
        Ok(Sets {
            as_numbers: self.as_numbers.clone()?,
            v4: self.v4.clone()?,
            v6: self.v6.clone()?,
        })
    }
}

/// A certificate that was validated, and the numbers that it has (RFC 6487, section 7.2; RFC 8360,
/// section 4.2.4.4). The validations of `Cert` alone make one.
#[derive(Debug, Drop)]
pub struct ResourceCert {
    cert: Cert,
    sets: Sets,
}

impl Model for ResourceCert {
    ghost use Rattle.rpki_certs.specs.Validate.{IsResourceCert, Validated};

    ghost Value = { Validated };

    ghost view = { λ r. record { cert = r.cert; sets = r.sets } };

    ghost invariant = { λ r. IsResourceCert (record { cert = r.cert; sets = r.sets }) };
}

impl ResourceCert {
    // The certificate, which states the identifier of its own key, with its sets.
    fn of(cert: Cert, sets: Sets) -> ResourceCert
        requires { cert.certificate.tbs.extensions.key.subject_key ≡ sha1 cert.certificate.tbs.key }
        ensures cert { result.cert ≡ cert }
        ensures sets { result.sets ≡ sets }
    {
        // The proof needs that the sets are canonical.
        let _ = &sets.as_numbers;
        ResourceCert { cert, sets }
    }

    /// What holds of each certificate that was validated: it states the identifier of its own key
    /// (RFC 6487, section 4.8.2), and its sets are canonical. A law, as a call that does nothing.
    pub fn is_resource_cert(&self)
        ensures { IsResourceCert self.now }
    {
        let _ = &self.cert;
    }

    /// The certificate.
    pub fn cert(&self) -> &Cert
        ensures { result.now ≡ self.now.cert }
    {
        &self.cert
    }

    /// The AS numbers that it has.
    pub fn as_resources(&self) -> &AsBlocks
        ensures { result.now ≡ self.now.sets.as_numbers }
    {
        &self.sets.as_numbers
    }

    /// The IPv4 addresses that it has.
    pub fn v4_resources(&self) -> &IpBlocks
        ensures { result.now ≡ self.now.sets.v4 }
    {
        &self.sets.v4
    }

    /// The IPv6 addresses that it has.
    pub fn v6_resources(&self) -> &IpBlocks
        ensures { result.now ≡ self.now.sets.v6 }
    {
        &self.sets.v6
    }
}

impl Clone for ResourceCert {
    ghost is_clone = { λ r copy. copy ≡ r };

    fn clone(&self) -> Result<ResourceCert, AllocError> {
        let sets = self.sets.clone()?;
        match self.cert.clone() {
            Ok(cert) => Ok(ResourceCert { cert, sets }),
            Err(error) => {
                drop(sets);
                Err(error)
            }
        }
    }
}

// The numbers that are claimed, where they are not inherited.
fn claimed<T: Number>(alloc: Global, claim: &Resources<T>) -> Result<Blocks<T>, ValidationError>
    requires { ¬ (claim.now ≡ Inherit) }
    ensures { AnswersFirstOr Memory [] (HasBlocks claim.now) result }
{
    match claim.to_blocks(alloc) {
        Ok(set) => Ok(set),
        Err(BlocksError::Memory) => Err(ValidationError::Memory),
        Err(BlocksError::Inherit) => unreachable!(),
    }
}

// The numbers that are claimed of each family, where none is inherited.
fn claimed_sets(alloc: Global, claims: &Claims) -> Result<Sets, ValidationError>
    requires { ¬ Inherits claims.now }
    ensures { AnswersFirstOr Memory [] (AreClaimed claims.now) result }
{
    let as_numbers = claimed(alloc, &claims.as_numbers)?;
    let v4 = claimed(alloc, &claims.addresses.v4)?;
    let v6 = claimed(alloc, &claims.addresses.v6)?;
    Ok(Sets { as_numbers, v4, v6 })
}

// The validated sets of a certificate with these claims, under an issuer with these sets.
fn validated_sets(alloc: Global, claims: &Claims, issuer: &Sets) -> Result<Sets, ValidationError>
    ensures { AnswersFirstOr Memory (covering_checks claims.now issuer.now)
        (AreValidated claims.now issuer.now) result }
{
    let policy = claims.policy;
    let fault = VerificationError::Overclaimed(Family::As);
    let as_numbers = validated(alloc, &claims.as_numbers, policy, &issuer.as_numbers, fault)?;
    let fault = VerificationError::Overclaimed(Family::V4);
    let v4 = validated(alloc, &claims.addresses.v4, policy, &issuer.v4, fault)?;
    let fault = VerificationError::Overclaimed(Family::V6);
    let v6 = validated(alloc, &claims.addresses.v6, policy, &issuer.v6, fault)?;
    Ok(Sets { as_numbers, v4, v6 })
}

impl Cert {
    // Verifies it under the certificate of its issuer.
    fn verify_issued<C: Crypto>(
        &self,
        issuer: &Cert,
        crypto: &C,
        now: Time,
    ) -> Result<(), VerificationError>
        ensures { AnswersFirstFault (issuing_checks (C.is_signed crypto.now)
            self.now.certificate issuer.now.certificate now) result }
    {
        self.verify_issuer_claim(issuer)?;
        self.verify_validity(now)?;
        self.verify_signature(issuer, crypto)
    }

    // Its sets, if it is the valid certificate of a trust anchor.
    #[tactic(auto, unfolding(crate::specs::Validate::ta_validation))]
    fn anchor_sets<C: Crypto>(
        &self,
        alloc: Global,
        strict: bool,
        crypto: &C,
        now: Time,
    ) -> Result<Sets, ValidationError>
        ensures { AnswersFirstOr Memory
            (ta_validation (C.is_signed crypto.now) self.now.certificate now)
            (AreClaimed self.now.certificate.tbs.extensions.claims) result }
    {
        self.inspect_ta()?;
        self.verify_ta_ref_at(strict, crypto, now)?;
        claimed_sets(alloc, self.claims())
    }

    // Its sets, if it is good under this issuer.
    fn issued_sets<C: Crypto>(
        &self,
        alloc: Global,
        issuer: &ResourceCert,
        crypto: &C,
        now: Time,
    ) -> Result<Sets, ValidationError>
        ensures { AnswersFirstOr Memory
            (issued_validation (C.is_signed crypto.now) self.now.certificate issuer.now now)
            (AreValidated self.now.certificate.tbs.extensions.claims issuer.now.sets) result }
    {
        self.verify_issued(&issuer.cert, crypto, now)?;
        validated_sets(alloc, self.claims(), &issuer.sets)
    }

    // Its sets, if it is the valid certificate of a CA under this issuer.
    fn ca_sets<C: Crypto>(
        &self,
        alloc: Global,
        issuer: &ResourceCert,
        crypto: &C,
        now: Time,
    ) -> Result<Sets, ValidationError>
        ensures { AnswersFirstOr Memory
            (ca_validation (C.is_signed crypto.now) self.now.certificate issuer.now now)
            (AreValidated self.now.certificate.tbs.extensions.claims issuer.now.sets) result }
    {
        self.inspect_ca()?;
        self.issued_sets(alloc, issuer, crypto, now)
    }

    // Its sets, if it is valid as that of an end entity that signed a published object.
    fn ee_sets<C: Crypto>(
        &self,
        alloc: Global,
        issuer: &ResourceCert,
        crypto: &C,
        now: Time,
    ) -> Result<Sets, ValidationError>
        ensures { AnswersFirstOr Memory
            (ee_validation (C.is_signed crypto.now) self.now.certificate issuer.now now)
            (AreValidated self.now.certificate.tbs.extensions.claims issuer.now.sets) result }
    {
        self.inspect_ee()?;
        self.issued_sets(alloc, issuer, crypto, now)
    }

    // Its sets, if it is valid as that of an end entity that signed a detached object.
    fn detached_ee_sets<C: Crypto>(
        &self,
        alloc: Global,
        issuer: &ResourceCert,
        crypto: &C,
        now: Time,
    ) -> Result<Sets, ValidationError>
        ensures { AnswersFirstOr Memory
            (detached_ee_validation (C.is_signed crypto.now) self.now.certificate issuer.now now)
            (AreValidated self.now.certificate.tbs.extensions.claims issuer.now.sets) result }
    {
        self.inspect_detached_ee()?;
        self.issued_sets(alloc, issuer, crypto, now)
    }

    /// Validates the certificate of a trust anchor: its form, the moment, and the signature by its
    /// own key (RFC 6487, section 7; RFC 8630, section 3). It has the numbers that it claims.
    /// `strict` changes nothing.
    ///
    /// Refuses by the fault of the first check that does not hold, in this order: those of
    /// `inspect_ta`, `NotYetValid`, `Expired`, `BadSignature`; or by `Memory`.
    #[tactic(auto, using(crate::proofs::Valid::anchor_states), unfolding(crate::specs::Validate::IsAnchorOf))]
    pub fn validate_ta_at<C: Crypto>(
        self,
        alloc: Global,
        strict: bool,
        crypto: &C,
        now: Time,
    ) -> Result<ResourceCert, ValidationError>
        ensures { AnswersFirstOr Memory
            (ta_validation (C.is_signed crypto.now) self.certificate now) (IsAnchorOf self) result }
    {
        match self.anchor_sets(alloc, strict, crypto, now) {
            Ok(sets) => Ok(ResourceCert::of(self, sets)),
            Err(error) => {
                drop(self);
                Err(error)
            }
        }
    }

    /// Validates the certificate of a CA under its issuer: its form, the issuer that it states, the
    /// moment, the signature, and the numbers that it claims (RFC 6487, section 7.2). It has those
    /// numbers, or where its policy has them trimmed those that the issuer has too (RFC 8360,
    /// section 4.2.4.4). `strict` changes nothing.
    ///
    /// Refuses by the fault of the first check that does not hold, in this order: those of
    /// `inspect_ca`, `IssuerClaim`, `NotYetValid`, `Expired`, `BadSignature`, and `Overclaimed` for
    /// AS numbers, IPv4 and IPv6; or by `Memory`.
    #[tactic(auto, using(crate::proofs::Valid::ca_states), unfolding(crate::specs::Validate::IsValidatedUnder))]
    pub fn validate_ca_at<C: Crypto>(
        self,
        alloc: Global,
        issuer: &ResourceCert,
        _strict: bool,
        crypto: &C,
        now: Time,
    ) -> Result<ResourceCert, ValidationError>
        ensures { AnswersFirstOr Memory
            (ca_validation (C.is_signed crypto.now) self.certificate issuer.now now)
            (IsValidatedUnder self issuer.now) result }
    {
        match self.ca_sets(alloc, issuer, crypto, now) {
            Ok(sets) => Ok(ResourceCert::of(self, sets)),
            Err(error) => {
                drop(self);
                Err(error)
            }
        }
    }

    /// Validates the certificate of an end entity that signed a published object, as
    /// `validate_ca_at` does that of a CA. Refuses as it does, with the faults of `inspect_ee` in
    /// place of those of `inspect_ca`.
    #[tactic(auto, using(crate::proofs::Valid::ee_states), unfolding(crate::specs::Validate::IsValidatedUnder))]
    pub fn validate_ee_at<C: Crypto>(
        self,
        alloc: Global,
        issuer: &ResourceCert,
        _strict: bool,
        crypto: &C,
        now: Time,
    ) -> Result<ResourceCert, ValidationError>
        ensures { AnswersFirstOr Memory
            (ee_validation (C.is_signed crypto.now) self.certificate issuer.now now)
            (IsValidatedUnder self issuer.now) result }
    {
        match self.ee_sets(alloc, issuer, crypto, now) {
            Ok(sets) => Ok(ResourceCert::of(self, sets)),
            Err(error) => {
                drop(self);
                Err(error)
            }
        }
    }

    /// Validates the certificate of an end entity that signed an object which need not be
    /// published, as a checklist (RFC 9323, section 2), as `validate_ca_at` does that of a CA.
    /// Refuses as it does, with the faults of `inspect_detached_ee` in place of those of
    /// `inspect_ca`.
    #[tactic(auto, using(crate::proofs::Valid::detached_states), unfolding(crate::specs::Validate::IsValidatedUnder))]
    pub fn validate_detached_ee_at<C: Crypto>(
        self,
        alloc: Global,
        issuer: &ResourceCert,
        _strict: bool,
        crypto: &C,
        now: Time,
    ) -> Result<ResourceCert, ValidationError>
        ensures { AnswersFirstOr Memory
            (detached_ee_validation (C.is_signed crypto.now) self.certificate issuer.now now)
            (IsValidatedUnder self issuer.now) result }
    {
        match self.detached_ee_sets(alloc, issuer, crypto, now) {
            Ok(sets) => Ok(ResourceCert::of(self, sets)),
            Err(error) => {
                drop(self);
                Err(error)
            }
        }
    }
}
