//! A certificate of a few facts, whose checks are made in a given order.

ghost use Rattle.rpki_faults.specs.Checks.{AnswersFirstFault};
ghost use Rattle.rpki_examples.specs.Inspected.{anchor_checks, anchor_validation};
ghost use Rattle.rpki_examples.specs.Inspected.{authority_checks, signature_checks};
ghost use Rattle.rpki_examples.specs.Inspected.{validity_checks};

use rpki::error::{InspectionError, KeyUsage, ValidationError, VerificationError};

/// What is looked at of a certificate. Identifiers and URIs are numbers, moments are seconds.
#[derive(Clone, Copy, Debug)]
pub struct Facts {
    pub subject_key_id: u32,
    pub key_id: u32,
    pub authority_key_id: Option<u32>,
    pub basic_ca: Option<bool>,
    pub key_usage: KeyUsage,
    pub has_extended_key_usage: bool,
    pub crl_uri: Option<u32>,
    pub ca_issuer: Option<u32>,
    pub ca_repository: Option<u32>,
    pub rpki_manifest: Option<u32>,
    pub signed_object: Option<u32>,
    pub names_numbers: bool,
    pub inherits: bool,
    pub not_before: u64,
    pub not_after: u64,
    pub is_signed: bool,
}

impl Facts {
    /// Inspects what the certificates of all CAs have to have.
    pub fn inspect_authority(&self) -> Result<(), InspectionError>
        ensures { AnswersFirstFault (authority_checks self.now) result }
    {
        if self.subject_key_id != self.key_id {
            return Err(InspectionError::KeyIdentifier);
        }
        if !self.names_numbers {
            return Err(InspectionError::NoResources);
        }
        if self.basic_ca != Some(true) {
            return Err(InspectionError::BasicCa);
        }
        if self.key_usage != KeyUsage::Ca {
            return Err(InspectionError::KeyUsage);
        }
        if self.has_extended_key_usage {
            return Err(InspectionError::Eku);
        }
        if self.ca_repository.is_none() {
            return Err(InspectionError::MissingRepository);
        }
        if self.rpki_manifest.is_none() {
            return Err(InspectionError::MissingManifest);
        }
        if self.signed_object.is_some() {
            return Err(InspectionError::SignedObject);
        }
        Ok(())
    }

    /// Inspects the certificate of a trust anchor.
    pub fn inspect_ta(&self) -> Result<(), InspectionError>
        ensures { AnswersFirstFault (anchor_checks self.now) result }
    {
        self.inspect_authority()?;
        if self
            .authority_key_id
            .is_some_and(|aki| aki != self.subject_key_id)
        {
            return Err(InspectionError::TaAki);
        }
        if self.crl_uri.is_some() {
            return Err(InspectionError::TaCrlUri);
        }
        if self.ca_issuer.is_some() {
            return Err(InspectionError::TaCaIssuer);
        }
        if self.inherits {
            return Err(InspectionError::TaInherit);
        }
        Ok(())
    }

    /// Whether this moment lies within the validity.
    pub fn verify_validity(&self, now: u64) -> Result<(), VerificationError>
        ensures { AnswersFirstFault (validity_checks self.now now) result }
    {
        if now < self.not_before {
            return Err(VerificationError::NotYetValid);
        }
        if now > self.not_after {
            return Err(VerificationError::Expired);
        }
        Ok(())
    }

    /// Whether it is signed.
    pub fn verify_signature(&self) -> Result<(), VerificationError>
        ensures { AnswersFirstFault (signature_checks self.now) result }
    {
        if self.is_signed {
            Ok(())
        } else {
            Err(VerificationError::BadSignature)
        }
    }

    /// Validates the certificate of a trust anchor.
    pub fn validate_ta_at(&self, now: u64) -> Result<(), ValidationError>
        ensures { AnswersFirstFault (anchor_validation self.now now) result }
    {
        self.inspect_ta()?;
        self.verify_validity(now)?;
        self.verify_signature()?;
        Ok(())
    }
}
