//! Whether certificates fit the profile (RFC 6487, section 4).

ghost use Rattle.std.specs.Prelude.{◌↔◌, IsTrue};
ghost use Rattle.rpki_faults.specs.Checks.{AnswersFirstFault};
ghost use Rattle.rpki_certs.specs.Inspect.{NamesNothing, Inherits, subject_checks, issued_checks};
ghost use Rattle.rpki_certs.specs.Inspect.{authority_checks, anchor_checks, entity_checks};
ghost use Rattle.rpki_certs.specs.Inspect.{object_checks, access_checks, ta_checks, ca_checks};
ghost use Rattle.rpki_certs.specs.Inspect.{ee_checks, detached_ee_checks};

use crate::cert::{Cert, are_same};
use rpki_faults::{InspectionError, KeyUsage};

impl Cert {
    // Whether no family of numbers is named.
    fn names_nothing(&self) -> bool
        ensures { IsTrue result ↔ NamesNothing self.now.certificate.tbs.extensions.claims }
    {
        self.as_resources().is_missing()
            && self.v4_resources().is_missing()
            && self.v6_resources().is_missing()
    }

    // Whether a family of numbers is inherited.
    fn inherits(&self) -> bool
        ensures { IsTrue result ↔ Inherits self.now.certificate.tbs.extensions.claims }
    {
        self.as_resources().is_inherited()
            || self.v4_resources().is_inherited()
            || self.v6_resources().is_inherited()
    }

    // Inspects what each certificate says of its subject.
    fn inspect_subject(&self) -> Result<(), InspectionError>
        ensures { AnswersFirstFault (subject_checks self.now.certificate.tbs) result }
    {
        let identifier = self.subject_public_key_info().key_identifier();
        if !are_same(self.subject_key_identifier(), identifier) {
            return Err(InspectionError::KeyIdentifier);
        }
        if self.names_nothing() {
            return Err(InspectionError::NoResources);
        }
        Ok(())
    }

    // Inspects what one that another CA issued says of its issuer.
    fn inspect_issued(&self) -> Result<(), InspectionError>
        ensures { AnswersFirstFault (issued_checks self.now.certificate.tbs) result }
    {
        if self.authority_key_identifier().is_none() {
            return Err(InspectionError::MissingAki);
        }
        if self.crl_uri().is_none() {
            return Err(InspectionError::MissingCrlUri);
        }
        if self.ca_issuer().is_none() {
            return Err(InspectionError::MissingCaIssuer);
        }
        Ok(())
    }

    // Inspects what that of a CA says of its key and of its places.
    fn inspect_authority(&self) -> Result<(), InspectionError>
        ensures { AnswersFirstFault (authority_checks self.now.certificate.tbs) result }
    {
        if self.basic_ca() != Some(true) {
            return Err(InspectionError::BasicCa);
        }
        if self.key_usage() != KeyUsage::Ca {
            return Err(InspectionError::KeyUsage);
        }
        if self.has_purposes() {
            return Err(InspectionError::Eku);
        }
        if self.ca_repository().is_none() {
            return Err(InspectionError::MissingRepository);
        }
        if self.rpki_manifest().is_none() {
            return Err(InspectionError::MissingManifest);
        }
        if self.signed_object().is_some() {
            return Err(InspectionError::SignedObject);
        }
        Ok(())
    }

    // Inspects what that of a trust anchor does not say of an issuer.
    fn inspect_anchor(&self) -> Result<(), InspectionError>
        ensures { AnswersFirstFault (anchor_checks self.now.certificate.tbs) result }
    {
        if !self.is_self_signed() {
            return Err(InspectionError::TaAki);
        }
        if self.crl_uri().is_some() {
            return Err(InspectionError::TaCrlUri);
        }
        if self.ca_issuer().is_some() {
            return Err(InspectionError::TaCaIssuer);
        }
        if self.inherits() {
            return Err(InspectionError::TaInherit);
        }
        Ok(())
    }

    // Inspects what that of an end entity says of its key.
    fn inspect_entity(&self) -> Result<(), InspectionError>
        ensures { AnswersFirstFault (entity_checks self.now.certificate.tbs) result }
    {
        if self.basic_ca().is_some() {
            return Err(InspectionError::BasicCa);
        }
        if self.key_usage() != KeyUsage::Ee {
            return Err(InspectionError::KeyUsage);
        }
        if self.has_purposes() {
            return Err(InspectionError::Eku);
        }
        Ok(())
    }

    // Inspects whether the object is named that the key signed.
    fn inspect_object(&self) -> Result<(), InspectionError>
        ensures { AnswersFirstFault (object_checks self.now.certificate.tbs) result }
    {
        if self.signed_object().is_none() {
            return Err(InspectionError::MissingSignedObject);
        }
        Ok(())
    }

    // Inspects that no place of a CA is named.
    fn inspect_access(&self) -> Result<(), InspectionError>
        ensures { AnswersFirstFault (access_checks self.now.certificate.tbs) result }
    {
        if self.ca_repository().is_some() || self.rpki_manifest().is_some() {
            return Err(InspectionError::CaAccess);
        }
        Ok(())
    }

    /// Whether it fits the profile of the certificate of a trust anchor (RFC 6487, section 4; RFC
    /// 8630, section 2.3). Each family may be named and empty, against RFC 8630.
    ///
    /// Refuses by the fault of the first check that does not hold, in this order: `KeyIdentifier`,
    /// `NoResources`, `BasicCa`, `KeyUsage`, `Eku`, `MissingRepository`, `MissingManifest`,
    /// `SignedObject`, `TaAki`, `TaCrlUri`, `TaCaIssuer`, `TaInherit`.
    pub fn inspect_ta(&self) -> Result<(), InspectionError>
        ensures { AnswersFirstFault (ta_checks self.now.certificate.tbs) result }
    {
        self.inspect_subject()?;
        self.inspect_authority()?;
        self.inspect_anchor()
    }

    /// Whether it fits the profile of the certificate of a CA that another CA issued (RFC 6487,
    /// section 4).
    ///
    /// Refuses by the fault of the first check that does not hold, in this order: `KeyIdentifier`,
    /// `NoResources`, `MissingAki`, `MissingCrlUri`, `MissingCaIssuer`, `BasicCa`, `KeyUsage`,
    /// `Eku`, `MissingRepository`, `MissingManifest`, `SignedObject`.
    pub fn inspect_ca(&self) -> Result<(), InspectionError>
        ensures { AnswersFirstFault (ca_checks self.now.certificate.tbs) result }
    {
        self.inspect_subject()?;
        self.inspect_issued()?;
        self.inspect_authority()
    }

    /// Whether it fits the profile of the certificate of an end entity that signed a published
    /// object (RFC 6487, section 4).
    ///
    /// Refuses by the fault of the first check that does not hold, in this order: `KeyIdentifier`,
    /// `NoResources`, `MissingAki`, `MissingCrlUri`, `MissingCaIssuer`, `BasicCa`, `KeyUsage`,
    /// `Eku`, `MissingSignedObject`, `CaAccess`.
    pub fn inspect_ee(&self) -> Result<(), InspectionError>
        ensures { AnswersFirstFault (ee_checks self.now.certificate.tbs) result }
    {
        self.inspect_subject()?;
        self.inspect_issued()?;
        self.inspect_entity()?;
        self.inspect_object()?;
        self.inspect_access()
    }

    /// Whether it fits the profile of the certificate of an end entity that signed an object which
    /// need not be published, as a checklist (RFC 6487, section 4; RFC 9323, section 2). It may say
    /// where a signed object or a notification file is, against RFC 9323.
    ///
    /// Refuses by the fault of the first check that does not hold, in this order: `KeyIdentifier`,
    /// `NoResources`, `MissingAki`, `MissingCrlUri`, `MissingCaIssuer`, `BasicCa`, `KeyUsage`,
    /// `Eku`, `CaAccess`.
    pub fn inspect_detached_ee(&self) -> Result<(), InspectionError>
        ensures { AnswersFirstFault (detached_ee_checks self.now.certificate.tbs) result }
    {
        self.inspect_subject()?;
        self.inspect_issued()?;
        self.inspect_entity()?;
        self.inspect_access()
    }
}
