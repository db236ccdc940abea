//! Signed checklists as signed objects (RFC 9323).

ghost use Rattle.rpki_faults.specs.Checks.{AnswersFirstFault};
ghost use Rattle.rpki_files.specs.Checklist.{Checklist};
ghost use Rattle.rpki_files.specs.Checklist.Checks.{checklist_claimed};
ghost use Rattle.rpki_sigobj.specs.Object.{cert_of};
ghost use Rattle.rpki_sigobj.specs.Signed.{KeptWhole};

use crate::checklist::ResourceSignedChecklist;
use crate::checklist::checks::{canonical_sets, inspect_claims, verify_numbers};
use bytes::Bytes;
use rpki_certs::{Cert, ResourceCert};
use rpki_der::{DecodeError, Oid};
use rpki_faults::{InspectionError, ValidationError};
use rpki_sigobj::{Content, Signed, oid_of};
use std::alloc::Global;

/// A signed checklist as a signed object, whose content is in DER (RFC 9323, sections 3 and 4). Its
/// `Content::Rule` is `()`.
pub type Rsc = Signed<ResourceSignedChecklist>;

// id-ct-signedChecklist (RFC 9323, section 3).
const CT_CHECKLIST: [u8; 11] = [
    0x2A, 0x86, 0x48, 0x86, 0xF7, 0x0D, 0x01, 0x09, 0x10, 0x01, 0x30,
];

impl Content for ResourceSignedChecklist {
    ghost use Rattle.rpki_der.specs.declared.mode.Mode.TheVariants.{Der};
    ghost use Rattle.rpki_files.specs.Checklist.{ChecklistForm};
    ghost use Rattle.rpki_files.specs.Checklist.Checks.{AreCanonical, checklist_kind};

    type Rule = ();

    ghost kind = { checklist_kind };

    ghost form = { λ rule. ChecklistForm Der };

    ghost is_content = { AreCanonical };

    ghost copies = { λ x copy e. e };

    fn oid() -> Oid {
        oid_of(&CT_CHECKLIST)
    }

    fn is_published() -> bool {
        false
    }

    fn read(
        alloc: Global,
        source: Bytes,
        _rule: (),
    ) -> Result<ResourceSignedChecklist, DecodeError> {
        match ResourceSignedChecklist::decode(alloc, source) {
            Err(e) => Err(e),
            Ok(list) => {
                canonical_sets(&list);
                Ok(list)
            }
        }
    }

    fn verify_claims(&self, cert: &Cert) -> Result<(), ValidationError> {
        inspect_claims(self, cert)?;
        Ok(())
    }

    fn verify_held(&self, cert: &ResourceCert) -> Result<(), ValidationError> {
        verify_numbers(self, cert)?;
        Ok(())
    }

    fn meaning() {}
}

/// What a checklist is asked beside what each object is (a trait, since `Signed` is a type of
/// another crate).
pub trait InspectResources {
    // The checklist, with its signed object.
    ghost seen: { Self → KeptWhole Checklist };

    /// Inspects whether its certificate claims the numbers of the checklist (RFC 9323, section 5):
    /// AS numbers first, then IPv4, then IPv6. A family that is inherited is claimed whole; whether
    /// the certificate has the numbers is known once it was validated. Refuses by `NotCovered` of
    /// the first family that it does not claim.
    fn inspect_resources(&self) -> Result<(), InspectionError>
        ensures { AnswersFirstFault (checklist_claimed (seen self.now).content
            (cert_of (seen self.now).object).certificate.tbs.extensions.claims) result };
}

impl InspectResources for Rsc {
    ghost seen = { λ checklist. checklist };

    fn inspect_resources(&self) -> Result<(), InspectionError> {
        inspect_claims(self.content(), self.cert())
    }
}
