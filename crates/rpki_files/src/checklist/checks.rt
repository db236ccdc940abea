//! What is checked of the certificate of a checklist (RFC 9323, section 5).

ghost use Rattle.rpki_faults.specs.Checks.{AnswersFirstFault};
ghost use Rattle.rpki_files.specs.Checklist.Checks.{checklist_claimed, checklist_held};
ghost use Rattle.rpki_files.specs.Checklist.Checks.{AreCanonical};

use crate::checklist::ResourceSignedChecklist;
use rpki_certs::{Cert, ResourceCert};
use rpki_faults::{Family, InspectionError, VerificationError};

/// The sets of a checklist are canonical, as all sets are.
pub fn canonical_sets(list: &ResourceSignedChecklist)
    ensures { AreCanonical list.now }
{
    let _ = list.as_resources().as_slice();
    let _ = list.v4_resources().as_slice();
    let _ = list.v6_resources().as_slice();
}

/// Inspects whether a certificate claims the numbers of a checklist (RFC 9323, section 5): AS
/// numbers first, then IPv4, then IPv6. Refuses by `NotCovered` of the first family that it does
/// not.
pub fn inspect_claims(list: &ResourceSignedChecklist, cert: &Cert) -> Result<(), InspectionError>
    ensures { AnswersFirstFault
        (checklist_claimed list.now cert.now.certificate.tbs.extensions.claims) result }
{
    if list
        .as_resources()
        .verify_covered(cert.as_resources())
        .is_err()
    {
        return Err(InspectionError::NotCovered(Family::As));
    }
    if list
        .v4_resources()
        .verify_covered(cert.v4_resources())
        .is_err()
    {
        return Err(InspectionError::NotCovered(Family::V4));
    }
    if list
        .v6_resources()
        .verify_covered(cert.v6_resources())
        .is_err()
    {
        return Err(InspectionError::NotCovered(Family::V6));
    }
    Ok(())
}

/// Verifies that a validated certificate has the numbers of a checklist (RFC 9323, section 5).
/// Refuses by `ChecklistNotHeld` where it does not.
pub fn verify_numbers(
    list: &ResourceSignedChecklist,
    cert: &ResourceCert,
) -> Result<(), VerificationError>
    ensures { AnswersFirstFault (checklist_held list.now cert.now.sets) result }
{
    if cert.as_resources().contains(list.as_resources())
        && cert.v4_resources().contains(list.v4_resources())
        && cert.v6_resources().contains(list.v6_resources())
    {
        Ok(())
    } else {
        Err(VerificationError::ChecklistNotHeld)
    }
}
