//! How faults of the parts are told of the whole.

ghost use Rattle.std.specs.Prelude.{◌≡◌};
ghost use Rattle.rpki_rta.specs.Faults.{accept_fault, final_fault, path_fault, supply_fault};
ghost use Rattle.rpki_rta.specs.Faults.{walks_fault};

use rpki_faults::{ValidationError, VerificationError};
use rpki_paths::{AcceptFault, FinalFault, PathFault, SupplyFault, WalksFault};

// That of one walk.
fn of_path(fault: PathFault) -> ValidationError
    ensures { result ≡ path_fault fault }
{
    let fault = match fault {
        PathFault::NoValidIssuer => VerificationError::InvalidCaCertificates,
        PathFault::Returns => VerificationError::PathReturns,
        PathFault::Revoked => VerificationError::Revoked,
        PathFault::NotCovered(family) => VerificationError::Overclaimed(family),
        PathFault::Memory => return ValidationError::Memory,
    };
    ValidationError::Verification(fault)
}

// That of several walks.
fn of_walks(fault: WalksFault) -> ValidationError
    ensures { result ≡ walks_fault fault }
{
    match fault {
        WalksFault::NoPath(fault) => of_path(fault),
        WalksFault::Unused(_) => {
            ValidationError::Verification(VerificationError::UnusedCaCertificates)
        }
        WalksFault::Memory => ValidationError::Memory,
    }
}

/// That of what is carried.
pub fn of_acceptance(fault: AcceptFault<ValidationError>) -> ValidationError
    ensures { result ≡ accept_fault fault }
{
    let fault = match fault {
        AcceptFault::NotGood(fault) => return fault,
        AcceptFault::NoCrl => VerificationError::MissingCrl,
        AcceptFault::NoKey => VerificationError::UnknownKey,
        AcceptFault::Digest => VerificationError::SignerDigest,
        AcceptFault::NoCert => VerificationError::MissingCertificate,
        AcceptFault::KeysLeft => VerificationError::UnusedSubjectKeys,
        AcceptFault::CrlsLeft => VerificationError::UnusedCrls,
        AcceptFault::CertsLeft => VerificationError::UnusedEeCertificates,
        AcceptFault::Walks(fault) => return of_walks(fault),
        AcceptFault::Memory => return ValidationError::Memory,
    };
    ValidationError::Verification(fault)
}

/// That of a supply.
pub fn of_supply(fault: SupplyFault<ValidationError>) -> ValidationError
    ensures { result ≡ supply_fault fault }
{
    match fault {
        SupplyFault::NoAnchor(fault) => fault,
        SupplyFault::NotCovered(family) => {
            ValidationError::Verification(VerificationError::Overclaimed(family))
        }
        SupplyFault::Memory => ValidationError::Memory,
    }
}

/// That of the end.
pub fn of_end(fault: FinalFault) -> ValidationError
    ensures { result ≡ final_fault fault }
{
    let fault = match fault {
        FinalFault::NotAnchored => VerificationError::NotAnchored,
        FinalFault::AsNumbers => VerificationError::AsNotFullyCovered,
        FinalFault::Addresses => VerificationError::IpNotFullyCovered,
        FinalFault::Memory => return ValidationError::Memory,
    };
    ValidationError::Verification(fault)
}
