//! Faults that say no more than that memory ran out, and faults as a refusal keeps them.

ghost use Rattle.std.specs.Prelude.{◌≡◌, ◌↔◌, IsTrue};
ghost use Rattle.rpki_der.specs.declared.error.DecodeError.{DecodeError};
ghost use Rattle.rpki_faults.specs.declared.validation.ValidationError.{ValidationError};
ghost use Rattle.rpki_relying_party.specs.Memory.{IsCheckMemory, IsIssuerMemory};
ghost use Rattle.rpki_relying_party.specs.Memory.{plain_check, plain_issuer};

use rpki_certs::IssuerError;
use rpki_der::DecodeError;
use rpki_faults::ValidationError;
use rpki_signed::check::CheckError;

// Whether the fault of what does not decode says no more than that.
fn is_decode_memory(error: &DecodeError) -> bool
    ensures { IsTrue result ↔ (error.now ≡ DecodeError.Memory) }
{
    match error {
        DecodeError::Malformed => false,
        DecodeError::Content(_) => false,
        DecodeError::Memory => true,
    }
}

// Whether the fault of what is not valid says no more than that.
fn is_invalid_memory(error: &ValidationError) -> bool
    ensures { IsTrue result ↔ (error.now ≡ ValidationError.Memory) }
{
    match error {
        ValidationError::Inspection(_) => false,
        ValidationError::Verification(_) => false,
        ValidationError::Memory => true,
    }
}

/// Whether the fault of an object says no more than that memory ran out.
pub(crate) fn is_check_memory(error: &CheckError) -> bool
    ensures { IsTrue result ↔ IsCheckMemory error.now }
{
    match error {
        CheckError::Decode(error) => is_decode_memory(error),
        CheckError::Validation(error) => is_invalid_memory(error),
    }
}

/// Whether the fault of a certificate says no more than that memory ran out.
pub(crate) fn is_issuer_memory(error: &IssuerError) -> bool
    ensures { IsTrue result ↔ IsIssuerMemory error.now }
{
    match error {
        IssuerError::Decode(error) => is_decode_memory(error),
        IssuerError::Validation(error) => is_invalid_memory(error),
    }
}

/// The fault of an object, as a refusal keeps it, with nothing of the file: what does not decode is
/// malformed. Which fault a decoder meets first is left open, and that of a signed attribute has
/// its type, which keeps the octets of the whole file.
pub(crate) fn plain_check(error: CheckError) -> CheckError
    ensures { result ≡ plain_check error }
{
    match error {
        CheckError::Decode(error) => {
            drop(error);
            CheckError::Decode(DecodeError::Malformed)
        }
        CheckError::Validation(fault) => CheckError::Validation(fault),
    }
}

/// The fault of a certificate, as a refusal keeps it, as `plain_check` says of an object.
pub(crate) fn plain_issuer(error: IssuerError) -> IssuerError
    ensures { result ≡ plain_issuer error }
{
    match error {
        IssuerError::Decode(error) => {
            drop(error);
            IssuerError::Decode(DecodeError::Malformed)
        }
        IssuerError::Validation(fault) => IssuerError::Validation(fault),
    }
}
