//! Attestations that were handed over, as those who rely on them check them.

ghost use Rattle.std.specs.Prelude.{◌↔◌, IfOk, IsFalse, IsTrue, map};
ghost use Rattle.rpki_rta.specs.Granted.{IsDistinct};
ghost use Rattle.rpki_rta.specs.Refused.{supply_in};
ghost use Rattle.rpki_signed.specs.Headline.{BeginsWithGranted, IsMemory};

use bytes::Bytes;
use rpki::cert::Cert;
use rpki::check::laws::yes_is_exact;
use rpki::check::{self, CheckError};
use rpki::crypto::Crypto;
use rpki::der::DecodeError;
use rpki::error::ValidationError;
use rpki::rta::Supply;
use rpki::x509::Time;
use std::alloc::{AllocError, Global};

// Whether a check ended for want of memory.
fn lacked_memory(error: &CheckError) -> bool
    ensures { IsTrue result ↔ IsMemory error.now }
{
    match error {
        CheckError::Decode(DecodeError::Memory) => true,
        CheckError::Decode(DecodeError::Malformed) => false,
        CheckError::Decode(DecodeError::Content(_)) => false,
        CheckError::Validation(ValidationError::Memory) => true,
        CheckError::Validation(ValidationError::Inspection(_)) => false,
        CheckError::Validation(ValidationError::Verification(_)) => false,
    }
}

/// Whether octets begin with an attestation that is granted under these supplies: a yes means that
/// they do, with just the numbers that its paths have together, however many signers it has. A no
/// means that they do not, if no two CAs that it carries have one key identifier, and end entities
/// that share one have one key.
pub fn begins_with_granted<C: Crypto>(
    alloc: Global,
    octets: Bytes,
    crypto: &C,
    now: Time,
    supplies: &[Supply<'_>],
) -> Result<bool, AllocError>
    ensures yes { IfOk result (λ yes. IsTrue yes → BeginsWithGranted (C.digest_of crypto.now)
        (C.is_signed crypto.now) now (map supply_in supplies.now) octets) }
    ensures no { IfOk result (λ yes. IsFalse yes → (granted : BeginsWithGranted
        (C.digest_of crypto.now) (C.is_signed crypto.now) now (map supply_in supplies.now) octets)
        → ¬ (IsDistinct (C.digest_of crypto.now) (C.is_signed crypto.now) granted.object)) }
{
    yes_is_exact(&unasked);
    match check::rta(alloc, octets, true, crypto, now, supplies) {
        Ok(rta) => {
            drop(rta);
            Ok(true)
        }
        Err(error) => {
            if lacked_memory(&error) {
                return Err(AllocError);
            }
            Ok(false)
        }
    }
}

// What is said of a certificate by nobody.
fn unasked(_cert: &Cert) -> Result<(), ValidationError> {
    Ok(())
}
