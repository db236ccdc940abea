//! Signing octets, and joining the signature to them, as in a certificate or a revocation list.

ghost use Rattle.std.specs.Prelude.{◌≡◌, ◌↔◌, ◌<◌, ◌^◌, ℕ, List, length, IfOk, IfErr};
ghost use Rattle.rpki_der.specs.declared.encode.EncodeError.TheVariants.{Io};
ghost use Rattle.rpki_der.specs.declared.error.DecodeError.{DecodeError};
ghost use Rattle.rpki_der.specs.Tags.{SEQUENCE};
ghost use Rattle.rpki_der.specs.Write.Encode.{IsBytesOf};
ghost use Rattle.rpki_der.specs.Write.Written.{value_octets};
ghost use Rattle.rpki_issued.specs.Signing.{signed_contents, IsJoined, IsNotJoined};
ghost use Rattle.rpki_basics.specs.Signing.{CountsError};
ghost use Rattle.rpki_issued.specs.Signing.{encode_fault};

use rpki_basics::{RpkiSignature, RpkiSignatureAlgorithm, Signer, SigningError};
use rpki_der::encode::{Raw, bit_string, sequence};
use rpki_der::{DecodeError, Encode, EncodeError};
use std::alloc::{AllocError, Global};

// The SEQUENCE of what is signed, the algorithm and the signature.
fn joined(alloc: Global, signed: &[u8], signature: &RpkiSignature) -> Result<Vec<u8>, EncodeError>
    ensures { IsBytesOf (Unit {0}) (length (signed_contents signed.now signature.now) < 2 ^ 32)
        (value_octets SEQUENCE (signed_contents signed.now signature.now)) result }
{
    let algorithm = RpkiSignatureAlgorithm::RsaSha256.encode_cert();
    sequence((Raw(signed), algorithm, bit_string(signature.value(), 0))).to_bytes(alloc)
}

/// The error where memory ran out, and nothing else is wrong.
pub fn only_memory(fault: DecodeError) -> AllocError
    requires { fault ≡ DecodeError.Memory }
{
    match fault {
        DecodeError::Memory => AllocError,
        DecodeError::Malformed => unreachable!(),
        DecodeError::Content(_) => unreachable!(),
    }
}

/// The error for what is not written into memory, where no call of a sink fails.
pub fn signing_error_of<E>(fault: EncodeError) -> SigningError<E>
    requires { ¬ (fault ≡ Io) }
    ensures { result ≡ encode_fault fault }
{
    match fault {
        EncodeError::NotDer => SigningError::NotDer,
        EncodeError::TooLong => SigningError::TooLong,
        EncodeError::Memory => SigningError::Memory,
        EncodeError::Io => unreachable!(),
    }
}

/// Signs the octets of what is to be signed, a value, by the key of this name, and answers the
/// SEQUENCE of the value, the algorithm and the signature, in DER: a certificate (RFC 5280, section
/// 4.1) or a revocation list (RFC 5280, section 5.1). That the signer is asked once, no clause
/// says. Refuses by the faults of the signer, by `TooLong` where the SEQUENCE would have contents
/// of 2^32 octets or more, or by `Memory`.
pub fn sign_and_join<S: Signer>(
    alloc: Global,
    octets: &[u8],
    signer: &mut S,
    key: &S::KeyId,
) -> Result<Vec<u8>, SigningError<S::Error>>
    ensures joined { IfOk result (λ v. IsJoined
        (S.may_sign signer.old (S.key_of signer.old key.now) octets.now) octets.now v.items) }
    ensures refused { IfErr result (IsNotJoined
        (S.may_sign signer.old (S.key_of signer.old key.now) octets.now) octets.now) }
    ensures cause { CountsError (S.failures signer.old) (S.failures signer.new) result }
    ensures keys { (k : S.KeyId) → S.key_of signer.new k ≡ S.key_of signer.old k }
    ensures signs { (k m s : List ℕ) →
        S.may_sign signer.new k m s ↔ S.may_sign signer.old k m s }
    ensures digests { (m : List ℕ) → S.digest_of signer.new m ≡ S.digest_of signer.old m }
    ensures verdicts { (k m s : List ℕ) →
        S.is_signed signer.new k m s ≡ S.is_signed signer.old k m s }
    ensures once { (k : List ℕ) → S.is_one_off signer.new k ↔ S.is_one_off signer.old k }
{
    let signature = signer.sign(key, RpkiSignatureAlgorithm::RsaSha256, octets)?;
    match joined(alloc, octets, &signature) {
        Ok(whole) => Ok(whole),
        Err(fault) => Err(signing_error_of(fault)),
    }
}
