//! Signed objects, as those who have a kind of content of their own use them.

ghost use Rattle.std.specs.Prelude.{◌≡◌, ℕ, List, Err, IfOk, MatchResult};
ghost use Rattle.rpki_der.specs.declared.encode.EncodeError.TheVariants.{NotDer, Memory};
ghost use Rattle.rpki_der.specs.declared.mode.Mode.TheVariants.{Der, Ber};
ghost use Rattle.rpki_der.specs.Grammar.{Front, HasNoFront};
ghost use Rattle.rpki_der.specs.Read.Parse.{u32_at};
ghost use Rattle.rpki_der.specs.Read.Reads.{Found, Refuses};
ghost use Rattle.rpki_certs.specs.Inspect.{ee_checks};
ghost use Rattle.rpki_certs.specs.Validate.{AreHeld, IsGoodUnder};
ghost use Rattle.rpki_faults.specs.Checks.{AllHold};
ghost use Rattle.rpki_sigobj.specs.Object.{SignedObject as Said, SignedFormOf};
ghost use Rattle.rpki_sigobj.specs.Object.{cert_of};
ghost use Rattle.rpki_sigobj.specs.Verify.{IsWellSigned};

use bytes::Bytes;
use rpki::cert::ResourceCert;
use rpki::cert::laws::numbers_are_held;
use rpki::crypto::Crypto;
use rpki::der::{DecodeError, EncodeError, Oid};
use rpki::error::ValidationError;
use rpki::sigobj::SignedObject;
use rpki::sigobj::laws::valid_objects;
use rpki::x509::Time;
use std::alloc::Global;

/// The content of the signed object of this type at the front of octets in DER.
pub fn content_in(alloc: Global, octets: Bytes, content_type: &Oid) -> Result<Bytes, DecodeError>
    ensures { MatchResult result
        (λ content. (o : Said) × (rest : List ℕ)
        × Front (SignedFormOf content_type.now Der) octets o rest
        × (content ≡ o.signed.content))
        (λ error. Refuses error (HasNoFront (SignedFormOf content_type.now Der) octets)) }
{
    let object = SignedObject::decode_if_type(alloc, octets, content_type, true)?;
    let content: Result<_, _> = object.content().clone();
    drop(object);
    Ok(content?)
}

/// The number that the content of an object begins with, in DER.
pub fn number_of(object: &SignedObject) -> Result<u32, DecodeError>
    ensures { Found (λ n. n) (u32_at Der object.now.object.signed.content) result }
{
    object.decode_content(|cons| cons.take_u32())
}

/// The certificate of the signer of an object with its numbers, under an issuer that was validated.
/// The object is well signed, the certificate fits the profile of published objects and is good,
/// and all its numbers are the issuer's.
pub fn signer_under<C: Crypto>(
    alloc: Global,
    object: SignedObject,
    issuer: &ResourceCert,
    crypto: &C,
    now: Time,
) -> Result<ResourceCert, ValidationError>
    ensures good { IfOk result (λ _.
        IsWellSigned (C.digest_of crypto.now) (C.is_signed crypto.now) object.object.signed
        × AllHold (ee_checks object.object.signed.cert.tbs)
        × IsGoodUnder (C.is_signed crypto.now) object.object.signed.cert issuer.now now) }
    ensures held { IfOk result
        (λ made. (made.cert ≡ cert_of object) × AreHeld issuer.now.sets made.sets) }
{
    valid_objects();
    numbers_are_held();
    object.validate_at(alloc, issuer, true, crypto, now)
}

/// The octets of an object, as they were read in DER; of one that was read in BER there are none.
pub fn copy_of(object: &SignedObject) -> Result<Bytes, EncodeError>
    ensures der { object.now.mode ≡ Der → MatchResult result
        (λ copy. copy ≡ object.now.object.octets) (λ e. e ≡ Memory) }
    ensures ber { object.now.mode ≡ Ber → result ≡ Err NotDer }
{
    object.to_captured()
}
