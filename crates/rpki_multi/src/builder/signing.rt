//! What a signer says that is made (RFC 5652, section 5.3; RFC 6488, section 2.1.6).

ghost use Rattle.std.specs.Prelude.{◌≡◌, ◌↔◌, ℕ, List, IfErr, IfOk, length};
ghost use Rattle.sha1.specs.Sha1.{sha1};
ghost use Rattle.rpki_attributes.specs.Attrs.Made.{attributes_of, message_of};
ghost use Rattle.rpki_attributes.specs.Signing.{AreNotSigned};
ghost use Rattle.rpki_basics.specs.Identifier.{identifier_length};
ghost use Rattle.rpki_basics.specs.Signing.{CountsError};
ghost use Rattle.rpki_multi.specs.Built.{IsSignedBy};
ghost use Rattle.rpki_multi.specs.Signer.{id_rta};

use crate::signer::{SignerInfo, content_type};
use rpki_attributes::SignedAttrs;
use rpki_basics::{RpkiSignature, RpkiSignatureAlgorithm, Signer, SigningError, Time};
use rpki_sigobj::SignerInfo as TypedSignerInfo;
use std::alloc::Global;

// The signature of these attributes by this key.
fn signature_of<S: Signer>(
    alloc: Global,
    attributes: &SignedAttrs,
    signer: &mut S,
    key: &S::KeyId,
) -> Result<RpkiSignature, SigningError<S::Error>>
    ensures signed { IfOk result (λ s. S.may_sign signer.old (S.key_of signer.old key.now)
        (message_of attributes.now.attributes) s) }
    ensures refused { (parts : List (List ℕ)) → IfErr result (AreNotSigned parts) }
    ensures cause { CountsError (S.failures signer.old) (S.failures signer.new) result }
    ensures keys { (k : S.KeyId) → S.key_of signer.new k ≡ S.key_of signer.old k }
    ensures signs { (k m s : List ℕ) →
        S.may_sign signer.new k m s ↔ S.may_sign signer.old k m s }
    ensures digests { (m : List ℕ) → S.digest_of signer.new m ≡ S.digest_of signer.old m }
    ensures verdicts { (k m s : List ℕ) →
        S.is_signed signer.new k m s ≡ S.is_signed signer.old k m s }
    ensures once { (k : List ℕ) → S.is_one_off signer.new k ↔ S.is_one_off signer.old k }
{
    let message = attributes.encode_verify(alloc)?;
    Ok(signer.sign(key, RpkiSignatureAlgorithm::RsaSha256, &message)?)
}

// What the signer says by these attributes, which it signs by this key.
fn signed<S: Signer>(
    alloc: Global,
    attributes: SignedAttrs,
    signer: &mut S,
    key: &S::KeyId,
) -> Result<TypedSignerInfo, SigningError<S::Error>>
    ensures attributes { IfOk result (λ s. s.signer.attributes ≡ attributes.attributes) }
    ensures mode { IfOk result (λ s. s.mode ≡ attributes.mode) }
    ensures sid { IfOk result (λ s. s.signer.sid ≡ sha1 (S.key_of signer.old key.now)) }
    ensures signed { IfOk result (λ s. S.may_sign signer.old (S.key_of signer.old key.now)
        (message_of attributes.attributes) s.signer.signature) }
    ensures len { IfOk result (λ s. length s.signer.sid ≡ identifier_length) }
    ensures refused { (parts : List (List ℕ)) → IfErr result (AreNotSigned parts) }
    ensures cause { CountsError (S.failures signer.old) (S.failures signer.new) result }
    ensures keys { (k : S.KeyId) → S.key_of signer.new k ≡ S.key_of signer.old k }
    ensures signs { (k m s : List ℕ) →
        S.may_sign signer.new k m s ↔ S.may_sign signer.old k m s }
    ensures digests { (m : List ℕ) → S.digest_of signer.new m ≡ S.digest_of signer.old m }
    ensures verdicts { (k m s : List ℕ) →
        S.is_signed signer.new k m s ≡ S.is_signed signer.old k m s }
    ensures once { (k : List ℕ) → S.is_one_off signer.new k ↔ S.is_one_off signer.old k }
{
    match signature_of(alloc, &attributes, signer, key) {
        Err(fault) => {
            drop(attributes);
            Err(fault)
        }
        Ok(signature) => match signer.get_key_info(key) {
            Err(fault) => {
                drop(attributes);
                drop(signature);
                Err(SigningError::from(fault))
            }
            Ok(key) => {
                let sid = key.key_identifier();
                drop(key);
                let _ = sid.as_slice();
                Ok(TypedSignerInfo::new(sid, attributes, signature))
            }
        },
    }
}

/// What the signer says of this content by this key, at this time.
pub fn signer_of<S: Signer>(
    alloc: Global,
    content: &[u8],
    time: Time,
    signer: &mut S,
    key: &S::KeyId,
) -> Result<SignerInfo, SigningError<S::Error>>
    ensures signed { IfOk result (IsSignedBy
        (S.may_sign signer.old (S.key_of signer.old key.now)) (S.key_of signer.old key.now)
        (S.digest_of signer.old content.now) time) }
    ensures refused { IfErr result
        (AreNotSigned (attributes_of id_rta (S.digest_of signer.old content.now) time)) }
    ensures cause { CountsError (S.failures signer.old) (S.failures signer.new) result }
    ensures keys { (k : S.KeyId) → S.key_of signer.new k ≡ S.key_of signer.old k }
    ensures signs { (k m s : List ℕ) →
        S.may_sign signer.new k m s ↔ S.may_sign signer.old k m s }
    ensures digests { (m : List ℕ) → S.digest_of signer.new m ≡ S.digest_of signer.old m }
    ensures verdicts { (k m s : List ℕ) →
        S.is_signed signer.new k m s ≡ S.is_signed signer.old k m s }
    ensures once { (k : List ℕ) → S.is_one_off signer.new k ↔ S.is_one_off signer.old k }
{
    match SignedAttrs::of_content(alloc, &content_type(), content, time, signer) {
        Err(fault) => Err(fault.signing_error()),
        Ok(attributes) => match signed(alloc, attributes, signer, key) {
            Err(fault) => Err(fault),
            Ok(said) => Ok(SignerInfo::of(said)),
        },
    }
}
