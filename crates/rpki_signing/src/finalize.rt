//! Signing objects that are built (RFC 6488, section 2).

ghost use Rattle.std.specs.Prelude.{◌≡◌, ◌↔◌, ℕ, List, IfOk, IfErr, OnOk};
ghost use Rattle.rpki_der.specs.declared.mode.Mode.TheVariants.{Der};
ghost use Rattle.rpki_attributes.specs.Attrs.Made.{AreMade, attributes_of, message_of};
ghost use Rattle.rpki_attributes.specs.Signing.{AreNotSigned};
ghost use Rattle.rpki_basics.specs.Signing.{CountsError};
ghost use Rattle.rpki_issued.specs.Written.{ClaimsIpv4};
ghost use Rattle.rpki_signing.specs.Built.{IsBuilt, IsNotBuilt, NamesInDer, claims_of};
ghost use Rattle.rpki_signing.specs.Written.{made_object};

use crate::builder::SignedObjectBuilder;
use crate::object::{Parts, object_of};
use rpki_attributes::SignedAttrs;
use rpki_basics::{PublicKey, RpkiSignature, RpkiSignatureAlgorithm, Signer, SigningError, Time};
use rpki_der::Oid;
use rpki_sigobj::SignedObject;
use std::alloc::Global;

// A content, with its type.
#[derive(Drop)]
struct Typed<'a> {
    content_type: &'a Oid,
    content: &'a [u8],
}

// Attributes, a signature of them, and the key that made it.
#[derive(Drop)]
struct SignedOnce {
    attributes: SignedAttrs,
    signature: RpkiSignature,
    key: PublicKey,
}

// The signature of these attributes by a key that is made for it, and this key.
fn one_off<S: Signer>(
    alloc: Global,
    attributes: &SignedAttrs,
    signer: &mut S,
) -> Result<(RpkiSignature, PublicKey), SigningError<S::Error>>
    ensures signed { IfOk result
        (λ p. S.may_sign signer.old p.1 (message_of attributes.now.attributes) p.0) }
    ensures one_off { IfOk result (λ p. S.is_one_off signer.old p.1) }
    ensures refused { (parts : List (List ℕ)) → IfErr result (AreNotSigned parts) }
    ensures cause { CountsError (S.failures signer.old) (S.failures signer.new) result }
    ensures keys { (k : S.KeyId) → S.key_of signer.new k ≡ S.key_of signer.old k }
    ensures signs { (k m s : List ℕ) →
        S.may_sign signer.new k m s ↔ S.may_sign signer.old k m s }
    ensures digests { (m : List ℕ) → S.digest_of signer.new m ≡ S.digest_of signer.old m }
    ensures verdicts { (k m s : List ℕ) →
        S.is_signed signer.new k m s ≡ S.is_signed signer.old k m s }
    ensures once { (k : List ℕ) → S.is_one_off signer.new k ↔ S.is_one_off signer.old k }
{
    let message = attributes.encode_verify(alloc)?;
    Ok(signer.sign_one_off(RpkiSignatureAlgorithm::RsaSha256, &message)?)
}

// The attributes of this content, signed by a key that is made for it.
fn signed_once<S: Signer>(
    alloc: Global,
    typed: &Typed<'_>,
    time: Time,
    signer: &mut S,
) -> Result<SignedOnce, SigningError<S::Error>>
    ensures made { IfOk result (λ o. AreMade typed.now.content_type.now
        (S.digest_of signer.old typed.now.content.now) time o.attributes.attributes) }
    ensures der { IfOk result (λ o. o.attributes.mode ≡ Der) }
    ensures signed { IfOk result (λ o.
        S.may_sign signer.old o.key (message_of o.attributes.attributes) o.signature) }
    ensures one_off { IfOk result (λ o. S.is_one_off signer.old o.key) }
    ensures refused { IfErr result (AreNotSigned (attributes_of typed.now.content_type.now
        (S.digest_of signer.old typed.now.content.now) time)) }
    ensures cause { CountsError (S.failures signer.old) (S.failures signer.new) result }
    ensures keys { (k : S.KeyId) → S.key_of signer.new k ≡ S.key_of signer.old k }
    ensures signs { (k m s : List ℕ) →
        S.may_sign signer.new k m s ↔ S.may_sign signer.old k m s }
    ensures digests { (m : List ℕ) → S.digest_of signer.new m ≡ S.digest_of signer.old m }
    ensures verdicts { (k m s : List ℕ) →
        S.is_signed signer.new k m s ≡ S.is_signed signer.old k m s }
    ensures once { (k : List ℕ) → S.is_one_off signer.new k ↔ S.is_one_off signer.old k }
{
    match SignedAttrs::of_content(alloc, typed.content_type, typed.content, time, signer) {
        Err(fault) => Err(fault.signing_error()),
        Ok(attributes) => match one_off(alloc, &attributes, signer) {
            Err(fault) => {
                drop(attributes);
                Err(fault)
            }
            Ok((signature, key)) => Ok(SignedOnce {
                attributes,
                signature,
                key,
            }),
        },
    }
}

impl SignedObjectBuilder {
    // The signed object of this content, whose attributes were signed once.
    fn issued<S: Signer>(
        self,
        alloc: Global,
        typed: &Typed<'_>,
        once: SignedOnce,
        issuer: &PublicKey,
        signer: &mut S,
        issuer_key: &S::KeyId,
    ) -> Result<SignedObject, SigningError<S::Error>>
        requires ipv4 { ClaimsIpv4 (claims_of self) }
        requires made { AreMade typed.now.content_type.now
            (S.digest_of signer.old typed.now.content.now) self.signing_time
            once.attributes.attributes }
        requires der { once.attributes.mode ≡ Der }
        requires issuer { issuer.now ≡ S.key_of signer.old issuer_key.now }
        requires signed { S.may_sign signer.old once.key
            (message_of once.attributes.attributes) once.signature }
        requires one_off { S.is_one_off signer.old once.key }
        ensures built { IfOk result (λ o. IsBuilt self issuer.now
            typed.now.content_type.now typed.now.content.now
            (S.digest_of signer.old typed.now.content.now) o.object.signed) }
        ensures der { IfOk result (λ o. o.mode ≡ Der) }
        ensures written { IfOk result (λ o. o.object ≡ made_object o.object.signed) }
        ensures key { IfOk result (λ o. o.object.signed.cert.tbs.key ≡ once.key) }
        ensures attributes { IfOk result
            (λ o. o.object.signed.signer.attributes ≡ once.attributes.attributes) }
        ensures signature { IfOk result
            (λ o. o.object.signed.signer.signature ≡ once.signature) }
        ensures cert_signed { IfOk result (λ o. S.may_sign signer.old
            (S.key_of signer.old issuer_key.now) o.object.signed.cert.signed
            o.object.signed.cert.signature) }
        ensures names { OnOk result (NamesInDer self) }
        ensures refused { IfErr result (IsNotBuilt (S.may_sign signer.old)
            (S.is_one_off signer.old) self issuer.now typed.now.content_type.now
            typed.now.content.now (S.digest_of signer.old typed.now.content.now)) }
        ensures cause { CountsError (S.failures signer.old) (S.failures signer.new) result }
        ensures keys { (k : S.KeyId) → S.key_of signer.new k ≡ S.key_of signer.old k }
        ensures signs { (k m s : List ℕ) →
            S.may_sign signer.new k m s ↔ S.may_sign signer.old k m s }
        ensures digests { (m : List ℕ) → S.digest_of signer.new m ≡ S.digest_of signer.old m }
        ensures verdicts { (k m s : List ℕ) →
            S.is_signed signer.new k m s ≡ S.is_signed signer.old k m s }
        ensures once { (k : List ℕ) → S.is_one_off signer.new k ↔ S.is_one_off signer.old k }
    {
        let SignedOnce {
            attributes,
            signature,
            key,
        } = once;
        let sid = key.key_identifier();
        match self.certificate(alloc, issuer, key, signer, issuer_key) {
            Err(fault) => {
                drop(attributes);
                drop(signature);
                Err(fault)
            }
            Ok(cert) => {
                let object = object_of(
                    alloc,
                    &Parts {
                        content_type: typed.content_type,
                        content: typed.content,
                        cert: &cert,
                        sid: &sid,
                        attributes: &attributes,
                        signature: &signature,
                    },
                );
                drop(cert);
                drop(attributes);
                drop(signature);
                object
            }
        }
    }

    /// The signed object of this content. Both signatures are such as the signer may answer: that
    /// of the attributes by a key that is made to sign once, and that of the certificate of this
    /// key by the issuer's. The signer is asked for the issuer's key, and then for these two, in
    /// this order, which no clause says. Refuses by the signer's faults, by `AttrsTooLong` where
    /// the attributes have more than 65535 octets, by `TooLong` where some contents has 2^32 octets
    /// or more, by `NotDer` where a name was read in BER, and by `Memory`. The blocks that are
    /// claimed of IPv4 have to be of this family.
    pub fn finalize<S: Signer>(
        self,
        alloc: Global,
        content_type: &Oid,
        content: &[u8],
        signer: &mut S,
        issuer_key: &S::KeyId,
    ) -> Result<SignedObject, SigningError<S::Error>>
        requires ipv4 { ClaimsIpv4 (claims_of self) }
        ensures built { IfOk result (λ o. IsBuilt self (S.key_of signer.old issuer_key.now)
            content_type.now content.now (S.digest_of signer.old content.now) o.object.signed) }
        ensures der { IfOk result (λ o. o.mode ≡ Der) }
        ensures written { IfOk result (λ o. o.object ≡ made_object o.object.signed) }
        ensures signed { IfOk result (λ o. S.may_sign signer.old o.object.signed.cert.tbs.key
            (message_of o.object.signed.signer.attributes) o.object.signed.signer.signature) }
        ensures one_off { IfOk result
            (λ o. S.is_one_off signer.old o.object.signed.cert.tbs.key) }
        ensures cert_signed { IfOk result (λ o. S.may_sign signer.old
            (S.key_of signer.old issuer_key.now) o.object.signed.cert.signed
            o.object.signed.cert.signature) }
        ensures names { OnOk result (NamesInDer self) }
        ensures refused { IfErr result (IsNotBuilt (S.may_sign signer.old)
            (S.is_one_off signer.old) self (S.key_of signer.old issuer_key.now)
            content_type.now content.now (S.digest_of signer.old content.now)) }
        ensures cause { CountsError (S.failures signer.old) (S.failures signer.new) result }
        ensures keys { (k : S.KeyId) → S.key_of signer.new k ≡ S.key_of signer.old k }
        ensures signs { (k m s : List ℕ) →
            S.may_sign signer.new k m s ↔ S.may_sign signer.old k m s }
        ensures digests { (m : List ℕ) → S.digest_of signer.new m ≡ S.digest_of signer.old m }
        ensures verdicts { (k m s : List ℕ) →
            S.is_signed signer.new k m s ≡ S.is_signed signer.old k m s }
        ensures once { (k : List ℕ) → S.is_one_off signer.new k ↔ S.is_one_off signer.old k }
    {
        let typed = Typed {
            content_type,
            content,
        };
        match signer.get_key_info(issuer_key) {
            Err(fault) => {
                drop(self);
                Err(SigningError::from(fault))
            }
            Ok(issuer) => match signed_once(alloc, &typed, self.signing_time(), signer) {
                Err(fault) => {
                    drop(self);
                    drop(issuer);
                    Err(fault)
                }
                Ok(once) => {
                    let object = self.issued(alloc, &typed, once, &issuer, signer, issuer_key);
                    drop(issuer);
                    object
                }
            },
        }
    }
}
