//! Signing a revocation list.

ghost use Rattle.std.specs.Prelude.{◌≡◌, ◌↔◌, ◌<◌, ◌^◌, ℕ, List, length, IfOk, IfErr, OnOk};
ghost use Rattle.rpki_der.specs.declared.mode.Mode.TheVariants.{Der};
ghost use Rattle.rpki_der.specs.Tags.{context};
ghost use Rattle.rpki_der.specs.Write.Encode.{IsBytesOf};
ghost use Rattle.rpki_basics.specs.Algorithm.{cert_algorithm_octets};
ghost use Rattle.rpki_basics.specs.Name.{IsName};
ghost use Rattle.rpki_basics.specs.Signing.{CountsError};
ghost use Rattle.rpki_basics.specs.Time.Form.{time_octets};
ghost use Rattle.rpki_crls.specs.Crl.{RevocationList, CrlForm, v2};
ghost use Rattle.rpki_issued_crls.specs.Lists.{IsNotIssued, IsToWrite, made_list, name_of};
ghost use Rattle.rpki_issued_crls.specs.Lists.{tbs_contents, tbs_octets};

use crate::builder::CrlBuilder;
use crate::entry::RevokedEncoder;
use crate::extensions::CrlExtensionsEncoder;
use bytes::Bytes;
use rpki_basics::{
    AlgorithmEncoder, Name, PublicKey, RpkiSignatureAlgorithm, Signer, SigningError, TimeEncoder,
};
use rpki_crls::Crl;
use rpki_der::encode::{CapturedEncoder, Unsigned, Value, integer_u8, sequence, tagged};
use rpki_der::{Encode, EncodeError, Tag};
use rpki_issued::signing::{only_memory, sign_and_join, signing_error_of};
use std::alloc::{AllocError, Global};

// The number of the version v2 (RFC 5280, section 5.1.2.1).
const V2: u8 = 1;

// The version, the algorithm, the issuer, and the fields after it.
type Fields<'a> = (
    Unsigned,
    AlgorithmEncoder,
    CapturedEncoder<'a>,
    LaterFields<'a>,
);

// This update, the next one, the entries, and the extensions.
type LaterFields<'a> = (
    TimeEncoder,
    TimeEncoder,
    RevokedEncoder<'a>,
    Value<CrlExtensionsEncoder<'a>>,
);

impl CrlBuilder {
    // The fields after the issuer.
    fn later_fields(&self) -> LaterFields<'_>
        ensures this_update { result.0 ≡ time_octets self.now.this_update }
        ensures next_update { result.1 ≡ time_octets self.now.next_update }
        ensures revoked { result.2.0.now ≡ self.now.revoked }
        ensures tag { result.3.tag.octet ≡ context 0 }
        ensures extensions { result.3.contents.0.now ≡ self.now.extensions }
    {
        (
            self.this_update.encode_ref(),
            self.next_update.encode_ref(),
            RevokedEncoder(&self.revoked),
            tagged(Tag::CTX_0, CrlExtensionsEncoder(&self.extensions)),
        )
    }

    // The fields, under this name of the issuer.
    fn fields<'a>(&'a self, issuer: &'a Name) -> Fields<'a>
        ensures version { result.0.0 ≡ v2 }
        ensures algorithm { result.1.0.now ≡ cert_algorithm_octets }
        ensures issuer { result.2.0.now ≡ issuer.now }
        ensures this_update { result.3.0 ≡ time_octets self.now.this_update }
        ensures next_update { result.3.1 ≡ time_octets self.now.next_update }
        ensures revoked { result.3.2.0.now ≡ self.now.revoked }
        ensures tag { result.3.3.tag.octet ≡ context 0 }
        ensures extensions { result.3.3.contents.0.now ≡ self.now.extensions }
    {
        (
            integer_u8(V2),
            RpkiSignatureAlgorithm::RsaSha256.encode_cert(),
            issuer.encode_ref(),
            self.later_fields(),
        )
    }

    // What is signed, under this name of the issuer.
    fn tbs_written(&self, alloc: Global, issuer: &Name) -> Result<Vec<u8>, EncodeError>
        requires { issuer.now.mode ≡ Der }
        ensures { IsBytesOf (Unit {0}) (length (tbs_contents self.now issuer.now.octets) < 2 ^ 32)
            (tbs_octets self.now issuer.now.octets) result }
    {
        sequence(self.fields(issuer)).to_bytes(alloc)
    }

    // What can be written: what the type promises.
    fn can_be_written(&self)
        ensures { IsToWrite self.now }
    {
        let _ = &self.this_update;
    }

    // What is signed, under the name of this key.
    fn octets_to_sign(&self, alloc: Global, key: &PublicKey) -> Result<Vec<u8>, EncodeError>
        ensures octets { IsBytesOf (Unit {0})
            (length (tbs_contents self.now (name_of key.now)) < 2 ^ 32)
            (tbs_octets self.now (name_of key.now)) result }
        ensures list { OnOk result (IsToWrite self.now) }
        ensures issuer { OnOk result (IsName Der (name_of key.now)) }
    {
        match key.to_subject_name(alloc) {
            Err(_) => Err(EncodeError::Memory),
            Ok(issuer) => {
                let _ = issuer.as_slice();
                self.can_be_written();
                self.tbs_written(alloc, &issuer)
            }
        }
    }
}

// The revocation list of octets that have its form.
fn read_back(alloc: Global, octets: Vec<u8>) -> Result<Crl, AllocError>
    requires { (c : RevocationList) × CrlForm Der octets.items c }
    ensures list { (c : RevocationList) → CrlForm Der octets.items c
        → IfOk result (λ k. k.list ≡ c) }
    ensures mode { IfOk result (λ k. k.mode ≡ Der) }
{
    let source = Bytes::from_vec(octets)?;
    match Crl::decode(alloc, source) {
        Ok(list) => Ok(list),
        Err(fault) => Err(only_memory(fault)),
    }
}

impl CrlBuilder {
    // The list under the name of this key, signed by the key that is named.
    fn issued<S: Signer>(
        self,
        alloc: Global,
        info: &PublicKey,
        signer: &mut S,
        key: &S::KeyId,
    ) -> Result<Crl, SigningError<S::Error>>
        ensures made { IfOk result
            (λ c. c.list ≡ made_list self (name_of info.now) c.list.signature) }
        ensures der { IfOk result (λ c. c.mode ≡ Der) }
        ensures signed { IfOk result (λ c. S.may_sign signer.old (S.key_of signer.old key.now)
            (tbs_octets self (name_of info.now)) c.list.signature) }
        ensures refused { IfErr result (IsNotIssued
            (S.may_sign signer.old (S.key_of signer.old key.now)) self (name_of info.now)) }
        ensures cause { CountsError (S.failures signer.old) (S.failures signer.new) result }
        ensures keys { (k : S.KeyId) → S.key_of signer.new k ≡ S.key_of signer.old k }
        ensures signs { (k m s : List ℕ) →
            S.may_sign signer.new k m s ↔ S.may_sign signer.old k m s }
        ensures digests { (m : List ℕ) → S.digest_of signer.new m ≡ S.digest_of signer.old m }
        ensures verdicts { (k m s : List ℕ) →
            S.is_signed signer.new k m s ≡ S.is_signed signer.old k m s }
        ensures once { (k : List ℕ) → S.is_one_off signer.new k ↔ S.is_one_off signer.old k }
    {
        match self.octets_to_sign(alloc, info) {
            Err(fault) => {
                drop(self);
                Err(signing_error_of(fault))
            }
            Ok(octets) => {
                drop(self);
                match sign_and_join(alloc, &octets, signer, key) {
                    Err(fault) => Err(fault),
                    Ok(joined) => match read_back(alloc, joined) {
                        Ok(list) => Ok(list),
                        Err(_) => Err(SigningError::Memory),
                    },
                }
            }
        }
    }

    /// The list, in DER, signed by the key of this name, which is the issuer's; the issuer is the
    /// name of this key. The signature is one that the signer may answer for what is signed with
    /// its header (RFC 5280, section 5.1.1.3); that it is asked for the key first, and for each
    /// once, no clause says. Entries stand in the order in which they were pushed, without
    /// extensions, and the list of them is left out where there are none (section 5.1.2.6). The
    /// extensions are the identifier of the issuer's key and the number, in this order; neither is
    /// critical (RFC 6487, section 5).
    ///
    /// Refuses by the faults of the signer, by `TooLong` where some contents has 2^32 octets or
    /// more, or by `Memory`.
    pub fn into_crl<S: Signer>(
        self,
        alloc: Global,
        signer: &mut S,
        key: &S::KeyId,
    ) -> Result<Crl, SigningError<S::Error>>
        ensures made { IfOk result (λ c. c.list
            ≡ made_list self (name_of (S.key_of signer.old key.now)) c.list.signature) }
        ensures der { IfOk result (λ c. c.mode ≡ Der) }
        ensures signed { IfOk result (λ c. S.may_sign signer.old (S.key_of signer.old key.now)
            (tbs_octets self (name_of (S.key_of signer.old key.now))) c.list.signature) }
        ensures refused { IfErr result (IsNotIssued
            (S.may_sign signer.old (S.key_of signer.old key.now)) self
            (name_of (S.key_of signer.old key.now))) }
        ensures cause { CountsError (S.failures signer.old) (S.failures signer.new) result }
        ensures keys { (k : S.KeyId) → S.key_of signer.new k ≡ S.key_of signer.old k }
        ensures signs { (k m s : List ℕ) →
            S.may_sign signer.new k m s ↔ S.may_sign signer.old k m s }
        ensures digests { (m : List ℕ) → S.digest_of signer.new m ≡ S.digest_of signer.old m }
        ensures verdicts { (k m s : List ℕ) →
            S.is_signed signer.new k m s ≡ S.is_signed signer.old k m s }
        ensures once { (k : List ℕ) → S.is_one_off signer.new k ↔ S.is_one_off signer.old k }
    {
        match signer.get_key_info(key) {
            Err(fault) => {
                drop(self);
                Err(SigningError::from(fault))
            }
            Ok(info) => {
                let list = self.issued(alloc, &info, signer, key);
                drop(info);
                list
            }
        }
    }
}
