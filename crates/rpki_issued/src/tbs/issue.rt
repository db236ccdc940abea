//! Signing a certificate.

ghost use Rattle.std.specs.Prelude.{◌≡◌, ◌↔◌, ◌<◌, ◌^◌, ℕ, List, length, IfOk, IfErr, IfSome};
ghost use Rattle.std.specs.Prelude.{OnOk};
ghost use Rattle.rpki_der.specs.declared.mode.Mode.TheVariants.{Der};
ghost use Rattle.rpki_der.specs.Tags.{SEQUENCE};
ghost use Rattle.rpki_der.specs.Write.Encode.{IsBytesOf};
ghost use Rattle.rpki_der.specs.Write.Written.{value_octets};
ghost use Rattle.rpki_certs.specs.Cert.{Certificate, CertForm};
ghost use Rattle.rpki_basics.specs.Signing.{CountsError};
ghost use Rattle.rpki_issued.specs.Written.{ClaimsIpv4, IsTbsToWrite};
ghost use Rattle.rpki_issued.specs.Written.{tbs_contents, tbs_octets, made_certificate};
ghost use Rattle.rpki_issued.specs.Tbs.{subject_octets, tbs_of, fields_octets, NamesInDer};
ghost use Rattle.rpki_issued.specs.Tbs.{IsNotSigned};

use crate::signing::{only_memory, sign_and_join, signing_error_of};
use crate::tbs::TbsCert;
use crate::tbs::encoder::{IssuerFields, SubjectFields};
use crate::writable;
use bytes::Bytes;
use rpki_basics::{Name, Signer, SigningError};
use rpki_certs::Cert;
use rpki_der::encode::sequence;
use rpki_der::{Encode, EncodeError};
use std::alloc::{AllocError, Global};

// The subject, or the name of the key.
fn subject_of(alloc: Global, t: &TbsCert) -> Result<Name, AllocError>
    ensures octets { IfOk result (λ n. n.octets ≡ subject_octets t.now.subject t.now.key) }
    ensures mode { IfOk result
        (λ n. (n.mode ≡ Der) ↔ IfSome t.now.subject (λ s. s.mode ≡ Der)) }
{
    match &t.subject {
        Some(name) => name.clone(),
        None => t.key.to_subject_name(alloc),
    }
}

// What is signed can be written.
fn can_be_written(t: &TbsCert, subject: &Name)
    requires subject { subject.now.octets ≡ subject_octets t.now.subject t.now.key }
    requires der { (t.now.issuer.mode ≡ Der) × (subject.now.mode ≡ Der) }
    requires ipv4 { ClaimsIpv4 t.now.extensions.claims }
    ensures { IsTbsToWrite (tbs_of t.now) }
{
    writable::extensions(&t.extensions);
    let _ = t.serial_number.encode_ref();
    let _ = t.validity.not_before().stamp();
    let _ = t.validity.not_after().stamp();
    let _ = t.issuer.as_slice();
    let _ = subject.as_slice();
}

// The SEQUENCE of the fields up to the issuer and of those from the validity on.
fn fields_written(alloc: Global, t: &TbsCert, subject: &Name) -> Result<Vec<u8>, EncodeError>
    ensures { IsBytesOf ((t.now.issuer.mode ≡ Der) × (subject.now.mode ≡ Der))
        (length (fields_octets t.now subject.now.octets) < 2 ^ 32)
        (value_octets SEQUENCE (fields_octets t.now subject.now.octets)) result }
{
    sequence((IssuerFields(t), SubjectFields { tbs: t, subject })).to_bytes(alloc)
}

// What is signed, with this subject.
fn tbs_written(alloc: Global, t: &TbsCert, subject: &Name) -> Result<Vec<u8>, EncodeError>
    requires octets { subject.now.octets ≡ subject_octets t.now.subject t.now.key }
    requires mode { (subject.now.mode ≡ Der) ↔ IfSome t.now.subject (λ s. s.mode ≡ Der) }
    ensures { IsBytesOf (NamesInDer t.now) (length (tbs_contents (tbs_of t.now)) < 2 ^ 32)
        (tbs_octets (tbs_of t.now)) result }
{
    fields_written(alloc, t, subject)
}

// What is signed, of a certificate that can be written.
fn octets_to_sign(alloc: Global, t: &TbsCert) -> Result<Vec<u8>, EncodeError>
    requires { ClaimsIpv4 t.now.extensions.claims }
    ensures octets { IsBytesOf (NamesInDer t.now) (length (tbs_contents (tbs_of t.now)) < 2 ^ 32)
        (tbs_octets (tbs_of t.now)) result }
    ensures can { OnOk result (IsTbsToWrite (tbs_of t.now)) }
{
    match subject_of(alloc, t) {
        Err(_) => Err(EncodeError::Memory),
        Ok(subject) => match tbs_written(alloc, t, &subject) {
            Err(fault) => Err(fault),
            Ok(octets) => {
                can_be_written(t, &subject);
                Ok(octets)
            }
        },
    }
}

// The certificate of octets that have its form.
fn read_back(alloc: Global, octets: Vec<u8>) -> Result<Cert, AllocError>
    requires { (c : Certificate) × CertForm Der octets.items c }
    ensures certificate { (c : Certificate) → CertForm Der octets.items c
        → IfOk result (λ k. k.certificate ≡ c) }
    ensures mode { IfOk result (λ k. k.mode ≡ Der) }
{
    let source = Bytes::from_vec(octets)?;
    match Cert::decode(alloc, source) {
        Ok(cert) => Ok(cert),
        Err(fault) => Err(only_memory(fault)),
    }
}

impl TbsCert {
    /// The certificate, in DER, signed by the key of this name, which is the issuer's: that of the
    /// certificate itself for a trust anchor. The signature is one that the signer may answer for
    /// what is signed with its header (RFC 5280, section 4.1.1.3); that it is asked once, no clause
    /// says. Extensions stand in the order basic constraints, identifiers of the subject's and of
    /// the issuer's key, key usage, revocation list, access to the issuer and to the subject,
    /// policies, IP addresses, AS numbers, each where there is something to say; critical are those
    /// that RFC 6487, section 4.8, has so.
    ///
    /// The blocks that are claimed of IPv4 have to be of this family. Refuses by the faults of the
    /// signer, by `NotDer` where a name was read in BER, by `TooLong` where some contents has 2^32
    /// octets or more, or by `Memory`.
    pub fn into_cert<S: Signer>(
        self,
        alloc: Global,
        signer: &mut S,
        key: &S::KeyId,
    ) -> Result<Cert, SigningError<S::Error>>
        requires { ClaimsIpv4 self.extensions.claims }
        ensures made { IfOk result
            (λ c. c.certificate ≡ made_certificate (tbs_of self) c.certificate.signature) }
        ensures der { IfOk result (λ c. c.mode ≡ Der) }
        ensures signed { IfOk result (λ c. S.may_sign signer.old (S.key_of signer.old key.now)
            (tbs_octets (tbs_of self)) c.certificate.signature) }
        ensures names { OnOk result (NamesInDer self) }
        ensures refused { IfErr result
            (IsNotSigned (S.may_sign signer.old (S.key_of signer.old key.now)) self) }
        ensures cause { CountsError (S.failures signer.old) (S.failures signer.new) result }
        ensures keys { (k : S.KeyId) → S.key_of signer.new k ≡ S.key_of signer.old k }
        ensures signs { (k m s : List ℕ) →
            S.may_sign signer.new k m s ↔ S.may_sign signer.old k m s }
        ensures digests { (m : List ℕ) → S.digest_of signer.new m ≡ S.digest_of signer.old m }
        ensures verdicts { (k m s : List ℕ) →
            S.is_signed signer.new k m s ≡ S.is_signed signer.old k m s }
        ensures once { (k : List ℕ) → S.is_one_off signer.new k ↔ S.is_one_off signer.old k }
    {
        match octets_to_sign(alloc, &self) {
            Err(fault) => {
                drop(self);
                Err(signing_error_of(fault))
            }
            Ok(octets) => {
                drop(self);
                match sign_and_join(alloc, &octets, signer, key) {
                    Err(fault) => Err(fault),
                    Ok(joined) => match read_back(alloc, joined) {
                        Ok(cert) => Ok(cert),
                        Err(_) => Err(SigningError::Memory),
                    },
                }
            }
        }
    }
}
