//! The certificate of the signer of an object that is built (RFC 6487, section 4).

ghost use Rattle.std.specs.Prelude.{◌≡◌, ◌↔◌, ℕ, List, IfOk, IfErr, OnOk};
ghost use Rattle.rpki_der.specs.declared.mode.Mode.TheVariants.{Der};
ghost use Rattle.rpki_basics.specs.Signing.{CountsError};
ghost use Rattle.rpki_issued.specs.Tbs.{IsNotSigned, tbs_of};
ghost use Rattle.rpki_issued.specs.Written.{ClaimsIpv4, made_certificate, tbs_octets};
ghost use Rattle.rpki_signing.specs.Built.{NamesInDer, claims_of, issuer_of, unsigned_of};

use crate::builder::SignedObjectBuilder;
use rpki_basics::{Name, PublicKey, Signer, SigningError};
use rpki_certs::Cert;
use rpki_faults::{KeyUsage, Overclaim};
use rpki_issued::TbsCert;
use std::alloc::{AllocError, Global};

// The name of the issuer, or that of its key.
fn issuer_of(alloc: Global, name: &Option<Name>, key: &PublicKey) -> Result<Name, AllocError>
    ensures { IfOk result (λ n. n ≡ issuer_of name.now key.now) }
{
    match name {
        Some(name) => name.clone(),
        None => key.to_subject_name(alloc),
    }
}

impl SignedObjectBuilder {
    // The certificate, before it is signed, with this name and these keys of the issuer and of the
    // signer.
    fn unsigned(self, name: Name, issuer: &PublicKey, key: PublicKey) -> TbsCert
        requires { name ≡ issuer_of self.issuer issuer.now }
        ensures { result ≡ unsigned_of self issuer.now key }
    {
        let mut cert = TbsCert::new(
            self.serial_number,
            name,
            self.validity,
            self.subject,
            key,
            KeyUsage::Ee,
            Overclaim::Refuse,
        );
        cert.set_authority_key_identifier(Some(issuer.key_identifier()));
        cert.set_crl_uri(Some(self.crl_uri));
        cert.set_ca_issuer(Some(self.ca_issuer));
        cert.set_signed_object(Some(self.signed_object));
        cert.set_as_resources(self.as_numbers);
        cert.set_v4_resources(self.v4);
        cert.set_v6_resources(self.v6);
        cert
    }

    /// The certificate of the key that signs the object, signed by the issuer's key. Refuses as
    /// `TbsCert::into_cert` does.
    pub(crate) fn certificate<S: Signer>(
        self,
        alloc: Global,
        issuer: &PublicKey,
        key: PublicKey,
        signer: &mut S,
        issuer_key: &S::KeyId,
    ) -> Result<Cert, SigningError<S::Error>>
        requires { ClaimsIpv4 (claims_of self) }
        ensures made { IfOk result (λ c. c.certificate
            ≡ made_certificate (tbs_of (unsigned_of self issuer.now key)) c.certificate.signature) }
        ensures der { IfOk result (λ c. c.mode ≡ Der) }
        ensures signed { IfOk result (λ c. S.may_sign signer.old
            (S.key_of signer.old issuer_key.now)
            (tbs_octets (tbs_of (unsigned_of self issuer.now key))) c.certificate.signature) }
        ensures names { OnOk result (NamesInDer self) }
        ensures refused { IfErr result (IsNotSigned (S.may_sign signer.old
            (S.key_of signer.old issuer_key.now)) (unsigned_of self issuer.now key)) }
        ensures cause { CountsError (S.failures signer.old) (S.failures signer.new) result }
        ensures keys { (k : S.KeyId) → S.key_of signer.new k ≡ S.key_of signer.old k }
        ensures signs { (k m s : List ℕ) →
            S.may_sign signer.new k m s ↔ S.may_sign signer.old k m s }
        ensures digests { (m : List ℕ) → S.digest_of signer.new m ≡ S.digest_of signer.old m }
        ensures verdicts { (k m s : List ℕ) →
            S.is_signed signer.new k m s ≡ S.is_signed signer.old k m s }
        ensures once { (k : List ℕ) → S.is_one_off signer.new k ↔ S.is_one_off signer.old k }
    {
        match issuer_of(alloc, &self.issuer, issuer) {
            Err(_) => {
                drop(self);
                drop(key);
                Err(SigningError::Memory)
            }
            Ok(name) => self
                .unsigned(name, issuer, key)
                .into_cert(alloc, signer, issuer_key),
        }
    }
}
