//! Building attestations (draft-michaelson-rpki-rta, section 3).

mod carried;
mod into;
mod signing;

ghost use Rattle.std.specs.Prelude.{◌≡◌, ◌<◌, ◌^◌, ◌↔◌, ◌++◌, ◌∷◌, [], ℕ, List, length};
ghost use Rattle.std.specs.Prelude.{IfErr, IfOk, OnErr, OnOk};
ghost use Rattle.std.specs.Borrow.{sem};
ghost use Rattle.rpki_der.specs.declared.mode.Mode.TheVariants.{Der};
ghost use Rattle.rpki_attributes.specs.Attrs.Made.{attributes_of};
ghost use Rattle.rpki_attributes.specs.Signing.{AreNotSigned};
ghost use Rattle.rpki_basics.specs.Signing.{CountsError};
ghost use Rattle.rpki_multi.specs.Attestation.{RtaForm, IsKeptRta, whole_of};
ghost use Rattle.rpki_multi.specs.Built.{begun_of, IsNotBegun, IsSignedBy, GainsSigner, IsNotMade};
ghost use Rattle.rpki_multi.specs.Built.{with_certs, with_crls};
ghost use Rattle.rpki_multi.specs.Lent.{LendsCerts, LendsCrls, LendsSigners};
ghost use Rattle.rpki_multi.specs.Multi.{AreKept, CarriedIn};
ghost use Rattle.rpki_multi.specs.Signer.{id_rta};
ghost use Rattle.rpki_multi.specs.Written.{multi_contents, multi_octets};

use crate::attestation::Rta;
use crate::builder::carried::are_in_der;
use crate::builder::signing::signer_of;
use crate::multi::MultiSignedObject;
use crate::multi::parts::Parts;
use crate::signer::SignerInfo;
use bytes::Bytes;
pub use into::IntoRtaBuilder;
use rpki_basics::{Signer, SigningError, Time};
use rpki_certs::Cert;
use rpki_crls::Crl;
use rpki_der::{Encode, EncodeError, Mode};
use rpki_tagged::ResourceTaggedAttestation;
use std::alloc::{AllocError, Global};
use std::marker::Model;

// Octets of a content, and what they begin with.
#[derive(Drop)]
struct ReadContent {
    octets: Bytes,
    content: ResourceTaggedAttestation,
}

impl Model for ReadContent {
    ghost use Rattle.std.specs.Prelude.{ℕ, List};
    ghost use Rattle.rpki_der.specs.declared.mode.Mode.TheVariants.{Der};
    ghost use Rattle.rpki_der.specs.Form.Made.{Begins};
    ghost use Rattle.rpki_tagged.specs.Attestation.{Attestation, AttestationForm};

    ghost Value = { List ℕ × Attestation };

    ghost view = { λ s. (s.octets, s.content) };

    ghost invariant = { λ s. Begins (AttestationForm Der) s.octets s.content };
}

/// A builder of an attestation: what is attested, the certificates and the revocation lists that
/// are carried with it, and what its signers say (draft-michaelson-rpki-rta, section 3). Contracts
/// see it as the attestation that it would make, with the mode that each part was read in.
#[derive(Drop)]
pub struct RtaBuilder {
    said: ReadContent,
    certs: Vec<Cert>,
    crls: Vec<Crl>,
    signers: Vec<SignerInfo>,
}

impl Model for RtaBuilder {
    ghost use Rattle.rpki_der.specs.declared.mode.Mode.TheVariants.{Der};
    ghost use Rattle.rpki_multi.specs.Attestation.{KeptWhole};

    ghost Value = { KeptWhole };

    ghost view = { λ b. record {
      signed = record {
        mode = Der;
        content = b.said.0;
        certs = b.certs.items;
        crls = b.crls.items;
        signers = b.signers.items;
      };
      content = b.said.1;
    } };
}

impl RtaBuilder {
    /// A builder for this content, which is written in DER, without certificates, revocation lists
    /// and signers. Refuses by `TooLong` where the content has 2^32 octets or more, and by
    /// `Memory`.
    pub fn from_attestation(
        alloc: Global,
        content: ResourceTaggedAttestation,
    ) -> Result<RtaBuilder, EncodeError>
        ensures begun { IfOk result (λ b. b ≡ begun_of content) }
        ensures refused { IfErr result (IsNotBegun content) }
    {
        match content.encode_ref().to_bytes(alloc) {
            Err(fault) => {
                drop(content);
                Err(fault)
            }
            Ok(octets) => match Bytes::from_vec(octets) {
                Err(_) => {
                    drop(content);
                    Err(EncodeError::Memory)
                }
                Ok(octets) => Ok(RtaBuilder {
                    said: ReadContent { octets, content },
                    certs: Vec::new(alloc),
                    crls: Vec::new(alloc),
                    signers: Vec::new(alloc),
                }),
            },
        }
    }

    /// A builder with the content of this attestation, its octets as they were read, and with the
    /// certificates, the revocation lists and the signers of it.
    pub fn from_rta(rta: Rta) -> RtaBuilder
        ensures { result ≡ rta }
    {
        let (signed, content) = rta.into_parts();
        let Parts {
            mode: _,
            content: octets,
            certs,
            crls,
            signers,
        } = signed.into_parts();
        RtaBuilder {
            said: ReadContent { octets, content },
            certs,
            crls,
            signers,
        }
    }

    /// What is attested.
    pub fn content(&self) -> &ResourceTaggedAttestation
        ensures { result.now ≡ self.now.content }
    {
        &self.said.content
    }

    /// Adds a certificate after the others. Where there is no memory for it, the builder stays as
    /// it was.
    pub fn push_cert(&mut self, cert: Cert) -> Result<(), AllocError>
        ensures pushed { OnOk result
            (self.new ≡ with_certs self.old (self.old.signed.certs ++ cert ∷ [])) }
        ensures unchanged { OnErr result (self.new ≡ self.old) }
    {
        self.certs.push(cert)?;
        Ok(())
    }

    /// The certificates, in their order.
    pub fn certificates(&self) -> &[Cert]
        ensures { result.now ≡ self.now.signed.certs }
    {
        self.certs.as_slice()
    }

    /// Mutable access to the certificates.
    pub fn certificates_mut(&mut self) -> &mut Vec<Cert>
        ensures* writes_back { sem 𝓛 (LendsCerts self.entry result) }
        ensures value { result.now.items ≡ self.old.signed.certs }
    {
        &mut self.certs
    }

    /// Adds a revocation list after the others. Where there is no memory for it, the builder stays
    /// as it was.
    pub fn push_crl(&mut self, crl: Crl) -> Result<(), AllocError>
        ensures pushed { OnOk result
            (self.new ≡ with_crls self.old (self.old.signed.crls ++ crl ∷ [])) }
        ensures unchanged { OnErr result (self.new ≡ self.old) }
    {
        self.crls.push(crl)?;
        Ok(())
    }

    /// The revocation lists, in their order.
    pub fn crls(&self) -> &[Crl]
        ensures { result.now ≡ self.now.signed.crls }
    {
        self.crls.as_slice()
    }

    /// Mutable access to the revocation lists.
    pub fn crls_mut(&mut self) -> &mut Vec<Crl>
        ensures* writes_back { sem 𝓛 (LendsCrls self.entry result) }
        ensures value { result.now.items ≡ self.old.signed.crls }
    {
        &mut self.crls
    }

    /// Adds what a signer says of the content by this key, at this time, after the other signers.
    /// The signer is asked for a signature of the attributes, and then for the key, in this order,
    /// which no clause says. Refuses by the signer's faults, by `AttrsTooLong` where the attributes
    /// have more than 65535 octets, and by `Memory`; the builder then stays as it was.
    pub fn sign<S: Signer>(
        &mut self,
        alloc: Global,
        signer: &mut S,
        key: &S::KeyId,
        signing_time: Time,
    ) -> Result<(), SigningError<S::Error>>
        ensures signed { OnOk result (GainsSigner (IsSignedBy
            (S.may_sign signer.old (S.key_of signer.old key.now)) (S.key_of signer.old key.now)
            (S.digest_of signer.old self.old.signed.content) signing_time) self.old self.new) }
        ensures unchanged { OnErr result (self.new ≡ self.old) }
        ensures refused { IfErr result (AreNotSigned (attributes_of id_rta
            (S.digest_of signer.old self.old.signed.content) signing_time)) }
        ensures cause { CountsError (S.failures signer.old) (S.failures signer.new) result }
        ensures keys { (k : S.KeyId) → S.key_of signer.new k ≡ S.key_of signer.old k }
        ensures signs { (k m s : List ℕ) →
            S.may_sign signer.new k m s ↔ S.may_sign signer.old k m s }
        ensures digests { (m : List ℕ) → S.digest_of signer.new m ≡ S.digest_of signer.old m }
        ensures verdicts { (k m s : List ℕ) →
            S.is_signed signer.new k m s ≡ S.is_signed signer.old k m s }
        ensures once { (k : List ℕ) → S.is_one_off signer.new k ↔ S.is_one_off signer.old k }
    {
        let content = self.said.octets.as_slice();
        match signer_of(alloc, content, signing_time, signer, key) {
            Err(fault) => Err(fault),
            Ok(info) => {
                self.signers.push(info)?;
                Ok(())
            }
        }
    }

    /// What the signers say, in their order.
    pub fn signer_infos(&self) -> &[SignerInfo]
        ensures { result.now ≡ self.now.signed.signers }
    {
        self.signers.as_slice()
    }

    /// Mutable access to what the signers say.
    pub fn signer_infos_mut(&mut self) -> &mut Vec<SignerInfo>
        ensures* writes_back { sem 𝓛 (LendsSigners self.entry result) }
        ensures value { result.now.items ≡ self.old.signed.signers }
    {
        &mut self.signers
    }

    // What is carried is what its types promise. Refuses by `NotDer` where some of it was read in
    // BER.
    fn carries_der(&self) -> Result<(), EncodeError>
        ensures kept { OnOk result (AreKept self.now.signed) }
        ensures der { OnOk result (CarriedIn Der self.now.signed) }
        ensures refused { IfErr result (IsNotMade self.now) }
    {
        if !are_in_der(&self.certs) {
            return Err(EncodeError::NotDer);
        }
        if !are_in_der(&self.crls) {
            return Err(EncodeError::NotDer);
        }
        if !are_in_der(&self.signers) {
            return Err(EncodeError::NotDer);
        }
        Ok(())
    }

    // The object of what it has, and what its content begins with.
    fn into_object(self) -> (MultiSignedObject, ResourceTaggedAttestation)
        requires kept { AreKept self.signed }
        requires der { CarriedIn Der self.signed }
        ensures object { result.0 ≡ self.signed }
        ensures content { result.1 ≡ self.content }
        ensures rta { IsKeptRta (record { signed = result.0; content = result.1 }) }
    {
        let RtaBuilder {
            said,
            certs,
            crls,
            signers,
        } = self;
        let ReadContent { octets, content } = said;
        let parts = Parts {
            mode: Mode::Der,
            content: octets,
            certs,
            crls,
            signers,
        };
        (MultiSignedObject::of(parts), content)
    }

    /// The attestation. Refuses by `NotDer` where a certificate, a revocation list or a signer was
    /// read in BER, and else by `TooLong` where the object has contents of 2^32 octets or more. It
    /// takes no memory.
    pub fn finalize(self) -> Result<Rta, EncodeError>
        ensures made { IfOk result (λ r. r ≡ self) }
        ensures der { OnOk result (CarriedIn Der self.signed) }
        ensures short { OnOk result (length (multi_contents self.signed) < 2 ^ 32) }
        ensures written { OnOk result (RtaForm Der (multi_octets self.signed) (whole_of self)) }
        ensures refused { IfErr result (IsNotMade self) }
    {
        match self.carries_der() {
            Err(fault) => {
                drop(self);
                Err(fault)
            }
            Ok(()) => {
                let (signed, content) = self.into_object();
                match signed.encode_ref().encoded_len() {
                    Err(_) => {
                        drop(signed);
                        drop(content);
                        Err(EncodeError::TooLong)
                    }
                    Ok(_) => Ok(Rta::of(signed, content)),
                }
            }
        }
    }
}
