//! The validation of a multi-signed attestation (draft-michaelson-rpki-rta).

ghost use Rattle.std.specs.Prelude.{◌≡◌, ◌<◌, IfOk, IfErr, OnOk};
ghost use Rattle.rpki_faults.specs.declared.validation.ValidationError.TheVariants.{Memory};
ghost use Rattle.rpki_multi.specs.Attestation.{whole_of};
ghost use Rattle.rpki_rta.specs.Begun.{AnswersSupply, AsksFew, IsBegun, IsEnded, EndsWith};
ghost use Rattle.rpki_rta.specs.Begun.{supply_of_ca, supply_of_tal};
ghost use Rattle.rpki_rta.specs.Granted.{IsAcceptedRta, RefusesRightly};
ghost use Rattle.rpki_rta.specs.Refused.{WhyRefused};

use crate::carried::Carried;
use crate::faults::{of_end, of_supply};
use crate::handles::{accepted, attested_in};
use crate::verdict_total::VerdictTotal;
use rpki_basics::{Clock, Crypto, Time};
use rpki_certs::ResourceCert;
use rpki_faults::ValidationError;
use rpki_multi::Rta;
use rpki_paths::{Path, Supplied, VerdictCount, finalize, supply_each};
use rpki_tagged::ResourceTaggedAttestation;
use rpki_tal::Tal;
use std::alloc::{AllocError, Global};
use std::marker::{Brand, Model};
use std::sync::ledger::{Blank, Ledger};

/// An attestation that is being validated: what it carries is accepted, and its paths wait for what
/// anchors them. Contracts see it as the attestation, what is kept of the paths, and how many
/// verdicts were asked to begin.
#[derive(Drop)]
#[derive_where(Debug)]
pub struct Validation<'a, C> {
    rta: &'a Rta,
    pub(crate) paths: Vec<Path<Carried<'a, C>>>,
    #[derive_where(skip)]
    verdicts: VerdictTotal,
}

impl<'a, C> Model for Validation<'a, C> {
    ghost use Rattle.rpki_rta.specs.Begun.{Begun};

    ghost Value = { Begun C };

    ghost view = { λ v. record {
      rta = v.rta.now;
      paths = v.paths.items;
      verdicts = v.verdicts.number;
    } };
}

impl<'a, C> Clone for Validation<'a, C> {
    ghost is_clone = { λ v copy. copy ≡ v };

    fn clone(&self) -> Result<Self, AllocError> {
        Ok(Validation {
            rta: self.rta,
            paths: self.paths.clone()?,
            verdicts: self.verdicts.copied(),
        })
    }
}

impl<'a, C: Crypto> Validation<'a, C> {
    // Begins a validation, and counts the verdicts that it asks on a ledger of its own.
    fn begin<L: Ledger>(
        alloc: Global,
        rta: &'a Rta,
        crypto: &'a C,
        now: Time,
        blank: Blank,
    ) -> Result<Self, ValidationError>
        requires name { blank.name ≡ L.name }
        requires parts { blank.parts ≡ L.parts }
        requires some { 0 < blank.parts }
        ensures begun { IfOk result (IsBegun C.digest_of C.is_signed crypto.now now rta.now) }
        ensures accepted { OnOk result (IsAcceptedRta (C.digest_of crypto.now)
            (C.is_signed crypto.now) now (whole_of rta.now)) }
        ensures refused { IfErr result (RefusesRightly (C.digest_of crypto.now)
            (C.is_signed crypto.now) now (whole_of rta.now)) }
        ensures why { IfErr result (WhyRefused (C.digest_of crypto.now) (C.is_signed crypto.now)
            now (whole_of rta.now)) }
        ensures few { IfOk result (AsksFew (C.digest_of crypto.now) (C.is_signed crypto.now)
            (whole_of rta.now)) }
    {
        let mut asked = VerdictCount::<L>::new(blank);
        match accepted(alloc, rta, crypto, now, &mut asked) {
            Ok(paths) => Ok(Validation {
                rta,
                paths,
                verdicts: VerdictTotal::after(asked),
            }),
            Err(fault) => Err(fault),
        }
    }

    /// Begins the validation of an attestation at a moment (draft-michaelson-rpki-rta, section 5).
    /// All goes in carried order. Certificate by certificate: it is inspected, as that of an end
    /// entity where it has no basic constraints, as that of a trust anchor where it is self-signed
    /// by its form, else as that of a CA; the moment lies in its validity; and one of a CA takes
    /// the first revocation list that is left, names it and was signed by its key. Then signer by
    /// signer: it takes the first subject key that is left and its own, its digest is that of the
    /// content, and it takes the first certificate of an end entity that is left, that it names and
    /// whose key verifies it. Then no subject key may be left over, no revocation list, and no
    /// certificate of an end entity. Then a path is walked from the certificate of each signer, and
    /// each CA has to stand on one of them.
    ///
    /// Refuses by the first of these that fails: the fault of the certificate, `MissingCrl`,
    /// `UnknownKey`, `SignerDigest`, `MissingCertificate`, `UnusedSubjectKeys`, `UnusedCrls`,
    /// `UnusedEeCertificates`, `InvalidCaCertificates`, `PathReturns`, `Revoked`, `Overclaimed`,
    /// `UnusedCaCertificates`; or by `Memory`. Of s signers, l revocation lists and a CAs with
    /// distinct identifiers, at most s + l + s * a verdicts are asked where it succeeds, as it
    /// counts them. `strict` changes nothing.
    pub fn new_at(
        alloc: Global,
        rta: &'a Rta,
        _strict: bool,
        crypto: &'a C,
        now: Time,
    ) -> Result<Self, ValidationError>
        ensures begun { IfOk result (IsBegun C.digest_of C.is_signed crypto.now now rta.now) }
        ensures accepted { OnOk result (IsAcceptedRta (C.digest_of crypto.now)
            (C.is_signed crypto.now) now (whole_of rta.now)) }
        ensures refused { IfErr result (RefusesRightly (C.digest_of crypto.now)
            (C.is_signed crypto.now) now (whole_of rta.now)) }
        ensures why { IfErr result (WhyRefused (C.digest_of crypto.now) (C.is_signed crypto.now)
            now (whole_of rta.now)) }
        ensures few { IfOk result (AsksFew (C.digest_of crypto.now) (C.is_signed crypto.now)
            (whole_of rta.now)) }
    {
        Validation::<C>::begin::<Brand>(alloc, rta, crypto, now, Blank::new(1))
    }

    /// Begins the validation of an attestation at the moment that the clock tells. Asks and refuses
    /// as `new_at` does.
    pub fn new<K: Clock>(
        alloc: Global,
        rta: &'a Rta,
        strict: bool,
        crypto: &'a C,
        clock: &K,
    ) -> Result<Self, ValidationError>
        ensures begun { IfOk result (IsBegun C.digest_of C.is_signed crypto.now
            (K.moment clock.now) rta.now) }
        ensures accepted { OnOk result (IsAcceptedRta (C.digest_of crypto.now)
            (C.is_signed crypto.now) (K.moment clock.now) (whole_of rta.now)) }
        ensures refused { IfErr result (RefusesRightly (C.digest_of crypto.now)
            (C.is_signed crypto.now) (K.moment clock.now) (whole_of rta.now)) }
        ensures why { IfErr result (WhyRefused (C.digest_of crypto.now) (C.is_signed crypto.now)
            (K.moment clock.now) (whole_of rta.now)) }
        ensures few { IfOk result (AsksFew (C.digest_of crypto.now) (C.is_signed crypto.now)
            (whole_of rta.now)) }
    {
        Validation::new_at(alloc, rta, strict, crypto, clock.now())
    }

    /// Anchors each path whose head is self-signed by its form and has the key of the locator, in
    /// order, and answers whether all paths are anchored then (RFC 8630, section 3). The first such
    /// head that is not the valid certificate of a trust anchor ends the call, by the first fault
    /// of `Cert::inspect_ta` and `Cert::verify_ta_ref_at`: earlier paths keep their anchor, that
    /// path and later ones stay as they were. No memory is taken.
    pub fn supply_tal(&mut self, tal: &Tal) -> Result<bool, ValidationError>
        ensures answers { AnswersSupply C.is_signed (supply_of_tal tal.now) self.old self.new
            result }
        ensures memory { IfErr result (λ fault. ¬ (fault ≡ Memory)) }
    {
        let supplied: Supplied<Tal, ResourceCert> = Supplied::Tal(tal);
        match supply_each(self.paths.as_mut_slice(), &supplied) {
            Ok(done) => Ok(done),
            Err(fault) => Err(of_supply(fault)),
        }
    }

    /// Anchors each path whose head is not self-signed by its form, names this CA and is verified
    /// by its key, in order, and answers whether all paths are anchored then (RFC 6487, section
    /// 7.2). The first such path that the sets of the CA do not cover, where they have to, ends the
    /// call by `Overclaimed`, as does want of memory: earlier paths keep their anchor, that path
    /// and later ones stay as they were.
    pub fn supply_ca(&mut self, ca: &ResourceCert) -> Result<bool, ValidationError>
        ensures { AnswersSupply C.is_signed (supply_of_ca ca.now) self.old self.new result }
    {
        let supplied: Supplied<Tal, ResourceCert> = Supplied::Ca(ca);
        match supply_each(self.paths.as_mut_slice(), &supplied) {
            Ok(done) => Ok(done),
            Err(fault) => Err(of_supply(fault)),
        }
    }

    /// What the attestation says, where each path is anchored and each attested set has just the
    /// numbers of the paths. Refuses by the first that does not hold: `NotAnchored`,
    /// `AsNotFullyCovered`, `IpNotFullyCovered`; or by `Memory`.
    pub fn finalize(self, alloc: Global) -> Result<&'a ResourceTaggedAttestation, ValidationError>
        ensures content { IfOk result (λ a. a.now ≡ self.entry.rta.content) }
        ensures yes { OnOk result (IsEnded self.entry) }
        ensures no { IfErr result (EndsWith self.entry) }
    {
        let content = self.rta.content();
        let attested = attested_in(content);
        match finalize(alloc, self.paths.as_slice(), &attested) {
            Ok(()) => Ok(content),
            Err(fault) => Err(of_end(fault)),
        }
    }
}
