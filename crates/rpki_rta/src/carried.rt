//! Certificates and revocation lists that an attestation carries, as handles.

ghost use Rattle.std.specs.Prelude.{◌≡◌, IfOk, None};
ghost use Rattle.rpki_faults.specs.Checks.{AnswersFirst, AnswersFirstFault};
ghost use Rattle.rpki_rta.specs.Carried.{IsValid, carried_checks, is_of_ca, is_self_signed};
ghost use Rattle.rpki_rta.specs.Carried.{kind_checks};

use crate::verdict::verdict;
use rpki_basics::{Crypto, Time};
use rpki_certs::Cert;
use rpki_crls::Crl;
use rpki_faults::{InspectionError, Overclaim, ValidationError};
use rpki_paths::{
    Accepts, CarriedCert, Certificate, KeyId, Seeks, SignedCertificate, VerdictCount,
};
use rpki_resources::{AsResources, IpResources};
use std::alloc::AllocError;
use std::fmt;
use std::sync::ledger::Ledger;

/// A certificate that an attestation carries, which is valid at the moment, as that of its kind;
/// the revocation list that is paired with it; and the cryptography that verdicts are asked of.
pub(crate) struct Carried<'a, C> {
    pub(crate) cert: &'a Cert,
    crl: Option<&'a Crl>,
    pub(crate) crypto: &'a C,
    pub(crate) now: Time,
    ghost valid: { ∥ IsValid cert.now.certificate.tbs now ∥₁ },
}

impl<C> Clone for Carried<'_, C> {
    ghost is_clone = { λ c copy. copy ≡ c };

    fn clone(&self) -> Result<Self, AllocError> {
        Ok(Carried {
            cert: self.cert,
            crl: self.crl,
            crypto: self.crypto,
            now: self.now,
        })
    }
}

impl<C> Copy for Carried<'_, C> {}

impl<C> fmt::Debug for Carried<'_, C> {
    fn fmt<W: fmt::Write>(&self, f: &mut fmt::Formatter<W>) -> fmt::Result {
        f.debug_struct("Carried")
            .field("cert", &self.cert)
            .field("crl", &self.crl)
            .field("now", &self.now)
            .finish_non_exhaustive()
    }
}

// Inspects a carried certificate, as that of its kind.
fn inspect(cert: &Cert) -> Result<(), InspectionError>
    ensures { AnswersFirstFault (kind_checks (is_of_ca cert.now.certificate.tbs)
        (is_self_signed cert.now.certificate.tbs) cert.now.certificate.tbs) result }
{
    if cert.basic_ca().is_none() {
        return cert.inspect_detached_ee();
    }
    if cert.is_self_signed() {
        cert.inspect_ta()
    } else {
        cert.inspect_ca()
    }
}

impl<'a, C> Carried<'a, C> {
    // A carried certificate, where it is valid at the moment.
    pub fn new(cert: &'a Cert, crypto: &'a C, now: Time) -> Result<Self, ValidationError>
        ensures checks { AnswersFirst (carried_checks cert.now.certificate.tbs now)
            (λ c. Unit {0}) result }
        ensures cert { IfOk result (λ c. c.cert.now ≡ cert.now) }
        ensures crypto { IfOk result (λ c. c.crypto.now ≡ crypto.now) }
        ensures crl { IfOk result (λ c. c.crl ≡ None) }
        ensures now { IfOk result (λ c. c.now ≡ now) }
    {
        inspect(cert)?;
        cert.verify_validity(now)?;
        Ok(Carried {
            cert,
            crl: None,
            crypto,
            now,
        })
    }
}

impl<'a, C: Crypto> Certificate for Carried<'a, C> {
    ghost use Rattle.std.specs.Prelude.{option_map};
    ghost use Rattle.rpki_rta.specs.Carried.{seen_cert};

    ghost cert = { λ c. seen_cert (C.is_signed c.crypto.now) c.cert.now.certificate
        (option_map (λ l. l.now.list) c.crl) };

    fn subject(&self) -> KeyId {
        self.cert.subject_key_identifier().octets()
    }

    fn authority(&self) -> Option<KeyId> {
        match self.cert.authority_key_identifier() {
            None => None,
            Some(id) => Some(id.octets()),
        }
    }

    fn is_self_signed(&self) -> bool {
        self.cert.is_self_signed()
    }

    fn revokes(&self, subject: &Self) -> bool {
        match self.crl {
            None => false,
            Some(crl) => crl.contains(subject.cert.serial_number()),
        }
    }

    fn overclaim(&self) -> Overclaim {
        self.cert.overclaim()
    }

    fn asn(&self) -> &AsResources {
        self.cert.as_resources()
    }

    fn v4(&self) -> &IpResources {
        self.cert.v4_resources()
    }

    fn v6(&self) -> &IpResources {
        self.cert.v6_resources()
    }
}

impl<'a, C: Crypto, L: Ledger> SignedCertificate<L> for Carried<'a, C> {
    fn is_signed_by(&self, issuer: &Self, asked: &mut VerdictCount<L>) -> bool {
        let key = issuer.cert.subject_public_key_info();
        let cert = self.cert;
        verdict(self.crypto, key, cert.signed(), cert.signature(), asked)
    }
}

/// A revocation list that an attestation carries, and the cryptography that verdicts are asked of.
pub(crate) struct CarriedCrl<'a, C> {
    crl: &'a Crl,
    crypto: &'a C,
}

impl<C> Clone for CarriedCrl<'_, C> {
    ghost is_clone = { λ l copy. copy ≡ l };

    fn clone(&self) -> Result<Self, AllocError> {
        Ok(*self)
    }
}

impl<C> Copy for CarriedCrl<'_, C> {}

impl<'a, C> CarriedCrl<'a, C> {
    // A carried revocation list.
    pub fn new(crl: &'a Crl, crypto: &'a C) -> Self
        ensures crl { result.crl.now ≡ crl.now }
        ensures crypto { result.crypto.now ≡ crypto.now }
    {
        CarriedCrl { crl, crypto }
    }
}

impl<'a, C: Crypto> Seeks<CarriedCrl<'a, C>> for Carried<'a, C> {
    ghost use Rattle.rpki_rta.specs.Carried.{seen_crl};

    ghost sought = { λ c. c.cert.now.certificate.tbs.extensions.key.subject_key };

    ghost held = { λ l. l.crl.now.list.tbs.extensions.authority_key };

    ghost verdict = { λ c l. C.is_signed l.crypto.now c.cert.now.certificate.tbs.key
        l.crl.now.list.signed l.crl.now.list.signature };

    ghost price = { 1 };

    fn seeks(&self) -> KeyId {
        self.cert.subject_key_identifier().octets()
    }

    fn identifier(other: &CarriedCrl<'a, C>) -> KeyId {
        other.crl.authority_key_identifier().octets()
    }

    ghost free_is_yes = { λ x y e. absurd cc };
}

impl<'a, C: Crypto, L: Ledger> Accepts<CarriedCrl<'a, C>, L> for Carried<'a, C> {
    fn accepts(&self, other: &CarriedCrl<'a, C>, asked: &mut VerdictCount<L>) -> bool {
        let key = self.cert.subject_public_key_info();
        let list = other.crl;
        verdict(other.crypto, key, list.signed(), list.signature(), asked)
    }
}

impl<'a, C: Crypto> CarriedCert<CarriedCrl<'a, C>> for Carried<'a, C> {
    ghost use Rattle.std.specs.Prelude.{◌≡◌, refl};
    ghost use Rattle.rpki_rta.specs.Carried.{seen_crl};

    ghost crl = { λ l. seen_crl (C.is_signed l.crypto.now) l.crl.now.list };

    ghost same = { λ c d. (d.cert.now ≡ c.cert.now) × (d.crypto.now ≡ c.crypto.now)
        × (d.now ≡ c.now) };

    fn with_crl(&self, list: &CarriedCrl<'a, C>) -> Self {
        Carried {
            cert: self.cert,
            crl: Some(list.crl),
            crypto: self.crypto,
            now: self.now,
        }
    }

    ghost same_self = { λ c. (refl, refl, refl) };

    ghost seeks_ski = { λ c. refl };

    ghost holds_aki = { λ l. refl };

    ghost verdict_is_crl = { λ c l. refl };

    ghost one_verdict = { refl };
}
