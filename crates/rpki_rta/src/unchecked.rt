//! Certificates that an attestation carries, before they are known to be good.

ghost use Rattle.std.specs.Prelude.{◌≡◌};

use crate::carried::Carried;
use rpki_basics::{Crypto, Time};
use rpki_certs::Cert;
use rpki_faults::ValidationError;
use rpki_paths::Candidate;
use std::alloc::AllocError;

/// A carried certificate, the cryptography that verdicts are asked of, and the moment.
pub(crate) struct UncheckedCert<'a, 'n, C> {
    cert: &'a Cert,
    crypto: &'a C,
    now: &'n Time,
}

impl<C> Clone for UncheckedCert<'_, '_, C> {
    ghost is_clone = { λ x copy. copy ≡ x };

    fn clone(&self) -> Result<Self, AllocError> {
        Ok(*self)
    }
}

impl<C> Copy for UncheckedCert<'_, '_, C> {}

impl<'a, 'n, C> UncheckedCert<'a, 'n, C> {
    // A carried certificate.
    pub fn new(cert: &'a Cert, crypto: &'a C, now: &'n Time) -> Self
        ensures cert { result.cert.now ≡ cert.now }
        ensures crypto { result.crypto.now ≡ crypto.now }
        ensures now { result.now.now ≡ now.now }
    {
        UncheckedCert { cert, crypto, now }
    }
}

impl<'a, 'n, C: Crypto> Candidate<Carried<'a, C>> for UncheckedCert<'a, 'n, C> {
    ghost use Rattle.std.specs.Prelude.{◌≡◌, refl};
    ghost use Rattle.rpki_faults.specs.Checks.{IsFirstFault};
    ghost use Rattle.rpki_rta.specs.Carried.{IsValid, carried_checks, is_of_ca, seen_alone};

    type Fault = ValidationError;

    ghost is_good = { λ x. IsValid x.cert.now.certificate.tbs x.now.now };

    ghost because = { λ x fault. IsFirstFault (carried_checks x.cert.now.certificate.tbs x.now.now)
        fault };

    ghost seen = { λ x. seen_alone (C.is_signed x.crypto.now) x.cert.now.certificate };

    ghost of_ca = { λ x. is_of_ca x.cert.now.certificate.tbs };

    ghost admits = { λ x c. (c.cert.now ≡ x.cert.now) × (c.crypto.now ≡ x.crypto.now)
        × (c.now ≡ x.now.now) };

    ghost good_is_valid = { λ x good. refl };

    fn is_of_ca(&self) -> bool {
        self.cert.basic_ca().is_some()
    }

    fn admit(&self) -> Result<Carried<'a, C>, ValidationError> {
        Carried::new(self.cert, self.crypto, *self.now)
    }
}
