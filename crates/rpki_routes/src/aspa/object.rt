//! Autonomous System Provider Authorizations as signed objects
//! (draft-ietf-sidrops-aspa-profile-15).

use crate::aspa::AsProviderAttestation;
use crate::aspa::checks::{verify_claimed, verify_customer};
use bytes::Bytes;
use rpki_basics::ProviderLimit;
use rpki_certs::{Cert, ResourceCert};
use rpki_der::{DecodeError, Oid};
use rpki_faults::ValidationError;
use rpki_sigobj::{Content, Signed, oid_of};
use std::alloc::Global;

/// An Autonomous System Provider Authorization as a signed object, whose content is in DER
/// (sections 2 and 3 of the profile), with at most as many providers as the limit says.
pub type Aspa = Signed<AsProviderAttestation>;

// id-ct-ASPA (section 2 of the profile).
const CT_ASPA: [u8; 11] = [
    0x2A, 0x86, 0x48, 0x86, 0xF7, 0x0D, 0x01, 0x09, 0x10, 0x01, 0x31,
];

impl Content for AsProviderAttestation {
    ghost use Rattle.rpki_routes.specs.Aspa.Form.{AspaForm};
    ghost use Rattle.rpki_routes.specs.Aspa.Checks.{aspa_kind};

    type Rule = ProviderLimit;

    ghost kind = { aspa_kind };

    ghost form = { AspaForm };

    ghost is_content = { λ _. Unit {0} };

    ghost copies = { λ x copy e. e };

    fn oid() -> Oid {
        oid_of(&CT_ASPA)
    }

    fn is_published() -> bool {
        true
    }

    fn read(
        _alloc: Global,
        source: Bytes,
        limit: ProviderLimit,
    ) -> Result<AsProviderAttestation, DecodeError> {
        AsProviderAttestation::decode(source, limit)
    }

    fn verify_claims(&self, cert: &Cert) -> Result<(), ValidationError> {
        verify_claimed(self, cert)?;
        Ok(())
    }

    fn verify_held(&self, cert: &ResourceCert) -> Result<(), ValidationError> {
        verify_customer(self, cert)?;
        Ok(())
    }

    fn meaning() {}
}
