//! Route Origin Authorizations as signed objects (RFC 9582).

use crate::roa::RouteOriginAttestation;
use crate::roa::checks::verify_roa;
use bytes::Bytes;
use rpki_certs::{Cert, ResourceCert};
use rpki_der::{DecodeError, Oid};
use rpki_faults::ValidationError;
use rpki_sigobj::{Content, Signed, oid_of};
use std::alloc::Global;

/// A Route Origin Authorization as a signed object, whose content is in DER (RFC 9582, sections 3
/// and 4). Its `Content::Rule` is `()`.
pub type Roa = Signed<RouteOriginAttestation>;

// id-ct-routeOriginAuthz (RFC 9582, section 3).
const ROUTE_ORIGIN_AUTHZ: [u8; 11] = [
    0x2A, 0x86, 0x48, 0x86, 0xF7, 0x0D, 0x01, 0x09, 0x10, 0x01, 0x18,
];

impl Content for RouteOriginAttestation {
    ghost use Rattle.rpki_routes.specs.Roa.{IsRoa};
    ghost use Rattle.rpki_routes.specs.Roa.Form.{RoaForm};
    ghost use Rattle.rpki_routes.specs.Roa.Checks.{roa_kind};

    type Rule = ();

    ghost kind = { roa_kind };

    ghost form = { λ rule. RoaForm };

    ghost is_content = { IsRoa };

    ghost copies = { λ x copy e. e };

    fn oid() -> Oid {
        oid_of(&ROUTE_ORIGIN_AUTHZ)
    }

    fn is_published() -> bool {
        true
    }

    fn read(
        alloc: Global,
        source: Bytes,
        _rule: (),
    ) -> Result<RouteOriginAttestation, DecodeError> {
        match RouteOriginAttestation::decode(alloc, source) {
            Err(e) => Err(e),
            Ok(roa) => {
                // The proof takes from this call that it is one.
                let _ = roa.as_id();
                Ok(roa)
            }
        }
    }

    fn verify_claims(&self, _cert: &Cert) -> Result<(), ValidationError> {
        Ok(())
    }

    fn verify_held(&self, cert: &ResourceCert) -> Result<(), ValidationError> {
        verify_roa(self, cert)?;
        Ok(())
    }

    fn meaning() {}
}
