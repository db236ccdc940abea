//! Certificates of CAs.

ghost use Rattle.rpki_validation.specs.Issuer.{IsNextCa};

use crate::grounds::Grounds;
use crate::issuer::next_under;
use crate::refusal::CaFault;
use bytes::Bytes;
use rpki_certs::ResourceCert;
use std::alloc::Global;

/// The certificate of a CA under the issuer of these grounds, which none of their lists revokes.
pub fn ca_on(alloc: Global, octets: &Bytes, grounds: &Grounds) -> Result<ResourceCert, CaFault>
    ensures { IsNextCa grounds.now.lists.items grounds.now.moment grounds.now.issuer octets.now
        result }
{
    next_under(
        alloc,
        &grounds.issuer,
        octets,
        &grounds.lists,
        grounds.moment,
    )
}
