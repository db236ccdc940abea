//! What is claimed of both families of addresses.

ghost use Rattle.std.specs.Prelude.{◌≡◌, unwrap_or};
ghost use Rattle.rpki_der.specs.Form.Decodes.{DecodesNext};
ghost use Rattle.rpki_der.specs.Read.Reads.{Reads, Stays};
ghost use Rattle.rpki_resources.specs.declared.resources.Claim.TheVariants.{Missing};
ghost use Rattle.rpki_extensions.specs.Addresses.{IpClaimsForm, ip_claims_at};

use rpki_der::{Constructed, DecodeError};
use rpki_resources::{ByFamily, IpResources, Resources};
use std::alloc::{AllocError, Global};

/// What a certificate claims of IPv4 and of IPv6 addresses (RFC 3779, section 2.2.3).
#[derive(Debug, Drop)]
pub struct IpClaims {
    /// The claim of IPv4 addresses, missing where the family is not named.
    pub v4: IpResources,
    /// The claim of IPv6 addresses, missing where the family is not named.
    pub v6: IpResources,
}

impl Clone for IpClaims {
    ghost is_clone = { λ x copy. copy ≡ x };

    fn clone(&self) -> Result<IpClaims, AllocError> {
        Ok(IpClaims {
            v4: self.v4.clone()?,
            v6: self.v6.clone()?,
        })
    }
}

// The claim, or one that is missing.
fn or_missing(claim: Option<IpResources>) -> IpResources
    ensures { result ≡ unwrap_or claim Missing }
{
    match claim {
        Some(claim) => claim,
        None => Resources::missing(),
    }
}

// Reads the claims.
fn take_claims(alloc: Global, cons: &mut Constructed<'_>) -> Result<IpClaims, DecodeError>
    ensures reads { Reads (λ claims. claims) ip_claims_at cons.old result cons.new }
    ensures stays { Stays result cons.new }
{
    let ByFamily { v4, v6 } = ByFamily::<IpResources>::take_from(alloc, cons)?;
    Ok(IpClaims {
        v4: or_missing(v4),
        v6: or_missing(v6),
    })
}

impl IpClaims {
    /// Reads the claims of addresses: for each family, in either order and at most once, NULL,
    /// which inherits, or a set (RFC 3779, section 2.2.3; RFC 6487, section 4.8.10). A family that
    /// is named with an empty set is claimed. Refuses as `ByFamily::take_from` does.
    pub fn take_from(alloc: Global, cons: &mut Constructed<'_>) -> Result<IpClaims, DecodeError>
        ensures reads { Reads (λ claims. claims) ip_claims_at cons.old result cons.new }
        ensures decodes { DecodesNext IpClaimsForm (λ claims. claims) cons.old result cons.new }
        ensures stays { Stays result cons.new }
    {
        cons.holds_octets();
        take_claims(alloc, cons)
    }
}
