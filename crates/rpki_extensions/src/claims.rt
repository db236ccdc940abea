//! What the extensions of a certificate claim.

ghost use Rattle.std.specs.Prelude.{◌≡◌};
ghost use Rattle.rpki_der.specs.Form.Keyed.{must};
ghost use Rattle.rpki_der.specs.Form.Made.{front_of};
ghost use Rattle.rpki_der.specs.declared.mode.Mode.TheVariants.{Der};
ghost use Rattle.rpki_der.specs.Read.Reads.{Tells};
ghost use Rattle.rpki_resources.specs.declared.resources.Claim.TheVariants.{Missing};
ghost use Rattle.rpki_resources.specs.Claim.Read.{as_identifiers_at};
ghost use Rattle.rpki_extensions.specs.Addresses.{ip_claims_at};
ghost use Rattle.rpki_extensions.specs.Extension.{stated};
ghost use Rattle.rpki_extensions.specs.Extensions.{stated_or, no_addresses, has_other};
ghost use Rattle.rpki_extensions.specs.Extensions.{certificate_policies, ip_resources};
ghost use Rattle.rpki_extensions.specs.Extensions.{as_resources, claims_under, claims_of_list};
ghost use Rattle.rpki_extensions.specs.Policies.{policies_at};

use crate::addresses::IpClaims;
use crate::extension::{Extension, has_oid, with_oid};
use crate::faults;
use crate::identifiers::{CERTIFICATE_POLICIES, as_oid, ip_oid, other};
use crate::policies::take_certificate_policies;
use bytes::Bytes;
use rpki_der::{Constructed, DecodeError, Mode};
use rpki_faults::Overclaim;
use rpki_resources::{AsResources, Resources};
use std::alloc::{AllocError, Global};

/// What the extensions of a certificate claim.
#[derive(Debug, Drop)]
pub struct Claims {
    /// What is done where the issuer has less than is claimed (RFC 6487, section 4.8.9).
    pub policy: Overclaim,
    /// The claims of addresses (RFC 6487, section 4.8.10).
    pub addresses: IpClaims,
    /// The claim of AS numbers (RFC 6487, section 4.8.11).
    pub as_numbers: AsResources,
}

impl Clone for Claims {
    ghost is_clone = { λ x copy. copy ≡ x };

    fn clone(&self) -> Result<Claims, AllocError> {
        Ok(Claims {
            policy: self.policy,
            addresses: self.addresses.clone()?,
            as_numbers: self.as_numbers.clone()?,
        })
    }
}

// The policy, in a value.
fn policy_in(value: Bytes) -> Result<Overclaim, DecodeError>
    ensures { Tells (λ policy. policy) (front_of policies_at Der value) result }
{
    Constructed::decode(value, Mode::Der, |cons| take_certificate_policies(cons))
}

// The policy.
fn policy(list: &[Extension]) -> Result<Overclaim, DecodeError>
    ensures { Tells (λ policy. policy)
        (must (stated certificate_policies policies_at list.now)) result }
{
    match with_oid(list, &CERTIFICATE_POLICIES) {
        None => Err(DecodeError::refusal(faults::NO_POLICY)),
        Some(extension) => policy_in(extension.value.clone()?),
    }
}

// The claims of addresses, in a value.
fn addresses_in(alloc: Global, value: Bytes) -> Result<IpClaims, DecodeError>
    ensures { Tells (λ claims. claims) (front_of ip_claims_at Der value) result }
{
    Constructed::decode(value, Mode::Der, |cons| IpClaims::take_from(alloc, cons))
}

// The claims of addresses.
fn addresses(alloc: Global, list: &[Extension], policy: Overclaim) -> Result<IpClaims, DecodeError>
    ensures { Tells (λ claims. claims)
        (stated_or no_addresses (ip_resources policy) ip_claims_at list.now) result }
{
    match with_oid(list, ip_oid(policy)) {
        None => Ok(IpClaims {
            v4: Resources::missing(),
            v6: Resources::missing(),
        }),
        Some(extension) => addresses_in(alloc, extension.value.clone()?),
    }
}

// The claim of AS numbers, in a value.
fn as_numbers_in(alloc: Global, value: Bytes) -> Result<AsResources, DecodeError>
    ensures { Tells (λ claim. claim) (front_of as_identifiers_at Der value) result }
{
    Constructed::decode(
        value,
        Mode::Der,
        |cons| AsResources::take_identifiers_from(alloc, cons),
    )
}

// The claim of AS numbers.
fn as_numbers(
    alloc: Global,
    list: &[Extension],
    policy: Overclaim,
) -> Result<AsResources, DecodeError>
    ensures { Tells (λ claim. claim)
        (stated_or Missing (as_resources policy) as_identifiers_at list.now) result }
{
    match with_oid(list, as_oid(policy)) {
        None => Ok(Resources::missing()),
        Some(extension) => as_numbers_in(alloc, extension.value.clone()?),
    }
}

// The claims under this policy.
#[tactic(auto, unfolding(crate::specs::Extensions::claims_under))]
fn claims_under(alloc: Global, policy: Overclaim, list: &[Extension]) -> Result<Claims, DecodeError>
    ensures { Tells (λ claims. claims) (claims_under policy list.now) result }
{
    let addresses = addresses(alloc, list, policy)?;
    let as_numbers = as_numbers(alloc, list, policy)?;
    Ok(Claims {
        policy,
        addresses,
        as_numbers,
    })
}

// Whether an extension of the other policy stands there.
fn has_other(policy: Overclaim, list: &[Extension]) -> bool
    ensures { result ≡ has_other policy list.now }
{
    has_oid(list, ip_oid(other(policy))) || has_oid(list, as_oid(other(policy)))
}

// What the extensions claim. Refuses by `NO_POLICY`, by `RESOURCES_OF_OTHER_POLICY`, by what the
// values are refused by, or by `Memory`.
#[tactic(auto, unfolding(crate::specs::Extensions::claims_of_list))]
pub fn claims_of(alloc: Global, list: &[Extension]) -> Result<Claims, DecodeError>
    ensures { Tells (λ claims. claims) (claims_of_list list.now) result }
{
    let policy = policy(list)?;
    if has_other(policy, list) {
        return Err(DecodeError::refusal(faults::RESOURCES_OF_OTHER_POLICY));
    }
    claims_under(alloc, policy, list)
}
