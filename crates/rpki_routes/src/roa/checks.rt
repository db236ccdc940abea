//! What is checked of the certificate of a ROA (RFC 9582, section 5).

ghost use Rattle.std.specs.Prelude.{◌≡◌, ◌↔◌, IsTrue};
ghost use Rattle.rpki_faults.specs.Checks.{AnswersFirstFault};
ghost use Rattle.rpki_faults.specs.declared.verification.VerificationError.{VerificationError};
ghost use Rattle.rpki_routes.specs.Roa.Checks.{HasNone, HasPrefix, uncovered, prefix_checks};
ghost use Rattle.rpki_routes.specs.Roa.Checks.{family_checks, roa_held};

use crate::roa::{RoaIpAddress, RoaIpAddresses, RouteOriginAttestation};
use rpki_certs::ResourceCert;
use rpki_faults::{UncoveredPrefix, VerificationError};
use rpki_resources::{AddressFamily, IpBlock, IpBlocks, MaxLenPrefix};

// Whether the set has each address of the prefix.
fn has_prefix(set: &IpBlocks, address: RoaIpAddress) -> bool
    ensures { IsTrue result ↔ HasPrefix set.now address }
{
    let (min, max) = address.prefix().range();
    set.contains_block(IpBlock::Range(min, max))
}

// The fault of an address that is not covered.
fn uncovered(family: AddressFamily, address: RoaIpAddress) -> UncoveredPrefix
    ensures { VerificationError.UncoveredPrefix result ≡ uncovered family address }
{
    UncoveredPrefix {
        prefix: MaxLenPrefix {
            family,
            prefix: address.prefix(),
            max_len: address.max_length(),
        },
    }
}

// Verifies that each prefix is among these addresses.
fn verify_prefixes(
    family: AddressFamily,
    set: &IpBlocks,
    addresses: &RoaIpAddresses,
) -> Result<(), VerificationError>
    ensures { AnswersFirstFault (prefix_checks family set.now addresses.now) result }
{
    let mut left = addresses.iter();
    while let Some(address) = left.next() {
        if !has_prefix(set, address) {
            return Err(VerificationError::UncoveredPrefix(uncovered(family, address)));
        }
    }
    Ok(())
}

// Whether no number is in the set.
fn has_none(set: &IpBlocks) -> bool
    ensures { IsTrue result ↔ HasNone set.now }
{
    // The proof takes from this call that its blocks are canonical, so that none is empty.
    let _ = set.as_slice();
    set.is_empty()
}

// Verifies the prefixes of a family.
fn verify_family(
    family: AddressFamily,
    set: &IpBlocks,
    addresses: &RoaIpAddresses,
) -> Result<(), VerificationError>
    ensures { AnswersFirstFault (family_checks family set.now addresses.now) result }
{
    if has_none(set) && !addresses.is_empty() {
        return Err(VerificationError::NoPrefixCovered(family));
    }
    verify_prefixes(family, set, addresses)
}

/// Verifies the prefixes of a ROA, those of IPv4 first. Refuses by `NoPrefixCovered` where a family
/// has prefixes and the certificate no address of it, and else by `UncoveredPrefix` of the first
/// prefix in it that the certificate has not.
pub fn verify_roa(
    roa: &RouteOriginAttestation,
    cert: &ResourceCert,
) -> Result<(), VerificationError>
    ensures { AnswersFirstFault (roa_held roa.now cert.now.sets) result }
{
    verify_family(AddressFamily::Ipv4, cert.v4_resources(), roa.v4_addrs())?;
    verify_family(AddressFamily::Ipv6, cert.v6_resources(), roa.v6_addrs())
}
