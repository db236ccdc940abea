//! Origins and providers of routes, as routers are told them.

ghost use Rattle.std.specs.Prelude.{◌≡◌, ◌↔◌, IsTrue, IfOk, Contains};
ghost use Rattle.std.specs.List.{Any};
ghost use Rattle.rpki_der.specs.Form.Decodes.{Decodes};
ghost use Rattle.rpki_routes.specs.Roa.{addresses};
ghost use Rattle.rpki_routes.specs.Roa.Form.{RoaForm};
ghost use Rattle.rpki_examples.specs.Routes.{AreWithin, IsMatched};

use bytes::Bytes;
use rpki::aspa::AsProviderAttestation;
use rpki::der::DecodeError;
use rpki::der::laws::slices_hold_octets;
use rpki::resources::{Asn, Prefix};
use rpki::roa::laws::roas_are_written;
use rpki::roa::{RoaIpAddress, RoaIpAddresses, RouteOriginAttestation};
use std::alloc::Global;

/// The content of a ROA at the front of octets in DER. No maximum length in it is above that of an
/// address of its family (RFC 9582, section 4.3).
pub fn roa_in(alloc: Global, octets: Bytes) -> Result<RouteOriginAttestation, DecodeError>
    ensures exact { Decodes RoaForm (λ r. r) octets result }
    ensures within { IfOk result (λ roa. AreWithin 32 roa.v4 × AreWithin 128 roa.v6) }
{
    roas_are_written();
    slices_hold_octets(octets.as_slice());
    RouteOriginAttestation::decode(alloc, octets)
}

/// Whether an address of a ROA matches a route to this prefix, but for the AS that originates it,
/// of which nothing is asked here (RFC 6811, section 2).
pub fn is_matched(address: RoaIpAddress, route: Prefix) -> bool
    ensures { IsTrue result ↔ IsMatched address route }
{
    let prefix = address.prefix();
    let longest = match address.max_length() {
        Some(length) => length,
        None => prefix.addr_len(),
    };
    let covering = Prefix::new(route.addr(), prefix.addr_len());
    prefix.addr_len() <= route.addr_len()
        && route.addr_len() <= longest
        && covering.addr() == prefix.addr()
}

/// Whether one of these addresses of a ROA matches a route to this prefix, as `is_matched` says.
pub fn are_matched(addresses: &RoaIpAddresses, route: Prefix) -> bool
    ensures { IsTrue result ↔ Any (λ address. IsMatched address route) addresses.now }
{
    let mut left = addresses.iter();
    while let Some(address) = left.next() {
        if is_matched(address, route) {
            return true;
        }
    }
    false
}

/// Whether a ROA allows this autonomous system to originate a route to this prefix of IPv4.
pub fn is_allowed(roa: &RouteOriginAttestation, origin: Asn, route: Prefix) -> bool
    ensures { IsTrue result ↔ ((origin ≡ roa.now.as_id)
        × Any (λ address. IsMatched address route) roa.now.v4) }
{
    origin == roa.as_id() && are_matched(roa.v4_addrs(), route)
}

/// Whether an attestation says that the one autonomous system is a provider of the other.
pub fn is_provider(content: &AsProviderAttestation, customer: Asn, provider: Asn) -> bool
    ensures { IsTrue result ↔ ((customer ≡ content.now.customer)
        × Contains content.now.providers provider) }
{
    if customer != content.customer_as() {
        return false;
    }
    let mut left = content.provider_as_set().iter();
    while let Some(next) = left.next() {
        if next == provider {
            return true;
        }
    }
    false
}

// Whether two prefixes are the same.
fn is_same(a: Prefix, b: Prefix) -> bool
    ensures { IsTrue result ↔ ((a.addr ≡ b.addr) × (a.len ≡ b.len)) }
{
    a.addr() == b.addr() && a.addr_len() == b.addr_len()
}

/// Whether a ROA has an address with this prefix, of IPv4 or of IPv6.
pub fn names_prefix(roa: &RouteOriginAttestation, prefix: Prefix) -> bool
    ensures { IsTrue result ↔ Any (λ address. address.address.prefix ≡ prefix) (addresses roa.now) }
{
    let mut left = roa.iter();
    while let Some(address) = left.next() {
        if is_same(address.prefix(), prefix) {
            return true;
        }
    }
    false
}
