//! What contents hand out: sets, claims, origins, single addresses, and copies.

use super::built_roas::ip_of;
use super::{aspas, roas};
use crate::contents::{Row, are_so, is_written};
use bytes::Bytes;
use rpki_basics::ProviderLimit;
use rpki_der::{DecodeError, Encode};
use rpki_resources::{Addr, AddressFamily, AsBlock, Asn, Claim, Prefix};
use rpki_routes::{
    AsProviderAttestation, FriendlyRoaIpAddress, ProviderAsSet, RoaIpAddress, RoaIpAddresses,
    RouteOriginAttestation,
};
use std::alloc::{AllocError, Global};
use std::net::{IpAddr, Ipv4Addr};

/// Whether copies of the providers, of those that are to come and of their set are four.
fn are_providers(alloc: Global, providers: &ProviderAsSet) -> Result<bool, AllocError> {
    let copy = providers.clone()?;
    let set = copy.to_set(alloc)?;
    let is_set = set.as_slice().iter().copied().eq(providers.iter());
    Ok(is_set && copy.len() == 4 && copy.iter().clone()?.eq(providers.iter()))
}

/// Whether the customer alone is claimed.
fn is_customer_claimed(alloc: Global, content: &AsProviderAttestation) -> Result<bool, AllocError> {
    match content.as_resources(alloc)?.claim() {
        Claim::Explicit(blocks) => {
            let mut blocks = blocks.iter();
            let is_customer = blocks.next() == Some(AsBlock::Id(Asn::from_u32(15562)));
            Ok(is_customer && blocks.next().is_none())
        }
        _ => Ok(false),
    }
}

/// Whether what the content with four providers hands out is right.
fn is_aspa(alloc: Global) -> Result<bool, AllocError> {
    let source = Bytes::from_static(aspas::CONTENT);
    match AsProviderAttestation::decode(source, ProviderLimit::Narrow) {
        Ok(content) => {
            let are_providers = are_providers(alloc, content.provider_as_set());
            let is_claimed = is_customer_claimed(alloc, &content);
            drop(content);
            Ok(are_providers? && is_claimed?)
        }
        Err(DecodeError::Memory) => Err(AllocError),
        Err(_) => Ok(false),
    }
}

/// Whether a copy of the addresses of a family has one.
fn is_one(addresses: &RoaIpAddresses) -> Result<bool, AllocError> {
    let copy = addresses.clone()?;
    Ok(!copy.is_empty() && copy.iter().clone()?.count() == 1)
}

/// Whether an address is 192.0.2.0/24, as it is told.
fn is_told(address: FriendlyRoaIpAddress) -> bool {
    let prefix = address.max_len_prefix();
    address.is_v4()
        && address.address() == IpAddr::V4(Ipv4Addr::new(192, 0, 2, 0))
        && address.address_length() == 24
        && address.max_length() == 24
        && prefix.family == AddressFamily::Ipv4
        && prefix.prefix == address.prefix()
}

/// Whether copies of the addresses and of the origins that are to come begin with 192.0.2.0/24.
fn are_iterated(alloc: Global, content: &RouteOriginAttestation) -> Result<bool, AllocError> {
    let mut addresses = content.iter().clone()?;
    let mut origins = content.iter_origins().clone()?;
    match (addresses.next(), origins.next()) {
        (Some(address), Some(origin)) => {
            let text = format!(in alloc; "{address}")?;
            Ok(
                is_told(address)
                    && text.as_str() == "192.0.2.0/24"
                    && origin.asn == content.as_id()
                    && origin.prefix == address.max_len_prefix(),
            )
        }
        _ => Ok(false),
    }
}

/// Whether what the content with both families hands out is right.
fn is_roa(alloc: Global) -> Result<bool, AllocError> {
    match RouteOriginAttestation::decode(alloc, Bytes::from_static(roas::BOTH)) {
        Ok(content) => {
            let (v4, v6) = (is_one(content.v4_addrs()), is_one(content.v6_addrs()));
            let are_iterated = are_iterated(alloc, &content);
            drop(content);
            Ok(v4? && v6? && are_iterated?)
        }
        Err(DecodeError::Memory) => Err(AllocError),
        Err(_) => Ok(false),
    }
}

/// A family, an address in 128 bits, a length and a maximum length, the first address in 128 bits,
/// and what is written.
struct Made(AddressFamily, u128, u8, Option<u8>, u128, &'static [u8]);

static ADDRESSES: [Made; 3] = [
    Made(
        AddressFamily::Ipv4,
        0xC000_0281_0000_0000_0000_0000_0000_0000,
        24,
        Some(26),
        0xC000_0200_0000_0000_0000_0000_0000_0000,
        b"\x30\x09\x03\x04\x00\xC0\x00\x02\x02\x01\x1A",
    ),
    Made(
        AddressFamily::Ipv4,
        0xC000_0281_0000_0000_0000_0000_0000_0000,
        21,
        None,
        0xC000_0000_0000_0000_0000_0000_0000_0000,
        b"\x30\x06\x03\x04\x03\xC0\x00\x00",
    ),
    Made(
        AddressFamily::Ipv6,
        0x2001_0DB8_0000_0000_0000_0000_0000_0001,
        32,
        None,
        0x2001_0DB8_0000_0000_0000_0000_0000_0000,
        b"\x30\x07\x03\x05\x00\x20\x01\x0D\xB8",
    ),
];

/// Whether an address has this prefix and this maximum length, and differs from that with another.
fn is_address(address: RoaIpAddress, prefix: Prefix, max: Option<u8>) -> bool {
    address == RoaIpAddress::new(prefix, max)
        && address != RoaIpAddress::new(prefix, Some(0))
        && address.range() == prefix.range()
        && address.prefix() == prefix
        && address.max_length() == max
}

impl Row for Made {
    fn is_so(&self, alloc: Global) -> Result<bool, AllocError> {
        let Made(family, bits, len, max, first, octets) = self;
        if *len > 128 {
            return Ok(false);
        }
        let address = RoaIpAddress::new_addr(ip_of(*family, *bits), *len, *max);
        let is = is_address(address, Prefix::new(Addr::from_bits(*first), *len), *max);
        Ok(is && is_written(address.to_bytes(alloc), octets)?)
    }
}

#[test]
fn contents(rt: HostRuntime) -> Result<(), AllocError> {
    let alloc = rt.alloc();
    assert!(rt; is_aspa(alloc)? && is_roa(alloc)? && are_so(alloc, &ADDRESSES)?);
    Ok(())
}
