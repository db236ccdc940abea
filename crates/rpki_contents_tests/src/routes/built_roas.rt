//! Contents of route origin attestations that are built.

use super::roas;
use crate::contents::{Answer, Row, are_so, is_built, is_written};
use rpki_basics::BuildError;
use rpki_der::Encode;
use rpki_resources::{Addr, AddressFamily, Asn, Claim, IpBlock, Prefix};
use rpki_routes::{RoaBuilder, RoaIpAddress, RoaIpAddressesBuilder};
use std::alloc::{AllocError, Global};
use std::net::{IpAddr, Ipv4Addr, Ipv6Addr};

/// An address with its family: its bits, the length of its prefix and its maximum length.
type Pushed = (AddressFamily, u128, u8, Option<u8>);

/// 192.0.2.0, and 2001:db8::, in 128 bits.
const V4: u128 = 0xC000_0200_0000_0000_0000_0000_0000_0000;

const V6: u128 = 0x2001_0DB8_0000_0000_0000_0000_0000_0000;

/// AS64496, 192.0.2.0/24-26 and 10.0.8.0/21.
const TWO: &[u8] = b"\x30\x22\x02\x03\x00\xFB\xF0\x30\x1B\x30\x19\x04\x02\x00\x01\x30\x13\x30\x09\
    \x03\x04\x00\xC0\x00\x02\x02\x01\x1A\x30\x06\x03\x04\x03\x0A\x00\x08";

/// What is pushed, in this order, and what is written, or why it is refused.
struct Built(&'static [Pushed], Answer<'static>);

static ROWS: [Built; 14] = [
    Built(&[], Ok(roas::NONE)),
    Built(&[(AddressFamily::Ipv4, V4, 24, None)], Ok(roas::ONE)),
    Built(
        &[(AddressFamily::Ipv4, V4, 24, Some(26))],
        Ok(roas::WITH_MAX),
    ),
    Built(
        &[
            (AddressFamily::Ipv6, V6, 32, None),
            (AddressFamily::Ipv4, V4, 24, None),
        ],
        Ok(roas::BOTH),
    ),
    // In the order in which they are pushed, and without the bits after the length.
    Built(
        &[
            (AddressFamily::Ipv4, V4, 24, Some(26)),
            (AddressFamily::Ipv4, 0x0A00_0FFF << 96, 21, None),
        ],
        Ok(TWO),
    ),
    // Every maximum length, one more, and one less.
    Built(
        &[(AddressFamily::Ipv4, 0, 0, Some(32))],
        Ok(
            b"\x30\x17\x02\x03\x00\xFB\xF0\x30\x10\x30\x0E\x04\x02\x00\x01\x30\x08\x30\x06\x03\
            \x01\x00\x02\x01\x20",
        ),
    ),
    Built(
        &[(AddressFamily::Ipv4, 0, 0, Some(33))],
        Err("bad maximum length"),
    ),
    Built(
        &[(AddressFamily::Ipv6, 0, 0, Some(129))],
        Err("bad maximum length"),
    ),
    Built(
        &[(AddressFamily::Ipv4, V4, 24, Some(23))],
        Err("bad maximum length"),
    ),
    Built(
        &[(AddressFamily::Ipv4, V4, 33, None)],
        Err("prefix too long"),
    ),
    // The prefix is looked at before its maximum length.
    Built(
        &[(AddressFamily::Ipv4, V4, 33, Some(20))],
        Err("prefix too long"),
    ),
    // The first one is told, and one of IPv4 before one of IPv6.
    Built(
        &[
            (AddressFamily::Ipv4, V4, 24, Some(23)),
            (AddressFamily::Ipv4, V4, 33, None),
        ],
        Err("bad maximum length"),
    ),
    Built(
        &[
            (AddressFamily::Ipv4, V4, 33, None),
            (AddressFamily::Ipv4, V4, 24, Some(23)),
        ],
        Err("prefix too long"),
    ),
    Built(
        &[
            (AddressFamily::Ipv6, V6, 32, Some(31)),
            (AddressFamily::Ipv4, V4, 33, None),
        ],
        Err("prefix too long"),
    ),
];

/// The address of this family with these bits.
pub fn ip_of(family: AddressFamily, bits: u128) -> IpAddr {
    let addr = Addr::from_bits(bits);
    match family {
        AddressFamily::Ipv4 => IpAddr::V4(addr.to_v4()),
        AddressFamily::Ipv6 => IpAddr::V6(addr.to_v6()),
    }
}

/// Pushes these addresses.
fn push_each(to: &mut RoaBuilder, addresses: &[Pushed]) -> Result<(), AllocError> {
    for (family, bits, len, max) in addresses {
        if *len <= 128 {
            to.push_addr(ip_of(*family, *bits), *len, *max)?;
        }
    }
    Ok(())
}

impl Row for Built {
    fn is_so(&self, alloc: Global) -> Result<bool, AllocError> {
        let Built(addresses, wanted) = self;
        let mut builder = RoaBuilder::new(alloc, Asn::from_u32(64496));
        let pushed = push_each(&mut builder, addresses);
        let built = builder.to_attestation();
        drop(builder);
        let is_built = is_built(alloc, built, *wanted);
        pushed?;
        is_built
    }
}

#[test]
fn contents_are_built(rt: HostRuntime) -> Result<(), AllocError> {
    assert!(rt; are_so(rt.alloc(), &ROWS)?);
    Ok(())
}

/// Calls that push an address of each family.
#[derive(Clone, Copy)]
enum Calls {
    Addresses,
    Octets,
    Slices,
    Lent,
    Lists,
}

static WAYS: [Calls; 5] = [
    Calls::Addresses,
    Calls::Octets,
    Calls::Slices,
    Calls::Lent,
    Calls::Lists,
];

/// 192.0.2.0/24.
fn v4() -> RoaIpAddress {
    RoaIpAddress::new(Prefix::new(Addr::from_bits(V4), 24), None)
}

/// 2001:db8::/32.
fn v6() -> RoaIpAddress {
    RoaIpAddress::new(Prefix::new(Addr::from_bits(V6), 32), None)
}

/// Pushes an address of each family.
fn push(to: &mut RoaBuilder, calls: Calls) -> Result<(), AllocError> {
    match calls {
        Calls::Addresses => {
            to.push_v6(v6())?;
            to.push_v4(v4())
        }
        Calls::Octets => {
            to.push_v4_addr(Ipv4Addr::new(192, 0, 2, 129), 24, None)?;
            to.push_v6_addr(Ipv6Addr::new(0x2001, 0xDB8, 0, 0, 0, 0, 0, 1), 32, None)
        }
        Calls::Slices => {
            to.extend_v4_from_slice(&[v4()])?;
            to.extend_v6_from_slice(&[v6()])
        }
        Calls::Lent => {
            to.v4_mut().push(v4())?;
            to.v6_mut()
                .push_addr(ip_of(AddressFamily::Ipv6, V6), 32, None)
        }
        Calls::Lists => {
            to.v4_mut().try_extend(Some(v4()).into_iter())?;
            to.v6_mut().extend_from_slice(&[v6()])
        }
    }
}

/// A builder of AS64496 with copies of the addresses of another one.
fn copied(builder: &RoaBuilder) -> Result<RoaBuilder, AllocError> {
    let v4 = builder.v4().clone()?;
    let v6 = builder.v6().clone()?;
    let mut copy = RoaBuilder::with_addresses(builder.as_id(), v4, v6);
    copy.set_as_id(Asn::from_u32(64496));
    Ok(copy)
}

/// Whether the content of AS64496 with copies of the addresses is the one with both.
fn is_both(alloc: Global, builder: &RoaBuilder) -> Result<bool, AllocError> {
    let copy = copied(builder)?;
    let is_numbered = copy.as_id() == Asn::from_u32(64496);
    let built = copy.to_attestation();
    drop(copy);
    Ok(is_built(alloc, built, Ok(roas::BOTH))? && is_numbered)
}

/// Whether this prefix alone is claimed, or nothing where there is none.
fn is_claimed(list: &RoaIpAddressesBuilder, prefix: Option<Prefix>) -> Result<bool, AllocError> {
    match (list.to_resources()?.claim(), prefix) {
        (Claim::Missing, None) => Ok(true),
        (Claim::Explicit(blocks), Some(prefix)) => {
            let mut blocks = blocks.iter();
            Ok(blocks.next() == Some(IpBlock::Prefix(prefix)) && blocks.next().is_none())
        }
        _ => Ok(false),
    }
}

/// Whether the list has this many addresses as one of IPv6, or is none for this.
fn is_list(list: &RoaIpAddressesBuilder, wanted: Result<usize, &str>) -> Result<bool, AllocError> {
    match list.to_addresses(AddressFamily::Ipv6) {
        Ok(addresses) => {
            let count = addresses.iter().count();
            drop(addresses);
            Ok(matches!(wanted, Ok(wanted) if wanted == count))
        }
        Err(BuildError::Memory) => Err(AllocError),
        Err(BuildError::Fault(fault)) => { Ok(matches!(wanted, Err(why) if why == fault.text())) }
        Err(BuildError::TooLong) => Ok(false),
    }
}

/// Whether the lists of a builder with both addresses claim and are written as they should.
fn are_listed(alloc: Global, builder: &RoaBuilder) -> Result<bool, AllocError> {
    let written = builder.v4().encode_ref().to_bytes(alloc);
    Ok(
        is_written(written, b"\x30\x08\x30\x06\x03\x04\x00\xC0\x00\x02")?
            && is_claimed(builder.v4(), Some(v4().prefix()))?
            && is_claimed(builder.v6(), Some(v6().prefix()))?
            && is_list(builder.v6(), Ok(1))?,
    )
}

impl Row for Calls {
    fn is_so(&self, alloc: Global) -> Result<bool, AllocError> {
        let mut builder = RoaBuilder::new(alloc, Asn::from_u32(1));
        let pushed = push(&mut builder, *self);
        let is_both = is_both(alloc, &builder);
        let are_listed = are_listed(alloc, &builder);
        drop(builder);
        pushed?;
        Ok(is_both? && are_listed?)
    }
}

/// Whether a list without addresses claims nothing, and whether an address of neither family is
/// written as it is.
fn is_pushed_to(alloc: Global, list: &mut RoaIpAddressesBuilder) -> Result<bool, AllocError> {
    let is_missing = is_claimed(list, None)?;
    list.push(RoaIpAddress::new(v6().prefix(), Some(129)))?;
    let written = list.encode_ref().to_bytes(alloc);
    Ok(
        is_missing
            && is_list(list, Err("bad maximum length"))?
            && is_written(
                written,
                b"\x30\x0D\x30\x0B\x03\x05\x00\x20\x01\x0D\xB8\x02\x02\x00\x81",
            )?,
    )
}

#[test]
fn builders_are_alike(rt: HostRuntime) -> Result<(), AllocError> {
    let alloc = rt.alloc();
    let mut list = RoaIpAddressesBuilder::new(alloc);
    assert!(rt; are_so(alloc, &WAYS)? && is_pushed_to(alloc, &mut list)?);
    Ok(())
}
