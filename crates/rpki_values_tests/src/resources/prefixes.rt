//! Rows of prefixes of bits that are in hand (RFC 3779, section 2.2.3.8).

use rpki_resources::AddressFamily::{Ipv4, Ipv6};
use rpki_resources::{AddressFamily, Prefix};

/// Octets, how many bits of the last one are not used, and a family; and the first address and the
/// length of the prefix that they are, or `None` where they are none of the family.
static PREFIXES: [(&[u8], u8, AddressFamily, Option<(u128, u8)>); 9] = [
    (&[], 0, Ipv4, Some((0, 0))),
    (&[10], 0, Ipv4, Some((10 << 120, 8))),
    // the bits that are not used are cleared
    (&[10, 0xFF], 4, Ipv6, Some((0x0AF << 116, 12))),
    (&[0xC0, 0, 2, 1], 0, Ipv4, Some((0xC000_0201 << 96, 32))),
    // one bit more than an address of IPv4 has
    (&[0xC0, 0, 2, 1, 0x80], 7, Ipv4, None),
    (
        &[0xC0, 0, 2, 1, 0x80],
        7,
        Ipv6,
        Some((0x1_8000_0403 << 95, 33)),
    ),
    (
        &[0, 0, 0, 0, 0, 0, 0, 0, 0, 0, 0, 0, 0, 0, 0, 0, 0],
        7,
        Ipv6,
        None,
    ),
    // no strings of bits
    (&[10], 8, Ipv6, None),
    (&[], 1, Ipv6, None),
];

/// Whether the bits are this prefix, or none.
fn is_prefix(octets: &[u8], unused: u8, family: AddressFamily, want: Option<(u128, u8)>) -> bool {
    match (Prefix::from_bits(octets, unused, family), want) {
        (Some(found), Some((addr, len))) => {
            found.addr().to_bits() == addr && found.addr_len() == len
        }
        (found, want) => found.is_none() && want.is_none(),
    }
}

#[test]
fn prefixes(rt: HostRuntime) {
    for (octets, unused, family, want) in &PREFIXES {
        assert!(rt; is_prefix(octets, *unused, *family, *want));
    }
}
