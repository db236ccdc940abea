//! Rows of sets and prefixes, and of their octets.

use super::calls::Call;
use super::sets::{Numbers, as_set, ip_set};
use crate::reads::{All, MALFORMED, Row, Want, are_alike, are_relaxed, are_so, is_written};
use rpki_der::encode::{Encode, sequence};
use rpki_resources::AddressFamily::{Ipv4, Ipv6};
use rpki_resources::{Addr, AddressFamily, Asn, Prefix, faults};
use std::alloc::{AllocError, Global};

/// The first address and the last one of each block.
pub type Addresses = &'static [(u128, u128)];

/// AS numbers that are pushed, and the octets that they are read of and written as (RFC 3779,
/// section 3.2.3, and appendix C): in order; and in another one, overlapping and touching.
pub static NUMBERS: [(Numbers, &[u8]); 14] = [
    (&[], &[0x30, 0]),
    (&[(5, 5)], &[0x30, 3, 2, 1, 5]),
    (
        &[(u32::MAX, u32::MAX)],
        &[0x30, 7, 2, 5, 0, 0xFF, 0xFF, 0xFF, 0xFF],
    ),
    (
        &[(1, 9), (64496, 64496)],
        &[0x30, 13, 0x30, 6, 2, 1, 1, 2, 1, 9, 2, 3, 0, 0xFB, 0xF0],
    ),
    (
        &[(135, 135), (3000, 3999), (5001, 5001)],
        &[
            0x30, 0x12, 0x02, 0x02, 0x00, 0x87, 0x30, 0x08, 0x02, 0x02, 0x0B, 0xB8, 0x02, 0x02,
            0x0F, 0x9F, 0x02, 0x02, 0x13, 0x89,
        ],
    ),
    (&[(7, 7), (6, 6)], &[0x30, 8, 0x30, 6, 2, 1, 6, 2, 1, 7]),
    (
        &[(4, 9), (1, 5), (1, 9), (2, 2)],
        &[0x30, 8, 0x30, 6, 2, 1, 1, 2, 1, 9],
    ),
    (&[(1, 2), (3, 4)], &[0x30, 8, 0x30, 6, 2, 1, 1, 2, 1, 4]),
    (
        &[(1, 2), (4, 4)],
        &[0x30, 0x0B, 0x30, 6, 2, 1, 1, 2, 1, 2, 2, 1, 4],
    ),
    (
        &[(u32::MAX, u32::MAX), (0, 0)],
        &[0x30, 0x0A, 2, 1, 0, 2, 5, 0, 0xFF, 0xFF, 0xFF, 0xFF],
    ),
    (
        &[(1, u32::MAX), (0, 0)],
        &[
            0x30, 0x0C, 0x30, 0x0A, 2, 1, 0, 2, 5, 0, 0xFF, 0xFF, 0xFF, 0xFF,
        ],
    ),
    (
        &[(7, 9), (1, 3), (2, 4), (7, 9), (20, u32::MAX)],
        &[
            0x30, 0x1C, 0x30, 6, 2, 1, 1, 2, 1, 4, 0x30, 6, 2, 1, 7, 2, 1, 9, 0x30, 0x0A, 2, 1,
            0x14, 2, 5, 0, 0xFF, 0xFF, 0xFF, 0xFF,
        ],
    ),
    (
        &[(5, 6), (1, 1), (7, 7)],
        &[0x30, 0x0B, 2, 1, 1, 0x30, 6, 2, 1, 5, 2, 1, 7],
    ),
    (&[(1, 5), (4, 9)], &[0x30, 8, 0x30, 6, 2, 1, 1, 2, 1, 9]),
];

/// 2001:db8::1
const ONE: u128 = 0x2001_0DB8_0000_0000_0000_0000_0000_0001;

/// Addresses of a family, and the octets that they are read of and written as (RFC 3779, section
/// 2.2.3).
pub static ADDRESSES: [(AddressFamily, Addresses, &[u8]); 10] = [
    (Ipv4, &[], &[0x30, 0]),
    (Ipv4, &[(0, u128::MAX)], &[0x30, 3, 3, 1, 0]),
    (Ipv6, &[(0, u128::MAX)], &[0x30, 3, 3, 1, 0]),
    (
        Ipv4,
        &[(10 << 120, (11 << 120) - 1)],
        &[0x30, 4, 3, 2, 0, 10],
    ),
    // 192.0.2.1
    (
        Ipv4,
        &[(0xC000_0201 << 96, (0xC000_0202 << 96) - 1)],
        &[0x30, 7, 3, 5, 0, 0xC0, 0, 2, 1],
    ),
    (
        Ipv6,
        &[(ONE, ONE)],
        &[
            0x30, 0x13, 3, 0x11, 0, 0x20, 1, 0x0D, 0xB8, 0, 0, 0, 0, 0, 0, 0, 0, 0, 0, 0, 1,
        ],
    ),
    // from 10.0.0.0 to 10.0.0.2
    (
        Ipv4,
        &[(10 << 120, (0x0A00_0003 << 96) - 1)],
        &[0x30, 13, 0x30, 11, 3, 2, 1, 10, 3, 5, 0, 10, 0, 0, 2],
    ),
    // 10.0.0.0/7 and 192.0.2.0/24
    (
        Ipv4,
        &[
            (10 << 120, (12 << 120) - 1),
            (0xC000_0200 << 96, (0xC000_0300 << 96) - 1),
        ],
        &[0x30, 10, 3, 2, 1, 10, 3, 4, 0, 0xC0, 0, 2],
    ),
    // 129.64.0.0-143.255.255.255 (section 2.1.2)
    (
        Ipv4,
        &[(0x8140 << 112, (0x90 << 120) - 1)],
        &[0x30, 11, 0x30, 9, 3, 3, 6, 0x81, 0x40, 3, 2, 4, 0x80],
    ),
    // 10.0.32/20, 10.0.64/24, 10.1/16, 10.2.48/20 with 10.2.64/24, and 10.3/16 (appendix B.1)
    (
        Ipv4,
        &[
            (0x0A00_2000 << 96, (0x0A00_3000 << 96) - 1),
            (0x0A00_4000 << 96, (0x0A00_4100 << 96) - 1),
            (0x0A01_0000 << 96, (0x0A02_0000 << 96) - 1),
            (0x0A02_3000 << 96, (0x0A02_4100 << 96) - 1),
            (0x0A03_0000 << 96, (0x0A04_0000 << 96) - 1),
        ],
        &[
            0x30, 0x24, 0x03, 0x04, 0x04, 0x0A, 0x00, 0x20, 0x03, 0x04, 0x00, 0x0A, 0x00, 0x40,
            0x03, 0x03, 0x00, 0x0A, 0x01, 0x30, 0x0C, 0x03, 0x04, 0x04, 0x0A, 0x02, 0x30, 0x03,
            0x04, 0x00, 0x0A, 0x02, 0x40, 0x03, 0x03, 0x00, 0x0A, 0x03,
        ],
    ),
];

/// Sets in other octets than those that they are written as, with others after them: out of order,
/// overlapping and twice; unused bits that are not zero; ends of the most bits; and prefixes.
static OTHERS: [Row<Call>; 14] = [
    (
        Call::Numbers,
        &[
            0x30, 0x22, 0x02, 0x03, 0x00, 0xFB, 0xF0, 0x30, 0x06, 0x02, 0x01, 0x04, 0x02, 0x01,
            0x09, 0x30, 0x06, 0x02, 0x01, 0x01, 0x02, 0x01, 0x05, 0x30, 0x06, 0x02, 0x01, 0x04,
            0x02, 0x01, 0x09, 0x02, 0x03, 0x00, 0xFB, 0xF0, 0xFF,
        ],
        Want::Read(&[0x30, 13, 0x30, 6, 2, 1, 1, 2, 1, 9, 2, 3, 0, 0xFB, 0xF0]),
    ),
    (
        Call::Numbers,
        &[0x30, 8, 0x30, 6, 2, 1, 5, 2, 1, 5],
        Want::Read(&[0x30, 3, 2, 1, 5]),
    ),
    (
        Call::Addresses(Ipv4),
        &[
            0x30, 0x11, 3, 2, 0, 11, 3, 2, 0, 10, 3, 2, 0, 10, 3, 3, 7, 10, 0,
        ],
        Want::Read(&[0x30, 4, 3, 2, 1, 10]),
    ),
    (
        Call::Addresses(Ipv4),
        &[0x30, 4, 3, 2, 1, 11],
        Want::Read(&[0x30, 4, 3, 2, 1, 10]),
    ),
    (
        Call::Addresses(Ipv6),
        &[0x30, 8, 3, 6, 7, 10, 0, 0, 0, 0x80],
        Want::Read(&[0x30, 8, 3, 6, 7, 10, 0, 0, 0, 0x80]),
    ),
    (
        Call::Addresses(Ipv6),
        &[0x30, 14, 0x30, 12, 3, 6, 7, 10, 0, 0, 0, 0, 3, 2, 0, 10],
        Want::Read(&[0x30, 4, 3, 2, 0, 10]),
    ),
    (
        Call::Addresses(Ipv6),
        &[0x30, 14, 0x30, 12, 3, 2, 0, 10, 3, 6, 7, 10, 0, 0, 0, 0x80],
        Want::Read(&[0x30, 7, 3, 5, 0, 10, 0, 0, 0]),
    ),
    // the bit that is not used is cleared
    (
        Call::Prefix(Ipv4),
        &[3, 2, 1, 11],
        Want::Read(&[3, 2, 1, 10]),
    ),
    (
        Call::Prefix(Ipv6),
        &[3, 5, 0, 0x20, 1, 0x0D, 0xB8],
        Want::Read(&[3, 5, 0, 0x20, 1, 0x0D, 0xB8]),
    ),
    (Call::Prefix(Ipv4), &[3, 1, 0], Want::Read(&[3, 1, 0])),
    (
        Call::Prefix(Ipv4),
        &[3, 2, 1, 10],
        Want::Read(&[3, 2, 1, 10]),
    ),
    (
        Call::Prefix(Ipv4),
        &[3, 5, 0, 0xC0, 0, 2, 1],
        Want::Read(&[3, 5, 0, 0xC0, 0, 2, 1]),
    ),
    (
        Call::Prefix(Ipv4),
        &[3, 6, 7, 10, 0, 0, 0, 0x80],
        Want::Refused(faults::ADDRESS_TOO_LONG),
    ),
    (Call::Prefix(Ipv4), &[2, 1, 5], MALFORMED),
];

/// Sets in octets that only BER allows: of indefinite length, and of a length in a longer form than
/// it needs.
static RELAXED: [Row<Call>; 5] = [
    (
        Call::Numbers,
        &[0x30, 0x80, 2, 1, 5, 0, 0],
        Want::Read(&[0x30, 3, 2, 1, 5]),
    ),
    (
        Call::Numbers,
        &[0x30, 0x81, 3, 2, 1, 5],
        Want::Read(&[0x30, 3, 2, 1, 5]),
    ),
    (
        Call::Addresses(Ipv4),
        &[0x30, 0x80, 3, 2, 1, 10, 0, 0],
        Want::Read(&[0x30, 4, 3, 2, 1, 10]),
    ),
    (
        Call::Addresses(Ipv4),
        &[0x30, 0x81, 5, 3, 0x81, 2, 1, 10],
        Want::Read(&[0x30, 4, 3, 2, 1, 10]),
    ),
    (
        Call::Addresses(Ipv4),
        &[0x30, 0x80, 0x30, 0x80, 3, 2, 0, 10, 3, 2, 0, 11, 0, 0, 0, 0],
        Want::Read(&[0x30, 4, 3, 2, 1, 10]),
    ),
];

/// What is no set of AS numbers: the lower end above the upper end, three numbers in a range, one
/// number in it, a number below 0, one above the largest, a SET, a set that is cut off, and a
/// BOOLEAN among the numbers. What is no set of addresses: the lower end above the upper end, 33
/// bits of IPv4 in a prefix and in each end, 129 bits, three ends, one end, eight bits that are not
/// used, an INTEGER among the prefixes, and a SET.
static WRONG: [Row<Call>; 19] = [
    (
        Call::Numbers,
        &[0x30, 8, 0x30, 6, 2, 1, 5, 2, 1, 4],
        Want::Refused(faults::LOWER_END_ABOVE_UPPER_END),
    ),
    (
        Call::Numbers,
        &[0x30, 11, 0x30, 9, 2, 1, 1, 2, 1, 2, 2, 1, 3],
        MALFORMED,
    ),
    (Call::Numbers, &[0x30, 5, 0x30, 3, 2, 1, 1], MALFORMED),
    (Call::Numbers, &[0x30, 3, 2, 1, 0xFF], MALFORMED),
    (Call::Numbers, &[0x30, 7, 2, 5, 1, 0, 0, 0, 0], MALFORMED),
    (Call::Numbers, &[0x31, 3, 2, 1, 5], MALFORMED),
    (Call::Numbers, &[0x30, 4, 2, 1, 5], MALFORMED),
    (Call::Numbers, &[0x30, 6, 2, 1, 5, 1, 1, 0xFF], MALFORMED),
    (
        Call::Addresses(Ipv4),
        &[0x30, 10, 0x30, 8, 3, 2, 0, 11, 3, 2, 0, 10],
        Want::Refused(faults::LOWER_END_ABOVE_UPPER_END),
    ),
    (
        Call::Addresses(Ipv4),
        &[0x30, 8, 3, 6, 7, 10, 0, 0, 0, 0x80],
        Want::Refused(faults::ADDRESS_TOO_LONG),
    ),
    (
        Call::Addresses(Ipv4),
        &[0x30, 14, 0x30, 12, 3, 6, 7, 10, 0, 0, 0, 0, 3, 2, 0, 10],
        Want::Refused(faults::ADDRESS_TOO_LONG),
    ),
    (
        Call::Addresses(Ipv4),
        &[0x30, 14, 0x30, 12, 3, 2, 0, 10, 3, 6, 7, 10, 0, 0, 0, 0x80],
        Want::Refused(faults::ADDRESS_TOO_LONG),
    ),
    (
        Call::Addresses(Ipv4),
        &[
            0x30, 0x14, 3, 0x12, 7, 0, 0, 0, 0, 0, 0, 0, 0, 0, 0, 0, 0, 0, 0, 0, 0, 0,
        ],
        Want::Refused(faults::ADDRESS_TOO_LONG),
    ),
    (
        Call::Addresses(Ipv6),
        &[
            0x30, 0x14, 3, 0x12, 7, 0, 0, 0, 0, 0, 0, 0, 0, 0, 0, 0, 0, 0, 0, 0, 0, 0,
        ],
        Want::Refused(faults::ADDRESS_TOO_LONG),
    ),
    (
        Call::Addresses(Ipv4),
        &[0x30, 14, 0x30, 12, 3, 2, 0, 10, 3, 2, 0, 11, 3, 2, 0, 12],
        MALFORMED,
    ),
    (
        Call::Addresses(Ipv4),
        &[0x30, 6, 0x30, 4, 3, 2, 0, 10],
        MALFORMED,
    ),
    (Call::Addresses(Ipv4), &[0x30, 4, 3, 2, 8, 10], MALFORMED),
    (
        Call::Addresses(Ipv6),
        &[0x30, 7, 3, 2, 0, 10, 2, 1, 5],
        MALFORMED,
    ),
    (Call::Addresses(Ipv6), &[0x31, 4, 3, 2, 0, 10], MALFORMED),
];

/// Whether a set is written so, and is read of these octets by this call.
fn is_set<T: Encode>(
    alloc: Global,
    call: Call,
    set: &T,
    octets: &'static [u8],
) -> Result<bool, AllocError> {
    let want = Want::Read(octets);
    All::new()
        .and(is_written(alloc, set, octets))
        .and(are_so(alloc, call, octets, want, want))
        .end()
}

/// Whether each row of numbers is right.
fn are_numbers(alloc: Global) -> Result<bool, AllocError> {
    for (blocks, octets) in &NUMBERS {
        let set = as_set(alloc, blocks)?;
        let is_right = is_set(alloc, Call::Numbers, &sequence(set.encode_ref()), octets);
        drop(set);
        if !is_right? {
            return Ok(false);
        }
    }
    Ok(true)
}

/// Whether each row of addresses is right.
fn are_addresses(alloc: Global) -> Result<bool, AllocError> {
    for (family, blocks, octets) in &ADDRESSES {
        let set = ip_set(alloc, blocks)?;
        let written = sequence(set.encode_ref(*family));
        let is_right = is_set(alloc, Call::Addresses(*family), &written, octets);
        drop(set);
        if !is_right? {
            return Ok(false);
        }
    }
    Ok(true)
}

#[test]
fn octets(rt: HostRuntime) -> Result<(), AllocError> {
    let alloc = rt.alloc();
    let prefix = Prefix::new(Addr::from_bits(0x0A00_0800 << 96), 21);
    let all = All::new()
        .and(are_numbers(alloc))
        .and(are_addresses(alloc))
        .and(are_alike(alloc, &OTHERS))
        .and(are_relaxed(alloc, &RELAXED))
        .and(are_alike(alloc, &WRONG))
        .and(is_written(alloc, &Asn::from_u32(300), b"\x02\x02\x01\x2C"))
        .and(is_written(alloc, &prefix, b"\x03\x04\x03\x0A\x00\x08"));
    assert!(rt; all.end()?);
    Ok(())
}
