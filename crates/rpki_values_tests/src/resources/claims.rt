//! Rows of families, of claims, and of values by family (RFC 3779, sections 2.2.3 and 3.2.3).

use super::calls::Call;
use crate::reads::{All, MALFORMED, Row, Want, are_alike, are_relaxed};
use rpki_resources::AddressFamily::{Ipv4, Ipv6};
use rpki_resources::faults;
use std::alloc::AllocError;

/// The value of the extension of AS numbers: inherited, of no number, and of 135 and from 3000 to
/// 3999 (RFC 3779, appendix C). Nothing under no tag, routing domains alone and beside the numbers,
/// two values under [0], a NULL with contents, a number that is not in a set, and one that is not
/// under [0].
static NUMBERS: [Row<Call>; 13] = [
    (
        Call::Identifiers,
        b"\x30\x04\xA0\x02\x05\x00",
        Want::Read(b"\x05\x00"),
    ),
    (
        Call::Identifiers,
        b"\x30\x04\xA0\x02\x30\x00",
        Want::Read(b"\x30\x00"),
    ),
    (
        Call::Identifiers,
        b"\x30\x12\xA0\x10\x30\x0E\x02\x02\x00\x87\x30\x08\x02\x02\x0B\xB8\x02\x02\x0F\x9F",
        Want::Read(b"\x30\x0E\x02\x02\x00\x87\x30\x08\x02\x02\x0B\xB8\x02\x02\x0F\x9F"),
    ),
    (Call::Identifiers, b"\x30\x00", MALFORMED),
    (
        Call::Identifiers,
        b"\x30\x04\xA1\x02\x05\x00",
        Want::Refused(faults::ROUTING_DOMAINS),
    ),
    (
        Call::Identifiers,
        b"\x30\x08\xA0\x02\x05\x00\xA1\x02\x05\x00",
        Want::Refused(faults::ROUTING_DOMAINS),
    ),
    (
        Call::Identifiers,
        b"\x30\x06\xA0\x04\x05\x00\x05\x00",
        MALFORMED,
    ),
    (
        Call::Identifiers,
        b"\x30\x05\xA0\x03\x05\x01\x00",
        MALFORMED,
    ),
    (
        Call::Identifiers,
        b"\x30\x05\xA0\x03\x02\x01\x05",
        MALFORMED,
    ),
    (Call::Identifiers, b"\x30\x02\x05\x00", MALFORMED),
    // claims that stand alone
    (Call::NumbersClaim, b"\x05\x00", Want::Read(b"\x05\x00")),
    (Call::NumbersClaim, b"\x30\x00", Want::Read(b"\x30\x00")),
    (
        Call::NumbersClaim,
        b"\x30\x03\x02\x01\x05",
        Want::Read(b"\x30\x03\x02\x01\x05"),
    ),
];

/// Families: IPv4, IPv6, neither, and none of two octets. Claims of 10.0.0.0/8 and of what is
/// inherited. Claims by family: none, IPv6 inherited, and an empty set of IPv4.
static FAMILIES: [Row<Call>; 13] = [
    (
        Call::Family,
        b"\x04\x02\x00\x01",
        Want::Read(b"\x04\x02\x00\x01"),
    ),
    (
        Call::Family,
        b"\x04\x02\x00\x02",
        Want::Read(b"\x04\x02\x00\x02"),
    ),
    (
        Call::Family,
        b"\x04\x02\x00\x03",
        Want::Refused(faults::UNKNOWN_FAMILY),
    ),
    (
        Call::Family,
        b"\x04\x02\x01\x01",
        Want::Refused(faults::UNKNOWN_FAMILY),
    ),
    (
        Call::Family,
        b"\x04\x01\x01\x00",
        Want::Refused(faults::UNKNOWN_FAMILY),
    ),
    (
        Call::AddressesClaim(Ipv4),
        b"\x05\x00",
        Want::Read(b"\x05\x00"),
    ),
    (
        Call::AddressesClaim(Ipv4),
        b"\x30\x04\x03\x02\x00\x0A",
        Want::Read(b"\x30\x04\x03\x02\x00\x0A"),
    ),
    (Call::ClaimOf(Ipv4), b"\x30\x00", Want::Absent),
    (Call::ClaimOf(Ipv6), b"\x30\x00", Want::Absent),
    (
        Call::ClaimOf(Ipv4),
        b"\x30\x08\x30\x06\x04\x02\x00\x02\x05\x00",
        Want::Absent,
    ),
    (
        Call::ClaimOf(Ipv6),
        b"\x30\x08\x30\x06\x04\x02\x00\x02\x05\x00",
        Want::Read(b"\x05\x00"),
    ),
    (
        Call::ClaimOf(Ipv4),
        b"\x30\x08\x30\x06\x04\x02\x00\x01\x30\x00",
        Want::Read(b"\x30\x00"),
    ),
    (
        Call::ClaimOf(Ipv6),
        b"\x30\x08\x30\x06\x04\x02\x00\x01\x30\x00",
        Want::Absent,
    ),
];

/// 10.0.0.0/8 of IPv4 and 2001:db8::/32 of IPv6, in this order and in the other.
const BOTH: &[u8] = b"\x30\x1B\x30\x0A\x04\x02\x00\x01\x30\x04\x03\x02\x00\x0A\
    \x30\x0D\x04\x02\x00\x02\x30\x07\x03\x05\x00\x20\x01\x0D\xB8";

const SWAPPED: &[u8] = b"\x30\x1B\x30\x0D\x04\x02\x00\x02\x30\x07\x03\x05\x00\x20\x01\x0D\xB8\
    \x30\x0A\x04\x02\x00\x01\x30\x04\x03\x02\x00\x0A";

const TEN: Want = Want::Read(b"\x30\x04\x03\x02\x00\x0A");

const DOCS: Want = Want::Read(b"\x30\x07\x03\x05\x00\x20\x01\x0D\xB8");

static BY_FAMILY: [Row<Call>; 10] = [
    (Call::ClaimOf(Ipv4), BOTH, TEN),
    (Call::ClaimOf(Ipv6), BOTH, DOCS),
    (Call::ClaimOf(Ipv4), SWAPPED, TEN),
    (Call::ClaimOf(Ipv6), SWAPPED, DOCS),
    (Call::SetOf(Ipv4), SWAPPED, TEN),
    (Call::SetOf(Ipv6), BOTH, DOCS),
    (Call::AnySetOf(Ipv4), BOTH, TEN),
    (Call::AnySetOf(Ipv6), SWAPPED, DOCS),
    // a set is not inherited
    (
        Call::SetOf(Ipv6),
        b"\x30\x08\x30\x06\x04\x02\x00\x02\x05\x00",
        MALFORMED,
    ),
    (
        Call::AnySetOf(Ipv6),
        b"\x30\x08\x30\x06\x04\x02\x00\x02\x05\x00",
        MALFORMED,
    ),
];

/// Claims by family that are refused: a family twice, one that is neither, one with a third octet,
/// IPv4 with 33 bits, a lower end above its upper end, a family with nothing, and one with two
/// values.
static WRONG: [Row<Call>; 7] = [
    (
        Call::ClaimOf(Ipv4),
        b"\x30\x10\x30\x06\x04\x02\x00\x01\x30\x00\x30\x06\x04\x02\x00\x01\x30\x00",
        Want::Refused(faults::FAMILY_TWICE),
    ),
    (
        Call::ClaimOf(Ipv4),
        b"\x30\x08\x30\x06\x04\x02\x00\x03\x05\x00",
        Want::Refused(faults::UNKNOWN_FAMILY),
    ),
    (
        Call::ClaimOf(Ipv4),
        b"\x30\x09\x30\x07\x04\x03\x00\x01\x01\x05\x00",
        Want::Refused(faults::UNKNOWN_FAMILY),
    ),
    (
        Call::ClaimOf(Ipv4),
        b"\x30\x10\x30\x0E\x04\x02\x00\x01\x30\x08\x03\x06\x07\x0A\x00\x00\x00\x80",
        Want::Refused(faults::ADDRESS_TOO_LONG),
    ),
    (
        Call::ClaimOf(Ipv4),
        b"\x30\x12\x30\x10\x04\x02\x00\x01\x30\x0A\x30\x08\x03\x02\x00\x0B\x03\x02\x00\x0A",
        Want::Refused(faults::LOWER_END_ABOVE_UPPER_END),
    ),
    (
        Call::ClaimOf(Ipv4),
        b"\x30\x06\x30\x04\x04\x02\x00\x01",
        MALFORMED,
    ),
    (
        Call::ClaimOf(Ipv4),
        b"\x30\x0A\x30\x08\x04\x02\x00\x01\x05\x00\x05\x00",
        MALFORMED,
    ),
];

/// What BER alone allows: indefinite lengths, and a family in pieces.
static RELAXED: [Row<Call>; 2] = [
    (
        Call::Identifiers,
        b"\x30\x80\xA0\x80\x05\x00\x00\x00\x00\x00",
        Want::Read(b"\x05\x00"),
    ),
    (
        Call::Family,
        b"\x24\x80\x04\x01\x00\x04\x01\x02\x00\x00",
        Want::Read(b"\x04\x02\x00\x02"),
    ),
];

#[test]
fn claims(rt: HostRuntime) -> Result<(), AllocError> {
    let alloc = rt.alloc();
    let all = All::new()
        .and(are_alike(alloc, &NUMBERS))
        .and(are_alike(alloc, &FAMILIES))
        .and(are_alike(alloc, &BY_FAMILY))
        .and(are_alike(alloc, &WRONG))
        .and(are_relaxed(alloc, &RELAXED));
    assert!(rt; all.end()?);
    Ok(())
}
