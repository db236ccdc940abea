//! Lengths that are not the shortest, that end nowhere, or that are indefinite, and strings in
//! pieces at the last depth that is read and at the first that is not (X.690, sections 8.1.3, 8.7.3
//! and 10.1).

use super::calls::Call;
use crate::reads::{MALFORMED, Want, are_so};
use std::alloc::{AllocError, Global};

/// What stands there: these octets, once or this many times each.
type Part = (usize, &'static [u8]);

/// The call, its octets in parts, and what it answers in DER and in BER.
type Row = (Call, &'static [Part], Want, Want);

/// 128 content octets.
const CONTENT: &[u8] = &[b'A'; 128];

/// Each content octet is 41.
static ROWS: [Row; 11] = [
    (
        Call::Octets,
        &[(1, b"\x04\x81\x80"), (128, b"A")],
        Want::Read(CONTENT),
        Want::Read(CONTENT),
    ),
    (
        Call::Octets,
        &[(1, b"\x04\x81\x7F"), (127, b"A")],
        MALFORMED,
        Want::Read(
            b"AAAAAAAAAAAAAAAAAAAAAAAAAAAAAAAAAAAAAAAAAAAAAAAAAAAAAAAAAAAAAAAA\
            AAAAAAAAAAAAAAAAAAAAAAAAAAAAAAAAAAAAAAAAAAAAAAAAAAAAAAAAAAAAAAA",
        ),
    ),
    (
        Call::Octets,
        &[(1, b"\x04\x82\x00\x80"), (128, b"A")],
        MALFORMED,
        Want::Read(CONTENT),
    ),
    (
        Call::Octets,
        &[(1, b"\x04\x85\x00\x00\x00\x00\x01A")],
        MALFORMED,
        MALFORMED,
    ),
    (
        Call::Octets,
        &[(1, b"\x04\x84\xFF\xFF\xFF\xFF")],
        MALFORMED,
        MALFORMED,
    ),
    (
        Call::Octets,
        &[(1, b"\x04\x80\x00\x00")],
        MALFORMED,
        MALFORMED,
    ),
    (
        Call::Sequence,
        &[(1, b"\x30\x80\x02\x01\x05")],
        MALFORMED,
        MALFORMED,
    ),
    (
        Call::Octets,
        &[(31, b"\x24\x80"), (1, b"\x04\x01A"), (31, b"\x00\x00")],
        MALFORMED,
        Want::Read(b"A"),
    ),
    (
        Call::Octets,
        &[(32, b"\x24\x80"), (1, b"\x04\x01A"), (32, b"\x00\x00")],
        MALFORMED,
        MALFORMED,
    ),
    // values that are skipped nest as deep
    (
        Call::SkipOne,
        &[(31, b"\x30\x80"), (1, b"\x04\x01A"), (31, b"\x00\x00")],
        MALFORMED,
        Want::Done,
    ),
    (
        Call::SkipOne,
        &[(32, b"\x30\x80"), (1, b"\x04\x01A"), (32, b"\x00\x00")],
        MALFORMED,
        MALFORMED,
    ),
];

/// The octets of a row.
fn octets_of(alloc: Global, parts: &[Part]) -> Result<Vec<u8>, AllocError> {
    let mut octets = Vec::new(alloc);
    for (count, part) in parts {
        for _ in 0..*count {
            octets.extend_from_slice(part)?;
        }
    }
    Ok(octets)
}

/// Whether a row is answered so, and is refused at each proper length.
fn is_right(alloc: Global, row: &Row) -> Result<bool, AllocError> {
    let (call, parts, der, ber) = row;
    let octets = octets_of(alloc, parts)?;
    for len in 0..octets.len() {
        if !are_so(alloc, *call, &octets[..len], MALFORMED, MALFORMED)? {
            return Ok(false);
        }
    }
    are_so(alloc, *call, &octets, *der, *ber)
}

#[test]
fn lengths_and_nestings(rt: HostRuntime) -> Result<(), AllocError> {
    for row in &ROWS {
        assert!(rt; is_right(rt.alloc(), row)?);
    }
    Ok(())
}
