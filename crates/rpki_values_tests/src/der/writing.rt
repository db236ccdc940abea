//! Rows of values that are written.

use crate::reads::{All, are_octets, is_written, joined};
use bytes::Bytes;
use rpki_der::build::tlv;
use rpki_der::encode::{
    Digits, Encode, EncodeError, Raw, bit_string, boolean, each, ia5, integer, integer_of,
    integer_u8, null, octet_string, oid, primitive, sequence, set, tagged,
};
use rpki_der::{Captured, Mode, Oid, Tag};
use std::alloc::{AllocError, Global};

/// A number, and its INTEGER (X.690, section 8.3).
static NUMBERS: [(u32, &[u8]); 14] = [
    (0, &[2, 1, 0x00]),
    (1, &[2, 1, 0x01]),
    (127, &[2, 1, 0x7F]),
    (128, &[2, 2, 0x00, 0x80]),
    (255, &[2, 2, 0x00, 0xFF]),
    (256, &[2, 2, 0x01, 0x00]),
    (32767, &[2, 2, 0x7F, 0xFF]),
    (32768, &[2, 3, 0x00, 0x80, 0x00]),
    (65536, &[2, 3, 0x01, 0x00, 0x00]),
    (0x7F_FFFF, &[2, 3, 0x7F, 0xFF, 0xFF]),
    (0x80_0000, &[2, 4, 0x00, 0x80, 0x00, 0x00]),
    (0x7FFF_FFFF, &[2, 4, 0x7F, 0xFF, 0xFF, 0xFF]),
    (0x8000_0000, &[2, 5, 0x00, 0x80, 0x00, 0x00, 0x00]),
    (0xFFFF_FFFF, &[2, 5, 0x00, 0xFF, 0xFF, 0xFF, 0xFF]),
];

/// Digits in base 256, and the contents of their INTEGER.
static DIGITS: [(&[u8], &[u8]); 5] = [
    (&[], &[0x00]),
    (&[0, 0, 0], &[0x00]),
    (&[0, 0x80], &[0x00, 0x80]),
    (&[0, 0, 0x7F, 0], &[0x7F, 0x00]),
    (
        &[0x80, 0, 0, 0, 0, 0, 0, 0, 1],
        &[0, 0x80, 0, 0, 0, 0, 0, 0, 0, 1],
    ),
];

/// Octets, the bits of the last one that are not used, and their BIT STRING (section 8.6).
static BITS: [(&[u8], u8, &[u8]); 7] = [
    (&[], 0, &[3, 1, 0]),
    (&[], 5, &[3, 1, 0]),
    (&[0xFF], 0, &[3, 2, 0, 0xFF]),
    (&[0x06], 1, &[3, 2, 1, 0x06]),
    (&[0xFF, 0xFF], 7, &[3, 3, 7, 0xFF, 0x80]),
    (&[0xFF, 0xFF], 4, &[3, 3, 4, 0xFF, 0xF0]),
    (&[0xFF, 0xFF], 200, &[3, 3, 7, 0xFF, 0x80]),
];

/// Whether the rows of numbers and of bits are written so.
fn are_rows(alloc: Global) -> Result<bool, AllocError> {
    for (n, want) in &NUMBERS {
        if !is_written(alloc, &integer(*n), want)?
            || !is_written(alloc, &integer_of(&n.to_be_bytes()), want)?
        {
            return Ok(false);
        }
    }
    for (number, want) in &DIGITS {
        if !is_written(alloc, &Digits(number), want)? {
            return Ok(false);
        }
    }
    for (octets, unused, want) in &BITS {
        if !is_written(alloc, &bit_string(octets, *unused), want)? {
            return Ok(false);
        }
    }
    Ok(true)
}

/// Whether a value of each other type is written so.
fn are_leaves(alloc: Global) -> Result<bool, AllocError> {
    let id = Oid::from_bytes(Bytes::from_static(b"\x55\x04\x03"));
    let Some(id) = id else {
        return Ok(false);
    };
    All::new()
        .and(is_written(alloc, &integer_u8(200), b"\x02\x02\x00\xC8"))
        .and(is_written(alloc, &boolean(true), b"\x01\x01\xFF"))
        .and(is_written(alloc, &boolean(false), b"\x01\x01\x00"))
        .and(is_written(alloc, &null(), b"\x05\x00"))
        .and(is_written(alloc, &ia5(b"a.roa"), b"\x16\x05a.roa"))
        .and(is_written(
            alloc,
            &primitive(Tag::CTX_1, b"\x05\x00"),
            b"\xA1\x02\x05\x00",
        ))
        .and(is_written(alloc, &oid(&id), b"\x06\x03\x55\x04\x03"))
        .and(is_written(alloc, &id.encode_ref(), b"\x06\x03\x55\x04\x03"))
        .end()
}

/// A count of octets, and the header of an OCTET STRING that has as many (section 8.1.3).
static LENGTHS: [(usize, &[u8]); 8] = [
    (0, b"\x04\x00"),
    (1, b"\x04\x01"),
    (127, b"\x04\x7F"),
    (128, b"\x04\x81\x80"),
    (255, b"\x04\x81\xFF"),
    (256, b"\x04\x82\x01\x00"),
    (65535, b"\x04\x82\xFF\xFF"),
    (65536, b"\x04\x83\x01\x00\x00"),
];

/// Whether a string of so many octets has this header. One that is short is written to sinks too.
fn has_header(alloc: Global, len: usize, header: &[u8]) -> Result<bool, AllocError> {
    let contents = vec![in alloc; 0x55u8; len]?;
    let want = joined(alloc, &[header, &contents])?;
    let all = All::new()
        .and(are_octets(tlv(alloc, 4, &contents), &want))
        .and(are_octets(octet_string(&contents).to_bytes(alloc), &want));
    if len > 256 {
        all.end()
    } else {
        all.and(is_written(alloc, &octet_string(&contents), &want))
            .end()
    }
}

/// Whether values of several parts are written so.
fn are_parts(alloc: Global) -> Result<bool, AllocError> {
    let (a, b) = (&Raw(b"a"), &Raw(b"b"));
    let list = [integer(1), integer(128)];
    All::new()
        .and(is_written(
            alloc,
            &set(each(&list)),
            b"\x31\x07\x02\x01\x01\x02\x02\x00\x80",
        ))
        .and(is_written(
            alloc,
            &tagged(Tag::CTX_1, integer(1)),
            b"\xA1\x03\x02\x01\x01",
        ))
        .and(is_written(alloc, &sequence((Some(a), None::<Raw<'_>>)), b"\x30\x01a"))
        .and(is_written(alloc, &(a, b, a), b"aba"))
        .and(is_written(alloc, &(a, b, a, b), b"abab"))
        .and(is_written(alloc, &(a, b, a, b, b), b"ababb"))
        .and(is_written(alloc, &(a, b, a, b, b, a), b"ababba"))
        .and(is_written(alloc, &(a, b, a, b, b, a, a), b"ababbaa"))
        .and(is_written(alloc, &(a, b, a, b, b, a, a, b), b"ababbaab"))
        .end()
}

/// Whether the copy of octets that were kept in this mode is written again in DER, and that of
/// others is not.
fn is_kept(alloc: Global, mode: Mode) -> Result<bool, AllocError> {
    let copy = Captured::new(Bytes::copy_from_slice(alloc, b"\x05\x00")?, mode).clone()?;
    let written = sequence(copy.encode_ref()).to_bytes(alloc);
    match (written, mode) {
        (Ok(octets), Mode::Der) => Ok(octets.as_slice() == b"\x30\x02\x05\x00".as_slice()),
        (Err(EncodeError::NotDer), Mode::Ber) => Ok(
            copy.into_bytes().as_slice() == b"\x05\x00".as_slice(),
        ),
        (Err(EncodeError::Memory), _) => Err(AllocError),
        (_, _) => Ok(false),
    }
}

#[test]
fn written(rt: HostRuntime) -> Result<(), AllocError> {
    let alloc = rt.alloc();
    for (len, header) in &LENGTHS {
        assert!(rt; has_header(alloc, *len, header)?);
    }
    let all = All::new()
        .and(are_rows(alloc))
        .and(are_leaves(alloc))
        .and(are_parts(alloc))
        .and(is_kept(alloc, Mode::Der))
        .and(is_kept(alloc, Mode::Ber));
    assert!(rt; all.end()?);
    Ok(())
}
