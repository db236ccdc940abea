//! Values that are made, copied and printed.

use crate::reads::All;
use bytes::Bytes;
use rpki_der::{AsOctets, BitString, ContentFault, DecodeError, InvalidSignedAttr, Oid, Tag};
use std::alloc::{AllocError, Global};

/// Octets, and the text of the OBJECT IDENTIFIER whose contents they are, or none where they are no
/// such contents (X.690, section 8.19). An arc of more than 32 bits is printed in hexadecimal, with
/// all of the contents.
static IDENTIFIERS: [(&[u8], &str); 16] = [
    (b"", ""),
    (b"\x80", ""),
    (b"\x2A\x80", ""),
    (
        b"\x2A\x86\x48\x86\xF7\x0D\x01\x09\x10\x01\x18",
        "1.2.840.113549.1.9.16.1.24",
    ),
    (b"\x2A\x8F\xFF\xFF\xFF\x7F", "1.2.4294967295"),
    (b"\x2A\x90\x80\x80\x80\x00", "x2a9080808000"),
    (b"\x00", "0.0"),
    (b"\x27", "0.39"),
    (b"\x28", "1.0"),
    (b"\x4F", "1.39"),
    (b"\x50", "2.0"),
    (b"\x88\x37\x03", "2.999.3"),
    (b"\x90\x80\x80\x80\x4F", "2.4294967295"),
    (b"\x90\x80\x80\x80\x50", "x9080808050"),
    (b"\x2A\x80\x01", "1.2.1"),
    (
        b"\xFF\xFF\xFF\xFF\xFF\xFF\xFF\xFF\xFF\xFF\x7F",
        "xffffffffffffffffffff7f",
    ),
];

/// Whether the copy of the identifier with these contents is printed so, or there is none.
fn is_identifier(alloc: Global, contents: &[u8], want: &str) -> Result<bool, AllocError> {
    match Oid::from_bytes(Bytes::copy_from_slice(alloc, contents)?) {
        None => Ok(want.is_empty()),
        Some(oid) => Ok(oid.clone()?.to_string(alloc)?.as_str() == want),
    }
}

/// Octets, how many bits of the last one are not used, and whether this is a BIT STRING (section
/// 8.6.2).
static BITS: [(&[u8], u8, bool); 5] = [
    (b"", 0, true),
    (b"", 1, false),
    (b"\xA8", 0, true),
    (b"\xA8", 7, true),
    (b"\xA8", 8, false),
];

/// Whether the copy of the string of these bits has them, or there is none.
fn are_bits(alloc: Global, octets: &[u8], unused: u8, is_one: bool) -> Result<bool, AllocError> {
    match BitString::new(Bytes::copy_from_slice(alloc, octets)?, unused) {
        None => Ok(!is_one),
        Some(bits) => {
            let copy = bits.clone()?;
            Ok(is_one && copy.octets.as_slice() == octets && copy.unused == unused)
        }
    }
}

/// An octet, and whether it is an identifier octet (section 8.1.2).
static TAGS: [(u8, bool); 9] = [
    (0x00, false),
    (0x1F, false),
    (0x3F, false),
    (0xFF, false),
    (0x01, true),
    (0x1E, true),
    (0x20, true),
    (0xA0, true),
    (0xFE, true),
];

/// Whether the rows are right.
fn are_right(alloc: Global) -> Result<bool, AllocError> {
    for (contents, want) in &IDENTIFIERS {
        if !is_identifier(alloc, contents, want)? {
            return Ok(false);
        }
    }
    for (octets, unused, is_one) in &BITS {
        if !are_bits(alloc, octets, *unused, *is_one)? {
            return Ok(false);
        }
    }
    for (octet, is_one) in &TAGS {
        if Tag::new(*octet).is_some() != *is_one {
            return Ok(false);
        }
    }
    Ok(true)
}

/// Whether a fault that holds the identifier 1.2.3 is printed so.
fn is_told(alloc: Global) -> Result<bool, AllocError> {
    match Oid::from_bytes(Bytes::from_static(b"\x2A\x03")) {
        None => Ok(false),
        Some(oid) => {
            let attr = InvalidSignedAttr::new(alloc, oid)?;
            let fault = DecodeError::Content(ContentFault::InvalidSignedAttr(attr));
            Ok(fault.to_string(alloc)?.as_str() == "invalid extension 1.2.3")
        }
    }
}

/// Whether a value shows these octets.
fn shows<T: AsOctets>(value: &T, octets: &[u8]) -> bool {
    value.as_octets() == octets
}

#[test]
fn values(rt: HostRuntime) -> Result<(), AllocError> {
    let alloc = rt.alloc();
    let octets: &[u8] = b"\x01\x02\x03";
    let all = All::new().and(are_right(alloc)).and(is_told(alloc));
    let vector = Vec::from_slice(alloc, octets)?;
    assert!(rt; all.end()?);
    assert!(rt; shows(&octets, octets) && shows(&vector, octets));
    Ok(())
}
