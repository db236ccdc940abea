//! Attributes that are made, and their parts.

use super::read::{DIGEST, TIME, TYPE, is_message};
use crate::reads::{is_written, joined};
use bytes::Bytes;
use rpki_attributes::{AttrsFault, MessageDigest, SignedAttrs};
use rpki_basics::standin::StandIn;
use rpki_basics::{Crypto, Time};
use rpki_der::Oid;
use std::alloc::{AllocError, Global};

// The contents of the types of a ROA and of 1.2.3.
const ROA: &[u8] = b"\x2A\x86\x48\x86\xF7\x0D\x01\x09\x10\x01\x18";

const SHORT: &[u8] = b"\x2A\x03";

/// The attribute of the type 1.2.3.
const SHORT_TYPE: &[u8] = b"\x30\x11\x06\x09\x2A\x86\x48\x86\xF7\x0D\x01\x09\x03\
    \x31\x04\x06\x02\x2A\x03";

// The attributes of digests of no zeros, of 11, of 13 and of 128.
const DIGEST_0: &[u8] = b"\x30\x0F\x06\x09\x2A\x86\x48\x86\xF7\x0D\x01\x09\x04\x31\x02\x04\0";

const DIGEST_11: &[u8] = b"\x30\x1A\x06\x09\x2A\x86\x48\x86\xF7\x0D\x01\x09\x04\
    \x31\x0D\x04\x0B\0\0\0\0\0\0\0\0\0\0\0";

const DIGEST_13: &[u8] = b"\x30\x1C\x06\x09\x2A\x86\x48\x86\xF7\x0D\x01\x09\x04\
    \x31\x0F\x04\x0D\0\0\0\0\0\0\0\0\0\0\0\0\0";

const DIGEST_128: &[u8] = b"\x30\x81\x91\x06\x09\x2A\x86\x48\x86\xF7\x0D\x01\x09\x04\
    \x31\x81\x83\x04\x81\x80\
    \0\0\0\0\0\0\0\0\0\0\0\0\0\0\0\0\0\0\0\0\0\0\0\0\0\0\0\0\0\0\0\0\
    \0\0\0\0\0\0\0\0\0\0\0\0\0\0\0\0\0\0\0\0\0\0\0\0\0\0\0\0\0\0\0\0\
    \0\0\0\0\0\0\0\0\0\0\0\0\0\0\0\0\0\0\0\0\0\0\0\0\0\0\0\0\0\0\0\0\
    \0\0\0\0\0\0\0\0\0\0\0\0\0\0\0\0\0\0\0\0\0\0\0\0\0\0\0\0\0\0\0\0";

/// The signing time 2050-01-01 00:00:00.
const TIME_2050: &[u8] = b"\x30\x1E\x06\x09\x2A\x86\x48\x86\xF7\x0D\x01\x09\x05\
    \x31\x11\x18\x0F20500101000000Z";

/// What attributes are made of: a content type, how many zeros a digest has, and the year whose
/// first moment is the signing time.
type Values = (&'static [u8], usize, u16);

/// Values, the octets of the length of what is made of them, and the attributes, in ascending
/// order.
static MADE: [(Values, &[u8], &[&[u8]]); 8] = [
    ((ROA, 32, 2024), b"\x6B", &[TYPE, TIME, DIGEST]),
    ((ROA, 32, 2050), b"\x6D", &[TYPE, TIME_2050, DIGEST]),
    ((ROA, 128, 2024), b"\x81\xCE", &[TYPE, TIME, DIGEST_128]),
    ((ROA, 0, 2024), b"\x4B", &[DIGEST_0, TYPE, TIME]),
    ((SHORT, 0, 2024), b"\x42", &[DIGEST_0, SHORT_TYPE, TIME]),
    ((SHORT, 32, 2024), b"\x62", &[SHORT_TYPE, TIME, DIGEST]),
    // as long as one another, so that the type of the attribute decides
    ((ROA, 11, 2024), b"\x56", &[TYPE, DIGEST_11, TIME]),
    ((ROA, 13, 2024), b"\x58", &[TYPE, DIGEST_13, TIME]),
];

/// What was made, or none where it would be too long. Want of memory is handed on.
fn made(answer: Result<SignedAttrs, AttrsFault>) -> Result<Option<SignedAttrs>, AllocError> {
    match answer {
        Ok(attrs) => Ok(Some(attrs)),
        Err(AttrsFault::Memory) => Err(AllocError),
        Err(AttrsFault::AttrsTooLong) => Ok(None),
    }
}

/// What is made of these values.
fn make(alloc: Global, (oid, zeros, year): Values) -> Result<Option<SignedAttrs>, AllocError> {
    let digest = MessageDigest::from(Bytes::from_vec(vec![in alloc; 0u8; zeros]?)?).clone()?;
    let oid = Oid::from_bytes(Bytes::from_static(oid));
    let (Some(oid), Some(time)) = (oid, Time::utc(year, 1, 1, 0, 0, 0)) else {
        return Ok(None);
    };
    made(SignedAttrs::new(alloc, &oid, &digest, time))
}

/// Whether the attributes are written as these octets, and are signed as a message with this head
/// and these contents.
fn is_right(
    alloc: Global,
    attrs: SignedAttrs,
    written: &[u8],
    head: &[u8],
    contents: &[u8],
) -> Result<bool, AllocError> {
    let is_written = is_written(alloc, &attrs.encode_ref(), written);
    Ok(is_message(alloc, Ok(attrs), head, contents)? && is_written?)
}

/// Whether the copy of what is made of these values is of these attributes.
fn is_made(alloc: Global, values: Values, len: &[u8], parts: &[&[u8]]) -> Result<bool, AllocError> {
    let contents = joined(alloc, parts)?;
    let head = joined(alloc, &[b"\x31", len])?;
    let written = joined(alloc, &[b"\xA0", len, &contents])?;
    match make(alloc, values)? {
        None => Ok(false),
        Some(attrs) => {
            let copy: Result<_, _> = attrs.clone();
            drop(attrs);
            is_right(alloc, copy?, &written, &head, &contents)
        }
    }
}

/// Whether the attributes of a content have its digest, which is that of the stand-in.
fn is_of_content(alloc: Global) -> Result<bool, AllocError> {
    let oid = Oid::from_bytes(Bytes::from_static(SHORT));
    let (Some(oid), Some(time)) = (oid, Time::utc(2024, 1, 1, 0, 0, 0)) else {
        return Ok(false);
    };
    let digest = MessageDigest::from_digest(alloc, &StandIn.digest(b"abc"))?;
    match made(SignedAttrs::of_content(alloc, &oid, b"abc", time, &StandIn))? {
        None => Ok(false),
        Some(attrs) => {
            let is_right = *attrs.message_digest() == digest && *attrs.content_type() == oid;
            drop(attrs);
            Ok(is_right)
        }
    }
}

#[test]
fn making(rt: HostRuntime) -> Result<(), AllocError> {
    let alloc = rt.alloc();
    for (values, len, parts) in &MADE {
        assert!(rt; is_made(alloc, *values, len, parts)?);
    }
    assert!(rt; make(alloc, (ROA, 65454, 2024))?.is_some());
    assert!(rt; make(alloc, (ROA, 65455, 2024))?.is_none());
    let digest = MessageDigest::from(Bytes::from_static(b"hash"));
    let is_written = is_written(alloc, &digest.encode_ref(), b"\x04\x04hash")?;
    assert!(rt; is_written && is_of_content(alloc)?);
    Ok(())
}
