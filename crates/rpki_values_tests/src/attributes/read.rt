//! Rows of attributes that are read.

use crate::reads::{All, joined};
use bytes::Bytes;
use rpki_attributes::SignedAttrs;
use rpki_der::build::tlv;
use rpki_der::{Constructed, DecodeError, Mode};
use std::alloc::{AllocError, Global};

/// The content type of a ROA (RFC 9582, section 3).
pub const TYPE: &[u8] = b"\x30\x1A\x06\x09\x2A\x86\x48\x86\xF7\x0D\x01\x09\x03\
    \x31\x0D\x06\x0B\x2A\x86\x48\x86\xF7\x0D\x01\x09\x10\x01\x18";

/// The signing time 2024-01-01 00:00:00.
pub const TIME: &[u8] = b"\x30\x1C\x06\x09\x2A\x86\x48\x86\xF7\x0D\x01\x09\x05\
    \x31\x0F\x17\x0D240101000000Z";

/// A digest of 32 zero octets.
pub const DIGEST: &[u8] = b"\x30\x2F\x06\x09\x2A\x86\x48\x86\xF7\x0D\x01\x09\x04\x31\x22\x04\x20\
    \0\0\0\0\0\0\0\0\0\0\0\0\0\0\0\0\0\0\0\0\0\0\0\0\0\0\0\0\0\0\0\0";

/// A digest of the octet 07 in pieces (X.690, section 8.7.3).
const PIECES: &[u8] = b"\x30\x14\x06\x09\x2A\x86\x48\x86\xF7\x0D\x01\x09\x04\
    \x31\x07\x24\x80\x04\x01\x07\0\0";

// Of the type 1.2.3: with an empty SET, with values that are no SET, without values, and cut.
const OTHER: &[u8] = b"\x30\x06\x06\x02\x2A\x03\x31\0";

const NO_SETS: &[u8] = b"\x30\x0B\x06\x02\x2A\x03\x05\0\x30\x03\x04\x01\x07";

const BARE: &[u8] = b"\x30\x04\x06\x02\x2A\x03";

const CUT: &[u8] = b"\x30\x06\x06\x02\x2A\x03\x31\x05";

// Content types with no value, with two, with one after the SET, and in a SEQUENCE.
const NO_VALUE: &[u8] = b"\x30\x0D\x06\x09\x2A\x86\x48\x86\xF7\x0D\x01\x09\x03\x31\0";

const TWO_VALUES: &[u8] = b"\x30\x15\x06\x09\x2A\x86\x48\x86\xF7\x0D\x01\x09\x03\
    \x31\x08\x06\x02\x2A\x03\x06\x02\x2A\x03";

const AFTER: &[u8] = b"\x30\x13\x06\x09\x2A\x86\x48\x86\xF7\x0D\x01\x09\x03\
    \x31\x04\x06\x02\x2A\x03\x05\0";

const NO_SET: &[u8] = b"\x30\x11\x06\x09\x2A\x86\x48\x86\xF7\x0D\x01\x09\x03\
    \x30\x04\x06\x02\x2A\x03";

/// A signing time of a day that there is not.
const NO_DAY: &[u8] = b"\x30\x1C\x06\x09\x2A\x86\x48\x86\xF7\x0D\x01\x09\x05\
    \x31\x0F\x17\x0D230229000000Z";

const TWICE: &str = "signed attribute stands more than once";

const TYPE_IS_OTHER: &str = "invalid extension 1.2.3";

const TOO_LONG: &str = "signedAttrs has more than 65535 octets";

const NO_SUCH_TIME: &str = "there is no such date or time of day";

/// Attributes, and why `take_from` refuses them and why `take_from_signed_message` does, if it
/// does.
pub static ROWS: [(&[&[u8]], &str, &str); 24] = [
    (&[TYPE, TIME, DIGEST], "", ""),
    (&[TYPE, DIGEST, TIME], "", ""),
    (&[TIME, TYPE, DIGEST], "", ""),
    (&[TIME, DIGEST, TYPE], "", ""),
    (&[DIGEST, TYPE, TIME], "", ""),
    (&[DIGEST, TIME, TYPE], "", ""),
    (&[TYPE, TIME, DIGEST, TYPE], TWICE, TWICE),
    (&[TYPE, TIME, TIME, DIGEST], TWICE, TWICE),
    (&[DIGEST, DIGEST, TYPE, TIME], TWICE, TWICE),
    (
        &[],
        "content-type attribute is missing",
        "content-type attribute is missing",
    ),
    (
        &[TIME, DIGEST],
        "content-type attribute is missing",
        "content-type attribute is missing",
    ),
    (
        &[TYPE, TIME],
        "message-digest attribute is missing",
        "message-digest attribute is missing",
    ),
    (
        &[TYPE, DIGEST],
        "signing-time attribute is missing",
        "signing-time attribute is missing",
    ),
    (&[TYPE, OTHER, TIME, DIGEST], TYPE_IS_OTHER, ""),
    (&[BARE, TYPE, TIME, DIGEST, OTHER], TYPE_IS_OTHER, ""),
    (&[TYPE, TIME, NO_SETS, DIGEST, NO_SETS], TYPE_IS_OTHER, ""),
    (
        &[OTHER, TYPE, TIME],
        TYPE_IS_OTHER,
        "message-digest attribute is missing",
    ),
    (&[CUT, TYPE, TIME, DIGEST], TYPE_IS_OTHER, "malformed"),
    (&[NO_VALUE, TIME, DIGEST], "malformed", "malformed"),
    (&[TWO_VALUES, TIME, DIGEST], "malformed", "malformed"),
    (&[AFTER, TIME, DIGEST], "malformed", "malformed"),
    (&[NO_SET, TIME, DIGEST], "malformed", "malformed"),
    (&[TYPE, TIME, PIECES], "malformed", "malformed"),
    (&[TYPE, NO_DAY, DIGEST], NO_SUCH_TIME, NO_SUCH_TIME),
];

/// A value with this tag. Its contents are short.
pub fn value(alloc: Global, tag: u8, contents: &[u8]) -> Result<Vec<u8>, AllocError> {
    match tlv(alloc, tag, contents) {
        Ok(octets) => Ok(octets),
        Err(_) => Err(AllocError),
    }
}

/// What is read of these octets under [0], strictly or as a message.
pub fn read(
    alloc: Global,
    contents: &[u8],
    mode: Mode,
    is_strict: bool,
) -> Result<Result<SignedAttrs, DecodeError>, AllocError> {
    let source = Bytes::from_vec(value(alloc, 0xA0, contents)?)?;
    Ok(Constructed::decode(source, mode, |cons| {
        if is_strict {
            SignedAttrs::take_from(alloc, cons)
        } else {
            SignedAttrs::take_from_signed_message(alloc, cons)
        }
    }))
}

/// Whether the answer is these octets, or is refused for this reason. Want of memory is handed on.
pub fn is_answer(
    alloc: Global,
    answer: Result<SignedAttrs, DecodeError>,
    contents: &[u8],
    why: &str,
) -> Result<bool, AllocError> {
    match answer {
        Ok(attrs) => Ok(why.is_empty() && attrs.as_slice() == contents),
        Err(DecodeError::Memory) => Err(AllocError),
        Err(error) => Ok(error.to_string(alloc)?.as_str() == why),
    }
}

/// Whether the message that is signed is this head and these octets; without a head the attributes
/// are too long. Want of memory is handed on.
pub fn is_message(
    alloc: Global,
    answer: Result<SignedAttrs, DecodeError>,
    head: &[u8],
    contents: &[u8],
) -> Result<bool, AllocError> {
    match answer {
        Ok(attrs) => {
            let message = attrs.encode_verify(alloc)?;
            drop(attrs);
            Ok(!head.is_empty() && message.strip_prefix(head) == Some(contents))
        }
        answer => Ok(head.is_empty() && is_answer(alloc, answer, contents, TOO_LONG)?),
    }
}

/// Whether attributes are answered so, strictly and as a message, in a mode.
fn are_answers(
    alloc: Global,
    mode: Mode,
    contents: &[u8],
    strict: &str,
    message: &str,
) -> Result<bool, AllocError> {
    Ok(
        is_answer(alloc, read(alloc, contents, mode, true)?, contents, strict)?
            && is_answer(
                alloc,
                read(alloc, contents, mode, false)?,
                contents,
                message,
            )?,
    )
}

/// The contents of the types 1.2.3 and of a digest, in an OBJECT IDENTIFIER.
const OTHER_OID: &[u8] = b"\x06\x02\x2A\x03";

const DIGEST_OID: &[u8] = b"\x06\x09\x2A\x86\x48\x86\xF7\x0D\x01\x09\x04";

/// An attribute that is added: its type, and how many zeros its value has; the attribute after it;
/// how many octets all have with it; why they are refused strictly; and how the message begins that
/// is read of them, if one is.
type Padding = (
    &'static [u8],
    usize,
    &'static [u8],
    usize,
    &'static str,
    &'static [u8],
);

static LENGTHS: [Padding; 9] = [
    (OTHER_OID, 10, DIGEST, 127, TYPE_IS_OTHER, b"\x31\x7F"),
    (OTHER_OID, 11, DIGEST, 128, TYPE_IS_OTHER, b"\x31\x81\x80"),
    (OTHER_OID, 135, DIGEST, 255, TYPE_IS_OTHER, b"\x31\x81\xFF"),
    (
        OTHER_OID,
        136,
        DIGEST,
        256,
        TYPE_IS_OTHER,
        b"\x31\x82\x01\0",
    ),
    (
        OTHER_OID,
        65412,
        DIGEST,
        65535,
        TYPE_IS_OTHER,
        b"\x31\x82\xFF\xFF",
    ),
    (OTHER_OID, 65413, DIGEST, 65536, TYPE_IS_OTHER, b""),
    (DIGEST_OID, 32, b"", 107, "", b"\x31\x6B"),
    (DIGEST_OID, 65454, b"", 65535, "", b"\x31\x82\xFF\xFF"),
    (DIGEST_OID, 65455, b"", 65536, TOO_LONG, b""),
];

/// The content type, the time and these attributes.
fn padded(alloc: Global, oid: &[u8], zeros: usize, after: &[u8]) -> Result<Vec<u8>, AllocError> {
    let string = value(alloc, 4, &vec![in alloc; 0u8; zeros]?)?;
    let set = value(alloc, 0x31, &string)?;
    let attribute = value(alloc, 0x30, &joined(alloc, &[oid, &set])?)?;
    joined(alloc, &[TYPE, TIME, &attribute, after])
}

/// Whether these attributes are answered so, strictly and as a message.
fn are_padded(alloc: Global, contents: &[u8], why: &str, head: &[u8]) -> Result<bool, AllocError> {
    All::new()
        .and(is_answer(
            alloc,
            read(alloc, contents, Mode::Der, true)?,
            contents,
            why,
        ))
        .and(is_message(
            alloc,
            read(alloc, contents, Mode::Der, false)?,
            head,
            contents,
        ))
        .end()
}

/// Whether attributes that are padded so are answered so, strictly and as a message.
fn is_padded(alloc: Global, row: &Padding) -> Result<bool, AllocError> {
    let (oid, zeros, after, total, why, head) = *row;
    let contents = padded(alloc, oid, zeros, after)?;
    let is_padded = are_padded(alloc, &contents, why, head);
    Ok(is_padded? && contents.len() == total)
}

#[test]
fn rows(rt: HostRuntime) -> Result<(), AllocError> {
    let alloc = rt.alloc();
    for (parts, strict, message) in &ROWS {
        let contents = joined(alloc, parts)?;
        assert!(rt; are_answers(alloc, Mode::Der, &contents, strict, message)?);
    }
    let pieces = joined(alloc, &[TYPE, TIME, PIECES])?;
    assert!(rt; are_answers(alloc, Mode::Ber, &pieces, "", "")?);
    Ok(())
}

#[test]
fn lengths(rt: HostRuntime) -> Result<(), AllocError> {
    for row in &LENGTHS {
        assert!(rt; is_padded(rt.alloc(), row)?);
    }
    Ok(())
}
