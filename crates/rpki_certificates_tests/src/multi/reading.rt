//! Rows of multi-signed objects that are read, what they say, and what they are written as.

use super::octets::{AUTHORITY, EMPTY, ENTITY, FIRST, LIST, OTHER_TYPE, SECOND, WHOLE};
use crate::shared::{Octets, Row, Says, are_so, is_answer, is_told};
use bytes::Bytes;
use rpki_der::{Constructed, DecodeError, Encode, EncodeError, Mode};
use rpki_multi::{MultiSignedObject, Rta};
use rpki_testing::{Fail, copied, value};
use std::alloc::{AllocError, Global};

/// The version, the algorithm, and the content with its type.
const VERSION: &[u8] = b"\x02\x01\x03";

const DIGEST: &[u8] = b"\x31\x0D\x30\x0B\x06\x09\x60\x86\x48\x01\x65\x03\x04\x02\x01";

const CONTENT: &[u8] =
    b"\x30\x14\x06\x0B\x2A\x86\x48\x86\xF7\x0D\x01\x09\x10\x01\x24\xA0\x05\x04\x03\x02\x01\x05";

/// The same with one field that is other: the type of ROAs, and no content.
const ROA: &[u8] =
    b"\x30\x14\x06\x0B\x2A\x86\x48\x86\xF7\x0D\x01\x09\x10\x01\x18\xA0\x05\x04\x03\x02\x01\x05";

const NO_CONTENT: &[u8] = b"\x30\x0D\x06\x0B\x2A\x86\x48\x86\xF7\x0D\x01\x09\x10\x01\x24";

/// The content in two pieces, which is BER.
const PIECES: &[u8] =
    b"\x30\x17\x06\x0B\x2A\x86\x48\x86\xF7\x0D\x01\x09\x10\x01\x24\xA0\x08\x24\x06\
    \x04\x01\x02\x04\x01\x01";

/// A value with this identifier that holds the parts.
type Held = (u8, &'static [&'static [u8]]);

/// No certificate, and the two of them.
const NO_CERTS: Held = (0xA0, &[]);

const CERTS: Held = (0xA0, &[ENTITY, AUTHORITY]);

/// No list, and one.
const NO_LISTS: Held = (0xA1, &[]);

const LISTS: Held = (0xA1, &[LIST]);

/// No signer, and two of them.
const NO_SIGNERS: Held = (0x31, &[]);

const SIGNERS: Held = (0x31, &[SECOND, FIRST]);

/// The fields before the lists, the lists, and what is said or why it is refused: where the object
/// is read strictly, and where not.
type Fields = (
    &'static [&'static [u8]],
    &'static [Held],
    &'static str,
    &'static str,
);

const SAID: &str = "3 certs 3 2 crls 07AAE1B618F604C684EE3189FA1723BEF8656FE4 signers \
    216A788021417AD345B1B1EE10753127C457AFC0 2024-06-02T12:00:00Z \
    461D6580E38CCB6DC72699B6C945E53831DCDF03 2024-06-01T00:00:00Z";

const ALONE: &str = "3 certs crls signers";

const UNKNOWN: &str = "algorithm is none that the profile names";

const OTHER: &str = "content-type attribute is not the eContentType";

static ROWS: [Fields; 20] = [
    (
        &[VERSION, DIGEST, CONTENT],
        &[CERTS, LISTS, SIGNERS],
        SAID,
        SAID,
    ),
    (
        &[VERSION, DIGEST, CONTENT],
        &[NO_CERTS, NO_SIGNERS],
        ALONE,
        ALONE,
    ),
    (
        &[VERSION, DIGEST, CONTENT],
        &[NO_CERTS, NO_LISTS, NO_SIGNERS],
        ALONE,
        ALONE,
    ),
    (
        &[VERSION, DIGEST, PIECES],
        &[NO_CERTS, NO_SIGNERS],
        "malformed",
        "2 certs crls signers",
    ),
    (
        &[b"\x02\x01\x01", DIGEST, CONTENT],
        &[NO_CERTS, NO_SIGNERS],
        "malformed",
        "malformed",
    ),
    (
        &[VERSION, b"\x31\x00", CONTENT],
        &[NO_CERTS, NO_SIGNERS],
        "malformed",
        "malformed",
    ),
    (
        &[VERSION, b"\x31\x05\x30\x03\x06\x01\x2A", CONTENT],
        &[NO_CERTS, NO_SIGNERS],
        UNKNOWN,
        UNKNOWN,
    ),
    (
        &[VERSION, DIGEST, ROA],
        &[NO_CERTS, NO_SIGNERS],
        "malformed",
        "malformed",
    ),
    (
        &[VERSION, DIGEST, NO_CONTENT],
        &[NO_CERTS, NO_SIGNERS],
        "malformed",
        "malformed",
    ),
    (
        &[VERSION, DIGEST, CONTENT],
        &[NO_SIGNERS],
        "malformed",
        "malformed",
    ),
    (
        &[VERSION, DIGEST, CONTENT],
        &[NO_CERTS],
        "malformed",
        "malformed",
    ),
    (
        &[VERSION, DIGEST, CONTENT],
        &[LISTS, CERTS, SIGNERS],
        "malformed",
        "malformed",
    ),
    (
        &[VERSION, DIGEST, CONTENT],
        &[(0xA0, &[LIST]), NO_SIGNERS],
        "malformed",
        "malformed",
    ),
    (
        &[VERSION, DIGEST, CONTENT],
        &[NO_CERTS, (0xA1, &[ENTITY]), NO_SIGNERS],
        "malformed",
        "malformed",
    ),
    (
        &[VERSION, DIGEST, CONTENT],
        &[NO_CERTS, (0x30, &[FIRST])],
        "malformed",
        "malformed",
    ),
    (
        &[VERSION, DIGEST, CONTENT],
        &[NO_CERTS, (0x31, &[FIRST, b"\x05\x00"])],
        "malformed",
        "malformed",
    ),
    (
        &[VERSION, DIGEST, CONTENT],
        &[NO_CERTS, (0x31, &[FIRST, OTHER_TYPE])],
        OTHER,
        OTHER,
    ),
    (
        &[VERSION, DIGEST, CONTENT],
        &[NO_CERTS, NO_SIGNERS, NO_SIGNERS],
        "malformed",
        "malformed",
    ),
    (
        &[VERSION, DIGEST, CONTENT],
        &[NO_CERTS, (0x31, &[ENTITY])],
        "malformed",
        "malformed",
    ),
    (
        &[DIGEST, CONTENT],
        &[NO_CERTS, NO_SIGNERS],
        "malformed",
        "malformed",
    ),
];

/// The two objects that were made as a whole, and what each says.
type Whole = (&'static [u8], &'static str);

static WHOLES: [Whole; 2] = [
    (EMPTY, "57 certs crls signers"),
    (
        WHOLE,
        "57 certs 3 2 crls 07AAE1B618F604C684EE3189FA1723BEF8656FE4 signers \
            216A788021417AD345B1B1EE10753127C457AFC0 2024-06-02T12:00:00Z \
            461D6580E38CCB6DC72699B6C945E53831DCDF03 2024-06-01T00:00:00Z",
    ),
];

/// Adds lists.
fn push_lists(alloc: Global, contents: &mut Vec<u8>, lists: &[Held]) -> Result<(), AllocError> {
    for (identifier, parts) in lists {
        contents.extend_from_slice(&value(alloc, *identifier, parts)?)?;
    }
    Ok(())
}

/// The object of these fields.
fn object(alloc: Global, fields: &[&[u8]], lists: &[Held]) -> Result<Bytes, AllocError> {
    let mut contents = fields.concat(alloc)?;
    push_lists(alloc, &mut contents, lists)?;
    let signed = value(alloc, 0x30, &[&contents])?;
    let tagged = value(alloc, 0xA0, &[&signed])?;
    let kind: &[u8] = b"\x06\x09\x2A\x86\x48\x86\xF7\x0D\x01\x07\x02";
    Ok(Bytes::from_vec(value(alloc, 0x30, &[kind, &tagged])?)?)
}

/// Adds what an object says after its content.
fn push_parts(text: &mut String, object: &MultiSignedObject) -> Result<(), AllocError> {
    for cert in object.certificates() {
        let serial = cert.serial_number();
        write!(text, " {serial}")?;
    }
    text.push_str(" crls")?;
    for list in object.crls() {
        let key = list.authority_key_identifier();
        write!(text, " {key}")?;
    }
    text.push_str(" signers")?;
    for signer in object.signer_infos() {
        let (sid, time) = (signer.sid(), signer.signing_time());
        write!(text, " {sid} {time}")?;
    }
    Ok(())
}

impl Says for MultiSignedObject {
    fn text(&self, alloc: Global) -> Result<String, AllocError> {
        let len = self.content().len();
        let mut text = format!(in alloc; "{len} certs")?;
        push_parts(&mut text, self)?;
        Ok(text)
    }
}

/// The object that is read in this mode.
pub fn read(alloc: Global, octets: Bytes, mode: Mode) -> Result<MultiSignedObject, DecodeError> {
    match mode {
        Mode::Der => MultiSignedObject::decode(alloc, octets),
        Mode::Ber => {
            Constructed::decode(
                octets,
                mode,
                |cons| MultiSignedObject::take_from(alloc, cons),
            )
        }
    }
}

impl Row for Fields {
    fn is_so(&self, alloc: Global) -> Result<bool, Fail> {
        let (fields, lists, strict, relaxed) = *self;
        Ok(
            is_told(
                alloc,
                read(alloc, object(alloc, fields, lists)?, Mode::Der),
                strict,
            )? && is_told(
                alloc,
                read(alloc, object(alloc, fields, lists)?, Mode::Ber),
                relaxed,
            )?,
        )
    }
}

impl Row for Whole {
    fn is_so(&self, alloc: Global) -> Result<bool, Fail> {
        let (octets, text) = *self;
        Ok(
            is_told(
                alloc,
                read(alloc, Bytes::from_static(octets), Mode::Der),
                text,
            )? && is_told(
                alloc,
                read(alloc, Bytes::from_static(octets), Mode::Ber),
                text,
            )?,
        )
    }
}

/// What is written of a copy of an object.
enum Part {
    Whole,
    /// The last of its signers.
    Signer,
}

/// What is written, the octets of the object, the mode that these are read in, and what is
/// answered.
type Written = (Part, &'static [u8], Mode, Octets);

static WRITTEN: [Written; 6] = [
    (Part::Whole, EMPTY, Mode::Der, Ok(EMPTY)),
    (Part::Whole, EMPTY, Mode::Ber, Err("not in DER")),
    (Part::Whole, WHOLE, Mode::Der, Ok(WHOLE)),
    (Part::Whole, WHOLE, Mode::Ber, Err("not in DER")),
    (Part::Signer, WHOLE, Mode::Der, Ok(FIRST)),
    (Part::Signer, WHOLE, Mode::Ber, Err("not in DER")),
];

fn written(alloc: Global, object: &MultiSignedObject, part: &Part) -> Result<Vec<u8>, EncodeError> {
    match (part, object.signer_infos().last()) {
        (Part::Signer, Some(signer)) => signer.encode_ref().to_bytes(alloc),
        _ => object.encode_ref().to_bytes(alloc),
    }
}

impl Row for Written {
    fn is_so(&self, alloc: Global) -> Result<bool, Fail> {
        let (part, octets, mode, want) = self;
        let copy = copied(read(alloc, Bytes::from_static(*octets), *mode)?)?;
        let written = written(alloc, &copy, part);
        drop(copy);
        is_answer(alloc, written, want)
    }
}

/// Whether a copy of an attestation is written as it was read.
fn is_written(alloc: Global) -> Result<bool, Fail> {
    let copy = copied(Rta::decode(alloc, Bytes::from_static(EMPTY))?)?;
    let written = copy.encode_ref().to_bytes(alloc);
    drop(copy);
    is_answer(alloc, written, &Ok(EMPTY))
}

/// The number of the content, where it is one.
fn number(alloc: Global) -> Result<u8, Fail> {
    let octets = object(alloc, &[VERSION, DIGEST, CONTENT], &[NO_CERTS, NO_SIGNERS])?;
    let object = MultiSignedObject::decode(alloc, octets)?;
    let number = object.decode_content(|cons| cons.take_u8());
    drop(object);
    Ok(number?)
}

#[test]
fn objects_are_read(rt: HostRuntime) -> Result<(), Fail> {
    let alloc = rt.alloc();
    assert!(rt; are_so(alloc, &ROWS)? && are_so(alloc, &WHOLES)? && number(alloc)? == 5);
    Ok(())
}

#[test]
fn objects_are_written(rt: HostRuntime) -> Result<(), Fail> {
    let alloc = rt.alloc();
    assert!(rt; are_so(alloc, &WRITTEN)? && is_written(alloc)?);
    Ok(())
}
