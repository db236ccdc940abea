//! Calls by themselves: the text of a refusal, a list that is made of octets, and copies.

use super::numbers::{NOT_ASCENDING, Numbers, in_order};
use crate::contents::{Row, are_so};
use bytes::Bytes;
use rpki_der::{Constructed, DecodeError, Mode};
use rpki_lists::{EntryList, Refused, SliceReader};
use std::alloc::{AllocError, Global};

/// Why an entry is refused, and the text that says so.
struct Said(Refused, &'static str);

static TEXTS: [Said; 3] = [
    Said(Refused::Malformed, "malformed"),
    Said(Refused::For("name is too long"), "name is too long"),
    Said(
        Refused::For(NOT_ASCENDING),
        "numbers are not in ascending order",
    ),
];

impl Row for Said {
    fn is_so(&self, alloc: Global) -> Result<bool, AllocError> {
        let Said(refused, text) = self;
        Ok(format!(in alloc; "{refused}")?.as_str() == *text)
    }
}

/// Octets in DER, and the numbers that they are, if they are some.
struct Made(&'static [u8], Option<&'static [u32]>);

static LISTS: [Made; 5] = [
    Made(b"", Some(&[])),
    Made(b"\x02\x01\x05", Some(&[5])),
    Made(b"\x02\x01\x05\x02\x01\x04", Some(&[5, 4])),
    Made(b"\x02\x01\x05\x02", None),
    Made(b"\x02\x81\x01\x05", None),
];

/// Whether the list has these numbers, and a copy of what is to come.
fn are_numbers(list: &EntryList<Numbers>, wanted: &[u32]) -> Result<bool, AllocError> {
    let copied = in_order(list).clone()?;
    Ok(
        list.len() == wanted.len()
            && list.is_empty() == wanted.is_empty()
            && in_order(list).eq(wanted.iter().copied())
            && copied.eq(wanted.iter().copied()),
    )
}

impl Row for Made {
    fn is_so(&self, alloc: Global) -> Result<bool, AllocError> {
        let Made(octets, wanted) = self;
        match (
            EntryList::of(Bytes::copy_from_slice(alloc, octets)?),
            wanted,
        ) {
            (Some(list), Some(wanted)) => {
                let copied: Result<EntryList<Numbers>, AllocError> = list.clone();
                drop(list);
                are_numbers(&copied?, wanted)
            }
            (None, None) => Ok(true),
            _ => Ok(false),
        }
    }
}

/// The numbers of a list, in no order.
fn free() -> Result<EntryList<Numbers>, DecodeError> {
    let source = Bytes::from_static(b"\x30\x06\x02\x01\x05\x02\x01\x04");
    Constructed::decode(source, Mode::Der, |cons| EntryList::take_from(cons))
}

/// Whether numbers that do not ascend are read, where no rule asks for that.
fn are_free() -> Result<bool, AllocError> {
    match free() {
        Ok(list) => are_numbers(&list, &[5, 4]),
        Err(DecodeError::Memory) => Err(AllocError),
        Err(_) => Ok(false),
    }
}

/// Whether the same reader again reads the same.
fn is_again() -> bool {
    let mut reader = SliceReader::new(b"\x02\x01\x05\x02\x01\x04");
    let mut again = reader.again();
    reader.take_u8() == Some(5) && again.take_u8() == Some(5) && again.rest() == reader.rest()
}

#[test]
fn calls(rt: HostRuntime) -> Result<(), AllocError> {
    let alloc = rt.alloc();
    assert!(rt; are_so(alloc, &TEXTS)? && are_so(alloc, &LISTS)? && are_free()? && is_again());
    Ok(())
}
