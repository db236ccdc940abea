//! Lists of numbers that are read and written.

use super::numbers::{NOT_ASCENDING, Numbers, in_order, take_ascending};
use crate::contents::{Content, Octets, are_relaxed, are_rows, is_read};
use bytes::Bytes;
use rpki_der::encode::sequence;
use rpki_der::{Constructed, DecodeError, Encode, EncodeError, Mode};
use rpki_lists::{EntriesEncoder, EntryList};
use std::alloc::{AllocError, Global};

impl Content for EntryList<Numbers> {
    fn read(_alloc: Global, source: Bytes, mode: Mode) -> Result<EntryList<Numbers>, DecodeError> {
        Constructed::decode(source, mode, |cons| take_ascending(cons))
    }

    fn write(&self, alloc: Global) -> Result<Vec<u8>, EncodeError> {
        sequence(EntriesEncoder(in_order(self))).to_bytes(alloc)
    }
}

/// Lists in DER.
static ROWS: [Octets; 18] = [
    (b"\x30\x00", Ok(b"\x30\x00")),
    (b"\x30\x03\x02\x01\x05", Ok(b"\x30\x03\x02\x01\x05")),
    (
        b"\x30\x07\x02\x01\x00\x02\x02\x00\xFF",
        Ok(b"\x30\x07\x02\x01\x00\x02\x02\x00\xFF"),
    ),
    (
        b"\x30\x07\x02\x05\x00\xFF\xFF\xFF\xFF",
        Ok(b"\x30\x07\x02\x05\x00\xFF\xFF\xFF\xFF"),
    ),
    (
        b"\x30\x09\x02\x02\x0B\x62\x02\x03\x03\x25\x9E",
        Ok(b"\x30\x09\x02\x02\x0B\x62\x02\x03\x03\x25\x9E"),
    ),
    (b"\x30\x06\x02\x01\x05\x02\x01\x05", Err(NOT_ASCENDING)),
    (b"\x30\x06\x02\x01\x06\x02\x01\x05", Err(NOT_ASCENDING)),
    (
        b"\x30\x09\x02\x01\x01\x02\x01\x07\x02\x01\x05",
        Err(NOT_ASCENDING),
    ),
    (b"", Err("malformed")),
    (b"\x31\x03\x02\x01\x05", Err("malformed")),
    (b"\x30\x02\x05\x00", Err("malformed")),
    (b"\x30\x05\x02\x01\x05\x05\x00", Err("malformed")),
    (b"\x30\x04\x02\x01\x05\x02", Err("malformed")),
    (b"\x30\x05\x02\x01\x05\x02\x01", Err("malformed")),
    (b"\x30\x04\x02\x02\x00\x7F", Err("malformed")),
    (b"\x30\x03\x02\x01\x80", Err("malformed")),
    (b"\x30\x07\x02\x05\x01\x00\x00\x00\x00", Err("malformed")),
    (b"\x30\x02\x02\x00", Err("malformed")),
];

/// Lists in BER: their entries stand in DER.
static RELAXED: [Octets; 4] = [
    (b"\x30\x81\x03\x02\x01\x05", Ok(b"\x30\x03\x02\x01\x05")),
    (b"\x30\x80\x02\x01\x05\x00\x00", Ok(b"\x30\x03\x02\x01\x05")),
    (b"\x30\x80\x02\x81\x01\x05\x00\x00", Err("malformed")),
    (b"\x30\x04\x02\x81\x01\x05", Err("malformed")),
];

#[test]
fn rows(rt: HostRuntime) -> Result<(), AllocError> {
    let alloc = rt.alloc();
    assert!(rt;
        are_rows::<EntryList<Numbers>>(alloc, &ROWS)?
            && are_relaxed::<EntryList<Numbers>>(alloc, &RELAXED)?
    );
    Ok(())
}

/// A list of a thousand numbers of two octets.
fn thousand(alloc: Global) -> Result<Vec<u8>, AllocError> {
    let mut octets = Vec::new(alloc);
    octets.extend_from_slice(b"\x30\x82\x0F\xA0")?;
    for n in 0..1000u32 {
        octets.extend_from_slice(&[2, 2, (4 + n / 250) as u8, (n % 250) as u8])?;
    }
    Ok(octets)
}

#[test]
fn a_thousand_entries(rt: HostRuntime) -> Result<(), AllocError> {
    let octets = thousand(rt.alloc())?;
    assert!(rt; is_read::<EntryList<Numbers>>(rt.alloc(), &octets, Mode::Der, Ok(&octets))?);
    Ok(())
}
