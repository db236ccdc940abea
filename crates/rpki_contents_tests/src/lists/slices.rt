//! Rows of values in slices.

use rpki_der::Tag;
use rpki_lists::SliceReader;

/// A call of the reader.
#[derive(Clone, Copy)]
enum Call {
    U8,
    OptU8,
    U32,
    Bits,
    Ia5,
    OptIa5,
    Octets,
    Contents,
    Sequence,
}

/// What a call finds.
#[derive(Clone, Copy, PartialEq)]
enum Found<'a> {
    /// No value that is right.
    Nothing,
    /// That an optional value is not there.
    Absent,
    Number(u32),
    Octets(&'a [u8]),
    /// Octets, and how many bits of the last one are unused.
    Bits(&'a [u8], u8),
}

/// A call, the octets that it is made on, and what it finds and how many octets it leaves.
static ROWS: [(Call, &[u8], Found<'static>, usize); 32] = [
    (Call::U8, b"\x02\x01\x7F", Found::Number(127), 0),
    (Call::U8, b"\x02\x02\x00\x80\x05", Found::Number(128), 1),
    (Call::U8, b"\x02\x02\x00\x7F", Found::Nothing, 4),
    (Call::U8, b"\x02\x02\x01\x00", Found::Nothing, 4),
    (Call::U8, b"\x02\x01\x80", Found::Nothing, 3),
    (Call::U8, b"\x02\x00", Found::Nothing, 2),
    (Call::U8, b"", Found::Nothing, 0),
    (Call::OptU8, b"\x02\x01\x07\x30\x00", Found::Number(7), 2),
    (Call::OptU8, b"\x30\x00", Found::Absent, 2),
    (Call::OptU8, b"", Found::Absent, 0),
    (Call::OptU8, b"\x02\x01\x80", Found::Nothing, 3),
    (
        Call::U32,
        b"\x02\x05\x00\xFF\xFF\xFF\xFF",
        Found::Number(4294967295),
        0,
    ),
    (
        Call::U32,
        b"\x02\x05\x01\x00\x00\x00\x00",
        Found::Nothing,
        7,
    ),
    (Call::U32, b"\x02\x04\x80\x00\x00\x00", Found::Nothing, 6),
    (
        Call::Bits,
        b"\x03\x03\x04\xAB\xC0\xFF",
        Found::Bits(&[0xAB, 0xC0], 4),
        1,
    ),
    (Call::Bits, b"\x03\x01\x00", Found::Bits(&[], 0), 0),
    (Call::Bits, b"\x03\x01\x01", Found::Nothing, 3),
    (Call::Bits, b"\x03\x02\x08\x00", Found::Nothing, 4),
    (Call::Bits, b"\x03\x00", Found::Nothing, 2),
    (Call::Ia5, b"\x16\x02ab", Found::Octets(&[0x61, 0x62]), 0),
    (Call::Ia5, b"\x16\x01\x80", Found::Nothing, 3),
    (Call::Ia5, b"\x0C\x01a", Found::Nothing, 3),
    (Call::OptIa5, b"\x16\x01a", Found::Octets(&[0x61]), 0),
    (Call::OptIa5, b"\x04\x01a", Found::Absent, 3),
    (
        Call::Octets,
        b"\x04\x02\x00\xFF",
        Found::Octets(&[0x00, 0xFF]),
        0,
    ),
    (Call::Octets, b"\x24\x03\x04\x01\x00", Found::Nothing, 5),
    (Call::Contents, b"\x80\x01\x05", Found::Octets(&[0x05]), 0),
    (
        Call::Sequence,
        b"\x30\x03\x02\x01\x05\x00",
        Found::Octets(&[0x02, 0x01, 0x05]),
        1,
    ),
    (
        Call::Sequence,
        b"\x30\x81\x03\x02\x01\x05",
        Found::Nothing,
        6,
    ),
    (Call::Sequence, b"\x30\x80\x00\x00", Found::Nothing, 4),
    (
        Call::Sequence,
        b"\x30\x85\x00\x00\x00\x00\x00",
        Found::Nothing,
        7,
    ),
    (Call::Sequence, b"\x30\x03\x02\x01", Found::Nothing, 4),
];

/// What was found for a number.
fn of_number(found: Option<u32>) -> Found<'static> {
    match found {
        None => Found::Nothing,
        Some(n) => Found::Number(n),
    }
}

/// What was found for octets.
fn of_octets(found: Option<&[u8]>) -> Found<'_> {
    match found {
        None => Found::Nothing,
        Some(octets) => Found::Octets(octets),
    }
}

/// What a call finds.
fn find<'a>(call: Call, reader: &mut SliceReader<'a>) -> Found<'a> {
    match call {
        Call::U8 => of_number(reader.take_u8().map(u32::from)),
        Call::OptU8 => match reader.take_opt_u8() {
            Some(None) => Found::Absent,
            Some(Some(n)) => Found::Number(u32::from(n)),
            None => Found::Nothing,
        },
        Call::U32 => of_number(reader.take_u32()),
        Call::Bits => match reader.take_bits() {
            Some(bits) => Found::Bits(bits.octets, bits.unused),
            None => Found::Nothing,
        },
        Call::Ia5 => of_octets(reader.take_ia5()),
        Call::OptIa5 => match reader.take_opt_ia5() {
            Some(None) => Found::Absent,
            Some(found) => of_octets(found),
            None => Found::Nothing,
        },
        Call::Octets => of_octets(reader.take_octets()),
        Call::Contents => of_octets(reader.take_contents(Tag::CTX_0_PRIMITIVE)),
        Call::Sequence => of_octets(reader.take_sequence().map(|inner| inner.rest())),
    }
}

/// Whether each call finds and leaves what it should.
fn are_found() -> bool {
    for (call, octets, wanted, left) in &ROWS {
        let mut reader = SliceReader::new(octets);
        if find(*call, &mut reader) != *wanted || reader.rest().len() != *left {
            return false;
        }
    }
    true
}

/// Whether a reader closes at its end alone.
fn is_closed() -> bool {
    SliceReader::new(b"").close(7u8) == Some(7) && SliceReader::new(b"\x00").close(7u8).is_none()
}

#[test]
fn rows(rt: HostRuntime) {
    assert!(rt; are_found() && is_closed());
}
