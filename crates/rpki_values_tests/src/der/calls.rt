//! Rows of octets that a reader takes and refuses (X.690).

use crate::reads::{All, MALFORMED, Reads, Row, Shown, Want, are_alike, are_relaxed, shows};
use bytes::Bytes;
use rpki_der::{BitString, Captured, Constructed, DecodeError, ListItem, Mode, Oid, Tag};
use std::alloc::{AllocError, Global};
use std::marker::Model;

/// A call of a reader.
#[derive(Clone, Copy)]
pub enum Call {
    U8,
    U32,
    OptU8,
    OptU32,
    SkipFive,
    Bool,
    Null,
    Oid,
    Bits,
    Ia5,
    OptIa5,
    Octets,
    /// An optional value under [0], primitive.
    Key,
    Sequence,
    OptSequence,
    Set,
    Tagged,
    OptTagged,
    SkipOne,
    SkipAll,
    Capture,
    Unsigned,
    Flag,
    /// The object identifier 2.5.4.3.
    Name,
    WholeBits,
    Primitive,
    TwoOctets,
    SkipOptOne,
    AtEnd,
    /// The octets of a number that has to be 9.
    CaptureNine,
    Items,
    /// The contents of an optional value under [0], constructed.
    Contents,
    /// A reader that has an error of its own, and others after it.
    Marked,
}

/// A number of one octet in a list.
#[derive(Drop)]
struct Digit(u8);

impl Model for Digit {
    ghost use Rattle.std.specs.Prelude.{ℕ};

    ghost Value = { ℕ };

    ghost view = { λ s. s.0 };
}

impl ListItem for Digit {
    ghost use Rattle.rpki_der.specs.Tags.{INTEGER};
    ghost use Rattle.rpki_der.specs.Read.Parse.{u8_at};

    ghost tag = { INTEGER };

    ghost at = { u8_at };

    fn take_opt_from(
        _alloc: Global,
        cons: &mut Constructed<'_>,
    ) -> Result<Option<Digit>, DecodeError> {
        match cons.take_opt_u8()? {
            Some(n) => Ok(Some(Digit(n))),
            None => Ok(None),
        }
    }
}

impl Shown for Vec<Digit> {
    fn is_wanted(&self, _alloc: Global, want: Want) -> Result<bool, AllocError> {
        let Want::Read(octets) = want else {
            return Ok(false);
        };
        for (number, octet) in self.iter().zip(octets) {
            if number.0 != *octet {
                return Ok(false);
            }
        }
        Ok(self.len() == octets.len())
    }
}

impl Shown for Oid {
    fn is_wanted(&self, _alloc: Global, want: Want) -> Result<bool, AllocError> {
        Ok(want.is_octets(self.as_slice()))
    }
}

/// The number of bits that are not used, and the octets.
impl Shown for BitString {
    fn is_wanted(&self, _alloc: Global, want: Want) -> Result<bool, AllocError> {
        match want {
            Want::Read([unused, octets @ ..]) => Ok(
                self.unused == *unused && self.octets.as_slice() == octets,
            ),
            _ => Ok(false),
        }
    }
}

impl Shown for Captured {
    fn is_wanted(&self, _alloc: Global, want: Want) -> Result<bool, AllocError> {
        Ok(want.is_octets(self.as_slice()))
    }
}

/// A number that has to be 9, and its octets.
impl Shown for (u8, Captured) {
    fn is_wanted(&self, _alloc: Global, want: Want) -> Result<bool, AllocError> {
        Ok(self.0 == 9 && want.is_octets(self.1.as_slice()))
    }
}

fn small(cons: &mut Constructed<'_>) -> Result<u8, DecodeError> {
    cons.take_u8()
}

/// Goes past the value in front.
pub fn skip(cons: &mut Constructed<'_>) -> Result<(), DecodeError> {
    cons.skip_one()
}

/// Takes a list.
fn take_list(cons: &mut Constructed<'_>, alloc: Global) -> Result<Vec<Digit>, DecodeError> {
    cons.take_items(alloc)
}

/// Marks a reader as failed by a rule of its own, then by others, and goes on as if it had not.
fn mark(cons: &mut Constructed<'_>) -> Result<(), DecodeError> {
    let _ = cons.refuse_for("first");
    let _ = cons.fail(DecodeError::Malformed);
    let _ = cons.fail(DecodeError::refusal("second"));
    Ok(())
}

/// Calls that read a number, or keep octets.
fn is_number(
    cons: &mut Constructed<'_>,
    alloc: Global,
    call: Call,
    want: Want,
) -> Result<bool, DecodeError> {
    match call {
        Call::U8 => shows(alloc, cons.take_u8(), want),
        Call::U32 => shows(alloc, cons.take_u32(), want),
        Call::OptU8 => shows(alloc, cons.take_opt_u8(), want),
        Call::OptU32 => shows(alloc, cons.take_opt_u32(), want),
        Call::Bool => shows(alloc, cons.take_opt_bool(), want),
        Call::Flag => shows(alloc, cons.take_flag(), want),
        Call::AtEnd => shows(alloc, cons.is_at_end(), want),
        Call::SkipFive => shows(alloc, cons.skip_u8_if(5), want),
        Call::Null => shows(alloc, cons.skip_opt_null(), want),
        Call::Unsigned => shows(alloc, cons.take_unsigned(), want),
        Call::Capture => shows(alloc, cons.capture(skip), want),
        Call::CaptureNine => shows(alloc, cons.capture_with(small), want),
        _ => shows(alloc, mark(cons), want),
    }
}

/// Calls that read a string, or a list.
fn is_string(
    cons: &mut Constructed<'_>,
    alloc: Global,
    call: Call,
    want: Want,
) -> Result<bool, DecodeError> {
    match call {
        Call::Oid => shows(alloc, cons.take_oid(), want),
        Call::Bits => shows(alloc, cons.take_bits(), want),
        Call::Ia5 => shows(alloc, cons.take_ia5(), want),
        Call::OptIa5 => shows(alloc, cons.take_opt_ia5(), want),
        Call::Octets => shows(alloc, cons.take_octets(alloc), want),
        Call::Key => shows(
            alloc,
            cons.take_opt_primitive_if(Tag::CTX_0_PRIMITIVE),
            want,
        ),
        Call::WholeBits => shows(alloc, cons.take_octets_in_bits(), want),
        Call::Primitive => shows(alloc, cons.take_primitive_if(Tag::CTX_0_PRIMITIVE), want),
        Call::Contents => shows(alloc, cons.take_opt_primitive_if(Tag::CTX_0), want),
        Call::TwoOctets => shows(alloc, cons.take_octets_of::<2>(alloc), want),
        _ => shows(alloc, take_list(cons, alloc), want),
    }
}

/// Calls that open a value, or go past one.
fn is_opened(
    cons: &mut Constructed<'_>,
    alloc: Global,
    call: Call,
    want: Want,
) -> Result<bool, DecodeError> {
    match call {
        Call::Sequence => shows(alloc, cons.take_sequence(small), want),
        Call::OptSequence => shows(alloc, cons.take_opt_sequence(small), want),
        Call::Set => shows(alloc, cons.take_set(small), want),
        Call::Tagged => shows(alloc, cons.take_constructed_if(Tag::CTX_0, small), want),
        Call::OptTagged => shows(alloc, cons.take_opt_constructed_if(Tag::CTX_0, small), want),
        Call::SkipOne => shows(alloc, cons.skip_one(), want),
        Call::SkipOptOne => shows(alloc, cons.skip_opt_one(), want),
        Call::SkipAll => shows(alloc, cons.skip_all(), want),
        _ => shows(alloc, cons.skip_oid_if(&[0x55, 4, 3]), want),
    }
}

impl Reads for Call {
    fn is_read(
        self,
        cons: &mut Constructed<'_>,
        alloc: Global,
        want: Want,
    ) -> Result<bool, DecodeError> {
        match self {
            Call::U8 | Call::U32 | Call::OptU8 | Call::OptU32 => is_number(cons, alloc, self, want),
            Call::Bool | Call::Flag | Call::AtEnd => is_number(cons, alloc, self, want),
            Call::SkipFive | Call::Null | Call::Unsigned => is_number(cons, alloc, self, want),
            Call::Capture | Call::CaptureNine | Call::Marked => is_number(cons, alloc, self, want),
            Call::Sequence | Call::OptSequence | Call::Set => is_opened(cons, alloc, self, want),
            Call::Tagged | Call::OptTagged | Call::Name => is_opened(cons, alloc, self, want),
            Call::SkipOne | Call::SkipOptOne | Call::SkipAll => is_opened(cons, alloc, self, want),
            _ => is_string(cons, alloc, self, want),
        }
    }
}

/// Whole values that are read, and alike in both modes.
pub static READ: [Row<Call>; 54] = [
    (Call::U8, &[2, 1, 0], Want::Number(0)),
    (Call::U8, &[2, 1, 0x7F], Want::Number(127)),
    (Call::U8, &[2, 2, 0, 0x80], Want::Number(128)),
    (Call::U8, &[2, 2, 0, 0xFF], Want::Number(255)),
    (Call::U32, &[2, 1, 0], Want::Number(0)),
    (Call::U32, &[2, 1, 5], Want::Number(5)),
    (Call::U32, &[2, 2, 1, 0], Want::Number(256)),
    (Call::U32, &[2, 2, 0, 0x80], Want::Number(128)),
    (
        Call::U32,
        &[2, 4, 0x7F, 0xFF, 0xFF, 0xFF],
        Want::Number(0x7FFF_FFFF),
    ),
    (
        Call::U32,
        &[2, 5, 0, 0xFF, 0xFF, 0xFF, 0xFF],
        Want::Number(0xFFFF_FFFF),
    ),
    (Call::OptU8, &[2, 1, 5], Want::Number(5)),
    (
        Call::OptU32,
        &[2, 5, 0, 0xFF, 0xFF, 0xFF, 0xFF],
        Want::Number(0xFFFF_FFFF),
    ),
    (Call::SkipFive, &[2, 1, 5], Want::Done),
    (Call::Bool, &[1, 1, 0xFF], Want::Number(1)),
    (Call::Bool, &[1, 1, 0], Want::Number(0)),
    (Call::Null, &[5, 0], Want::Done),
    (Call::Oid, &[6, 1, 0], Want::Read(&[0])),
    (Call::Oid, &[6, 3, 0x55, 4, 3], Want::Read(&[0x55, 4, 3])),
    (Call::Oid, &[6, 2, 0x88, 0x37], Want::Read(&[0x88, 0x37])),
    (Call::Bits, &[3, 1, 0], Want::Read(&[0])),
    (Call::Bits, &[3, 2, 3, 0xA8], Want::Read(&[3, 0xA8])),
    (
        Call::Bits,
        &[3, 3, 4, 0xAB, 0xC0],
        Want::Read(&[4, 0xAB, 0xC0]),
    ),
    (Call::Bits, &[3, 2, 7, 0x80], Want::Read(&[7, 0x80])),
    (Call::Ia5, &[0x16, 0], Want::Read(&[])),
    (Call::Ia5, &[0x16, 2, 0x61, 0x62], Want::Read(b"ab")),
    (Call::Ia5, &[0x16, 2, 0, 0x7F], Want::Read(&[0, 0x7F])),
    (Call::OptIa5, &[0x16, 1, 0x61], Want::Read(b"a")),
    (Call::Octets, &[4, 0], Want::Read(&[])),
    (Call::Octets, &[4, 2, 0xCD, 0xEF], Want::Read(&[0xCD, 0xEF])),
    (Call::Key, &[0x80, 0], Want::Read(&[])),
    (Call::Key, &[0x80, 1, 0x99], Want::Read(&[0x99])),
    (Call::Sequence, &[0x30, 3, 2, 1, 9], Want::Number(9)),
    (Call::OptSequence, &[0x30, 3, 2, 1, 9], Want::Number(9)),
    (Call::Set, &[0x31, 3, 2, 1, 7], Want::Number(7)),
    (Call::Tagged, &[0xA0, 3, 2, 1, 9], Want::Number(9)),
    (Call::OptTagged, &[0xA0, 3, 2, 1, 9], Want::Number(9)),
    (Call::SkipOne, &[0x20, 0], Want::Done),
    (Call::SkipOne, &[0x30, 5, 2, 1, 8, 0x30, 0], Want::Done),
    (Call::SkipOne, &[0x9E, 1, 0], Want::Done),
    (Call::Capture, &[5, 0], Want::Read(&[5, 0])),
    (
        Call::Capture,
        &[0x30, 5, 2, 1, 8, 0x30, 0],
        Want::Read(&[0x30, 5, 2, 1, 8, 0x30, 0]),
    ),
    (
        Call::Capture,
        &[0x24, 3, 4, 1, 0x41],
        Want::Read(&[0x24, 3, 4, 1, 0x41]),
    ),
    (
        Call::Capture,
        &[0x16, 1, 0x80],
        Want::Read(&[0x16, 1, 0x80]),
    ),
    (Call::SkipAll, &[0x30, 0], Want::Done),
    (
        Call::Unsigned,
        &[2, 1, 5],
        Want::Read(&[0, 0, 0, 0, 0, 0, 0, 0, 0, 0, 0, 0, 0, 0, 0, 0, 0, 0, 0, 5]),
    ),
    (
        Call::Unsigned,
        &[
            2, 21, 0, 0x80, 0, 0, 0, 0, 0, 0, 0, 0, 0, 0, 0, 0, 0, 0, 0, 0, 0, 0, 1,
        ],
        Want::Read(&[
            0x80, 0, 0, 0, 0, 0, 0, 0, 0, 0, 0, 0, 0, 0, 0, 0, 0, 0, 0, 1,
        ]),
    ),
    (Call::Flag, &[1, 1, 0xFF], Want::Number(1)),
    (Call::Flag, &[1, 1, 0], Want::Number(0)),
    (Call::Name, &[6, 3, 0x55, 4, 3], Want::Done),
    (
        Call::WholeBits,
        &[3, 3, 0, 0xAB, 0xC0],
        Want::Read(&[0xAB, 0xC0]),
    ),
    (Call::Primitive, &[0x80, 1, 0x99], Want::Read(&[0x99])),
    (
        Call::TwoOctets,
        &[4, 2, 0xCD, 0xEF],
        Want::Read(&[0xCD, 0xEF]),
    ),
    (Call::SkipOptOne, &[0x30, 2, 5, 0], Want::Done),
    (Call::CaptureNine, &[2, 1, 9], Want::Read(&[2, 1, 9])),
];

/// Whole values that are read in BER, and that DER refuses (sections 8.1.3, 8.7, 10.1 and 10.2).
pub static RELAXED: [Row<Call>; 22] = [
    // TRUE as another octet than FF
    (Call::Bool, &[1, 1, 2], Want::Number(1)),
    // a length that is longer than it need be
    (Call::U32, &[2, 0x81, 1, 5], Want::Number(5)),
    (Call::Octets, &[4, 0x81, 1, 0x41], Want::Read(b"A")),
    (Call::Octets, &[4, 0x82, 0, 1, 0x41], Want::Read(b"A")),
    (Call::Octets, &[4, 0x83, 0, 0, 1, 0x41], Want::Read(b"A")),
    (Call::Octets, &[4, 0x84, 0, 0, 0, 1, 0x41], Want::Read(b"A")),
    (Call::Key, &[0x80, 0x81, 1, 0x99], Want::Read(&[0x99])),
    (Call::Bits, &[3, 0x81, 2, 3, 0xA8], Want::Read(&[3, 0xA8])),
    // an indefinite length
    (
        Call::Sequence,
        &[0x30, 0x80, 2, 1, 5, 0, 0],
        Want::Number(5),
    ),
    (Call::Set, &[0x31, 0x80, 2, 1, 5, 0, 0], Want::Number(5)),
    (
        Call::OptTagged,
        &[0xA0, 0x80, 2, 1, 5, 0, 0],
        Want::Number(5),
    ),
    (Call::SkipOne, &[0x30, 0x80, 0, 0], Want::Done),
    (
        Call::SkipOne,
        &[0x30, 0x80, 0x31, 0x80, 5, 0, 0, 0, 0, 0],
        Want::Done,
    ),
    (Call::SkipOne, &[0x30, 4, 0x31, 0x80, 0, 0], Want::Done),
    (
        Call::Capture,
        &[0x30, 0x80, 5, 0, 0, 0],
        Want::Read(&[0x30, 0x80, 5, 0, 0, 0]),
    ),
    // a string in pieces
    (Call::Octets, &[0x24, 0], Want::Read(&[])),
    (Call::Octets, &[0x24, 0x80, 0, 0], Want::Read(&[])),
    (
        Call::Octets,
        &[0x24, 7, 4, 2, 0x61, 0x62, 4, 1, 0x63],
        Want::Read(b"abc"),
    ),
    (
        Call::Octets,
        &[0x24, 0x80, 4, 2, 0x61, 0x62, 4, 1, 0x63, 0, 0],
        Want::Read(b"abc"),
    ),
    (
        Call::Octets,
        &[0x24, 7, 0x24, 3, 4, 1, 0x61, 4, 0],
        Want::Read(b"a"),
    ),
    (
        Call::Octets,
        &[0x24, 7, 0x24, 0x80, 4, 1, 0x61, 0, 0],
        Want::Read(b"a"),
    ),
    (
        Call::Octets,
        &[0x24, 0x80, 0x24, 3, 4, 1, 0x61, 0, 0],
        Want::Read(b"a"),
    ),
];

/// What is refused in both modes.
pub static WRONG: [Row<Call>; 42] = [
    // a number that is longer than it need be
    (Call::U8, &[2, 2, 0, 0x7F], MALFORMED),
    // a number without octets, below 0, longer than it need be, and too large
    (Call::U8, &[2, 0], MALFORMED),
    (Call::U8, &[2, 1, 0x80], MALFORMED),
    (Call::U8, &[2, 2, 0, 0x7F], MALFORMED),
    (Call::U8, &[2, 2, 1, 0], MALFORMED),
    (Call::OptU8, &[2, 2, 1, 0], MALFORMED),
    (Call::U32, &[2, 0], MALFORMED),
    (Call::U32, &[2, 1, 0x80], MALFORMED),
    (Call::U32, &[2, 2, 0, 5], MALFORMED),
    (Call::U32, &[2, 5, 1, 0, 0, 0, 0], MALFORMED),
    (Call::OptU32, &[2, 5, 1, 0, 0, 0, 0], MALFORMED),
    (Call::SkipFive, &[2, 1, 6], MALFORMED),
    (Call::Bool, &[1, 0], MALFORMED),
    (Call::Bool, &[1, 2, 0, 0], MALFORMED),
    (Call::Null, &[5, 1, 0], MALFORMED),
    // an arc that does not end
    (Call::Oid, &[6, 0], MALFORMED),
    (Call::Oid, &[6, 2, 0x2A, 0x80], MALFORMED),
    // unused bits of no octet, and eight of them
    (Call::Bits, &[3, 0], MALFORMED),
    (Call::Bits, &[3, 1, 1], MALFORMED),
    (Call::Bits, &[3, 2, 8, 0xA8], MALFORMED),
    (Call::Ia5, &[0x16, 1, 0x80], MALFORMED),
    (Call::OptIa5, &[0x16, 1, 0x80], MALFORMED),
    // pieces that are no OCTET STRING, and an indefinite length of a primitive value
    (Call::Octets, &[0x24, 3, 2, 1, 5], MALFORMED),
    (Call::Octets, &[0x24, 0x80, 2, 1, 5, 0, 0], MALFORMED),
    (Call::Octets, &[4, 0x80, 0, 0], MALFORMED),
    (Call::SkipOne, &[2, 0x80, 0, 0], MALFORMED),
    // a number of five length octets (0x85), and a reserved one
    (Call::Octets, &[4, 0x85, 0, 0, 0, 0, 1, 0x41], MALFORMED),
    (Call::Octets, &[4, 0xFF, 0x41], MALFORMED),
    // an identifier of more than one octet, and none
    (Call::SkipOne, &[0x1F, 1, 0], MALFORMED),
    (Call::SkipOne, &[0, 0], MALFORMED),
    (Call::SkipOne, &[0x30, 2, 0, 0], MALFORMED),
    // a part of the contents is left
    (Call::Sequence, &[0x30, 6, 2, 1, 5, 2, 1, 6], MALFORMED),
    (Call::OptSequence, &[0x30, 3, 2, 2, 9], MALFORMED),
    (Call::OptTagged, &[0xA0, 2, 2, 0], MALFORMED),
    (Call::Unsigned, &[2, 1, 0x80], MALFORMED),
    (
        Call::Unsigned,
        &[
            2, 21, 1, 0, 0, 0, 0, 0, 0, 0, 0, 0, 0, 0, 0, 0, 0, 0, 0, 0, 0, 0, 0,
        ],
        MALFORMED,
    ),
    (Call::Flag, &[1, 0], MALFORMED),
    (Call::Name, &[6, 3, 0x55, 4, 4], MALFORMED),
    (Call::WholeBits, &[3, 2, 3, 0xA8], MALFORMED),
    (Call::TwoOctets, &[4, 1, 0xCD], MALFORMED),
    (Call::TwoOctets, &[4, 3, 0xCD, 0xEF, 1], MALFORMED),
    (Call::CaptureNine, &[2, 2, 1, 0], MALFORMED),
];

/// Other answers, in both modes: another value, none, octets after the value, and too few.
static OTHERS: [Row<Call>; 39] = [
    (Call::OptU8, &[4, 0], Want::Absent),
    (Call::OptU8, &[], Want::Absent),
    (Call::OptU32, &[4, 0], Want::Absent),
    (Call::Bool, &[5, 0], Want::Absent),
    (Call::Bool, &[], Want::Absent),
    (Call::Null, &[4, 0], Want::Absent),
    (Call::OptIa5, &[4, 0], Want::Absent),
    (Call::Key, &[0x81, 0], Want::Absent),
    (Call::OptSequence, &[0x31, 3, 2, 1, 9], Want::Absent),
    (Call::OptTagged, &[0xA1, 3, 2, 1, 9], Want::Absent),
    (Call::OptTagged, &[0x80, 0], Want::Absent),
    (Call::OptTagged, &[], Want::Absent),
    (Call::SkipAll, &[], Want::Done),
    (Call::SkipAll, &[5, 0, 5, 0], Want::Done),
    (Call::SkipAll, &[5, 0, 5], MALFORMED),
    (Call::Octets, &[4, 1, 0x61, 0], Want::Read(b"a")),
    (Call::Sequence, &[0x30, 3, 2, 1, 5, 0x80], Want::Number(5)),
    (Call::Sequence, &[0x30, 0x80, 2, 1, 5], MALFORMED),
    (Call::Capture, &[5, 0, 5], Want::Read(&[5, 0])),
    (Call::Octets, &[4, 0x84, 0xFF, 0xFF, 0xFF, 0xFF], MALFORMED),
    (Call::Key, &[0x80, 1], MALFORMED),
    (Call::Set, &[0x30, 3, 2, 1, 9], MALFORMED),
    (Call::Flag, &[5, 0], Want::Number(0)),
    (Call::Flag, &[], Want::Number(0)),
    (Call::SkipOptOne, &[], Want::Absent),
    (Call::AtEnd, &[], Want::Number(1)),
    (Call::AtEnd, &[5, 0], Want::Number(0)),
    (Call::Primitive, &[0x81, 0], MALFORMED),
    // lists of INTEGERs, which another value ends
    (Call::Items, &[2, 1, 5, 2, 1, 6], Want::Read(&[5, 6])),
    (
        Call::Items,
        &[2, 1, 0, 2, 1, 0x7F, 2, 2, 0, 0x80, 2, 2, 0, 0xFF],
        Want::Read(&[0, 127, 128, 255]),
    ),
    (Call::Items, &[], Want::Read(&[])),
    (Call::Items, &[2, 1, 5, 5, 0], Want::Read(&[5])),
    (Call::Items, &[2, 1, 5, 2, 0], MALFORMED),
    (Call::Items, &[2, 1, 0x80], MALFORMED),
    (Call::Items, &[2, 2, 0, 0x7F], MALFORMED),
    (Call::Items, &[2, 2, 1, 0], MALFORMED),
    (Call::Name, &[6, 0], MALFORMED),
    // contents of a constructed value that are no values
    (Call::Contents, &[0xA0, 1, 0xFF], Want::Read(&[0xFF])),
    // the first error of a reader is its answer, though it was swallowed
    (Call::Marked, &[], Want::Refused("first")),
];

/// Whether one value is all that a reader is given.
fn is_all(octets: &'static [u8]) -> bool {
    Constructed::decode_all(Bytes::from_static(octets), Mode::Der, skip).is_ok()
}

#[test]
fn rows(rt: HostRuntime) -> Result<(), AllocError> {
    let alloc = rt.alloc();
    let all = All::new()
        .and(are_alike(alloc, &READ))
        .and(are_alike(alloc, &WRONG))
        .and(are_alike(alloc, &OTHERS))
        .and(are_relaxed(alloc, &RELAXED))
        .and(Ok(is_all(&[5, 0]) && !is_all(&[5, 0, 5])));
    assert!(rt; all.end()?);
    Ok(())
}
