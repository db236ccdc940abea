//! Rows of times, serial numbers, keys, algorithms and names that are read.

use crate::reads::{All, MALFORMED, Reads, Row, Shown, Want, are_alike, are_relaxed, shows};
use rpki_basics::{DigestAlgorithm, Name, PublicKey, RpkiSignatureAlgorithm, Serial, Time};
use rpki_der::{Constructed, DecodeError};
use std::alloc::{AllocError, Global};
use std::fmt::Display;

/// What is read.
#[derive(Clone, Copy)]
pub enum Kind {
    Time,
    /// The text of a time.
    TimeText,
    Serial,
    /// The text of a serial number.
    SerialText,
    Key,
    /// The algorithm of a digest, of a signed object and of a certificate.
    Digest,
    Cms,
    Cert,
    /// The octets of a name.
    Name,
}

/// A value by its text.
#[derive(Drop)]
struct Text<T>(T);

/// The text of what was read.
fn in_text<T: Drop>(answer: Result<T, DecodeError>) -> Result<Text<T>, DecodeError> {
    match answer {
        Ok(value) => Ok(Text(value)),
        Err(error) => Err(error),
    }
}

impl<T: Display> Shown for Text<T> {
    fn is_wanted(&self, alloc: Global, want: Want) -> Result<bool, AllocError> {
        Ok(want.is_octets(self.0.to_string(alloc)?.as_bytes()))
    }
}

impl Shown for Time {
    fn is_wanted(&self, alloc: Global, want: Want) -> Result<bool, AllocError> {
        want.is_written_of(alloc, &self.encode_ref())
    }
}

impl Shown for Serial {
    fn is_wanted(&self, alloc: Global, want: Want) -> Result<bool, AllocError> {
        want.is_written_of(alloc, &self.encode_ref())
    }
}

impl Shown for PublicKey {
    fn is_wanted(&self, alloc: Global, want: Want) -> Result<bool, AllocError> {
        want.is_written_of(alloc, &self.encode_ref())
    }
}

impl Shown for Name {
    fn is_wanted(&self, _alloc: Global, want: Want) -> Result<bool, AllocError> {
        Ok(want.is_octets(self.as_slice()))
    }
}

impl Shown for DigestAlgorithm {
    fn is_wanted(&self, alloc: Global, want: Want) -> Result<bool, AllocError> {
        want.is_written_of(alloc, &self.encode_ref())
    }
}

/// It is written as that of a signed object.
impl Shown for RpkiSignatureAlgorithm {
    fn is_wanted(&self, alloc: Global, want: Want) -> Result<bool, AllocError> {
        want.is_written_of(alloc, &self.encode_cms())
    }
}

impl Reads for Kind {
    fn is_read(
        self,
        cons: &mut Constructed<'_>,
        alloc: Global,
        want: Want,
    ) -> Result<bool, DecodeError> {
        match self {
            Kind::Time => shows(alloc, Time::take_from(cons), want),
            Kind::TimeText => shows(alloc, in_text(Time::take_from(cons)), want),
            Kind::Serial => shows(alloc, Serial::take_from(cons), want),
            Kind::SerialText => shows(alloc, in_text(Serial::take_from(cons)), want),
            Kind::Key => shows(alloc, PublicKey::take_from(cons), want),
            Kind::Digest => shows(alloc, DigestAlgorithm::take_from(cons), want),
            Kind::Cms => shows(alloc, RpkiSignatureAlgorithm::take_cms_from(cons), want),
            Kind::Cert => shows(alloc, RpkiSignatureAlgorithm::take_cert_from(cons), want),
            Kind::Name => shows(alloc, Name::take_from(cons), want),
        }
    }
}

/// What is refused of a time.
const NO_SUCH_TIME: Want = Want::Refused("there is no such date or time of day");

const NOT_DER: Want = Want::Refused("time is not in the form of DER");

/// Times, and their text. UTCTime is of 1950 to 2049 (RFC 5280, section 4.1.2.5.1).
static TIMES: [Row<Kind>; 25] = [
    (
        Kind::TimeText,
        b"\x17\x0D500101000000Z",
        Want::Read(b"1950-01-01T00:00:00Z"),
    ),
    (
        Kind::TimeText,
        b"\x17\x0D491231235959Z",
        Want::Read(b"2049-12-31T23:59:59Z"),
    ),
    (
        Kind::TimeText,
        b"\x18\x0F19491231235959Z",
        Want::Read(b"1949-12-31T23:59:59Z"),
    ),
    (
        Kind::TimeText,
        b"\x18\x0F20500101000000Z",
        Want::Read(b"2050-01-01T00:00:00Z"),
    ),
    (
        Kind::TimeText,
        b"\x18\x0F00000229000000Z",
        Want::Read(b"0000-02-29T00:00:00Z"),
    ),
    (
        Kind::TimeText,
        b"\x18\x0F99991231235959Z",
        Want::Read(b"9999-12-31T23:59:59Z"),
    ),
    (Kind::TimeText, b"\x18\x0F19000229000000Z", NO_SUCH_TIME),
    (Kind::TimeText, b"\x18\x0F20230229000000Z", NO_SUCH_TIME),
    (Kind::TimeText, b"\x17\x0D240230000000Z", NO_SUCH_TIME),
    (Kind::TimeText, b"\x17\x0D240101000060Z", NO_SUCH_TIME),
    (Kind::TimeText, b"\x17\x0D240101240000Z", NO_SUCH_TIME),
    (Kind::TimeText, b"\x17\x0B2401010000Z", NOT_DER),
    (Kind::TimeText, b"\x17\x0D240101000000z", NOT_DER),
    (Kind::TimeText, b"\x17\x0F2401010000+0000", NOT_DER),
    (Kind::TimeText, b"\x18\x0D500101000000Z", NOT_DER),
    (Kind::TimeText, b"\x18\x1120240101000000.5Z", NOT_DER),
    (Kind::TimeText, b"\x18\x00", NOT_DER),
    (Kind::TimeText, b"\x16\x0D500101000000Z", MALFORMED),
    (Kind::TimeText, b"\x17\x0D500101000000", MALFORMED),
    // what is written of them: a UTCTime of its years, and else a GeneralizedTime
    (
        Kind::Time,
        b"\x17\x0D500101000000Z",
        Want::Read(b"\x17\x0D500101000000Z"),
    ),
    (
        Kind::Time,
        b"\x18\x0F19500101000000Z",
        Want::Read(b"\x17\x0D500101000000Z"),
    ),
    (
        Kind::Time,
        b"\x17\x0D491231235959Z",
        Want::Read(b"\x17\x0D491231235959Z"),
    ),
    (
        Kind::Time,
        b"\x18\x0F20491231235959Z",
        Want::Read(b"\x17\x0D491231235959Z"),
    ),
    (
        Kind::Time,
        b"\x18\x0F19491231235959Z",
        Want::Read(b"\x18\x0F19491231235959Z"),
    ),
    (
        Kind::Time,
        b"\x18\x0F20500101000000Z",
        Want::Read(b"\x18\x0F20500101000000Z"),
    ),
];

/// The largest serial number, and one more (RFC 5280, section 4.1.2.2).
const LARGEST: &[u8] = b"\x02\x15\x00\xFF\xFF\xFF\xFF\xFF\xFF\xFF\xFF\xFF\xFF\
    \xFF\xFF\xFF\xFF\xFF\xFF\xFF\xFF\xFF\xFF";

const LARGER: &[u8] = b"\x02\x15\x01\x00\x00\x00\x00\x00\x00\x00\x00\x00\x00\
    \x00\x00\x00\x00\x00\x00\x00\x00\x00\x00";

/// Serial numbers, and their text.
static SERIALS: [Row<Kind>; 12] = [
    (Kind::SerialText, b"\x02\x01\x00", Want::Read(b"0")),
    (Kind::SerialText, b"\x02\x01\x0C", Want::Read(b"c")),
    (Kind::SerialText, b"\x02\x02\x00\x80", Want::Read(b"80")),
    (Kind::SerialText, b"\x02\x02\x0A\xBC", Want::Read(b"abc")),
    (
        Kind::SerialText,
        LARGEST,
        Want::Read(b"ffffffffffffffffffffffffffffffffffffffff"),
    ),
    (Kind::SerialText, LARGER, MALFORMED),
    (Kind::SerialText, b"\x02\x01\x80", MALFORMED),
    (Kind::SerialText, b"\x02\x02\x00\x7F", MALFORMED),
    (Kind::SerialText, b"\x02\x00", MALFORMED),
    (Kind::Serial, b"\x02\x01\x00", Want::Read(b"\x02\x01\x00")),
    (
        Kind::Serial,
        b"\x02\x02\x00\x80",
        Want::Read(b"\x02\x02\x00\x80"),
    ),
    (Kind::Serial, LARGEST, Want::Read(LARGEST)),
];

/// The key whose bits are `abc`, as it is written, and without the NULL.
pub const KEY: &[u8] =
    b"\x30\x15\x30\x0D\x06\x09\x2A\x86\x48\x86\xF7\x0D\x01\x01\x01\x05\x00\x03\x04\x00abc";

pub const SHORT_KEY: &[u8] =
    b"\x30\x13\x30\x0B\x06\x09\x2A\x86\x48\x86\xF7\x0D\x01\x01\x01\x03\x04\x00abc";

/// The key without bits.
const NO_BITS: &[u8] =
    b"\x30\x12\x30\x0D\x06\x09\x2A\x86\x48\x86\xF7\x0D\x01\x01\x01\x05\x00\x03\x01\x00";

/// The name of the key with the bits `abc`: its header, and the digits of the key's identifier.
pub const NAME: &[u8] = b"\x30\x33\x31\x31\x30\x2F\x06\x03\x55\x04\x03\x13\x28\
    A9993E364706816ABA3E25717850C26C9CD0D89D";

const UNKNOWN: Want = Want::Refused("algorithm is none that the profile names");

/// Keys: as they are written, without a NULL, with unused bits, of another algorithm, cut, and with
/// bits of no octets. Names: one, of another tag, cut, and with contents that are no values.
static KEYS: [Row<Kind>; 10] = [
    (Kind::Key, KEY, Want::Read(KEY)),
    (Kind::Key, SHORT_KEY, Want::Read(KEY)),
    (
        Kind::Key,
        b"\x30\x15\x30\x0D\x06\x09\x2A\x86\x48\x86\xF7\x0D\x01\x01\x01\x05\x00\x03\x04\x01abc",
        MALFORMED,
    ),
    (
        Kind::Key,
        b"\x30\x15\x30\x0D\x06\x09\x2A\x86\x48\x86\xF7\x0D\x01\x01\x0B\x05\x00\x03\x04\x00abc",
        UNKNOWN,
    ),
    (
        Kind::Key,
        b"\x30\x15\x30\x0D\x06\x09\x2A\x86\x48\x86\xF7\x0D\x01\x01\x01\x05\x00\x03\x04\x00ab",
        MALFORMED,
    ),
    (Kind::Key, NO_BITS, Want::Read(NO_BITS)),
    (Kind::Name, NAME, Want::Read(NAME)),
    (Kind::Name, b"\x31\x00", MALFORMED),
    (Kind::Name, b"\x30\x01", MALFORMED),
    (Kind::Name, b"\x30\x01\x05", MALFORMED),
];

// The octets of algorithms (RFC 5754, section 2.2; RFC 8017, appendix C), without a NULL and with
// one; and those of SHA-384 and of signatures with it.
pub const SHA_256: &[u8] = b"\x30\x0B\x06\x09\x60\x86\x48\x01\x65\x03\x04\x02\x01";

const SHA_256_NULL: &[u8] = b"\x30\x0D\x06\x09\x60\x86\x48\x01\x65\x03\x04\x02\x01\x05\x00";

const RSA: &[u8] = b"\x30\x0B\x06\x09\x2A\x86\x48\x86\xF7\x0D\x01\x01\x01";

pub const RSA_NULL: &[u8] = b"\x30\x0D\x06\x09\x2A\x86\x48\x86\xF7\x0D\x01\x01\x01\x05\x00";

const RSA_SHA_256: &[u8] = b"\x30\x0B\x06\x09\x2A\x86\x48\x86\xF7\x0D\x01\x01\x0B";

pub const RSA_SHA_256_NULL: &[u8] = b"\x30\x0D\x06\x09\x2A\x86\x48\x86\xF7\x0D\x01\x01\x0B\x05\x00";

const SHA_384: &[u8] = b"\x30\x0D\x06\x09\x60\x86\x48\x01\x65\x03\x04\x02\x02\x05\x00";

const RSA_SHA_384: &[u8] = b"\x30\x0D\x06\x09\x2A\x86\x48\x86\xF7\x0D\x01\x01\x0C\x05\x00";

// A NULL with contents, another value after the NULL, and no identifier.
const LONG_NULL: &[u8] = b"\x30\x0E\x06\x09\x60\x86\x48\x01\x65\x03\x04\x02\x01\x05\x01\x00";

const TWO_NULLS: &[u8] = b"\x30\x0F\x06\x09\x60\x86\x48\x01\x65\x03\x04\x02\x01\x05\x00\x05\x00";

const NO_OID: &[u8] = b"\x30\x02\x05\x00";

static ALGORITHMS: [Row<Kind>; 27] = [
    (Kind::Digest, SHA_256, Want::Read(SHA_256)),
    (Kind::Digest, SHA_256_NULL, Want::Read(SHA_256)),
    (Kind::Digest, RSA_NULL, UNKNOWN),
    (Kind::Digest, RSA_SHA_256_NULL, UNKNOWN),
    (Kind::Digest, SHA_384, UNKNOWN),
    (Kind::Digest, RSA_SHA_384, UNKNOWN),
    (Kind::Digest, LONG_NULL, MALFORMED),
    (Kind::Digest, TWO_NULLS, MALFORMED),
    (Kind::Digest, NO_OID, MALFORMED),
    (Kind::Cms, SHA_256, UNKNOWN),
    (Kind::Cms, RSA, Want::Read(RSA_NULL)),
    (Kind::Cms, RSA_NULL, Want::Read(RSA_NULL)),
    (Kind::Cms, RSA_SHA_256, Want::Read(RSA_NULL)),
    (Kind::Cms, RSA_SHA_256_NULL, Want::Read(RSA_NULL)),
    (Kind::Cms, SHA_384, UNKNOWN),
    (Kind::Cms, RSA_SHA_384, UNKNOWN),
    (Kind::Cms, LONG_NULL, MALFORMED),
    (Kind::Cms, TWO_NULLS, MALFORMED),
    (Kind::Cms, NO_OID, MALFORMED),
    (Kind::Cert, SHA_256_NULL, UNKNOWN),
    (Kind::Cert, RSA_NULL, UNKNOWN),
    (Kind::Cert, RSA_SHA_256, Want::Read(RSA_NULL)),
    (Kind::Cert, RSA_SHA_256_NULL, Want::Read(RSA_NULL)),
    (Kind::Cert, RSA_SHA_384, UNKNOWN),
    (Kind::Cert, LONG_NULL, MALFORMED),
    (Kind::Cert, TWO_NULLS, MALFORMED),
    (Kind::Cert, NO_OID, MALFORMED),
];

/// Values of indefinite length (X.690, section 8.1.3.6).
static RELAXED: [Row<Kind>; 3] = [
    (
        Kind::Digest,
        b"\x30\x80\x06\x09\x60\x86\x48\x01\x65\x03\x04\x02\x01\x00\x00",
        Want::Read(SHA_256),
    ),
    (
        Kind::Key,
        b"\x30\x80\x30\x0D\x06\x09\x2A\x86\x48\x86\xF7\x0D\x01\x01\x01\x05\x00\x03\x04\x00abc\0\0",
        Want::Read(KEY),
    ),
    (
        Kind::Name,
        b"\x30\x80\x00\x00",
        Want::Read(b"\x30\x80\x00\x00"),
    ),
];

#[test]
fn reading(rt: HostRuntime) -> Result<(), AllocError> {
    let alloc = rt.alloc();
    let all = All::new()
        .and(are_alike(alloc, &TIMES))
        .and(are_alike(alloc, &SERIALS))
        .and(are_alike(alloc, &KEYS))
        .and(are_alike(alloc, &ALGORITHMS))
        .and(are_relaxed(alloc, &RELAXED));
    assert!(rt; all.end()?);
    Ok(())
}
