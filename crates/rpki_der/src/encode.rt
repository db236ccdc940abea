//! Writing values in DER.

ghost use Rattle.std.specs.Prelude.{◌≡◌, ℕ, ◌+◌, ◌<◌, ◌^◌, List, length, OnOk, OnErr};
ghost use Rattle.std.specs.Io.KnownBytes.{Appends};
ghost use Rattle.rpki_der.specs.Write.Sink.{AppendsFront};

use crate::count::Count;
use crate::stream::{Sink, SinkFailed};
use std::alloc::Global;
use std::error::Error;
use std::fmt;

mod bits;
mod captured;
mod leaf;
mod list;
mod number;
mod raw;
mod tuple;
mod value;

pub use bits::{Bits, bit_string};
pub use captured::CapturedEncoder;
pub use leaf::{boolean, ia5, null, octet_string, oid, primitive};
pub use list::{Elements, each};
pub use number::{Digits, Unsigned, integer, integer_of, integer_u8};
pub use raw::Raw;
pub(crate) use value::Header;
pub use value::{Value, sequence, set, tagged};

/// Why a value was not written.
#[derive(Debug, Drop)]
pub enum EncodeError {
    /// A part of it was captured in BER.
    NotDer,
    /// Some contents has 2^32 octets or more, or the whole can't be counted in 64 bits.
    TooLong,
    /// A call of the sink has failed.
    Io,
    /// No memory was to be had.
    Memory,
}

impl fmt::Display for EncodeError {
    ghost use Rattle.std.specs.Prelude.{Some};
    ghost use Rattle.rpki_der.specs.Text.Error.{encode_error_text};

    ghost output = { λ error. Some (encode_error_text error) };

    fn fmt<W: fmt::Write>(&self, f: &mut fmt::Formatter<W>) -> fmt::Result {
        f.write_str(match self {
            EncodeError::NotDer => "not in DER",
            EncodeError::TooLong => "too long",
            EncodeError::Io => "write failed",
            EncodeError::Memory => "out of memory",
        })
    }
}

impl Error for EncodeError {}

/// What has an encoding in DER.
pub trait Encode {
    ghost use Rattle.rpki_der.specs.Write.Encode.{IsLenOf, IsWritten, IsBytesOf};

    // The octets that it is written as.
    ghost octets: { Self → List ℕ };

    // Nothing in it was read in BER mode.
    ghost is_der: { Self → Type 0 } = { λ _. Unit {0} };

    // Each contents in it has fewer than 2^32 octets.
    ghost is_short: { Self → Type 0 };

    /// How many octets it is written as, or `NotDer` or `TooLong`, where it can't be written.
    fn encoded_len(&self) -> Result<u64, EncodeError>
        ensures { IsLenOf (is_der self.now) (is_short self.now) (octets self.now) result };

    /// Writes the octets, of which there are `len`, as `encoded_len` has found. Refuses by
    /// `SinkFailed` where a call of the sink fails.
    fn put<W: Sink>(&self, len: u64, out: &mut W) -> Result<(), SinkFailed>
        requires der { is_der self.now }
        requires short { is_short self.now }
        requires len { len ≡ length (octets self.now) }
        ensures ok { OnOk result (Appends (W.taken out.old) (W.taken out.new) (octets self.now)) }
        ensures begun { OnErr result
            (AppendsFront (W.taken out.old) (W.taken out.new) (octets self.now)) }
        ensures same { OnOk result (W.failures out.new ≡ W.failures out.old) }
        ensures failed { OnErr result (W.failures out.new ≡ W.failures out.old + 1) };

    // What has few octets has no long contents.
    ghost small: { (x : Self) → length (octets x) < 2 ^ 32 → is_short x };

    /// Writes the octets, or finds out before the first one that it can't be written: `NotDer` or
    /// `TooLong`. Answers `Io` where a call of the sink fails.
    final fn write_to<W: Sink>(&self, out: &mut W) -> Result<(), EncodeError>
    where
        Self: Sized,
        ensures { IsWritten (is_der self.now) (is_short self.now) (octets self.now)
            (W.taken out.old, W.failures out.old) (W.taken out.new, W.failures out.new) result }
    {
        match self.encoded_len() {
            Err(fault) => Err(fault),
            Ok(len) => match self.put(len, out) {
                Ok(()) => Ok(()),
                Err(_) => Err(EncodeError::Io),
            },
        }
    }

    /// The octets, in a vector of their own, or `NotDer`, `TooLong` or `Memory`.
    final fn to_bytes(&self, alloc: Global) -> Result<Vec<u8>, EncodeError>
    where
        Self: Sized,
        ensures { IsBytesOf (is_der self.now) (is_short self.now) (octets self.now) result }
    {
        match self.encoded_len() {
            Err(e) => Err(e),
            Ok(len) => match Vec::with_capacity(alloc, len as usize) {
                Err(_) => Err(EncodeError::Memory),
                Ok(bytes) => {
                    let mut out = Octets {
                        bytes,
                        failures: Count::zero(),
                    };
                    match self.put(len, &mut out) {
                        Ok(()) => Ok(out.bytes),
                        Err(_) => Err(EncodeError::Memory),
                    }
                }
            },
        }
    }
}

// How many octets a value has that can be written.
#[inline(always)]
fn len_of<T: Encode>(value: &T) -> u64
    requires der { T.is_der value.now }
    requires short { T.is_short value.now }
    requires len { length (T.octets value.now) < 2 ^ 64 }
    ensures { result ≡ length (T.octets value.now) }
{
    match value.encoded_len() {
        Ok(len) => len,
        Err(_) => unreachable!(),
    }
}

// A sink that keeps what it takes.
#[derive(Drop)]
struct Octets {
    bytes: Vec<u8>,
    failures: Count,
}

impl Sink for Octets {
    ghost use Rattle.std.specs.Prelude.{Some};

    ghost taken = { λ s. Some s.bytes.items };

    ghost failures = { λ s. s.failures.number };

    #[inline(always)]
    fn take(&mut self, octets: &[u8]) -> Result<usize, SinkFailed> {
        match self.bytes.extend_from_slice(octets) {
            Ok(()) => Ok(octets.len()),
            Err(_) => {
                let failures = self.failures.next();
                self.failures = failures;
                Err(SinkFailed)
            }
        }
    }
}
