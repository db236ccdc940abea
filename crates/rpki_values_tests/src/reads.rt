//! What all of the tests use: values that are read by row, and values that are written.

use bytes::Bytes;
use rpki_der::drip::DripSink;
use rpki_der::{Constructed, DecodeError, Encode, EncodeError, Mode};
use std::alloc::{AllocError, Global};
use std::fmt::Display;

/// What a call answers to octets.
#[derive(Clone, Copy)]
pub enum Want {
    /// It goes past them.
    Done,
    /// It reads these octets, or a value that is written as them.
    Read(&'static [u8]),
    /// It reads this number.
    Number(u32),
    /// There is no value of its kind in front.
    Absent,
    /// It refuses them, by this text.
    Refused(&'static str),
}

/// The answer to octets that are of no form.
pub const MALFORMED: Want = Want::Refused("malformed");

impl Want {
    /// Whether it is that there is no value.
    pub fn is_absent(self) -> bool {
        matches!(self, Want::Absent)
    }

    /// Whether this number is wanted.
    pub fn is_number(self, found: u32) -> bool {
        match self {
            Want::Number(want) => found == want,
            _ => false,
        }
    }

    /// Whether these octets are wanted.
    pub fn is_octets(self, found: &[u8]) -> bool {
        match self {
            Want::Read(want) => found == want,
            _ => false,
        }
    }

    /// Whether a value that is written as these octets is wanted.
    pub fn is_written_of<T: Encode>(self, alloc: Global, value: &T) -> Result<bool, AllocError> {
        match self {
            Want::Read(octets) => is_written(alloc, value, octets),
            _ => Ok(false),
        }
    }
}

/// What is read, and may be what is wanted.
pub trait Shown {
    /// Whether it is what is wanted.
    fn is_wanted(&self, alloc: Global, want: Want) -> Result<bool, AllocError>;
}

impl Shown for u8 {
    fn is_wanted(&self, _alloc: Global, want: Want) -> Result<bool, AllocError> {
        Ok(want.is_number(u32::from(*self)))
    }
}

impl Shown for u32 {
    fn is_wanted(&self, _alloc: Global, want: Want) -> Result<bool, AllocError> {
        Ok(want.is_number(*self))
    }
}

impl Shown for bool {
    fn is_wanted(&self, _alloc: Global, want: Want) -> Result<bool, AllocError> {
        Ok(want.is_number(u32::from(*self)))
    }
}

impl Shown for () {
    fn is_wanted(&self, _alloc: Global, want: Want) -> Result<bool, AllocError> {
        Ok(matches!(want, Want::Done))
    }
}

impl Shown for Bytes {
    fn is_wanted(&self, _alloc: Global, want: Want) -> Result<bool, AllocError> {
        Ok(want.is_octets(self.as_slice()))
    }
}

impl<const N: usize> Shown for [u8; N] {
    fn is_wanted(&self, _alloc: Global, want: Want) -> Result<bool, AllocError> {
        Ok(want.is_octets(self.as_slice()))
    }
}

impl<T: Shown> Shown for Option<T> {
    fn is_wanted(&self, alloc: Global, want: Want) -> Result<bool, AllocError> {
        match self {
            Some(value) => value.is_wanted(alloc, want),
            None => Ok(want.is_absent()),
        }
    }
}

/// Whether what a reader has answered is what is wanted.
pub fn shows<T: Shown + Drop>(
    alloc: Global,
    answer: Result<T, DecodeError>,
    want: Want,
) -> Result<bool, DecodeError> {
    match answer {
        Ok(value) => {
            let is_wanted = value.is_wanted(alloc, want);
            drop(value);
            Ok(is_wanted?)
        }
        Err(error) => Err(error),
    }
}

/// Whether all that was asked is so, and whether there was memory for it.
#[derive(Clone, Copy)]
pub struct All {
    are_so: bool,
    has_memory: bool,
}

impl All {
    /// Nothing was asked yet.
    pub fn new() -> All {
        All {
            are_so: true,
            has_memory: true,
        }
    }

    /// One more answer.
    pub fn and(self, answer: Result<bool, AllocError>) -> All {
        match answer {
            Ok(is_so) => All {
                are_so: self.are_so && is_so,
                has_memory: self.has_memory,
            },
            Err(_) => All {
                are_so: self.are_so,
                has_memory: false,
            },
        }
    }

    /// Whether all is so. Want of memory is handed on.
    pub fn end(self) -> Result<bool, AllocError> {
        if self.has_memory {
            Ok(self.are_so)
        } else {
            Err(AllocError)
        }
    }
}

/// A call that reads a value.
pub trait Reads: Copy {
    /// Whether the value that is read is what is wanted.
    fn is_read(
        self,
        cons: &mut Constructed<'_>,
        alloc: Global,
        want: Want,
    ) -> Result<bool, DecodeError>;
}

/// A call, the octets that it is made on, and its answer.
pub type Row<C> = (C, &'static [u8], Want);

/// Whether a call answers so. Want of memory is handed on.
pub fn is_so<C: Reads>(
    alloc: Global,
    mode: Mode,
    call: C,
    octets: &[u8],
    want: Want,
) -> Result<bool, AllocError> {
    let source = Bytes::copy_from_slice(alloc, octets)?;
    match (
        Constructed::decode(source, mode, |cons| call.is_read(cons, alloc, want)),
        want,
    ) {
        (Ok(is_wanted), _) => Ok(is_wanted),
        (Err(DecodeError::Memory), _) => Err(AllocError),
        (Err(error), Want::Refused(text)) => Ok(error.to_string(alloc)?.as_str() == text),
        (Err(_), _) => Ok(false),
    }
}

/// Whether a call answers so in DER, and so in BER.
pub fn are_so<C: Reads>(
    alloc: Global,
    call: C,
    octets: &[u8],
    der: Want,
    ber: Want,
) -> Result<bool, AllocError> {
    All::new()
        .and(is_so(alloc, Mode::Der, call, octets, der))
        .and(is_so(alloc, Mode::Ber, call, octets, ber))
        .end()
}

/// Whether each row is answered so in both modes.
pub fn are_alike<C: Reads>(alloc: Global, rows: &[Row<C>]) -> Result<bool, AllocError> {
    for (call, octets, want) in rows {
        if !are_so(alloc, *call, octets, *want, *want)? {
            return Ok(false);
        }
    }
    Ok(true)
}

/// Whether each row is answered so in BER, and is malformed in DER.
pub fn are_relaxed<C: Reads>(alloc: Global, rows: &[Row<C>]) -> Result<bool, AllocError> {
    for (call, octets, want) in rows {
        if !are_so(alloc, *call, octets, MALFORMED, *want)? {
            return Ok(false);
        }
    }
    Ok(true)
}

/// Whether these octets are written. Want of memory is handed on.
pub fn are_octets(written: Result<Vec<u8>, EncodeError>, want: &[u8]) -> Result<bool, AllocError> {
    match written {
        Ok(octets) => Ok(octets.as_slice() == want),
        Err(EncodeError::Memory) => Err(AllocError),
        Err(_) => Ok(false),
    }
}

/// Whether a sink that takes one octet a call, and fails at the call with this number or at none,
/// has taken the octets of a value that stand before, and was not called again; and whether the
/// answer is `Io` where it has failed, and else that all is written.
fn is_taken<T: Encode>(
    alloc: Global,
    value: &T,
    octets: &[u8],
    fails_at: usize,
) -> Result<bool, AllocError> {
    let mut sink = DripSink::failing_at(alloc, octets.len(), fails_at as u64)?;
    let is_io = match value.write_to(&mut sink) {
        Ok(()) => false,
        Err(EncodeError::Io) => true,
        Err(_) => return Ok(false),
    };
    let calls = if fails_at == 0 {
        octets.len()
    } else {
        fails_at
    };
    let before = calls.saturating_sub(usize::from(is_io));
    let is_front = Some(sink.taken()) == octets.get(..before);
    Ok(is_front && is_io == (fails_at > 0) && sink.calls() == calls as u64)
}

/// Whether a value is written as these octets into a vector and into a sink, and whether a sink
/// that fails at any one of its calls has then taken the octets before.
pub fn is_written<T: Encode>(alloc: Global, value: &T, octets: &[u8]) -> Result<bool, AllocError> {
    for fails_at in 0..octets.len().saturating_add(1) {
        if !is_taken(alloc, value, octets, fails_at)? {
            return Ok(false);
        }
    }
    are_octets(value.to_bytes(alloc), octets)
}

/// Whether a value is printed so.
pub fn is_printed<T: Display>(alloc: Global, value: &T, want: &str) -> Result<bool, AllocError> {
    Ok(value.to_string(alloc)?.as_str() == want)
}

/// These octets, one after the other.
pub fn joined(alloc: Global, parts: &[&[u8]]) -> Result<Vec<u8>, AllocError> {
    let mut octets = Vec::new(alloc);
    for part in parts {
        octets.extend_from_slice(part)?;
    }
    Ok(octets)
}
