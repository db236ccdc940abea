//! Rows of tables, and contents that are read, built and written: what the tests of all kinds
//! share.
//!
//! A function answers whether a content is as it should be, and hands on want of memory.

use bytes::Bytes;
use rpki_basics::BuildError;
use rpki_der::{DecodeError, EncodeError, Mode};
use std::alloc::{AllocError, Global};

/// A row of a table.
pub trait Row {
    /// Whether it is as it says.
    fn is_so(&self, alloc: Global) -> Result<bool, AllocError>;
}

/// Whether all rows are as they say.
pub fn are_so<R: Row>(alloc: Global, rows: &[R]) -> Result<bool, AllocError> {
    for row in rows {
        if !row.is_so(alloc)? {
            return Ok(false);
        }
    }
    Ok(true)
}

/// A content of some kind.
pub trait Content: Sized {
    /// Reads one, in a mode in which the kind is read.
    fn read(alloc: Global, source: Bytes, mode: Mode) -> Result<Self, DecodeError>;

    /// What it is written as.
    fn write(&self, alloc: Global) -> Result<Vec<u8>, EncodeError>;
}

/// What a content is written as, or why there is none.
pub type Answer<'a> = Result<&'a [u8], &'a str>;

/// Octets, and what is written of what they say, or why they are refused.
pub type Octets = (&'static [u8], Answer<'static>);

/// What stands after a value: which octet, and how often.
static AFTER: [(u8, usize); 9] = [
    (0x00, 1),
    (0x00, 300),
    (0x00, 70_000),
    (0x05, 1),
    (0x05, 300),
    (0x30, 1),
    (0x30, 300),
    (0xFF, 1),
    (0xFF, 300),
];

/// Whether something was written as these octets.
pub fn is_written(
    written: Result<Vec<u8>, EncodeError>,
    wanted: &[u8],
) -> Result<bool, AllocError> {
    match written {
        Ok(found) => Ok(found.as_slice() == wanted),
        Err(EncodeError::Memory) => Err(AllocError),
        Err(_) => Ok(false),
    }
}

/// Whether a copy of a content is written so.
fn is_copied<T: Content + Clone + Drop>(
    alloc: Global,
    content: T,
    wanted: &[u8],
) -> Result<bool, AllocError> {
    let copied: Result<_, _> = content.clone();
    drop(content);
    let copy = copied?;
    let written = copy.write(alloc);
    drop(copy);
    is_written(written, wanted)
}

/// Whether there should be this content.
fn is_content<T: Content + Clone + Drop>(
    alloc: Global,
    content: T,
    wanted: Answer<'_>,
) -> Result<bool, AllocError> {
    match wanted {
        Ok(octets) => is_copied(alloc, content, octets),
        Err(_) => {
            drop(content);
            Ok(false)
        }
    }
}

/// Whether this is why there is no content.
fn is_why(wanted: Answer<'_>, text: &str) -> bool {
    match wanted {
        Ok(_) => false,
        Err(why) => why == text,
    }
}

/// Whether octets are read so.
pub fn is_read<T: Content + Clone + Drop>(
    alloc: Global,
    octets: &[u8],
    mode: Mode,
    wanted: Answer<'_>,
) -> Result<bool, AllocError> {
    let source = Bytes::copy_from_slice(alloc, octets)?;
    match T::read(alloc, source, mode) {
        Ok(content) => is_content(alloc, content, wanted),
        Err(DecodeError::Memory) => Err(AllocError),
        Err(error) => Ok(is_why(wanted, format!(in alloc; "{error}")?.as_str())),
    }
}

/// Whether a content was built so.
pub fn is_built<T: Content + Clone + Drop>(
    alloc: Global,
    built: Result<T, BuildError>,
    wanted: Answer<'_>,
) -> Result<bool, AllocError> {
    match built {
        Ok(content) => is_content(alloc, content, wanted),
        Err(BuildError::Memory) => Err(AllocError),
        Err(BuildError::Fault(fault)) => Ok(is_why(wanted, fault.text())),
        Err(BuildError::TooLong) => Ok(false),
    }
}

/// Whether octets are malformed wherever they are cut.
fn is_cut<T: Content + Clone + Drop>(
    alloc: Global,
    octets: &[u8],
    mode: Mode,
) -> Result<bool, AllocError> {
    for len in 0..octets.len() {
        if !is_read::<T>(alloc, &octets[..len], mode, Err("malformed"))? {
            return Ok(false);
        }
    }
    Ok(true)
}

/// Whether octets are read so with this many others after them.
fn is_before<T: Content + Clone + Drop>(
    alloc: Global,
    (octets, wanted): Octets,
    mode: Mode,
    (octet, count): (u8, usize),
) -> Result<bool, AllocError> {
    let mut all = Vec::from_slice(alloc, octets)?;
    all.resize(octets.len().saturating_add(count), octet)?;
    is_read::<T>(alloc, &all, mode, wanted)
}

/// Whether octets are read so, whatever follows them.
fn is_front<T: Content + Clone + Drop>(
    alloc: Global,
    row: Octets,
    mode: Mode,
) -> Result<bool, AllocError> {
    for after in &AFTER {
        if !is_before::<T>(alloc, row, mode, *after)? {
            return Ok(false);
        }
    }
    Ok(true)
}

/// Whether a row is read so, and wherever it is cut and whatever follows it.
fn is_row<T: Content + Clone + Drop>(
    alloc: Global,
    row: Octets,
    mode: Mode,
) -> Result<bool, AllocError> {
    let (octets, wanted) = row;
    Ok(
        is_read::<T>(alloc, octets, mode, wanted)?
            && is_cut::<T>(alloc, octets, mode)?
            && is_front::<T>(alloc, row, mode)?,
    )
}

/// Whether rows in DER are read so in both modes.
pub fn are_rows<T: Content + Clone + Drop>(
    alloc: Global,
    rows: &[Octets],
) -> Result<bool, AllocError> {
    for row in rows {
        if !(is_row::<T>(alloc, *row, Mode::Der)? && is_row::<T>(alloc, *row, Mode::Ber)?) {
            return Ok(false);
        }
    }
    Ok(true)
}

/// Whether rows in BER are read so, and are malformed in DER.
pub fn are_relaxed<T: Content + Clone + Drop>(
    alloc: Global,
    rows: &[Octets],
) -> Result<bool, AllocError> {
    for row in rows {
        let (octets, _) = *row;
        let is_refused = is_read::<T>(alloc, octets, Mode::Der, Err("malformed"))?;
        if !(is_refused && is_row::<T>(alloc, *row, Mode::Ber)?) {
            return Ok(false);
        }
    }
    Ok(true)
}
