//! A text of a locator that is cut, read from sources of each sort, and what may stand after it.

use crate::contents::{Row, are_so};
use rpki_der::drip::DripSource;
use rpki_der::{Counted, Source};
use rpki_tal::{ReadError, Tal};
use std::alloc::{AllocError, Global};

/// A text with one URI and the key whose bits are `abc`.
pub const TEXT: &[u8] = b"# c\nrsync://a.example.com/1/1\n\nMBUwDQYJKoZIhvcNAQEBBQADBABhYmM=\n";

/// What it says: the URI, and the identifier of the key (FIPS 180-4).
pub const SAID: &str = "rsync://a.example.com/1/1 A9993E364706816ABA3E25717850C26C9CD0D89D";

/// What a locator says: its URIs with commas between them, a space, and the identifier of its key.
fn line(alloc: Global, tal: &Tal) -> Result<String, AllocError> {
    let mut line = String::new(alloc);
    for uri in tal.uris() {
        if !line.is_empty() {
            line.push_str(",")?;
        }
        line.push_str(uri.as_str())?;
    }
    let key = tal.key_info().key_identifier();
    format!(in alloc; "{line} {key}")
}

/// Whether this is what a copy of a locator says, whose name is `name`.
fn is_line(alloc: Global, tal: &Tal, want: &str) -> Result<bool, AllocError> {
    let copied: Result<Tal, AllocError> = tal.clone();
    let copy = copied?;
    let is_named = copy.info().as_ref().name() == "name";
    let line = line(alloc, &copy);
    drop(copy);
    Ok(is_named && line?.as_str() == want)
}

/// Whether this is what all the text of a source says, under the name `name`, or why it is refused.
pub fn is_said<S: Source + Drop>(alloc: Global, source: S, want: &str) -> Result<bool, AllocError> {
    let mut source = source;
    let name = String::from_str(alloc, "name")?;
    match Tal::read_named(alloc, name, &mut source) {
        Ok(tal) => {
            let is_said = is_line(alloc, &tal, want);
            drop(tal);
            is_said
        }
        Err(ReadError::Memory) => Err(AllocError),
        Err(e) => Ok(format!(in alloc; "{e}")?.as_str() == want),
    }
}

/// What is said of the first octets of the text.
fn said_of(len: usize) -> &'static str {
    match len {
        0..=30 => "unexpected end of file",
        31 | 35 | 39 | 43 | 47 | 51 | 55 | 59 => "bad key info: malformed",
        63 | 64 => SAID,
        _ => "bad key info: bad base64",
    }
}

/// Whether a source of these octets, one a call, which fails at any of its calls, also at the one
/// that finds the end, says that it failed.
fn is_failed(alloc: Global, cut: &[u8]) -> Result<bool, AllocError> {
    for call in 0..=cut.len() as u64 {
        let source = DripSource::failing_at(cut, call.saturating_add(1));
        if !is_said(alloc, source, "read failed")? {
            return Ok(false);
        }
    }
    Ok(true)
}

/// Whether the first octets of the text say what they have to, by every source.
fn is_cut(alloc: Global, cut: &[u8]) -> Result<bool, AllocError> {
    let want = said_of(cut.len());
    let later = (cut.len() as u64).saturating_add(2);
    Ok(
        is_said(alloc, Counted::new(cut), want)?
            && is_said(alloc, DripSource::new(cut), want)?
            && is_said(alloc, DripSource::failing_at(cut, later), want)?
            && is_failed(alloc, cut)?,
    )
}

fn are_cut(alloc: Global) -> Result<bool, AllocError> {
    for len in 0..65usize {
        if !is_cut(alloc, TEXT.get(..len).unwrap_or(b"no such text"))? {
            return Ok(false);
        }
    }
    Ok(true)
}

/// How many octets stand after the text.
static COUNTS: [usize; 3] = [1, 300, 70_000];

/// What stands after it, and what is said then: only blanks may.
struct After(u8, &'static str);

static FOLLOWED: [After; 8] = [
    After(0x00, "bad key info: bad base64"),
    After(0x30, "bad key info: bad base64"),
    After(b'#', "bad key info: bad base64"),
    After(b'=', "bad key info: bad base64"),
    After(0xFF, "bad key info: bad base64"),
    After(b'\n', SAID),
    After(b' ', SAID),
    After(b'\t', SAID),
];

impl Row for After {
    fn is_so(&self, alloc: Global) -> Result<bool, AllocError> {
        let After(octet, want) = self;
        for count in &COUNTS {
            let mut text = Vec::from_slice(alloc, TEXT)?;
            text.resize(count.saturating_add(TEXT.len()), *octet)?;
            if !is_said(alloc, Counted::new(text.as_slice()), want)? {
                return Ok(false);
            }
        }
        Ok(true)
    }
}

#[test]
fn texts(rt: HostRuntime) -> Result<(), AllocError> {
    assert!(rt; are_cut(rt.alloc())? && are_so(rt.alloc(), &FOLLOWED)?);
    Ok(())
}
