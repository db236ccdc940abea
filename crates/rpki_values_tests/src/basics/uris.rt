//! Rows of URIs, of their octets, and of those that are joined.

use bytes::Bytes;
use rpki_basics::uri::Error;
use rpki_basics::{Https, Rsync};
use std::alloc::{AllocError, Global};

const CHARACTERS: &str = "invalid characters";

const SCHEME: &str = "bad URI scheme";

const BAD: &str = "bad URI";

/// Octets, and why they are no rsync URI and no https URI, or nothing where they are one. No URI
/// has controls and a space, the ten octets that are not in its grammar, and what is no visible
/// ASCII (RFC 3986, section 2).
static ROWS: [(&[u8], &str, &str); 49] = [
    (b"rsync://a/b", "", SCHEME),
    (b"rsync://a/b/", "", SCHEME),
    (b"RSYNC://a/b/c", "", SCHEME),
    (b"rsync://a/b/c/", "", SCHEME),
    (b"rsync://a", BAD, SCHEME),
    (b"rsync://a/", BAD, SCHEME),
    (b"rsync:///b", BAD, SCHEME),
    (b"rsync://a//b", BAD, SCHEME),
    (b"rsync:/a/b", BAD, SCHEME),
    (b"rsync://a/..", BAD, SCHEME),
    (b"rsync://a/./b", BAD, SCHEME),
    (b"rsync://a/m/../x", BAD, SCHEME),
    (b"rsync://a/m/x/.", BAD, SCHEME),
    (b"rsync://a/m//x", BAD, SCHEME),
    (b"rsync://a/m/...", "", SCHEME),
    (b"https://a", SCHEME, ""),
    (b"HTTPS://a", SCHEME, ""),
    (b"https://a/", SCHEME, ""),
    (b"https://a//../x", SCHEME, ""),
    (b"https:///x", SCHEME, BAD),
    (b"https:/a", SCHEME, BAD),
    (b"ftp://a/b", SCHEME, SCHEME),
    (b"rsync//a/b", SCHEME, SCHEME),
    (b"rsync://a/b c", CHARACTERS, CHARACTERS),
    (b"ftp://a b", CHARACTERS, CHARACTERS),
    (b"rsync://a/m/\x00", CHARACTERS, CHARACTERS),
    (b"rsync://a/m/\x1F", CHARACTERS, CHARACTERS),
    (b"rsync://a/m/ ", CHARACTERS, CHARACTERS),
    (b"rsync://a/m/\"", CHARACTERS, CHARACTERS),
    (b"rsync://a/m/#", CHARACTERS, CHARACTERS),
    (b"rsync://a/m/<", CHARACTERS, CHARACTERS),
    (b"rsync://a/m/>", CHARACTERS, CHARACTERS),
    (b"rsync://a/m/\\", CHARACTERS, CHARACTERS),
    (b"rsync://a/m/^", CHARACTERS, CHARACTERS),
    (b"rsync://a/m/`", CHARACTERS, CHARACTERS),
    (b"rsync://a/m/{", CHARACTERS, CHARACTERS),
    (b"rsync://a/m/|", CHARACTERS, CHARACTERS),
    (b"rsync://a/m/}", CHARACTERS, CHARACTERS),
    (b"rsync://a/m/\x7F", CHARACTERS, CHARACTERS),
    (b"rsync://a/m/\x80", CHARACTERS, CHARACTERS),
    (b"rsync://a/m/\xFF", CHARACTERS, CHARACTERS),
    (b"rsync://a/m/!", "", SCHEME),
    (b"rsync://a/m/$", "", SCHEME),
    (b"rsync://a/m/%", "", SCHEME),
    (b"rsync://a/m/?", "", SCHEME),
    (b"rsync://a/m/[", "", SCHEME),
    (b"rsync://a/m/]", "", SCHEME),
    (b"rsync://a/m/_", "", SCHEME),
    (b"rsync://a/m/~", "", SCHEME),
];

/// A URI, a name, their joined text, and why there is none.
static JOINED: [(&[u8], &[u8], &str, &str); 9] = [
    (
        b"rsync://example.com/m/p",
        b"file.cer",
        "rsync://example.com/m/p/file.cer",
        "",
    ),
    (b"rsync://a/m/", b"x", "rsync://a/m/x", ""),
    (b"rsync://a/m", b"", "rsync://a/m/", ""),
    (b"rsync://a/m", b"x/y/", "rsync://a/m/x/y/", ""),
    (b"rsync://a/m", b"..", "", BAD),
    (b"rsync://a/m", b"x//y", "", BAD),
    (b"rsync://a/m/", b"/x", "", BAD),
    (b"rsync://a/m", b"a b", "", CHARACTERS),
    (b"rsync://a/m", b"../#", "", CHARACTERS),
];

/// Whether this is why there is no URI. Want of memory is handed on.
fn is_fault(error: &Error, want: &str) -> Result<bool, AllocError> {
    match error {
        Error::InvalidCharacters => Ok(want == CHARACTERS),
        Error::BadScheme => Ok(want == SCHEME),
        Error::BadUri => Ok(want == BAD),
        Error::Memory => Err(AllocError),
    }
}

/// Whether an rsync URI, which is copied, has this text, or is refused so.
fn is_rsync(made: Result<Rsync, Error>, text: &[u8], want: &str) -> Result<bool, AllocError> {
    match made {
        Ok(uri) => Ok(want.is_empty() && uri.clone()?.as_slice() == text),
        Err(error) => is_fault(&error, want),
    }
}

/// The same of an https URI.
fn is_https(made: Result<Https, Error>, text: &[u8], want: &str) -> Result<bool, AllocError> {
    match made {
        Ok(uri) => Ok(want.is_empty() && uri.clone()?.as_slice() == text),
        Err(error) => is_fault(&error, want),
    }
}

/// Whether a name is joined so.
fn is_joined(
    alloc: Global,
    base: &'static [u8],
    name: &[u8],
    text: &str,
    want: &str,
) -> Result<bool, AllocError> {
    match Rsync::from_bytes(Bytes::from_static(base)) {
        Ok(base) => is_rsync(base.join(alloc, name), text.as_bytes(), want),
        Err(error) => is_fault(&error, "a base"),
    }
}

/// Whether the rows are right.
fn are_right(alloc: Global) -> Result<bool, AllocError> {
    for (text, rsync, https) in &ROWS {
        let octets = Bytes::copy_from_slice(alloc, text)?;
        let copy = octets.clone()?;
        if !is_rsync(Rsync::from_bytes(octets), text, rsync)?
            || !is_https(Https::from_bytes(copy), text, https)?
        {
            return Ok(false);
        }
    }
    for (base, name, text, want) in &JOINED {
        if !is_joined(alloc, base, name, text, want)? {
            return Ok(false);
        }
    }
    Ok(true)
}

#[test]
fn uris(rt: HostRuntime) -> Result<(), AllocError> {
    assert!(rt; are_right(rt.alloc())?);
    Ok(())
}
