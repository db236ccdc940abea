//! URIs of trust anchors, and their order.

use crate::contents::{Row, are_so};
use bytes::Bytes;
use rpki_basics::uri;
use rpki_der::Counted;
use rpki_tal::{ReadError, Tal, TalUri};
use std::alloc::{AllocError, Global};

/// Texts, and what they are: the kind of URI, or why they are none.
struct Made(&'static str, &'static str);

static ROWS: [Made; 10] = [
    Made("rsync://a/b", "rsync"),
    Made("RSYNC://a/b/c", "rsync"),
    Made("https://a", "https"),
    Made("HTTPS://a", "https"),
    Made("rsync://a", "bad URI scheme"),
    Made("rsync://a/m/../x", "bad URI scheme"),
    Made("ftp://a/b", "bad URI scheme"),
    Made("https:///x", "bad URI"),
    Made("https:/a", "bad URI"),
    Made("https://a b", "invalid characters"),
];

/// Whether a URI was made, or refused, as wanted. Want of memory is handed on.
fn is_made(
    alloc: Global,
    made: Result<TalUri, uri::Error>,
    text: &str,
    want: &str,
) -> Result<bool, AllocError> {
    match made {
        Ok(uri) => {
            let kind = if uri.is_https() { "https" } else { "rsync" };
            let is_one = uri.is_https() != uri.is_rsync();
            let shown = format!(in alloc; "{uri}")?;
            Ok(is_one && kind == want && uri.as_str() == text && shown.as_str() == text)
        }
        Err(uri::Error::Memory) => Err(AllocError),
        Err(e) => Ok(format!(in alloc; "{e}")?.as_str() == want),
    }
}

// (of a slice, of octets, and of a text in both ways)
impl Row for Made {
    fn is_so(&self, alloc: Global) -> Result<bool, AllocError> {
        let Made(text, want) = self;
        let octets = Bytes::copy_from_slice(alloc, text.as_bytes())?;
        let string = String::from_str(alloc, text)?;
        let tried = String::from_str(alloc, text)?;
        Ok(
            is_made(
                alloc,
                TalUri::from_slice(alloc, text.as_bytes()),
                text,
                want,
            )? && is_made(alloc, TalUri::from_bytes(octets), text, want)?
                && is_made(alloc, TalUri::from_string(string), text, want)?
                && is_made(alloc, TalUri::try_from(tried), text, want)?,
        )
    }
}

/// The URIs of a locator, and their order where https is preferred.
static LISTED: [&str; 7] = [
    "rsync://a.example.com/1/1",
    "https://d.example.com/1/1",
    "rsync://k.example.com/1/1",
    "https://2.example.com/1/1",
    "https://i.example.com/1/1",
    "rsync://g.example.com/1/1",
    "https://r.example.com/1/1",
];

static PREFERRED: [&str; 7] = [
    "https://d.example.com/1/1",
    "https://2.example.com/1/1",
    "https://i.example.com/1/1",
    "https://r.example.com/1/1",
    "rsync://a.example.com/1/1",
    "rsync://k.example.com/1/1",
    "rsync://g.example.com/1/1",
];

/// Whether these are the URIs of a locator, in this order.
fn are_uris(tal: &Tal, want: &[&str]) -> bool {
    tal.uris().map(|uri| uri.as_str()).eq(want.iter().copied())
}

/// The text of a locator with these URIs.
fn text_of(alloc: Global, uris: &[&str]) -> Result<String, AllocError> {
    let mut text = String::new(alloc);
    for uri in uris {
        text.push_str(uri)?;
        text.push_str("\n")?;
    }
    text.push_str("\nMBUwDQYJKoZIhvcNAQEBBQADBABhYmM=\n")?;
    Ok(text)
}

/// Whether the https URIs are put first, once and twice, and a copy stays as it was.
fn are_ordered(tal: &mut Tal) -> Result<bool, AllocError> {
    let copied: Result<Tal, AllocError> = tal.clone();
    let copy = copied?;
    let is_listed = are_uris(&copy, &LISTED);
    let first = tal.prefer_https();
    let is_first = are_uris(tal, &PREFERRED);
    let again = tal.prefer_https();
    let is_same = are_uris(&copy, &LISTED);
    drop(copy);
    first?;
    again?;
    Ok(is_listed && is_first && is_same && are_uris(tal, &PREFERRED))
}

/// Whether those of the locator are.
fn is_ordered(alloc: Global) -> Result<bool, AllocError> {
    let text = text_of(alloc, &LISTED)?;
    let name = String::new(alloc);
    match Tal::read_named(alloc, name, &mut Counted::new(text.as_bytes())) {
        Ok(mut tal) => {
            let are = are_ordered(&mut tal);
            drop(tal);
            are
        }
        Err(ReadError::Memory) => Err(AllocError),
        Err(_) => Ok(false),
    }
}

#[test]
fn uris(rt: HostRuntime) -> Result<(), AllocError> {
    assert!(rt; are_so(rt.alloc(), &ROWS)? && is_ordered(rt.alloc())?);
    Ok(())
}
