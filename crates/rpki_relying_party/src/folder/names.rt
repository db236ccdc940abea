//! Names of files below a folder. The section is that of RFC 3986.

ghost use Rattle.std.specs.Prelude.{◌≡◌, ◌↔◌, IfOk, IsTrue};
ghost use Rattle.rpki_relying_party.specs.Names.{IsPlain, IsBelow, after_slash, path_of};
ghost use Rattle.rpki_relying_party.specs.Names.{locator_name, anchor_name};
ghost use Rattle.rpki_relying_party.specs.Texts.{name_of};

use std::alloc::{AllocError, Global};

// Whether a segment of a path is a name of its own: it is not empty, and neither `.` nor `..`
// (3.3).
fn is_plain(segment: &[u8]) -> bool
    ensures { IsTrue result ↔ IsPlain segment.now }
{
    !segment.is_empty() && segment != b".".as_slice() && segment != b"..".as_slice()
}

/// Whether a name leads to a file below a folder: it is one plain segment or more, with a slash
/// between each two. A segment is plain if it is not empty, and neither `.` nor `..` (3.3).
pub fn is_below(name: &[u8]) -> bool
    ensures { IsTrue result ↔ IsBelow name.now }
{
    name.split(|octet| *octet == b'/').all(is_plain)
}

// What stands after the first slash, or nothing where there is none.
fn after_slash(octets: &[u8]) -> &[u8]
    ensures { result.now ≡ after_slash octets.now }
{
    match octets.iter().position(|octet| *octet == b'/') {
        Some(at) => &octets[at + 1..],
        None => &[],
    }
}

/// What stands after the two slashes of a URI: its authority, its path and its query.
pub(crate) fn path_of(uri: &[u8]) -> &[u8]
    ensures { result.now ≡ path_of uri.now }
{
    after_slash(after_slash(uri))
}

// What stands after the last slash of a URI, or all of it where it has none.
fn last_segment(uri: &[u8]) -> &[u8]
    ensures { result.now ≡ name_of uri.now }
{
    match uri.iter().rposition(|octet| *octet == b'/') {
        Some(at) => &uri[at + 1..],
        None => uri,
    }
}

// The same of the path of a file.
fn last_name(path: &str) -> &str
    ensures { result.now ≡ name_of path.now }
{
    match path.as_bytes().iter().rposition(|octet| *octet == b'/') {
        Some(at) => &path[at + 1..],
        None => path,
    }
}

/// The name of a locator: what stands after the last slash of the path of its file, without `.tal`
/// at its end.
pub fn locator_name(path: &str) -> &str
    ensures { result.now ≡ locator_name path.now }
{
    let file = last_name(path);
    match file.strip_suffix(".tal") {
        Some(name) => name,
        None => file,
    }
}

/// The name of the file of a trust anchor's certificate, below the folder of the locator with this
/// name.
pub(crate) fn anchor_name(alloc: Global, name: &str, uri: &[u8]) -> Result<Vec<u8>, AllocError>
    ensures { IfOk result (λ found. found.items ≡ anchor_name name.now uri.now) }
{
    let mut found = Vec::from_slice(alloc, b"ta/")?;
    found.extend_from_slice(name.as_bytes())?;
    found.extend_from_slice(b"/")?;
    found.extend_from_slice(last_segment(uri))?;
    Ok(found)
}
