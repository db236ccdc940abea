//! Where a copy may have the certificate of a trust anchor.

use rpki_payloads::NamedLocator;
use rpki_relying_party::{Fetched, FolderCopy, Folders, NoFile, Repository};
use rpki_tal::{Tal, TalUri};
use std::alloc::{AllocError, Global};
use std::fmt::Write;

/// Appends, for each locator of whose certificate this folder has no file, where it was looked for.
pub fn push_places<F: Folders>(
    alloc: Global,
    text: &mut String,
    folder: &str,
    locators: &[NamedLocator<'_>],
    folders: &F,
) -> Result<(), AllocError> {
    for one in locators {
        let name = one.name;
        let copy = FolderCopy {
            folders,
            folder,
            name,
        };
        if !has_any(alloc, &copy, &one.locator)? {
            let places = places_of(alloc, folder, name, &one.locator)?;
            write!(text, "{name}: looked for {places}\n")?;
        }
    }
    Ok(())
}

/// The places, as `copy/rpki.example.net/ta.cer and copy/ta/example/ta.cer`.
pub fn places_of(
    alloc: Global,
    folder: &str,
    name: &str,
    locator: &Tal,
) -> Result<String, AllocError> {
    let mut text = String::new(alloc);
    for uri in locator.uris() {
        if !text.is_empty() {
            text.push_str(" and ")?;
        }
        let (path, file) = parts_of(uri.as_str());
        write!(text, "{folder}/{path} and {folder}/ta/{name}/{file}")?;
    }
    Ok(text)
}

/// What stands in a URI after its two slashes, and after its last one.
fn parts_of(uri: &str) -> (&str, &str) {
    let path = match uri.split_once("//") {
        Some((_, path)) => path,
        None => uri,
    };
    match path.rsplit_once('/') {
        Some((_, file)) => (path, file),
        None => (path, path),
    }
}

/// Whether a copy has something at one of the places, which is not read.
fn has_any<R: Repository>(alloc: Global, copy: &R, locator: &Tal) -> Result<bool, AllocError> {
    for uri in locator.uris() {
        if has(alloc, copy, uri)? {
            return Ok(true);
        }
    }
    Ok(false)
}

/// The same at those of this URI.
fn has<R: Repository>(alloc: Global, copy: &R, uri: &TalUri) -> Result<bool, AllocError> {
    let uri = uri.as_str();
    let kept = format!(in alloc; "ta:{uri}")?;
    Ok(
        is_there(copy.read(alloc, uri.as_bytes(), 0)?)
            || is_there(copy.read(alloc, kept.as_bytes(), 0)?),
    )
}

/// Whether there is something.
fn is_there(found: Fetched) -> bool {
    !matches!(found, Fetched::NoFile(NoFile::Missing))
}
