//! The files that are named: the locator, and what is explained.

use super::End;
use crate::verify::report::{FAILED, UNREADABLE};
use bytes::Bytes;
use rpki_basics::Rsync;
use rpki_basics::uri::Error as UriError;
use rpki_cli::{Store, StoreError};
use rpki_files::is_type;
use rpki_relying_party::{Fetched, Folders, NoFile, Repository, is_below};
use rpki_show::locator_of;
use rpki_tal::{ReadError, Tal};
use std::alloc::{AllocError, Global};
use std::str;

/// What is explained: the word that names it, its URI if the word is one, and its octets.
#[derive(Drop)]
pub(crate) struct Target<'a> {
    pub word: &'a str,
    pub uri: Option<Rsync>,
    pub octets: Bytes,
}

/// What a file is, by the last three letters of its name, as in a pass.
#[derive(Clone, Copy, Debug, PartialEq, Eq)]
pub(crate) enum TargetKind {
    Certificate,
    Manifest,
    /// A ROA or an ASPA.
    Payloads,
    Other,
}

// There is no answer, with this status, and this is said of it.
fn failed(status: u8, said: Result<String, AllocError>) -> End {
    match said {
        Ok(text) => End::Failed(status, text),
        Err(_) => End::Memory,
    }
}

/// The locator in the file of this name.
pub(crate) fn read_locator<S: Store>(alloc: Global, name: &str, store: &mut S) -> Result<Tal, End> {
    match store.read(alloc, name) {
        Err(StoreError::Memory) => Err(End::Memory),
        Err(StoreError::Unreadable(reason)) => {
            let why = reason.text();
            Err(failed(UNREADABLE, format!(in alloc; "cannot read {name}{why}\n")))
        }
        Ok(octets) => match locator_of(alloc, octets.as_slice()) {
            Ok(locator) => Ok(locator),
            Err(ReadError::Memory) => Err(End::Memory),
            Err(_) => Err(failed(FAILED, format!(in alloc; "bad locator {name}\n"))),
        },
    }
}

/// What the word names: of a URI the file that the copy in this folder has for it, and of any other
/// word the file of that name.
pub(crate) fn read_target<'a, R: Repository, F: Folders>(
    alloc: Global,
    word: &'a str,
    copy: &R,
    folder: &str,
    folders: &F,
) -> Result<Target<'a>, End> {
    let uri = uri_in(alloc, word.as_bytes())?;
    let found = match &uri {
        Some(uri) => copy.read(alloc, uri.as_slice(), u64::MAX)?,
        None => read_file(alloc, word, folders)?,
    };
    match octets_in(found) {
        Ok(octets) => Ok(Target { word, uri, octets }),
        Err(why) => Err(failed(
            UNREADABLE,
            unread_text(alloc, word, uri.as_ref(), folder, why),
        )),
    }
}

// That what the word names can't be read.
fn unread_text(
    alloc: Global,
    word: &str,
    uri: Option<&Rsync>,
    folder: &str,
    why: NoFile,
) -> Result<String, AllocError> {
    match uri {
        Some(uri) => {
            let path = path_of(uri);
            format!(in alloc; "cannot read {word}: {why}, looked for {folder}/{path}\n")
        }
        None if why == NoFile::Missing => format!(in alloc; "cannot read {word}: no such file\n"),
        None => format!(in alloc; "cannot read {word}: {why}\n"),
    }
}

/// The octets that were found, or why there are none.
pub(crate) fn octets_in(found: Fetched) -> Result<Bytes, NoFile> {
    match found {
        Fetched::File(octets) => Ok(octets),
        Fetched::NoFile(why) => Err(why),
        Fetched::Larger => Err(NoFile::TooLarge),
    }
}

/// Where the file of a URI lies below a copy.
pub(crate) fn path_of(uri: &Rsync) -> &str {
    match uri.as_str().split_once("//") {
        Some((_, path)) => path,
        None => uri.as_str(),
    }
}

// The URI that octets are, if they are one.
fn uri_in(alloc: Global, octets: &[u8]) -> Result<Option<Rsync>, AllocError> {
    known(Rsync::from_bytes(Bytes::copy_from_slice(alloc, octets)?))
}

// A URI, if it is one.
fn known(uri: Result<Rsync, UriError>) -> Result<Option<Rsync>, AllocError> {
    match uri {
        Ok(uri) => Ok(Some(uri)),
        Err(UriError::Memory) => Err(AllocError),
        Err(_) => Ok(None),
    }
}

// What there is under the name of a file.
fn read_file<F: Folders>(alloc: Global, path: &str, folders: &F) -> Result<Fetched, AllocError> {
    let (folder, name) = split_path(path);
    if is_below(name) {
        folders.read(alloc, folder, name, u64::MAX)
    } else {
        Ok(Fetched::NoFile(NoFile::Missing))
    }
}

// The folder of a file, and its name in it.
fn split_path(path: &str) -> (&str, &[u8]) {
    let octets = path.as_bytes();
    match octets.iter().rposition(|octet| *octet == b'/') {
        None => (".", octets),
        Some(at) => (
            str::from_utf8(&octets[..at]).unwrap_or("."),
            &octets[at + 1..],
        ),
    }
}

impl Target<'_> {
    /// What it is.
    pub(crate) fn kind(&self) -> TargetKind {
        let name = self.word.as_bytes();
        let (_, letters) = name.split_at(name.len().saturating_sub(3));
        if is_type(letters, b'c', b'e', b'r') {
            TargetKind::Certificate
        } else if is_type(letters, b'm', b'f', b't') {
            TargetKind::Manifest
        } else if is_type(letters, b'r', b'o', b'a') || is_type(letters, b'a', b's', b'a') {
            TargetKind::Payloads
        } else {
            TargetKind::Other
        }
    }

    /// Its URI; that of a file is its name below the folder in which its issuer publishes, if that
    /// is a URI.
    pub(crate) fn uri_in(
        &self,
        alloc: Global,
        folder: &Rsync,
    ) -> Result<Option<Rsync>, AllocError> {
        match &self.uri {
            Some(uri) => Ok(Some(uri.clone()?)),
            None => known(folder.join(alloc, split_path(self.word).1)),
        }
    }
}
