//! What a folder has for URIs, row by row.

use super::files::Files;
use rpki_relying_party::{Fetched, FolderCopy, NoFile, Repository, is_below, locator_name};
use rpki_testing::Fail;
use std::alloc::{AllocError, Global};

/// The names of files, and what they hold or why they are not read.
static FILES: [(&str, Result<&[u8], NoFile>); 11] = [
    ("host/module/x.roa", Ok(b"file")),
    ("host/module/big.roa", Err(NoFile::TooLarge)),
    ("h/ta/t.cer", Ok(b"published")),
    ("h/ta/link.cer", Err(NoFile::NotRegular)),
    ("ta/name/t.cer", Ok(b"taken")),
    ("ta/name/s.cer", Ok(b"anchor")),
    ("../module/x", Ok(b"above")),
    ("host/../x", Ok(b"above")),
    ("ta/link/link.cer", Ok(b"taken")),
    ("ta/../s.cer", Ok(b"above")),
    ("", Ok(b"nameless")),
];

/// The names of locators, URIs, and what a folder with these files has for them.
static HELD: [(&str, &str, Result<&[u8], NoFile>); 16] = [
    ("name", "rsync://host/module/x.roa", Ok(b"file")),
    ("name", "https://host/module/x.roa", Ok(b"file")),
    ("name", "rsync://host/module/y.roa", Err(NoFile::Missing)),
    ("name", "rsync://host/module/big.roa", Err(NoFile::TooLarge)),
    // what is at the URI is one thing, and what is kept as the trust anchor another
    ("name", "rsync://h/ta/t.cer", Ok(b"published")),
    ("name", "ta:rsync://h/ta/t.cer", Ok(b"taken")),
    ("link", "rsync://h/ta/link.cer", Err(NoFile::NotRegular)),
    ("name", "ta:https://h/ta/s.cer", Ok(b"anchor")),
    ("other", "ta:https://h/ta/s.cer", Err(NoFile::Missing)),
    ("name", "https://h/ta/s.cer", Err(NoFile::Missing)),
    // no name leads out of the folder
    ("..", "ta:https://h/ta/s.cer", Err(NoFile::Missing)),
    ("name", "rsync://../module/x", Err(NoFile::Missing)),
    ("name", "https://host/../x", Err(NoFile::Missing)),
    ("name", "rsync://host/module/", Err(NoFile::Missing)),
    ("name", "rsync:", Err(NoFile::Missing)),
    ("name", "rsync://", Err(NoFile::Missing)),
];

/// Paths of files, and the names of the locators in them.
static NAMES: [(&str, &str); 4] = [
    ("name.tal", "name"),
    ("/tals/name.tal", "name"),
    ("tals.tal/name.cer", "name.cer"),
    ("tals/.tal", ""),
];

/// Names, and whether they lead to a file below a folder.
static BELOW: [(&[u8], bool); 6] = [
    (b"host/module/x.roa", true),
    (b".../..x", true),
    (b"host/./x", false),
    (b"/host/x", false),
    (b"host/..", false),
    (b"", false),
];

// Whether a copy has just this for a URI, and octets only where as many are asked for.
fn has<R: Repository>(
    alloc: Global,
    copy: &R,
    uri: &str,
    wanted: &Result<&[u8], NoFile>,
) -> Result<bool, AllocError> {
    let length = match wanted {
        Ok(octets) => octets.len() as u64,
        Err(_) => 0,
    };
    match copy.read(alloc, uri.as_bytes(), length)? {
        Fetched::NoFile(why) => Ok(*wanted == Err(why)),
        Fetched::File(found) => {
            let is_wanted = *wanted == Ok(found.as_slice());
            Ok(is_wanted && is_larger(alloc, copy, uri, length.saturating_sub(1))?)
        }
        Fetched::Larger => Ok(false),
    }
}

// Whether a copy has more octets than so many for a URI.
fn is_larger<R: Repository>(
    alloc: Global,
    copy: &R,
    uri: &str,
    most: u64,
) -> Result<bool, AllocError> {
    Ok(matches!(copy.read(alloc, uri.as_bytes(), most)?, Fetched::Larger))
}

// Whether the folder has for each URI what its row says.
fn folder_has(alloc: Global) -> Result<bool, AllocError> {
    let folders = Files { files: &FILES };
    for (name, uri, wanted) in &HELD {
        let copy = FolderCopy {
            folders: &folders,
            folder: "copy",
            name,
        };
        if !has(alloc, &copy, uri, wanted)? {
            return Ok(false);
        }
    }
    Ok(true)
}

#[test]
fn folders_have_files(rt: HostRuntime) -> Result<(), Fail> {
    assert!(rt; folder_has(rt.alloc())?);
    assert!(rt; NAMES.iter().all(|row| locator_name(row.0) == row.1));
    assert!(rt; BELOW.iter().all(|row| is_below(row.0) == row.1));
    Ok(())
}
