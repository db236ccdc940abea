//! The members of the content of a signed checklist.

use crate::json::blocks::{put_as_blocks, put_ip_blocks};
use crate::json::values::{Members, put_objects, put_shown};
use crate::texts::ia5::Ia5;
use rpki_der::LowerHex;
use rpki_files::ResourceSignedChecklist;
use rpki_resources::AddressFamily;
use std::alloc::{AllocError, Global};

/// Puts `asns`, `ipv4` and `ipv6`, lists of blocks, and `filenamesandhashes`, a list of objects with
/// `filename`, where there is one, and `hash_digest`.
pub fn put_checklist(
    alloc: Global,
    members: &mut Members,
    content: &ResourceSignedChecklist,
) -> Result<(), AllocError> {
    put_as_blocks(alloc, members, "asns", content.as_resources())?;
    let v4 = content.v4_resources();
    put_ip_blocks(alloc, members, "ipv4", AddressFamily::Ipv4, v4)?;
    let v6 = content.v6_resources();
    put_ip_blocks(alloc, members, "ipv6", AddressFamily::Ipv6, v6)?;
    put_files(alloc, members, "filenamesandhashes", content)
}

/// Puts a list of the files.
fn put_files(
    alloc: Global,
    members: &mut Members,
    name: &str,
    content: &ResourceSignedChecklist,
) -> Result<(), AllocError> {
    put_objects(alloc, members, name, content.iter(), |members, file| {
        put_file(alloc, members, file.file_name, file.hash)
    })
}

/// Puts the name of a file, if it has one, and its digest.
fn put_file(
    alloc: Global,
    members: &mut Members,
    name: Option<&[u8]>,
    hash: &[u8],
) -> Result<(), AllocError> {
    if let Some(name) = name {
        put_shown(alloc, members, "filename", &Ia5(name))?;
    }
    put_shown(alloc, members, "hash_digest", &LowerHex(hash))
}
