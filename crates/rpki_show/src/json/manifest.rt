//! The members of the content of a manifest.

use crate::json::values::{Members, put_objects, put_serial, put_shown};
use crate::texts::ia5::Ia5;
use rpki_der::LowerHex;
use rpki_files::ManifestContent;
use std::alloc::{AllocError, Global};

/// Puts `manifest_number`, `this_update`, `next_update`, and `filesandhashes`, a list of objects
/// with `filename` and `hash`.
pub fn put_manifest(
    alloc: Global,
    members: &mut Members,
    content: &ManifestContent,
) -> Result<(), AllocError> {
    put_serial(alloc, members, "manifest_number", content.manifest_number())?;
    put_shown(alloc, members, "this_update", &content.this_update())?;
    put_shown(alloc, members, "next_update", &content.next_update())?;
    let files = content.iter();
    put_objects(alloc, members, "filesandhashes", files, |members, file| {
        put_file(alloc, members, file.file, file.hash)
    })
}

/// Puts the name of a file and its hash.
fn put_file(
    alloc: Global,
    members: &mut Members,
    name: &[u8],
    hash: &[u8],
) -> Result<(), AllocError> {
    put_shown(alloc, members, "filename", &Ia5(name))?;
    put_shown(alloc, members, "hash", &LowerHex(hash))
}
