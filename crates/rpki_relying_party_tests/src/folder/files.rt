//! Folders in memory.

ghost use Rattle.std.specs.Prelude.{◌≡◌};
ghost use Rattle.rpki_relying_party_tests.specs.Files.{file_of, found_in};

use bytes::Bytes;
use rpki_relying_party::{Fetched, Folders, NoFile};
use std::alloc::{AllocError, Global};

/// Files in memory, each with its name in each folder, and what it holds or why it is not read. Of
/// two with one name, the first counts.
#[derive(Drop)]
pub struct Files<'a> {
    pub files: &'a [(&'a str, Result<&'a [u8], NoFile>)],
}

impl Folders for Files<'_> {
    ghost use Rattle.std.specs.Prelude.{◌≡◌};
    ghost use Rattle.rpki_relying_party_tests.specs.Files.{found_in};

    ghost finds = { λ t _ name found. found ≡ found_in t.files.now name };

    fn read(
        &self,
        alloc: Global,
        _folder: &str,
        name: &[u8],
        most: u64,
    ) -> Result<Fetched, AllocError> {
        match find(self.files, name) {
            Err(why) => Ok(Fetched::NoFile(why)),
            Ok(octets) => {
                if octets.len() as u64 > most {
                    Ok(Fetched::Larger)
                } else {
                    Ok(Fetched::File(Bytes::copy_from_slice(alloc, octets)?))
                }
            }
        }
    }
}

// What the first file with this name holds, or why there is none.
fn find<'a>(
    files: &'a [(&'a str, Result<&'a [u8], NoFile>)],
    name: &[u8],
) -> Result<&'a [u8], NoFile>
    ensures { file_of result ≡ found_in files.now name.now }
{
    match files {
        [] => Err(NoFile::Missing),
        [(there, found), rest @ ..] => {
            if name == there.as_bytes() {
                *found
            } else {
                find(rest, name)
            }
        }
    }
}
