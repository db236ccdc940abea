//! A folder as a copy of the repositories.

ghost use Rattle.std.specs.Prelude.{◌≡◌, ℕ, List, Result, IfOk};
ghost use Rattle.rpki_relying_party.specs.Fetches.{IsFetched};
ghost use Rattle.rpki_relying_party.specs.Folders.{FindsBelow, FindsIn, is_kept};
ghost use Rattle.rpki_relying_party.specs.Names.{IsBelow, anchor_name};

mod names;
mod system;

use crate::copy::{Fetched, NoFile, Repository};
pub use names::{is_below, locator_name};
use names::{anchor_name, path_of};
use std::alloc::{AllocError, Global};
pub use system::{MAX_FILE, MAX_PARTS, SystemFolders};

/// Folders of files.
pub trait Folders {
    ghost use Rattle.rpki_relying_party.specs.declared.copy.NoFile.{NoFile};

    // What a read of a name below a folder may find: octets, or why there are none. Of a folder of
    // the system, which may change at any time, any octets may be found that a file may have; one
    // in memory finds one thing under each name.
    ghost finds: { Self → List ℕ → List ℕ → Result (List ℕ) NoFile → Type 0 };

    /// What there is below the folder under this name, or that memory ran out. A file is read if it
    /// has at most so many octets. No name that leads out of the folder may be asked for.
    fn read(
        &self,
        alloc: Global,
        folder: &str,
        name: &[u8],
        most: u64,
    ) -> Result<Fetched, AllocError>
        requires { IsBelow name.now }
        ensures { IfOk result (IsFetched (finds self.now folder.now name.now) most) };
}

/// A folder as a copy of the repositories, for a validation run under a locator. The file of a URI
/// is that at its host and its path. What is kept as the certificate of the locator's trust anchor
/// is the file `ta/NAME/LAST`, where NAME is the name of the locator, and LAST what stands after
/// the last slash of the URI: so `rpki-client` keeps it.
#[derive(Drop)]
pub struct FolderCopy<'a, F> {
    /// The folders among which it is.
    pub folders: &'a F,
    /// The folder.
    pub folder: &'a str,
    /// The name of the locator.
    pub name: &'a str,
}

// Whether it is asked for what is kept as the certificate of a trust anchor.
fn is_kept(uri: &[u8]) -> bool
    ensures { result ≡ is_kept uri.now }
{
    uri.starts_with(b"ta:")
}

impl<F: Folders> FolderCopy<'_, F> {
    // What the folder has under a name, where that leads to a file below it.
    fn read_below(&self, alloc: Global, name: &[u8], most: u64) -> Result<Fetched, AllocError>
        ensures { IfOk result (IsFetched (FindsBelow
            (F.finds self.now.folders.now self.now.folder.now) name.now) most) }
    {
        if is_below(name) {
            self.folders.read(alloc, self.folder, name, most)
        } else {
            Ok(Fetched::NoFile(NoFile::Missing))
        }
    }

    // What it has where the certificate of the locator's trust anchor is kept.
    fn read_anchor(&self, alloc: Global, uri: &[u8], most: u64) -> Result<Fetched, AllocError>
        ensures { IfOk result (IsFetched (FindsBelow
            (F.finds self.now.folders.now self.now.folder.now)
            (anchor_name self.now.name.now uri.now)) most) }
    {
        let name = anchor_name(alloc, self.name, uri)?;
        self.read_below(alloc, &name, most)
    }
}

impl<F: Folders> Repository for FolderCopy<'_, F> {
    ghost finds = { λ c. FindsIn (F.finds c.folders.now c.folder.now) c.name.now };

    /// The work is in proportion to that of a read of the folder, and to the octets of the URI.
    fn read(&self, alloc: Global, uri: &[u8], most: u64) -> Result<Fetched, AllocError> {
        if is_kept(uri) {
            self.read_anchor(alloc, uri, most)
        } else {
            self.read_below(alloc, path_of(uri), most)
        }
    }
}
