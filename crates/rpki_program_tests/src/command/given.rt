//! A store that a run is given, and a system.

ghost use Rattle.std.specs.Prelude.{◌≡◌, MatchOption, bytes_eq, None, Some};
ghost use Rattle.std.specs.Map.{lookup};
ghost use Rattle.std.specs.Option.{ok_or};
ghost use Rattle.rpki_cli.specs.declared.store.Reason.TheVariants.{NotFound};
ghost use Rattle.rpki_program_tests.specs.Command.Given.{by_name};

use bytes::Bytes;
use rpki_cli::{ReadLog, Reason, Store, StoreError};
use rpki_program::verify::system::{FolderNames, System};
use rpki_relying_party::{Fetched, NoFile};
use std::alloc::{AllocError, Global};

/// A store with these files by name, and one that memory is not enough for, `large`.
#[derive(Drop)]
pub struct Files<'a> {
    files: &'a [(&'a str, &'a [u8])],
    reads: ReadLog,
    calls: usize,
}

impl<'a> Files<'a> {
    /// A store with these files.
    pub fn new(files: &'a [(&'a str, &'a [u8])]) -> Files<'a> {
        Files {
            files,
            reads: ReadLog::empty(),
            calls: 0,
        }
    }

    /// How often it was read.
    pub fn calls(&self) -> usize {
        self.calls
    }
}

impl Store for Files<'_> {
    ghost told = { λ s name. Some (ok_or (lookup (bytes_eq name) (by_name s.files.now)) NotFound) };

    ghost reads = { λ s. s.reads.names };

    fn read(&mut self, alloc: Global, name: &str) -> Result<Bytes, StoreError> {
        self.reads = self.reads.and(name);
        self.calls = self.calls.saturating_add(1);
        if name == "large" {
            return Err(StoreError::Memory);
        }
        match find(self.files, name) {
            None => Err(StoreError::Unreadable(Reason::NotFound)),
            Some(octets) => match Bytes::copy_from_slice(alloc, octets) {
                Ok(copy) => Ok(copy),
                Err(_) => Err(StoreError::Memory),
            },
        }
    }
}

/// A system without folders, to which nothing is told.
#[derive(Drop)]
pub struct Nowhere;

impl System for Nowhere {
    ghost use Rattle.std.specs.Prelude.{⊤};

    // Anything, as far as its contract says.
    ghost named = { λ _ _ _. ⊤ };

    // Anything, here too.
    ghost finds = { λ _ _ _ _. ⊤ };

    fn names(&self, _alloc: Global, _folder: &str) -> Result<FolderNames, StoreError> {
        Err(StoreError::Unreadable(Reason::NotFound))
    }

    fn read(
        &self,
        _alloc: Global,
        _folder: &str,
        _name: &[u8],
        _max_file: u64,
        _most: u64,
    ) -> Result<Fetched, AllocError> {
        Ok(Fetched::NoFile(NoFile::Missing))
    }

    fn tell(&self, _files: u64) {}
}

/// The octets of the first file with this name, if there is one.
fn find<'a>(files: &'a [(&'a str, &'a [u8])], name: &str) -> Option<&'a [u8]>
    ensures { MatchOption result (lookup (bytes_eq name.now) (by_name files.now) ≡ None)
        (λ o. lookup (bytes_eq name.now) (by_name files.now) ≡ Some o.now) }
{
    match files {
        [] => None,
        [(there, octets), rest @ ..] => {
            if name == *there {
                Some(octets)
            } else {
                find(rest, name)
            }
        }
    }
}
