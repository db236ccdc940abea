//! What of the system a run reaches beside single files.

ghost use Rattle.std.specs.Prelude.{IfOk, map, string_bytes};
ghost use Rattle.rpki_relying_party.specs.Fetches.{IsFetched};
ghost use Rattle.rpki_relying_party.specs.Names.{IsBelow};
ghost use Rattle.rpki_program.specs.Verify.Copies.{FindsWithin};

use rpki_cli::StoreError;
use rpki_relying_party::Fetched;
use std::alloc::{AllocError, Global};

/// What is in a folder.
#[derive(Drop)]
pub struct FolderNames {
    /// The names of its files, in any order.
    pub names: Vec<String>,
    /// How many files more have a name that is no text (UTF-8).
    pub no_texts: u64,
}

/// Folders of files, and where the progress of a run is told.
pub trait System {
    ghost use Rattle.std.specs.Prelude.{ℕ, List, Result};
    ghost use Rattle.rpki_relying_party.specs.declared.copy.NoFile.{NoFile};

    // The names of files that it may tell of a folder.
    ghost named: { Self → List ℕ → List (List ℕ) → Type 0 };

    // What a read of a name below a folder may find, if files of any size are read.
    ghost finds: { Self → List ℕ → List ℕ → Result (List ℕ) NoFile → Type 0 };

    /// The names of the files of a folder, or why it can't be read.
    fn names(&self, alloc: Global, folder: &str) -> Result<FolderNames, StoreError>
        ensures { IfOk result (λ found. named self.now folder.now
            (map string_bytes found.names.items)) };

    /// What there is below a folder under this name, or that memory ran out. A file of more than
    /// `max_file` octets is too large; one of at most `most` is read. No name that leads out of the
    /// folder may be asked for.
    fn read(
        &self,
        alloc: Global,
        folder: &str,
        name: &[u8],
        max_file: u64,
        most: u64,
    ) -> Result<Fetched, AllocError>
        requires { IsBelow name.now }
        ensures { IfOk result (IsFetched (FindsWithin (finds self.now folder.now name.now) max_file)
            most) };

    /// Tells that so many files of a copy were looked for.
    fn tell(&self, files: u64);
}
