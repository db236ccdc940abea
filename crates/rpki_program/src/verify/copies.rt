//! Copies of the repositories.

ghost use Rattle.std.specs.Prelude.{◌≡◌};

use crate::verify::system::System;
use rpki_relying_party::{Fetched, Folders};
use std::alloc::{AllocError, Global};
use std::cell::Cell;

/// After how many reads the progress is told.
const STEP: u64 = 1000;

/// Folders of which no larger file is read, and whose reads are counted.
#[derive(Drop)]
pub struct Watched<'a, Y> {
    system: &'a Y,
    /// How many octets a file may have.
    max_file: u64,
    /// Whether the progress is told.
    verbose: bool,
    reads: Cell<u64>,
}

impl<'a, Y: System> Watched<'a, Y> {
    /// The folders of the system. Nothing was read yet.
    pub fn new(system: &'a Y, max_file: u64, verbose: bool) -> Watched<'a, Y>
        ensures system { result.system.now ≡ system.now }
        ensures max_file { result.max_file ≡ max_file }
    {
        Watched {
            system,
            max_file,
            verbose,
            reads: Cell::new(0),
        }
    }

    /// Counts a read, and tells the progress if it is its turn.
    fn count(&self) {
        let reads = self.reads.get().saturating_add(1);
        self.reads.set(reads);
        if self.verbose && reads % STEP == 0 {
            self.system.tell(reads);
        }
    }
}

impl<Y: System> Folders for Watched<'_, Y> {
    ghost use Rattle.rpki_program.specs.Verify.Copies.{FindsWithin};

    ghost finds = { λ w folder name. FindsWithin (Y.finds w.system.now folder name) w.max_file };

    fn read(
        &self,
        alloc: Global,
        folder: &str,
        name: &[u8],
        most: u64,
    ) -> Result<Fetched, AllocError> {
        self.count();
        self.system.read(alloc, folder, name, self.max_file, most)
    }
}
