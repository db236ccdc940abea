//! How often each file of the tree is read in a run within a limit on the work. What each place
//! costs follows by hand from the octets of its files.

use super::tree::{FILES, locator, moment};
use crate::folder::files::Files;
use rpki_basics::ProviderLimit;
use rpki_basics::standin::StandIn;
use rpki_relying_party::{
    Fetched, FolderCopy, Folders, Found, NoFile, Pass, RunFault, Why, run_under,
};
use rpki_tal::Tal;
use rpki_testing::Fail;
use std::alloc::{AllocError, Global};
use std::cell::Cell;

/// Limits, and how often each of `FILES` is read within them.
static ROWS: [(u64, [u32; 13]); 9] = [
    // there is room for each place at its first try
    (8_589_934_592, [1, 0, 0, 1, 1, 1, 1, 1, 1, 1, 1, 1, 1]),
    // the point of the trust anchor costs 62,601, of which 304 are for the 19 octets of the URI of
    // its list, and 3,072 for the three blocks that `a` and `b` claim; of what is left, tries of `a`
    // take 2,295, the last of them with room to look for its manifest of 1,011 octets, and those of
    // `b`, which has none, 2,167; so at the next try of `a` there is just as much room as its
    // manifest costs, or one less
    (69_098, [1, 0, 0, 1, 1, 1, 1, 1, 1, 0, 1, 0, 0]),
    (69_097, [1, 0, 0, 1, 1, 1, 1, 1, 1, 0, 0, 0, 0]),
    // `x.roa` comes last in that point: 1,024, 16 for each of the 38 octets of its URI and of
    // the manifest's, and its 4 octets
    (62_601, [1, 0, 0, 1, 1, 1, 1, 1, 1, 0, 0, 0, 0]),
    (62_600, [1, 0, 0, 1, 1, 1, 1, 1, 0, 0, 0, 0, 0]),
    // and 2,048 before it, for the address of `t.roa`, once its 820 octets are read
    (58_917, [1, 0, 0, 1, 1, 1, 1, 1, 0, 0, 0, 0, 0]),
    (58_916, [1, 0, 0, 1, 1, 1, 1, 0, 0, 0, 0, 0, 0]),
    // the manifest of the trust anchor costs 2,126
    (2_126, [1, 0, 0, 0, 1, 0, 0, 0, 0, 0, 0, 0, 0]),
    (2_125, [1, 0, 0, 0, 0, 0, 0, 0, 0, 0, 0, 0, 0]),
];

/// Files in memory that count how often each is read.
#[derive(Drop)]
struct CountingFiles<'a> {
    files: Files<'a>,
    reads: Vec<Cell<u32>>,
}

impl Folders for CountingFiles<'_> {
    ghost use Rattle.std.specs.Prelude.{◌≡◌};
    ghost use Rattle.rpki_relying_party_tests.specs.Files.{found_in};

    ghost finds = { λ t _ name found. found ≡ found_in t.files.files.now name };

    fn read(
        &self,
        alloc: Global,
        folder: &str,
        name: &[u8],
        most: u64,
    ) -> Result<Fetched, AllocError> {
        let found = self.files.read(alloc, folder, name, most)?;
        if let Fetched::File(_) = &found {
            count(self.files.files, &self.reads, name);
        }
        Ok(found)
    }
}

// Counts a read of the first file with this name.
fn count(files: &[(&str, Result<&[u8], NoFile>)], reads: &[Cell<u32>], name: &[u8]) {
    for ((there, _), read) in files.iter().zip(reads) {
        if there.as_bytes() == name {
            read.set(read.get().saturating_add(1));
            return;
        }
    }
}

// Runs over these folders, and whether memory sufficed.
fn run_over<F: Folders>(alloc: Global, folders: &F, tal: &Tal, limit: u64) -> Result<(), Fail> {
    let copy = FolderCopy {
        folders,
        folder: "copy",
        name: "one",
    };
    let pass = Pass {
        copy: &copy,
        crypto: &StandIn,
        moment: moment(2027)?,
        providers: ProviderLimit::Narrow,
    };
    let mut found = Found::new(alloc);
    match run_under(alloc, &pass, tal, limit, &mut found) {
        Err(RunFault::Memory) => Err(Fail::Memory),
        Err(fault) => {
            drop(fault);
            Ok(())
        }
        Ok(unread) => {
            if unread.iter().any(|left| left.why == Why::Memory) {
                return Err(Fail::Memory);
            }
            Ok(())
        }
    }
}

// Whether each file is read so often within a limit.
fn are_read(alloc: Global, tal: &Tal, limit: u64, wanted: &[u32]) -> Result<bool, Fail> {
    let mut reads = Vec::new(alloc);
    for _ in &FILES {
        reads.push(Cell::new(0))?;
    }
    let folders = CountingFiles {
        files: Files { files: &FILES },
        reads,
    };
    run_over(alloc, &folders, tal, limit)?;
    Ok(
        folders
            .reads
            .iter()
            .zip(wanted)
            .all(|(read, count)| read.get() == *count),
    )
}

// How many rows are right before the first that is not, or all.
fn rows_read(alloc: Global) -> Result<usize, Fail> {
    let tal = locator(alloc)?;
    for (place, (limit, wanted)) in ROWS.iter().enumerate() {
        if !are_read(alloc, &tal, *limit, wanted)? {
            return Ok(place);
        }
    }
    Ok(ROWS.len())
}

#[test]
fn no_file_is_read_beyond_the_room(rt: HostRuntime) -> Result<(), Fail> {
    assert_eq!(rt; rows_read(rt.alloc())?, ROWS.len());
    Ok(())
}
