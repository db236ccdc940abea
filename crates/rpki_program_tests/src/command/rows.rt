//! Runs of the programs over files in memory, and how their rows are walked.

use super::given::{Files, Nowhere};
use rpki_basics::Time;
use rpki_cli::command;
use rpki_command::Objects;
use rpki_der::Counted;
use rpki_program::verify::run::command as verify;
use std::alloc::{AllocError, Global};

/// Which program runs.
#[derive(Clone, Copy)]
pub enum By {
    /// The program with verdicts.
    Objects,
    /// The program with signatures, whose clock tells the first moment of 2027.
    Verify,
    /// The same with a clock that tells no moment.
    WithoutClock,
}

/// What a run says.
#[derive(Clone, Copy)]
pub enum Said {
    /// This on standard output, with status 0.
    Yes(&'static str),
    /// This on standard output, with status 1.
    No(&'static str),
    /// This on standard error, with this status.
    Error(u8, &'static str),
    /// This on standard output, with status 4.
    Unread(&'static str),
}

/// A file, by its name.
pub type File = (&'static str, &'static [u8]);

/// The program, its words with a space between them, what is said, and how often the store is read.
pub type Row = (By, &'static str, Said, usize);

pub const MALFORMED: Said = Said::No("malformed\n");

pub const USAGE: Said = Said::Error(2, "usage\n");

pub const OUT_OF_MEMORY: Said = Said::Error(3, "out of memory\n");

/// The octets that a stream takes before it asks for memory, which are more than most runs say.
const ROOM: usize = 4096;

/// What a run did: its exit status, what is on standard output and on standard error, and how often
/// it read the store.
#[derive(Drop)]
struct Ran {
    status: u8,
    out: Vec<u8>,
    err: Vec<u8>,
    reads: usize,
}

impl Ran {
    /// Whether this was said.
    fn says(&self, said: Said) -> bool {
        let (status, out, err) = match said {
            Said::Yes(text) => (0, text, ""),
            Said::No(text) => (1, text, ""),
            Said::Error(status, text) => (status, "", text),
            Said::Unread(text) => (4, text, ""),
        };
        self.status == status
            && self.out.as_slice() == out.as_bytes()
            && self.err.as_slice() == err.as_bytes()
    }
}

/// The words of a line.
fn words_of(alloc: Global, line: &'static str) -> Result<Vec<&'static str>, AllocError> {
    if line.is_empty() {
        Ok(Vec::new(alloc))
    } else {
        line.split(' ').collect(alloc)
    }
}

fn run(alloc: Global, by: By, line: &'static str, files: &[File]) -> Result<Ran, AllocError> {
    let words = words_of(alloc, line)?;
    let clock = match by {
        By::Verify => Time::utc(2027, 1, 1, 0, 0, 0),
        By::Objects | By::WithoutClock => None,
    };
    let mut store = Files::new(files);
    let mut out = Counted::new(Vec::with_capacity(alloc, ROOM)?);
    let mut err = Counted::new(Vec::with_capacity(alloc, ROOM)?);
    let status = match by {
        By::Objects => command(alloc, &Objects, &words, &mut store, &mut out, &mut err),
        By::Verify | By::WithoutClock => {
            let system = Nowhere;
            verify(
                alloc, &words, clock, &mut store, &system, &mut out, &mut err,
            )
        }
    };
    Ok(Ran {
        status,
        out: out.inner,
        err: err.inner,
        reads: store.calls(),
    })
}

// Whether the program of a row answers it. That memory ran out before the answer is handed on,
// whatever is said of files before.
fn is_answered(alloc: Global, files: &[File], row: &Row) -> Result<bool, AllocError> {
    let ran = run(alloc, row.0, row.1, files)?;
    if ran.says(row.2) && ran.reads == row.3 {
        return Ok(true);
    }
    if ran.status == 3 {
        return Err(AllocError);
    }
    Ok(false)
}

/// How many rows are answered before the first that is not, or all.
pub fn answered(alloc: Global, files: &[File], rows: &[Row]) -> Result<usize, AllocError> {
    for (place, row) in rows.iter().enumerate() {
        if !is_answered(alloc, files, row)? {
            return Ok(place);
        }
    }
    Ok(rows.len())
}
