//! What a command answers, and how it is written.

ghost use Rattle.std.specs.Prelude.{◌≡◌, ◌≤◌, ◌⊎◌, [], OnOk, string_bytes};
ghost use Rattle.rpki_cli.specs.Answer.{run_of};
ghost use Rattle.rpki_program.specs.Verify.Report.{EndsAtFailure, IsCut, IsSaid};

use rpki_der::{Sink, SinkFailed};
use std::alloc::{AllocError, Global};

/// The status where words ask for nothing, and where a write failed.
pub const FAILED: u8 = 2;

/// The status where memory ran out.
pub const NO_MEMORY: u8 = 3;

/// The status where a file can't be read.
pub const UNREADABLE: u8 = 4;

/// What a command answers.
#[derive(Debug, Drop)]
pub struct Report {
    /// What is written on standard output.
    pub out: String,
    /// What is written on standard error, after it.
    pub err: String,
    /// The status that goes with it.
    pub status: u8,
}

impl Report {
    /// This on standard output.
    pub fn shown(alloc: Global, out: String, status: u8) -> Report
        ensures out { result.out ≡ out }
        ensures status { result.status ≡ status }
    {
        Report {
            out,
            err: String::new(alloc),
            status,
        }
    }

    /// This on standard error.
    pub fn complaint(alloc: Global, err: String, status: u8) -> Report
        ensures out { string_bytes result.out ≡ [] }
        ensures status { result.status ≡ status }
    {
        Report {
            out: String::new(alloc),
            err,
            status,
        }
    }
}

/// Writes a report: on standard output, and then, where that has taken all of it, on standard error;
/// or that memory ran out. Gives its status, or 2 where a write failed, after which nothing more is
/// written.
pub fn say<O: Sink, E: Sink>(report: Result<Report, AllocError>, out: &mut O, err: &mut E) -> u8
    ensures said { IsSaid report
        (run_of O.taken O.failures out.old out.new E.taken E.failures err.old err.new result) }
    ensures ends { EndsAtFailure
        (run_of O.taken O.failures out.old out.new E.taken E.failures err.old err.new result) }
{
    match report {
        Err(_) => write_no_memory(err),
        Ok(report) => match out.take_all(report.out.as_bytes()) {
            Err(SinkFailed) => FAILED,
            Ok(()) => match err.take_all(report.err.as_bytes()) {
                Err(SinkFailed) => FAILED,
                Ok(()) => report.status,
            },
        },
    }
}

/// The greater one of two statuses.
pub fn worse(status: u8, more: u8) -> u8
    ensures status { status ≤ result }
    ensures more { more ≤ result }
    ensures one { (result ≡ status) ⊎ (result ≡ more) }
{
    if status < more { more } else { status }
}

/// Writes that memory ran out on standard error, and gives the status.
pub fn write_no_memory<E: Sink>(err: &mut E) -> u8
    ensures cut { IsCut result }
    ensures failed { (E.failures err.new ≡ E.failures err.old) ⊎ (result ≡ FAILED) }
{
    complain(b"out of memory", "", "", NO_MEMORY, err)
}

/// Writes a line of three parts on standard error, and gives the status.
pub fn complain<E: Sink>(what: &[u8], name: &str, cause: &str, status: u8, err: &mut E) -> u8
    ensures status { (result ≡ status) ⊎ (result ≡ FAILED) }
    ensures failed { (E.failures err.new ≡ E.failures err.old) ⊎ (result ≡ FAILED) }
{
    match write_parts(what, name, cause, err) {
        Ok(()) => status,
        Err(SinkFailed) => FAILED,
    }
}

/// Writes a line of three parts.
fn write_parts<E: Sink>(what: &[u8], name: &str, cause: &str, err: &mut E) -> Result<(), SinkFailed>
    ensures { OnOk result (E.failures err.new ≡ E.failures err.old) }
{
    err.take_all(what)?;
    err.take_all(name.as_bytes())?;
    err.take_all(cause.as_bytes())?;
    err.take_all(b"\n")
}
