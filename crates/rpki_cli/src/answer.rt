//! What the programs answer, and how they say it.

ghost use Rattle.std.specs.Prelude.{◌≡◌, ◌+◌, ◌++◌, OnOk, OnErr, codes};
ghost use Rattle.std.specs.Io.KnownBytes.{Appends};
ghost use Rattle.rpki_der.specs.Write.Sink.{AppendsFront};
ghost use Rattle.rpki_cli.specs.Answer.{Writes, IsSaid, run_of, said};

use rpki_der::{Sink, SinkFailed};

/// That no memory was to be had.
pub const OUT_OF_MEMORY: &str = "out of memory";

/// That a file is not, or does not begin with, what was asked for.
const MALFORMED: &[u8] = b"malformed";

/// What stands before the cause for which certificates make no issuer.
const ISSUER_REFUSED: &[u8] = b"issuer refused: ";

/// The exit status where lines are shown.
const SHOWN: u8 = 0;

/// The exit status where nothing of what was asked for is to be shown.
const REFUSED: u8 = 1;

/// The exit status of wrong words, of a file that can't be used, and of a write that failed.
const FAILED: u8 = 2;

/// The exit status where memory ran out.
const NO_MEMORY: u8 = 3;

/// What a program answers.
#[derive(Drop)]
pub enum Answer<'a> {
    /// The words are those of no order, or of one that is not built.
    Usage,
    /// This file can't be read.
    CannotRead(&'a str),
    /// A file is no list of verdicts.
    BadVerdicts,
    /// No memory was to be had.
    OutOfMemory,
    /// The file is not, or does not begin with, what was asked for.
    Malformed,
    /// The same, for this cause.
    MalformedBy(String),
    /// The object is refused, for this cause.
    Refused(String),
    /// The certificates make no issuer: one of them is not read.
    IssuerMalformed,
    /// The certificates make no issuer, for this cause.
    IssuerRefused(String),
    /// These lines.
    Shown(String),
}

/// Says the answer on one of the two sinks, and gives the exit status, which is 2 where the sink
/// fails.
pub fn say<O: Sink, E: Sink>(answer: &Answer<'_>, out: &mut O, err: &mut E) -> u8
    ensures { IsSaid (said answer.now)
        (run_of O.taken O.failures out.old out.new E.taken E.failures err.old err.new result) }
{
    match answer {
        Answer::Usage => write(b"usage\n", FAILED, err),
        Answer::CannotRead(file) => write_line(b"cannot read ", file.as_bytes(), FAILED, err),
        Answer::BadVerdicts => write(b"bad verdicts\n", FAILED, err),
        Answer::OutOfMemory => write_line(OUT_OF_MEMORY.as_bytes(), b"", NO_MEMORY, err),
        Answer::Malformed => write_line(MALFORMED, b"", REFUSED, out),
        Answer::MalformedBy(cause) => { write_line(b"malformed: ", cause.as_bytes(), REFUSED, out) }
        Answer::Refused(cause) => write_line(b"refused: ", cause.as_bytes(), REFUSED, out),
        Answer::IssuerMalformed => write_line(ISSUER_REFUSED, MALFORMED, REFUSED, out),
        Answer::IssuerRefused(cause) => {
            write_line(ISSUER_REFUSED, cause.as_bytes(), REFUSED, out)
        }
        Answer::Shown(text) => write(text.as_bytes(), SHOWN, out),
    }
}

/// Writes the octets, and gives the status, or 2 where the sink fails.
fn write<W: Sink>(octets: &[u8], status: u8, sink: &mut W) -> u8
    ensures { Writes octets.now status (W.taken sink.old, W.failures sink.old)
        (W.taken sink.new, W.failures sink.new) result }
{
    match sink.take_all(octets) {
        Ok(()) => status,
        Err(SinkFailed) => FAILED,
    }
}

/// Writes a line of two parts, and gives the status, or 2 where the sink fails.
fn write_line<W: Sink>(first: &[u8], second: &[u8], status: u8, sink: &mut W) -> u8
    ensures { Writes (first.now ++ (second.now ++ codes "\n")) status
        (W.taken sink.old, W.failures sink.old) (W.taken sink.new, W.failures sink.new) result }
{
    match write_parts(first, second, b"\n", sink) {
        Ok(()) => status,
        Err(SinkFailed) => FAILED,
    }
}

/// Writes three parts, one after the other.
fn write_parts<W: Sink>(
    first: &[u8],
    second: &[u8],
    third: &[u8],
    sink: &mut W,
) -> Result<(), SinkFailed>
    ensures ok { OnOk result
        (Appends (W.taken sink.old) (W.taken sink.new) (first.now ++ (second.now ++ third.now))) }
    ensures begun { OnErr result
        (AppendsFront (W.taken sink.old) (W.taken sink.new)
        (first.now ++ (second.now ++ third.now))) }
    ensures same { OnOk result (W.failures sink.new ≡ W.failures sink.old) }
    ensures failed { OnErr result (W.failures sink.new ≡ W.failures sink.old + 1) }
{
    sink.take_all(first)?;
    sink.take_all(second)?;
    sink.take_all(third)
}
