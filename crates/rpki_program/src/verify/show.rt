//! What files say.

ghost use Rattle.rpki_cli.specs.Answer.{run_of};
ghost use Rattle.rpki_program.specs.Verify.Report.{EndsAtFailure};

use crate::verify::check::json_line::{
    Members, members_of, no_line, object_line, options_of, put_named,
};
use crate::verify::kinds::kind_of_file;
use crate::verify::messages::{malformed, unreadable};
use crate::verify::report::{FAILED, UNREADABLE, worse, write_no_memory};
use crate::verify::request::{FileKind, ShowRequest};
use bytes::Bytes;
use rpki_cli::answer::Answer;
use rpki_cli::words::{Kind, Options};
use rpki_cli::{Causes, Store, StoreError};
use rpki_der::Sink;
use rpki_show::{Unshown, show_certificate, show_crl, show_tal, show_whole_object, show_whole_rta};
use std::alloc::{AllocError, Global};
use std::fmt::Write;

/// What there is to say of a file: its text, or why there is none.
#[derive(Drop)]
struct Said {
    text: String,
    status: u8,
}

/// Shows files: an entry for each, which is written as soon as its file is read. Gives the status: 0
/// where each is shown, 1 where one is not, 4 where one can't be read, 3 where memory ran out, and
/// 2 where a write failed.
pub fn show<S: Store, O: Sink, E: Sink>(
    alloc: Global,
    request: &ShowRequest<'_>,
    store: &mut S,
    out: &mut O,
    err: &mut E,
) -> u8
    ensures { EndsAtFailure
        (run_of O.taken O.failures out.old out.new E.taken E.failures err.old err.new result) }
{
    let mut status = 0;
    for file in &request.files {
        let Ok(said) = entry(alloc, request, file, store) else {
            return write_no_memory(err);
        };
        if out.take_all(said.text.as_bytes()).is_err() {
            return FAILED;
        }
        status = worse(status, said.status);
    }
    status
}

/// The entry of a file.
fn entry<S: Store>(
    alloc: Global,
    request: &ShowRequest<'_>,
    file: &str,
    store: &mut S,
) -> Result<Said, AllocError> {
    let Some(kind) = kind_of_file(request.kind, file) else {
        let why = "skipped: unknown kind of file: give --kind KIND";
        return unshown(alloc, request, file, "", why, 1);
    };
    match store.read(alloc, file) {
        Ok(octets) => shown(alloc, request, kind, file, octets),
        Err(StoreError::Memory) => Err(AllocError),
        Err(StoreError::Unreadable(reason)) => {
            let why = unreadable(alloc, reason)?;
            unshown(alloc, request, file, kind.word(), &why, UNREADABLE)
        }
    }
}

/// The entry of a file that is not shown, for this reason.
fn unshown(
    alloc: Global,
    request: &ShowRequest<'_>,
    file: &str,
    word: &str,
    why: &str,
    status: u8,
) -> Result<Said, AllocError> {
    let text = if request.json {
        no_line(alloc, file, word, why)?
    } else {
        let line = format!(in alloc; "{why}\n")?;
        named(alloc, request, file, line)?
    };
    Ok(Said { text, status })
}

/// The entry of a file in lines: among several, after its name and indented.
fn named(
    alloc: Global,
    request: &ShowRequest<'_>,
    file: &str,
    lines: String,
) -> Result<String, AllocError> {
    if request.files.len() == 1 {
        return Ok(lines);
    }
    let mut text = String::new(alloc);
    write!(text, "{file}: ")?;
    push_indented(&mut text, &lines)?;
    Ok(text)
}

/// Appends lines with two spaces before each but the first, and a line feed at the end.
fn push_indented(out: &mut String, lines: &str) -> Result<(), AllocError> {
    for (i, line) in lines.lines().enumerate() {
        if i > 0 {
            out.push_str("\n  ")?;
        }
        out.push_str(line)?;
    }
    out.push_str("\n")
}

/// The entry of a file of this kind with these octets.
fn shown(
    alloc: Global,
    request: &ShowRequest<'_>,
    kind: FileKind,
    file: &str,
    octets: Bytes,
) -> Result<Said, AllocError> {
    if request.json {
        json_of(alloc, request, kind, file, octets)
    } else {
        lines_of(alloc, request, kind, file, octets)
    }
}

/// The same in JSON.
fn json_of(
    alloc: Global,
    request: &ShowRequest<'_>,
    kind: FileKind,
    file: &str,
    octets: Bytes,
) -> Result<Said, AllocError> {
    match members_of(alloc, request.manner, kind, octets.clone()?) {
        Ok(members) => Ok(Said {
            text: shown_line(alloc, members, file, kind.word())?,
            status: 0,
        }),
        Err(Unshown::Memory) => Err(AllocError),
        Err(Unshown::Malformed(cause)) => {
            let why = malformed_by(alloc, &octets, &cause)?;
            unshown(alloc, request, file, kind.word(), &why, 1)
        }
    }
}

/// The same in lines.
fn lines_of(
    alloc: Global,
    request: &ShowRequest<'_>,
    kind: FileKind,
    file: &str,
    octets: Bytes,
) -> Result<Said, AllocError> {
    let copy = octets.clone()?;
    match answer_of(alloc, options_of(request.manner), kind, copy) {
        Answer::Shown(lines) => Ok(Said {
            text: named(alloc, request, file, lines)?,
            status: 0,
        }),
        Answer::Malformed => {
            let why = malformed(alloc, octets.as_slice())?;
            unshown(alloc, request, file, kind.word(), &why, 1)
        }
        Answer::MalformedBy(cause) => {
            let why = malformed_by(alloc, &octets, &cause)?;
            unshown(alloc, request, file, kind.word(), &why, 1)
        }
        // The others are not answers of a file.
        _ => Err(AllocError),
    }
}

/// Why octets are not read, by this cause, if it is known.
fn malformed_by(alloc: Global, octets: &Bytes, cause: &str) -> Result<String, AllocError> {
    if cause.is_empty() {
        malformed(alloc, octets.as_slice())
    } else {
        format!(in alloc; "malformed: {cause}")
    }
}

/// The line of an object with these members, and those that say its name and its type.
fn shown_line(
    alloc: Global,
    members: Members,
    file: &str,
    word: &str,
) -> Result<String, AllocError> {
    let mut members = members;
    match put_named(alloc, &mut members, file, word) {
        Ok(()) => object_line(alloc, members),
        Err(error) => {
            drop(members);
            Err(error)
        }
    }
}

/// The lines of a file of this kind, if its octets have any.
fn answer_of<'a>(alloc: Global, options: Options, kind: FileKind, octets: Bytes) -> Answer<'a> {
    let causes = Causes::Included;
    match kind {
        FileKind::Roa => show_whole_object(alloc, causes, options, Kind::Roa, octets),
        FileKind::Aspa => show_whole_object(alloc, causes, options, Kind::Aspa, octets),
        FileKind::Manifest => show_whole_object(alloc, causes, options, Kind::Manifest, octets),
        FileKind::Checklist => show_whole_object(alloc, causes, options, Kind::Rsc, octets),
        FileKind::Attestation => show_whole_rta(alloc, causes, octets),
        FileKind::Certificate => show_certificate(alloc, causes, octets),
        FileKind::RevocationList => show_crl(alloc, causes, octets),
        FileKind::Locator => show_tal(alloc, octets.as_slice()),
    }
}
