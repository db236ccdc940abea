//! The entry of a file among those of a check.

ghost use Rattle.std.specs.Prelude.{◌≡◌, IfOk, string_bytes};
ghost use Rattle.rpki_show.specs.Grows.{Grows};
ghost use Rattle.rpki_program.specs.Verify.Entry.{HasEntry, IsEntry, IsText, entry_text, indented};
ghost use Rattle.rpki_program.specs.Verify.Entry.{is_several, said_of, status_of, verdict_of};
ghost use Rattle.rpki_program.specs.declared.verify.check.judged.Judged.TheVariants.{No};

use crate::verify::check::json_line::{line_of, no_line};
use crate::verify::check::judged::{Basis, Judged, judge};
use crate::verify::kinds::kind_of_file;
use crate::verify::messages::unreadable;
use crate::verify::request::{CheckRequest, FileKind};
use bytes::Bytes;
use rpki_cli::{Store, StoreError};
use std::alloc::{AllocError, Global};
use std::fmt::Write;

/// What became of a file.
#[derive(Clone, Copy, Debug, PartialEq, Eq)]
pub enum Verdict {
    /// It is good.
    Yes,
    /// It is not.
    No,
    /// It is of no kind that is checked.
    Skipped,
    /// It can't be read.
    Unreadable,
}

/// The entry of a file.
#[derive(Debug, Drop)]
pub struct Entry {
    pub text: String,
    pub verdict: Verdict,
}

impl Verdict {
    /// The status of a run with this one alone.
    pub fn status(self) -> u8
        ensures { result ≡ status_of self }
    {
        match self {
            Verdict::Yes => 0,
            Verdict::No => 1,
            Verdict::Skipped => 1,
            Verdict::Unreadable => 4,
        }
    }
}

/// What a file comes to of which this is said.
fn verdict_of(judged: &Judged) -> Verdict
    ensures { result ≡ verdict_of judged.now }
{
    match judged {
        Judged::Yes(_) => Verdict::Yes,
        Judged::No(_) => Verdict::No,
    }
}

/// The entry of the file of this name.
pub fn entry_of<S: Store>(
    alloc: Global,
    request: &CheckRequest<'_>,
    on: &Basis<'_>,
    name: &str,
    store: &mut S,
) -> Result<Entry, AllocError>
    ensures entry { IfOk result (λ e. IsEntry (S.told store.old) request.now on.now.question.now
        on.now.grounds.now name.now e) }
    ensures same { S.told store.new ≡ S.told store.old }
{
    match kind_of_file(request.kind, name) {
        None => {
            let why = String::from_str(alloc, "skipped: no kind that is checked")?;
            denied(alloc, request, name, "", why, Verdict::Skipped)
        }
        Some(kind) => match store.read(alloc, name) {
            Err(StoreError::Memory) => Err(AllocError),
            Err(StoreError::Unreadable(reason)) => {
                let why = unreadable(alloc, reason)?;
                denied(alloc, request, name, kind.word(), why, Verdict::Unreadable)
            }
            Ok(octets) => judged_entry(alloc, request, on, name, kind, &octets),
        },
    }
}

/// The entry of the file of this name, which has this verdict for this cause.
fn denied(
    alloc: Global,
    request: &CheckRequest<'_>,
    name: &str,
    word: &str,
    cause: String,
    verdict: Verdict,
) -> Result<Entry, AllocError>
    ensures text { IfOk result (λ e. IsText request.now.json (is_several request.now) name.now
        (No cause) (string_bytes e.text)) }
    ensures verdict { IfOk result (λ e. e.verdict ≡ verdict) }
{
    let text = if request.json {
        no_line(alloc, name, word, &cause)?
    } else {
        lines_of(alloc, request, name, &Judged::No(cause))?
    };
    Ok(Entry { text, verdict })
}

/// The entry of the file of this name and kind, which has these octets.
fn judged_entry(
    alloc: Global,
    request: &CheckRequest<'_>,
    on: &Basis<'_>,
    name: &str,
    kind: FileKind,
    octets: &Bytes,
) -> Result<Entry, AllocError>
    ensures { IfOk result (λ e. HasEntry request.now on.now.question.now on.now.grounds.now name.now
        kind octets.now e) }
{
    let judged = judge(alloc, on, kind, octets)?;
    let text = text_of(alloc, request, name, kind, octets, &judged)?;
    Ok(Entry {
        text,
        verdict: verdict_of(&judged),
    })
}

/// The entry of the file of this name and kind, with these octets, of which this is said, as a text.
fn text_of(
    alloc: Global,
    request: &CheckRequest<'_>,
    name: &str,
    kind: FileKind,
    octets: &Bytes,
    judged: &Judged,
) -> Result<String, AllocError>
    ensures { IfOk result (λ text. IsText request.now.json (is_several request.now) name.now
        judged.now (string_bytes text)) }
{
    if request.json {
        line_of(alloc, request.manner, name, kind, octets, judged)
    } else {
        lines_of(alloc, request, name, judged)
    }
}

/// The entry of the file of this name, of which this is said, in lines.
fn lines_of(
    alloc: Global,
    request: &CheckRequest<'_>,
    name: &str,
    judged: &Judged,
) -> Result<String, AllocError>
    ensures { IfOk result (λ text. string_bytes text ≡ entry_text (is_several request.now) name.now
        judged.now) }
{
    let said = said_of(alloc, judged)?;
    if request.files.len() == 1 {
        return Ok(said);
    }
    let mut text = String::new(alloc);
    write!(text, "{name}: ")?;
    push_indented(&mut text, &said)?;
    Ok(text)
}

/// What is said of a file, in lines.
fn said_of(alloc: Global, judged: &Judged) -> Result<String, AllocError>
    ensures { IfOk result (λ text. string_bytes text ≡ said_of judged.now) }
{
    match judged {
        Judged::Yes(lines) => format!(in alloc; "yes\n{lines}"),
        Judged::No(cause) => format!(in alloc; "{cause}\n"),
    }
}

/// Appends a text with two spaces after each line feed but one at its end.
fn push_indented(text: &mut String, lines: &str) -> Result<(), AllocError>
    ensures { Grows result text.old text.new (indented lines.now) }
{
    let mut rest = lines;
    while let Some((line, others)) = rest.split_once('\n') {
        text.push_str(line)?;
        text.push_str("\n")?;
        if !others.is_empty() {
            text.push_str("  ")?;
        }
        rest = others;
    }
    text.push_str(rest)
}
