//! To check files, all on the grounds of one question: an entry a file, in their order, which is
//! written as soon as the file is judged.

pub mod cause;
mod entry;
pub(crate) mod hint;
pub mod json_line;
pub mod judged;

ghost use Rattle.std.specs.Prelude.{◌≡◌, ◌≤◌, ◌⊎◌, ◌++◌, IfOk, codes, false, true, string_bytes};
ghost use Rattle.rpki_cli.specs.Answer.{run_of};
ghost use Rattle.rpki_program.specs.Verify.Check.{AreNoLines, IsChecked, IsRunOver};
ghost use Rattle.rpki_program.specs.Verify.Check.{IsUngrounded};
ghost use Rattle.rpki_program.specs.Verify.Report.{EndsAtFailure, IsCut, IsLine};

use crate::verify::check::cause::{bad_input, issuer_cause, name_at, unread_report};
use crate::verify::check::entry::entry_of;
use crate::verify::check::judged::Basis;
use crate::verify::inputs::{question_of, read_inputs};
use crate::verify::kinds::kind_of_file;
use crate::verify::report::{FAILED, NO_MEMORY, Report, complain, say, worse, write_no_memory};
use crate::verify::request::CheckRequest;
use rpki_basics::Time;
use rpki_cli::Store;
use rpki_crls::Crl;
use rpki_der::{DecodeError, Sink, SinkFailed};
use rpki_validation::grounds::grounds_of;
use rpki_validation::question::Question;
use rpki_validation::refusal::{IssuerFault, Refusal};
use rpki_validation::revocation_list::{counts_among, counts_under};
use std::alloc::{AllocError, Global};

/// Checks files at this moment, and gives the status: 0 where each is good, 1 where one is not, or
/// the certificates make no issuer, 4 where one can't be read, 3 for want of memory, and 2 where
/// the locator or a list is none, or a write failed.
pub fn check<S: Store, O: Sink, E: Sink>(
    alloc: Global,
    request: &CheckRequest<'_>,
    moment: Time,
    store: &mut S,
    out: &mut O,
    err: &mut E,
) -> u8
    ensures checked { IsChecked (S.told store.old) request.now moment (O.taken out.old)
        (O.taken out.new) result }
    ensures ends { EndsAtFailure
        (run_of O.taken O.failures out.old out.new E.taken E.failures err.old err.new result) }
{
    match read_inputs(alloc, &request.under, store) {
        Err(unread) => say(unread_report(alloc, unread), out, err),
        Ok(inputs) => {
            let question = question_of(&inputs, moment, request.manner);
            match grounds_of(alloc, &question) {
                Err(refusal) => {
                    let report = refused(alloc, request, &question, &refusal);
                    drop(refusal);
                    say(report, out, err)
                }
                Ok(grounds) => {
                    let on = Basis {
                        question: &question,
                        grounds: &grounds,
                        files: &request.under,
                    };
                    let status = check_each(alloc, request, &on, &request.files, store, out);
                    noted(alloc, request, &on, status, err)
                }
            }
        }
    }
}

/// Writes the entries of files, and gives their status.
fn check_each<S: Store, O: Sink>(
    alloc: Global,
    request: &CheckRequest<'_>,
    on: &Basis<'_>,
    files: &[&str],
    store: &mut S,
    out: &mut O,
) -> u8
    ensures entries { IsRunOver (S.told store.old) request.now on.now.question.now
        on.now.grounds.now files.now (O.taken out.old) (O.taken out.new) result }
    ensures failed { (O.failures out.new ≡ O.failures out.old) ⊎ (result ≡ FAILED) }
{
    let mut status = 0;
    for i in 0..files.len() {
        match entry_of(alloc, request, on, files[i], store) {
            Err(_) => return NO_MEMORY,
            Ok(entry) => match out.take_all(entry.text.as_bytes()) {
                Err(SinkFailed) => return FAILED,
                Ok(()) => status = worse(status, entry.verdict.status()),
            },
        }
    }
    status
}

/// That a question has no grounds.
fn refused(
    alloc: Global,
    request: &CheckRequest<'_>,
    question: &Question<'_>,
    refusal: &Refusal,
) -> Result<Report, AllocError>
    ensures { IfOk result (λ r. IsUngrounded request.now refusal.now (string_bytes r.out) r.status) }
{
    if refusal.is_memory() {
        return Err(AllocError);
    }
    match refusal {
        Refusal::Issuer(fault) => {
            let text = unissued(alloc, request, question, fault)?;
            Ok(Report::shown(alloc, text, 1))
        }
        _ => bad_input(alloc, &request.under, refusal),
    }
}

/// Why certificates make no issuer: in a line, or in JSON in one for each file.
fn unissued(
    alloc: Global,
    request: &CheckRequest<'_>,
    question: &Question<'_>,
    fault: &IssuerFault,
) -> Result<String, AllocError>
    ensures { IfOk result (λ text. AreNoLines request.now.json request.now.files.items
        (string_bytes text)) }
{
    let cause = issuer_cause(alloc, question, &request.under, fault)?;
    if request.json {
        no_lines(alloc, request, &request.files, &cause)
    } else {
        line_of(alloc, &cause)
    }
}

/// A cause as a line.
fn line_of(alloc: Global, cause: &String) -> Result<String, AllocError>
    ensures { IfOk result (λ text. string_bytes text ≡ string_bytes cause.now ++ codes "\n") }
{
    format!(in alloc; "{cause}\n")
}

/// The lines of JSON of files that are not good for this cause.
fn no_lines(
    alloc: Global,
    request: &CheckRequest<'_>,
    files: &[&str],
    cause: &str,
) -> Result<String, AllocError>
    ensures { IfOk result (λ text. AreNoLines true files.now (string_bytes text)) }
{
    let mut text = String::new(alloc);
    for i in 0..files.len() {
        let line = no_line(alloc, request, files[i], cause)?;
        text.push_str(&line)?;
    }
    Ok(text)
}

/// The line of JSON of a file that is not good for this cause.
fn no_line(
    alloc: Global,
    request: &CheckRequest<'_>,
    name: &str,
    cause: &str,
) -> Result<String, AllocError>
    ensures { IfOk result (λ text. IsLine name.now false (string_bytes text)) }
{
    let word = match kind_of_file(request.kind, name) {
        Some(kind) => kind.word(),
        None => "",
    };
    json_line::no_line(alloc, name, word, cause)
}

/// Names the lists that count for none of the CAs, and gives the status.
fn noted<E: Sink>(
    alloc: Global,
    request: &CheckRequest<'_>,
    on: &Basis<'_>,
    status: u8,
    err: &mut E,
) -> u8
    ensures status { (result ≡ status) ⊎ IsCut result }
    ensures failed { (E.failures err.new ≡ E.failures err.old) ⊎ (result ≡ FAILED) }
    ensures silent { status ≡ FAILED → (err.new ≡ err.old) × (result ≡ FAILED) }
{
    if status == FAILED {
        return FAILED;
    }
    if status == NO_MEMORY {
        return write_no_memory(err);
    }
    let lists: &[Crl] = &on.grounds.lists;
    for i in 0..lists.len() {
        match counts(alloc, &lists[i], on.question) {
            Err(_) => return write_no_memory(err),
            Ok(true) => {}
            Ok(false) => {
                let name = name_at(&on.files.crls, i);
                if complain(b"no CA for list ", name, "", 0, err) != 0 {
                    return FAILED;
                }
            }
        }
    }
    status
}

/// Whether a list counts for one of the CAs of a question.
fn counts(alloc: Global, list: &Crl, question: &Question<'_>) -> Result<bool, DecodeError> {
    Ok(counts_under(alloc, list, question.anchor)? || counts_among(alloc, list, question.chain)?)
}
