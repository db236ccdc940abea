//! The program as a function.

ghost use Rattle.std.specs.Prelude.{◌≡◌, [], IfOk, string_bytes};
ghost use Rattle.rpki_cli.specs.Answer.{run_of};
ghost use Rattle.rpki_cli.specs.Words.{texts};
ghost use Rattle.rpki_program.specs.Verify.Files.{IsFilesReport};
ghost use Rattle.rpki_program.specs.Verify.Payloads.{IsPayloadsReport, finds_for};
ghost use Rattle.rpki_program.specs.Verify.Report.{EndsAtFailure};
ghost use Rattle.rpki_program.specs.Verify.Rta.{IsRtaReport};
ghost use Rattle.rpki_program.specs.Verify.Run.{IsCheckedAt, IsDone, IsRun, IsStart, IsTimed};
ghost use Rattle.rpki_program.specs.Verify.Run.{reaching};

use crate::verify::check::check;
use crate::verify::copies::Watched;
use crate::verify::explain::explain;
use crate::verify::files::{files, no_folder};
use crate::verify::payloads::payloads;
use crate::verify::report::{FAILED, Report, complain, say, write_no_memory};
use crate::verify::request::{
    CheckRequest, ExplainRequest, FilesRequest, PayloadsRequest, Request, RtaRequest,
};
use crate::verify::rta::rta;
use crate::verify::show::show;
use crate::verify::system::System;
use crate::verify::usage::{VERSION, WrongWords, help, table};
use crate::verify::verdicts::{rta_verdicts, verdicts};
use crate::verify::words::parse;
use rpki_basics::Time;
use rpki_cli::{Arguments, Store, StoreError, WordsError, texts_of, words_of};
use rpki_der::Sink;
use rpki_relying_party::MAX_FILE;
use rpki_rsa::Rsa;
use std::alloc::{AllocError, Global};

/// Does what the arguments ask for, the first of which is the name of the program, as `command` does
/// it. Gives 2 where one of them is no text (UTF-8), and 3 where there is not memory enough for
/// them.
pub fn start<A: Arguments, S: Store, Y: System, O: Sink, E: Sink>(
    alloc: Global,
    arguments: &A,
    clock: Option<Time>,
    store: &mut S,
    system: &Y,
    out: &mut O,
    err: &mut E,
) -> u8
    ensures { IsStart (A.told arguments.now) (reaching (S.told store.old) clock (Y.named system.now)
        (Y.finds system.now))
        (run_of O.taken O.failures out.old out.new E.taken E.failures err.old err.new result) }
{
    match words_of(alloc, arguments) {
        Err(WordsError::Memory) => write_no_memory(err),
        Err(WordsError::NoText) => complain(
            b"rpki_verify: an argument is not UTF-8",
            "",
            "",
            FAILED,
            err,
        ),
        Ok(words) => match texts_of(alloc, &words) {
            Err(_) => write_no_memory(err),
            Ok(texts) => command(alloc, &texts, clock, store, system, out, err),
        },
    }
}

/// Does what the words ask for, which follow the name of the program, with the files of the store
/// and of the system, where the clock tells this moment, or none. Gives the exit status: 0 for a yes
/// and for what is shown, 1 for a no, 2 where the words ask for nothing, the clock tells no moment
/// or a write failed, 3 where memory ran out, and 4 where a file can't be read.
pub fn command<S: Store, Y: System, O: Sink, E: Sink>(
    alloc: Global,
    words: &[&str],
    clock: Option<Time>,
    store: &mut S,
    system: &Y,
    out: &mut O,
    err: &mut E,
) -> u8
    ensures { IsRun (reaching (S.told store.old) clock (Y.named system.now)
        (Y.finds system.now)) (texts words.now)
        (run_of O.taken O.failures out.old out.new E.taken E.failures err.old err.new result) }
{
    match parse(alloc, words) {
        Err(WrongWords::Memory) => write_no_memory(err),
        Err(WrongWords::Usage(text)) => say(Ok(Report::complaint(alloc, text, FAILED)), out, err),
        Ok(request) => run(alloc, request, clock, store, system, out, err),
    }
}

/// Does what is asked.
fn run<S: Store, Y: System, O: Sink, E: Sink>(
    alloc: Global,
    request: Request<'_>,
    clock: Option<Time>,
    store: &mut S,
    system: &Y,
    out: &mut O,
    err: &mut E,
) -> u8
    ensures done { IsDone (reaching (S.told store.old) clock (Y.named system.now)
        (Y.finds system.now)) request.entry
        (run_of O.taken O.failures out.old out.new E.taken E.failures err.old err.new result) }
    ensures ends { EndsAtFailure
        (run_of O.taken O.failures out.old out.new E.taken E.failures err.old err.new result) }
{
    match request {
        Request::Help(command) => say(text(alloc, help(alloc, command)), out, err),
        Request::Options => say(text(alloc, table(alloc)), out, err),
        Request::Version => say(text(alloc, String::from_str(alloc, VERSION)), out, err),
        Request::Check(request) => check_at(alloc, &request, clock, store, out, err),
        Request::Files(request) => say(files_at(alloc, &request, clock, store, system), out, err),
        Request::Rta(request) => say(rta_at(alloc, &request, clock, store), out, err),
        Request::Show(request) => show(alloc, &request, store, out, err),
        Request::Verdicts(request) => say(verdicts(alloc, &request, store), out, err),
        Request::RtaVerdicts(request) => say(rta_verdicts(alloc, &request, store), out, err),
        Request::Payloads(request) => {
            say(payloads_at(alloc, &request, clock, store, system), out, err)
        }
        Request::Explain(request) => {
            say(explain_at(alloc, &request, clock, store, system), out, err)
        }
    }
}

/// This text on standard output.
fn text(alloc: Global, text: Result<String, AllocError>) -> Result<Report, AllocError> {
    Ok(Report::shown(alloc, text?, 0))
}

/// That the clock tells no moment.
fn no_moment(alloc: Global) -> Result<Report, AllocError>
    ensures { IfOk result (λ r. (r.status ≡ 2) × (string_bytes r.out ≡ [])) }
{
    let err = String::from_str(alloc, "cannot read the clock\n")?;
    Ok(Report::complaint(alloc, err, FAILED))
}

/// Checks files at the moment of the request.
fn check_at<S: Store, O: Sink, E: Sink>(
    alloc: Global,
    request: &CheckRequest<'_>,
    clock: Option<Time>,
    store: &mut S,
    out: &mut O,
    err: &mut E,
) -> u8
    ensures done { IsCheckedAt (S.told store.old) clock request.now
        (run_of O.taken O.failures out.old out.new E.taken E.failures err.old err.new result) }
    ensures ends { EndsAtFailure
        (run_of O.taken O.failures out.old out.new E.taken E.failures err.old err.new result) }
{
    match request.at.moment(clock) {
        None => say(no_moment(alloc), out, err),
        Some(moment) => check(alloc, request, moment, store, out, err),
    }
}

/// The same of the files of a folder.
fn files_at<S: Store, Y: System>(
    alloc: Global,
    request: &FilesRequest<'_>,
    clock: Option<Time>,
    store: &mut S,
    system: &Y,
) -> Result<Report, AllocError>
    ensures { IfOk result (λ r. IsTimed clock request.now.at
        (λ now. IsFilesReport (S.told store.old) (Y.named system.now) request.now now)
        (string_bytes r.out) r.status) }
{
    match request.at.moment(clock) {
        None => no_moment(alloc),
        Some(moment) => files(alloc, request, moment, store, system),
    }
}

/// The same of an attestation.
fn rta_at<S: Store>(
    alloc: Global,
    request: &RtaRequest<'_>,
    clock: Option<Time>,
    store: &mut S,
) -> Result<Report, AllocError>
    ensures { IfOk result (λ r. IsTimed clock request.now.at
        (λ now. IsRtaReport (S.told store.old) request.now now) (string_bytes r.out) r.status) }
{
    match request.at.moment(clock) {
        None => no_moment(alloc),
        Some(moment) => rta(alloc, request, moment, store),
    }
}

/// Lists payloads at the moment of the request. Where a locator has no run, and the copy can't be
/// read as a folder, this is said first.
fn payloads_at<S: Store, Y: System>(
    alloc: Global,
    request: &PayloadsRequest<'_>,
    clock: Option<Time>,
    store: &mut S,
    system: &Y,
) -> Result<Report, AllocError>
    ensures { IfOk result (λ r. IsTimed clock request.now.at
        (λ now. IsPayloadsReport (S.told store.old) (finds_for (Y.finds system.now) request.now)
        request.now now) (string_bytes r.out) r.status) }
{
    let report = listed_at(alloc, request, clock, store, system)?;
    let Report {
        out,
        mut err,
        status,
    } = report;
    if status == 1 {
        err = after_copy(alloc, request.copy, err, system)?;
    }
    Ok(Report { out, err, status })
}

/// What standard error has, after that the copy can't be read as a folder, where it can't.
fn after_copy<Y: System>(
    alloc: Global,
    copy: &str,
    err: String,
    system: &Y,
) -> Result<String, AllocError> {
    match system.names(alloc, copy) {
        Err(StoreError::Memory) => Err(AllocError),
        Err(StoreError::Unreadable(reason)) => {
            let Report { err: mut text, .. } = no_folder(alloc, copy, reason)?;
            text.push_str(&err)?;
            Ok(text)
        }
        Ok(_) => Ok(err),
    }
}

/// Lists payloads at the moment of the request.
fn listed_at<S: Store, Y: System>(
    alloc: Global,
    request: &PayloadsRequest<'_>,
    clock: Option<Time>,
    store: &mut S,
    system: &Y,
) -> Result<Report, AllocError>
    ensures { IfOk result (λ r. IsTimed clock request.now.at
        (λ now. IsPayloadsReport (S.told store.old) (finds_for (Y.finds system.now) request.now)
        request.now now) (string_bytes r.out) r.status) }
{
    match request.at.moment(clock) {
        None => no_moment(alloc),
        Some(moment) => {
            let max_file = request.max_file.unwrap_or(MAX_FILE);
            let folders = Watched::new(system, max_file, request.verbose);
            payloads(alloc, request, moment, store, &folders)
        }
    }
}

/// Explains an object at the moment of the request.
fn explain_at<S: Store, Y: System>(
    alloc: Global,
    request: &ExplainRequest<'_>,
    clock: Option<Time>,
    store: &mut S,
    system: &Y,
) -> Result<Report, AllocError> {
    match request.at.moment(clock) {
        None => no_moment(alloc),
        Some(moment) => {
            let folders = Watched::new(system, MAX_FILE, false);
            explain(alloc, request, moment, store, &folders, &Rsa)
        }
    }
}
