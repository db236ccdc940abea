//! To list the payloads under locators, as a copy of the repositories has them.

ghost use Rattle.std.specs.Prelude.{◌≡◌, [], IfErr, IfOk, string_bytes};
ghost use Rattle.rpki_cli.specs.Words.{texts};
ghost use Rattle.rpki_program.specs.Verify.Payloads.{AreExceptions, AreNamedFiles};
ghost use Rattle.rpki_program.specs.Verify.Payloads.{IsPayloadsReport};
ghost use Rattle.rpki_program.specs.Verify.Payloads.{IsReportAfter, IsPayloadsOf};
ghost use Rattle.rpki_program.specs.Verify.Report.{IsStopped};

use crate::verify::check::cause::{bad_locator, name_at, unread_report};
use crate::verify::inputs::{read_each, read_one};
use crate::verify::places::push_places;
use crate::verify::report::{FAILED, Report};
use crate::verify::request::PayloadsRequest;
use bytes::Bytes;
use rpki_basics::Time;
use rpki_cli::{Store, Unread};
use rpki_payloads::slurm::{Exceptions, SlurmError, are_apart, read_exceptions};
use rpki_payloads::{
    FolderParty, LocatorFault, MOST_WORK, NamedLocator, PayloadsReport, locators_in,
    report_payloads,
};
use rpki_relying_party::Folders;
use rpki_rsa::Rsa;
use std::alloc::{AllocError, Global};

/// Lists the payloads under locators at this moment, as these folders have them, after the local
/// exceptions of files. The status is 0 where each locator has a run, 3 where one has none for want
/// of memory, and else 1; 2 where a file is no locator or no file of exceptions, or two of these
/// speak of the same, and 4 where one can't be read. Refuses where memory runs out.
pub fn payloads<S: Store, F: Folders>(
    alloc: Global,
    request: &PayloadsRequest<'_>,
    moment: Time,
    store: &mut S,
    folders: &F,
) -> Result<Report, AllocError>
    ensures { IfOk result (λ r. IsPayloadsReport (S.told store.old) (F.finds folders.now)
        request.now moment (string_bytes r.out) r.status) }
{
    match read_named(alloc, &request.tals, store) {
        Err(unread) => unread_report(alloc, unread),
        Ok(files) => match locators_in(alloc, &files) {
            Err(LocatorFault::Memory) => Err(AllocError),
            Err(LocatorFault::Bad(name)) => bad_locator(alloc, name),
            Ok(locators) => {
                let report = report_under(alloc, request, moment, &locators, store, folders);
                drop(locators);
                report
            }
        },
    }
}

/// The files of these names.
fn read_named<'a, S: Store>(
    alloc: Global,
    names: &[&'a str],
    store: &mut S,
) -> Result<Vec<(&'a str, Bytes)>, Unread<'a>>
    ensures told { IfOk result (λ files. AreNamedFiles (S.told store.old) names.now files.items) }
    ensures same { S.told store.new ≡ S.told store.old }
{
    let mut files = Vec::new(alloc);
    for i in 0..names.len() {
        let octets = read_one(alloc, names[i], store)?;
        match files.push((names[i], octets)) {
            Ok(()) => {}
            Err(_) => return Err(Unread::Memory),
        }
    }
    Ok(files)
}

/// The same under these locators.
fn report_under<S: Store, F: Folders>(
    alloc: Global,
    request: &PayloadsRequest<'_>,
    moment: Time,
    locators: &[NamedLocator<'_>],
    store: &mut S,
    folders: &F,
) -> Result<Report, AllocError>
    ensures { IfOk result (λ r. IsReportAfter (S.told store.old) (F.finds folders.now)
        request.now moment locators.now (string_bytes r.out) r.status) }
{
    match exceptions_of(alloc, &request.slurm, store)? {
        Err(report) => Ok(report),
        Ok(exceptions) => {
            let report = report_after(alloc, request, moment, locators, &exceptions, folders);
            drop(exceptions);
            report
        }
    }
}

/// The same after these exceptions.
fn report_after<F: Folders>(
    alloc: Global,
    request: &PayloadsRequest<'_>,
    moment: Time,
    locators: &[NamedLocator<'_>],
    exceptions: &[Exceptions],
    folders: &F,
) -> Result<Report, AllocError>
    ensures { IfOk result (λ r. IsPayloadsOf (F.finds folders.now) request.now moment locators.now
        exceptions.now (string_bytes r.out) r.status) }
{
    let party = FolderParty {
        folders,
        crypto: &Rsa,
        copy: request.copy,
        moment,
        providers: request.providers,
        limit: request.limit.unwrap_or(MOST_WORK),
    };
    let report = report_payloads(alloc, &party, locators, request.format, exceptions)?;
    let PayloadsReport {
        out,
        mut err,
        status,
    } = report;
    if status == 1 {
        push_places(alloc, &mut err, request.copy, locators, folders)?;
    }
    Ok(Report { out, err, status })
}

/// The local exceptions in the files of these names, no two of which speak of the same; or the
/// report where there are none.
fn exceptions_of<S: Store>(
    alloc: Global,
    names: &[&str],
    store: &mut S,
) -> Result<Result<Vec<Exceptions>, Report>, AllocError>
    ensures exceptions { IfOk result (λ made. IfOk made
        (λ e. AreExceptions (S.told store.old) (texts names.now) e.items)) }
    ensures none { IfOk result (λ made. IfErr made (λ r.
        IsStopped r.status × (string_bytes r.out ≡ []))) }
{
    match read_each(alloc, names, store) {
        Err(unread) => Ok(Err(unread_report(alloc, unread)?)),
        Ok(files) => {
            let mut exceptions = Vec::new(alloc);
            for i in 0..files.len() {
                match read_exceptions(alloc, &files[i]) {
                    Err(error) => return Ok(Err(bad(alloc, name_at(names, i), error)?)),
                    Ok(one) => exceptions.push(one)?,
                }
            }
            if are_apart(&exceptions) {
                Ok(Ok(exceptions))
            } else {
                Ok(Err(overlapping(alloc)?))
            }
        }
    }
}

/// That the file of this name has no local exceptions.
fn bad(alloc: Global, name: &str, error: SlurmError) -> Result<Report, AllocError>
    ensures { IfOk result (λ r. (r.status ≡ 2) × (string_bytes r.out ≡ [])) }
{
    if is_memory(&error) {
        return Err(AllocError);
    }
    let err = format!(in alloc; "bad exceptions {name}: {error}\n")?;
    Ok(Report::complaint(alloc, err, FAILED))
}

/// Whether it is want of memory.
fn is_memory(error: &SlurmError) -> bool {
    match error {
        SlurmError::Text(error) => error.is_memory(),
        SlurmError::Misfit(_) => false,
    }
}

/// That files of exceptions speak of the same (RFC 8416, section 4.2).
fn overlapping(alloc: Global) -> Result<Report, AllocError>
    ensures { IfOk result (λ r. (r.status ≡ 2) × (string_bytes r.out ≡ [])) }
{
    let err = String::from_str(
        alloc,
        "two --slurm files have entries for the same addresses or AS\n",
    )?;
    Ok(Report::complaint(alloc, err, FAILED))
}
