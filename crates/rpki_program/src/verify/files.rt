//! To check a manifest or a checklist, and the files of a folder against it.

ghost use Rattle.std.specs.Prelude.{◌≡◌, ◌⊎◌, ℕ, [], IfOk, OnOk, false, map, string_bytes};
ghost use Rattle.rpki_validation.specs.Refusal.{is_memory};
ghost use Rattle.rpki_program.specs.Verify.Entry.{SaysRight};
ghost use Rattle.rpki_program.specs.Verify.Files.{AreHeld, IsFilesReport, IsFilesReportOn};
ghost use Rattle.rpki_program.specs.Verify.Files.{IsNo, IsNoAnswer, IsObjectReport, IsSaidOf};
ghost use Rattle.rpki_program.specs.Verify.Files.{IsUngrounded, checked, folder_of, listed};
ghost use Rattle.rpki_program.specs.Verify.Files.{named_of};
ghost use Rattle.rpki_program.specs.Verify.Kinds.{IsNameOf};
ghost use Rattle.rpki_program.specs.Verify.Report.{IsAnswer};
ghost use Rattle.rpki_program.specs.declared.verify.check.judged.Judged.TheVariants.{No};
ghost use Rattle.rpki_program.specs.declared.verify.request.FileKind.{FileKind as Kinds};
ghost use Rattle.rpki_program.specs.declared.verify.request.FileKind.TheVariants as kinds;

use crate::verify::check::cause::{bad_input, cause_of, issuer_cause, unread_report};
use crate::verify::check::hint::{Issuer, of_object};
use crate::verify::check::json_line::{no_line, state_line};
use crate::verify::folders::{Compared, Folder, Wanted, compare, push_unlisted};
use crate::verify::inputs::{question_of, read_inputs, read_one};
use crate::verify::kinds::kind_of_name;
use crate::verify::report::{FAILED, Report, UNREADABLE};
use crate::verify::request::{FileKind, FilesRequest};
use crate::verify::system::{FolderNames, System};
use bytes::Bytes;
use rpki_basics::Time;
use rpki_cli::{Reason, Store, StoreError, Unread};
use rpki_files::{ManifestContent, ResourceSignedChecklist};
use rpki_validation::grounds::{Grounds, grounds_of};
use rpki_validation::object::found_on;
use rpki_validation::question::Question;
use rpki_validation::refusal::Refusal;
use std::alloc::{AllocError, Global};
use std::fmt::Write;

/// Checks a manifest or a checklist at this moment, and the files of a folder against it. The status
/// is 0 where it is good and each file that it lists is held, 1 where it is not, or one is lacking,
/// or the certificates make no issuer, and 4 where a file can't be read. Refuses where memory runs
/// out. What it reads and holds is what `compare` says.
pub fn files<S: Store, Y: System>(
    alloc: Global,
    request: &FilesRequest<'_>,
    moment: Time,
    store: &mut S,
    system: &Y,
) -> Result<Report, AllocError>
    ensures { IfOk result (λ r. IsFilesReport (S.told store.old) (Y.named system.now) request.now
        moment (string_bytes r.out) r.status) }
{
    match read_inputs(alloc, &request.under, store) {
        Err(unread) => unread_report(alloc, unread),
        Ok(inputs) => {
            let question = question_of(&inputs, moment, request.manner);
            match grounds_of(alloc, &question) {
                Err(refusal) => {
                    let report = ungrounded(alloc, request, &question, &refusal);
                    drop(refusal);
                    report
                }
                Ok(grounds) => {
                    let report = read_object(alloc, request, &grounds, store, system);
                    drop(grounds);
                    report
                }
            }
        }
    }
}

/// That the question has no grounds.
fn ungrounded(
    alloc: Global,
    request: &FilesRequest<'_>,
    question: &Question<'_>,
    refusal: &Refusal,
) -> Result<Report, AllocError>
    ensures { IfOk result (λ r. IsUngrounded request.now refusal.now (string_bytes r.out)
        r.status) }
{
    if refusal.is_memory() {
        return Err(AllocError);
    }
    match refusal {
        Refusal::Issuer(fault) => {
            let cause = issuer_cause(alloc, question, &request.under, fault)?;
            not_good(alloc, request, "", cause)
        }
        _ => bad_input(alloc, &request.under, refusal),
    }
}

/// The same on these grounds: the object and the names of the folder are read.
fn read_object<S: Store, Y: System>(
    alloc: Global,
    request: &FilesRequest<'_>,
    grounds: &Grounds,
    store: &mut S,
    system: &Y,
) -> Result<Report, AllocError>
    ensures { IfOk result (λ r. IsFilesReportOn (S.told store.old) (Y.named system.now)
        request.now grounds.now (string_bytes r.out) r.status) }
{
    match read_one(alloc, request.object, store) {
        Err(unread) => unread_report(alloc, unread),
        Ok(octets) => match system.names(alloc, request.folder) {
            Err(StoreError::Memory) => Err(AllocError),
            Err(StoreError::Unreadable(reason)) => no_folder(alloc, request.folder, reason),
            Ok(found) => judge_object(alloc, request, grounds, &octets, &found, store),
        },
    }
}

/// That the folder of this name can't be read.
pub fn no_folder(alloc: Global, folder: &str, reason: Reason) -> Result<Report, AllocError>
    ensures { IfOk result (λ r. (r.status ≡ 4) × (string_bytes r.out ≡ [])) }
{
    if reason != Reason::NotFound {
        return unread_report(alloc, Unread::Unreadable(folder, reason));
    }
    let err = format!(in alloc; "no such folder: {folder}\n")?;
    Ok(Report::complaint(alloc, err, UNREADABLE))
}

/// The same of an object with these octets, in a folder with files of these names.
fn judge_object<S: Store>(
    alloc: Global,
    request: &FilesRequest<'_>,
    grounds: &Grounds,
    octets: &Bytes,
    found: &FolderNames,
    store: &mut S,
) -> Result<Report, AllocError>
    ensures { IfOk result (λ r. IsNoAnswer (string_bytes r.out) r.status
        ⊎ ((kind : Kinds) × IsNameOf request.now.object.now kind
        × IsObjectReport request.now grounds.now (folder_of (S.told store.old) request.now
        (map string_bytes found.now.names.items)) kind octets.now (string_bytes r.out) r.status)) }
{
    match kind_of_name(request.object) {
        Some(FileKind::Manifest) => manifest(alloc, request, grounds, octets, found, store),
        Some(FileKind::Checklist) => checklist(alloc, request, grounds, octets, found, store),
        _ => {
            let object = request.object;
            let err = format!(in alloc; "no manifest and no checklist: {object}\n")?;
            Ok(Report::complaint(alloc, err, FAILED))
        }
    }
}

/// The same of a manifest.
fn manifest<S: Store>(
    alloc: Global,
    request: &FilesRequest<'_>,
    grounds: &Grounds,
    octets: &Bytes,
    found: &FolderNames,
    store: &mut S,
) -> Result<Report, AllocError>
    ensures { IfOk result (λ r. IsObjectReport request.now grounds.now (folder_of
        (S.told store.old) request.now (map string_bytes found.now.names.items)) kinds.Manifest
        octets.now (string_bytes r.out) r.status) }
{
    match found_on::<ManifestContent>(alloc, octets, request.manner, grounds) {
        Err(refusal) => refused(alloc, request, grounds, octets, "manifest", refusal),
        Ok(manifest) => {
            let report = compared_manifest(alloc, request, &manifest, found, store);
            drop(manifest);
            report
        }
    }
}

/// What a folder has of the files of a good manifest.
fn compared_manifest<S: Store>(
    alloc: Global,
    request: &FilesRequest<'_>,
    manifest: &ManifestContent,
    found: &FolderNames,
    store: &mut S,
) -> Result<Report, AllocError>
    ensures { IfOk result (λ r. (compared : ℕ)
        × IsSaidOf request.now compared (string_bytes r.out) r.status
        × AreHeld (folder_of (S.told store.old) request.now
        (map string_bytes found.now.names.items)) (listed manifest.now) compared) }
{
    let wanted = files_of_manifest(alloc, manifest)?;
    let folder = Folder {
        path: request.folder,
        names: &found.names,
    };
    let mut compared = compare(alloc, folder, &wanted, store)?;
    push_unlisted(alloc, &mut compared.lines, folder, request.object, &wanted)?;
    push_no_texts(&mut compared.lines, found.no_texts)?;
    report(alloc, request, "manifest", &compared)
}

/// The same of a checklist.
fn checklist<S: Store>(
    alloc: Global,
    request: &FilesRequest<'_>,
    grounds: &Grounds,
    octets: &Bytes,
    found: &FolderNames,
    store: &mut S,
) -> Result<Report, AllocError>
    ensures { IfOk result (λ r. IsObjectReport request.now grounds.now (folder_of
        (S.told store.old) request.now (map string_bytes found.now.names.items)) kinds.Checklist
        octets.now (string_bytes r.out) r.status) }
{
    match found_on::<ResourceSignedChecklist>(alloc, octets, request.manner, grounds) {
        Err(refusal) => refused(alloc, request, grounds, octets, "rsc", refusal),
        Ok(checklist) => {
            let report = compared_checklist(alloc, request, &checklist, found, store);
            drop(checklist);
            report
        }
    }
}

/// What a folder has of the files of a good checklist.
fn compared_checklist<S: Store>(
    alloc: Global,
    request: &FilesRequest<'_>,
    checklist: &ResourceSignedChecklist,
    found: &FolderNames,
    store: &mut S,
) -> Result<Report, AllocError>
    ensures { IfOk result (λ r. (compared : ℕ)
        × IsSaidOf request.now compared (string_bytes r.out) r.status
        × AreHeld (folder_of (S.told store.old) request.now
        (map string_bytes found.now.names.items)) (checked checklist.now) compared) }
{
    let wanted = files_of_checklist(alloc, checklist)?;
    let folder = Folder {
        path: request.folder,
        names: &found.names,
    };
    let mut compared = compare(alloc, folder, &wanted, store)?;
    push_no_texts(&mut compared.lines, found.no_texts)?;
    report(alloc, request, "rsc", &compared)
}

/// The files that a manifest lists.
fn files_of_manifest(
    alloc: Global,
    manifest: &ManifestContent,
) -> Result<Vec<Wanted<'_>>, AllocError>
    ensures { IfOk result (λ w. map named_of w.items ≡ listed manifest.now) }
{
    let mut wanted = Vec::new(alloc);
    for file in manifest.iter() {
        wanted.push(Wanted {
            name: Some(file.file),
            hash: file.hash,
        })?;
    }
    Ok(wanted)
}

/// The files that a checklist lists.
fn files_of_checklist(
    alloc: Global,
    checklist: &ResourceSignedChecklist,
) -> Result<Vec<Wanted<'_>>, AllocError>
    ensures { IfOk result (λ w. map named_of w.items ≡ checked checklist.now) }
{
    let mut wanted = Vec::new(alloc);
    for file in checklist.iter() {
        wanted.push(Wanted {
            name: file.file_name,
            hash: file.hash,
        })?;
    }
    Ok(wanted)
}

/// That the object is refused.
fn refused(
    alloc: Global,
    request: &FilesRequest<'_>,
    grounds: &Grounds,
    octets: &Bytes,
    word: &str,
    refusal: Refusal,
) -> Result<Report, AllocError>
    ensures no { IfOk result (λ r. IsNo request.now (string_bytes r.out) r.status) }
    ensures memory { OnOk result (is_memory refusal ≡ false) }
{
    let cause = object_cause(alloc, request, grounds, octets, &refusal);
    drop(refusal);
    not_good(alloc, request, word, cause?)
}

/// Why the object is not good.
fn object_cause(
    alloc: Global,
    request: &FilesRequest<'_>,
    grounds: &Grounds,
    octets: &Bytes,
    refusal: &Refusal,
) -> Result<String, AllocError>
    ensures memory { OnOk result (is_memory refusal.now ≡ false) }
    ensures says { IfOk result (λ cause. SaysRight (No cause)) }
{
    let issuer = Issuer::on(grounds, &request.under);
    let hint = of_object(alloc, &issuer, request.manner, octets, refusal)?;
    cause_of(alloc, octets, &request.under.crls, refusal, &hint)
}

/// That there is no good object of this kind, for this cause.
fn not_good(
    alloc: Global,
    request: &FilesRequest<'_>,
    word: &str,
    cause: String,
) -> Result<Report, AllocError>
    requires { SaysRight (No cause) }
    ensures { IfOk result (λ r. IsNo request.now (string_bytes r.out) r.status) }
{
    let out = no_text(alloc, request, word, &cause)?;
    Ok(Report::shown(alloc, out, 1))
}

/// The same as a text.
fn no_text(
    alloc: Global,
    request: &FilesRequest<'_>,
    word: &str,
    cause: &String,
) -> Result<String, AllocError>
    requires { SaysRight (No cause.now) }
    ensures { IfOk result (λ text. IsAnswer request.now.json request.now.object.now false
        (string_bytes text)) }
{
    if request.json {
        no_line(alloc, request.object, word, cause)
    } else {
        format!(in alloc; "{cause}\n")
    }
}

/// What a folder has of the files of a good object of this kind.
fn report(
    alloc: Global,
    request: &FilesRequest<'_>,
    word: &str,
    compared: &Compared,
) -> Result<Report, AllocError>
    ensures { IfOk result (λ r. IsSaidOf request.now compared.now.status
        (string_bytes r.out) r.status) }
{
    let lines = &compared.lines;
    let all = compared.status == 0;
    let out = if request.json {
        state_line(alloc, request.object, word, all, lines)?
    } else if all {
        format!(in alloc; "yes\n{word}\n{lines}")?
    } else {
        format!(in alloc; "no\n{word}\n{lines}")?
    };
    Ok(Report::shown(alloc, out, compared.status))
}

/// Appends how many files of a folder have a name that is no text, if some have.
fn push_no_texts(text: &mut String, count: u64) -> Result<(), AllocError> {
    match count {
        0 => Ok(()),
        _ => write!(
            text,
            "files not read, since their names are not UTF-8: {count}\n"
        ),
    }
}
