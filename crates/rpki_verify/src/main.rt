//! Checks signed objects of the RPKI by their signatures, and lists the payloads of a copy of its
//! repositories.
#![tactic(auto)]

use rpki_cli::clock::now;
use rpki_cli::{FilesAndInput, ProcessArguments, Reason, StoreError};
use rpki_der::Counted;
use rpki_program::verify::run::start;
use rpki_program::verify::system::{FolderNames, System};
use rpki_relying_party::{Fetched, Folders, SystemFolders};
use std::alloc::{AllocError, Global};
use std::fs::read_dir;
use std::io::ErrorKind;
use std::process::ExitCode;

/// The folders of the system, and standard error.
#[derive(Drop)]
struct Host<'a> {
    runtime: &'a HostRuntime,
}

impl System for Host<'_> {
    ghost use Rattle.std.specs.Prelude.{IfOk};
    ghost use Rattle.rpki_relying_party.specs.Folders.{HasFewParts};

    ghost named = { λ _ _ _. Unit {0} };

    // What the folders of the system may find.
    ghost finds = { λ _ _ name found. IfOk found (λ _. HasFewParts name) };

    fn names(&self, alloc: Global, folder: &str) -> Result<FolderNames, StoreError> {
        names_of(alloc, self.runtime, folder)
    }

    fn read(
        &self,
        alloc: Global,
        folder: &str,
        name: &[u8],
        max_file: u64,
        most: u64,
    ) -> Result<Fetched, AllocError> {
        let runtime = self.runtime;
        SystemFolders { runtime, max_file }.read(alloc, folder, name, most)
    }

    fn tell(&self, files: u64) {
        // Where it can't be written, the progress is not told.
        let _ = eprintln!(self.runtime; "rpki_verify: looked for {files} files");
    }
}

/// The names of what is in a folder, but for folders. Those that are no text (UTF-8) are counted.
fn names_of(alloc: Global, runtime: &HostRuntime, folder: &str) -> Result<FolderNames, StoreError> {
    let entries = match read_dir(runtime, folder) {
        Ok(entries) => entries,
        Err(error) => return Err(unread_for(error.kind())),
    };
    let mut names = Vec::new(alloc);
    let mut no_texts = 0_u64;
    for entry in entries {
        match entry {
            Err(error) => {
                if error.kind() != ErrorKind::InvalidFilename {
                    return Err(unread_for(error.kind()));
                }
                no_texts = no_texts.saturating_add(1);
            }
            Ok(entry) => {
                if !entry.file_type().is_ok_and(|kind| kind.is_dir()) {
                    push_name(alloc, &mut names, entry.file_name())?;
                }
            }
        }
    }
    Ok(FolderNames { names, no_texts })
}

/// Why a folder can't be read.
fn unread_for(kind: ErrorKind) -> StoreError {
    match kind {
        ErrorKind::OutOfMemory => StoreError::Memory,
        ErrorKind::NotFound => StoreError::Unreadable(Reason::NotFound),
        ErrorKind::PermissionDenied => StoreError::Unreadable(Reason::NotPermitted),
        _ => StoreError::Unreadable(Reason::Untold),
    }
}

/// Appends a name.
fn push_name(alloc: Global, names: &mut Vec<String>, name: &str) -> Result<(), StoreError> {
    let Ok(name) = String::from_str(alloc, name) else {
        return Err(StoreError::Memory);
    };
    match names.push(name) {
        Ok(()) => Ok(()),
        Err(_) => Err(StoreError::Memory),
    }
}

fn main(rt: HostRuntime) -> ExitCode {
    let host = Host { runtime: &rt };
    ExitCode::from(start(
        rt.alloc(),
        &ProcessArguments::new(&rt),
        now(&rt),
        &mut FilesAndInput::new(&rt, rt.stdin()),
        &host,
        &mut Counted::new(rt.stdout()),
        &mut Counted::new(rt.stderr()),
    ))
}
