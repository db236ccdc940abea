//! Where the program's files come from.

ghost use Rattle.std.specs.Prelude.{◌≡◌, ◌∷◌, ◌++◌, ℕ, List, [], Option, None, Some, Result, IfOk};
ghost use Rattle.rpki_cli.specs.Store.{IsRead, AreRead, reason_text, store_error_text, unread_text};
ghost use Rattle.rpki_cli.specs.Words.{texts};
ghost use Rattle.rpki_cli.specs.declared.store.Reason.{Reason};

use crate::answer::OUT_OF_MEMORY;
use crate::read_log::ReadLog;
use bytes::Bytes;
use std::alloc::Global;
use std::error::Error;
use std::io::Read;
use std::marker::Model;
use std::rt::Files;
use std::{fmt, fs, io};

/// That a file can't be read.
const UNREADABLE: &str = "unreadable file";

/// Why a file can't be read.
#[derive(Clone, Copy, Debug, PartialEq, Eq)]
pub enum Reason {
    /// There is no file of this name.
    NotFound,
    /// It may not be read.
    NotPermitted,
    /// It is a folder.
    Folder,
    /// The system tells none of these.
    Untold,
}

impl Reason {
    /// The reason as a text, which stands after the name of the file.
    pub fn text(self) -> &'static str
        ensures { result.now ≡ reason_text self }
    {
        match self {
            Reason::NotFound => ": no such file",
            Reason::NotPermitted => ": permission denied",
            Reason::Folder => ": is a folder",
            Reason::Untold => "",
        }
    }
}

/// Why a read of a file failed.
#[derive(Clone, Copy, Debug, PartialEq, Eq)]
pub enum StoreError {
    /// It can't be read, for this reason.
    Unreadable(Reason),
    /// No memory was to be had.
    Memory,
}

impl fmt::Display for StoreError {
    ghost output = { λ error. Some (store_error_text error) };

    fn fmt<W: fmt::Write>(&self, f: &mut fmt::Formatter<W>) -> fmt::Result {
        match self {
            StoreError::Unreadable(reason) => write!(f, "{UNREADABLE}{}", reason.text()),
            StoreError::Memory => f.write_str(OUT_OF_MEMORY),
        }
    }
}

impl Error for StoreError {}

/// Files by name.
pub trait Store {
    // What it tells of the file of a name: nothing, or why it can't be read, or its octets.
    ghost told: { Self → List ℕ → Option (Result (List ℕ) Reason) };

    // The names of the files that it was ever asked for, in the order of asking, each as often as
    // it was asked for.
    ghost reads: { Self → List (List ℕ) };

    /// The octets of the file with this name. Refuses by `Unreadable` where it can't be read, or by
    /// `Memory`.
    fn read(&mut self, alloc: Global, name: &str) -> Result<Bytes, StoreError>
        ensures answer { IsRead (told self.old name.now) result }
        ensures same { told self.new ≡ told self.old }
        ensures noted { reads self.new ≡ reads self.old ++ name.now ∷ [] };
}

/// Why a read of several files failed.
#[derive(Debug, Drop)]
pub enum Unread<'a> {
    /// This one can't be read, for this reason.
    Unreadable(&'a str, Reason),
    /// No memory was to be had.
    Memory,
}

impl fmt::Display for Unread<'_> {
    ghost output = { λ unread. Some (unread_text unread) };

    fn fmt<W: fmt::Write>(&self, f: &mut fmt::Formatter<W>) -> fmt::Result {
        match self {
            Unread::Unreadable(name, reason) => {
                write!(f, "{UNREADABLE} {name}{}", reason.text())
            }
            Unread::Memory => f.write_str(OUT_OF_MEMORY),
        }
    }
}

impl Error for Unread<'_> {}

/// The octets of the files with these names, which are read in their order, once each. The first
/// that can't be read is answered by its name, by `Unreadable`, and none is read after it. Where
/// memory runs out, the answer is `Memory`: the files up to one of them were read, this one too,
/// and none after one that the store tells to be unreadable.
pub fn read_all<'a, S: Store>(
    alloc: Global,
    names: &[&'a str],
    store: &mut S,
) -> Result<Vec<Bytes>, Unread<'a>>
    ensures answer { AreRead (S.told store.old) (texts names.now)
        (S.reads store.old) (S.reads store.new) result }
    ensures same { S.told store.new ≡ S.told store.old }
{
    let mut files = Vec::new(alloc);
    for name in names {
        match store.read(alloc, name) {
            Ok(octets) => {
                if files.push(octets).is_err() {
                    return Err(Unread::Memory);
                }
            }
            Err(StoreError::Unreadable(reason)) => return Err(Unread::Unreadable(name, reason)),
            Err(StoreError::Memory) => return Err(Unread::Memory),
        }
    }
    Ok(files)
}

/// The files of the system.
#[derive(Drop)]
pub struct SystemFiles<'a, R> {
    runtime: &'a R,
    reads: ReadLog,
}

impl<'a, R> Model for SystemFiles<'a, R> {
    ghost use Rattle.std.specs.Prelude.{ℕ, List};

    // The names of the files that were asked for, in the order of asking.
    ghost Value = { List (List ℕ) };

    ghost view = { λ d. d.reads.names };
}

impl<'a, R> SystemFiles<'a, R> {
    /// The files that this runtime reaches. This store was asked for none yet.
    pub fn new(runtime: &'a R) -> SystemFiles<'a, R>
        ensures { result ≡ [] }
    {
        SystemFiles {
            runtime,
            reads: ReadLog::empty(),
        }
    }
}

impl<R: Files + AllocGlobal> Store for SystemFiles<'_, R> {
    // Of the files of the system nothing is told.
    ghost told = { λ _ _. None };

    ghost reads = { λ d. d };

    fn read(&mut self, _alloc: Global, name: &str) -> Result<Bytes, StoreError> {
        self.reads = self.reads.and(name);
        match fs::read(self.runtime, name) {
            Ok(octets) => into_bytes(octets),
            Err(error) => Err(failure(error)),
        }
    }
}

/// Octets that were read, which each use shares from here on.
fn into_bytes(octets: Vec<u8>) -> Result<Bytes, StoreError>
    ensures { IfOk result (λ bytes. bytes ≡ octets.items) }
{
    match Bytes::from_vec(octets) {
        Ok(bytes) => Ok(bytes),
        Err(_) => Err(StoreError::Memory),
    }
}

/// Why a read failed.
fn failure(error: io::Error) -> StoreError {
    match error.kind() {
        io::ErrorKind::OutOfMemory => StoreError::Memory,
        io::ErrorKind::NotFound => StoreError::Unreadable(Reason::NotFound),
        io::ErrorKind::PermissionDenied => StoreError::Unreadable(Reason::NotPermitted),
        io::ErrorKind::IsADirectory => StoreError::Unreadable(Reason::Folder),
        _ => StoreError::Unreadable(Reason::Untold),
    }
}

/// The name of standard input among files (POSIX.1-2017, Base Definitions, section 12.2, Guideline
/// 13).
const INPUT: &str = "-";

/// The files of the system, and under the name `-` what is read of standard input. That is read to
/// its end, so a second read of it gives no octets.
#[derive(Drop)]
pub struct FilesAndInput<'a, R, I> {
    files: SystemFiles<'a, R>,
    input: I,
}

impl<'a, R, I> Model for FilesAndInput<'a, R, I> {
    ghost use Rattle.std.specs.Prelude.{ℕ, List};

    // The names of the files that were asked for, in the order of asking.
    ghost Value = { List (List ℕ) };

    ghost view = { λ d. d.files };
}

impl<'a, R, I> FilesAndInput<'a, R, I> {
    /// The files that this runtime reaches, and this input. This store was asked for none yet.
    pub fn new(runtime: &'a R, input: I) -> FilesAndInput<'a, R, I>
        ensures { result ≡ [] }
    {
        FilesAndInput {
            files: SystemFiles::new(runtime),
            input,
        }
    }
}

impl<R: Files + AllocGlobal, I: Read> Store for FilesAndInput<'_, R, I> {
    // Of the files of the system, and of standard input, nothing is told.
    ghost told = { λ _ _. None };

    ghost reads = { λ d. d };

    fn read(&mut self, alloc: Global, name: &str) -> Result<Bytes, StoreError> {
        if name != INPUT {
            return self.files.read(alloc, name);
        }
        self.files.reads = self.files.reads.and(name);
        let mut octets = Vec::new(alloc);
        match self.input.read_to_end(&mut octets) {
            Ok(_) => into_bytes(octets),
            Err(error) => Err(failure(error)),
        }
    }
}
