//! The folders of the system.

ghost use Rattle.std.specs.Prelude.{◌≡◌, ◌≢◌, ◌≤◌, ◌↔◌, ◌⊎◌, IfOk, IfSome, OnOk, IfErr, MatchResult};
ghost use Rattle.std.specs.Prelude.{IsTrue, length, min};
ghost use Rattle.std.specs.Fs.{file_type, IsDir};
ghost use Rattle.std.specs.List.{slice_split};
ghost use Rattle.std.specs.String.{string_bytes};
ghost use Rattle.rpki_relying_party.specs.declared.copy.NoFile.TheVariants.{Missing};
ghost use Rattle.rpki_relying_party.specs.declared.folder.system.Lack.{Lack as Lacks};
ghost use Rattle.rpki_relying_party.specs.Folders.{HasFewParts, IsFew, IsReadable, MayLack};
ghost use Rattle.rpki_relying_party.specs.Folders.{WhyMany, WhyNoFolder, WhyUnread, path_below};
ghost use Rattle.rpki_relying_party.specs.Names.{is_slash};

use super::Folders;
use crate::copy::{Fetched, NoFile};
use bytes::Bytes;
use std::alloc::{AllocError, Global};
use std::fs::{Metadata, OpenFile, OpenOptions};
use std::io::{ErrorKind, Read};
use std::rt::Files;
use std::{fs, io, str};

/// How many octets a file may have, if nothing else is said.
pub const MAX_FILE: u64 = 20_000_000;

/// How many parts a name may have, with a slash between each two. The system goes through all parts
/// before one to look at it, so that its work grows with the square of their number. The bound is
/// this project's own rule.
pub const MAX_PARTS: usize = 64;

/// The folders of the system. A file is a regular one of at most so many octets: its type and its
/// size are checked before it is opened, and nothing else is opened, nor a file of more octets than
/// are asked for. No symbolic link below the folder is followed; the folder itself may be reached
/// by some.
///
/// The work of a read is in proportion to the octets of the file, and each part of the name is one
/// question to the system. A name that is no UTF-8, or that has more than `MAX_PARTS` parts, is that
/// of no file.
///
/// Someone who may write to the folder while it is read can put something else in the place of a
/// file after it was checked and before it is opened, such as a link, which is followed then, or a
/// named pipe, which the system waits for. Once open, a file is checked again, and one octet is
/// read at most beyond what it may have and what is asked for.
#[derive(Drop)]
pub struct SystemFolders<'a, R> {
    /// What reaches the system.
    pub runtime: &'a R,
    /// How many octets a file may have.
    pub max_file: u64,
}

// How many octets a file may have, and how many are asked for.
#[derive(Clone, Copy)]
struct Bounds {
    max_file: u64,
    most: u64,
}

// Why there are no octets.
#[derive(Drop)]
enum Lack {
    NoFile(NoFile),
    // The file has more than are asked for.
    Larger,
    Memory,
}

impl From<AllocError> for Lack {
    ghost use Rattle.std.specs.Prelude.{◌≡◌};
    ghost use Rattle.rpki_relying_party.specs.declared.folder.system.Lack.{Lack as Lacks};

    ghost from_gives = { λ _ lack. lack ≡ Lacks.Memory };

    fn from(_: AllocError) -> Lack {
        Lack::Memory
    }
}

impl From<NoFile> for Lack {
    ghost use Rattle.std.specs.Prelude.{◌≡◌};
    ghost use Rattle.rpki_relying_party.specs.declared.folder.system.Lack.{Lack as Lacks};

    ghost from_gives = { λ why lack. lack ≡ Lacks.NoFile why };

    fn from(why: NoFile) -> Lack {
        Lack::NoFile(why)
    }
}

impl From<io::Error> for Lack {
    ghost use Rattle.std.specs.Prelude.{◌≢◌};
    ghost use Rattle.rpki_relying_party.specs.declared.folder.system.Lack.{Lack as Lacks};

    ghost from_gives = { λ _ lack. lack ≢ Lacks.Larger };

    fn from(error: io::Error) -> Lack {
        lack_of(error.kind())
    }
}

// What it means where the system refuses.
fn lack_of(kind: ErrorKind) -> Lack
    ensures memory { (result ≡ Lacks.Memory) ↔ (kind ≡ ErrorKind.OutOfMemory) }
    ensures missing { (result ≡ Lacks.NoFile Missing)
        ↔ ((kind ≡ ErrorKind.NotFound) ⊎ (kind ≡ ErrorKind.NotADirectory)) }
    ensures other { result ≢ Lacks.Larger }
{
    if kind == ErrorKind::OutOfMemory {
        Lack::Memory
    } else if kind == ErrorKind::NotFound || kind == ErrorKind::NotADirectory {
        Lack::NoFile(NoFile::Missing)
    } else {
        Lack::NoFile(NoFile::Unreadable)
    }
}

impl Bounds {
    // A file of so many octets is read if there are few enough.
    fn check(self, length: u64) -> Result<(), Lack>
        ensures { MatchResult result (λ _. IsFew self length) (WhyMany self length) }
    {
        if length > self.max_file {
            Err(Lack::NoFile(NoFile::TooLarge))
        } else if length > self.most {
            Err(Lack::Larger)
        } else {
            Ok(())
        }
    }

    // The smaller one.
    fn smaller(self) -> u64
        ensures { result ≡ min self.max_file self.most }
    {
        self.max_file.min(self.most)
    }
}

// A file is read if it is a regular one of few enough octets.
fn check_file(metadata: &Metadata, bounds: Bounds) -> Result<(), Lack>
    ensures { MatchResult result (λ _. IsReadable bounds metadata.now)
        (WhyUnread bounds metadata.now) }
{
    if metadata.is_file() {
        bounds.check(metadata.len())
    } else {
        Err(Lack::NoFile(NoFile::NotRegular))
    }
}

// What stands before a further part of a name has to be a folder.
fn check_folder(metadata: &Metadata) -> Result<(), NoFile>
    ensures { MatchResult result (λ _. IsDir (file_type metadata.now)) (WhyNoFolder metadata.now) }
{
    if metadata.is_dir() {
        Ok(())
    } else if metadata.is_symlink() {
        Err(NoFile::NotRegular)
    } else {
        Err(NoFile::Missing)
    }
}

// How many parts a name has, with a slash between each two.
fn count_parts(name: &str) -> usize
    ensures { result ≡ length (slice_split is_slash name.now) }
{
    name.split('/').count()
}

// Whether a name has so few parts that the system is asked for them.
fn has_few_parts(name: &str) -> bool
    ensures { IsTrue result ↔ HasFewParts name.now }
{
    count_parts(name) <= MAX_PARTS
}

// Puts a part of a name at the end of a path.
fn push_part(path: &mut String, part: &str) -> Result<(), AllocError>
    ensures { OnOk result
        (string_bytes path.new ≡ path_below (string_bytes path.old) part.now) }
{
    path.push_str("/")?;
    path.push_str(part)
}

// The path of the file with this name below a folder. The system is asked for each part of the
// name: all but the last are folders, and the last is a file that is read.
fn find_file<R: Files>(
    alloc: Global,
    files: &R,
    folder: &str,
    name: &str,
    bounds: Bounds,
) -> Result<String, Lack>
    ensures path { IfOk result (λ path. string_bytes path ≡ path_below folder.now name.now) }
    ensures lack { IfErr result (MayLack bounds) }
{
    let mut path = String::from_str(alloc, folder)?;
    let mut rest = name;
    while let Some((part, others)) = rest.split_once('/') {
        push_part(&mut path, part)?;
        let there = fs::symlink_metadata(files, path.as_str())?;
        check_folder(&there)?;
        rest = others;
    }
    push_part(&mut path, rest)?;
    let there = fs::symlink_metadata(files, path.as_str())?;
    check_file(&there, bounds)?;
    Ok(path)
}

// All that a reader gives, unless that is too much.
fn read_all<F: Read + Drop>(alloc: Global, reader: F, bounds: Bounds) -> Result<Vec<u8>, Lack>
    ensures few { IfOk result (λ octets. IsFew bounds (length octets.items)) }
    ensures all { IfOk result (λ octets. IfSome (F.remaining reader) (λ all. octets.items ≡ all)) }
    ensures lack { IfErr result (MayLack bounds) }
{
    let mut octets = Vec::new(alloc);
    let mut bounded = reader.take(bounds.smaller().saturating_add(1));
    bounded.read_to_end(&mut octets)?;
    bounds.check(octets.len() as u64)?;
    Ok(octets)
}

// The octets of a file that is read. It is checked again once it is open.
fn read_file<R: Files>(
    files: &R,
    alloc: Global,
    path: &str,
    bounds: Bounds,
) -> Result<Vec<u8>, Lack>
    ensures few { IfOk result (λ octets. IsFew bounds (length octets.items)) }
    ensures lack { IfErr result (MayLack bounds) }
{
    let file = OpenOptions::new().read(true).open(files, path)?;
    let opened = file.metadata()?;
    check_file(&opened, bounds)?;
    read_all(alloc, file, bounds)
}

// The octets of the file with this name below a folder.
fn read_below<R: Files>(
    files: &R,
    alloc: Global,
    folder: &str,
    name: &str,
    bounds: Bounds,
) -> Result<Bytes, Lack>
    ensures few { IfOk result (λ octets. IsFew bounds (length octets)) }
    ensures lack { IfErr result (MayLack bounds) }
{
    let path = find_file(alloc, files, folder, name, bounds)?;
    let octets = read_file(files, alloc, path.as_str(), bounds)?;
    match Bytes::from_vec(octets) {
        Ok(octets) => Ok(octets),
        Err(_) => Err(Lack::Memory),
    }
}

impl<R: Files> Folders for SystemFolders<'_, R> {
    ghost use Rattle.std.specs.Prelude.{◌≤◌, IfOk, length};
    ghost use Rattle.rpki_relying_party.specs.Folders.{HasFewParts};

    // Any octets may be found that a file may have, under a name that is looked up, and any reason
    // why there are none.
    ghost finds = { λ f _ name found.
        IfOk found (λ octets. (length octets ≤ f.max_file) × HasFewParts name) };

    fn read(
        &self,
        alloc: Global,
        folder: &str,
        name: &[u8],
        most: u64,
    ) -> Result<Fetched, AllocError> {
        let Ok(name) = str::from_utf8(name) else {
            return Ok(Fetched::NoFile(NoFile::Missing));
        };
        if !has_few_parts(name) {
            return Ok(Fetched::NoFile(NoFile::Missing));
        }
        let bounds = Bounds {
            max_file: self.max_file,
            most,
        };
        match read_below(self.runtime, alloc, folder, name, bounds) {
            Ok(octets) => Ok(Fetched::File(octets)),
            Err(Lack::NoFile(why)) => Ok(Fetched::NoFile(why)),
            Err(Lack::Larger) => Ok(Fetched::Larger),
            Err(Lack::Memory) => Err(AllocError),
        }
    }
}
