//! The files that manifests and checklists list, in rows: where the name and the hash of each stand
//! among octets.

ghost use Rattle.std.specs.Prelude.{◌≡◌, IfOk, List, OnOk};
ghost use Rattle.rpki_lists.specs.Slice.{seen};
ghost use Rattle.rpki_check.specs.Files.{AreFilesPut, AreWritten, IsFilesCall, IsPushed, IsTable};
ghost use Rattle.rpki_check.specs.Files.{Named, checked_files, is_named, listed_files, name_octets};
ghost use Rattle.rpki_check.specs.Grounds.{manner_in};

use crate::numbers::{GOOD, NO_MEMORY};
use crate::object::found_in;
use crate::question::Question;
use crate::refusal::Refusal;
use crate::room::put;
use rpki_files::{ManifestContent, ResourceSignedChecklist};
use rpki_validation::kinds::Lines;
use std::alloc::{AllocError, Global};

/// Where the name and the hash of a file stand.
#[repr(C)]
#[derive(Clone, Copy, Drop)]
pub struct Entry {
    /// Where the name begins.
    pub name: usize,
    /// How many octets it has.
    pub name_length: usize,
    /// Where the hash begins.
    pub hash: usize,
    /// How many octets it has.
    pub hash_length: usize,
    /// 1, or 0 where the file has no name.
    pub named: usize,
}

/// Rows of files, and the octets in which they stand.
#[derive(Drop)]
pub struct Table {
    rows: Vec<Entry>,
    octets: Vec<u8>,
}

/// The octets of a name, if there is one.
fn name_octets<'a>(name: Option<&'a [u8]>) -> &'a [u8]
    ensures { result.now ≡ name_octets (seen (λ n. n.now) name.entry) }
{
    match name {
        None => &[],
        Some(octets) => octets,
    }
}

/// 1 where there is a name, and else 0.
fn is_named(name: Option<&[u8]>) -> usize
    ensures { result ≡ is_named (seen (λ n. n.now) name.entry) }
{
    match name {
        None => 0,
        Some(_) => 1,
    }
}

/// Appends a file.
fn push_file(table: &mut Table, name: Option<&[u8]>, hash: &[u8]) -> Result<(), AllocError>
    ensures { OnOk result (IsPushed table.old table.new
        (seen (λ n. n.now) name.entry, hash.now)) }
{
    let octets = name_octets(name);
    let at = table.octets.len();
    table.octets.extend_from_slice(octets)?;
    let behind = table.octets.len();
    table.octets.extend_from_slice(hash)?;
    table.rows.push(Entry {
        name: at,
        name_length: octets.len(),
        hash: behind,
        hash_length: hash.len(),
        named: is_named(name),
    })?;
    Ok(())
}

/// The files of a manifest.
fn listed_files(alloc: Global, manifest: &ManifestContent) -> Result<Table, AllocError>
    ensures { IfOk result (λ t. IsTable t (listed_files manifest.now)) }
{
    let mut table = Table {
        rows: Vec::new(alloc),
        octets: Vec::new(alloc),
    };
    for file in manifest.iter() {
        push_file(&mut table, Some(file.file), file.hash)?;
    }
    Ok(table)
}

/// The files of a checklist.
fn checked_files(alloc: Global, checklist: &ResourceSignedChecklist) -> Result<Table, AllocError>
    ensures { IfOk result (λ t. IsTable t (checked_files checklist.now)) }
{
    let mut table = Table {
        rows: Vec::new(alloc),
        octets: Vec::new(alloc),
    };
    for file in checklist.iter() {
        push_file(&mut table, file.file_name, file.hash)?;
    }
    Ok(table)
}

/// Puts rows and octets into two rooms.
fn put_both(
    rows: &[Entry],
    octets: &[u8],
    room: &mut [Entry],
    count: &mut usize,
    place: &mut [u8],
    len: &mut usize,
)
    ensures { AreWritten rows.now room.old room.new count.new octets.now place.old place.new
        len.new }
{
    put(rows, room, count);
    put(octets, place, len);
}

/// A content that lists files.
pub trait Listing: Lines {
    // The files.
    ghost files_of: { Self → List Named };

    /// Their table.
    fn in_table(&self, alloc: Global) -> Result<Table, AllocError>
        ensures { IfOk result (λ t. IsTable t (files_of self.now)) };
}

impl Listing for ManifestContent {
    ghost files_of = { listed_files };

    fn in_table(&self, alloc: Global) -> Result<Table, AllocError> {
        listed_files(alloc, self)
    }
}

impl Listing for ResourceSignedChecklist {
    ghost files_of = { checked_files };

    fn in_table(&self, alloc: Global) -> Result<Table, AllocError> {
        checked_files(alloc, self)
    }
}

/// Puts the files of a content, if one is found, and gives the status.
fn put_files<T: Listing>(
    alloc: Global,
    found: &Result<T, Refusal>,
    room: &mut [Entry],
    count: &mut usize,
    place: &mut [u8],
    len: &mut usize,
) -> u32
    ensures { AreFilesPut T.files_of found.now room.old room.new count.new place.old place.new
        len.new result }
{
    match found {
        Err(refusal) => {
            put_both(&[], &[], room, count, place, len);
            refusal.number()
        }
        Ok(content) => match content.in_table(alloc) {
            Err(_) => {
                put_both(&[], &[], room, count, place, len);
                NO_MEMORY
            }
            Ok(table) => {
                put_both(&table.rows, &table.octets, room, count, place, len);
                GOOD
            }
        },
    }
}

/// The files of the object at the front of octets.
pub fn files_in<T: Listing>(
    alloc: Global,
    question: &Question<'_>,
    octets: &[u8],
    room: &mut [Entry],
    count: &mut usize,
    place: &mut [u8],
    len: &mut usize,
) -> u32
    ensures { IsFilesCall T.kind (T.form (T.rule_in (manner_in question.now))) T.files_of
        question.now octets.now room.old room.new count.new place.old place.new len.new result }
{
    let found = found_in::<T>(alloc, question, octets);
    let status = put_files(alloc, &found, room, count, place, len);
    drop(found);
    status
}
