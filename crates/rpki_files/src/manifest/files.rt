//! The files of a manifest, as entries of a list.

ghost use Rattle.std.specs.Prelude.{◌≡◌, All, IfOk};
ghost use Rattle.rpki_der.specs.Read.Reads.{Reads, Stays};
ghost use Rattle.rpki_der.specs.Form.Keyed.{are_distinct};
ghost use Rattle.rpki_files.specs.Manifest.Files.{Takes, name_of, file_name_at, hash_at, file_at};
ghost use Rattle.rpki_files.specs.Manifest.Files.{files_at, is_unrepeated};
ghost use Rattle.rpki_files.specs.Name.{IsFileName};

use crate::faults;
use crate::manifest::file::{FileAndHash, FileEncoder};
use crate::name::{is_allowed, is_file_name};
use bytes::Bytes;
use rpki_basics::ManifestRule;
use rpki_der::encode::{bit_string, ia5, sequence};
use rpki_der::{Constructed, DecodeError, Tag};
use rpki_lists::{
    EntryIter, EntryKind, EntryList, Refused, Rule, SliceEntry, SliceReader, Written, take_list,
};
use std::alloc::{AllocError, Global};
use std::collections::BTreeSet;
use std::marker::PhantomData;

/// An entry whose parts lie in a slice.
pub type FileSlices<'a> = FileAndHash<&'a [u8], &'a [u8]>;

// Reads the name in front. That it is an IA5String has no test of its own: each name is one.
#[tactic(auto, using(crate::proofs::Names::Ia5::name_found, crate::proofs::Names::Ia5::name_other, crate::proofs::Names::Ia5::name_none))]
fn take_file_name<'a>(reader: &mut SliceReader<'a>) -> Result<&'a [u8], Refused>
    ensures { Takes (λ n. n.now) file_name_at reader.old result reader.new }
{
    let Some(name) = reader.take_contents(Tag::IA5_STRING) else {
        return Err(Refused::Malformed);
    };
    if is_file_name(name) {
        Ok(name)
    } else {
        Err(Refused::For(faults::BAD_MANIFEST_NAME))
    }
}

// Reads the hash in front.
fn take_hash<'a>(reader: &mut SliceReader<'a>) -> Result<&'a [u8], Refused>
    ensures { Takes (λ h. h.now) hash_at reader.old result reader.new }
{
    match reader.take_bits() {
        Some(bits) => Ok(bits.octets),
        None => Err(Refused::Malformed),
    }
}

// Reads the file in front.
#[tactic(auto, unfolding(crate::specs::Manifest::Files::file_fields_at))]
fn take_file<'a>(reader: &mut SliceReader<'a>) -> Result<FileSlices<'a>, Refused>
    ensures { Takes (λ f. record { file = f.file.now; hash = f.hash.now }) file_at
        reader.old result reader.new }
{
    let Some(mut fields) = reader.take_sequence() else {
        return Err(Refused::Malformed);
    };
    let file = take_file_name(&mut fields)?;
    let hash = take_hash(&mut fields)?;
    match fields.close(FileAndHash { file, hash }) {
        Some(file) => Ok(file),
        None => Err(Refused::Malformed),
    }
}

/// The files of a manifest, as a kind of entries.
#[derive(Clone, Debug, Drop)]
pub struct Files;

impl EntryKind for Files {
    ghost use Rattle.rpki_der.specs.Tags.{SEQUENCE};
    ghost use Rattle.rpki_der.specs.declared.mode.Mode.TheVariants.{Der};
    ghost use Rattle.rpki_der.proofs.Reading.Many.{in_value-shorter};
    ghost use Rattle.rpki_files.specs.Manifest.Files.{file_at, file_fields_at};

    type Shown = FileAndHash<Bytes, Bytes>;

    ghost entry_at = { file_at };

    ghost shrinks = { λ b x r e. in_value-shorter SEQUENCE file_fields_at Der b x r e };

    fn skip(reader: &mut SliceReader<'_>) -> Result<(), Refused> {
        match take_file(reader) {
            Ok(_) => Ok(()),
            Err(refused) => Err(refused),
        }
    }
}

/// A file of a manifest, in a slice.
#[derive(Clone, Debug, Drop)]
pub struct FileEntry<'a>(PhantomData<&'a [u8]>);

impl<'a> SliceEntry for FileEntry<'a> {
    type EntryKind = Files;

    type Item = FileAndHash<&'a [u8], &'a [u8]>;

    type Reader = SliceReader<'a>;

    ghost slice = { λ r. r };

    ghost shown = { λ f. record { file = f.file.now; hash = f.hash.now } };

    fn is_end(reader: &SliceReader<'a>) -> bool {
        reader.is_empty()
    }

    fn read(reader: &mut SliceReader<'a>) -> FileAndHash<&'a [u8], &'a [u8]> {
        let mut fields = reader.known_sequence();
        let file = fields.known_contents(Tag::IA5_STRING);
        let bits = fields.known_bits();
        FileAndHash {
            file,
            hash: bits.octets,
        }
    }

    fn again(reader: &SliceReader<'a>) -> SliceReader<'a> {
        reader.again()
    }
}

impl<'a> Written for FileEntry<'a> {
    ghost use Rattle.rpki_files.specs.Manifest.Files.{file_octets, is_short_file, file-small};

    type Encoder = FileEncoder<'a>;

    ghost octets = { file_octets };

    ghost is_short = { is_short_file };

    ghost small = { file-small };

    fn encoder(file: FileAndHash<&'a [u8], &'a [u8]>) -> FileEncoder<'a> {
        sequence((ia5(file.file), bit_string(file.hash, 0)))
    }
}

/// The files of a manifest that are still to come, in order: names and hashes that lie in its
/// octets.
pub type FileListIter<'a> = EntryIter<FileEntry<'a>>;

/// The rule of a caller over the names of files.
#[derive(Drop)]
pub struct NamesBy {
    pub rule: ManifestRule,
}

impl Rule for NamesBy {
    ghost use Rattle.rpki_files.specs.Manifest.Files.{names_by};

    type EntryKind = Files;

    ghost after = { names_by };

    fn pass(&mut self, reader: &mut SliceReader<'_>) -> Result<(), Refused> {
        match take_file(reader) {
            Ok(file) => {
                if is_allowed(self.rule, file.file) {
                    Ok(())
                } else {
                    Err(Refused::For(faults::FILE_TYPE_NOT_REGISTERED))
                }
            }
            Err(refused) => Err(refused),
        }
    }
}

/// The files of a list, in order.
pub fn files_of(list: &EntryList<Files>) -> FileListIter<'_>
    ensures files { result ≡ list.now }
    ensures names { All (λ f. IsFileName (name_of f)) list.now }
{
    EntryIter::of(list.reader())
}

// Whether no two of the files have the same name, after one look-up in an ordered set for each.
#[tactic(auto, using(crate::proofs::Manifests::Distinct::seen_all))]
fn are_distinct(alloc: Global, files: FileListIter<'_>) -> Result<bool, AllocError>
    ensures { IfOk result (λ b. b ≡ are_distinct name_of files.entry) }
{
    let mut files = files;
    let mut seen = BTreeSet::new(alloc);
    while let Some(file) = files.next() {
        if !seen.insert(file.file)? {
            return Ok(false);
        }
    }
    Ok(true)
}

/// Whether no name stands twice, where the rule asks for it.
pub fn is_unrepeated(
    alloc: Global,
    rule: ManifestRule,
    files: &EntryList<Files>,
) -> Result<bool, AllocError>
    ensures { IfOk result (λ b. b ≡ is_unrepeated rule files.now) }
{
    match rule {
        ManifestRule::Any => Ok(true),
        ManifestRule::Registered => are_distinct(alloc, files_of(files)),
    }
}

/// Reads the list of files (RFC 9286, section 4.2). A name of another form is refused by
/// `BAD_MANIFEST_NAME`, a type that is not registered and a name that comes twice, where the rule
/// asks for that, by `FILE_TYPE_NOT_REGISTERED` and `FILE_NAME_TWICE`, all else by `Malformed`;
/// `Memory` may come too.
#[tactic(auto, unfolding(rpki_der::specs::Read::Parse::tested))]
pub fn take_files(
    alloc: Global,
    cons: &mut Constructed<'_>,
    rule: ManifestRule,
) -> Result<EntryList<Files>, DecodeError>
    ensures reads { Reads (λ l. l) (files_at rule) cons.old result cons.new }
    ensures stays { Stays result cons.new }
{
    let files = take_list(cons, NamesBy { rule })?;
    match is_unrepeated(alloc, rule, &files) {
        Ok(true) => Ok(files),
        Ok(false) => Err(cons.refuse_for(faults::FILE_NAME_TWICE)),
        Err(_) => Err(cons.fail(DecodeError::Memory)),
    }
}
