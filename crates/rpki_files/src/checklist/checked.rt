//! An entry of a checklist.

ghost use Rattle.std.specs.Prelude.{◌≡◌, ◌<◌, ◌^◌, IfOk, IfSome, length};
ghost use Rattle.rpki_der.specs.Numbers.{MAX_DEPTH};
ghost use Rattle.rpki_der.specs.Tags.{SEQUENCE, IA5_STRING};
ghost use Rattle.rpki_der.specs.Read.Parse.{octets_at};
ghost use Rattle.rpki_der.specs.Write.Parts.{contents_small, optional_octets};
ghost use Rattle.rpki_der.specs.Write.Written.{value_octets};
ghost use Rattle.rpki_lists.specs.Slice.{seen};
ghost use Rattle.rpki_files.specs.Manifest.Files.{Takes};
ghost use Rattle.rpki_files.specs.Checklist.Files.{is_portable, is_portable_name, portable_if_at};
ghost use Rattle.rpki_files.specs.Checklist.Files.{checked_at};

use crate::faults;
use crate::name::is_stem;
use bytes::Bytes;
use rpki_der::Tag;
use rpki_der::encode::{Raw, Value, ia5, octet_string, sequence};
use rpki_lists::{EntryIter, EntryKind, Refused, SliceEntry, SliceReader, Written};
use std::alloc::AllocError;
use std::marker::PhantomData;

/// The name of a file, if it is given, and its hash (RFC 9323, section 4.4.1).
#[derive(Debug, Drop)]
pub struct FileNameAndHash<F, H> {
    pub file_name: Option<F>,
    pub hash: H,
}

impl<F, H> FileNameAndHash<F, H> {
    /// An entry of this name, if there is one, and this hash.
    pub fn new(file_name: Option<F>, hash: H) -> FileNameAndHash<F, H>
        ensures { result ≡ record { file_name = file_name; hash = hash } }
    {
        FileNameAndHash { file_name, hash }
    }

    /// The name of the file, if it is given.
    pub fn file_name(&self) -> Option<&F>
        ensures { seen (λ n. n.now) result ≡ self.now.file_name }
    {
        self.file_name.as_ref()
    }

    /// The hash of the file.
    pub fn hash(&self) -> &H
        ensures { result.now ≡ self.now.hash }
    {
        &self.hash
    }

    /// The name and the hash.
    pub fn into_pair(self) -> (Option<F>, H)
        ensures { result ≡ (self.file_name, self.hash) }
    {
        (self.file_name, self.hash)
    }
}

impl<F: Clone, H: Clone> FileNameAndHash<F, H> {
    /// The same entry again, where what its parts are cloned to is the same as they. Refuses where
    /// there is no memory for a copy of a part.
    pub fn clone(&self) -> Result<FileNameAndHash<F, H>, AllocError>
        requires name { IfSome self.now.file_name
            (λ name. (copy : F) → F.is_clone name copy → copy ≡ name) }
        requires hash { (copy : H) → H.is_clone self.now.hash copy → copy ≡ self.now.hash }
        ensures { IfOk result (λ copy. copy ≡ self.now) }
    {
        let file_name = match &self.file_name {
            Some(name) => Some(name.clone()?),
            None => None,
        };
        Ok(FileNameAndHash {
            file_name,
            hash: self.hash.clone()?,
        })
    }
}

// An entry whose parts lie in a slice.
type CheckedSlices<'a> = FileNameAndHash<&'a [u8], &'a [u8]>;

// Whether a character may stand in a name.
#[inline(always)]
fn is_portable(b: u8) -> bool
    ensures { result ≡ is_portable b }
{
    is_stem(b) || b == b'.'
}

// Whether each character may stand in a name.
fn is_portable_name(octets: &[u8]) -> bool
    ensures { result ≡ is_portable_name octets.now }
{
    octets.iter().all(|b| is_portable(*b))
}

// Reads the name in front, if there is one.
#[tactic(auto, unfolding(rpki_der::specs::Read::Parse::tested))]
fn take_file_name<'a>(reader: &mut SliceReader<'a>) -> Result<Option<&'a [u8]>, Refused>
    ensures { Takes (seen (λ n. n.now)) portable_if_at reader.old result reader.new }
{
    match reader.take_opt_ia5() {
        None => Err(Refused::Malformed),
        Some(None) => Ok(None),
        Some(Some(name)) => {
            if is_portable_name(name) {
                Ok(Some(name))
            } else {
                Err(Refused::For(faults::BAD_CHECKLIST_NAME))
            }
        }
    }
}

// Reads the hash in front.
fn take_hash<'a>(reader: &mut SliceReader<'a>) -> Result<&'a [u8], Refused>
    ensures { Takes (λ h. h.now) (octets_at MAX_DEPTH) reader.old result reader.new }
{
    match reader.take_octets() {
        Some(hash) => Ok(hash),
        None => Err(Refused::Malformed),
    }
}

// Reads the file in front.
#[tactic(auto, unfolding(crate::specs::Checklist::Files::checked_fields_at))]
fn take_checked<'a>(reader: &mut SliceReader<'a>) -> Result<CheckedSlices<'a>, Refused>
    ensures { Takes (λ f. record { file_name = seen (λ n. n.now) f.file_name; hash = f.hash.now })
        checked_at reader.old result reader.new }
{
    let Some(mut fields) = reader.take_sequence() else {
        return Err(Refused::Malformed);
    };
    let file_name = take_file_name(&mut fields)?;
    let hash = take_hash(&mut fields)?;
    match fields.close(FileNameAndHash { file_name, hash }) {
        Some(file) => Ok(file),
        None => Err(Refused::Malformed),
    }
}

/// The files of a checklist, as a kind of entries.
#[derive(Clone, Debug, Drop)]
pub struct CheckedFiles;

impl EntryKind for CheckedFiles {
    ghost use Rattle.rpki_der.specs.Tags.{SEQUENCE};
    ghost use Rattle.rpki_der.specs.declared.mode.Mode.TheVariants.{Der};
    ghost use Rattle.rpki_der.proofs.Reading.Many.{in_value-shorter};
    ghost use Rattle.rpki_files.specs.Checklist.Files.{checked_at, checked_fields_at};

    type Shown = FileNameAndHash<Bytes, Bytes>;

    ghost entry_at = { checked_at };

    ghost shrinks = { λ b x r e. in_value-shorter SEQUENCE checked_fields_at Der b x r e };

    fn skip(reader: &mut SliceReader<'_>) -> Result<(), Refused> {
        match take_checked(reader) {
            Ok(_) => Ok(()),
            Err(refused) => Err(refused),
        }
    }
}

/// A file of a checklist, in a slice.
#[derive(Clone, Debug, Drop)]
pub struct CheckedEntry<'a>(PhantomData<&'a [u8]>);

impl<'a> SliceEntry for CheckedEntry<'a> {
    ghost use Rattle.rpki_lists.specs.Slice.{seen};

    type EntryKind = CheckedFiles;

    type Item = FileNameAndHash<&'a [u8], &'a [u8]>;

    type Reader = SliceReader<'a>;

    ghost slice = { λ r. r };

    ghost shown = { λ f. record { file_name = seen (λ n. n.now) f.file_name; hash = f.hash.now } };

    fn is_end(reader: &SliceReader<'a>) -> bool {
        reader.is_empty()
    }

    fn read(reader: &mut SliceReader<'a>) -> FileNameAndHash<&'a [u8], &'a [u8]> {
        let mut fields = reader.known_sequence();
        let file_name = fields.known_opt_contents(Tag::IA5_STRING);
        let hash = fields.known_contents(Tag::OCTET_STRING);
        FileNameAndHash { file_name, hash }
    }

    fn again(reader: &SliceReader<'a>) -> SliceReader<'a> {
        reader.again()
    }
}

// What writes a name, if there is one.
fn name_encoder(name: Option<&[u8]>) -> Option<Value<Raw<'_>>>
    ensures { optional_octets (λ v. value_octets v.tag.octet v.contents.0.now) result
        ≡ optional_octets (value_octets IA5_STRING) (seen (λ n. n.now) name.entry) }
{
    match name {
        Some(name) => Some(ia5(name)),
        None => None,
    }
}

impl<'a> Written for CheckedEntry<'a> {
    ghost use Rattle.std.specs.Prelude.{◌<◌, ◌^◌, length};
    ghost use Rattle.rpki_der.specs.Tags.{SEQUENCE};
    ghost use Rattle.rpki_der.specs.Write.Parts.{contents_small};
    ghost use Rattle.rpki_files.specs.Checklist.Files.{checked_octets, checked_contents};

    type Encoder = Value<(Option<Value<Raw<'a>>>, Value<Raw<'a>>)>;

    ghost octets = { checked_octets };

    ghost is_short = { λ f. length (checked_contents f) < 2 ^ 32 };

    ghost small = { λ f h. contents_small SEQUENCE (checked_contents f) h };

    fn encoder(file: FileNameAndHash<&'a [u8], &'a [u8]>) -> Self::Encoder {
        sequence((name_encoder(file.file_name), octet_string(file.hash)))
    }
}

/// The files of a checklist that are still to come, in order: names and hashes that lie in its
/// octets.
pub type CheckListIter<'a> = EntryIter<CheckedEntry<'a>>;
