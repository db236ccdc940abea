//! Contents of manifests (RFC 9286, section 4).

mod builder;
mod encoder;
mod file;
mod files;
mod hash;
mod object;
mod read;
mod uris;

ghost use Rattle.std.specs.Prelude.{◌≡◌, ◌↔◌, ◌<◌, ◌≤◌, ◌^◌, ◌++◌, ℕ, List, All, Some, length};
ghost use Rattle.std.specs.Prelude.{IsTrue, nat_lt};
ghost use Rattle.rpki_basics.specs.Moment.{stamp};
ghost use Rattle.rpki_basics.specs.declared.limits.ManifestRule.{ManifestRule};
ghost use Rattle.rpki_basics.specs.declared.algorithm.DigestAlgorithm.TheVariants.{Sha256};
ghost use Rattle.rpki_der.specs.declared.mode.Mode.TheVariants.{Der};
ghost use Rattle.rpki_der.specs.Read.Reads.{Reads, Stays};
ghost use Rattle.rpki_der.specs.Form.Decodes.{Decodes, DecodesNext};
ghost use Rattle.rpki_files.specs.Manifest.{ManifestForm, manifest_at, manifest_contents};
ghost use Rattle.rpki_files.specs.Manifest.{manifest_octets};
ghost use Rattle.rpki_files.specs.Manifest.Files.{MeetsRule, name_of};
ghost use Rattle.rpki_files.specs.Name.{IsFileName};
ghost use Rattle.rpki_files.specs.Manifest.Uris.{uris_of};

use bytes::Bytes;
pub use encoder::ManifestEncoder;
pub use file::{FileAndHash, FileEncoder};
use files::files_of;
pub use files::{FileEntry, FileListIter, Files};
pub use hash::{ManifestHash, ManifestHashMismatch};
pub use object::{Manifest, ValidateManifest};
use read::{read_front, take_manifest};
use rpki_basics::{DigestAlgorithm, ManifestRule, Rsync, Serial, Time};
use rpki_der::laws::slices_hold_octets;
use rpki_der::{Constructed, DecodeError};
use rpki_lists::EntryList;
use std::alloc::{AllocError, Global};
use std::marker::Model;
pub use uris::ManifestUriIter;

/// Which files a publication point holds, and until when that is said.
#[derive(Debug, Drop)]
pub struct ManifestContent {
    number: Serial,
    this_update: Time,
    next_update: Time,
    files: EntryList<Files>,
}

impl Model for ManifestContent {
    ghost use Rattle.std.specs.Prelude.{◌≤◌};
    ghost use Rattle.rpki_basics.specs.Moment.{stamp};
    ghost use Rattle.rpki_files.specs.Manifest.{Manifest};

    ghost Value = { Manifest };

    ghost view = { λ m. record {
      number = m.number;
      this_update = m.this_update;
      next_update = m.next_update;
      files = m.files;
    } };

    ghost invariant = { λ m. stamp m.this_update ≤ stamp m.next_update };
}

impl Clone for ManifestContent {
    ghost is_clone = { λ m copy. copy ≡ m };

    fn clone(&self) -> Result<ManifestContent, AllocError> {
        Ok(ManifestContent {
            number: self.number,
            this_update: self.this_update,
            next_update: self.next_update,
            files: self.files.clone()?,
        })
    }
}

impl ManifestContent {
    /// Reads the content at the front of the source, by the rules of DER (RFC 9286, section 4.2).
    /// Where the source begins with no content, refuses by `Malformed` or by the `Content` fault
    /// that is found first, and by `Memory` where no memory was to be had.
    pub fn decode(
        alloc: Global,
        source: Bytes,
        rule: ManifestRule,
    ) -> Result<ManifestContent, DecodeError>
        ensures { Decodes (ManifestForm rule Der) (λ m. m) source result }
    {
        // The proof needs that each octet is below 256, which is known of a slice and not of a
        // `Bytes`.
        slices_hold_octets(source.as_slice());
        read_front(alloc, source, rule)
    }

    /// Reads a content in the mode of the reader (RFC 9286, section 4.2); its files stand in DER.
    /// Refuses what is no such content by `Malformed`, or by a rule of its format that it breaks
    /// (`faults`), and by `Memory`.
    pub fn take_from(
        alloc: Global,
        cons: &mut Constructed<'_>,
        rule: ManifestRule,
    ) -> Result<ManifestContent, DecodeError>
        ensures reads { Reads (λ m. m) (manifest_at rule) cons.old result cons.new }
        ensures decodes { DecodesNext (ManifestForm rule) (λ m. m) cons.old result cons.new }
        ensures stays { Stays result cons.new }
    {
        cons.holds_octets();
        take_manifest(alloc, cons, rule)
    }

    /// The number of the manifest.
    pub fn manifest_number(&self) -> Serial
        ensures { result ≡ self.now.number }
    {
        self.number
    }

    /// When the manifest was made.
    pub fn this_update(&self) -> Time
        ensures { result ≡ self.now.this_update }
    {
        self.this_update
    }

    /// When the next manifest is due, which is not before this one.
    pub fn next_update(&self) -> Time
        ensures value { result ≡ self.now.next_update }
        ensures order { stamp self.now.this_update ≤ stamp self.now.next_update }
    {
        self.next_update
    }

    /// The algorithm of the hashes.
    pub fn file_hash_alg(&self) -> DigestAlgorithm
        ensures { result ≡ Sha256 }
    {
        DigestAlgorithm::sha256()
    }

    /// The files, in order.
    pub fn iter(&self) -> FileListIter<'_>
        ensures files { result ≡ self.now.files }
        ensures names { All (λ f. IsFileName (name_of f)) self.now.files }
    {
        files_of(&self.files)
    }

    /// The URIs of the files below this one, in order, each with the hash of its file.
    pub fn iter_uris<'a>(&'a self, alloc: Global, base: &'a Rsync) -> ManifestUriIter<'a>
        ensures { result ≡ uris_of base.now self.now.files }
    {
        ManifestUriIter::new(alloc, base, self.iter())
    }

    /// How many files there are.
    pub fn len(&self) -> usize
        ensures { result ≡ length self.now.files }
    {
        self.files.len()
    }

    /// Whether there is no file.
    pub fn is_empty(&self) -> bool
        ensures { IsTrue result ↔ (length self.now.files ≡ 0) }
    {
        self.files.is_empty()
    }

    /// Whether the next update is before this moment.
    pub fn is_stale(&self, now: Time) -> bool
        ensures { result ≡ nat_lt (stamp self.now.next_update) (stamp now) }
    {
        self.next_update < now
    }

    /// The content, to be written in DER: without its version, both times as GeneralizedTime, and
    /// each hash without unused bits. What is written is a content under each rule that the files
    /// meet, and every content meets `Any`.
    pub fn encode_ref(&self) -> ManifestEncoder<'_>
        ensures value { result ≡ self.now }
        ensures written { (rule : ManifestRule) → MeetsRule rule self.now.files
            → length (manifest_contents self.now) < 2 ^ 32
            → ManifestForm rule Der (manifest_octets self.now) self.now }
        ensures read { (rule : ManifestRule) → MeetsRule rule self.now.files
            → length (manifest_contents self.now) < 2 ^ 32 → (rest : List ℕ)
            → manifest_at rule Der (manifest_octets self.now ++ rest) ≡ Some (self.now, rest) }
    {
        // The proof takes from these calls that each field is written in its form.
        let _ = self.number.encode_ref();
        let _ = self.this_update.encode_generalized();
        let _ = self.next_update.encode_generalized();
        let _ = self.files.reader();
        ManifestEncoder::new(self)
    }
}
