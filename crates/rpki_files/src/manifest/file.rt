//! An entry of a manifest.

ghost use Rattle.std.specs.Prelude.{◌≡◌, ◌↔◌, IfOk, MatchResult};
ghost use Rattle.rpki_files.specs.Manifest.Files.{file_octets, is_short_file};
ghost use Rattle.rpki_files.specs.Name.{IsFileName};

use crate::faults;
use crate::name::is_file_name;
use bytes::Bytes;
use rpki_der::encode::{Bits, Raw, Value, bit_string, ia5, sequence};
use rpki_der::{AsOctets, Encode};
use std::alloc::AllocError;

/// The name of a file and its hash (RFC 9286, section 4.2).
#[derive(Debug, Drop)]
pub struct FileAndHash<F, H> {
    pub file: F,
    pub hash: H,
}

/// What writes an entry: SEQUENCE { IA5String, BIT STRING without unused bits }.
pub type FileEncoder<'a> = Value<(Value<Raw<'a>>, Value<Bits<'a>>)>;

impl<F, H> FileAndHash<F, H> {
    /// An entry of this name and this hash.
    pub fn new(file: F, hash: H) -> FileAndHash<F, H>
        ensures { result ≡ record { file = file; hash = hash } }
    {
        FileAndHash { file, hash }
    }

    /// The name of the file.
    pub fn file(&self) -> &F
        ensures { result.now ≡ self.now.file }
    {
        &self.file
    }

    /// The hash of the file.
    pub fn hash(&self) -> &H
        ensures { result.now ≡ self.now.hash }
    {
        &self.hash
    }

    /// The name and the hash.
    pub fn into_pair(self) -> (F, H)
        ensures { result ≡ (self.file, self.hash) }
    {
        (self.file, self.hash)
    }
}

impl<F: Clone, H: Clone> FileAndHash<F, H> {
    /// The same entry again, where what its parts are cloned to is the same as they. Refuses where
    /// there is no memory for a copy of a part.
    pub fn clone(&self) -> Result<FileAndHash<F, H>, AllocError>
        requires file { (copy : F) → F.is_clone self.now.file copy → copy ≡ self.now.file }
        requires hash { (copy : H) → H.is_clone self.now.hash copy → copy ≡ self.now.hash }
        ensures { IfOk result (λ copy. copy ≡ self.now) }
    {
        Ok(FileAndHash {
            file: self.file.clone()?,
            hash: self.hash.clone()?,
        })
    }
}

impl<F: AsOctets, H: AsOctets> FileAndHash<F, H> {
    /// The entry, to be written as a SEQUENCE of its name, an IA5String, and its hash, a BIT STRING
    /// without unused bits, whatever their octets are (RFC 9286, section 4.2).
    pub fn encode_ref(&self) -> FileEncoder<'_>
        ensures octets { ⟦<FileEncoder<'static> as Encode>⟧.octets result ≡ file_octets
            (record { file = F.meaning self.now.file; hash = H.meaning self.now.hash }) }
        ensures der { ⟦<FileEncoder<'static> as Encode>⟧.is_der result }
        ensures short { ⟦<FileEncoder<'static> as Encode>⟧.is_short result ↔ is_short_file
            (record { file = F.meaning self.now.file; hash = H.meaning self.now.hash }) }
    {
        sequence((
            ia5(self.file.as_octets()),
            bit_string(self.hash.as_octets(), 0),
        ))
    }
}

impl FileAndHash<Bytes, Bytes> {
    /// Whether octets are the name of a file in a manifest: one or more letters, digits, `-` and
    /// `_`, a dot and three letters (RFC 9286, section 4.2.2). Refuses any others by
    /// `BAD_MANIFEST_NAME`.
    pub fn validate_file_name(name: &[u8]) -> Result<(), &'static str>
        ensures { MatchResult result (λ _. IsFileName name.now) (λ _. IsFileName name.now → ⊥) }
    {
        if is_file_name(name) {
            Ok(())
        } else {
            Err(faults::BAD_MANIFEST_NAME)
        }
    }
}
