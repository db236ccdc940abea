//! The URIs of the files of a manifest.

ghost use Rattle.std.specs.Prelude.{◌≡◌, All, IfOk};
ghost use Rattle.rpki_basics.specs.Uri.{join_text};
ghost use Rattle.rpki_files.specs.Manifest.Files.{name_of};
ghost use Rattle.rpki_files.specs.Name.{IsFileName};
ghost use Rattle.rpki_files.specs.Manifest.Uris.{uri_of, uris_of};

use crate::manifest::files::{FileListIter, FileSlices};
use crate::manifest::hash::ManifestHash;
use bytes::Bytes;
use rpki_basics::uri::Error;
use rpki_basics::{DigestAlgorithm, Rsync};
use std::alloc::{AllocError, Global};
use std::marker::Model;

// The URI with the name of a file after it.
#[tactic(auto, using(crate::proofs::Names::Joined::name_joined))]
fn below(alloc: Global, base: &Rsync, name: &[u8]) -> Result<Rsync, AllocError>
    requires { IsFileName name.now }
    ensures { IfOk result (λ uri. uri ≡ join_text base.now name.now) }
{
    // The proof takes from this call that the base is an rsync URI.
    let _ = base.as_slice();
    match base.join(alloc, name) {
        Ok(uri) => Ok(uri),
        Err(Error::Memory) => Err(AllocError),
        Err(Error::InvalidCharacters) => unreachable!(),
        Err(Error::BadScheme) => unreachable!(),
        Err(Error::BadUri) => unreachable!(),
    }
}

// The URI of a file below the base, and its hash.
fn uri_of(
    alloc: Global,
    base: &Rsync,
    file: FileSlices<'_>,
) -> Result<(Rsync, ManifestHash), AllocError>
    requires { IsFileName file.file.now }
    ensures { IfOk result (λ pair. pair ≡ uri_of base.now
        (record { file = file.entry.file.now; hash = file.entry.hash.now })) }
{
    let uri = below(alloc, base, file.file)?;
    let hash = Bytes::copy_from_slice(alloc, file.hash)?;
    Ok((uri, ManifestHash::new(hash, DigestAlgorithm::sha256())))
}

/// The URIs of the files of a manifest that are still to come, in order, each with the hash of its
/// file. Where no memory was to be had for one, an error stands in its place, and the next call
/// goes on after it.
#[derive(Debug, Drop)]
pub struct ManifestUriIter<'a> {
    alloc: Global,
    base: &'a Rsync,
    files: FileListIter<'a>,
}

impl<'a> Model for ManifestUriIter<'a> {
    ghost use Rattle.std.specs.Prelude.{All, List};
    ghost use Rattle.rpki_files.specs.Manifest.Files.{name_of};
    ghost use Rattle.rpki_files.specs.Name.{IsFileName};
    ghost use Rattle.rpki_files.specs.Manifest.Uris.{UriAndHash, uris_of};

    ghost Value = { List UriAndHash };

    ghost view = { λ i. uris_of i.base.now i.files };

    ghost invariant = { λ i. All (λ f. IsFileName (name_of f)) i.files };
}

impl<'a> ManifestUriIter<'a> {
    /// The URIs of these files below the base.
    pub(crate) fn new(
        alloc: Global,
        base: &'a Rsync,
        files: FileListIter<'a>,
    ) -> ManifestUriIter<'a>
        requires { All (λ f. IsFileName (name_of f)) files }
        ensures { result ≡ uris_of base.now files.entry }
    {
        ManifestUriIter { alloc, base, files }
    }
}

impl<'a> Clone for ManifestUriIter<'a> {
    ghost is_clone = { λ i copy. copy ≡ i };

    fn clone(&self) -> Result<ManifestUriIter<'a>, AllocError> {
        Ok(ManifestUriIter {
            alloc: self.alloc,
            base: self.base,
            files: self.files.again(),
        })
    }
}

impl<'a> Iterator for ManifestUriIter<'a> {
    ghost use Rattle.std.specs.Iterator.{item_count};
    ghost use Rattle.rpki_files.specs.Manifest.Uris.{YieldsFirstOrMemory};

    type Item = Result<(Rsync, ManifestHash), AllocError>;

    ghost next_gives = { YieldsFirstOrMemory (λ rest. rest) };

    ghost remaining = { item_count (λ rest. rest) };

    fn next(&mut self) -> Option<Result<(Rsync, ManifestHash), AllocError>> {
        let file = self.files.next()?;
        Some(uri_of(self.alloc, self.base, file))
    }
}
