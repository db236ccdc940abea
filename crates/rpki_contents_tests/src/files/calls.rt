//! Hashes, single entries, names of files, a manifest that gets stale, and the URIs of its files.

use crate::contents::is_written;
use bytes::Bytes;
use rpki_basics::standin::StandIn;
use rpki_basics::{DigestAlgorithm, ManifestRule, Rsync, Time, uri};
use rpki_der::{DecodeError, Encode};
use rpki_faults::VerificationError;
use rpki_files::{
    FileAndHash, FileNameAndHash, ManifestContent, ManifestHash, ManifestHashMismatch,
    ManifestUriIter,
};
use std::alloc::{AllocError, Global};

/// The SHA-256 digest of `foobar` (FIPS 180-4).
static FOOBAR: [u8; 32] = [
    0xC3, 0xAB, 0x8F, 0xF1, 0x37, 0x20, 0xE8, 0xAD, 0x90, 0x47, 0xDD, 0x39, 0x46, 0x6B, 0x3C, 0x89,
    0x74, 0xE5, 0x92, 0xC2, 0xFA, 0x38, 0x3D, 0x4A, 0x39, 0x60, 0x71, 0x4C, 0xAE, 0xF0, 0xC4, 0xF2,
];

/// Whether the digest is the hash of `foobar` alone.
fn is_hash(hash: &ManifestHash) -> bool {
    hash.verify(&StandIn, b"foobar").is_ok()
        && hash.verify(&StandIn, b"barfoo").is_err()
        && hash.algorithm() == DigestAlgorithm::Sha256
        && hash.as_slice() == &FOOBAR[..]
}

/// Whether a hash that is cut short is another one, which no octets have.
fn is_other(hash: &ManifestHash) -> bool {
    let cut = ManifestHash::new(Bytes::from_static(&FOOBAR[..31]), DigestAlgorithm::sha256());
    cut != *hash && cut.verify(&StandIn, b"foobar").is_err()
}

/// Whether a copy of the hash is it.
fn is_hash_copied(hash: &ManifestHash) -> Result<bool, AllocError> {
    let copy = hash.clone()?;
    Ok(copy == *hash && is_hash(&copy) && is_other(&copy))
}

/// Whether a hash of other octets is told.
fn is_mismatch_told(alloc: Global) -> Result<bool, AllocError> {
    let mismatch = ManifestHashMismatch;
    let text = format!(in alloc; "{mismatch}")?;
    let is_told = text.as_str() == "manifest hash mismatch";
    Ok(is_told && VerificationError::from(mismatch) == VerificationError::ManifestHash)
}

#[test]
fn hashes(rt: HostRuntime) -> Result<(), AllocError> {
    let hash = ManifestHash::new(Bytes::from_static(&FOOBAR[..]), DigestAlgorithm::sha256());
    assert!(rt; is_hash_copied(&hash)? && is_mismatch_told(rt.alloc())?);
    Ok(())
}

/// Whether a copy of an entry of a manifest has its parts.
fn is_entry_copied(entry: &FileAndHash<&'static [u8], &'static [u8]>) -> Result<bool, AllocError> {
    let copy = entry.clone()?;
    let is_equal = copy.file() == entry.file() && copy.hash() == entry.hash();
    let (file, hash) = copy.into_pair();
    Ok(is_equal && file == &b"a.cer"[..] && hash == &b"h"[..])
}

/// Whether a copy of an entry of a checklist has its parts.
fn is_named_copied(entry: &FileNameAndHash<Bytes, Bytes>) -> Result<bool, AllocError> {
    let (name, hash) = entry.clone()?.into_pair();
    Ok(
        name.as_ref() == entry.file_name()
            && hash == *entry.hash()
            && name.is_some()
            && hash.as_slice() == b"h".as_slice(),
    )
}

#[test]
fn entries(rt: HostRuntime) -> Result<(), AllocError> {
    let entry = FileAndHash::new(&b"a.cer"[..], &b"h"[..]);
    let written = entry.encode_ref().to_bytes(rt.alloc());
    let (name, hash): (Bytes, Bytes) = (Bytes::from_static(b"a"), Bytes::from_static(b"h"));
    let named = FileNameAndHash::new(Some(name), hash);
    assert!(rt;
        is_written(written, b"\x30\x0B\x16\x05a.cer\x03\x02\x00h")?
            && is_entry_copied(&entry)?
            && is_named_copied(&named)?
    );
    Ok(())
}

/// A manifest of the files `file.cer` and `A.roa`, whose next update is at the beginning of
/// 2024-01-08.
static TWO: &[u8] = b"0U\x02\x01\x0C\x18\x0F20240101000000Z\x18\x0F20240108000000Z\x06\x09`\
    \x86H\x01e\x03\x04\x02\x010#0\x11\x16\x08file.cer\x03\x05\x00hash0\x0E\x16\x05A.roa\x03\x05\
    \x00HASH";

/// Where a manifest is published, and the URIs of these files.
static BASES: [(&[u8], [&str; 2]); 5] = [
    (
        b"rsync://example.com/m/p",
        [
            "rsync://example.com/m/p/file.cer",
            "rsync://example.com/m/p/A.roa",
        ],
    ),
    (
        b"rsync://example.com/m/p/",
        [
            "rsync://example.com/m/p/file.cer",
            "rsync://example.com/m/p/A.roa",
        ],
    ),
    (
        b"rsync://example.com/m",
        [
            "rsync://example.com/m/file.cer",
            "rsync://example.com/m/A.roa",
        ],
    ),
    (
        b"rsync://example.com/m/",
        [
            "rsync://example.com/m/file.cer",
            "rsync://example.com/m/A.roa",
        ],
    ),
    (
        b"RSYNC://a:1/m/q?/..x/",
        [
            "RSYNC://a:1/m/q?/..x/file.cer",
            "RSYNC://a:1/m/q?/..x/A.roa",
        ],
    ),
];

/// The hashes of these files.
static HASHES: [&[u8]; 2] = [b"hash", b"HASH"];

/// Whether the manifest is stale from this second of 2024-01-08 on.
fn is_stale(manifest: &ManifestContent, second: u8) -> bool {
    match Time::utc(2024, 1, 8, 0, 0, second) {
        Some(now) => manifest.is_stale(now),
        None => false,
    }
}

/// Whether the manifest has both files, and is stale after its next update.
fn is_told(manifest: &ManifestContent) -> bool {
    manifest.len() == 2
        && !manifest.is_empty()
        && manifest.file_hash_alg() == DigestAlgorithm::Sha256
        && !is_stale(manifest, 0)
        && is_stale(manifest, 1)
}

/// Whether the next file has this URI and this hash.
fn is_next(uris: &mut ManifestUriIter<'_>, uri: &str, hash: &[u8]) -> Result<bool, AllocError> {
    match uris.next() {
        Some(Ok((found, digest))) => Ok(found.as_str() == uri && digest.as_slice() == hash),
        Some(Err(error)) => Err(error),
        None => Ok(false),
    }
}

/// Whether the files have these URIs, and the last one is the next of a copy of what is left.
fn are_uris(uris: &mut ManifestUriIter<'_>, wanted: &[&str; 2]) -> Result<bool, AllocError> {
    let is_first = is_next(uris, wanted[0], HASHES[0])?;
    let mut copy = uris.clone()?;
    let is_last = is_next(uris, wanted[1], HASHES[1])? && is_next(&mut copy, wanted[1], HASHES[1])?;
    Ok(is_first && is_last && copy.next().is_none())
}

/// Whether the files have these URIs below this base.
fn is_below(
    alloc: Global,
    manifest: &ManifestContent,
    base: &[u8],
    wanted: &[&str; 2],
) -> Result<bool, AllocError> {
    match Rsync::from_bytes(Bytes::copy_from_slice(alloc, base)?) {
        Ok(base) => are_uris(&mut manifest.iter_uris(alloc, &base), wanted),
        Err(uri::Error::Memory) => Err(AllocError),
        Err(_) => Ok(false),
    }
}

/// Whether they have those of each base.
fn are_below(alloc: Global, manifest: &ManifestContent) -> Result<bool, AllocError> {
    for (base, wanted) in &BASES {
        if !is_below(alloc, manifest, base, wanted)? {
            return Ok(false);
        }
    }
    Ok(true)
}

/// Whether a manifest is told as it is, and its files are below each base.
fn is_manifest(alloc: Global) -> Result<bool, AllocError> {
    match ManifestContent::decode(alloc, Bytes::from_static(TWO), ManifestRule::Registered) {
        Ok(manifest) => {
            let is_told = is_told(&manifest);
            let are_below = are_below(alloc, &manifest);
            drop(manifest);
            Ok(is_told && are_below?)
        }
        Err(DecodeError::Memory) => Err(AllocError),
        Err(_) => Ok(false),
    }
}

#[test]
fn a_manifest(rt: HostRuntime) -> Result<(), AllocError> {
    assert!(rt; is_manifest(rt.alloc())?);
    Ok(())
}
