//! Manifests and checklists, as those who compare them with files use them.

ghost use Rattle.std.specs.Prelude.{◌≡◌, ◌↔◌, ◌<◌, ◌≤◌, ℕ, List, IsTrue, Contains, length};
ghost use Rattle.std.specs.Prelude.{MatchOption, MatchResult};
ghost use Rattle.std.specs.List.{Any};
ghost use Rattle.rpki_der.specs.declared.mode.Mode.TheVariants.{Der};
ghost use Rattle.rpki_der.specs.Grammar.{Front, HasNoFront};
ghost use Rattle.rpki_der.specs.Read.Reads.{Refuses};
ghost use Rattle.rpki_basics.specs.Moment.{stamp};
ghost use Rattle.rpki_files.specs.Manifest.{Manifest, ManifestForm};

use bytes::Bytes;
use rpki::crypto::Crypto;
use rpki::der::DecodeError;
use rpki::manifest::{ManifestContent, ManifestHash, ManifestRule};
use rpki::rsc::ResourceSignedChecklist;
use rpki::x509::Time;
use std::alloc::Global;

/// Whether a manifest names a file with this name and this hash.
pub fn names_file(manifest: &ManifestContent, name: &[u8], hash: &[u8]) -> bool
    ensures { IsTrue result ↔ Contains manifest.now.files
        (record { file = name.now; hash = hash.now }) }
{
    let mut files = manifest.iter();
    while let Some(file) = files.next() {
        if file.file == name && file.hash == hash {
            return true;
        }
    }
    false
}

/// Whether a manifest names a file with this name that has these octets.
pub fn names_octets<C: Crypto>(
    manifest: &ManifestContent,
    crypto: &C,
    name: &[u8],
    octets: &[u8],
) -> bool
    ensures { IsTrue result ↔ Contains manifest.now.files
        (record { file = name.now; hash = C.digest_of crypto.now octets.now }) }
{
    let digest = crypto.digest(octets);
    names_file(manifest, name, digest.as_slice())
}

/// How many files the manifest at the front of octets in DER names, or `None` where it is overdue.
pub fn files_due(
    alloc: Global,
    octets: Bytes,
    rule: ManifestRule,
    now: Time,
) -> Result<Option<usize>, DecodeError>
    ensures { MatchResult result
        (λ due. (m : Manifest) × (rest : List ℕ) × Front (ManifestForm rule Der) octets m rest
        × MatchOption due (stamp m.next_update < stamp now)
        (λ count. (stamp now ≤ stamp m.next_update) × (count ≡ length m.files)))
        (λ error. Refuses error (HasNoFront (ManifestForm rule Der) octets)) }
{
    let manifest = ManifestContent::decode(alloc, octets, rule)?;
    if manifest.is_stale(now) {
        drop(manifest);
        return Ok(None);
    }
    let count = manifest.len();
    drop(manifest);
    Ok(Some(count))
}

/// Whether a checklist has a file with this hash, under whatever name.
pub fn has_hash(checklist: &ResourceSignedChecklist, hash: &[u8]) -> bool
    ensures { IsTrue result ↔ Any (λ file. file.hash ≡ hash.now) checklist.now.files }
{
    let mut files = checklist.iter();
    while let Some(file) = files.next() {
        if file.hash == hash {
            return true;
        }
    }
    false
}

/// Whether a checklist has a document, under whatever name.
pub fn attests<C: Crypto>(checklist: &ResourceSignedChecklist, crypto: &C, document: &[u8]) -> bool
    ensures { IsTrue result
        ↔ Any (λ file. file.hash ≡ C.digest_of crypto.now document.now) checklist.now.files }
{
    let digest = crypto.digest(document);
    has_hash(checklist, digest.as_slice())
}

/// Whether these octets have the hash that a manifest lists of a file.
pub fn is_listed_file<C: Crypto>(hash: &ManifestHash, crypto: &C, octets: &[u8]) -> bool
    ensures { IsTrue result ↔ (C.digest_of crypto.now octets.now ≡ hash.now) }
{
    match hash.verify(crypto, octets) {
        Ok(()) => true,
        Err(_) => false,
    }
}
