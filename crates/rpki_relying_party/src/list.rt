//! The revocation list of a publication point.

ghost use Rattle.std.specs.Prelude.{◌≡◌, ◌++◌, ◌⊎◌, ℕ, Contains, IfOk, MatchOption};
ghost use Rattle.std.specs.Prelude.{MatchResult, None, Some, List as ListOf};
ghost use Rattle.rpki_der.specs.declared.mode.Mode.TheVariants.{Der};
ghost use Rattle.rpki_der.specs.Form.Decodes.{IsOnlyFront};
ghost use Rattle.rpki_der.specs.Grammar.{HasNoFront};
ghost use Rattle.rpki_basics.specs.Uri.{join_text};
ghost use Rattle.rpki_crls.specs.Crl.{CrlForm};
ghost use Rattle.rpki_faults.specs.Checks.{AnswersFirstFault};
ghost use Rattle.rpki_files.specs.Manifest.Uris.{uris_of};
ghost use Rattle.rpki_relying_party.specs.Costs.{ListCosts, ListStarts};
ghost use Rattle.rpki_relying_party.specs.Lacks.{WhyNoList, list_checks};
ghost use Rattle.rpki_relying_party.specs.Outcome.{IsOutcome};
ghost use Rattle.rpki_relying_party.specs.Passes.{setting};
ghost use Rattle.rpki_relying_party.specs.Point.{IsListAt};
ghost use Rattle.rpki_relying_party.specs.declared.cause.Cause.TheVariants as causes;
ghost use Rattle.rpki_relying_party.specs.declared.cause.ListFault.TheVariants as faults;
ghost use Rattle.rpki_relying_party.specs.declared.cause.Stop.TheVariants as stops;

use crate::cause::{Cause, ListFault, Stop};
use crate::copy::Repository;
use crate::manifest::Manifest;
use crate::pass::Pass;
use crate::reader::{list_cost, read_listed};
use crate::revoked::SortedCrl;
use bytes::Bytes;
use rpki_basics::{Crypto, DigestAlgorithm, Rsync, Time};
use rpki_certs::{Cert, ResourceCert};
use rpki_crls::Crl;
use rpki_der::DecodeError;
use rpki_files::{ManifestContent, ManifestHash};
use std::alloc::{AllocError, Global};

/// A revocation list, and its URI.
#[derive(Drop)]
pub(crate) struct List {
    pub uri: Rsync,
    pub crl: SortedCrl,
}

// What stands in octets after these, if they begin with them.
fn after<'a>(octets: &'a [u8], front: &[u8]) -> Option<&'a [u8]>
    ensures { MatchOption result ((rest : ListOf ℕ) → ¬ (octets.now ≡ front.now ++ rest))
        (λ rest. octets.now ≡ front.now ++ rest.now) }
{
    octets.strip_prefix(front)
}

// The name of which a URI is that below a folder, if it is that of one.
fn name_below<'a>(folder: &Rsync, uri: &'a Rsync) -> Option<&'a [u8]>
    ensures { MatchOption result ((name : ListOf ℕ) → ¬ (uri.now ≡ join_text folder.now name))
        (λ name. uri.now ≡ join_text folder.now name.now) }
{
    let rest = after(uri.as_slice(), folder.as_slice())?;
    if folder.as_slice().ends_with(b"/") {
        Some(rest)
    } else {
        after(rest, b"/")
    }
}

// A hash of these octets.
fn copy_hash(alloc: Global, octets: &[u8]) -> Result<ManifestHash, AllocError>
    ensures { IfOk result (λ hash. hash ≡ octets.now) }
{
    let octets = Bytes::copy_from_slice(alloc, octets)?;
    Ok(ManifestHash::new(octets, DigestAlgorithm::sha256()))
}

// The first file of a manifest that has this URI, with its hash. Names are compared, and not their
// URIs, which all begin with the folder: so time follows the octets of the manifest.
fn find_listed(
    alloc: Global,
    manifest: &ManifestContent,
    folder: &Rsync,
    uri: &Rsync,
) -> Result<Option<ManifestHash>, AllocError>
    ensures { IfOk result (λ found. MatchOption found
        ((hash : ListOf ℕ) → ¬ Contains (uris_of folder.now manifest.now.files) (uri.now, hash))
        (λ hash. Contains (uris_of folder.now manifest.now.files) (uri.now, hash))) }
{
    let Some(name) = name_below(folder, uri) else {
        return Ok(None);
    };
    let mut files = manifest.iter();
    while let Some(file) = files.next() {
        if file.file == name {
            return Ok(Some(copy_hash(alloc, file.hash)?));
        }
    }
    Ok(None)
}

// The revocation list at the front of octets.
fn list_in(alloc: Global, octets: Bytes) -> Result<Crl, Stop>
    ensures { MatchResult result
        (λ crl. (rest : ListOf ℕ) × IsOnlyFront (CrlForm Der) octets crl.list rest)
        (λ stop. (stop ≡ stops.Memory)
        ⊎ ((stop ≡ stops.Refused (causes.List faults.Malformed))
        × HasNoFront (CrlForm Der) octets)) }
{
    match Crl::decode(alloc, octets) {
        Ok(crl) => Ok(crl),
        Err(DecodeError::Memory) => Err(Stop::Memory),
        Err(DecodeError::Malformed) => Err(Stop::Refused(Cause::List(ListFault::Malformed))),
        Err(DecodeError::Content(fault)) => {
            drop(fault);
            Err(Stop::Refused(Cause::List(ListFault::Malformed)))
        }
    }
}

// Why a revocation list is none of the CA's, or revokes the certificate of the manifest, by the
// first check that fails.
fn check_list<C: Crypto>(
    list: &Crl,
    ca: &ResourceCert,
    signer: &ResourceCert,
    crypto: &C,
    now: Time,
) -> Result<(), ListFault>
    ensures { AnswersFirstFault (list_checks (C.is_signed crypto.now) now ca.now
        signer.now.cert.certificate list.now.list) result }
{
    if list.authority_key_identifier() != ca.cert().subject_key_identifier() {
        return Err(ListFault::OtherKey);
    }
    if list
        .verify_signature(ca.cert().subject_public_key_info(), crypto)
        .is_err()
    {
        return Err(ListFault::BadSignature);
    }
    if now < list.this_update() {
        return Err(ListFault::NotYet(list.this_update()));
    }
    if list.next_update() < now {
        return Err(ListFault::Stale(list.next_update()));
    }
    if list.contains(signer.cert().serial_number()) {
        return Err(ListFault::RevokesManifest);
    }
    Ok(())
}

// The URI of the revocation list that a certificate names.
fn list_uri_of(signer: &ResourceCert) -> Option<&Rsync>
    ensures { MatchOption result
        (signer.now.cert.certificate.tbs.extensions.locations.crl ≡ None)
        (λ uri. signer.now.cert.certificate.tbs.extensions.locations.crl ≡ Some uri.now) }
{
    signer.cert().crl_uri()
}

// A list with a copy of its URI, and with its serial numbers in order.
fn keep_list(alloc: Global, uri: &Rsync, crl: Crl) -> Result<List, AllocError>
    ensures uri { IfOk result (λ list. list.uri ≡ uri.now) }
    ensures crl { IfOk result (λ list. list.crl ≡ crl) }
{
    match uri.clone() {
        Err(error) => {
            drop(crl);
            Err(error)
        }
        Ok(uri) => match SortedCrl::new(alloc, crl) {
            Err(error) => {
                drop(uri);
                Err(error)
            }
            Ok(crl) => Ok(List { uri, crl }),
        },
    }
}

/// The revocation list that the certificate of a manifest names, where it is a listed file, a list
/// of the CA, and does not revoke that certificate (RFC 6487, section 5; RFC 9286, section 6).
pub(crate) fn find_crl<R: Repository, C: Crypto>(
    alloc: Global,
    pass: &Pass<'_, R, C>,
    ca: &ResourceCert,
    folder: &Rsync,
    manifest: &Manifest,
    room: &mut u64,
) -> Result<List, Stop>
    ensures { IsOutcome (ListStarts (setting R.finds C.digest_of C.is_signed pass.now) folder.now
        manifest.now.signer.cert.certificate manifest.now.content)
        (λ list n. IsListAt (setting R.finds C.digest_of C.is_signed pass.now) ca.now folder.now
        manifest.now.signer.cert.certificate manifest.now.content list.uri list.crl.list
        × ListCosts (setting R.finds C.digest_of C.is_signed pass.now) folder.now
        manifest.now.signer.cert.certificate manifest.now.content n)
        (λ cause n. WhyNoList (setting R.finds C.digest_of C.is_signed pass.now) ca.now folder.now
        manifest.now.signer.cert.certificate manifest.now.content cause
        × ListCosts (setting R.finds C.digest_of C.is_signed pass.now) folder.now
        manifest.now.signer.cert.certificate manifest.now.content n)
        room.old room.new result }
{
    let Some(uri) = list_uri_of(&manifest.signer) else {
        return Err(Stop::Refused(Cause::List(ListFault::Unlisted)));
    };
    let Some(hash) = find_listed(alloc, &manifest.content, folder, uri)? else {
        return Err(Stop::Refused(Cause::List(ListFault::Unlisted)));
    };
    let octets = read_listed(alloc, pass, uri, &hash, list_cost(uri), room)?;
    let crl = list_in(alloc, octets)?;
    if let Err(fault) = check_list(&crl, ca, &manifest.signer, pass.crypto, pass.moment) {
        drop(crl);
        return Err(Stop::Refused(Cause::List(fault)));
    }
    let list = keep_list(alloc, uri, crl)?;
    Ok(list)
}
