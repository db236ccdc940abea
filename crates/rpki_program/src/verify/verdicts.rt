//! The list of the good ones of the signatures that a check asks about.

ghost use Rattle.std.specs.Prelude.{◌≡◌, IfOk, string_bytes};
ghost use Rattle.rpki_rsa.specs.Signature.{is_rsa_signature};
ghost use Rattle.rpki_sigobj.specs.Object.{mode_of};
ghost use Rattle.rpki_verdicts.specs.Attested.{IsRtaListingOf, octets_of_chains};
ghost use Rattle.rpki_verdicts.specs.Lists.{IsListingOf};
ghost use Rattle.rpki_program.specs.Verify.Verdicts.{AreChecked, IsListReport};

use crate::verify::check::cause::unread_report;
use crate::verify::inputs::{read_each, read_one};
use crate::verify::report::Report;
use crate::verify::request::{RtaVerdictsRequest, VerdictsRequest};
use bytes::Bytes;
use rpki_cli::anchor_words::{is_locator, names_of_anchors};
use rpki_cli::{Store, StoreError, Unread, read_all};
use rpki_der::DecodeError;
use rpki_rsa::Rsa;
use rpki_verdicts::{ListingError, listing, rta_listing};
use std::alloc::{AllocError, Global};

/// The octets of the files of a check.
#[derive(Drop)]
pub struct CheckedFiles {
    pub object: Bytes,
    pub anchor: Bytes,
    pub chain: Vec<Bytes>,
}

/// Lists the good signatures that a check of an object asks about. Refuses where memory runs out.
pub fn verdicts<S: Store>(
    alloc: Global,
    request: &VerdictsRequest<'_>,
    store: &mut S,
) -> Result<Report, AllocError>
    ensures { IfOk result (λ r. IsListReport (S.told store.old) request.now (string_bytes r.out)
        r.status) }
{
    match read_checked(alloc, request, store) {
        Err(unread) => unread_report(alloc, unread),
        Ok(files) => {
            let CheckedFiles {
                object,
                anchor,
                chain,
            } = &files;
            list(alloc, request.manner.strict, object, anchor, chain)
        }
    }
}

/// Reads the files of a check.
fn read_checked<'a, S: Store>(
    alloc: Global,
    request: &VerdictsRequest<'a>,
    store: &mut S,
) -> Result<CheckedFiles, Unread<'a>>
    ensures { IfOk result (λ files. AreChecked (S.told store.old) request.now files) }
{
    let object = read_one(alloc, request.object, store)?;
    let anchor = read_one(alloc, request.ta, store)?;
    let chain = read_each(alloc, &request.cas, store)?;
    Ok(CheckedFiles {
        object,
        anchor,
        chain,
    })
}

/// Lists the good signatures that a check asks about, by the octets of the object, of the
/// certificate of the trust anchor, and of those of CAs. Refuses where memory runs out.
pub fn list(
    alloc: Global,
    strict: bool,
    object: &Bytes,
    anchor: &Bytes,
    chain: &[Bytes],
) -> Result<Report, AllocError>
    ensures { IfOk result (λ r. r.status ≡ 0 → IsListingOf (mode_of strict) is_rsa_signature
        object.now anchor.now chain.now (string_bytes r.out)) }
{
    match listing(alloc, object, strict, anchor, chain, &Rsa) {
        Ok(text) => Ok(Report::shown(alloc, text, 0)),
        Err(error) => not_listed(alloc, error),
    }
}

/// Lists the good signatures that a check of an attestation may ask about. A locator asks about
/// none. Refuses where memory runs out.
pub fn rta_verdicts<S: Store>(
    alloc: Global,
    request: &RtaVerdictsRequest<'_>,
    store: &mut S,
) -> Result<Report, AllocError> {
    let mut files = Vec::new(alloc);
    for word in &request.anchors {
        if !is_locator(word) {
            let names = names_of_anchors(alloc, &[*word])?;
            match read_all(alloc, &names, store) {
                Err(unread) => return unread_report(alloc, unread),
                Ok(chain) => files.push(chain)?,
            }
        }
    }
    match store.read(alloc, request.object) {
        Err(StoreError::Memory) => Err(AllocError),
        Err(StoreError::Unreadable(reason)) => {
            unread_report(alloc, Unread::Unreadable(request.object, reason))
        }
        Ok(object) => {
            let mut chains = Vec::new(alloc);
            for chain in &files {
                chains.push(chain.as_slice())?;
            }
            rta_list(alloc, &object, &chains)
        }
    }
}

/// Lists the good signatures that a check of an attestation may ask about, by its octets and those
/// of the certificates of chains. Refuses where memory runs out.
pub fn rta_list(alloc: Global, object: &Bytes, chains: &[&[Bytes]]) -> Result<Report, AllocError>
    ensures { IfOk result (λ r. r.status ≡ 0 → IsRtaListingOf is_rsa_signature object.now
        (octets_of_chains chains.now) (string_bytes r.out)) }
{
    match rta_listing(alloc, object, chains, &Rsa) {
        Ok(text) => Ok(Report::shown(alloc, text, 0)),
        Err(error) => not_listed(alloc, error),
    }
}

/// Why no list is made.
fn not_listed(alloc: Global, error: ListingError) -> Result<Report, AllocError>
    ensures { IfOk result (λ r. r.status ≡ 1) }
{
    let (what, fault) = match error {
        ListingError::Certificate(fault) => ("issuer refused: malformed\n", fault),
        ListingError::Object(fault) => ("malformed\n", fault),
    };
    match fault {
        DecodeError::Memory => Err(AllocError),
        DecodeError::Malformed | DecodeError::Content(_) => {
            Ok(Report::shown(alloc, String::from_str(alloc, what)?, 1))
        }
    }
}
