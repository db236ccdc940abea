//! Why an object gives its payloads, or why it gives none.

mod given;
mod way;

use crate::verify::report::Report;
use crate::verify::request::ExplainRequest;
use given::{read_locator, read_target};
use rpki_basics::{Crypto, ProviderLimit, Time};
use rpki_cli::Store;
use rpki_relying_party::{FolderCopy, Folders, Pass, locator_name};
use std::alloc::{AllocError, AllocFailed, Global};
use std::fmt::Write;
use way::Way;

/// How an explanation ends, if not with a yes.
#[derive(Drop)]
pub(crate) enum End {
    /// The answer is no, and the last line says why.
    No,
    /// There is no answer: the exit status, and what is said of it.
    Failed(u8, String),
    /// No memory was to be had.
    Memory,
}

impl From<AllocError> for End {
    fn from(_: AllocError) -> End {
        End::Memory
    }
}

impl<T: Drop> From<AllocFailed<T>> for End {
    fn from(failed: AllocFailed<T>) -> End {
        drop(failed);
        End::Memory
    }
}

/// Why an object of a copy gives its payloads at a moment, or why it gives none.
///
/// From the object it goes up by the URIs of issuers, to the trust anchor of the locator, over 100
/// certificates at most, and down again: each publication point on the way is read as a pass reads
/// it. Each step has a line: on the way up the issuer, on the way down the manifest, the revocation
/// list, the entry, and the certificate or the object, each good or with the first check that fails.
/// The last line is the answer. The status is 0 for a yes and 1 for a no, 2 where the locator is
/// none, and 4 where it or the object can't be read.
///
/// A certificate is explained too, a yes for that of the trust anchor or of a CA; and a manifest, a
/// yes if its point is all there. No file is read that is larger than the folders let it be, but
/// for the locator. Work and memory are in proportion to the files of the points on the way. What
/// else a pass may leave unread for its limit is not looked at.
pub fn explain<S: Store, F: Folders, C: Crypto>(
    alloc: Global,
    request: &ExplainRequest<'_>,
    moment: Time,
    store: &mut S,
    folders: &F,
    crypto: &C,
) -> Result<Report, AllocError> {
    match explain_under(alloc, request, moment, store, folders, crypto) {
        Ok(report) => Ok(report),
        Err(End::Failed(status, err)) => Ok(Report::complaint(alloc, err, status)),
        Err(_) => Err(AllocError),
    }
}

// Reads the locator and the object, and explains it.
fn explain_under<S: Store, F: Folders, C: Crypto>(
    alloc: Global,
    request: &ExplainRequest<'_>,
    moment: Time,
    store: &mut S,
    folders: &F,
    crypto: &C,
) -> Result<Report, End> {
    let (folder, tal) = (request.copy, request.tal);
    let locator = read_locator(alloc, tal, store)?;
    let name = locator_name(tal);
    let copy = FolderCopy {
        folders,
        folder,
        name,
    };
    let target = read_target(alloc, request.target, &copy, folder, folders)?;
    let providers = ProviderLimit::Narrow;
    let pass = Pass {
        copy: &copy,
        crypto,
        moment,
        providers,
    };
    let mut way = Way {
        alloc,
        pass: &pass,
        folder,
        out: String::new(alloc),
    };
    let ended = way.explain(tal, &locator, &target);
    let Way { out, .. } = way;
    report(alloc, request.target, out, ended)
}

// The report of these lines, which ended so.
fn report(
    alloc: Global,
    word: &str,
    mut out: String,
    ended: Result<(), End>,
) -> Result<Report, End> {
    match ended {
        Ok(()) => Ok(Report::shown(alloc, out, 0)),
        Err(End::No) => {
            write!(out, "no: {word} gives nothing\n")?;
            Ok(Report::shown(alloc, out, 1))
        }
        Err(end) => Err(end),
    }
}
