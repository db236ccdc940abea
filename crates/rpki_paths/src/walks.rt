//! Walks from several end-entity certificates up the same CAs.

ghost use Rattle.std.specs.Prelude.{◌≡◌, ◌≢◌, ℕ, ◌+◌, ◌*◌, ◌<◌, ◌≤◌, map, length, slice_index};
ghost use Rattle.std.specs.Prelude.{Some, ◌++◌};
ghost use Rattle.std.specs.Prelude.{IfOk, IfErr, OnOk};
ghost use Rattle.rpki_paths.specs.declared.walks.WalksFault.{WalksFault};
ghost use Rattle.rpki_paths.specs.Heads.{HeadsAmong};
ghost use Rattle.rpki_paths.specs.Kept.{AreRefused, AreWalked, walks_fault};
ghost use Rattle.rpki_paths.specs.Path.{IsDistinct};
ghost use Rattle.rpki_paths.specs.Walk.{placed};
ghost use Rattle.rpki_paths.specs.Texts.{walks_text};

use crate::certificate::{Certificate, KeyId, SignedCertificate};
use crate::key_id_index::KeyIdIndex;
use crate::pairs::append;
use crate::verdict_count::VerdictCount;
use crate::walker::{Path, PathFault, walk};
use std::alloc::{AllocError, Global};
use std::error::Error;
use std::fmt;
use std::sync::ledger::Ledger;

/// Why walks from end-entity certificates are refused.
#[derive(Clone, Copy, Debug, PartialEq, Eq)]
pub enum WalksFault {
    /// The walk from an end-entity certificate is refused, for this cause.
    NoPath(PathFault),
    /// The CA with this index, which counts from 0, stands on none of the paths. It is no `place`
    /// of a `Path`, which is one more.
    Unused(usize),
    /// There is no memory for the paths.
    Memory,
}

impl WalksFault {
    // The cause for several walks, from that of one.
    fn from_path(fault: PathFault) -> WalksFault
        ensures { result ≡ walks_fault fault }
    {
        match fault {
            PathFault::NoValidIssuer => WalksFault::NoPath(PathFault::NoValidIssuer),
            PathFault::Returns => WalksFault::NoPath(PathFault::Returns),
            PathFault::Revoked => WalksFault::NoPath(PathFault::Revoked),
            PathFault::NotCovered(family) => WalksFault::NoPath(PathFault::NotCovered(family)),
            PathFault::Memory => WalksFault::Memory,
        }
    }
}

impl From<AllocError> for WalksFault {
    ghost from_gives = { λ _ fault. fault ≡ WalksFault.Memory };

    fn from(_error: AllocError) -> WalksFault {
        WalksFault::Memory
    }
}

impl fmt::Display for WalksFault {
    ghost output = { λ fault. Some (walks_text fault) };

    fn fmt<W: fmt::Write>(&self, f: &mut fmt::Formatter<W>) -> fmt::Result {
        match self {
            WalksFault::NoPath(fault) => fault.fmt(f),
            WalksFault::Unused(place) => write!(f, "unused CA certificate {place}"),
            WalksFault::Memory => f.write_str("out of memory"),
        }
    }
}

impl Error for WalksFault {}

// The subject key identifiers of certificates.
fn subjects<C: Certificate>(alloc: Global, certs: &[C]) -> Result<Vec<KeyId>, AllocError>
    ensures { IfOk result (λ ids. ids.items ≡ map (λ c. (C.cert c).ski) certs.now) }
{
    let mut ids = Vec::new(alloc);
    for i in 0..certs.len() {
        ids.push(certs[i].subject())?;
    }
    Ok(ids)
}

// The place of the first CA that no walk has visited, whose number is 0, or how many CAs there are.
fn first_unvisited(visited: &[u64]) -> usize
    ensures before { (k : ℕ) → k < result → slice_index visited.now k ≢ 0 }
    ensures found { result < length visited.now → slice_index visited.now result ≡ 0 }
{
    for (i, turn) in visited.iter().enumerate() {
        if *turn == 0 {
            return i;
        }
    }
    visited.len()
}

/// Walks from each of some end-entity certificates up the CAs, in order. Among CAs with distinct
/// identifiers a call that succeeds asks for at most as many verdicts for each certificate as there
/// are CAs.
///
/// Refuses by `NoPath`, with its cause, at the first walk that is refused, else by `Unused` where a
/// CA stands on no path, or by `Memory`.
pub fn walk_each<C: SignedCertificate<L>, L: Ledger>(
    alloc: Global,
    ees: &[C],
    cas: &[C],
    asked: &mut VerdictCount<L>,
) -> Result<Vec<Path<C>>, WalksFault>
    ensures paths { IfOk result (λ paths.
        AreWalked C.cert (placed C.cert 1 cas.now) (map C.cert ees.now) paths.items) }
    ensures heads { IfOk result (λ paths. HeadsAmong (ees.now ++ cas.now) paths.items) }
    ensures refused { IfErr result (λ fault.
        AreRefused fault (placed C.cert 1 cas.now) (map C.cert ees.now)) }
    ensures cost { OnOk result (IsDistinct (placed C.cert 1 cas.now) →
        asked.new ≤ asked.old + length ees.now * length cas.now) }
{
    let ids = subjects(alloc, cas)?;
    let index = KeyIdIndex::of(alloc, &ids)?;
    let mut visited = vec![in alloc; 0u64; cas.len()]?;
    let mut paths = Vec::new(alloc);
    for i in 0..ees.len() {
        let turn = i as u64 + 1;
        match walk(alloc, &ees[i], cas, &index, &mut visited, turn, asked) {
            Ok(path) => append(&mut paths, path)?,
            Err(fault) => return Err(WalksFault::from_path(fault)),
        }
    }
    let place = first_unvisited(visited.as_slice());
    if place < cas.len() {
        return Err(WalksFault::Unused(place));
    }
    Ok(paths)
}
