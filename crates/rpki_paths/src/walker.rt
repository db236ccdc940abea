//! The walk from an end-entity certificate up the carried CAs.

ghost use Rattle.std.specs.Prelude.{map, ◌≡◌, ◌≢◌, ℕ, ◌+◌, ◌<◌, ◌≤◌, length, IfOk, IfErr, OnOk};
ghost use Rattle.std.specs.Prelude.{Ok, None, Some, ◌∷◌, IfSome, MatchOption};
ghost use Rattle.std.specs.Prelude.{IsFalse, slice_index};
ghost use Rattle.rpki_paths.specs.declared.walker.Found.{Found};
ghost use Rattle.rpki_paths.specs.declared.walker.PathFault.{PathFault};
ghost use Rattle.rpki_paths.specs.Index.{IsIndex, IsNamedBy};
ghost use Rattle.rpki_paths.specs.Path.{HasNoIssuer, IsDistinct};
ghost use Rattle.rpki_paths.specs.Walk.{FoundSays, EndsWith, GoesOn, IsRefused, IsWalked};
ghost use Rattle.rpki_paths.specs.Cert.{IsIn, at_place};
ghost use Rattle.rpki_paths.specs.Walk.{KeepsVisited, placed};
ghost use Rattle.rpki_paths.specs.Texts.{path_text};

use crate::certificate::SignedCertificate;
use crate::key_id_index::KeyIdIndex;
use crate::path_resources::PathResources;
use crate::verdict_count::VerdictCount;
use rpki_faults::{Family, VerificationError};
use std::alloc::{AllocError, Global};
use std::error::Error;
use std::fmt;
use std::sync::ledger::Ledger;

/// The head of a path, its place (0 for the end-entity certificate, else one more than the CA's
/// index), the resources of the path, and whether it is anchored.
#[derive(Debug, Drop)]
pub struct Path<C> {
    pub head: C,
    pub place: usize,
    pub sets: PathResources,
    pub anchored: bool,
}

impl<C: Copy> Clone for Path<C> {
    ghost is_clone = { λ path copy. copy ≡ path };

    fn clone(&self) -> Result<Self, AllocError> {
        Ok(Path {
            head: self.head,
            place: self.place,
            sets: self.sets.clone()?,
            anchored: self.anchored,
        })
    }
}

impl<C: Drop> Path<C> {
    // A path up to this head, which is not anchored.
    fn up_to(head: C, place: usize, sets: PathResources) -> Path<C>
        ensures head { result.head ≡ head }
        ensures place { result.place ≡ place }
        ensures sets { result.sets ≡ sets }
        ensures not_anchored { IsFalse result.anchored }
    {
        Path {
            head,
            place,
            sets,
            anchored: false,
        }
    }
}

/// Why a walk from an end-entity certificate is refused.
#[derive(Clone, Copy, Debug, PartialEq, Eq)]
pub enum PathFault {
    /// CAs are named as the issuer, and the key of none verifies the certificate.
    NoValidIssuer,
    /// The issuer stands on the path already.
    Returns,
    /// The issuer has revoked the certificate.
    Revoked,
    /// The issuer does not have the numbers of this family.
    NotCovered(Family),
    /// There is no memory for the sets.
    Memory,
}

impl From<AllocError> for PathFault {
    ghost from_gives = { λ _ fault. fault ≡ PathFault.Memory };

    fn from(_error: AllocError) -> PathFault {
        PathFault::Memory
    }
}

impl fmt::Display for PathFault {
    ghost output = { λ fault. Some (path_text fault) };

    fn fmt<W: fmt::Write>(&self, f: &mut fmt::Formatter<W>) -> fmt::Result {
        match self {
            PathFault::NoValidIssuer => f.write_str("no valid issuer"),
            PathFault::Returns => f.write_str("path returns to its issuer"),
            PathFault::Revoked => f.write_str("certificate revoked"),
            PathFault::NotCovered(family) => VerificationError::Overclaimed(*family).fmt(f),
            PathFault::Memory => f.write_str("out of memory"),
        }
    }
}

impl Error for PathFault {}

/// What a search for an issuer found.
#[derive(Clone, Copy)]
pub enum Found {
    /// No carried CA is named.
    NoIssuer,
    /// The key of no named CA verifies the certificate.
    Invalid,
    /// The first that verifies it, by its place among the CAs.
    Issuer(usize),
}

// The first of the named CAs whose key verifies the certificate.
fn find_issuer<C: SignedCertificate<L>, L: Ledger>(
    cert: &C,
    cas: &[C],
    named: &[usize],
    asked: &mut VerdictCount<L>,
) -> Found
    requires { IsNamedBy (map (λ c. (C.cert c).ski) cas.now) (C.cert cert.now).aki named.now }
    ensures says { FoundSays (placed C.cert 1 cas.now) (C.cert cert.now).aki
        (C.cert cert.now).verifies result }
    ensures in_range { (i : ℕ) → result ≡ Found.Issuer i → i < length cas.now }
    ensures cost { asked.new ≤ asked.old + length named.now }
    ensures none_asked { result ≡ Found.NoIssuer → asked.new ≡ asked.old }
{
    let mut left = named;
    while let Some((first, rest)) = left.split_first() {
        let i = *first;
        let ca = &cas[i];
        if cert.is_signed_by(ca, asked) {
            return Found::Issuer(i);
        }
        left = rest;
    }
    if named.is_empty() {
        Found::NoIssuer
    } else {
        Found::Invalid
    }
}

// The place of the CA that comes next above a head, or none where the head is the top. An error is
// the first cause for which no CA does.
fn issuer_of<C: SignedCertificate<L>, L: Ledger>(
    head: &C,
    cas: &[C],
    index: &KeyIdIndex,
    visited: &[u64],
    turn: u64,
    sets: &PathResources,
    asked: &mut VerdictCount<L>,
) -> Result<Option<usize>, PathFault>
    requires index { IsIndex (map (λ c. (C.cert c).ski) cas.now) index.now }
    requires as_many { length visited.now ≡ length cas.now }
    ensures next { IfOk result (λ next. MatchOption next
        (HasNoIssuer (placed C.cert 1 cas.now) (C.cert head.now))
        (GoesOn (placed C.cert 1 cas.now) (C.cert head.now) sets.now visited.now turn)) }
    ensures refused { IfErr result (λ fault.
        EndsWith fault (placed C.cert 1 cas.now) (C.cert head.now) sets.now visited.now turn) }
    ensures in_range { IfOk result (λ next. IfSome next (λ i. i < length cas.now)) }
    ensures cost { OnOk result (IsDistinct (placed C.cert 1 cas.now) → asked.new ≤ asked.old + 1) }
    ensures none_asked { result ≡ Ok None → asked.new ≡ asked.old }
{
    if head.is_self_signed() {
        return Ok(None);
    }
    match find_issuer(head, cas, index.named(head.authority()), asked) {
        Found::NoIssuer => Ok(None),
        Found::Invalid => Err(PathFault::NoValidIssuer),
        Found::Issuer(i) => {
            let ca = &cas[i];
            if visited[i] == turn {
                return Err(PathFault::Returns);
            }
            if ca.revokes(head) {
                return Err(PathFault::Revoked);
            }
            match sets.uncovered(head.overclaim(), ca) {
                Some(family) => Err(PathFault::NotCovered(family)),
                None => Ok(Some(i)),
            }
        }
    }
}

/// Walks from an end-entity certificate up to the top: to a head that is self-signed, or that names
/// no carried CA. Each issuer is the first of those named whose key verifies what is below. The
/// index has the CAs' subject key identifiers. For each CA `visited` has the number of the walk
/// that last took it; `turn` is that of this one. An error is the first cause, of the certificate
/// where the walk stops, in the order of `PathFault`, or want of memory.
pub fn walk<C: SignedCertificate<L>, L: Ledger>(
    alloc: Global,
    ee: &C,
    cas: &[C],
    index: &KeyIdIndex,
    visited: &mut [u64],
    turn: u64,
    asked: &mut VerdictCount<L>,
) -> Result<Path<C>, PathFault>
    requires index { IsIndex (map (λ c. (C.cert c).ski) cas.now) index.now }
    requires as_many { length visited.old ≡ length cas.now }
    requires fresh { (k : ℕ) → k < length visited.old → slice_index visited.old k ≢ turn }
    ensures path { IfOk result (λ path. IsWalked (placed C.cert 1 cas.now)
        (at_place 0 (C.cert ee.now)) (at_place path.place (C.cert path.head))
        path.sets visited.new turn) }
    ensures not_anchored { IfOk result (λ path. IsFalse path.anchored) }
    ensures head { IfOk result (λ path. IsIn path.head (ee.now ∷ cas.now)) }
    ensures refused { IfErr result (λ fault.
        IsRefused fault (placed C.cert 1 cas.now) (at_place 0 (C.cert ee.now))) }
    ensures as_many { length visited.new ≡ length visited.old }
    ensures others { KeepsVisited turn visited.old visited.new }
    ensures cost { OnOk result (IsDistinct (placed C.cert 1 cas.now) →
        asked.new ≤ asked.old + length cas.now) }
{
    let mut head = *ee;
    let mut place: usize = 0;
    let mut sets = PathResources::none().with_issuer(alloc, ee.overclaim(), ee)?;
    for step in 0..visited.len() + 1 {
        match issuer_of(&head, cas, index, visited, turn, &sets, asked) {
            Ok(None) => {
                return Ok(Path::up_to(head, place, sets));
            }
            Ok(Some(i)) => {
                let ca = &cas[i];
                sets = sets.with_issuer(alloc, head.overclaim(), ca)?;
                visited[i] = turn;
                head = *ca;
                place = i + 1;
            }
            Err(fault) => {
                drop(sets);
                return Err(fault);
            }
        }
    }
    drop(sets);
    Err(PathFault::Returns)
}
