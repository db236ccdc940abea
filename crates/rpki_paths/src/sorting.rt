//! Certificates, in carried order.

ghost use Rattle.std.specs.Prelude.{◌≡◌, ◌++◌, ◌∷◌, [], List, IfOk, IfErr, IfSome, IfNone};
ghost use Rattle.std.specs.Prelude.{OnOk, ◌≤◌, ◌+◌, ◌*◌, true, length, map};
ghost use Rattle.rpki_paths.specs.Cert.{IsIn};
ghost use Rattle.rpki_paths.specs.Heads.{AreFrom};
ghost use Rattle.rpki_paths.specs.Index.{IsIndex};
ghost use Rattle.rpki_paths.specs.Pairing.{Crl, HasCrl};
ghost use Rattle.rpki_paths.specs.Sorting.{AreSorted, WhyNotOne, WhyNotSorted, cas_of};
ghost use Rattle.rpki_paths.specs.Taking.{AllVerify, AllVerifyEach, FitsNone, IsFirst, left_of};

use crate::carried::{Candidate, CarriedCert};
use crate::key_id_index::KeyIdIndex;
use crate::pairs::{Accepts, append, index_of, take_first};
use crate::verdict_count::VerdictCount;
use std::alloc::{AllocError, Global};
use std::sync::ledger::Ledger;

/// Certificates by their kind, each in carried order. Those of CAs have their CRLs.
#[derive(Drop)]
pub(crate) struct Sorted<C> {
    pub(crate) ees: Vec<C>,
    pub(crate) cas: Vec<C>,
}

/// Why certificates are not sorted.
#[derive(Drop)]
pub(crate) enum SortFault<F> {
    /// One is not good.
    NotGood(F),
    /// A CA finds no CRL.
    NoCrl,
    /// There is no memory.
    Memory,
}

impl<F> From<AllocError> for SortFault<F> {
    ghost use Rattle.rpki_paths.specs.declared.sorting.SortFault.{SortFault};

    ghost from_gives = { λ _ fault. fault ≡ SortFault.Memory };

    fn from(_error: AllocError) -> SortFault<F> {
        SortFault::Memory
    }
}

// A CA with the first CRL that fits it of those that are left.
fn listed<C: CarriedCert<R> + Accepts<R, L>, R, L: Ledger>(
    cert: &C,
    crls: &[R],
    index: &KeyIdIndex,
    taken: &mut [bool],
    asked: &mut VerdictCount<L>,
) -> Option<C>
    requires index { IsIndex (map C.held crls.now) index.now }
    requires as_many { length taken.old ≡ length crls.now }
    ensures some { IfSome result (λ ca. (l : Crl)
        × (C.cert ca ≡ record (C.cert cert.now) { revokes = l.serials })
        × IsFirst (HasCrl (C.cert cert.now)) l (map C.crl (left_of taken.new crls.now))
        (map C.crl (left_of taken.old crls.now))) }
    ensures none { IfNone result
        (FitsNone (HasCrl (C.cert cert.now)) (map C.crl (left_of taken.old crls.now))) }
    ensures same { IfSome result (C.same cert.now) }
    ensures as_many { length taken.new ≡ length taken.old }
    ensures cost { AllVerify (λ d. d.ski) (λ l. l.aki) (λ d l. l.verifies d.key)
        (C.cert cert.now) (map C.crl crls.now) → asked.new ≤ asked.old + 1 }
{
    match take_first(cert, crls, index, taken, asked) {
        None => None,
        Some(place) => Some(cert.with_crl(&crls[place])),
    }
}

// Sorts one certificate more.
fn sort_one<X, C, R, L: Ledger>(
    candidate: &X,
    crls: &[R],
    index: &KeyIdIndex,
    taken: &mut [bool],
    sorted: &mut Sorted<C>,
    asked: &mut VerdictCount<L>,
) -> Result<(), SortFault<X::Fault>>
where
    X: Candidate<C>,
    C: CarriedCert<R> + Accepts<R, L>,
    requires index { IsIndex (map C.held crls.now) index.now }
    requires as_many { length taken.old ≡ length crls.now }
    ensures sorted { OnOk result ((done : List X) → (all : List Crl) →
        AreSorted X.is_good X.seen X.of_ca C.cert done all sorted.old.ees.items
        sorted.old.cas.items (map C.crl (left_of taken.old crls.now)) →
        AreSorted X.is_good X.seen X.of_ca C.cert (done ++ candidate.now ∷ []) all
        sorted.new.ees.items sorted.new.cas.items (map C.crl (left_of taken.new crls.now))) }
    ensures as_many { length taken.new ≡ length taken.old }
    ensures from_ees { OnOk result ((xs : List X) → IsIn candidate.now xs →
        AreFrom X.admits C.same xs sorted.old.ees.items →
        AreFrom X.admits C.same xs sorted.new.ees.items) }
    ensures from_cas { OnOk result ((xs : List X) → IsIn candidate.now xs →
        AreFrom X.admits C.same xs sorted.old.cas.items →
        AreFrom X.admits C.same xs sorted.new.cas.items) }
    ensures refused { IfErr result (WhyNotOne X.is_good X.because X.seen X.of_ca candidate.now
        (map C.crl (left_of taken.old crls.now))) }
    ensures cost { OnOk result ((X.of_ca candidate.now ≡ true →
        AllVerify (λ d. d.ski) (λ l. l.aki) (λ d l. l.verifies d.key) (X.seen candidate.now)
        (map C.crl crls.now)) →
        asked.new ≤ asked.old + length (cas_of X.of_ca (candidate.now ∷ []))) }
{
    let cert = match candidate.admit() {
        Ok(cert) => cert,
        Err(fault) => return Err(SortFault::NotGood(fault)),
    };
    if !candidate.is_of_ca() {
        append(&mut sorted.ees, cert)?;
        return Ok(());
    }
    match listed(&cert, crls, index, taken, asked) {
        None => Err(SortFault::NoCrl),
        Some(ca) => {
            append(&mut sorted.cas, ca)?;
            Ok(())
        }
    }
}

// Sorts some certificates, in carried order.
fn sort_each<X, C, R, L: Ledger>(
    certs: &[X],
    crls: &[R],
    index: &KeyIdIndex,
    taken: &mut [bool],
    sorted: &mut Sorted<C>,
    asked: &mut VerdictCount<L>,
) -> Result<(), SortFault<X::Fault>>
where
    X: Candidate<C>,
    C: CarriedCert<R> + Accepts<R, L>,
    requires index { IsIndex (map C.held crls.now) index.now }
    requires as_many { length taken.old ≡ length crls.now }
    requires start { AreSorted X.is_good X.seen X.of_ca C.cert [] (map C.crl crls.now)
        sorted.old.ees.items sorted.old.cas.items (map C.crl (left_of taken.old crls.now)) }
    requires from_ees { AreFrom X.admits C.same certs.now sorted.old.ees.items }
    requires from_cas { AreFrom X.admits C.same certs.now sorted.old.cas.items }
    ensures sorted { OnOk result (AreSorted X.is_good X.seen X.of_ca C.cert certs.now
        (map C.crl crls.now) sorted.new.ees.items sorted.new.cas.items
        (map C.crl (left_of taken.new crls.now))) }
    ensures from_ees { OnOk result (AreFrom X.admits C.same certs.now sorted.new.ees.items) }
    ensures from_cas { OnOk result (AreFrom X.admits C.same certs.now sorted.new.cas.items) }
    ensures refused { IfErr result (WhyNotSorted X.is_good X.because X.seen X.of_ca certs.now
        (map C.crl crls.now)) }
    ensures cost { OnOk result (AllVerifyEach (λ d. d.ski) (λ l. l.aki) (λ d l. l.verifies d.key)
        (map X.seen (cas_of X.of_ca certs.now)) (map C.crl crls.now) →
        asked.new ≤ asked.old + 1 * length (map X.seen (cas_of X.of_ca certs.now))) }
{
    for i in 0..certs.len() {
        match sort_one(&certs[i], crls, index, taken, sorted, asked) {
            Ok(()) => {}
            Err(fault) => {
                return Err(fault);
            }
        }
    }
    Ok(())
}

// Sorts certificates by their kind. In carried order each has to be good, and each CA takes the
// first CRL that fits it and is left. An error is the first that is not so, or want of memory.
// Where a CRL that names a CA is also verified by its key, at most one verdict is asked of each CA.
pub(crate) fn sort<X, C, R, L: Ledger>(
    alloc: Global,
    certs: &[X],
    crls: &[R],
    asked: &mut VerdictCount<L>,
) -> Result<Sorted<C>, SortFault<X::Fault>>
where
    X: Candidate<C>,
    C: CarriedCert<R> + Accepts<R, L>,
    ensures sorted { IfOk result (λ s. (left : List Crl)
        × AreSorted X.is_good X.seen X.of_ca C.cert certs.now (map C.crl crls.now)
        s.ees.items s.cas.items left) }
    ensures from_ees { IfOk result (λ s. AreFrom X.admits C.same certs.now s.ees.items) }
    ensures from_cas { IfOk result (λ s. AreFrom X.admits C.same certs.now s.cas.items) }
    ensures refused { IfErr result (WhyNotSorted X.is_good X.because X.seen X.of_ca certs.now
        (map C.crl crls.now)) }
    ensures cost { OnOk result (AllVerifyEach (λ d. d.ski) (λ l. l.aki) (λ d l. l.verifies d.key)
        (map X.seen (cas_of X.of_ca certs.now)) (map C.crl crls.now) →
        asked.new ≤ asked.old + 1 * length (map X.seen (cas_of X.of_ca certs.now))) }
{
    let index = index_of::<C, R>(alloc, crls)?;
    let mut taken = vec![in alloc; false; crls.len()]?;
    let mut sorted = Sorted {
        ees: Vec::new(alloc),
        cas: Vec::new(alloc),
    };
    match sort_each(certs, crls, &index, &mut taken, &mut sorted, asked) {
        Ok(()) => Ok(sorted),
        Err(fault) => {
            drop(sorted);
            Err(fault)
        }
    }
}
