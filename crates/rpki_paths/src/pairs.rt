//! Pairing of what an attestation carries, in carried order.

ghost use Rattle.std.specs.Prelude.{◌≡◌, ◌≤◌, ◌+◌, ◌*◌, ℕ, Bool, List, [], ◌∷◌, ◌++◌, map, length};
ghost use Rattle.std.specs.Prelude.{IsTrue, IsFalse, IfOk, IfErr, IfNone, IfSome, OnOk, Some};
ghost use Rattle.rpki_paths.specs.declared.pairs.PairFault.{PairFault};
ghost use Rattle.rpki_paths.specs.Index.{IsIndex};
ghost use Rattle.rpki_paths.specs.Taking.{left_of, FitsNone, IsTakenAt};
ghost use Rattle.rpki_paths.specs.Pairing.{IsPair};
ghost use Rattle.rpki_paths.specs.Taking.{AllVerify, AllVerifyEach, ArePaired, AreUnpaired};
ghost use Rattle.rpki_paths.specs.Texts.{pair_text};

use crate::certificate::KeyId;
use crate::key_id_index::KeyIdIndex;
use crate::verdict_count::VerdictCount;
use std::alloc::{AllocError, Global};
use std::error::Error;
use std::fmt;
use std::sync::ledger::Ledger;

/// What takes one of some others: by a key identifier, and by a verdict on the two.
pub trait Seeks<Y> {
    // The identifier that it seeks.
    ghost sought: { Self → List ℕ };

    // The identifier of one of the others.
    ghost held: { Y → List ℕ };

    // The verdict on the two.
    ghost verdict: { Self → Y → Bool };

    // How many verdicts on signatures one answer takes.
    ghost price: { ℕ };

    /// The identifier that it seeks.
    fn seeks(&self) -> KeyId
        ensures { result ≡ sought self.now };

    /// The identifier of one of the others.
    fn identifier(other: &Y) -> KeyId
        ensures { result ≡ held other.now };

    // What costs no verdict on a signature depends on none.
    ghost free_is_yes: { (x : Self) (y : Y) → price ≡ 0 → IsTrue (verdict x y) };
}

/// What takes one of some others, where the verdict on the two is asked on this count, and on no
/// other.
pub trait Accepts<Y, L: Ledger>: Seeks<Y> {
    /// The verdict on the two.
    fn accepts(&self, other: &Y, asked: &mut VerdictCount<L>) -> bool
        ensures says { result ≡ Self.verdict self.now other.now }
        ensures counts { asked.new ≡ asked.old + Self.price };
}

/// Why items cannot be paired.
#[derive(Clone, Copy, Debug, PartialEq, Eq)]
pub enum PairFault {
    /// None that is left fits the item at this place.
    Unpaired(usize),
    /// Some are left over.
    LeftOver,
    /// There is no memory for the places.
    Memory,
}

impl From<AllocError> for PairFault {
    ghost from_gives = { λ _ fault. fault ≡ PairFault.Memory };

    fn from(_error: AllocError) -> PairFault {
        PairFault::Memory
    }
}

impl fmt::Display for PairFault {
    ghost output = { λ fault. Some (pair_text fault) };

    fn fmt<W: fmt::Write>(&self, f: &mut fmt::Formatter<W>) -> fmt::Result {
        match self {
            PairFault::Unpaired(place) => write!(f, "nothing left for item {place}"),
            PairFault::LeftOver => f.write_str("items left over"),
            PairFault::Memory => f.write_str("out of memory"),
        }
    }
}

impl Error for PairFault {}

// The verdict on an item that is left. One that is taken costs none.
fn accepts_left<X: Accepts<Y, L>, Y, L: Ledger>(
    taker: &X,
    other: &Y,
    is_taken: bool,
    asked: &mut VerdictCount<L>,
) -> bool
    ensures yes { IsTrue result → IsTrue (X.verdict taker.now other.now) }
    ensures left { IsTrue result → IsFalse is_taken }
    ensures refused { IsFalse result → IsFalse is_taken → IsFalse (X.verdict taker.now other.now) }
    ensures taken { IsTrue is_taken → asked.new ≡ asked.old }
    ensures counts { IsFalse is_taken → asked.new ≡ asked.old + X.price }
{
    if is_taken {
        return false;
    }
    taker.accepts(other, asked)
}

/// Takes the first of some others that fits and is left, and answers its place. The index has the
/// others' identifiers, and `taken` says of each of them whether it is taken.
pub fn take_first<X: Accepts<Y, L>, Y, L: Ledger>(
    taker: &X,
    others: &[Y],
    index: &KeyIdIndex,
    taken: &mut [bool],
    asked: &mut VerdictCount<L>,
) -> Option<usize>
    requires index { IsIndex (map X.held others.now) index.now }
    requires as_many { length taken.old ≡ length others.now }
    ensures first { IfSome result (IsTakenAt (IsPair X.sought X.held X.verdict taker.now)
        others.now taken.old taken.new) }
    ensures none { IfNone result
        (FitsNone (IsPair X.sought X.held X.verdict taker.now) (left_of taken.old others.now)) }
    ensures unchanged { IfNone result (taken.new ≡ taken.old) }
    ensures as_many { length taken.new ≡ length taken.old }
    ensures cost { AllVerify X.sought X.held X.verdict taker.now (left_of taken.old others.now) →
        asked.new ≤ asked.old + X.price }
{
    let mut left = index.named(Some(taker.seeks()));
    while let Some((first, rest)) = left.split_first() {
        let place = *first;
        if accepts_left(taker, &others[place], taken[place], asked) {
            taken[place] = true;
            return Some(place);
        }
        left = rest;
    }
    None
}

// The identifiers of the others.
fn identifiers<X: Seeks<Y>, Y>(alloc: Global, others: &[Y]) -> Result<Vec<KeyId>, AllocError>
    ensures { IfOk result (λ ids. ids.items ≡ map X.held others.now) }
{
    let mut ids = Vec::new(alloc);
    for i in 0..others.len() {
        ids.push(X::identifier(&others[i]))?;
    }
    Ok(ids)
}

// The index of the others by their identifiers.
pub(crate) fn index_of<X: Seeks<Y>, Y>(
    alloc: Global,
    others: &[Y],
) -> Result<KeyIdIndex, AllocError>
    ensures { IfOk result (IsIndex (map X.held others.now)) }
{
    let ids = identifiers::<X, Y>(alloc, others)?;
    KeyIdIndex::of(alloc, &ids)
}

// Adds an item after the others.
pub(crate) fn append<T: Drop>(items: &mut Vec<T>, item: T) -> Result<(), AllocError>
    ensures { IfOk result (λ _. items.new.items ≡ items.old.items ++ item ∷ []) }
{
    items.push(item)?;
    Ok(())
}

/// Pairs each of some items with one of the others: in order, each takes the first that fits and is
/// left. Answers the places of the partners, none of them twice. Refuses by `Unpaired` at the first
/// item that finds none, by `LeftOver` where others are left over, or by `Memory`. Where others are
/// left over there is no pairing at all; nor where an item finds none, if those that one item fits
/// are alike.
pub fn pair_off<X: Accepts<Y, L>, Y, L: Ledger>(
    alloc: Global,
    takers: &[X],
    others: &[Y],
    asked: &mut VerdictCount<L>,
) -> Result<Vec<usize>, PairFault>
    ensures paired { IfOk result (λ places.
        ArePaired (IsPair X.sought X.held X.verdict) takers.now others.now places.items) }
    ensures refused { IfErr result
        (AreUnpaired (IsPair X.sought X.held X.verdict) takers.now others.now) }
    ensures cost { OnOk result
        (AllVerifyEach X.sought X.held X.verdict takers.now others.now →
        asked.new ≤ asked.old + X.price * length takers.now) }
{
    let index = index_of::<X, Y>(alloc, others)?;
    let mut taken = vec![in alloc; false; others.len()]?;
    let mut places = Vec::new(alloc);
    for i in 0..takers.len() {
        match take_first(&takers[i], others, &index, &mut taken, asked) {
            Some(place) => append(&mut places, place)?,
            None => return Err(PairFault::Unpaired(i)),
        }
    }
    if takers.len() < others.len() {
        return Err(PairFault::LeftOver);
    }
    Ok(places)
}
