//! Places that wait to be read, in an order that is fair to each.
//!
//! Each place stands on a branch below that of the place which told of it. The next one is on the
//! branch that has cost least so far, from the first place down: so a branch waits as soon as it
//! has cost more than those beside it. No proof says so; that no place is lost is proved.

ghost use Rattle.std.specs.Prelude.{◌≡◌, ◌∷◌, [], MatchOption, IfOk, OnOk, IsPermutation};
ghost use Rattle.rpki_relying_party.specs.Queue.{waiting_in, TakesNone};

use std::alloc::{AllocError, Global};
use std::collections::BTreeSet;
use std::marker::Model;

// So many levels of branches stand below the first. A place that is further below stands beside
// the one that told of it.
const LEVELS: u8 = 32;

// A place that was met, and all that was met below it.
#[derive(Drop)]
struct Branch<P> {
    // The branch that this one is a part of; the first is a part of itself.
    parent: usize,
    level: u8,
    // What was spent on it so far.
    spent: u64,
    // The place, while it waits.
    place: Option<Box<P>>,
    // The branches right below on which a place waits: what was spent on each, and which it is.
    open: BTreeSet<(u64, usize)>,
}

/// Places that wait.
#[derive(Drop)]
pub struct Queue<P> {
    branches: Vec<Branch<P>>,
}

impl<P> Model for Queue<P> {
    ghost use Rattle.std.specs.Prelude.{List};
    ghost use Rattle.rpki_relying_party.specs.Queue.{waiting_in};

    ghost Value = { List P };

    ghost view = { λ q. waiting_in q.branches.items };
}

/// A place whose turn it is, and its branch.
#[derive(Drop)]
pub struct Turn<P> {
    pub place: P,
    pub branch: usize,
}

impl<P: Drop> Queue<P> {
    /// No places, and the branch 0 of one that was read.
    pub fn new(alloc: Global) -> Result<Queue<P>, AllocError>
        ensures { IfOk result (λ queue. queue ≡ []) }
    {
        let mut branches = Vec::new(alloc);
        let open = BTreeSet::new(alloc);
        branches.push(Branch {
            parent: 0,
            level: 0,
            spent: 0,
            place: None,
            open,
        })?;
        Ok(Queue { branches })
    }

    /// Puts a place below the branch of the one that told of it.
    pub fn put(&mut self, alloc: Global, place: P, told_by: usize) -> Result<(), AllocError>
        ensures { OnOk result (IsPermutation (place ∷ self.old) self.new) }
    {
        put_below(&mut self.branches, alloc, place, told_by)
    }

    /// Puts a place back on the branch that it was taken from. It has its turn again once something
    /// was spent on the branch.
    pub fn put_back(&mut self, alloc: Global, place: P, branch: usize) -> Result<(), AllocError>
        ensures { OnOk result (IsPermutation (place ∷ self.old) self.new) }
    {
        put_at(&mut self.branches, alloc, place, branch)
    }

    /// Takes the place whose turn it is.
    pub fn take(&mut self) -> Option<Turn<P>>
        ensures { MatchOption result ((self.old ≡ []) × (self.new ≡ []))
            (λ turn. IsPermutation self.old (turn.place ∷ self.new)) }
    {
        let branch = fairest(&self.branches);
        match take_at(&mut self.branches, branch) {
            Some(place) => Some(Turn { place, branch }),
            None => take_any(&mut self.branches),
        }
    }

    /// So much was spent on a branch, and so on each that it is a part of.
    pub fn spend(&mut self, branch: usize, cost: u64) -> Result<(), AllocError>
        ensures { self.new ≡ self.old }
    {
        spend_on(&mut self.branches, branch, cost)
    }
}

// The branch below which a place stands that this one told of, and its level.
fn spot_below<P>(branches: &[Branch<P>], told_by: usize) -> (usize, u8) {
    match branches.get(told_by) {
        None => (0, 0),
        Some(branch) if branch.level < LEVELS => (told_by, branch.level + 1),
        Some(branch) => (branch.parent, branch.level),
    }
}

// A new branch for a place.
fn put_below<P: Drop>(
    branches: &mut Vec<Branch<P>>,
    alloc: Global,
    place: P,
    told_by: usize,
) -> Result<(), AllocError>
    ensures { OnOk result (IsPermutation (place ∷ waiting_in branches.old.items)
        (waiting_in branches.new.items)) }
{
    let (parent, level) = spot_below(branches.as_slice(), told_by);
    let at = branches.len();
    let place = Some(Box::new(alloc, place)?);
    let open = BTreeSet::new(alloc);
    branches.push(Branch {
        parent,
        level,
        spent: 0,
        place,
        open,
    })?;
    set_open(branches, parent, (0, at), true)
}

// Puts a place on a branch. Where that is none, or another waits there, one stands on a new branch.
fn put_at<P: Drop>(
    branches: &mut Vec<Branch<P>>,
    alloc: Global,
    place: P,
    at: usize,
) -> Result<(), AllocError>
    ensures { OnOk result (IsPermutation (place ∷ waiting_in branches.old.items)
        (waiting_in branches.new.items)) }
{
    if at >= branches.len() {
        return put_below(branches, alloc, place, at);
    }
    let place = Box::new(alloc, place)?;
    match branches[at].place.replace(place) {
        None => Ok(()),
        Some(other) => put_below(branches, alloc, Box::into_inner(other), at),
    }
}

// A branch below this one has a place that waits, or none.
fn set_open<P: Drop>(
    branches: &mut Vec<Branch<P>>,
    parent: usize,
    below: (u64, usize),
    is_open: bool,
) -> Result<(), AllocError>
    ensures { waiting_in branches.new.items ≡ waiting_in branches.old.items }
{
    if parent >= branches.len() || parent == below.1 {
        return Ok(());
    }
    let open = &mut branches[parent].open;
    if is_open {
        open.insert(below)?;
    } else {
        open.remove(&below);
    }
    Ok(())
}

// The branch whose turn it is.
fn fairest<P>(branches: &[Branch<P>]) -> usize {
    let mut at = 0;
    for _ in 0..=LEVELS {
        let Some(branch) = branches.get(at) else {
            return at;
        };
        if branch.place.is_some() {
            return at;
        }
        let Some((_, below)) = branch.open.first() else {
            return at;
        };
        at = *below;
    }
    at
}

// The place that waits on a branch, if one does.
fn take_at<P: Drop>(branches: &mut Vec<Branch<P>>, at: usize) -> Option<P>
    ensures { MatchOption result (TakesNone at branches.old.items branches.new.items)
        (λ place. IsPermutation (waiting_in branches.old.items)
        (place ∷ waiting_in branches.new.items)) }
{
    if at >= branches.len() {
        return None;
    }
    match branches[at].place.take() {
        None => None,
        Some(place) => Some(Box::into_inner(place)),
    }
}

// The first place that waits, if any does.
fn take_any<P: Drop>(branches: &mut Vec<Branch<P>>) -> Option<Turn<P>>
    ensures { MatchOption result
        ((waiting_in branches.old.items ≡ []) × (waiting_in branches.new.items ≡ []))
        (λ turn. IsPermutation (waiting_in branches.old.items)
        (turn.place ∷ waiting_in branches.new.items)) }
{
    for branch in 0..branches.len() {
        if let Some(place) = take_at(branches, branch) {
            return Some(Turn { place, branch });
        }
    }
    None
}

// So much was spent on this branch, and so on each that it is a part of.
fn spend_on<P: Drop>(
    branches: &mut Vec<Branch<P>>,
    branch: usize,
    cost: u64,
) -> Result<(), AllocError>
    ensures { waiting_in branches.new.items ≡ waiting_in branches.old.items }
{
    let mut at = branch;
    for _ in 0..=LEVELS {
        let parent = raise(branches, at, cost)?;
        if parent == at {
            return Ok(());
        }
        at = parent;
    }
    Ok(())
}

// Whether a place waits on a branch, or on one below.
fn is_open<P>(branch: &Branch<P>) -> bool {
    branch.place.is_some() || !branch.open.is_empty()
}

// So much was spent on this branch alone. The answer is the branch that it is a part of.
fn raise<P: Drop>(branches: &mut Vec<Branch<P>>, at: usize, cost: u64) -> Result<usize, AllocError>
    ensures { waiting_in branches.new.items ≡ waiting_in branches.old.items }
{
    if at >= branches.len() {
        return Ok(at);
    }
    let branch = &mut branches[at];
    let before = branch.spent;
    let after = before.saturating_add(cost);
    branch.spent = after;
    let parent = branch.parent;
    let is_open = is_open(branch);
    set_open(branches, parent, (before, at), false)?;
    set_open(branches, parent, (after, at), is_open)?;
    Ok(parent)
}
