//! A walk over places, of each key of which one is read.

ghost use Rattle.std.specs.Prelude.{◌≡◌, ◌⊎◌, ℕ, ◌<◌, ◌≤◌, ◌∷◌, [], List, IfOk, OnOk};
ghost use Rattle.std.specs.Prelude.{◌+◌, ◌/◌, ◌++◌, ◌^◌, IsTrue, IsPermutation, MatchOption};
ghost use Rattle.rpki_relying_party.specs.Paths.{IsSaid, IsFound, IsChild, Leads, TellsOne, Passes};
ghost use Rattle.rpki_relying_party.specs.Walk.{IsWalk, places_left, first_room};
ghost use Rattle.rpki_relying_party.specs.Steps.{has_key, spent_for, read_as, IsTelling};
ghost use Rattle.rpki_relying_party.specs.Steps.{Adds, Spends, AreMet, IsHeard, ArePassed, IsTurn};
ghost use Rattle.rpki_relying_party.specs.Steps.{IsVisit, passed_by};

use crate::places::{Places, Reading, Told};
use crate::queue::{Queue, Turn};
use std::alloc::{AllocError, Global};
use std::collections::{BTreeMap, BTreeSet};
use std::marker::Model;

/// Why a place was left unread.
#[derive(Clone, Copy, Debug, PartialEq, Eq)]
pub enum Why {
    /// No work was left for it.
    Limit,
    /// No memory was to be had to read it.
    Memory,
}

/// A place that was met and left unread.
#[derive(Drop)]
pub struct Unread<P> {
    pub place: P,
    pub why: Why,
    /// How much of the limit its last try took, which ran out of memory: none, where it was left
    /// for the limit, or where a try of another place with its key ran out of memory.
    pub tried: u64,
}

impl<P> Model for Unread<P> {
    ghost use Rattle.rpki_relying_party.specs.Walk.{Left};

    ghost Value = { Left P };

    ghost view = { λ u. record { place = u.place; why = u.why; tried = u.tried } };
}

// The keys of the places that were read, those of which a try ran out of memory, how much was spent
// on cut tries of each key, and the places that wait.
#[derive(Drop)]
struct Front<P> {
    read: BTreeSet<Vec<u8>>,
    lacking: BTreeSet<Vec<u8>>,
    spent: BTreeMap<Vec<u8>, u64>,
    queue: Queue<P>,
}

// A place whose turn it is, its branch and its key.
#[derive(Drop)]
struct Due<P> {
    place: P,
    branch: usize,
    key: Vec<u8>,
}

// One key more.
fn add(keys: &mut BTreeSet<Vec<u8>>, key: Vec<u8>) -> Result<(), AllocError>
    ensures { OnOk result (Adds key.items (has_key keys.old) (has_key keys.new)) }
{
    keys.insert(key)?;
    Ok(())
}

// How much was spent on cut tries of a key.
fn spent_on(spent: &BTreeMap<Vec<u8>, u64>, key: &[u8]) -> u64
    ensures { result ≡ spent_for spent.now key.now }
{
    match spent.get(key) {
        None => 0,
        Some(spent) => *spent,
    }
}

// A try of a key was cut, which had this room.
fn count_cut(spent: &mut BTreeMap<Vec<u8>, u64>, key: Vec<u8>, room: u64) -> Result<(), AllocError>
    requires { spent_for spent.now key.items + room < 2 ^ 64 }
    ensures { OnOk result (Spends key.items room (spent_for spent.old) (spent_for spent.new)) }
{
    let now = spent_on(spent, key.as_slice()) + room;
    spent.insert(key, now)?;
    Ok(())
}

// These places are met, which the one on this branch lists, and wait.
fn meet_all<P: Drop>(
    alloc: Global,
    children: Vec<P>,
    told_by: usize,
    queue: &mut Queue<P>,
) -> Result<(), AllocError>
    ensures { OnOk result (AreMet children.items queue.old queue.new) }
{
    for place in children {
        queue.put(alloc, place, told_by)?;
    }
    Ok(())
}

// A place was read, and told this.
fn hear<P: Places>(
    alloc: Global,
    places: &P,
    due: Due<P::Place>,
    told: Told<P::Place, P::Finding>,
    front: &mut Front<P::Place>,
    found: &mut P::Found,
) -> Result<(), AllocError>
    ensures heard { OnOk result (IsHeard P.lists P.has due.key.items told.said.items
        told.children.items found.old found.new (has_key front.old.read) (has_key front.new.read)
        front.old.queue front.new.queue) }
    ensures lacking { OnOk result (front.new.lacking ≡ front.old.lacking) }
    ensures spent { OnOk result (front.new.spent ≡ front.old.spent) }
{
    let Due { place, branch, key } = due;
    let Told { said, children, .. } = told;
    drop(place);
    add(&mut front.read, key)?;
    places.keep(alloc, said, found)?;
    meet_all(alloc, children, branch, &mut front.queue)
}

// Tries to read a place within this room: how much was spent on it.
fn visit<P: Places>(
    alloc: Global,
    places: &P,
    due: Due<P::Place>,
    room: u64,
    front: &mut Front<P::Place>,
    found: &mut P::Found,
    unread: &mut Vec<Unread<P::Place>>,
) -> Result<u64, AllocError>
    requires { spent_for front.now.spent due.key.items + room < 2 ^ 64 }
    ensures { IfOk result (λ done. IsVisit (P.tells places.now) (P.costs places.now)
        (P.exceeds places.now) P.lists P.has due.place due.key.items room done found.old found.new
        unread.old.items unread.new.items (has_key front.old.read) (has_key front.new.read)
        (has_key front.old.lacking) (has_key front.new.lacking) (spent_for front.old.spent)
        (spent_for front.new.spent) front.old.queue front.new.queue) }
{
    match places.read(alloc, &due.place, room) {
        Err(_) => {
            let Due { place, key, .. } = due;
            add(&mut front.lacking, key)?;
            unread.push(Unread {
                place,
                why: Why::Memory,
                tried: room,
            })?;
            Ok(room)
        }
        Ok(Reading::Cut) => {
            let Due { place, branch, key } = due;
            count_cut(&mut front.spent, key, room)?;
            front.queue.put_back(alloc, place, branch)?;
            Ok(room)
        }
        Ok(Reading::Told(told)) => {
            let cost = told.cost;
            hear(alloc, places, due, told, front, found)?;
            Ok(cost)
        }
    }
}

// A place is passed over, since one with its key was read; or it is left unread, since a try of one
// ran out of memory.
fn pass_by<P: Drop>(place: P, is_read: bool, unread: &mut Vec<Unread<P>>) -> Result<(), AllocError>
    ensures { OnOk result (unread.new.items ≡ unread.old.items ++ passed_by place is_read) }
{
    if is_read {
        drop(place);
        return Ok(());
    }
    unread.push(Unread {
        place,
        why: Why::Memory,
        tried: 0,
    })?;
    Ok(())
}

// The place whose turn it is, of those that are still to be tried. The others are passed over, or
// left unread.
fn next_due<P: Places>(
    alloc: Global,
    places: &P,
    read: &BTreeSet<Vec<u8>>,
    lacking: &BTreeSet<Vec<u8>>,
    queue: &mut Queue<P::Place>,
    unread: &mut Vec<Unread<P::Place>>,
) -> Result<Option<Due<P::Place>>, AllocError>
    ensures { IfOk result (λ next. MatchOption next
        (ArePassed (P.key_of places.now) (has_key read.now) (has_key lacking.now) unread.old.items
        unread.new.items queue.old queue.new × (queue.new ≡ []))
        (λ due. IsTurn (P.key_of places.now) (has_key read.now) (has_key lacking.now)
        unread.old.items unread.new.items queue.old queue.new due.place due.key.items)) }
{
    while let Some(turn) = queue.take() {
        let Turn { place, branch } = turn;
        let key = places.key(alloc, &place)?;
        let is_read = read.contains(&key);
        if !is_read && !lacking.contains(&key) {
            return Ok(Some(Due { place, branch, key }));
        }
        pass_by(place, is_read, unread)?;
        queue.spend(branch, 0)?;
    }
    Ok(None)
}

// The place whose turn it is, where there is room to read one.
fn next_turn<P: Places>(
    alloc: Global,
    places: &P,
    read: &BTreeSet<Vec<u8>>,
    lacking: &BTreeSet<Vec<u8>>,
    queue: &mut Queue<P::Place>,
    room: u64,
    unread: &mut Vec<Unread<P::Place>>,
) -> Result<Option<Due<P::Place>>, AllocError>
    ensures { IfOk result (λ next. MatchOption next
        (ArePassed (P.key_of places.now) (has_key read.now) (has_key lacking.now) unread.old.items
        unread.new.items queue.old queue.new × ((room ≡ 0) ⊎ (queue.new ≡ [])))
        (λ due. IsTurn (P.key_of places.now) (has_key read.now) (has_key lacking.now)
        unread.old.items unread.new.items queue.old queue.new due.place due.key.items
        × (0 < room))) }
{
    if room == 0 {
        return Ok(None);
    }
    next_due(alloc, places, read, lacking, queue, unread)
}

// The room for a try: as much again as was spent on tries of the key, and the first room, so that
// it doubles from try to try; no more than is left.
fn room_for(spent: u64, limit: u64, left: u64) -> u64
    requires { 0 < left }
    ensures some { 0 < result }
    ensures within { result ≤ left }
    ensures small { result ≤ spent + first_room limit }
    ensures whole { (result ≡ spent + first_room limit) ⊎ (result ≡ left) }
{
    let wanted = spent.saturating_add(limit / 8192 + 1);
    if left < wanted { left } else { wanted }
}

/// Walks on from a place that was read within the limit, and told this: reads its children, theirs,
/// and so on. What the places say is put to `found`; the answer is the places that were met and
/// left unread.
///
/// Of each key one place is read, and others are passed over, whichever place lists them. Of a key
/// of which none was read each place is left unread, as often as it is listed: for memory, where a
/// try of the key ran out of it; or else for the limit, and only where the whole limit is spent. A
/// try that ran out of memory counts as all its room, and its key is not tried again.
///
/// All work together is at most `limit`. A key is first tried with room for an 8192nd part of it,
/// and one. A place whose reading is cut waits again. What was spent on it belongs to its key: the
/// next try of a place with the key has as much room as all before, and the first room, though
/// never more than is left. So tries that are cut cost each key at most twice what reading one of
/// its places exceeds, or three times where none of them is read, however often one is listed.
///
/// A place that is listed waits, even where its key was met before. So memory is in proportion to
/// the number of children that the places list which were read, each as often as it is listed, and
/// to the keys of the places that were read, cut or left.
///
/// What is new in `found` is said by a place to which a chain of children leads from the start.
/// Where places with one key tell one thing, whenever they are read, something alike to all that a
/// place says to which a chain leads is found, unless some place on that chain has the key of an
/// unread one. Where memory runs out nothing is known of `found`.
///
/// The next place is on the branch that has cost least so far, from the start down, which no clause
/// says.
pub fn walk_from<P: Places>(
    alloc: Global,
    places: &P,
    start: P::Place,
    told: Told<P::Place, P::Finding>,
    limit: u64,
    found: &mut P::Found,
) -> Result<Vec<Unread<P::Place>>, AllocError>
    requires { IsTelling (P.tells places.now) (P.costs places.now) start limit told }
    ensures reads { IfOk result (λ unread. IsWalk (P.tells places.now) (P.costs places.now)
        (P.exceeds places.now) (P.key_of places.now) (P.lists found.old) (P.lists found.new)
        (P.has found.old) (P.has found.new) (read_as start told) limit unread.items) }
    ensures sound { OnOk result ((x : P.Finding) → P.lists found.new x
        → P.lists found.old x ⊎ IsSaid (P.tells places.now) start x) }
    ensures complete { IfOk result (λ unread.
        TellsOne (P.tells places.now) (P.key_of places.now) P.alike
        → (path : List P.Place) (p : P.Place)
        → Leads (IsChild (P.tells places.now)) start path p
        → IsFound (P.tells places.now) P.alike (P.has found.new) p
        ⊎ Passes (P.key_of places.now) (places_left unread.items) start path) }
{
    let (read, lacking, spent) = (
        BTreeSet::new(alloc),
        BTreeSet::new(alloc),
        BTreeMap::new(alloc),
    );
    let queue = Queue::new(alloc)?;
    let mut front = Front {
        read,
        lacking,
        spent,
        queue,
    };
    let mut unread = Vec::new(alloc);
    let mut room = limit - told.cost;
    let key = places.key(alloc, &start)?;
    let first = Due {
        place: start,
        branch: 0,
        key,
    };
    hear(alloc, places, first, told, &mut front, found)?;
    while let Some(due) = next_turn(
        alloc,
        places,
        &front.read,
        &front.lacking,
        &mut front.queue,
        room,
        &mut unread,
    )? {
        let branch = due.branch;
        let allowed = room_for(spent_on(&front.spent, due.key.as_slice()), limit, room);
        let done = visit(alloc, places, due, allowed, &mut front, found, &mut unread)?;
        front.queue.spend(branch, done)?;
        room -= done;
    }
    while let Some(due) = next_due(
        alloc,
        places,
        &front.read,
        &front.lacking,
        &mut front.queue,
        &mut unread,
    )? {
        let Due { place, branch, .. } = due;
        unread.push(Unread {
            place,
            why: Why::Limit,
            tried: 0,
        })?;
        front.queue.spend(branch, 0)?;
    }
    drop(front);
    Ok(unread)
}
