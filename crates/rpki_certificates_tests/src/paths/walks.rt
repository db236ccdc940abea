//! Walks, supplies and what is granted, row by row.

ghost use Rattle.std.specs.Prelude.{◌≡◌, ◌<◌};

use super::plain::{Above, NoAnchor, Plain, Root, Seen, as_set, id, ip_set};
use crate::shared;
use rpki_faults::{Family, Overclaim};
use rpki_paths::{
    Attested, FinalFault, Path, PathFault, Supplied, SupplyFault, VerdictCount, WalksFault,
    finalize, supply_all, walk_each,
};
use rpki_resources::{AsResources, IpResources};
use rpki_testing::Fail;
use std::alloc::{AllocError, Global};
use std::marker::Brand;
use std::sync::ledger::{Blank, Ledger};

/// What is claimed of a family.
#[derive(Clone, Copy)]
pub enum Claimed {
    Missing,
    Inherited,
    From(u32, u32),
}

/// A certificate by its key, its issuer's and its signer's, what becomes of numbers that its issuer
/// has not, what it claims of one family, and the serial number that it revokes. Of other families
/// it names none. Its identifier ends in the last two digits of its key. It passes the inspection
/// of a trust anchor where it claims numbers.
#[derive(Clone, Copy)]
pub struct Row(pub u8, pub u8, pub u8, pub Overclaim, pub Claimed, pub u64);

/// A supply: the key of a locator, or a CA by its key and its numbers of the family.
pub enum Given {
    Tal(u8),
    Ca(u8, u32, u32),
}

fn as_claim(alloc: Global, is_named: bool, claimed: Claimed) -> Result<AsResources, AllocError> {
    match (is_named, claimed) {
        (true, Claimed::Inherited) => Ok(AsResources::inherit()),
        (true, Claimed::From(first, last)) => {
            Ok(AsResources::blocks(as_set(alloc, &[(first, last)])?))
        }
        _ => Ok(AsResources::missing()),
    }
}

fn ip_claim(alloc: Global, is_named: bool, claimed: Claimed) -> Result<IpResources, AllocError> {
    match (is_named, claimed) {
        (true, Claimed::Inherited) => Ok(IpResources::inherit()),
        (true, Claimed::From(first, last)) => {
            Ok(IpResources::blocks(ip_set(alloc, &[(first, last)])?))
        }
        _ => Ok(IpResources::missing()),
    }
}

fn plain(alloc: Global, family: Family, row: &Row) -> Result<Plain, AllocError> {
    let Row(key, issuer, signer, overclaim, claimed, revokes) = *row;
    let mut revoked = Vec::new(alloc);
    revoked.push(revokes)?;
    Ok(Plain {
        subject: id(key % 100),
        authority: Some(id(issuer % 100)),
        key: [key],
        signer: [signer],
        serial: u64::from(key),
        revoked,
        overclaim,
        asn: as_claim(alloc, family == Family::As, claimed)?,
        v4: ip_claim(alloc, family == Family::V4, claimed)?,
        v6: ip_claim(alloc, family == Family::V6, claimed)?,
        is_anchor: matches!(claimed, Claimed::From(_, _)),
    })
}

/// Certificates, the last one first where they are turned.
pub fn plains(
    alloc: Global,
    family: Family,
    rows: &[Row],
    is_turned: bool,
) -> Result<Vec<Plain>, AllocError> {
    let mut plains = Vec::new(alloc);
    for at in 0..rows.len() {
        let row = if is_turned { rows.len() - 1 - at } else { at };
        plains.push(plain(alloc, family, &rows[row])?)?;
    }
    Ok(plains)
}

fn seen<'a>(alloc: Global, plains: &'a [Plain]) -> Result<Vec<Seen<'a>>, AllocError> {
    let mut seen = Vec::new(alloc);
    for plain in plains {
        seen.push(Seen(plain, plain.revoked.as_slice()))?;
    }
    Ok(seen)
}

/// A locator and a CA, of which one is supplied.
#[derive(Drop)]
struct Pair {
    root: Root,
    above: Above,
}

/// These ranges, or none.
fn if_named(is_named: bool, ranges: &[(u32, u32)]) -> &[(u32, u32)] {
    if is_named { ranges } else { &[] }
}

/// A CA of this key, with these numbers of the family.
pub fn above(
    alloc: Global,
    family: Family,
    key: u8,
    set: &[(u32, u32)],
) -> Result<Above, AllocError> {
    Ok(Above {
        subject: id(key % 100),
        key: [key],
        asn: as_set(alloc, if_named(family == Family::As, set))?,
        v4: ip_set(alloc, if_named(family == Family::V4, set))?,
        v6: ip_set(alloc, if_named(family == Family::V6, set))?,
    })
}

fn pairs(alloc: Global, family: Family, given: &[Given]) -> Result<Vec<Pair>, AllocError> {
    let mut pairs = Vec::new(alloc);
    for one in given {
        let (key, first, last) = match one {
            Given::Tal(key) => (*key, 1, 0),
            Given::Ca(key, first, last) => (*key, *first, *last),
        };
        pairs.push(Pair {
            root: Root { key: [key] },
            above: above(alloc, family, key, &[(first, last)])?,
        })?;
    }
    Ok(pairs)
}

fn supplies<'a>(
    alloc: Global,
    given: &[Given],
    pairs: &'a [Pair],
) -> Result<Vec<Supplied<'a, Root, Above>>, AllocError> {
    let mut supplies = Vec::new(alloc);
    for (one, pair) in given.iter().zip(pairs.iter()) {
        supplies.push(match one {
            Given::Tal(_) => Supplied::Tal(&pair.root),
            Given::Ca(_, _, _) => Supplied::Ca(&pair.above),
        })?;
    }
    Ok(supplies)
}

/// What walks, supplies and the end answer.
#[derive(Clone, Copy, PartialEq, Eq)]
pub enum Answer {
    Granted,
    NotWalked(WalksFault),
    /// Why a supply ends the call, and how many paths are anchored then.
    NotSupplied(SupplyFault<NoAnchor>, usize),
    NotGranted(FinalFault),
}

/// End-entity certificates, CAs, supplies, the AS numbers that are attested, and the answer.
pub type Case = (
    &'static [Row],
    &'static [Row],
    &'static [Given],
    &'static [(u32, u32)],
    Answer,
);

/// Supplies what is given to paths, and tells whether these numbers are granted.
fn decided<'a>(
    alloc: Global,
    family: Family,
    paths: &mut [Path<Seen<'a>>],
    given: &[Given],
    attested: &[(u32, u32)],
) -> Result<Answer, AllocError> {
    let pairs = pairs(alloc, family, given)?;
    let supplies = supplies(alloc, given, &pairs)?;
    let sets = above(alloc, family, 0, attested)?;
    let attested = Attested {
        asn: &sets.asn,
        v4: &sets.v4,
        v6: &sets.v6,
    };
    match supply_all(paths, &supplies) {
        Ok(()) => {}
        Err(SupplyFault::Memory) => return Err(AllocError),
        Err(fault) => {
            let anchored = paths.iter().filter(|path| path.anchored).count();
            // the path that is declined is not anchored, so the end says no for that
            return match finalize(alloc, paths, &attested) {
                Err(FinalFault::NotAnchored) => Ok(Answer::NotSupplied(fault, anchored)),
                _ => Ok(Answer::Granted),
            };
        }
    }
    match finalize(alloc, paths, &attested) {
        Ok(()) => Ok(Answer::Granted),
        Err(FinalFault::Memory) => Err(AllocError),
        Err(fault) => Ok(Answer::NotGranted(fault)),
    }
}

fn answer_of<L: Ledger>(
    alloc: Global,
    family: Family,
    case: &Case,
    is_turned: bool,
    blank: Blank,
) -> Result<Answer, AllocError>
    requires name { blank.name ≡ L.name }
    requires parts { blank.parts ≡ L.parts }
    requires some { 0 < blank.parts }
{
    let (ees, cas, given, attested, _) = *case;
    let ees = plains(alloc, family, ees, is_turned)?;
    let cas = plains(alloc, family, cas, is_turned)?;
    let ees = seen(alloc, &ees)?;
    let cas = seen(alloc, &cas)?;
    let mut asked = VerdictCount::<L>::new(blank);
    match walk_each(alloc, &ees, &cas, &mut asked) {
        Ok(mut paths) => decided(alloc, family, &mut paths, given, attested),
        Err(WalksFault::Memory) => Err(AllocError),
        Err(fault) => Ok(Answer::NotWalked(fault)),
    }
}

/// What is answered to a case of this family, whose certificates may stand the other way round,
/// counted by a ledger of its own.
fn answered(
    alloc: Global,
    family: Family,
    case: &Case,
    is_turned: bool,
) -> Result<Answer, AllocError> {
    answer_of::<Brand>(alloc, family, case, is_turned, Blank::new(1))
}

const TRIM: Overclaim = Overclaim::Trim;

const REFUSE: Overclaim = Overclaim::Refuse;

const INHERITED: Claimed = Claimed::Inherited;
/// No certificate has this serial number.
const NONE: u64 = 255;

pub static CASES: [Case; 33] = [
    // a set is trimmed to the issuer's, an inherited one is the issuer's
    (
        &[Row(1, 2, 2, TRIM, Claimed::From(10, 20), NONE)],
        &[Row(2, 0, 0, TRIM, INHERITED, NONE)],
        &[Given::Ca(0, 15, 30)],
        &[(15, 20)],
        Answer::Granted,
    ),
    (
        &[Row(1, 2, 2, TRIM, Claimed::From(10, 20), NONE)],
        &[Row(2, 0, 0, TRIM, INHERITED, NONE)],
        &[Given::Ca(0, 15, 30)],
        &[(10, 20)],
        Answer::NotGranted(FinalFault::AsNumbers),
    ),
    (
        &[Row(1, 2, 2, TRIM, Claimed::From(10, 20), NONE)],
        &[Row(2, 0, 0, REFUSE, INHERITED, NONE)],
        &[Given::Ca(0, 15, 30)],
        &[(15, 20)],
        Answer::NotSupplied(SupplyFault::NotCovered(Family::As), 0),
    ),
    (
        &[Row(1, 2, 2, TRIM, INHERITED, NONE)],
        &[
            Row(2, 3, 3, TRIM, Claimed::From(1, 10), NONE),
            Row(3, 0, 0, TRIM, Claimed::From(5, 20), NONE),
        ],
        &[Given::Ca(0, 8, 30)],
        &[(8, 10)],
        Answer::Granted,
    ),
    // an inheriting head answers for what is below it
    (
        &[Row(1, 2, 2, REFUSE, Claimed::From(1, 5), NONE)],
        &[
            Row(2, 3, 3, REFUSE, INHERITED, NONE),
            Row(3, 0, 0, TRIM, Claimed::From(1, 3), NONE),
        ],
        &[Given::Ca(0, 1, 9)],
        &[(1, 3)],
        Answer::NotWalked(WalksFault::NoPath(PathFault::NotCovered(Family::As))),
    ),
    // two CAs that signed each other
    (
        &[Row(1, 2, 2, TRIM, Claimed::From(1, 5), NONE)],
        &[
            Row(2, 3, 3, TRIM, INHERITED, NONE),
            Row(3, 2, 2, TRIM, INHERITED, NONE),
        ],
        &[Given::Ca(0, 1, 9)],
        &[(1, 5)],
        Answer::NotWalked(WalksFault::NoPath(PathFault::Returns)),
    ),
    // three, of which each is issued by the next
    (
        &[Row(1, 2, 2, TRIM, Claimed::From(1, 5), NONE)],
        &[
            Row(2, 3, 3, TRIM, INHERITED, NONE),
            Row(3, 4, 4, TRIM, INHERITED, NONE),
            Row(4, 2, 2, TRIM, INHERITED, NONE),
        ],
        &[Given::Ca(0, 1, 9)],
        &[(1, 5)],
        Answer::NotWalked(WalksFault::NoPath(PathFault::Returns)),
    ),
    // the issuer has revoked the certificate
    (
        &[Row(1, 2, 2, TRIM, Claimed::From(1, 5), NONE)],
        &[Row(2, 0, 0, TRIM, INHERITED, 1)],
        &[Given::Ca(0, 1, 9)],
        &[(1, 5)],
        Answer::NotWalked(WalksFault::NoPath(PathFault::Revoked)),
    ),
    // another key signed the certificate
    (
        &[Row(1, 2, 9, TRIM, Claimed::From(1, 5), NONE)],
        &[Row(2, 0, 0, TRIM, INHERITED, NONE)],
        &[Given::Ca(0, 1, 9)],
        &[(1, 5)],
        Answer::NotWalked(WalksFault::NoPath(PathFault::NoValidIssuer)),
    ),
    // two paths, and the union of their numbers
    (
        &[
            Row(1, 3, 3, TRIM, Claimed::From(1, 5), NONE),
            Row(2, 3, 3, TRIM, Claimed::From(4, 9), NONE),
        ],
        &[Row(3, 0, 0, TRIM, INHERITED, NONE)],
        &[Given::Ca(0, 1, 9)],
        &[(1, 9)],
        Answer::Granted,
    ),
    // three paths that share a CA
    (
        &[
            Row(1, 4, 4, TRIM, Claimed::From(1, 3), NONE),
            Row(2, 4, 4, TRIM, Claimed::From(3, 6), NONE),
            Row(3, 4, 4, TRIM, Claimed::From(9, 9), NONE),
        ],
        &[Row(4, 0, 0, TRIM, INHERITED, NONE)],
        &[Given::Ca(0, 1, 9)],
        &[(9, 9), (1, 6)],
        Answer::Granted,
    ),
    // no path, and no numbers
    (&[], &[], &[], &[], Answer::Granted),
    (
        &[],
        &[],
        &[],
        &[(1, 1)],
        Answer::NotGranted(FinalFault::AsNumbers),
    ),
    // nothing is supplied, or a CA that is not the issuer
    (
        &[Row(1, 7, 7, TRIM, Claimed::From(1, 5), NONE)],
        &[],
        &[],
        &[(1, 5)],
        Answer::NotGranted(FinalFault::NotAnchored),
    ),
    (
        &[Row(1, 7, 7, TRIM, Claimed::From(1, 5), NONE)],
        &[],
        &[Given::Ca(0, 1, 9)],
        &[(1, 5)],
        Answer::NotGranted(FinalFault::NotAnchored),
    ),
    // a self-signed head, and locators: of its key, of another, of another and then of its own
    (
        &[Row(1, 2, 2, TRIM, INHERITED, NONE)],
        &[Row(2, 2, 2, TRIM, Claimed::From(1, 5), NONE)],
        &[Given::Tal(2)],
        &[(1, 5)],
        Answer::Granted,
    ),
    (
        &[Row(1, 2, 2, TRIM, INHERITED, NONE)],
        &[Row(2, 2, 2, TRIM, Claimed::From(1, 5), NONE)],
        &[Given::Tal(3)],
        &[(1, 5)],
        Answer::NotGranted(FinalFault::NotAnchored),
    ),
    (
        &[Row(1, 2, 2, TRIM, INHERITED, NONE)],
        &[Row(2, 2, 2, TRIM, Claimed::From(1, 5), NONE)],
        &[Given::Tal(3), Given::Tal(2)],
        &[(1, 5)],
        Answer::Granted,
    ),
    // its own key does not verify the head
    (
        &[Row(1, 2, 2, TRIM, INHERITED, NONE)],
        &[Row(2, 2, 9, TRIM, Claimed::From(1, 5), NONE)],
        &[Given::Tal(2)],
        &[(1, 5)],
        Answer::NotSupplied(SupplyFault::NoAnchor(NoAnchor::Signature), 0),
    ),
    // the head inherits
    (
        &[Row(1, 2, 2, TRIM, Claimed::From(1, 5), NONE)],
        &[Row(2, 2, 2, TRIM, INHERITED, NONE)],
        &[Given::Tal(2)],
        &[(1, 5)],
        Answer::NotSupplied(SupplyFault::NoAnchor(NoAnchor::Inspection), 0),
    ),
    // the first path is anchored, and the second is not
    (
        &[
            Row(1, 0, 0, TRIM, Claimed::From(1, 5), NONE),
            Row(2, 0, 0, REFUSE, Claimed::From(7, 7), NONE),
        ],
        &[],
        &[Given::Ca(0, 1, 5)],
        &[(1, 5)],
        Answer::NotSupplied(SupplyFault::NotCovered(Family::As), 1),
    ),
    // a CA that issued nothing that is carried
    (
        &[Row(1, 2, 2, TRIM, Claimed::From(1, 5), NONE)],
        &[
            Row(2, 0, 0, TRIM, INHERITED, NONE),
            Row(3, 0, 0, TRIM, INHERITED, NONE),
        ],
        &[Given::Ca(0, 1, 9)],
        &[(1, 5)],
        Answer::NotWalked(WalksFault::Unused(1)),
    ),
    // two end-entity certificates under one key, and two CAs of that key: each takes the first
    (
        &[
            Row(1, 3, 3, TRIM, Claimed::From(1, 5), NONE),
            Row(2, 3, 3, TRIM, Claimed::From(1, 5), NONE),
        ],
        &[
            Row(3, 0, 0, TRIM, Claimed::From(1, 3), NONE),
            Row(3, 0, 0, TRIM, Claimed::From(1, 2), NONE),
        ],
        &[Given::Ca(0, 1, 9)],
        &[(1, 3)],
        Answer::NotWalked(WalksFault::Unused(1)),
    ),
    // a family that is not named is the empty set
    (
        &[Row(1, 2, 2, TRIM, Claimed::From(1, 5), NONE)],
        &[Row(2, 0, 0, TRIM, Claimed::Missing, NONE)],
        &[Given::Ca(0, 1, 9)],
        &[],
        Answer::Granted,
    ),
    (
        &[Row(1, 2, 2, REFUSE, Claimed::From(1, 5), NONE)],
        &[Row(2, 0, 0, TRIM, Claimed::Missing, NONE)],
        &[Given::Ca(0, 1, 9)],
        &[(1, 5)],
        Answer::NotWalked(WalksFault::NoPath(PathFault::NotCovered(Family::As))),
    ),
    (
        &[Row(1, 0, 0, REFUSE, Claimed::Missing, NONE)],
        &[],
        &[Given::Ca(0, 1, 9)],
        &[],
        Answer::Granted,
    ),
    // two CAs of one identifier with other keys: the one whose key verifies issued the certificate
    (
        &[Row(1, 2, 102, TRIM, Claimed::From(1, 9), NONE)],
        &[
            Row(2, 0, 0, TRIM, Claimed::From(1, 5), NONE),
            Row(102, 0, 0, TRIM, Claimed::From(4, 7), NONE),
        ],
        &[Given::Ca(0, 1, 9)],
        &[(4, 7)],
        Answer::NotWalked(WalksFault::Unused(0)),
    ),
    (
        &[
            Row(1, 2, 102, TRIM, Claimed::From(1, 9), NONE),
            Row(3, 2, 2, TRIM, Claimed::From(1, 2), NONE),
        ],
        &[
            Row(2, 0, 0, TRIM, Claimed::From(1, 5), NONE),
            Row(102, 0, 0, TRIM, Claimed::From(4, 7), NONE),
        ],
        &[Given::Ca(0, 1, 9)],
        &[(1, 2), (4, 7)],
        Answer::Granted,
    ),
    // a supplied CA of the head's identifier with another key is not meant
    (
        &[Row(1, 2, 102, TRIM, Claimed::From(1, 9), NONE)],
        &[],
        &[Given::Ca(2, 1, 3), Given::Ca(102, 4, 7)],
        &[(4, 7)],
        Answer::Granted,
    ),
    // a CRL speaks of what its CA issued: a CA is revoked, and a serial number of another issuer
    (
        &[Row(1, 2, 2, TRIM, INHERITED, NONE)],
        &[
            Row(2, 3, 3, TRIM, Claimed::From(1, 5), NONE),
            Row(3, 0, 0, TRIM, INHERITED, 2),
        ],
        &[Given::Ca(0, 1, 9)],
        &[(1, 5)],
        Answer::NotWalked(WalksFault::NoPath(PathFault::Revoked)),
    ),
    (
        &[Row(1, 2, 2, TRIM, INHERITED, NONE)],
        &[
            Row(2, 3, 3, TRIM, Claimed::From(1, 5), 3),
            Row(3, 0, 0, TRIM, INHERITED, 1),
        ],
        &[Given::Ca(0, 1, 9)],
        &[(1, 5)],
        Answer::Granted,
    ),
    // a supply that is refused ends the call: the second one is not handed in
    (
        &[
            Row(1, 7, 7, REFUSE, Claimed::From(1, 5), NONE),
            Row(2, 8, 8, REFUSE, Claimed::From(1, 5), NONE),
        ],
        &[],
        &[Given::Ca(7, 2, 9), Given::Ca(8, 1, 9)],
        &[(1, 5)],
        Answer::NotSupplied(SupplyFault::NotCovered(Family::As), 0),
    ),
    (
        &[
            Row(1, 7, 7, REFUSE, Claimed::From(1, 5), NONE),
            Row(2, 8, 8, REFUSE, Claimed::From(1, 5), NONE),
        ],
        &[],
        &[Given::Ca(8, 1, 9), Given::Ca(7, 2, 9)],
        &[(1, 5)],
        Answer::NotSupplied(SupplyFault::NotCovered(Family::As), 1),
    ),
];

static FAMILIES: [Family; 3] = [Family::As, Family::V4, Family::V6];

/// What an answer is where the numbers are of this family.
fn answer_in(family: Family, answer: Answer) -> Answer {
    match answer {
        Answer::NotWalked(WalksFault::NoPath(PathFault::NotCovered(_))) => {
            Answer::NotWalked(WalksFault::NoPath(PathFault::NotCovered(family)))
        }
        Answer::NotSupplied(SupplyFault::NotCovered(_), anchored) => {
            Answer::NotSupplied(SupplyFault::NotCovered(family), anchored)
        }
        Answer::NotGranted(FinalFault::AsNumbers) => Answer::NotGranted(match family {
            Family::As => FinalFault::AsNumbers,
            _ => FinalFault::Addresses,
        }),
        other => other,
    }
}

/// Whether a case is answered, and what is granted also where the certificates that are carried
/// stand the other way round.
fn is_answered(alloc: Global, family: Family, case: &Case) -> Result<bool, AllocError> {
    let want = answer_in(family, case.4);
    Ok(
        answered(alloc, family, case, false)? == want
            && (want != Answer::Granted || answered(alloc, family, case, true)? == want),
    )
}

impl shared::Row for Case {
    fn is_so(&self, alloc: Global) -> Result<bool, Fail> {
        for family in &FAMILIES {
            if !is_answered(alloc, *family, self)? {
                return Ok(false);
            }
        }
        Ok(true)
    }
}
