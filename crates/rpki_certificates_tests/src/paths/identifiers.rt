//! Identifiers that are paired.

ghost use Rattle.std.specs.Prelude.{◌≡◌, ◌<◌};

use crate::shared::Row;
use rpki_paths::{KeyId, PairFault, VerdictCount, pair_off};
use rpki_testing::Fail;
use std::alloc::{AllocError, Global};
use std::marker::Brand;
use std::sync::ledger::{Blank, Ledger};

/// Two identifiers.
const ONE: KeyId = [0, 0, 0, 0, 0, 0, 0, 0, 0, 0, 0, 0, 0, 0, 0, 0, 0, 0, 0, 1];

const TWO: KeyId = [0, 0, 0, 0, 0, 0, 0, 0, 0, 0, 0, 0, 0, 0, 0, 0, 0, 0, 0, 2];

/// Identifiers, others, and the places that pair them or why none do.
pub type Paired = (
    &'static [KeyId],
    &'static [KeyId],
    Result<&'static [usize], PairFault>,
);

pub static ROWS: [Paired; 5] = [
    (&[ONE, TWO], &[TWO, ONE], Ok(&[1, 0])),
    (&[ONE, ONE], &[ONE, ONE], Ok(&[0, 1])),
    (&[], &[], Ok(&[])),
    (&[ONE, ONE], &[ONE, TWO], Err(PairFault::Unpaired(1))),
    (&[ONE], &[ONE, ONE], Err(PairFault::LeftOver)),
];

/// Whether a row is right, where verdicts are counted from this blank on.
fn is_paired_from<L: Ledger>(alloc: Global, row: &Paired, blank: Blank) -> Result<bool, AllocError>
    requires name { blank.name ≡ L.name }
    requires parts { blank.parts ≡ L.parts }
    requires some { 0 < blank.parts }
{
    let (takers, others, want) = row;
    let mut asked = VerdictCount::<L>::new(blank);
    match (pair_off(alloc, *takers, *others, &mut asked), want) {
        (Ok(places), Ok(want)) => Ok(places.as_slice() == *want),
        (Err(PairFault::Memory), _) => Err(AllocError),
        (Err(fault), Err(want)) => Ok(fault == *want),
        _ => Ok(false),
    }
}

/// Whether a row is right, counted by a ledger of its own.
fn is_paired(alloc: Global, row: &Paired) -> Result<bool, AllocError> {
    is_paired_from::<Brand>(alloc, row, Blank::new(1))
}

impl Row for Paired {
    fn is_so(&self, alloc: Global) -> Result<bool, Fail> {
        Ok(is_paired(alloc, self)?)
    }
}
