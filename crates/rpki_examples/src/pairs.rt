//! Pairings, as those who validate attestations use them.

ghost use Rattle.std.specs.Prelude.{IsFalse, IsTrue, IfOk};
ghost use Rattle.rpki_paths.specs.Pairing.{AreAlike, IsPairable};
ghost use Rattle.rpki_paths.specs.Pairing.{IsPair};

use rpki::paths::laws::unpaired_is_unpairable;
use rpki::paths::{Accepts, PairFault, VerdictCount, pair_off};
use std::alloc::{AllocError, Global};
use std::sync::ledger::Ledger;

/// Whether some items pair off with some others, one to one: each in its turn takes the first that
/// fits and is left. A no means that there is no pairing at all, where those that one item fits are
/// alike.
pub fn are_paired<X: Accepts<Y, L>, Y, L: Ledger>(
    alloc: Global,
    takers: &[X],
    others: &[Y],
    asked: &mut VerdictCount<L>,
) -> Result<bool, AllocError>
    ensures yes { IfOk result (λ yes. IsTrue yes →
        IsPairable (IsPair X.sought X.held X.verdict) takers.now others.now) }
    ensures no { IfOk result (λ yes. IsFalse yes →
        AreAlike (IsPair X.sought X.held X.verdict) takers.now others.now →
        ¬ (IsPairable (IsPair X.sought X.held X.verdict) takers.now others.now)) }
{
    unpaired_is_unpairable::<X, Y>();
    match pair_off(alloc, takers, others, asked) {
        Ok(_) => Ok(true),
        Err(PairFault::Memory) => Err(AllocError),
        Err(_) => Ok(false),
    }
}
