//! How many verdicts were asked in all.

ghost use Rattle.std.specs.Prelude.{◌≡◌, ℕ};
ghost use Rattle.std.specs.Borrow.{ftrue};

use rpki_paths::VerdictCount;
use std::marker::Model;
use std::sync::ledger::Ledger;

// What tells how many verdicts were asked.
pub(crate) trait CountsVerdicts {
    // How many.
    ghost number: { Self → ℕ };
}

/// How many verdicts were asked, once they are asked. Clauses alone read the number, which has no
/// last value: it takes no octets.
#[derive(Drop)]
pub(crate) struct VerdictTotal {
    seal: (),
    pub ghost number: { ℕ },
}

impl Model for VerdictTotal {
    ghost also_owns = { λ _. ftrue };
}

impl VerdictTotal {
    // As many as are counted here so far.
    fn of<X: CountsVerdicts>(count: &X) -> VerdictTotal
        ensures { result.number ≡ X.number count.now }
    {
        let _ = count;
        VerdictTotal { seal: () }
    }

    /// As many as are counted here, by a count that ends: nothing is asked on it any more.
    pub fn after<L: Ledger>(count: VerdictCount<L>) -> VerdictTotal
        ensures { result.number ≡ count }
    {
        let total = VerdictTotal::of(&count);
        drop(count);
        total
    }

    /// The same total.
    pub fn copied(&self) -> VerdictTotal
        ensures { result.number ≡ self.now.number }
    {
        VerdictTotal::of(self)
    }
}

impl<L: Ledger> CountsVerdicts for VerdictCount<L> {
    ghost number = { λ count. count };
}

impl CountsVerdicts for VerdictTotal {
    ghost number = { λ total. total.number };
}
