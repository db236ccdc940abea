//! How many verdicts were asked.

ghost use Rattle.std.specs.Prelude.{◌≡◌, ℕ, ◌+◌, ◌<◌};

use std::marker::Model;
use std::sync::ledger::{Blank, Book, Ledger, Share};

/// How many verdicts on signatures were asked. It takes no octets, and only `count` changes it.
/// Each verdict that pairings and walks ask raises it by one; those that a locator or a supplied CA
/// asks do not.
#[derive(Drop)]
pub struct VerdictCount<L: Ledger> {
    book: Book<L>,
    share: Share<L>,
}

impl<L: Ledger> Model for VerdictCount<L> {
    ghost Value = { ℕ };

    ghost view = { λ s. s.book.total };

    ghost invariant = { λ s. 0 < s.share.parts };
}

impl<L: Ledger> VerdictCount<L> {
    /// Nothing asked yet. The blank is one that no other count was made of.
    pub fn new(blank: Blank) -> Self
        requires name { blank.name ≡ L.name }
        requires parts { blank.parts ≡ L.parts }
        requires some { 0 < blank.parts }
        ensures { result ≡ 0 }
    {
        let (book, share) = blank.open();
        VerdictCount { book, share }
    }

    /// One verdict more.
    pub fn count(&mut self)
        ensures { self.new ≡ self.old + 1 }
    {
        self.book.add(&mut self.share, 1);
    }
}
