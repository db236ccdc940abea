//! Entries that are still to come.

ghost use Rattle.std.specs.Prelude.{◌≡◌};
ghost use Rattle.rpki_lists.specs.Entries.{HoldEntries, entries_of};

use crate::kind::SliceEntry;
use std::alloc::AllocError;
use std::marker::Model;

/// The entries that are still to come, in order. It borrows the octets, reads one entry for each
/// `next`, and takes no memory.
#[derive(Debug, Drop)]
pub struct EntryIter<E: SliceEntry> {
    pub(crate) reader: E::Reader,
}

impl<E: SliceEntry> Model for EntryIter<E> {
    ghost use Rattle.std.specs.Prelude.{List};
    ghost use Rattle.rpki_lists.specs.Entries.{HoldEntries, entries_of};

    ghost Value = { List E.EntryKind.Shown };

    ghost view = { λ i. entries_of E.EntryKind.entry_at (E.slice i.reader) };

    ghost invariant = { λ i. HoldEntries E.EntryKind.entry_at (E.slice i.reader) };
}

impl<E: SliceEntry> EntryIter<E> {
    /// The entries of this reader.
    pub fn of(reader: E::Reader) -> EntryIter<E>
        requires { HoldEntries E.EntryKind.entry_at (E.slice reader) }
        ensures { result ≡ entries_of E.EntryKind.entry_at (E.slice reader) }
    {
        EntryIter { reader }
    }

    /// The same entries again.
    pub fn again(&self) -> EntryIter<E>
        ensures { result ≡ self.now }
    {
        EntryIter {
            reader: E::again(&self.reader),
        }
    }
}

impl<E: SliceEntry> Clone for EntryIter<E> {
    ghost is_clone = { λ i copy. copy ≡ i };

    fn clone(&self) -> Result<EntryIter<E>, AllocError> {
        Ok(self.again())
    }
}

impl<E: SliceEntry> Iterator for EntryIter<E> {
    type Item = E::Item;

    ghost use Rattle.std.specs.Iterator.{YieldsFirstBy, item_count};

    ghost next_gives = { YieldsFirstBy E.shown (λ rest. rest) };

    ghost remaining = { item_count (λ rest. rest) };

    fn next(&mut self) -> Option<E::Item> {
        if E::is_end(&self.reader) {
            None
        } else {
            Some(E::read(&mut self.reader))
        }
    }
}
