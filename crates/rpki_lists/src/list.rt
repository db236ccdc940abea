//! A list that is kept as the octets of its entries.

ghost use Rattle.std.specs.Prelude.{◌≡◌, ◌↔◌, length, IsTrue};
ghost use Rattle.rpki_der.specs.declared.mode.Mode.TheVariants.{Der};
ghost use Rattle.rpki_der.specs.Read.Parse.{all_of, Finds};
ghost use Rattle.rpki_der.specs.Read.Reads.{Reads, Stays};
ghost use Rattle.rpki_lists.specs.Entries.{HoldEntries, entries_of, list_at};

use crate::kind::EntryKind;
use crate::rule::{Free, count_by, take_list};
use crate::slice::SliceReader;
use bytes::Bytes;
use rpki_der::{Constructed, DecodeError};
use std::alloc::AllocError;
use std::marker::{Model, PhantomData};

/// Entries of a kind, kept as their octets in DER, one after the other.
#[derive(Drop, Debug)]
pub struct EntryList<K: EntryKind> {
    octets: Bytes,
    count: usize,
    kind: PhantomData<K>,
}

impl<K: EntryKind> Model for EntryList<K> {
    ghost use Rattle.std.specs.Prelude.{List, length, ◌≡◌};
    ghost use Rattle.rpki_lists.specs.Entries.{HoldEntries, entries_of};

    ghost Value = { List K.Shown };

    ghost view = { λ l. entries_of K.entry_at l.octets };

    ghost invariant = { λ l. HoldEntries K.entry_at l.octets
        × (l.count ≡ length (entries_of K.entry_at l.octets)) };
}

impl<K: EntryKind> Clone for EntryList<K> {
    ghost is_clone = { λ l copy. copy ≡ l };

    fn clone(&self) -> Result<EntryList<K>, AllocError> {
        Ok(EntryList {
            octets: self.octets.clone()?,
            count: self.count,
            kind: PhantomData,
        })
    }
}

impl<K: EntryKind> EntryList<K> {
    /// The list whose entries these octets are; the count is that of the entries.
    pub(crate) fn counted(octets: Bytes, count: usize) -> EntryList<K>
        requires entries { HoldEntries K.entry_at octets }
        requires count { count ≡ length (entries_of K.entry_at octets) }
        ensures { result ≡ entries_of K.entry_at octets }
    {
        EntryList {
            octets,
            count,
            kind: PhantomData,
        }
    }

    /// The list whose entries these octets are, one after the other in DER, if they are entries.
    pub fn of(octets: Bytes) -> Option<EntryList<K>>
        ensures { Finds (λ l. l) result (all_of K.entry_at Der octets) }
    {
        match count_by(octets.as_slice(), Free::<K>::new()) {
            Ok(count) => Some(EntryList::counted(octets, count)),
            Err(_) => None,
        }
    }

    /// Reads a SEQUENCE of entries. Refuses by the text that an entry is refused for, by
    /// `Malformed`, or by `Memory`.
    pub fn take_from(cons: &mut Constructed<'_>) -> Result<EntryList<K>, DecodeError>
        ensures reads { Reads (λ l. l) (list_at K.entry_at) cons.old result cons.new }
        ensures stays { Stays result cons.new }
    {
        take_list(cons, Free::<K>::new())
    }

    /// How many entries there are.
    pub fn len(&self) -> usize
        ensures { result ≡ length self.now }
    {
        self.count
    }

    /// Whether there is none.
    pub fn is_empty(&self) -> bool
        ensures { IsTrue result ↔ (length self.now ≡ 0) }
    {
        self.count == 0
    }

    /// A reader of the entries, one after the other.
    pub fn reader(&self) -> SliceReader<'_>
        ensures entries { HoldEntries K.entry_at result }
        ensures list { entries_of K.entry_at result ≡ self.now }
    {
        SliceReader::new(self.octets.as_slice())
    }
}
