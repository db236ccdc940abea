//! Rules over the entries of a list, which are tested while the entries are counted.

ghost use Rattle.std.specs.Prelude.{◌≡◌, List, Option, true};
ghost use Rattle.rpki_der.specs.declared.mode.Mode.TheVariants.{Der};
ghost use Rattle.rpki_der.specs.Read.Parse.{all_of, tested};
ghost use Rattle.rpki_der.specs.Read.Reads.{Reads, Stays};
ghost use Rattle.rpki_lists.specs.Entries.{list_at};
ghost use Rattle.rpki_lists.specs.Rules.{admits, lets_all, PassesBy, CountsBy};

use crate::kind::{EntryKind, Refused};
use crate::list::EntryList;
use crate::slice::SliceReader;
use rpki_der::{Constructed, DecodeError, Tag};
use std::marker::PhantomData;

/// A rule over the entries of a list, in order. Its value is what it has seen so far.
pub trait Rule {
    type EntryKind: EntryKind;

    // What it has seen after an entry, if the entry may stand there.
    ghost after: { Self → Self.EntryKind.Shown → Option Self };

    /// Goes past the entry in front. Refuses by `Malformed` or `For` where there is none, or none
    /// that may stand there.
    fn pass(&mut self, reader: &mut SliceReader<'_>) -> Result<(), Refused>
        ensures { PassesBy Self.EntryKind.entry_at after
            self.old reader.old result self.new reader.new };
}

/// No rule: each entry may stand anywhere.
#[derive(Drop)]
pub(crate) struct Free<K> {
    kind: PhantomData<K>,
}

impl<K: EntryKind> Free<K> {
    /// No rule, which admits all entries.
    pub(crate) fn new() -> Free<K>
        ensures { (entries : List K.Shown) → admits lets_all result entries ≡ true }
    {
        Free { kind: PhantomData }
    }
}

impl<K: EntryKind> Rule for Free<K> {
    ghost use Rattle.rpki_lists.specs.Rules.{lets_all};

    type EntryKind = K;

    ghost after = { lets_all };

    fn pass(&mut self, reader: &mut SliceReader<'_>) -> Result<(), Refused> {
        K::skip(reader)
    }
}

/// How many entries the octets are, if they are entries that the rule admits.
pub(crate) fn count_by<R: Rule + Drop>(octets: &[u8], rule: R) -> Result<usize, Refused>
    ensures { CountsBy (admits R.after rule) (all_of R.EntryKind.entry_at Der octets.now) result }
{
    let mut rule = rule;
    let mut reader = SliceReader::new(octets);
    let mut count = 0;
    while !reader.is_empty() {
        rule.pass(&mut reader)?;
        count += 1;
    }
    Ok(count)
}

/// Reads a SEQUENCE of entries that the rule admits. What breaks the rule is refused by the text
/// that the rule gives, all else by `Malformed`; `Memory` may come too.
pub fn take_list<R: Rule + Drop>(
    cons: &mut Constructed<'_>,
    rule: R,
) -> Result<EntryList<R::EntryKind>, DecodeError>
    ensures reads { Reads (λ l. l) (tested (admits R.after rule) (list_at R.EntryKind.entry_at))
        cons.old result cons.new }
    ensures stays { Stays result cons.new }
{
    let octets = cons.take_primitive_if(Tag::SEQUENCE)?;
    match count_by(octets.as_slice(), rule) {
        Ok(count) => Ok(EntryList::counted(octets, count)),
        Err(Refused::Malformed) => Err(cons.fail(DecodeError::Malformed)),
        Err(Refused::For(text)) => Err(cons.refuse_for(text)),
    }
}
