//! Numbers that ascend, as entries of a list.

ghost use Rattle.std.specs.Prelude.{◌≡◌, None};
ghost use Rattle.rpki_contents_tests.specs.Lists.Ascending.{above_last};
ghost use Rattle.rpki_der.specs.Read.Parse.{u32_at, tested};
ghost use Rattle.rpki_der.specs.Read.Reads.{Reads, Stays};
ghost use Rattle.rpki_lists.specs.Entries.{list_at};
ghost use Rattle.rpki_lists.specs.Rules.{admits};

use rpki_der::encode::{Unsigned, integer};
use rpki_der::{Constructed, DecodeError};
use rpki_lists::{
    EntryIter, EntryKind, EntryList, Refused, Rule, SliceEntry, SliceReader, Written, take_list,
};
use std::marker::{Model, PhantomData};

/// Numbers of 32 bits.
#[derive(Drop, Debug)]
pub struct Numbers;

impl EntryKind for Numbers {
    ghost use Rattle.rpki_der.specs.Tags.{INTEGER};
    ghost use Rattle.rpki_der.specs.declared.mode.Mode.TheVariants.{Der};
    ghost use Rattle.rpki_der.specs.Read.Parse.{u32_at, unsigned_of};
    ghost use Rattle.rpki_der.proofs.Reading.Many.{primitive-shorter};

    type Shown = u32;

    ghost entry_at = { u32_at };

    ghost shrinks = { λ b x r e. primitive-shorter INTEGER (unsigned_of 4) Der b x r e };

    fn skip(reader: &mut SliceReader<'_>) -> Result<(), Refused> {
        match reader.take_u32() {
            Some(_) => Ok(()),
            None => Err(Refused::Malformed),
        }
    }
}

/// A number in a slice.
#[derive(Drop)]
pub struct NumberEntry<'a>(PhantomData<&'a [u8]>);

impl<'a> SliceEntry for NumberEntry<'a> {
    type EntryKind = Numbers;

    type Item = u32;

    type Reader = SliceReader<'a>;

    ghost slice = { λ r. r };

    ghost shown = { λ n. n };

    fn is_end(reader: &SliceReader<'a>) -> bool {
        reader.is_empty()
    }

    fn read(reader: &mut SliceReader<'a>) -> u32 {
        reader.known_u32()
    }

    fn again(reader: &SliceReader<'a>) -> SliceReader<'a> {
        reader.again()
    }
}

impl<'a> Written for NumberEntry<'a> {
    ghost use Rattle.std.specs.Prelude.{◌≡◌, ◌↔◌};
    ghost use Rattle.rpki_der.specs.Write.Written.{number_octets};

    type Encoder = Unsigned;

    ghost octets = { number_octets };

    ghost is_short = { λ _. Unit {0} };

    ghost small = { λ _ _. tt };

    fn encoder(n: u32) -> Unsigned
        ensures octets { number_octets result.0 ≡ number_octets n }
        ensures der { Unit {0} }
        ensures short { Unit {0} ↔ Unit {0} }
    {
        integer(n)
    }
}

/// What is wrong with numbers that don't ascend.
pub const NOT_ASCENDING: &str = "numbers are not in ascending order";

/// Each number is above the one before it. Its value is the last one, if there is one.
#[derive(Drop)]
pub struct Ascending {
    last: Option<u32>,
}

impl Model for Ascending {
    ghost use Rattle.std.specs.Prelude.{ℕ, Option};

    ghost Value = { Option ℕ };

    ghost view = { λ rule. rule.last };
}

impl Rule for Ascending {
    ghost use Rattle.rpki_contents_tests.specs.Lists.Ascending.{above_last};

    type EntryKind = Numbers;

    ghost after = { above_last };

    fn pass(&mut self, reader: &mut SliceReader<'_>) -> Result<(), Refused> {
        let Some(next) = reader.take_u32() else {
            return Err(Refused::Malformed);
        };
        if self.last.is_some_and(|last| last >= next) {
            return Err(Refused::For(NOT_ASCENDING));
        }
        self.last = Some(next);
        Ok(())
    }
}

/// Reads a SEQUENCE OF ascending INTEGERs.
pub fn take_ascending(cons: &mut Constructed<'_>) -> Result<EntryList<Numbers>, DecodeError>
    ensures reads { Reads (λ l. l)
        (tested (admits above_last None) (list_at u32_at))
        cons.old result cons.new }
    ensures stays { Stays result cons.new }
{
    take_list(cons, Ascending { last: None })
}

/// The numbers, in order.
pub fn in_order(list: &EntryList<Numbers>) -> EntryIter<NumberEntry<'_>>
    ensures { result ≡ list.now }
{
    EntryIter::of(list.reader())
}
