//! Lists of numbers that are kept as their octets.

ghost use Rattle.std.specs.Prelude.{◌≡◌, ◌^◌, ◌∷◌, [], ℕ, List, IfOk, MatchOption};
ghost use Rattle.rpki_der.specs.declared.mode.Mode.TheVariants.{Der};
ghost use Rattle.rpki_der.specs.Form.Decodes.{Decodes};
ghost use Rattle.rpki_der.specs.Form.Parts.{SequenceOf};
ghost use Rattle.rpki_der.specs.Grammar.{IntegerBelow};
ghost use Rattle.rpki_der.specs.Read.Parse.{u32_at};
ghost use Rattle.rpki_der.specs.Read.Reads.{Found};
ghost use Rattle.rpki_lists.specs.Entries.{list_at};

use bytes::Bytes;
use rpki::der::laws::slices_hold_octets;
use rpki::der::{Constructed, DecodeError, Mode, SliceReader};
use rpki::lists::{EntryIter, EntryKind, EntryList, Refused, SliceEntry};
use std::alloc::{AllocError, Global};
use std::marker::PhantomData;

/// Numbers of 32 bits, as a kind of entries.
#[derive(Drop, Debug)]
pub struct Numbers;

impl EntryKind for Numbers {
    ghost use Rattle.rpki_der.specs.Tags.{INTEGER};
    ghost use Rattle.rpki_der.specs.declared.mode.Mode.TheVariants.{Der};
    ghost use Rattle.rpki_der.specs.Read.Parse.{u32_at, unsigned_of};
    ghost use Rattle.rpki_der.proofs.Reading.Many.{primitive-shorter};

    type Shown = u32;

    ghost entry_at = { u32_at };

    ghost shrinks = { λ b x r e. primitive-shorter INTEGER (unsigned_of 4) Der b x r e };

    fn skip(reader: &mut SliceReader<'_>) -> Result<(), Refused> {
        match reader.take_u32() {
            Some(_) => Ok(()),
            None => Err(Refused::Malformed),
        }
    }
}

/// A number in a slice.
#[derive(Drop)]
pub struct NumberEntry<'a>(PhantomData<&'a [u8]>);

impl<'a> SliceEntry for NumberEntry<'a> {
    type EntryKind = Numbers;

    type Item = u32;

    type Reader = SliceReader<'a>;

    ghost slice = { λ r. r };

    ghost shown = { λ n. n };

    fn is_end(reader: &SliceReader<'a>) -> bool {
        reader.is_empty()
    }

    fn read(reader: &mut SliceReader<'a>) -> u32 {
        reader.known_u32()
    }

    fn again(reader: &SliceReader<'a>) -> SliceReader<'a> {
        reader.again()
    }
}

/// Reads the SEQUENCE OF INTEGER at the front of octets in DER.
pub fn numbers_in(octets: Bytes) -> Result<EntryList<Numbers>, DecodeError>
    ensures { Decodes (SequenceOf Der (IntegerBelow (2 ^ 32) Der)) (λ l. l) octets result }
{
    slices_hold_octets(octets.as_slice());
    read_front(octets)
}

// Reads the list at the front.
fn read_front(octets: Bytes) -> Result<EntryList<Numbers>, DecodeError>
    ensures { Found (λ l. l) (list_at u32_at Der octets) result }
{
    Constructed::decode(octets, Mode::Der, |cons| EntryList::take_from(cons))
}

/// The first number of a list, if there is one.
pub fn first_of(list: &EntryList<Numbers>) -> Option<u32>
    ensures { MatchOption result (list.now ≡ [])
        (λ first. (others : List ℕ) × (list.now ≡ first ∷ others)) }
{
    let mut numbers = EntryIter::<NumberEntry<'_>>::of(list.reader());
    numbers.next()
}

/// The numbers of a list, in its order.
pub fn to_vec(alloc: Global, list: &EntryList<Numbers>) -> Result<Vec<u32>, AllocError>
    ensures { IfOk result (λ numbers. numbers.items ≡ list.now) }
{
    let mut numbers = Vec::with_capacity(alloc, list.len())?;
    for number in EntryIter::<NumberEntry<'_>>::of(list.reader()) {
        numbers.push(number)?;
    }
    Ok(numbers)
}
