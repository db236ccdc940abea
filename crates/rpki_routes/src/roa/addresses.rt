//! Lists of addresses of a ROA (RFC 9582, section 4.3).

ghost use Rattle.std.specs.Prelude.{◌≡◌, ◌↔◌, [], length, IfOk, IsTrue, IsSome, false};
ghost use Rattle.rpki_lists.specs.Entries.{HoldEntries, entries_of};
ghost use Rattle.rpki_lists.specs.Slice.{FindsFront};
ghost use Rattle.rpki_routes.specs.Roa.Read.{address_at, address_fields_at, is_of};

use crate::faults;
use crate::roa::address::RoaIpAddress;
use crate::roa::bits::{known_prefix, take_prefix};
use bytes::Bytes;
use rpki_der::{Constructed, DecodeError};
use rpki_lists::{
    EntryIter, EntryKind, EntryList, Refused, Rule, SliceEntry, SliceReader, list_of, take_list,
};
use rpki_resources::{AddressFamily, OfFamily};
use std::alloc::{AllocError, Global};
use std::marker::{Model, PhantomData};

// Reads the fields of an address.
#[tactic(auto, unfolding(crate::specs::Roa::Read::address_fields_at))]
fn take_fields(fields: &mut SliceReader<'_>) -> Option<RoaIpAddress>
    ensures { FindsFront (λ a. a) address_fields_at fields.old result fields.new }
{
    let prefix = take_prefix(fields)?;
    let max_length = fields.take_opt_u8()?;
    Some(RoaIpAddress::new(prefix, max_length))
}

// Reads the address in front, if there is one, of either family.
fn take_address(reader: &mut SliceReader<'_>) -> Option<RoaIpAddress>
    ensures { FindsFront (λ a. a) address_at reader.old result reader.new }
{
    let mut fields = reader.take_sequence()?;
    let address = take_fields(&mut fields)?;
    fields.close(address)
}

// Why an address is none of the family, if it is none.
#[tactic(auto, unfolding(crate::specs::Roa::Read::is_of))]
fn refusal_of(family: AddressFamily, address: RoaIpAddress) -> Option<&'static str>
    ensures { IsSome result ↔ (is_of family address ≡ false) }
{
    let len = address.prefix().addr_len();
    let most = family.max_len();
    if len > most {
        return Some(faults::PREFIX_TOO_LONG);
    }
    match address.max_length() {
        None => None,
        Some(max) => {
            if max < len || max > most {
                Some(faults::MAX_LENGTH_OUT_OF_RANGE)
            } else {
                None
            }
        }
    }
}

/// Addresses as entries of a list, of either family.
#[derive(Debug, Drop)]
pub struct Addresses;

impl EntryKind for Addresses {
    ghost use Rattle.rpki_der.specs.declared.mode.Mode.TheVariants.{Der};
    ghost use Rattle.rpki_der.specs.Tags.{SEQUENCE};
    ghost use Rattle.rpki_der.proofs.Reading.Many.{in_value-shorter};
    ghost use Rattle.rpki_routes.specs.Roa.Read.{address_at, address_fields_at};

    type Shown = RoaIpAddress;

    ghost entry_at = { address_at };

    ghost shrinks = { λ b a r e. in_value-shorter SEQUENCE address_fields_at Der b a r e };

    fn skip(reader: &mut SliceReader<'_>) -> Result<(), Refused> {
        match take_address(reader) {
            Some(_) => Ok(()),
            None => Err(Refused::Malformed),
        }
    }
}

/// Addresses in slices of a lifetime.
#[derive(Debug, Drop)]
pub struct AddressesIn<'a> {
    octets: PhantomData<&'a [u8]>,
}

impl<'a> SliceEntry for AddressesIn<'a> {
    type EntryKind = Addresses;

    type Item = RoaIpAddress;

    type Reader = SliceReader<'a>;

    ghost slice = { λ r. r };

    ghost shown = { λ a. a };

    fn is_end(reader: &SliceReader<'a>) -> bool {
        reader.is_empty()
    }

    fn read(reader: &mut SliceReader<'a>) -> RoaIpAddress {
        let mut fields = reader.known_sequence();
        let prefix = known_prefix(&mut fields);
        let max_length = fields.known_opt_u8();
        RoaIpAddress::new(prefix, max_length)
    }

    fn again(reader: &SliceReader<'a>) -> SliceReader<'a> {
        reader.again()
    }
}

/// The addresses that are still to come, in order.
pub type RoaIpAddressIter<'a> = EntryIter<AddressesIn<'a>>;

/// Addresses of one family, kept as their octets.
#[derive(Debug, Drop)]
pub struct RoaIpAddresses {
    list: EntryList<Addresses>,
}

impl Model for RoaIpAddresses {
    ghost use Rattle.std.specs.Prelude.{List};
    ghost use Rattle.rpki_routes.specs.Roa.{Address};

    ghost Value = { List Address };

    ghost view = { λ s. s.list };
}

impl Clone for RoaIpAddresses {
    ghost is_clone = { λ s copy. copy ≡ s };

    fn clone(&self) -> Result<RoaIpAddresses, AllocError> {
        Ok(RoaIpAddresses {
            list: self.list.clone()?,
        })
    }
}

impl RoaIpAddresses {
    // No address.
    pub(crate) fn none() -> RoaIpAddresses
        ensures { result ≡ [] }
    {
        match EntryList::of(Bytes::new()) {
            Some(list) => RoaIpAddresses { list },
            None => unreachable!(),
        }
    }

    // The list of the addresses of a family that are written as these octets.
    pub(crate) fn of(octets: Vec<u8>) -> Result<RoaIpAddresses, AllocError>
        requires { HoldEntries address_at octets.items }
        ensures { IfOk result (λ list. list ≡ entries_of address_at octets.items) }
    {
        let list = list_of(octets)?;
        Ok(RoaIpAddresses { list })
    }

    /// Whether there is no address.
    pub fn is_empty(&self) -> bool
        ensures { IsTrue result ↔ (length self.now ≡ 0) }
    {
        self.list.is_empty()
    }

    /// The addresses in order.
    pub fn iter(&self) -> RoaIpAddressIter<'_>
        ensures { result ≡ self.now }
    {
        EntryIter::of(self.list.reader())
    }
}

/// That each address is one of a family.
#[derive(Drop)]
struct OneFamily {
    family: AddressFamily,
}

impl Rule for OneFamily {
    ghost use Rattle.rpki_routes.specs.Roa.Read.{after_address};

    type EntryKind = Addresses;

    ghost after = { after_address };

    fn pass(&mut self, reader: &mut SliceReader<'_>) -> Result<(), Refused> {
        let Some(address) = take_address(reader) else {
            return Err(Refused::Malformed);
        };
        match refusal_of(self.family, address) {
            Some(text) => Err(Refused::For(text)),
            None => Ok(()),
        }
    }
}

impl OfFamily for RoaIpAddresses {
    ghost use Rattle.rpki_routes.specs.Roa.Read.{addresses_at};

    ghost parser = { addresses_at };

    fn take_value(
        _alloc: Global,
        cons: &mut Constructed<'_>,
        family: AddressFamily,
    ) -> Result<RoaIpAddresses, DecodeError> {
        let list = take_list(cons, OneFamily { family })?;
        Ok(RoaIpAddresses { list })
    }
}
