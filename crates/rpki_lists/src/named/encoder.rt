//! Writing the addresses that a content names.

ghost use Rattle.std.specs.Prelude.{◌≡◌, ◌<◌, ◌^◌, length};
ghost use Rattle.rpki_der.specs.Tags.{SEQUENCE, context};
ghost use Rattle.rpki_der.specs.Write.Parts.{contents_small, optional_octets};
ghost use Rattle.rpki_der.specs.Write.Written.{value_octets};
ghost use Rattle.rpki_resources.specs.declared.family.AddressFamily.TheVariants.{Ipv4, Ipv6};
ghost use Rattle.rpki_lists.specs.Named.{is_empty, family_contents, family_octets};
ghost use Rattle.rpki_lists.specs.Named.{families_octets, addresses_octets};

use rpki_der::encode::{Value, sequence, tagged};
use rpki_der::{Encode, EncodeError, Sink, SinkFailed, Tag};
use rpki_resources::{
    AddressFamily, AddressFamilyEncoder, Blocks, IpBlocks, IpBlocksEncoder, Number,
};
use std::marker::Model;

/// Whether the set has no number.
pub fn is_empty_set<T: Number>(set: &Blocks<T>) -> bool
    ensures { result ≡ is_empty set.now }
{
    match set.as_slice() {
        [] => true,
        [_first, _others @ ..] => false,
    }
}

/// The addresses of both families under their tag.
#[derive(Drop)]
pub struct AddressesField<'a> {
    v4: &'a IpBlocks,
    v6: &'a IpBlocks,
}

impl<'a> Model for AddressesField<'a> {
    ghost use Rattle.rpki_lists.specs.Named.{Set};

    // The addresses of IPv4 and of IPv6.
    ghost Value = { Set × Set };

    ghost view = { λ f. (f.v4.now, f.v6.now) };
}

/// What is written of the addresses: nothing, where there are none.
pub fn written_addresses<'a>(v4: &'a IpBlocks, v6: &'a IpBlocks) -> Option<AddressesField<'a>>
    ensures { optional_octets
        (λ f. value_octets (context 1) (value_octets SEQUENCE (families_octets f.0 f.1))) result
        ≡ addresses_octets v4.now v6.now }
{
    if is_empty_set(v4) && is_empty_set(v6) {
        None
    } else {
        Some(AddressesField { v4, v6 })
    }
}

impl Encode for AddressesField<'_> {
    ghost octets = { λ f. value_octets (context 1)
        (value_octets SEQUENCE (families_octets f.0 f.1)) };

    ghost is_short = { λ f. length (value_octets SEQUENCE (families_octets f.0 f.1)) < 2 ^ 32 };

    ghost small = { λ f h. contents_small (context 1)
        (value_octets SEQUENCE (families_octets f.0 f.1)) h };

    fn encoded_len(&self) -> Result<u64, EncodeError> {
        let families = FamiliesField {
            v4: self.v4,
            v6: self.v6,
        };
        tagged(Tag::CTX_1, families).encoded_len()
    }

    fn put<W: Sink>(&self, len: u64, out: &mut W) -> Result<(), SinkFailed> {
        let families = FamiliesField {
            v4: self.v4,
            v6: self.v6,
        };
        tagged(Tag::CTX_1, families).put(len, out)
    }
}

/// The families: a SEQUENCE of those with addresses, IPv4 first.
#[derive(Clone, Copy)]
struct FamiliesField<'a> {
    v4: &'a IpBlocks,
    v6: &'a IpBlocks,
}

impl<'a> FamiliesField<'a> {
    // What is written for each family.
    fn fields(&self) -> (Option<FamilyField<'a>>, Option<FamilyField<'a>>)
        ensures v4 { optional_octets
            (λ f. value_octets SEQUENCE (family_contents f.family f.set.now))
            result.0 ≡ family_octets Ipv4 self.now.v4.now }
        ensures v6 { optional_octets
            (λ f. value_octets SEQUENCE (family_contents f.family f.set.now))
            result.1 ≡ family_octets Ipv6 self.now.v6.now }
    {
        (
            family_field(AddressFamily::Ipv4, self.v4),
            family_field(AddressFamily::Ipv6, self.v6),
        )
    }
}

impl Encode for FamiliesField<'_> {
    ghost octets = { λ s. value_octets SEQUENCE (families_octets s.v4.now s.v6.now) };

    ghost is_short = { λ s. length (families_octets s.v4.now s.v6.now) < 2 ^ 32 };

    ghost small = { λ s h. contents_small SEQUENCE (families_octets s.v4.now s.v6.now) h };

    fn encoded_len(&self) -> Result<u64, EncodeError> {
        sequence(self.fields()).encoded_len()
    }

    fn put<W: Sink>(&self, len: u64, out: &mut W) -> Result<(), SinkFailed> {
        sequence(self.fields()).put(len, out)
    }
}

/// A family and its addresses: a SEQUENCE.
#[derive(Clone, Copy)]
struct FamilyField<'a> {
    family: AddressFamily,
    set: &'a IpBlocks,
}

// What is written for a family: nothing, where it has no addresses.
fn family_field<'a>(family: AddressFamily, set: &'a IpBlocks) -> Option<FamilyField<'a>>
    ensures { optional_octets (λ f. value_octets SEQUENCE (family_contents f.family f.set.now))
        result ≡ family_octets family set.now }
{
    match set.as_slice() {
        [] => None,
        [_first, _others @ ..] => Some(FamilyField { family, set }),
    }
}

impl<'a> FamilyField<'a> {
    // The family and its addresses.
    fn fields(&self) -> (AddressFamilyEncoder, Value<IpBlocksEncoder<'a>>)
        ensures family { result.0 ≡ self.now.family }
        ensures tag { result.1.tag.octet ≡ SEQUENCE }
        ensures blocks { result.1.contents ≡ self.now.set.now }
    {
        (
            self.family.encode_ref(),
            sequence(self.set.encode_ref(self.family)),
        )
    }
}

impl Encode for FamilyField<'_> {
    ghost octets = { λ f. value_octets SEQUENCE (family_contents f.family f.set.now) };

    ghost is_short = { λ f. length (family_contents f.family f.set.now) < 2 ^ 32 };

    ghost small = { λ f h. contents_small SEQUENCE (family_contents f.family f.set.now) h };

    fn encoded_len(&self) -> Result<u64, EncodeError> {
        sequence(self.fields()).encoded_len()
    }

    fn put<W: Sink>(&self, len: u64, out: &mut W) -> Result<(), SinkFailed> {
        sequence(self.fields()).put(len, out)
    }
}
