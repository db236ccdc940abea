//! Writing a ROA content.

ghost use Rattle.std.specs.Prelude.{◌≡◌, ◌<◌, ◌^◌, ◌↔◌, length};
ghost use Rattle.rpki_der.specs.Tags.{SEQUENCE};
ghost use Rattle.rpki_der.specs.Write.Parts.{contents_small, optional_octets};
ghost use Rattle.rpki_der.specs.Write.Written.{number_octets, value_octets};
ghost use Rattle.rpki_resources.specs.declared.family.AddressFamily.TheVariants.{Ipv4, Ipv6};
ghost use Rattle.rpki_routes.specs.Roa.Written.{address_contents, address_octets, list_octets};
ghost use Rattle.rpki_routes.specs.Roa.Written.{family_contents, family_octets, families_octets};

use crate::roa::RouteOriginAttestation;
use crate::roa::address::RoaIpAddress;
use crate::roa::addresses::{AddressesIn, RoaIpAddresses};
use rpki_der::encode::{Unsigned, integer_u8, sequence};
use rpki_der::{Encode, EncodeError, Sink, SinkFailed};
use rpki_lists::{EntriesEncoder, Written};
use rpki_resources::{AddressFamily, AddressFamilyEncoder, Asn, Prefix};
use std::marker::Model;

/// A content, to be written in DER.
#[derive(Drop)]
pub struct RouteOriginAttestationEncoder<'a> {
    content: &'a RouteOriginAttestation,
}

impl<'a> Model for RouteOriginAttestationEncoder<'a> {
    ghost use Rattle.rpki_routes.specs.Roa.{Roa};

    ghost Value = { Roa };

    ghost view = { λ e. e.content.now };
}

impl<'a> RouteOriginAttestationEncoder<'a> {
    /// Makes the encoder of this content.
    pub(crate) fn new(content: &'a RouteOriginAttestation) -> RouteOriginAttestationEncoder<'a>
        ensures { result ≡ content.now }
    {
        RouteOriginAttestationEncoder { content }
    }

    // The fields of the content: the AS number and the families.
    fn fields(&self) -> (Asn, FamiliesField<'_>)
        ensures number { result.0 ≡ self.now.as_id }
        ensures families { result.1.0.now ≡ self.now }
    {
        (self.content.as_id(), FamiliesField(self.content))
    }
}

impl<'a> Encode for RouteOriginAttestationEncoder<'a> {
    ghost use Rattle.rpki_routes.specs.Roa.Written.{roa_contents, roa_octets};

    ghost octets = { roa_octets };

    ghost is_short = { λ r. length (roa_contents r) < 2 ^ 32 };

    ghost small = { λ r h. contents_small SEQUENCE (roa_contents r) h };

    fn encoded_len(&self) -> Result<u64, EncodeError> {
        sequence(self.fields()).encoded_len()
    }

    fn put<W: Sink>(&self, len: u64, out: &mut W) -> Result<(), SinkFailed> {
        sequence(self.fields()).put(len, out)
    }
}

/// The field of the families: a SEQUENCE of those with addresses, IPv4 first.
#[derive(Clone, Copy)]
struct FamiliesField<'a>(&'a RouteOriginAttestation);

impl<'a> FamiliesField<'a> {
    // What is written for each family.
    fn fields(&self) -> (Option<FamilyField<'a>>, Option<FamilyField<'a>>)
        ensures v4 { optional_octets (λ f. value_octets SEQUENCE
            (family_contents f.family f.list.now)) result.0 ≡ family_octets Ipv4 self.now.0.now.v4 }
        ensures v6 { optional_octets (λ f. value_octets SEQUENCE
            (family_contents f.family f.list.now)) result.1 ≡ family_octets Ipv6 self.now.0.now.v6 }
    {
        (
            family_field(AddressFamily::Ipv4, self.0.v4_addrs()),
            family_field(AddressFamily::Ipv6, self.0.v6_addrs()),
        )
    }
}

impl Encode for FamiliesField<'_> {
    ghost octets = { λ s. value_octets SEQUENCE (families_octets s.0.now) };

    ghost is_short = { λ s. length (families_octets s.0.now) < 2 ^ 32 };

    ghost small = { λ s h. contents_small SEQUENCE (families_octets s.0.now) h };

    fn encoded_len(&self) -> Result<u64, EncodeError> {
        sequence(self.fields()).encoded_len()
    }

    fn put<W: Sink>(&self, len: u64, out: &mut W) -> Result<(), SinkFailed> {
        sequence(self.fields()).put(len, out)
    }
}

/// A family and its addresses: a SEQUENCE.
#[derive(Clone, Copy)]
struct FamilyField<'a> {
    family: AddressFamily,
    list: &'a RoaIpAddresses,
}

// What is written for a family: nothing, where it has no addresses.
fn family_field<'a>(family: AddressFamily, list: &'a RoaIpAddresses) -> Option<FamilyField<'a>>
    ensures { optional_octets (λ f. value_octets SEQUENCE (family_contents f.family f.list.now))
        result ≡ family_octets family list.now }
{
    if list.is_empty() {
        None
    } else {
        Some(FamilyField { family, list })
    }
}

impl<'a> FamilyField<'a> {
    // The family and its addresses.
    fn fields(&self) -> (AddressFamilyEncoder, ListField<'a>)
        ensures family { result.0 ≡ self.now.family }
        ensures list { result.1.0.now ≡ self.now.list.now }
    {
        (self.family.encode_ref(), ListField(self.list))
    }
}

impl Encode for FamilyField<'_> {
    ghost octets = { λ f. value_octets SEQUENCE (family_contents f.family f.list.now) };

    ghost is_short = { λ f. length (family_contents f.family f.list.now) < 2 ^ 32 };

    ghost small = { λ f h. contents_small SEQUENCE (family_contents f.family f.list.now) h };

    fn encoded_len(&self) -> Result<u64, EncodeError> {
        sequence(self.fields()).encoded_len()
    }

    fn put<W: Sink>(&self, len: u64, out: &mut W) -> Result<(), SinkFailed> {
        sequence(self.fields()).put(len, out)
    }
}

/// Addresses: a SEQUENCE of them.
#[derive(Clone, Copy)]
struct ListField<'a>(&'a RoaIpAddresses);

impl Encode for ListField<'_> {
    ghost octets = { λ s. value_octets SEQUENCE (list_octets s.0.now) };

    ghost is_short = { λ s. length (list_octets s.0.now) < 2 ^ 32 };

    ghost small = { λ s h. contents_small SEQUENCE (list_octets s.0.now) h };

    fn encoded_len(&self) -> Result<u64, EncodeError> {
        sequence(EntriesEncoder(self.0.iter())).encoded_len()
    }

    fn put<W: Sink>(&self, len: u64, out: &mut W) -> Result<(), SinkFailed> {
        sequence(EntriesEncoder(self.0.iter())).put(len, out)
    }
}

impl<'a> Written for AddressesIn<'a> {
    ghost use Rattle.std.specs.Prelude.{◌≡◌, ◌↔◌, ◌<◌, ◌^◌, length};
    ghost use Rattle.rpki_der.specs.Tags.{SEQUENCE};
    ghost use Rattle.rpki_der.specs.Write.Parts.{contents_small};
    ghost use Rattle.rpki_routes.specs.Roa.Written.{address_contents, address_octets};

    type Encoder = RoaIpAddress;

    ghost octets = { address_octets };

    ghost is_short = { λ a. length (address_contents a) < 2 ^ 32 };

    fn encoder(address: RoaIpAddress) -> RoaIpAddress
        ensures octets { address_octets result ≡ address_octets address }
        ensures der { Unit {0} }
        ensures short { (length (address_contents result) < 2 ^ 32)
            ↔ (length (address_contents address) < 2 ^ 32) }
    {
        address
    }

    ghost small = { λ a h. contents_small SEQUENCE (address_contents a) h };
}

// The prefix, and the maximum length where one is set.
fn address_fields(address: RoaIpAddress) -> (Prefix, Option<Unsigned>)
    ensures prefix { result.0 ≡ address.prefix }
    ensures max { optional_octets (λ n. number_octets n.0) result.1
        ≡ optional_octets number_octets address.max_length }
{
    let max_length = match address.max_length() {
        Some(max) => Some(integer_u8(max)),
        None => None,
    };
    (address.prefix(), max_length)
}

/// A SEQUENCE of the prefix and, where one is set, the maximum length (RFC 9582, section 4.3). The
/// bits that are not used are zero.
impl Encode for RoaIpAddress {
    ghost octets = { address_octets };

    ghost is_short = { λ a. length (address_contents a) < 2 ^ 32 };

    ghost small = { λ a h. contents_small SEQUENCE (address_contents a) h };

    fn encoded_len(&self) -> Result<u64, EncodeError> {
        sequence(address_fields(*self)).encoded_len()
    }

    fn put<W: Sink>(&self, len: u64, out: &mut W) -> Result<(), SinkFailed> {
        sequence(address_fields(*self)).put(len, out)
    }
}
