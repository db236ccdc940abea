//! Address families.

ghost use Rattle.std.specs.Prelude.{◌≡◌, ◌<◌, ◌^◌, length};
ghost use Rattle.rpki_der.specs.Tags.{OCTET_STRING};
ghost use Rattle.rpki_der.specs.Write.Parts.{contents_small};
ghost use Rattle.rpki_der.specs.Write.Written.{value_octets};
ghost use Rattle.rpki_der.specs.Read.Parse.{Finds};
ghost use Rattle.rpki_der.specs.Read.Reads.{Reads, Stays};
ghost use Rattle.rpki_der.specs.Form.Decodes.{DecodesNext};
ghost use Rattle.rpki_resources.specs.declared.family.AddressFamily.{AddressFamily};
ghost use Rattle.rpki_resources.specs.Family.{max_bits};
ghost use Rattle.rpki_resources.specs.Family.Form.{afi, FamilyForm};
ghost use Rattle.rpki_resources.specs.Family.Read.{family_of, family_at};

use crate::faults;
use rpki_der::encode::octet_string;
use rpki_der::{Constructed, DecodeError, Encode, EncodeError, Sink, SinkFailed};
use std::alloc::Global;
use std::marker::Model;

/// IPv4 or IPv6.
#[derive(Clone, Copy, Debug, PartialEq, Eq, Hash)]
pub enum AddressFamily {
    Ipv4,
    Ipv6,
}

impl AddressFamily {
    /// How many bits an address of this family has: 32 or 128.
    pub fn max_len(self) -> u8
        ensures { result ≡ max_bits self }
    {
        match self {
            AddressFamily::Ipv4 => 32,
            AddressFamily::Ipv6 => 128,
        }
    }
}

// The family with this identifier.
#[tactic(auto, unfolding(crate::specs::Family::Read::family_of))]
fn family_of(octets: &[u8]) -> Option<AddressFamily>
    ensures { Finds (λ family. family) result (family_of octets.now) }
{
    match octets {
        [0, 1] => Some(AddressFamily::Ipv4),
        [0, 2] => Some(AddressFamily::Ipv6),
        _ => None,
    }
}

// Reads the identifier of a family.
fn take_family(cons: &mut Constructed<'_>, alloc: Global) -> Result<AddressFamily, DecodeError>
    ensures reads { Reads (λ family. family) family_at cons.old result cons.new }
    ensures stays { Stays result cons.new }
{
    let octets = cons.take_octets(alloc)?;
    match family_of(octets.as_slice()) {
        Some(family) => Ok(family),
        None => Err(cons.refuse_for(faults::UNKNOWN_FAMILY)),
    }
}

impl AddressFamily {
    /// Reads a family: an OCTET STRING of the two octets 00 01 for IPv4, or 00 02 for IPv6 (RFC
    /// 3779, section 2.2.3.3). Another one is refused by `UNKNOWN_FAMILY`, and what is no such
    /// string is `Malformed`. `Memory` may come too, since in BER the string may be in pieces.
    pub fn take_from(
        alloc: Global,
        cons: &mut Constructed<'_>,
    ) -> Result<AddressFamily, DecodeError>
        ensures reads { Reads (λ family. family) family_at cons.old result cons.new }
        ensures stays { Stays result cons.new }
        ensures decodes { DecodesNext FamilyForm (λ family. family) cons.old result cons.new }
    {
        cons.holds_octets();
        take_family(cons, alloc)
    }

    // The two octets of the identifier.
    fn afi(self) -> &'static [u8]
        ensures { result.now ≡ afi self }
    {
        match self {
            AddressFamily::Ipv4 => &[0, 1],
            AddressFamily::Ipv6 => &[0, 2],
        }
    }

    /// The family as an OCTET STRING (RFC 3779, section 2.2.3.3).
    pub fn encode_ref(&self) -> AddressFamilyEncoder
        ensures { result ≡ self.now }
    {
        AddressFamilyEncoder { family: *self }
    }
}

/// What writes a family, as an OCTET STRING of its identifier.
#[derive(Drop)]
pub struct AddressFamilyEncoder {
    family: AddressFamily,
}

impl Model for AddressFamilyEncoder {
    ghost use Rattle.rpki_resources.specs.declared.family.AddressFamily.{AddressFamily};

    ghost Value = { AddressFamily };

    ghost view = { λ e. e.family };
}

impl Encode for AddressFamilyEncoder {
    ghost octets = { λ family. value_octets OCTET_STRING (afi family) };

    ghost is_short = { λ family. length (afi family) < 2 ^ 32 };

    ghost small = { λ family h. contents_small OCTET_STRING (afi family) h };

    fn encoded_len(&self) -> Result<u64, EncodeError> {
        octet_string(self.family.afi()).encoded_len()
    }

    fn put<W: Sink>(&self, len: u64, out: &mut W) -> Result<(), SinkFailed> {
        octet_string(self.family.afi()).put(len, out)
    }
}
