//! Prefixes in a slice, read without memory (RFC 3779, section 2.2.3.8).

ghost use Rattle.std.specs.Prelude.{Some};
ghost use Rattle.rpki_lists.specs.Slice.{FindsFront, IsFound};
ghost use Rattle.rpki_resources.specs.Ip.Read.{prefix_at};

use rpki_lists::{BitSlice, SliceReader};
use rpki_resources::{AddressFamily, Prefix};

/// Reads the prefix in front, if there is one of at most 128 bits, as of IPv6; that one of IPv4 has
/// at most 32 is a rule of the entry. The bits of the last octet that are not used may be any, and
/// are cleared.
#[tactic(auto, unfolding(rpki_resources::specs::Ip::Read::ip_address_at, rpki_der::specs::Read::Parse::tested))]
pub fn take_prefix(reader: &mut SliceReader<'_>) -> Option<Prefix>
    ensures { FindsFront (λ p. p) (prefix_at 128) reader.old result reader.new }
{
    let BitSlice { octets, unused } = reader.take_bits()?;
    Prefix::from_bits(octets, unused, AddressFamily::Ipv6)
}

/// Reads the prefix of at most 128 bits that is known to be in front.
pub fn known_prefix(reader: &mut SliceReader<'_>) -> Prefix
    requires { IsFound (prefix_at 128) reader.old }
    ensures { FindsFront (λ p. p) (prefix_at 128) reader.old (Some result) reader.new }
{
    let bits = reader.known_bits();
    match Prefix::from_bits(bits.octets, bits.unused, AddressFamily::Ipv6) {
        Some(prefix) => prefix,
        None => unreachable!(),
    }
}
