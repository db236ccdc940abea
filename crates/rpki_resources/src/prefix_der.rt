//! Prefixes in DER and BER (RFC 3779, section 2.2.3.8; RFC 9582, section 4.3).

ghost use Rattle.std.specs.Prelude.{◌<◌, ◌^◌, length, MatchOption};
ghost use Rattle.rpki_der.specs.Tags.{BIT_STRING};
ghost use Rattle.rpki_der.specs.Read.Reads.{Reads, Stays};
ghost use Rattle.rpki_der.specs.Form.Decodes.{DecodesNext};
ghost use Rattle.rpki_resources.specs.Family.{max_bits};
ghost use Rattle.rpki_resources.specs.Ip.Form.{IsNetworkOf, PrefixForm};
ghost use Rattle.rpki_resources.specs.Ip.Read.{prefix_at};
ghost use Rattle.rpki_resources.specs.Prefix.{Network};
ghost use Rattle.rpki_resources.specs.Ip.Written.{end_octets, first_bits};
ghost use Rattle.rpki_der.specs.Write.Parts.{contents_small};

use crate::addr::Addr;
use crate::address_bits::{bit_count, lowest_of, prefix_bits};
use crate::family::AddressFamily;
use crate::faults;
use crate::prefix::Prefix;
use rpki_der::{Constructed, DecodeError, Encode, EncodeError, Sink, SinkFailed};

// Reads a prefix of the family.
#[tactic(auto, unfolding(crate::specs::Ip::Read::ip_address_at, rpki_der::specs::Read::Parse::tested))]
fn take_prefix(cons: &mut Constructed<'_>, family: AddressFamily) -> Result<Prefix, DecodeError>
    ensures reads { Reads (λ p. p) (prefix_at (max_bits family)) cons.old result cons.new }
    ensures stays { Stays result cons.new }
{
    let bits = cons.take_bits()?;
    match Prefix::from_bits(bits.octets.as_slice(), bits.unused, family) {
        Some(prefix) => Ok(prefix),
        None => Err(cons.refuse_for(faults::ADDRESS_TOO_LONG)),
    }
}

impl Prefix {
    /// The prefix of the family whose bits these octets are, without the `unused` last bits of the
    /// last octet, which may be any: the contents of a BIT STRING (RFC 3779, section 2.2.3.8; RFC
    /// 9582, section 4.3). `None` where they are no string of bits, with 8 bits or more that are
    /// not used or with any of no octet, or have more bits than an address of the family.
    pub fn from_bits(octets: &[u8], unused: u8, family: AddressFamily) -> Option<Prefix>
        ensures { MatchOption result
            ((p : Network) → IsNetworkOf family (octets.now, unused) p → ⊥)
            (IsNetworkOf family (octets.now, unused)) }
    {
        let len = bit_count(octets, unused);
        if unused > 7 || (octets.is_empty() && unused != 0) || len > u128::from(family.max_len()) {
            return None;
        }
        let addr = Addr::from_bits(lowest_of(octets, unused));
        Some(Prefix::new(addr, len as u8))
    }

    /// Reads a prefix of the family: a BIT STRING of its bits (RFC 3779, section 2.2.3.8; RFC 9582,
    /// section 4.3). The bits of the last octet that are not used may be any, and are cleared. More
    /// bits than an address of the family has are refused by `ADDRESS_TOO_LONG`, and what is no
    /// such string is `Malformed`. Where there is no memory for the bits, the answer is `Memory`.
    pub fn take_from(
        cons: &mut Constructed<'_>,
        family: AddressFamily,
    ) -> Result<Prefix, DecodeError>
        ensures reads { Reads (λ p. p) (prefix_at (max_bits family)) cons.old result cons.new }
        ensures stays { Stays result cons.new }
        ensures decodes { DecodesNext (PrefixForm family) (λ p. p) cons.old result cons.new }
    {
        cons.holds_octets();
        take_prefix(cons, family)
    }
}

/// A BIT STRING of the bits of the prefix. Those of the last octet that are not used are zero.
impl Encode for Prefix {
    ghost octets = { λ p. end_octets p.addr p.len };

    ghost is_short = { λ p. length (first_bits p.addr p.len) < 2 ^ 32 };

    ghost small = { λ p h. contents_small BIT_STRING (first_bits p.addr p.len) h };

    fn encoded_len(&self) -> Result<u64, EncodeError> {
        prefix_bits(self.addr(), self.addr_len()).encoded_len()
    }

    fn put<W: Sink>(&self, len: u64, out: &mut W) -> Result<(), SinkFailed> {
        prefix_bits(self.addr(), self.addr_len()).put(len, out)
    }
}
