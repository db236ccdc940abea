//! Addresses as strings of bits: those that begin with them, and the first bits of an address (RFC
//! 3779, sections 2.1.1 and 2.1.2).

ghost use Rattle.std.specs.Prelude.{◌≡◌, ◌<◌, ◌≤◌, ◌^◌, ◌*◌, ◌+◌, ◌-◌, ◌%◌, IfOk, length};
ghost use Rattle.rpki_der.specs.Numbers.{number};
ghost use Rattle.rpki_der.specs.Tags.{BIT_STRING};
ghost use Rattle.rpki_der.specs.Read.Reads.{Reads, Stays};
ghost use Rattle.rpki_der.specs.Write.Parts.{contents_small};
ghost use Rattle.rpki_resources.specs.Ip.Form.{bit_count, lowest, highest};
ghost use Rattle.rpki_resources.specs.Ip.Read.{ip_address_at};
ghost use Rattle.rpki_resources.specs.Ip.Written.{octet_count, first_bits, end_octets, lower_len};
ghost use Rattle.rpki_resources.specs.Ip.Written.{upper_len};

use crate::addr::Addr;
use crate::faults;
use crate::prefix::host_mask;
use rpki_der::encode::bit_string;
use rpki_der::{BitString, Constructed, DecodeError, Encode, EncodeError, Sink, SinkFailed};

// The number with these digits to base 256.
fn value_of(octets: &[u8]) -> u128
    requires { length octets.now ≤ 16 }
    ensures value { result ≡ number 0 octets.now }
    ensures small { result < 2 ^ (8 * length octets.now) }
{
    let mut value = 0u128;
    for octet in octets {
        value = value * 256 + u128::from(*octet);
    }
    value
}

/// How many bits are in octets without the unused ones of the last one.
pub fn bit_count(octets: &[u8], unused: u8) -> u128
    ensures { result ≡ bit_count (octets.now, unused) }
{
    (8 * octets.len() as u128).saturating_sub(u128::from(unused))
}

/// The lowest address that begins with these bits.
pub fn lowest_of(octets: &[u8], unused: u8) -> u128
    requires few { unused < 8 }
    requires most { bit_count (octets.now, unused) ≤ 128 }
    ensures value { result ≡ lowest (octets.now, unused) }
    ensures aligned { result % 2 ^ (128 - bit_count (octets.now, unused)) ≡ 0 }
    ensures room { result + 2 ^ (128 - bit_count (octets.now, unused)) ≤ 2 ^ 128 }
{
    let len = bit_count(octets, unused) as u8;
    let value = value_of(octets) >> unused;
    if len == 0 { 0 } else { value << (128 - len) }
}

/// The highest one.
pub fn highest_of(octets: &[u8], unused: u8) -> u128
    requires few { unused < 8 }
    requires most { bit_count (octets.now, unused) ≤ 128 }
    ensures { result ≡ highest (octets.now, unused) }
{
    lowest_of(octets, unused) + host_mask(bit_count(octets, unused) as u8)
}

/// Reads the bits of an end. Refuses by `ADDRESS_TOO_LONG` where there are more than `most`.
#[tactic(auto, unfolding(crate::specs::Ip::Read::ip_address_at, rpki_der::specs::Read::Parse::tested))]
pub fn take_address(cons: &mut Constructed<'_>, most: u8) -> Result<BitString, DecodeError>
    ensures reads { Reads (λ bits. (bits.octets, bits.unused)) (ip_address_at most)
        cons.old result cons.new }
    ensures stays { Stays result cons.new }
    ensures most { IfOk result (λ bits. bit_count (bits.octets, bits.unused) ≤ most) }
{
    let bits = cons.take_bits()?;
    if bit_count(bits.octets.as_slice(), bits.unused) <= u128::from(most) {
        Ok(bits)
    } else {
        Err(cons.refuse_for(faults::ADDRESS_TOO_LONG))
    }
}

/// The first `len` bits of an address.
#[derive(Clone, Copy)]
pub struct FirstBits {
    pub addr: Addr,
    pub len: u8,
    pub ghost within: { len ≤ 128 },
}

impl FirstBits {
    // How many octets the bits take.
    fn octet_count(&self) -> usize
        ensures value { result ≡ octet_count self.now.len }
        ensures most { result ≤ 16 }
        ensures unused { self.now.len ≤ 8 * result }
        ensures few { 8 * result < self.now.len + 8 }
    {
        (self.len as usize + 7) / 8
    }

    // How many bits of the last octet are not used.
    fn unused(&self) -> u8
        ensures { result ≡ 8 * octet_count self.now.len - self.now.len }
    {
        (8 * self.octet_count() as u8).saturating_sub(self.len)
    }
}

impl Encode for FirstBits {
    ghost octets = { λ s. end_octets s.addr s.len };

    ghost is_short = { λ s. length (first_bits s.addr s.len) < 2 ^ 32 };

    ghost small = { λ s h. contents_small BIT_STRING (first_bits s.addr s.len) h };

    fn encoded_len(&self) -> Result<u64, EncodeError> {
        let octets = self.addr.to_bits().to_be_bytes();
        bit_string(&octets[..self.octet_count()], self.unused()).encoded_len()
    }

    fn put<W: Sink>(&self, len: u64, out: &mut W) -> Result<(), SinkFailed> {
        let octets = self.addr.to_bits().to_be_bytes();
        bit_string(&octets[..self.octet_count()], self.unused()).put(len, out)
    }
}

/// A lower end: the trailing zero bits are left out.
pub fn lower_end(min: Addr) -> FirstBits
    ensures addr { result.addr ≡ min }
    ensures len { result.len ≡ lower_len min }
{
    FirstBits {
        addr: min,
        len: 128 - min.to_bits().trailing_zeros() as u8,
    }
}

/// An upper end: the trailing one bits are left out.
pub fn upper_end(max: Addr) -> FirstBits
    ensures addr { result.addr ≡ max }
    ensures len { result.len ≡ upper_len max }
{
    FirstBits {
        addr: max,
        len: 128 - max.to_bits().trailing_ones() as u8,
    }
}

/// The bits of a prefix.
pub fn prefix_bits(addr: Addr, len: u8) -> FirstBits
    requires { len ≤ 128 }
    ensures addr { result.addr ≡ addr }
    ensures len { result.len ≡ len }
{
    FirstBits { addr, len }
}
