//! Prefixes of addresses.

ghost use Rattle.std.specs.Prelude.{◌≡◌, ℕ, ◌+◌, ◌-◌, ◌%◌, ◌/◌, ◌^◌, ◌≤◌, ◌<◌, IfSome, IfNone};
ghost use Rattle.std.specs.Net.Addr.{IsIpv4OfBits, IsIpv6OfBits};
ghost use Rattle.rpki_resources.specs.declared.family.AddressFamily.{AddressFamily};
ghost use Rattle.rpki_resources.specs.Family.{IsWithin, max_bits};
ghost use Rattle.rpki_resources.specs.Prefix.{IsPrefix, prefix_len, first_of, last_of};

use crate::addr::Addr;
use std::marker::Model;
use std::net::{Ipv4Addr, Ipv6Addr};

/// The addresses that begin with the same bits (RFC 3779, section 2.1.1): the first of them, and
/// how many bits they share, from 0 to 128.
#[derive(Clone, Copy, Debug, PartialEq, Eq, Hash)]
pub struct Prefix {
    addr: Addr,
    len: u8,
}

impl Model for Prefix {
    ghost use Rattle.std.specs.Prelude.{◌≡◌, ◌-◌, ◌%◌, ◌^◌, ◌≤◌};
    ghost use Rattle.rpki_resources.specs.Prefix.{Network};

    ghost Value = { Network };

    ghost view = { λ p. record { addr = p.addr; len = p.len } };

    ghost invariant = { λ p. (p.len ≤ 128) × (p.addr % 2 ^ (128 - p.len) ≡ 0) };

    ghost inverse = { λ n. record { addr = n.addr; len = n.len } };
}

impl Prefix {
    /// The prefix of this length, in bits, that an address is in: the bits after the length are
    /// cleared. The length is at most 128.
    pub fn new(addr: Addr, len: u8) -> Prefix
        requires { len ≤ 128 }
        ensures { result ≡ record { addr = first_of addr len; len = len } }
    {
        Prefix {
            addr: Addr::from_bits(min_of(addr.to_bits(), len)),
            len,
        }
    }

    /// The first address.
    pub fn addr(self) -> Addr
        ensures { result ≡ self.addr }
    {
        self.addr
    }

    /// The length in bits: how many all addresses share, from 0 to 128.
    pub fn addr_len(self) -> u8
        ensures len { result ≡ self.len }
        ensures most { result ≤ 128 }
    {
        self.len
    }

    /// The first address and the last one. They are addresses of each family whose addresses have
    /// no fewer bits than the prefix (`addr_len`).
    pub fn range(self) -> (Addr, Addr)
        ensures first { result.0 ≡ self.addr }
        ensures last { result.1 ≡ last_of self.addr self.len }
        ensures order { result.0 ≤ result.1 }
        ensures prefix { IsPrefix result.0 result.1 self.len }
        ensures within { (family : AddressFamily) → self.len ≤ max_bits family →
            IsWithin family (record { min = result.0; max = result.1 }) }
    {
        (
            self.addr,
            Addr::from_bits(max_of(self.addr.to_bits(), self.len)),
        )
    }

    /// The first address, as an IPv4 address: the upper 32 bits.
    pub fn to_v4(self) -> Ipv4Addr
        ensures { IsIpv4OfBits result (self.addr / 2 ^ 96) }
    {
        self.addr.to_v4()
    }

    /// The first address, as an IPv6 address.
    pub fn to_v6(self) -> Ipv6Addr
        ensures { IsIpv6OfBits result self.addr }
    {
        self.addr.to_v6()
    }
}

// How many addresses a prefix of this length has, less one.
pub fn host_mask(len: u8) -> u128
    requires { len ≤ 128 }
    ensures { result + 1 ≡ 2 ^ (128 - len) }
{
    if len == 0 {
        u128::MAX
    } else {
        (1u128 << (128 - u32::from(len))) - 1
    }
}

// The part of an address after a prefix of this length.
fn host_part(addr: u128, len: u8) -> u128
    requires { len ≤ 128 }
    ensures { result ≡ addr % 2 ^ (128 - len) }
{
    addr & host_mask(len)
}

/// The first address of the prefix of this length that an address is in.
pub fn min_of(addr: u128, len: u8) -> u128
    requires { len ≤ 128 }
    ensures first { result ≡ first_of addr len }
    ensures aligned { result % 2 ^ (128 - len) ≡ 0 }
{
    addr - host_part(addr, len)
}

/// The last one.
pub fn max_of(addr: u128, len: u8) -> u128
    requires { len ≤ 128 }
    ensures last { result ≡ last_of addr len }
    ensures above { addr ≤ result }
{
    min_of(addr, len) + host_mask(len)
}

/// The length of the prefix whose addresses are those from `min` to `max`, if there is one.
pub fn len_of(min: u128, max: u128) -> Option<u8>
    ensures value { result ≡ prefix_len min max }
    ensures some { IfSome result (IsPrefix min max) }
    ensures none { IfNone result ((len : ℕ) → IsPrefix min max len → ⊥) }
{
    if max < min {
        return None;
    }
    let host = max - min;
    let len = host.leading_zeros() as u8;
    if host == host_mask(len) && host_part(min, len) == 0 {
        Some(len)
    } else {
        None
    }
}
