//! Addresses of a ROA (RFC 9582, section 4.3).

ghost use Rattle.std.specs.Prelude.{◌≡◌, ◌≤◌, ◌↔◌, Some, IsTrue, unwrap_or};
ghost use Rattle.rpki_resources.specs.declared.family.AddressFamily.{AddressFamily};
ghost use Rattle.rpki_resources.specs.Family.{IsWithin, max_bits};
ghost use Rattle.rpki_resources.specs.Prefix.{IsPrefix, first_of, last_of};
ghost use Rattle.rpki_resources.specs.Text.{max_len_text};
ghost use Rattle.rpki_routes.specs.Roa.{addr_of, IsShown, max_len_prefix};

use rpki_resources::{Addr, AddressFamily, Asn, MaxLenPrefix, Prefix};
use std::fmt;
use std::marker::Model;
use std::net::IpAddr;

/// A prefix, and the length up to which longer ones may be originated too, where it is set, both in
/// bits.
#[derive(Clone, Copy, Debug, PartialEq, Eq, Hash)]
pub struct RoaIpAddress {
    prefix: Prefix,
    max_length: Option<u8>,
}

impl Model for RoaIpAddress {
    ghost use Rattle.rpki_routes.specs.Roa.{Address};

    ghost Value = { Address };

    ghost view = { λ a. record { prefix = a.prefix; max_length = a.max_length } };

    ghost inverse = { λ a. record { prefix = a.prefix; max_length = a.max_length } };
}

impl RoaIpAddress {
    /// The prefix with this maximum length, in bits, or with none.
    pub fn new(prefix: Prefix, max_length: Option<u8>) -> RoaIpAddress
        ensures { result ≡ record { prefix = prefix; max_length = max_length } }
    {
        RoaIpAddress { prefix, max_length }
    }

    /// The prefix of this length, in bits, that the address is in, with this maximum length. The
    /// length is at most 128; one of more than 32 of an IPv4 address is no prefix of IPv4.
    pub fn new_addr(addr: IpAddr, len: u8, max_len: Option<u8>) -> RoaIpAddress
        requires { len ≤ 128 }
        ensures { result ≡ record {
          prefix = record { addr = first_of (addr_of addr) len; len = len };
          max_length = max_len;
        } }
    {
        RoaIpAddress::new(Prefix::new(bits_of(addr), len), max_len)
    }

    /// The prefix.
    pub fn prefix(self) -> Prefix
        ensures { result ≡ self.prefix }
    {
        self.prefix
    }

    /// The first address of the prefix and the last one.
    pub fn range(self) -> (Addr, Addr)
        ensures first { result.0 ≡ self.prefix.addr }
        ensures last { result.1 ≡ last_of self.prefix.addr self.prefix.len }
        ensures order { result.0 ≤ result.1 }
        ensures prefix { IsPrefix result.0 result.1 self.prefix.len }
        ensures within { (family : AddressFamily) → self.prefix.len ≤ max_bits family →
            IsWithin family (record { min = result.0; max = result.1 }) }
    {
        self.prefix.range()
    }

    /// The maximum length in bits, where one is set.
    pub fn max_length(self) -> Option<u8>
        ensures { result ≡ self.max_length }
    {
        self.max_length
    }
}

// An address in 128 bits: one of IPv4 in the upper 32.
fn bits_of(addr: IpAddr) -> Addr
    ensures { result ≡ addr_of addr }
{
    match addr {
        IpAddr::V4(addr) => Addr::from_bits(u128::from(addr.to_bits()) << 96),
        IpAddr::V6(addr) => Addr::from_bits(addr.to_bits()),
    }
}

/// An address of a ROA with its family.
#[derive(Clone, Copy, Debug, PartialEq, Eq, Hash)]
pub struct FriendlyRoaIpAddress {
    family: AddressFamily,
    addr: RoaIpAddress,
}

impl Model for FriendlyRoaIpAddress {
    ghost use Rattle.rpki_routes.specs.Roa.{FamilyAddress};

    ghost Value = { FamilyAddress };

    ghost view = { λ a. record { family = a.family; address = a.addr } };

    ghost inverse = { λ a. record { family = a.family; addr = a.address } };
}

impl FriendlyRoaIpAddress {
    /// The address as one of this family.
    pub(crate) fn new(family: AddressFamily, addr: RoaIpAddress) -> FriendlyRoaIpAddress
        ensures { result ≡ record { family = family; address = addr } }
    {
        FriendlyRoaIpAddress { family, addr }
    }

    /// The prefix.
    pub fn prefix(self) -> Prefix
        ensures { result ≡ self.address.prefix }
    {
        self.addr.prefix()
    }

    /// Whether it is one of IPv4.
    pub fn is_v4(self) -> bool
        ensures { IsTrue result ↔ (self.family ≡ AddressFamily.Ipv4) }
    {
        match self.family {
            AddressFamily::Ipv4 => true,
            AddressFamily::Ipv6 => false,
        }
    }

    /// The first address of the prefix.
    pub fn address(self) -> IpAddr
        ensures { IsShown self.family self.address.prefix.addr result }
    {
        match self.family {
            AddressFamily::Ipv4 => IpAddr::V4(self.prefix().to_v4()),
            AddressFamily::Ipv6 => IpAddr::V6(self.prefix().to_v6()),
        }
    }

    /// The length of the prefix in bits.
    pub fn address_length(self) -> u8
        ensures { result ≡ self.address.prefix.len }
    {
        self.prefix().addr_len()
    }

    /// The maximum length in bits: that of the prefix, where none is set.
    pub fn max_length(self) -> u8
        ensures { result ≡ unwrap_or self.address.max_length self.address.prefix.len }
    {
        match self.addr.max_length() {
            Some(max_length) => max_length,
            None => self.address_length(),
        }
    }

    /// The same with public fields.
    pub fn max_len_prefix(self) -> MaxLenPrefix
        ensures { result ≡ max_len_prefix self }
    {
        MaxLenPrefix {
            family: self.family,
            prefix: self.prefix(),
            max_len: self.addr.max_length(),
        }
    }
}

/// The prefix, and the maximum length after `-` where one is set: `192.0.2.0/24-26`.
impl fmt::Display for FriendlyRoaIpAddress {
    ghost output = { λ a. Some (max_len_text (max_len_prefix a)) };

    fn fmt<W: fmt::Write>(&self, f: &mut fmt::Formatter<W>) -> fmt::Result {
        let prefix = self.max_len_prefix();
        write!(f, "{prefix}")
    }
}

/// A prefix, with a maximum length, that an autonomous system may originate.
#[derive(Clone, Copy, Debug, PartialEq, Eq, Hash)]
pub struct RouteOrigin {
    pub prefix: MaxLenPrefix,
    pub asn: Asn,
}
