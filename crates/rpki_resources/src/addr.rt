//! Addresses.

ghost use Rattle.std.specs.Prelude.{◌≡◌, ◌/◌, ◌^◌, refl};
ghost use Rattle.std.specs.Net.Addr.{IsIpv4OfBits, IsIpv6OfBits};

use crate::number::Number;
use std::marker::Model;
use std::net::{Ipv4Addr, Ipv6Addr};

/// An address of 128 bits. An IPv4 address stands in the upper 32 of them.
#[derive(Clone, Copy, Debug, PartialEq, Eq, PartialOrd, Ord, Hash)]
pub struct Addr(u128);

impl Model for Addr {
    ghost use Rattle.std.specs.Prelude.{ℕ};

    ghost Value = { ℕ };

    ghost view = { λ a. a.0 };

    ghost inverse = { λ n. record { 0 = n } };
}

impl Addr {
    /// The address with these bits.
    pub fn from_bits(bits: u128) -> Addr
        ensures { result ≡ bits }
    {
        Addr(bits)
    }

    /// The bits of the address.
    pub fn to_bits(self) -> u128
        ensures { result ≡ self }
    {
        self.0
    }

    /// The IPv4 address in the upper 32 bits.
    pub fn to_v4(self) -> Ipv4Addr
        ensures { IsIpv4OfBits result (self / 2 ^ 96) }
    {
        Ipv4Addr::from_bits((self.0 >> 96) as u32)
    }

    /// All bits, as an IPv6 address.
    pub fn to_v6(self) -> Ipv6Addr
        ensures { IsIpv6OfBits result self }
    {
        Ipv6Addr::from_bits(self.0)
    }
}

impl Number for Addr {
    ghost use Rattle.std.specs.Prelude.{refl, ◌^◌};

    ghost number = { λ n. n };

    ghost limit = { 2 ^ 128 };

    fn value(self) -> u128 {
        self.0
    }

    ghost exact = { λ x y e. e };

    ghost alike = { λ x y. refl };
}
