//! The addresses of a ROA, with their families and with the autonomous system.

ghost use Rattle.std.specs.Prelude.{◌≡◌, ◌++◌, map};
ghost use Rattle.rpki_resources.specs.declared.family.AddressFamily.TheVariants.{Ipv4, Ipv6};
ghost use Rattle.rpki_routes.specs.Roa.{of_family, origin_of};

use crate::roa::address::{FriendlyRoaIpAddress, RouteOrigin};
use crate::roa::addresses::RoaIpAddressIter;
use rpki_resources::{AddressFamily, Asn};
use std::alloc::AllocError;
use std::marker::Model;

/// The addresses that are still to come, those of IPv4 first.
#[derive(Debug, Drop)]
pub struct RoaAddrIter<'a> {
    v4: RoaIpAddressIter<'a>,
    v6: RoaIpAddressIter<'a>,
}

impl<'a> Model for RoaAddrIter<'a> {
    ghost use Rattle.std.specs.Prelude.{List, ◌++◌, map};
    ghost use Rattle.rpki_resources.specs.declared.family.AddressFamily.TheVariants.{Ipv4, Ipv6};
    ghost use Rattle.rpki_routes.specs.Roa.{FamilyAddress, of_family};

    ghost Value = { List FamilyAddress };

    ghost view = { λ i. map (of_family Ipv4) i.v4 ++ map (of_family Ipv6) i.v6 };
}

impl<'a> RoaAddrIter<'a> {
    // First the addresses of IPv4, and then those of IPv6.
    pub(crate) fn new(v4: RoaIpAddressIter<'a>, v6: RoaIpAddressIter<'a>) -> RoaAddrIter<'a>
        ensures { result ≡ map (of_family Ipv4) v4.entry ++ map (of_family Ipv6) v6.entry }
    {
        RoaAddrIter { v4, v6 }
    }
}

impl<'a> RoaAddrIter<'a> {
    // The same addresses again.
    pub(crate) fn again(&self) -> RoaAddrIter<'a>
        ensures { result ≡ self.now }
    {
        RoaAddrIter {
            v4: self.v4.again(),
            v6: self.v6.again(),
        }
    }
}

impl<'a> Clone for RoaAddrIter<'a> {
    ghost is_clone = { λ i copy. copy ≡ i };

    fn clone(&self) -> Result<RoaAddrIter<'a>, AllocError> {
        Ok(self.again())
    }
}

impl<'a> Iterator for RoaAddrIter<'a> {
    type Item = FriendlyRoaIpAddress;

    ghost use Rattle.std.specs.Iterator.{YieldsFirst, item_count};

    ghost next_gives = { YieldsFirst (λ rest. rest) };

    ghost remaining = { item_count (λ rest. rest) };

    fn next(&mut self) -> Option<FriendlyRoaIpAddress> {
        if let Some(addr) = self.v4.next() {
            return Some(FriendlyRoaIpAddress::new(AddressFamily::Ipv4, addr));
        }
        let addr = self.v6.next()?;
        Some(FriendlyRoaIpAddress::new(AddressFamily::Ipv6, addr))
    }
}

/// The origins that are still to come, those of IPv4 first.
#[derive(Debug, Drop)]
pub struct RoaOriginIter<'a> {
    asn: Asn,
    addrs: RoaAddrIter<'a>,
}

impl<'a> Model for RoaOriginIter<'a> {
    ghost use Rattle.std.specs.Prelude.{List, map};
    ghost use Rattle.rpki_routes.specs.declared.roa.address.RouteOrigin.{RouteOrigin};
    ghost use Rattle.rpki_routes.specs.Roa.{origin_of};

    ghost Value = { List RouteOrigin };

    ghost view = { λ i. map (origin_of i.asn) i.addrs };
}

impl<'a> RoaOriginIter<'a> {
    // The addresses, each of which the autonomous system may originate.
    pub(crate) fn new(asn: Asn, addrs: RoaAddrIter<'a>) -> RoaOriginIter<'a>
        ensures { result ≡ map (origin_of asn) addrs.entry }
    {
        RoaOriginIter { asn, addrs }
    }
}

impl<'a> Clone for RoaOriginIter<'a> {
    ghost is_clone = { λ i copy. copy ≡ i };

    fn clone(&self) -> Result<RoaOriginIter<'a>, AllocError> {
        Ok(RoaOriginIter {
            asn: self.asn,
            addrs: self.addrs.again(),
        })
    }
}

impl<'a> Iterator for RoaOriginIter<'a> {
    type Item = RouteOrigin;

    ghost use Rattle.std.specs.Iterator.{YieldsFirst, item_count};

    ghost next_gives = { YieldsFirst (λ rest. rest) };

    ghost remaining = { item_count (λ rest. rest) };

    fn next(&mut self) -> Option<RouteOrigin> {
        let addr = self.addrs.next()?;
        Some(RouteOrigin {
            prefix: addr.max_len_prefix(),
            asn: self.asn,
        })
    }
}
