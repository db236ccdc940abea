//! Building contents of Route Origin Authorizations (ROAs; RFC 9582, section 4).

mod addresses;
mod signing;

ghost use Rattle.std.specs.Prelude.{◌≡◌, ◌≤◌, ◌<◌, ◌^◌, ◌++◌, ◌∷◌, [], length};
ghost use Rattle.std.specs.Prelude.{IfErr, IfOk, OnErr, OnOk};
ghost use Rattle.std.specs.Borrow.{sem};
ghost use Rattle.std.specs.declared.net.ip_addr.IpAddr.{IpAddr};
ghost use Rattle.rpki_faults.specs.Checks.{AnswersFirstFault};
ghost use Rattle.rpki_lists.specs.Built.{IsNotBuilt};
ghost use Rattle.rpki_routes.specs.Roa.{IsRoa};
ghost use Rattle.rpki_routes.specs.Roa.Built.{address_of, roa_checks, with_address};
ghost use Rattle.rpki_routes.specs.Roa.Form.{RoaForm};
ghost use Rattle.rpki_routes.specs.Roa.Lent.{LendsV4, LendsV6};
ghost use Rattle.rpki_routes.specs.Roa.Written.{roa_contents, roa_octets};

use crate::roa::RouteOriginAttestation;
use crate::roa::address::RoaIpAddress;
pub use addresses::{RoaIpAddressesBuilder, RoaIpAddressesEncoder};
use rpki_basics::{BuildError, BuildFault};
use rpki_der::Encode;
use rpki_resources::{AddressFamily, Asn};
use std::alloc::{AllocError, Global};
use std::marker::Model;
use std::net::{IpAddr, Ipv4Addr, Ipv6Addr};

/// A builder of a ROA content: an autonomous system, and the addresses of each family that it may
/// originate.
#[derive(Drop)]
pub struct RoaBuilder {
    as_id: Asn,
    v4: RoaIpAddressesBuilder,
    v6: RoaIpAddressesBuilder,
}

impl Model for RoaBuilder {
    ghost use Rattle.rpki_routes.specs.Roa.{Roa};

    ghost Value = { Roa };

    ghost view = { λ b. record { as_id = b.as_id; v4 = b.v4; v6 = b.v6 } };
}

impl RoaBuilder {
    /// A builder for this autonomous system, without addresses.
    pub fn new(alloc: Global, as_id: Asn) -> RoaBuilder
        ensures { result ≡ record { as_id = as_id; v4 = []; v6 = [] } }
    {
        RoaBuilder::with_addresses(
            as_id,
            RoaIpAddressesBuilder::new(alloc),
            RoaIpAddressesBuilder::new(alloc),
        )
    }

    /// A builder for this autonomous system with these addresses of IPv4 and of IPv6.
    pub fn with_addresses(
        as_id: Asn,
        v4: RoaIpAddressesBuilder,
        v6: RoaIpAddressesBuilder,
    ) -> RoaBuilder
        ensures { result ≡ record { as_id = as_id; v4 = v4; v6 = v6 } }
    {
        RoaBuilder { as_id, v4, v6 }
    }

    /// The autonomous system.
    pub fn as_id(&self) -> Asn
        ensures { result ≡ self.now.as_id }
    {
        self.as_id
    }

    /// Sets the autonomous system.
    pub fn set_as_id(&mut self, as_id: Asn)
        ensures { self.new ≡ record self.old { as_id = as_id } }
    {
        self.as_id = as_id;
    }

    /// The addresses of IPv4.
    pub fn v4(&self) -> &RoaIpAddressesBuilder
        ensures { result.now ≡ self.now.v4 }
    {
        &self.v4
    }

    /// Mutable access to the addresses of IPv4.
    pub fn v4_mut(&mut self) -> &mut RoaIpAddressesBuilder
        ensures* writes_back { sem 𝓛 (LendsV4 self.entry result) }
        ensures value { result.now ≡ self.old.v4 }
    {
        &mut self.v4
    }

    /// The addresses of IPv6.
    pub fn v6(&self) -> &RoaIpAddressesBuilder
        ensures { result.now ≡ self.now.v6 }
    {
        &self.v6
    }

    /// Mutable access to the addresses of IPv6.
    pub fn v6_mut(&mut self) -> &mut RoaIpAddressesBuilder
        ensures* writes_back { sem 𝓛 (LendsV6 self.entry result) }
        ensures value { result.now ≡ self.old.v6 }
    {
        &mut self.v6
    }

    /// Adds the prefix of this length, in bits, that the address is in, with this maximum length,
    /// to the addresses of its family. The length is at most 128; one of more than 32 of an IPv4
    /// address is refused once the content is made. Where there is no memory for it, the builder
    /// stays as it was.
    pub fn push_addr(
        &mut self,
        addr: IpAddr,
        len: u8,
        max_len: Option<u8>,
    ) -> Result<(), AllocError>
        requires { len ≤ 128 }
        ensures ok { OnOk result
            (self.new ≡ with_address addr self.old (address_of addr len max_len)) }
        ensures err { OnErr result (self.new ≡ self.old) }
    {
        match addr {
            IpAddr::V4(addr) => self.push_v4_addr(addr, len, max_len),
            IpAddr::V6(addr) => self.push_v6_addr(addr, len, max_len),
        }
    }

    /// Adds an address of IPv4. Where there is no memory for it, the builder stays as it was.
    pub fn push_v4(&mut self, addr: RoaIpAddress) -> Result<(), AllocError>
        ensures ok { OnOk result
            (self.new ≡ record self.old { v4 = self.old.v4 ++ addr ∷ [] }) }
        ensures err { OnErr result (self.new ≡ self.old) }
    {
        self.v4.push(addr)
    }

    /// Adds the prefix of this length, in bits, that the address is in, with this maximum length.
    /// The length is at most 128; one of more than 32 is refused once the content is made. Where
    /// there is no memory for it, the builder stays as it was.
    pub fn push_v4_addr(
        &mut self,
        addr: Ipv4Addr,
        len: u8,
        max_len: Option<u8>,
    ) -> Result<(), AllocError>
        requires { len ≤ 128 }
        ensures ok { OnOk result
            (self.new ≡ with_address (IpAddr.V4 addr) self.old
            (address_of (IpAddr.V4 addr) len max_len)) }
        ensures err { OnErr result (self.new ≡ self.old) }
    {
        self.v4.push_addr(IpAddr::V4(addr), len, max_len)
    }

    /// Adds these addresses of IPv4 in their order. Where there is no memory for all of them, the
    /// builder stays as it was.
    pub fn extend_v4_from_slice(&mut self, addrs: &[RoaIpAddress]) -> Result<(), AllocError>
        ensures ok { OnOk result
            (self.new ≡ record self.old { v4 = self.old.v4 ++ addrs.now }) }
        ensures err { OnErr result (self.new ≡ self.old) }
    {
        self.v4.extend_from_slice(addrs)
    }

    /// Adds an address of IPv6. Where there is no memory for it, the builder stays as it was.
    pub fn push_v6(&mut self, addr: RoaIpAddress) -> Result<(), AllocError>
        ensures ok { OnOk result
            (self.new ≡ record self.old { v6 = self.old.v6 ++ addr ∷ [] }) }
        ensures err { OnErr result (self.new ≡ self.old) }
    {
        self.v6.push(addr)
    }

    /// Adds the prefix of this length, in bits, that the address is in, with this maximum length.
    /// The length is at most 128. Where there is no memory for it, the builder stays as it was.
    pub fn push_v6_addr(
        &mut self,
        addr: Ipv6Addr,
        len: u8,
        max_len: Option<u8>,
    ) -> Result<(), AllocError>
        requires { len ≤ 128 }
        ensures ok { OnOk result
            (self.new ≡ with_address (IpAddr.V6 addr) self.old
            (address_of (IpAddr.V6 addr) len max_len)) }
        ensures err { OnErr result (self.new ≡ self.old) }
    {
        self.v6.push_addr(IpAddr::V6(addr), len, max_len)
    }

    /// Adds these addresses of IPv6 in their order. Where there is no memory for all of them, the
    /// builder stays as it was.
    pub fn extend_v6_from_slice(&mut self, addrs: &[RoaIpAddress]) -> Result<(), AllocError>
        ensures ok { OnOk result
            (self.new ≡ record self.old { v6 = self.old.v6 ++ addrs.now }) }
        ensures err { OnErr result (self.new ≡ self.old) }
    {
        self.v6.extend_from_slice(addrs)
    }

    /// The content (RFC 9582, section 4); it may have no address. The addresses of IPv4 are looked
    /// at first, and those of each family in their order: one whose prefix is longer than an
    /// address of the family is refused by `PrefixTooLong`, and one whose maximum length is below
    /// that of the prefix or above that of an address by `BadMaxLength`. Refuses by `TooLong` where
    /// its SEQUENCE would have contents of 2^32 octets or more, and by `Memory`.
    pub fn to_attestation(&self) -> Result<RouteOriginAttestation, BuildError>
        ensures built { IfOk result (λ roa. roa ≡ self.now) }
        ensures roa { OnOk result (IsRoa self.now) }
        ensures short { OnOk result (length (roa_contents self.now) < 2 ^ 32) }
        ensures written { OnOk result (RoaForm (roa_octets self.now) self.now) }
        ensures refused { IfErr result (IsNotBuilt (roa_checks self.now)
            (¬ (length (roa_contents self.now) < 2 ^ 32))) }
    {
        self.check()?;
        self.content()
    }

    // The first thing that is wrong with the content, if anything is.
    fn check(&self) -> Result<(), BuildFault>
        ensures faults { AnswersFirstFault (roa_checks self.now) result }
        ensures roa { OnOk result (IsRoa self.now) }
    {
        // The proof takes from this call that the number has four octets.
        let _ = self.as_id.into_u32();
        self.v4.check(AddressFamily::Ipv4)?;
        self.v6.check(AddressFamily::Ipv6)
    }

    // The content of what passes the checks.
    fn content(&self) -> Result<RouteOriginAttestation, BuildError>
        requires { IsRoa self.now }
        ensures built { IfOk result (λ roa. roa ≡ self.now) }
        ensures short { OnOk result (length (roa_contents self.now) < 2 ^ 32) }
        ensures refused { IfErr result
            (IsNotBuilt [] (¬ (length (roa_contents self.now) < 2 ^ 32))) }
    {
        let v4_addrs = self.v4.list(AddressFamily::Ipv4)?;
        let v6_addrs = self.v6.list(AddressFamily::Ipv6)?;
        short(RouteOriginAttestation {
            as_id: self.as_id,
            v4_addrs,
            v6_addrs,
        })
    }
}

// The content, if it has few enough octets to be written.
fn short(roa: RouteOriginAttestation) -> Result<RouteOriginAttestation, BuildError>
    ensures same { IfOk result (λ same. same ≡ roa) }
    ensures short { OnOk result (length (roa_contents roa) < 2 ^ 32) }
    ensures refused { IfErr result (IsNotBuilt [] (¬ (length (roa_contents roa) < 2 ^ 32))) }
{
    match roa.encode_ref().encoded_len() {
        Ok(_) => Ok(roa),
        Err(_) => {
            drop(roa);
            Err(BuildError::TooLong)
        }
    }
}
