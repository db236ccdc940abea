//! Building lists of addresses of a ROA (RFC 9582, section 4.3).

ghost use Rattle.std.specs.Prelude.{◌≡◌, ◌≤◌, ◌<◌, ◌^◌, ◌++◌, ◌∷◌, [], List, All, length};
ghost use Rattle.std.specs.Prelude.{◌↔◌, IfErr, IfOk, IsTrue, OnErr, OnOk};
ghost use Rattle.std.specs.Iterator.{Drains, IsFinite};
ghost use Rattle.rpki_der.specs.declared.mode.Mode.TheVariants.{Der};
ghost use Rattle.rpki_der.specs.Tags.{SEQUENCE};
ghost use Rattle.rpki_der.specs.Write.Written.{value_octets};
ghost use Rattle.rpki_faults.specs.Checks.{AnswersFirstFault};
ghost use Rattle.rpki_resources.specs.declared.family.AddressFamily.{AddressFamily};
ghost use Rattle.rpki_lists.specs.Built.{IsNotBuilt};
ghost use Rattle.rpki_routes.specs.Roa.{Address, IsAddress};
ghost use Rattle.rpki_routes.specs.Roa.Built.{IsClaimOf, address_checks, address_of, list_checks};
ghost use Rattle.rpki_routes.specs.Roa.Form.{AddressesForm};
ghost use Rattle.rpki_routes.specs.Roa.Written.{list_octets};

use crate::roa::address::RoaIpAddress;
use crate::roa::addresses::RoaIpAddresses;
use rpki_basics::{BuildError, BuildFault};
use rpki_der::encode::{each, sequence};
use rpki_der::{Encode, EncodeError, Sink, SinkFailed};
use rpki_lists::octets_of;
use rpki_resources::{AddressFamily, IpBlock, IpBlocksBuilder, IpResources};
use std::alloc::{AllocError, Global};
use std::marker::Model;
use std::net::IpAddr;

/// A builder of the addresses of one family, which keeps them in the order in which they come. It
/// takes any address; whether it is one of the family is asked once the list is made.
#[derive(Debug, Drop)]
pub struct RoaIpAddressesBuilder {
    addrs: Vec<RoaIpAddress>,
}

impl Model for RoaIpAddressesBuilder {
    ghost use Rattle.std.specs.Prelude.{List};
    ghost use Rattle.rpki_routes.specs.Roa.{Address};

    ghost Value = { List Address };

    ghost view = { λ b. b.addrs.items };
}

impl Clone for RoaIpAddressesBuilder {
    ghost is_clone = { λ b copy. copy ≡ b };

    fn clone(&self) -> Result<RoaIpAddressesBuilder, AllocError> {
        let mut addrs = Vec::new(*self.addrs.allocator());
        addrs.extend_from_slice(&self.addrs)?;
        Ok(RoaIpAddressesBuilder { addrs })
    }
}

impl RoaIpAddressesBuilder {
    /// A builder without addresses.
    pub fn new(alloc: Global) -> RoaIpAddressesBuilder
        ensures { result ≡ [] }
    {
        RoaIpAddressesBuilder {
            addrs: Vec::new(alloc),
        }
    }

    /// Adds an address. Where there is no memory for it, the builder stays as it was.
    pub fn push(&mut self, addr: RoaIpAddress) -> Result<(), AllocError>
        ensures ok { OnOk result (self.new ≡ self.old ++ addr ∷ []) }
        ensures err { OnErr result (self.new ≡ self.old) }
    {
        self.addrs.push(addr)?;
        Ok(())
    }

    /// Adds the prefix of this length, in bits, that the address is in, with this maximum length.
    /// The length is at most 128; one of more than 32 of an IPv4 address is refused once the list
    /// is made. Where there is no memory for it, the builder stays as it was.
    pub fn push_addr(
        &mut self,
        addr: IpAddr,
        len: u8,
        max_len: Option<u8>,
    ) -> Result<(), AllocError>
        requires { len ≤ 128 }
        ensures ok { OnOk result (self.new ≡ self.old ++ address_of addr len max_len ∷ []) }
        ensures err { OnErr result (self.new ≡ self.old) }
    {
        self.push(RoaIpAddress::new_addr(addr, len, max_len))
    }

    /// Adds these addresses in their order. Where there is no memory for all of them, the builder
    /// stays as it was.
    pub fn extend_from_slice(&mut self, addrs: &[RoaIpAddress]) -> Result<(), AllocError>
        ensures ok { OnOk result (self.new ≡ self.old ++ addrs.now) }
        ensures err { OnErr result (self.new ≡ self.old) }
    {
        self.addrs.extend_from_slice(addrs)
    }

    /// Adds each address that the iterator gives, in its order. The iterator comes to an end. Where
    /// there is no memory for all of them, the builder stays as it was.
    pub fn try_extend<I: Iterator<Item = RoaIpAddress> + Drop>(
        &mut self,
        addrs: I,
    ) -> Result<(), AllocError>
        requires can { I.can_next addrs }
        requires ends { IsFinite (I.remaining addrs) }
        ensures ok { OnOk result ((xs : List Address) ×
            Drains I.next_gives addrs xs × (self.new ≡ self.old ++ xs)) }
        ensures err { OnErr result (self.new ≡ self.old) }
    {
        let mut added = Vec::new(*self.addrs.allocator());
        for addr in addrs {
            added.push(addr)?;
        }
        self.addrs.append(&mut added)
    }

    /// The list of the addresses, which are addresses of this family (RFC 9582, section 4.3). They
    /// are looked at in their order: one whose prefix is longer than an address of the family is
    /// refused by `PrefixTooLong`, and one whose maximum length is below that of the prefix or
    /// above that of an address by `BadMaxLength`. Refuses by `TooLong` where they are written as
    /// 2^32 octets or more, and by `Memory`.
    pub fn to_addresses(&self, family: AddressFamily) -> Result<RoaIpAddresses, BuildError>
        ensures built { IfOk result (λ list. list ≡ self.now) }
        ensures within { OnOk result (All (IsAddress family) self.now) }
        ensures short { OnOk result (length (list_octets self.now) < 2 ^ 32) }
        ensures refused { IfErr result (IsNotBuilt (list_checks family self.now)
            (¬ (length (list_octets self.now) < 2 ^ 32))) }
    {
        self.check(family)?;
        self.list(family)
    }

    /// What a certificate has to claim for them: the set of the addresses of their prefixes,
    /// missing where there is none. Refuses where memory runs out.
    pub fn to_resources(&self) -> Result<IpResources, AllocError>
        ensures { IfOk result (IsClaimOf self.now) }
    {
        let alloc = *self.addrs.allocator();
        claim_of_each(alloc, &self.addrs)
    }

    /// The addresses, to be written in DER as they are: a SEQUENCE of them, in their order.
    pub fn encode_ref(&self) -> RoaIpAddressesEncoder<'_>
        ensures value { result ≡ self.now }
        ensures written { (family : AddressFamily) → All (IsAddress family) self.now
            → length (list_octets self.now) < 2 ^ 32
            → AddressesForm family Der (value_octets SEQUENCE (list_octets self.now)) self.now }
    {
        RoaIpAddressesEncoder {
            addrs: self.addrs.as_slice(),
        }
    }

    /// Whether there is no address.
    pub(crate) fn is_empty(&self) -> bool
        ensures { IsTrue result ↔ (self.now ≡ []) }
    {
        self.addrs.is_empty()
    }

    /// Why they are no addresses of the family, if they are none.
    pub(crate) fn check(&self, family: AddressFamily) -> Result<(), BuildFault>
        ensures faults { AnswersFirstFault (list_checks family self.now) result }
        ensures within { OnOk result (All (IsAddress family) self.now) }
    {
        check_each(family, &self.addrs)
    }

    /// The list of the addresses, which are of this family.
    pub(crate) fn list(&self, family: AddressFamily) -> Result<RoaIpAddresses, BuildError>
        requires { All (IsAddress family) self.now }
        ensures built { IfOk result (λ list. list ≡ self.now) }
        ensures short { OnOk result (length (list_octets self.now) < 2 ^ 32) }
        ensures refused { IfErr result
            (IsNotBuilt [] (¬ (length (list_octets self.now) < 2 ^ 32))) }
    {
        let octets = octets_of(*self.addrs.allocator(), &each(self.addrs.as_slice()))?;
        if u32::try_from(octets.len()).is_err() {
            return Err(BuildError::TooLong);
        }
        Ok(RoaIpAddresses::of(octets)?)
    }
}

// Why an address is none of the family, if it is none.
fn check_address(family: AddressFamily, address: RoaIpAddress) -> Result<(), BuildFault>
    ensures faults { AnswersFirstFault (address_checks family address) result }
    ensures within { OnOk result (IsAddress family address) }
{
    let len = address.prefix().addr_len();
    let most = family.max_len();
    if len > most {
        return Err(BuildFault::PrefixTooLong);
    }
    // The proof takes from this call what is known of a prefix.
    let _ = address.range();
    match address.max_length() {
        None => Ok(()),
        Some(max) => {
            if max < len || max > most {
                Err(BuildFault::BadMaxLength)
            } else {
                Ok(())
            }
        }
    }
}

// Why the addresses are none of the family, if they are none: looked at one after the other.
fn check_each(family: AddressFamily, addrs: &[RoaIpAddress]) -> Result<(), BuildFault>
    ensures faults { AnswersFirstFault (list_checks family addrs.now) result }
    ensures within { OnOk result (All (IsAddress family) addrs.now) }
{
    for addr in addrs {
        check_address(family, *addr)?;
    }
    Ok(())
}

// The claim of the addresses of these prefixes.
fn claim_of_each(alloc: Global, addrs: &[RoaIpAddress]) -> Result<IpResources, AllocError>
    ensures { IfOk result (IsClaimOf addrs.now) }
{
    let mut blocks = IpBlocksBuilder::new(alloc);
    for addr in addrs {
        let prefix = addr.prefix();
        // The proof takes from this call that the first address is not above the last one.
        let _ = prefix.range();
        blocks.push(IpBlock::Prefix(prefix))?;
    }
    Ok(IpResources::blocks(blocks.finalize()?))
}

/// Addresses, to be written in DER.
#[derive(Drop)]
pub struct RoaIpAddressesEncoder<'a> {
    addrs: &'a [RoaIpAddress],
}

impl<'a> Model for RoaIpAddressesEncoder<'a> {
    ghost use Rattle.std.specs.Prelude.{List};
    ghost use Rattle.rpki_routes.specs.Roa.{Address};

    ghost Value = { List Address };

    ghost view = { λ e. e.addrs.now };
}

impl Encode for RoaIpAddressesEncoder<'_> {
    ghost use Rattle.rpki_der.specs.Tags.{SEQUENCE};
    ghost use Rattle.rpki_der.specs.Write.Parts.{contents_small};
    ghost use Rattle.rpki_der.specs.Write.Written.{value_octets};
    ghost use Rattle.rpki_routes.specs.Roa.Written.{list_octets};

    ghost octets = { λ list. value_octets SEQUENCE (list_octets list) };

    ghost is_short = { λ list. length (list_octets list) < 2 ^ 32 };

    ghost small = { λ list h. contents_small SEQUENCE (list_octets list) h };

    fn encoded_len(&self) -> Result<u64, EncodeError> {
        sequence(each(self.addrs)).encoded_len()
    }

    fn put<W: Sink>(&self, len: u64, out: &mut W) -> Result<(), SinkFailed> {
        sequence(each(self.addrs)).put(len, out)
    }
}
