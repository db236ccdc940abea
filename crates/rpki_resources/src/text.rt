//! Texts of addresses, prefixes and blocks.

ghost use Rattle.std.specs.Prelude.{◌≡◌, Some, None, Option};
ghost use Rattle.std.specs.Fmt.{DisplaysOnOk};
ghost use Rattle.rpki_resources.specs.declared.family.AddressFamily.TheVariants.{Ipv4, Ipv6};
ghost use Rattle.rpki_resources.specs.Text.{addr_text, prefix_text, block_text, max_len_text};

use crate::addr::Addr;
use crate::family::AddressFamily;
use crate::ip::IpBlock;
use crate::prefix::Prefix;
use std::fmt;

/// An address of a family, to be printed: an IPv4 address as four decimal numbers with dots, an
/// IPv6 address by RFC 5952, section 4. No IPv6 address has a dotted part, which section 5
/// recommends for mapped ones: that is this project's own.
#[derive(Clone, Copy, Debug, PartialEq, Eq)]
pub struct DisplayAddr {
    pub family: AddressFamily,
    pub addr: Addr,
}

impl fmt::Display for DisplayAddr {
    ghost output = { λ d. Some (addr_text d.family d.addr) };

    #[tactic(auto, unfolding(std::specs::Net::Addr::IsIpv4OfBits, std::specs::Net::Addr::IsIpv6OfBits))]
    fn fmt<W: fmt::Write>(&self, f: &mut fmt::Formatter<W>) -> fmt::Result {
        match self.family {
            AddressFamily::Ipv4 => {
                let addr = self.addr.to_v4();
                write!(f, "{addr}")
            }
            AddressFamily::Ipv6 => {
                let groups = self.addr.to_v6().hex_groups();
                write!(f, "{groups}")
            }
        }
    }
}

/// A prefix of a family, to be printed: its first address, `/` and its length.
#[derive(Clone, Copy, Debug, PartialEq, Eq)]
pub struct DisplayPrefix {
    pub family: AddressFamily,
    pub prefix: Prefix,
}

impl fmt::Display for DisplayPrefix {
    ghost output = { λ d. Some (prefix_text d.family d.prefix) };

    fn fmt<W: fmt::Write>(&self, f: &mut fmt::Formatter<W>) -> fmt::Result {
        let addr = self.prefix.addr().display(self.family);
        let len = self.prefix.addr_len();
        write!(f, "{addr}/{len}")
    }
}

/// A block of a family, to be printed: a prefix, or the first address, `-` and the last address.
#[derive(Clone, Copy, Debug, PartialEq, Eq)]
pub struct DisplayBlock {
    pub family: AddressFamily,
    pub block: IpBlock,
}

impl fmt::Display for DisplayBlock {
    ghost output = { λ d. Some (block_text d.family d.block) };

    fn fmt<W: fmt::Write>(&self, f: &mut fmt::Formatter<W>) -> fmt::Result {
        match self.block {
            IpBlock::Prefix(prefix) => {
                let prefix = prefix.display(self.family);
                write!(f, "{prefix}")
            }
            IpBlock::Range(min, max) => {
                let min = min.display(self.family);
                let max = max.display(self.family);
                write!(f, "{min}-{max}")
            }
        }
    }
}

impl Addr {
    /// The address as one of this family, to be printed.
    pub fn display(self, family: AddressFamily) -> DisplayAddr
        ensures { result ≡ record { family = family; addr = self } }
    {
        DisplayAddr { family, addr: self }
    }
}

impl Prefix {
    /// The prefix as one of this family, to be printed.
    pub fn display(self, family: AddressFamily) -> DisplayPrefix
        ensures { result ≡ record { family = family; prefix = self } }
    {
        DisplayPrefix {
            family,
            prefix: self,
        }
    }

    /// Writes an IPv4 prefix, as `192.0.2.0/24`.
    pub fn fmt_v4<W: fmt::Write>(&self, f: &mut fmt::Formatter<W>) -> fmt::Result
        ensures { DisplaysOnOk W.write_str_gives f.old result
            (Some (prefix_text Ipv4 self.now)) f.new }
    {
        let prefix = self.display(AddressFamily::Ipv4);
        write!(f, "{prefix}")
    }

    /// Writes an IPv6 prefix, as `2001:db8::/32` (RFC 5952, section 4).
    pub fn fmt_v6<W: fmt::Write>(&self, f: &mut fmt::Formatter<W>) -> fmt::Result
        ensures { DisplaysOnOk W.write_str_gives f.old result
            (Some (prefix_text Ipv6 self.now)) f.new }
    {
        let prefix = self.display(AddressFamily::Ipv6);
        write!(f, "{prefix}")
    }
}

impl IpBlock {
    /// The block as one of this family, to be printed.
    pub fn display(self, family: AddressFamily) -> DisplayBlock
        ensures { result ≡ record { family = family; block = self } }
    {
        DisplayBlock {
            family,
            block: self,
        }
    }
}

/// A prefix with, perhaps, the length up to which longer ones are authorized too (RFC 9582,
/// section 4.3), both in bits.
#[derive(Clone, Copy, Debug, PartialEq, Eq, Hash)]
pub struct MaxLenPrefix {
    pub family: AddressFamily,
    pub prefix: Prefix,
    pub max_len: Option<u8>,
}

impl fmt::Display for MaxLenPrefix {
    ghost output = { λ p. Some (max_len_text p) };

    fn fmt<W: fmt::Write>(&self, f: &mut fmt::Formatter<W>) -> fmt::Result {
        let prefix = self.prefix.display(self.family);
        match self.max_len {
            None => write!(f, "{prefix}"),
            Some(max_len) => write!(f, "{prefix}-{max_len}"),
        }
    }
}
