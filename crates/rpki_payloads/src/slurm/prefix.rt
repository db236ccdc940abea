//! Prefixes of local exceptions.

ghost use Rattle.std.specs.Prelude.{◌≡◌, IfSome};
ghost use Rattle.std.specs.Net.Grammar.{IsIpText, IsNumber};
ghost use Rattle.rpki_payloads.specs.Slurm.{front, covers, meets};
ghost use Rattle.rpki_payloads.specs.Slurm.Said.{IsPrefixText, bits_in, family_in};
ghost use Rattle.rpki_payloads.specs.Slurm.Valid.{most_bits};

use rpki_relying_party::Origin;
use serde::Deserialize;
use std::net::IpAddr;

/// A prefix: its family as the number in the registry of address families, its first address in 128
/// bits, and its length.
#[derive(Clone, Copy, Debug, PartialEq, Eq, Deserialize)]
#[serde(try_from = "String")]
pub struct SlurmPrefix {
    pub family: u8,
    pub addr: u128,
    pub len: u8,
}

/// How many bits an address of this family has.
pub(crate) fn most_bits(family: u8) -> u8
    ensures { result ≡ most_bits family }
{
    if family == 1 { 32 } else { 128 }
}

// The first bits of an address, as a number.
#[tactic(auto, using(crate::proofs::Apart::front_none))]
fn front(addr: u128, len: u8) -> u128
    ensures { result ≡ front addr len }
{
    let host = 128u8.saturating_sub(len);
    if host == 128 { 0 } else { addr >> host }
}

// The family and the bits of an address.
fn bits_of(addr: IpAddr) -> (u8, u128)
    ensures family { result.0 ≡ family_in addr }
    ensures bits { result.1 ≡ bits_in addr }
{
    match addr {
        IpAddr::V4(v4) => (1, u128::from(v4.to_bits()) << 96),
        IpAddr::V6(v6) => (2, v6.to_bits()),
    }
}

// The address that a text writes.
fn ip_of(text: &str) -> Option<IpAddr>
    ensures { IfSome result (IsIpText text.now) }
{
    text.parse().ok()
}

// The length that decimal digits write.
fn len_of(digits: &str) -> Option<u8>
    ensures { IfSome result (IsNumber 10 digits.now) }
{
    if digits.starts_with('+') {
        None
    } else {
        digits.parse().ok()
    }
}

impl SlurmPrefix {
    /// The prefix that a text writes, as `192.0.2.0/24`, unless it is longer than an address or has
    /// a bit after its length.
    #[tactic(auto, using(crate::proofs::Limited::aligned))]
    pub fn of_text(text: &str) -> Option<SlurmPrefix>
        ensures { IfSome result (IsPrefixText text.now) }
    {
        let (addr, digits) = text.split_once('/')?;
        let len = len_of(digits)?;
        let (family, addr) = bits_of(ip_of(addr)?);
        let host = 128u8.saturating_sub(len);
        if len <= most_bits(family) && addr.trailing_zeros() >= u32::from(host) {
            Some(SlurmPrefix { family, addr, len })
        } else {
            None
        }
    }

    /// Whether the prefix of an origin is this one, or within it.
    pub fn covers(&self, origin: &Origin) -> bool
        ensures { result ≡ covers self.now origin.now }
    {
        self.family == origin.family
            && self.len <= origin.len
            && front(self.addr, self.len) == front(origin.addr, self.len)
    }

    /// Whether an address is in both prefixes: whether one of them is within the other.
    pub fn meets(&self, other: &SlurmPrefix) -> bool
        ensures { result ≡ meets self.now other.now }
    {
        let len = self.len.min(other.len);
        self.family == other.family && front(self.addr, len) == front(other.addr, len)
    }
}
