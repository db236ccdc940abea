//! What valid objects say.

ghost use Rattle.std.specs.Prelude.{◌≡◌, OnOk, None, option_map};
ghost use Rattle.std.specs.BTreeMap.{IsOrdered};
ghost use Rattle.rpki_relying_party.specs.Payload.{family_number, origin_key, ends_before};
ghost use Rattle.rpki_relying_party.specs.Payload.{held_in, KeepsLonger, Keeps};
ghost use Rattle.rpki_relying_party.specs.declared.payload.Payload.{Payload};

use crate::payloads::Payloads;
use rpki_basics::{Rsync, Time};
use rpki_resources::{AddressFamily, Asn, MaxLenPrefix};
use rpki_routes::RouteOrigin;
use std::alloc::{AllocError, Global};
use std::collections::BTreeMap;

/// An autonomous system and a prefix that it may originate: the family as its number in the
/// registry of address families, the first address in 128 bits, the length and the maximum length,
/// which is the length where none is set (RFC 9582, section 4.3.2.2). The order is that of routers:
/// by prefix, then by AS.
#[derive(Clone, Copy, Debug, PartialEq, Eq, PartialOrd, Ord)]
pub struct Origin {
    pub family: u8,
    pub addr: u128,
    pub len: u8,
    pub max_len: u8,
    pub asn: u32,
}

/// A provider of a customer (draft-ietf-sidrops-aspa-profile-15, section 3).
#[derive(Clone, Copy, Debug, PartialEq, Eq, PartialOrd, Ord)]
pub struct Provider {
    pub customer: u32,
    pub provider: u32,
}

/// What a valid object says.
#[derive(Clone, Copy, Debug, PartialEq, Eq)]
pub enum Payload {
    Origin(Origin),
    Provider(Provider),
}

/// Until when a payload holds, and the URI of the object that says it.
#[derive(Debug, Drop)]
pub struct Held {
    pub until: Time,
    pub object: Rsync,
}

// The number of a family in the registry of address families (RFC 3779, section 2.2.3.3).
fn family_number(family: AddressFamily) -> u8
    ensures { result ≡ family_number family }
{
    match family {
        AddressFamily::Ipv4 => 1,
        AddressFamily::Ipv6 => 2,
    }
}

/// The origin of a ROA.
pub(crate) fn origin_of(origin: &RouteOrigin) -> Origin
    ensures { result ≡ origin_key origin.now }
{
    let MaxLenPrefix {
        family,
        prefix,
        max_len,
    } = origin.prefix;
    Origin {
        family: family_number(family),
        addr: prefix.addr().to_bits(),
        len: prefix.addr_len(),
        max_len: max_len.unwrap_or(prefix.addr_len()),
        asn: origin.asn.into_u32(),
    }
}

/// A provider of this customer.
pub(crate) fn provider_of(customer: Asn, provider: Asn) -> Provider
    ensures { result ≡ record { customer = customer; provider = provider } }
{
    Provider {
        customer: customer.into_u32(),
        provider: provider.into_u32(),
    }
}

// Whether what is held, if anything is, ends before this moment.
fn ends_before(held: Option<&Held>, until: Time) -> bool
    ensures { result ≡ ends_before (option_map (λ h. h.now) held.entry) until }
{
    match held {
        None => true,
        Some(held) => held.until.stamp() < until.stamp(),
    }
}

// Keeps what is held at a key, unless it is held as long already.
fn keep_longer<K: Ord + Drop>(
    map: &mut BTreeMap<K, Held>,
    key: K,
    held: Held,
) -> Result<(), AllocError>
    ensures keeps { OnOk result (KeepsLonger K.cmp key held map.old map.new) }
    ensures order { IsOrdered K.cmp map.old → IsOrdered K.cmp map.new }
{
    if !ends_before(map.get(&key), held.until) {
        drop(held);
        return Ok(());
    }
    map.insert(key, held)?;
    Ok(())
}

impl Payloads {
    /// No payloads.
    pub fn new(alloc: Global) -> Payloads
        ensures { (x : Payload) → held_in result x ≡ None }
    {
        Payloads {
            origins: BTreeMap::new(alloc),
            providers: BTreeMap::new(alloc),
        }
    }

    /// Keeps a payload, unless it is held as long already.
    pub fn keep(&mut self, payload: Payload, held: Held) -> Result<(), AllocError>
        ensures { OnOk result (Keeps payload held self.old self.new) }
    {
        match payload {
            Payload::Origin(origin) => keep_longer(&mut self.origins, origin, held),
            Payload::Provider(provider) => keep_longer(&mut self.providers, provider, held),
        }
    }
}
