//! Which numbers a content names.

ghost use Rattle.std.specs.Prelude.{◌≡◌};
ghost use Rattle.rpki_der.specs.Read.Reads.{Reads, Stays};
ghost use Rattle.rpki_lists.specs.Entries.{or_empty};
ghost use Rattle.rpki_lists.specs.Named.{addresses_at, names_some, sets_of};

pub mod encoder;

use rpki_der::{Constructed, DecodeError, Tag};
use rpki_resources::{AsBlocks, Blocks, ByFamily, IpBlocks, Number};
use std::alloc::Global;

/// What is named: AS numbers, and addresses of each family.
#[derive(Drop)]
pub struct Named {
    /// The AS numbers.
    pub asns: Option<AsBlocks>,
    /// The addresses.
    pub addresses: ByFamily<IpBlocks>,
}

/// Three sets: AS numbers, and the addresses of IPv4 and of IPv6.
pub type Sets = (AsBlocks, (IpBlocks, IpBlocks));

/// Reads the addresses, which stand under [1], if they are there (RFC 9323, section 4.2.2;
/// draft-michaelson-rpki-rta, section 4). Refuses as `ByFamily::take_from` does.
pub fn take_addresses(
    cons: &mut Constructed<'_>,
    alloc: Global,
) -> Result<ByFamily<IpBlocks>, DecodeError>
    ensures reads { Reads (λ values. values) addresses_at cons.old result cons.new }
    ensures stays { Stays result cons.new }
{
    let values = cons.take_opt_constructed_if(Tag::CTX_1, |cons| {
        ByFamily::<IpBlocks>::take_from(alloc, cons)
    })?;
    match values {
        Some(values) => Ok(values),
        None => Ok(ByFamily { v4: None, v6: None }),
    }
}

/// Whether something is named.
pub fn names_some(named: &Named) -> bool
    ensures { result ≡ names_some named.now }
{
    named.asns.is_some() || named.addresses.v4.is_some() || named.addresses.v6.is_some()
}

// The set, none of which is the empty one.
fn or_empty<T: Number>(alloc: Global, set: Option<Blocks<T>>) -> Blocks<T>
    ensures { result ≡ or_empty set }
{
    match set {
        Some(set) => set,
        None => Blocks::new(alloc),
    }
}

/// The sets that are named, and the empty set for each that is not.
pub fn sets_of(alloc: Global, named: Named) -> Sets
    ensures { result ≡ sets_of named }
{
    let Named { asns, addresses } = named;
    let ByFamily { v4, v6 } = addresses;
    (
        or_empty(alloc, asns),
        (or_empty(alloc, v4), or_empty(alloc, v6)),
    )
}
