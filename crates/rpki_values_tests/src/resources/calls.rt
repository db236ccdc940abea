//! Calls that read sets, prefixes, families and claims.

use crate::reads::{Reads, Shown, Want, shows};
use rpki_der::encode::{null, sequence};
use rpki_der::{Constructed, DecodeError};
use rpki_resources::{
    AddressFamily, AsBlocks, AsResources, Blocks, ByFamily, Claim, IpBlocks, IpResources, Number,
    Prefix, Resources, take_families,
};
use std::alloc::{AllocError, Global};

/// A call, and the family that it is made for.
#[derive(Clone, Copy)]
pub enum Call {
    Numbers,
    Addresses(AddressFamily),
    Prefix(AddressFamily),
    Family,
    NumbersClaim,
    AddressesClaim(AddressFamily),
    /// The value of the extension of AS numbers.
    Identifiers,
    /// The set that stands for this family, in sets by family.
    SetOf(AddressFamily),
    /// The same by the generic call.
    AnySetOf(AddressFamily),
    /// The claim that stands for this family, in claims by family.
    ClaimOf(AddressFamily),
}

impl Shown for AsBlocks {
    fn is_wanted(&self, alloc: Global, want: Want) -> Result<bool, AllocError> {
        want.is_written_of(alloc, &sequence(self.encode_ref()))
    }
}

/// The blocks of IPv4 are written as those of IPv6 that begin with the same bits.
impl Shown for IpBlocks {
    fn is_wanted(&self, alloc: Global, want: Want) -> Result<bool, AllocError> {
        want.is_written_of(alloc, &sequence(self.encode_ref(AddressFamily::Ipv6)))
    }
}

impl Shown for Prefix {
    fn is_wanted(&self, alloc: Global, want: Want) -> Result<bool, AllocError> {
        want.is_written_of(alloc, self)
    }
}

impl Shown for AddressFamily {
    fn is_wanted(&self, alloc: Global, want: Want) -> Result<bool, AllocError> {
        want.is_written_of(alloc, &self.encode_ref())
    }
}

/// NULL where it is inherited.
impl<T: Number> Shown for Resources<T>
where
    Blocks<T>: Shown,
{
    fn is_wanted(&self, alloc: Global, want: Want) -> Result<bool, AllocError> {
        match self.claim() {
            Claim::Explicit(set) => set.is_wanted(alloc, want),
            Claim::Inherit => want.is_written_of(alloc, &null()),
            Claim::Missing => Ok(want.is_absent()),
        }
    }
}

/// What stands for a family.
fn part<T: Drop>(
    answer: Result<ByFamily<T>, DecodeError>,
    family: AddressFamily,
) -> Result<Option<T>, DecodeError> {
    match (answer, family) {
        (Ok(parts), AddressFamily::Ipv4) => Ok(parts.v4),
        (Ok(parts), AddressFamily::Ipv6) => Ok(parts.v6),
        (Err(error), _) => Err(error),
    }
}

impl Reads for Call {
    fn is_read(
        self,
        cons: &mut Constructed<'_>,
        alloc: Global,
        want: Want,
    ) -> Result<bool, DecodeError> {
        match self {
            Call::Numbers => shows(alloc, AsBlocks::take_from(alloc, cons), want),
            Call::Addresses(family) => {
                shows(alloc, IpBlocks::take_from(alloc, cons, family), want)
            }
            Call::Prefix(family) => shows(alloc, Prefix::take_from(cons, family), want),
            Call::Family => shows(alloc, AddressFamily::take_from(alloc, cons), want),
            Call::NumbersClaim => shows(alloc, AsResources::take_from(alloc, cons), want),
            Call::AddressesClaim(family) => {
                shows(alloc, IpResources::take_from(alloc, cons, family), want)
            }
            Call::SetOf(family) => {
                shows(
                    alloc,
                    part(ByFamily::<IpBlocks>::take_from(alloc, cons), family),
                    want,
                )
            }
            Call::AnySetOf(family) => {
                shows(
                    alloc,
                    part(take_families::<IpBlocks>(alloc, cons), family),
                    want,
                )
            }
            Call::ClaimOf(family) => {
                shows(
                    alloc,
                    part(ByFamily::<IpResources>::take_from(alloc, cons), family),
                    want,
                )
            }
            Call::Identifiers => {
                shows(alloc, AsResources::take_identifiers_from(alloc, cons), want)
            }
        }
    }
}
