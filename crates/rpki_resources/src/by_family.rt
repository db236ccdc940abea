//! What stands for each address family: a SEQUENCE OF SEQUENCE of a family and a value (RFC 3779,
//! sections 2.2.3.1 and 2.2.3.2).

ghost use Rattle.std.specs.Prelude.{◌≡◌};
ghost use Rattle.rpki_der.specs.Read.Reads.{Reads, Stays};
ghost use Rattle.rpki_der.specs.Form.Decodes.{DecodesNext};
ghost use Rattle.rpki_resources.specs.Claim.Form.{IpClaimForm};
ghost use Rattle.rpki_resources.specs.Claim.Read.{ip_claim_at};
ghost use Rattle.rpki_resources.specs.Families.Form.{FamiliesForm};
ghost use Rattle.rpki_resources.specs.Families.Read.{
  family_entry_fields_at,
  family_entry_at,
  values_at,
};
ghost use Rattle.rpki_resources.specs.Families.Read.{families_at, gathered, no_values};
ghost use Rattle.rpki_resources.specs.Families.Read.{with_value, ip_set_at};
ghost use Rattle.rpki_resources.specs.Ip.Form.{IpForm};

use crate::family::AddressFamily;
use crate::faults;
use crate::ip::IpBlocks;
use crate::list::{Listed, take_list};
use crate::resources::IpResources;
use rpki_der::{Constructed, DecodeError};
use std::alloc::Global;

/// What stands for IPv4 and for IPv6, where there is something.
#[derive(Clone, Debug, Drop)]
pub struct ByFamily<T> {
    /// What stands for IPv4.
    pub v4: Option<T>,
    /// What stands for IPv6.
    pub v6: Option<T>,
}

/// A family, and what stands for it.
#[derive(Drop)]
pub struct FamilyEntry<T> {
    pub family: AddressFamily,
    pub value: T,
}

/// A value that may stand beside a family.
pub trait OfFamily: Drop + Sized {
    ghost use Rattle.rpki_der.specs.Read.Parse.{Parser};
    ghost use Rattle.rpki_resources.specs.declared.family.AddressFamily.{AddressFamily};

    // How it is read.
    ghost parser: { AddressFamily → Parser Self };

    /// Reads one that stands beside the family. Refuses by `Malformed`, by a rule of its form, or
    /// by `Memory`.
    fn take_value(
        alloc: Global,
        cons: &mut Constructed<'_>,
        family: AddressFamily,
    ) -> Result<Self, DecodeError>
        ensures reads { Reads (λ x. x) (parser family) cons.old result cons.new }
        ensures stays { Stays result cons.new };
}

impl OfFamily for IpBlocks {
    ghost parser = { ip_set_at };

    fn take_value(
        alloc: Global,
        cons: &mut Constructed<'_>,
        family: AddressFamily,
    ) -> Result<IpBlocks, DecodeError> {
        IpBlocks::take_from(alloc, cons, family)
    }
}

impl OfFamily for IpResources {
    ghost parser = { ip_claim_at };

    fn take_value(
        alloc: Global,
        cons: &mut Constructed<'_>,
        family: AddressFamily,
    ) -> Result<IpResources, DecodeError> {
        IpResources::take_from(alloc, cons, family)
    }
}

impl<T: Drop> ByFamily<T> {
    // No value for either family.
    fn none() -> Self
        ensures { result ≡ no_values }
    {
        ByFamily { v4: None, v6: None }
    }

    // One more value, unless the family has one.
    fn with(self, family: AddressFamily, value: T) -> Option<ByFamily<T>>
        ensures { result ≡ with_value family value self }
    {
        let ByFamily { v4, v6 } = self;
        match family {
            AddressFamily::Ipv4 => match v4 {
                None => Some(ByFamily {
                    v4: Some(value),
                    v6,
                }),
                Some(_) => None,
            },
            AddressFamily::Ipv6 => match v6 {
                None => Some(ByFamily {
                    v4,
                    v6: Some(value),
                }),
                Some(_) => None,
            },
        }
    }
}

// The values of the entries, unless a family has more than one.
fn gather<T: Drop>(entries: Vec<FamilyEntry<T>>) -> Option<ByFamily<T>>
    ensures { result ≡ gathered no_values entries.items }
{
    let mut values = ByFamily::none();
    for entry in entries {
        let FamilyEntry { family, value } = entry;
        values = values.with(family, value)?;
    }
    Some(values)
}

// Reads a family and what stands beside it.
#[tactic(auto, unfolding(crate::specs::Families::Read::family_entry_fields_at))]
fn take_fields<T: OfFamily>(
    cons: &mut Constructed<'_>,
    alloc: Global,
) -> Result<FamilyEntry<T>, DecodeError>
    ensures { Reads (λ entry. entry) (family_entry_fields_at T.parser) cons.old result cons.new }
{
    let family = AddressFamily::take_from(alloc, cons)?;
    let value = T::take_value(alloc, cons, family)?;
    Ok(FamilyEntry { family, value })
}

// Reads an entry.
fn take_entry<T: OfFamily>(
    cons: &mut Constructed<'_>,
    alloc: Global,
) -> Result<FamilyEntry<T>, DecodeError>
    ensures { Reads (λ entry. entry) (family_entry_at T.parser) cons.old result cons.new }
{
    cons.take_sequence(|cons| take_fields(cons, alloc))
}

impl<T: OfFamily> Listed for FamilyEntry<T> {
    type Family = ();

    ghost parser = { λ _. family_entry_at T.parser };

    ghost known = { λ _. Unit {0} };

    fn take_one(
        cons: &mut Constructed<'_>,
        alloc: Global,
        _kind: (),
    ) -> Result<FamilyEntry<T>, DecodeError> {
        take_entry(cons, alloc)
    }
}

// Reads entries to the end, and gathers their values.
#[tactic(auto, unfolding(crate::specs::Families::Read::values_at))]
fn take_values<T: OfFamily>(
    cons: &mut Constructed<'_>,
    alloc: Global,
) -> Result<ByFamily<T>, DecodeError>
    ensures { Reads (λ values. values) (values_at T.parser) cons.old result cons.new }
{
    let entries = take_list(cons, alloc, ())?;
    match gather(entries) {
        Some(values) => Ok(values),
        None => Err(DecodeError::refusal(faults::FAMILY_TWICE)),
    }
}

/// Reads a SEQUENCE OF SEQUENCE of a family and a value of it (RFC 3779, sections 2.2.3.1 and
/// 2.2.3.2). The families may stand in either order, and each of them at most once.
///
/// Refuses by `FAMILY_TWICE` where one stands again, by what `AddressFamily::take_from` and
/// `OfFamily::take_value` refuse by, by `Malformed` for all else, or by `Memory`.
pub fn take_families<T: OfFamily>(
    alloc: Global,
    cons: &mut Constructed<'_>,
) -> Result<ByFamily<T>, DecodeError>
    ensures reads { Reads (λ values. values) (families_at T.parser) cons.old result cons.new }
    ensures stays { Stays result cons.new }
{
    cons.take_sequence(|cons| take_values(cons, alloc))
}

impl ByFamily<IpBlocks> {
    /// Reads a set of addresses for each family that is named, as `take_families` does (RFC 9323,
    /// section 4.2.2). There may be none. Refuses by `FAMILY_TWICE`, by `UNKNOWN_FAMILY`, by what
    /// `IpBlocks::take_from` refuses by, by `Malformed` for all else, or by `Memory`.
    pub fn take_from(
        alloc: Global,
        cons: &mut Constructed<'_>,
    ) -> Result<ByFamily<IpBlocks>, DecodeError>
        ensures reads { Reads (λ values. values) (families_at ip_set_at) cons.old result cons.new }
        ensures stays { Stays result cons.new }
        ensures decodes { DecodesNext (FamiliesForm IpForm) (λ values. values)
            cons.old result cons.new }
    {
        cons.holds_octets();
        take_families(alloc, cons)
    }
}

impl ByFamily<IpResources> {
    /// Reads a claim for each family that is named, as `take_families` does (RFC 3779, section
    /// 2.2.3; RFC 6487, section 4.8.10). There may be none. Refuses by `FAMILY_TWICE`, by
    /// `UNKNOWN_FAMILY`, by what `IpResources::take_from` refuses by, by `Malformed` for all else,
    /// or by `Memory`.
    pub fn take_from(
        alloc: Global,
        cons: &mut Constructed<'_>,
    ) -> Result<ByFamily<IpResources>, DecodeError>
        ensures reads { Reads (λ values. values) (families_at ip_claim_at)
            cons.old result cons.new }
        ensures stays { Stays result cons.new }
        ensures decodes { DecodesNext (FamiliesForm IpClaimForm) (λ values. values)
            cons.old result cons.new }
    {
        cons.holds_octets();
        take_families(alloc, cons)
    }
}
