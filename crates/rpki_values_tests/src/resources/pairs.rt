//! Rows of sets that are joined, intersected, covered and claimed.

use super::sets::{Numbers, as_set, ip_set};
use crate::reads::All;
use rpki_resources::{
    Addr, AsBlock, AsBlocks, AsBlocksBuilder, AsResources, AsResourcesBuilder, Asn, Blocks,
    BlocksBuilder, BlocksError, ByFamily, Claim, IpBlock, IpBlocks, IpBlocksBuilder, IpResources,
    IpResourcesBuilder, Number, Overclaimed, Prefix, Resources, SmallAsnSet,
};
use std::alloc::{AllocError, Global};

const MAX: u32 = u32::MAX;

/// Two sets, the numbers in either, and those in both.
static PAIRS: [(Numbers, Numbers, Numbers, Numbers); 10] = [
    (&[(1, 5)], &[(4, 9)], &[(1, 9)], &[(4, 5)]),
    (&[(1, 9)], &[(1, 5)], &[(1, 9)], &[(1, 5)]),
    (&[(1, 5)], &[(6, 9)], &[(1, 9)], &[]),
    (&[(1, 5)], &[(1, 2), (9, 9)], &[(1, 5), (9, 9)], &[(1, 2)]),
    (
        &[(1, 9)],
        &[(0, 2), (8, MAX)],
        &[(0, MAX)],
        &[(1, 2), (8, 9)],
    ),
    (&[], &[(1, 5)], &[(1, 5)], &[]),
    (&[(1, 5)], &[], &[(1, 5)], &[]),
    (
        &[(0, MAX)],
        &[(0, 0), (MAX, MAX)],
        &[(0, MAX)],
        &[(0, 0), (MAX, MAX)],
    ),
    (
        &[(1, 5), (9, 9)],
        &[(1, 2), (9, 12)],
        &[(1, 5), (9, 12)],
        &[(1, 2), (9, 9)],
    ),
    (&[(1, 5), (7, 7)], &[(6, 6)], &[(1, 7)], &[]),
];

/// Whether the set that was made is this one.
fn is_equal<T: Number>(
    made: Result<Blocks<T>, AllocError>,
    set: &Blocks<T>,
) -> Result<bool, AllocError> {
    Ok(made? == *set)
}

/// What is left of the copy of a set in another one.
fn common<T: Number>(first: &Blocks<T>, second: &Blocks<T>) -> Result<Blocks<T>, AllocError> {
    let mut common = first.clone()?;
    match common.intersection_assign(second) {
        Ok(()) => Ok(common),
        Err(error) => {
            drop(common);
            Err(error)
        }
    }
}

/// Whether what two sets make is this, and one covers the other where both have all of it.
fn is_pair<T: Number>(
    first: &Blocks<T>,
    second: &Blocks<T>,
    all: &Blocks<T>,
    both: &Blocks<T>,
) -> Result<bool, AllocError> {
    All::new()
        .and(Ok(first.contains(second) == (*both == *second)))
        .and(is_equal(first.union(second), all))
        .and(is_equal(first.intersection(second), both))
        .and(is_equal(common(first, second), both))
        .end()
}

/// Whether each row is right.
fn are_pairs(alloc: Global) -> Result<bool, AllocError> {
    for (first, second, all, both) in &PAIRS {
        if !is_pair(
            &as_set(alloc, first)?,
            &as_set(alloc, second)?,
            &as_set(alloc, all)?,
            &as_set(alloc, both)?,
        )? {
            return Ok(false);
        }
    }
    Ok(true)
}

/// Whether a claim gives this set. Want of memory is handed on.
pub fn gives<T: Number>(
    alloc: Global,
    claim: &Resources<T>,
    set: &Blocks<T>,
) -> Result<bool, AllocError> {
    match claim.to_blocks(alloc) {
        Ok(found) => Ok(found == *set),
        Err(BlocksError::Inherit) => Ok(false),
        Err(BlocksError::Memory) => Err(AllocError),
    }
}

/// Whether the claim that was made, if it was, gives this set.
fn gives_set<T: Number>(
    alloc: Global,
    claim: Result<Resources<T>, AllocError>,
    set: &Blocks<T>,
) -> Result<bool, AllocError> {
    let claim = claim?;
    let is_given = gives(alloc, &claim, set);
    drop(claim);
    is_given
}

/// Whether the copy of the claim of a set gives and covers it.
fn is_claim<T: Number>(alloc: Global, set: &Blocks<T>) -> Result<bool, AllocError> {
    let claim = Resources::explicit(set.clone()?);
    let copy: Result<_, _> = claim.clone();
    drop(claim);
    let copy = copy?;
    let is_covered = set.verify_covered(&copy) == Ok(());
    let is_given = gives(alloc, &copy, set);
    drop(copy);
    Ok(is_covered && is_given?)
}

/// Whether claims that are missing and inherited are told apart, and cover a set as they should.
fn are_told<T: Number>(alloc: Global, set: &Blocks<T>) -> bool {
    let missing: Resources<T> = Resources::missing();
    let inherited: Resources<T> = Resources::inherit();
    missing.is_missing()
        && inherited.is_inherited()
        && matches!(inherited.to_blocks(alloc), Err(BlocksError::Inherit))
        && set.verify_covered(&inherited) == Ok(())
        && set.verify_covered(&missing) == Err(Overclaimed)
}

/// Adds AS4 and a set to what was inherited.
fn add(builder: &mut AsResourcesBuilder, set: &AsBlocks) -> Result<(), AllocError> {
    builder.inherit();
    builder.blocks(|blocks| blocks.push(AsBlock::Id(Asn::from_u32(4))))?;
    builder.push_set(set)
}

/// What the copy of the builder claims.
fn built(alloc: Global, set: &AsBlocks) -> Result<AsResources, AllocError> {
    let mut builder = AsResourcesBuilder::new(alloc);
    let added = add(&mut builder, set);
    let copy: Result<_, _> = builder.clone();
    drop(builder);
    match added {
        Ok(()) => copy?.finalize(),
        Err(error) => Err(error),
    }
}

/// Adds the addresses 8 and 9 and a set to what was inherited.
fn add_addresses(builder: &mut IpResourcesBuilder, set: &IpBlocks) -> Result<(), AllocError> {
    let eight = IpBlock::Prefix(Prefix::new(Addr::from_bits(8), 127));
    builder.inherit();
    builder.blocks(|blocks| blocks.push(eight))?;
    builder.push_set(set)
}

/// The same of addresses.
fn addresses_built(alloc: Global, set: &IpBlocks) -> Result<IpResources, AllocError> {
    let mut builder = IpResourcesBuilder::new(alloc);
    let added = add_addresses(&mut builder, set);
    let copy: Result<_, _> = builder.clone();
    drop(builder);
    match added {
        Ok(()) => copy?.finalize(),
        Err(error) => Err(error),
    }
}

/// Whether the copy of a builder to which a set was added builds it.
fn is_added<T: Number>(alloc: Global, set: &Blocks<T>) -> Result<bool, AllocError> {
    let mut builder = BlocksBuilder::new(alloc);
    builder.push_set(set)?;
    let copy: Result<_, _> = builder.clone();
    drop(builder);
    Ok(copy?.finalize()? == *set)
}

/// Whether a builder to which the blocks of a set were added at once builds it.
#[tactic(auto, using(crate::proofs::Given::given_blocks))]
fn is_extended(alloc: Global, set: &AsBlocks) -> Result<bool, AllocError> {
    let mut builder = AsBlocksBuilder::new(alloc);
    builder.extend(set.iter())?;
    Ok(builder.finalize()? == *set)
}

/// The same of addresses.
#[tactic(auto, using(crate::proofs::Given::given_blocks))]
fn are_addresses_extended(alloc: Global, set: &IpBlocks) -> Result<bool, AllocError> {
    let mut builder = IpBlocksBuilder::new(alloc);
    builder.extend(set.iter())?;
    Ok(builder.finalize()? == *set)
}

/// Whether short lists, and what goes over a set, are copied.
fn are_copied(alloc: Global, set: &AsBlocks) -> Result<bool, AllocError> {
    let two = [Asn::from_u32(1), Asn::from_u32(7)];
    let few = SmallAsnSet::from_ascending(Vec::from_slice(alloc, &two)?);
    let copy: Result<_, _> = few.clone();
    drop(few);
    Ok(copy?.as_slice() == two.as_slice() && set.iter().clone()?.count() == 2)
}

/// Whether the copy of what goes over a set gives one block.
fn is_alone(set: &IpBlocks) -> Result<bool, AllocError> {
    Ok(set.iter().clone()?.count() == 1)
}

/// Whether claims, and what stands for the families, are copied.
fn are_families_copied(alloc: Global) -> Result<bool, AllocError> {
    let set = ip_set(alloc, &[(8, 8)])?;
    let families = ByFamily {
        v4: Some(Claim::Explicit(set)),
        v6: None,
    };
    let copy: Result<_, _> = families.clone();
    drop(families);
    let ByFamily { v4, .. } = copy?;
    match v4 {
        Some(Claim::Explicit(copy)) => is_alone(&copy),
        _ => Ok(false),
    }
}

/// Whether the calls on sets of numbers are right.
fn are_numbers(alloc: Global) -> Result<bool, AllocError> {
    let set = as_set(alloc, &[(4, 4), (9, 9)])?;
    let all = All::new()
        .and(is_claim(alloc, &set))
        .and(Ok(are_told(alloc, &set)))
        .and(is_added(alloc, &set))
        .and(is_extended(alloc, &set))
        .and(are_copied(alloc, &set))
        .and(gives_set(alloc, built(alloc, &set), &set));
    drop(set);
    all.end()
}

/// Whether the calls on sets of addresses are right.
fn are_addresses(alloc: Global) -> Result<bool, AllocError> {
    let set = ip_set(alloc, &[(1, 5), (8, 9)])?;
    let all = All::new()
        .and(is_claim(alloc, &set))
        .and(Ok(are_told(alloc, &set)))
        .and(is_added(alloc, &set))
        .and(are_addresses_extended(alloc, &set))
        .and(is_pair(&set, &set, &set, &set))
        .and(gives_set(alloc, addresses_built(alloc, &set), &set));
    drop(set);
    all.end()
}

#[test]
fn sets(rt: HostRuntime) -> Result<(), AllocError> {
    let alloc = rt.alloc();
    let all = All::new()
        .and(are_pairs(alloc))
        .and(are_numbers(alloc))
        .and(are_addresses(alloc))
        .and(are_families_copied(alloc));
    assert!(rt; all.end()?);
    Ok(())
}
