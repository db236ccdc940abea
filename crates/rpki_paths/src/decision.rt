//! Whether the sets that an attestation names are those of its paths.

ghost use Rattle.std.specs.Prelude.{◌≡◌, ◌↔◌, ℕ, false, IsTrue, IfOk, OnOk, ◌||◌, Some};
ghost use Rattle.rpki_resources.specs.Blocks.{holds};
ghost use Rattle.rpki_faults.specs.declared.family.Family.{Family};
ghost use Rattle.rpki_paths.specs.declared.decision.FinalFault.{FinalFault};
ghost use Rattle.rpki_paths.specs.Final.{Decides, all_anchored, attested_sets, family_has};
ghost use Rattle.rpki_paths.specs.Final.{some_has, union_has};
ghost use Rattle.rpki_paths.specs.Texts.{final_text};

use crate::family_resources::FamilyResources;
use crate::walker::Path;
use rpki_resources::{Addr, AsBlocks, Asn, Blocks, BlocksBuilder, IpBlocks, Number};
use std::alloc::{AllocError, Global};
use std::error::Error;
use std::fmt;

/// The sets that an attestation names.
#[derive(Clone, Copy)]
pub struct Attested<'a> {
    pub asn: &'a AsBlocks,
    pub v4: &'a IpBlocks,
    pub v6: &'a IpBlocks,
}

/// Why attested sets are not granted.
#[derive(Clone, Copy, Debug, PartialEq, Eq)]
pub enum FinalFault {
    /// A path is not anchored.
    NotAnchored,
    /// The AS numbers are not those of the paths.
    AsNumbers,
    /// The addresses are not those of the paths.
    Addresses,
    /// There is no memory for the numbers of the paths.
    Memory,
}

impl From<AllocError> for FinalFault {
    ghost from_gives = { λ _ fault. fault ≡ FinalFault.Memory };

    fn from(_error: AllocError) -> FinalFault {
        FinalFault::Memory
    }
}

impl fmt::Display for FinalFault {
    ghost output = { λ fault. Some (final_text fault) };

    fn fmt<W: fmt::Write>(&self, f: &mut fmt::Formatter<W>) -> fmt::Result {
        match self {
            FinalFault::NotAnchored => f.write_str("path not anchored"),
            FinalFault::AsNumbers => f.write_str("AS numbers not those of the paths"),
            FinalFault::Addresses => f.write_str("addresses not those of the paths"),
            FinalFault::Memory => f.write_str("out of memory"),
        }
    }
}

impl Error for FinalFault {}

/// The numbers of several paths in a family, and whether all of them are known: a path on which all
/// certificates inherit has numbers that nothing names.
#[derive(Drop)]
struct Union<T: Number> {
    numbers: BlocksBuilder<T>,
    is_known: bool,
}

impl<T: Number> Union<T> {
    // The numbers of no path.
    fn none(alloc: Global) -> Self
        ensures { (n : ℕ) → union_has T.number result n ≡ false }
    {
        Union {
            numbers: BlocksBuilder::new(alloc),
            is_known: true,
        }
    }

    // Adds the numbers of a path.
    fn add(&mut self, resources: &Option<FamilyResources<Blocks<T>>>) -> Result<(), AllocError>
        ensures { OnOk result ((n : ℕ) → union_has T.number self.new n
            ≡ (union_has T.number self.old n || family_has T.number resources.now n)) }
    {
        match resources {
            Some(resources) => self.numbers.push_set(&resources.met),
            None => {
                self.is_known = false;
                Ok(())
            }
        }
    }

    // Whether they are just the numbers of a set.
    fn equals(self, set: &Blocks<T>) -> Result<bool, AllocError>
        ensures { IfOk result (λ same. IsTrue same
            ↔ ((n : ℕ) → holds T.number set.now n ≡ union_has T.number self n)) }
    {
        let Union { numbers, is_known } = self;
        let numbers = numbers.finalize()?;
        if !is_known {
            return Ok(false);
        }
        Ok(numbers == *set)
    }
}

// Whether all of the paths are anchored.
fn are_anchored<C>(paths: &[Path<C>]) -> bool
    ensures { result ≡ all_anchored paths.now }
{
    paths.iter().all(|path| path.anchored)
}

// The AS numbers that are kept of the paths.
fn as_numbers<C>(alloc: Global, paths: &[Path<C>]) -> Result<Union<Asn>, AllocError>
    ensures { IfOk result (λ u. (n : ℕ) →
        union_has (λ k. k) u n ≡ some_has paths.now Family.As n) }
{
    let mut kept = Union::none(alloc);
    for i in 0..paths.len() {
        let path = &paths[i];
        kept.add(&path.sets.asn)?;
    }
    Ok(kept)
}

// The IPv4 addresses that are kept of the paths.
fn v4_addresses<C>(alloc: Global, paths: &[Path<C>]) -> Result<Union<Addr>, AllocError>
    ensures { IfOk result (λ u. (n : ℕ) →
        union_has (λ k. k) u n ≡ some_has paths.now Family.V4 n) }
{
    let mut kept = Union::none(alloc);
    for i in 0..paths.len() {
        let path = &paths[i];
        kept.add(&path.sets.v4)?;
    }
    Ok(kept)
}

// The IPv6 addresses that are kept of the paths.
fn v6_addresses<C>(alloc: Global, paths: &[Path<C>]) -> Result<Union<Addr>, AllocError>
    ensures { IfOk result (λ u. (n : ℕ) →
        union_has (λ k. k) u n ≡ some_has paths.now Family.V6 n) }
{
    let mut kept = Union::none(alloc);
    for i in 0..paths.len() {
        let path = &paths[i];
        kept.add(&path.sets.v6)?;
    }
    Ok(kept)
}

/// Tells whether each path is anchored, and each attested set has just the numbers that are kept of
/// some path. Refuses by the first that does not hold, in this order: `NotAnchored`, `AsNumbers`,
/// `Addresses`; or by `Memory`.
pub fn finalize<C>(alloc: Global, paths: &[Path<C>], attested: &Attested) -> Result<(), FinalFault>
    ensures { Decides paths.now (attested_sets attested.now) result }
{
    if !are_anchored(paths) {
        return Err(FinalFault::NotAnchored);
    }
    if !as_numbers(alloc, paths)?.equals(attested.asn)? {
        return Err(FinalFault::AsNumbers);
    }
    if !v4_addresses(alloc, paths)?.equals(attested.v4)? {
        return Err(FinalFault::Addresses);
    }
    if !v6_addresses(alloc, paths)?.equals(attested.v6)? {
        return Err(FinalFault::Addresses);
    }
    Ok(())
}
