//! The resources of a path in one family.

ghost use Rattle.std.specs.Prelude.{◌≡◌, ◌↔◌, IsTrue, IfOk};
ghost use Rattle.rpki_resources.specs.declared.resources.Claim.{Claim};
ghost use Rattle.rpki_paths.specs.Sets.{CoversNearest, IsCut, IsWithClaim, IsWithSet};

use rpki_faults::Overclaim;
use rpki_resources::{Blocks, BlocksError, Number, Resources};
use std::alloc::{AllocError, Global};

/// What is kept of the explicit sets of a path in one family.
#[derive(Debug, Drop)]
pub struct FamilyResources<B> {
    /// The numbers that all of them have.
    pub met: B,
    /// The one that is nearest to the head.
    pub nearest_explicit: B,
}

impl<T: Number> Clone for FamilyResources<Blocks<T>> {
    ghost is_clone = { λ x y. y ≡ x };

    fn clone(&self) -> Result<Self, AllocError> {
        Ok(FamilyResources {
            met: self.met.clone()?,
            nearest_explicit: self.nearest_explicit.clone()?,
        })
    }
}

// What is left of a set under one more explicit set.
fn cut<T: Number>(
    overclaim: Overclaim,
    met: &Blocks<T>,
    set: &Blocks<T>,
) -> Result<Blocks<T>, AllocError>
    ensures { IfOk result (IsCut T.number overclaim met.now set.now) }
{
    match overclaim {
        Overclaim::Trim => met.intersection(set),
        Overclaim::Refuse => met.clone(),
    }
}

// The resources with one more explicit set above a head of this mode: Trim cuts what all sets have
// to it, and Refuse leaves that as it is. An error is want of memory.
fn with_set<T: Number>(
    overclaim: Overclaim,
    resources: &Option<FamilyResources<Blocks<T>>>,
    set: &Blocks<T>,
) -> Result<Option<FamilyResources<Blocks<T>>>, AllocError>
    ensures { IfOk result (IsWithSet T.number overclaim resources.now set.now) }
{
    let nearest_explicit = set.clone()?;
    let met = match resources {
        None => set.clone()?,
        Some(resources) => cut(overclaim, &resources.met, set)?,
    };
    Ok(Some(FamilyResources {
        met,
        nearest_explicit,
    }))
}

/// The resources with the claim of an issuer above a head of this mode. One that is explicit is one
/// more explicit set: Trim cuts what all sets have to it, and Refuse leaves that as it is. An
/// inherited one changes nothing (RFC 3779, sections 2.2.3.5 and 3.2.3.3). An error is want of
/// memory.
pub fn with_issuer<T: Number>(
    alloc: Global,
    overclaim: Overclaim,
    resources: Option<FamilyResources<Blocks<T>>>,
    claim: &Resources<T>,
) -> Result<Option<FamilyResources<Blocks<T>>>, AllocError>
    ensures { IfOk result (IsWithClaim T.number overclaim resources claim.now) }
{
    match claim.to_blocks(alloc) {
        Err(BlocksError::Inherit) => Ok(resources),
        Err(BlocksError::Memory) => Err(AllocError),
        Ok(set) => with_set(overclaim, &resources, &set),
    }
}

/// The resources with the set of a supplied CA above a head of this mode, as one more explicit set:
/// Trim cuts what all sets have to it, and Refuse leaves that as it is. An error is want of memory.
pub fn with_supplied_ca<T: Number>(
    overclaim: Overclaim,
    resources: &Option<FamilyResources<Blocks<T>>>,
    set: &Blocks<T>,
) -> Result<Option<FamilyResources<Blocks<T>>>, AllocError>
    ensures { IfOk result (IsWithSet T.number overclaim resources.now set.now) }
{
    with_set(overclaim, resources, set)
}

/// Whether a claim covers the nearest explicit set, where it has to (RFC 6487, section 7.2; under
/// RFC 8360, section 4.2, it need not).
pub fn covers_nearest<T: Number>(
    overclaim: Overclaim,
    resources: &Option<FamilyResources<Blocks<T>>>,
    claim: &Resources<T>,
) -> bool
    ensures { IsTrue result ↔ CoversNearest T.number overclaim resources.now claim.now }
{
    match overclaim {
        Overclaim::Trim => true,
        Overclaim::Refuse => match resources {
            None => true,
            Some(resources) => resources.nearest_explicit.verify_covered(claim).is_ok(),
        },
    }
}

/// Whether a set covers the nearest explicit set, where it has to.
pub fn set_covers_nearest<T: Number>(
    overclaim: Overclaim,
    resources: &Option<FamilyResources<Blocks<T>>>,
    set: &Blocks<T>,
) -> bool
    ensures { IsTrue result ↔
        CoversNearest T.number overclaim resources.now (Claim.Explicit set.now) }
{
    match overclaim {
        Overclaim::Trim => true,
        Overclaim::Refuse => match resources {
            None => true,
            Some(resources) => set.contains(&resources.nearest_explicit),
        },
    }
}
