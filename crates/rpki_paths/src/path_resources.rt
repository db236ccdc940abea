//! The resources of a path in each family.

ghost use Rattle.std.specs.Prelude.{◌≡◌, None, IfOk, IfSome, IfNone};
ghost use Rattle.rpki_resources.specs.declared.resources.Claim.{Claim};
ghost use Rattle.rpki_faults.specs.declared.family.Family.{Family};
ghost use Rattle.rpki_paths.specs.Sets.{CoversNearest, IsWithClaim, IsWithSet};
ghost use Rattle.rpki_paths.specs.Walk.{resources_in, InEach, FailsFirst};

use crate::certificate::{Certificate, SuppliedCa};
use crate::family_resources::{
    FamilyResources, covers_nearest, set_covers_nearest, with_issuer, with_supplied_ca,
};
use rpki_faults::{Family, Overclaim};
use rpki_resources::{AsBlocks, IpBlocks};
use std::alloc::{AllocError, Global};

/// What is kept of the explicit sets of a path in each family, or nothing where all inherit.
#[derive(Debug, Drop)]
pub struct PathResources {
    pub asn: Option<FamilyResources<AsBlocks>>,
    pub v4: Option<FamilyResources<IpBlocks>>,
    pub v6: Option<FamilyResources<IpBlocks>>,
}

impl Clone for PathResources {
    ghost is_clone = { λ sets copy. copy ≡ sets };

    fn clone(&self) -> Result<Self, AllocError> {
        Ok(PathResources {
            asn: self.asn.clone()?,
            v4: self.v4.clone()?,
            v6: self.v6.clone()?,
        })
    }
}

impl PathResources {
    /// The resources of no certificate.
    pub fn none() -> PathResources
        ensures { InEach (λ f. resources_in result f ≡ None) }
    {
        PathResources {
            asn: None,
            v4: None,
            v6: None,
        }
    }

    /// The resources with the claims of an issuer above a head of this mode. An error is want of
    /// memory.
    pub fn with_issuer<C: Certificate>(
        self,
        alloc: Global,
        overclaim: Overclaim,
        issuer: &C,
    ) -> Result<PathResources, AllocError>
        ensures { IfOk result (λ new. InEach (λ f. IsWithClaim (λ n. n) overclaim
            (resources_in self f) ((C.cert issuer.now).claim f) (resources_in new f))) }
    {
        let PathResources { asn, v4, v6 } = self;
        let asn = with_issuer(alloc, overclaim, asn, issuer.asn())?;
        let v4 = with_issuer(alloc, overclaim, v4, issuer.v4())?;
        let v6 = with_issuer(alloc, overclaim, v6, issuer.v6())?;
        Ok(PathResources { asn, v4, v6 })
    }

    /// The first family in which the claim of an issuer does not cover what it has to.
    pub fn uncovered<C: Certificate>(&self, overclaim: Overclaim, issuer: &C) -> Option<Family>
        ensures none { IfNone result (InEach (λ f. CoversNearest (λ n. n) overclaim
            (resources_in self.now f) ((C.cert issuer.now).claim f))) }
        ensures some { IfSome result (FailsFirst (λ f. CoversNearest (λ n. n) overclaim
            (resources_in self.now f) ((C.cert issuer.now).claim f))) }
    {
        if !covers_nearest(overclaim, &self.asn, issuer.asn()) {
            return Some(Family::As);
        }
        if !covers_nearest(overclaim, &self.v4, issuer.v4()) {
            return Some(Family::V4);
        }
        if !covers_nearest(overclaim, &self.v6, issuer.v6()) {
            return Some(Family::V6);
        }
        None
    }

    /// The resources with the sets of a supplied CA above a head of this mode. An error is want of
    /// memory, and changes nothing.
    pub fn with_supplied_ca<C: Certificate, S: SuppliedCa<C>>(
        &self,
        overclaim: Overclaim,
        ca: &S,
    ) -> Result<PathResources, AllocError>
        ensures { IfOk result (λ new. InEach (λ f. IsWithSet (λ n. n) overclaim
            (resources_in self.now f) (S.sets ca.now f) (resources_in new f))) }
    {
        let asn = with_supplied_ca(overclaim, &self.asn, ca.asn())?;
        let v4 = with_supplied_ca(overclaim, &self.v4, ca.v4())?;
        let v6 = with_supplied_ca(overclaim, &self.v6, ca.v6())?;
        Ok(PathResources { asn, v4, v6 })
    }

    /// The first family in which a supplied CA does not have the numbers that it has to.
    pub fn exceeding<C: Certificate, S: SuppliedCa<C>>(
        &self,
        overclaim: Overclaim,
        ca: &S,
    ) -> Option<Family>
        ensures none { IfNone result (InEach (λ f. CoversNearest (λ n. n) overclaim
            (resources_in self.now f) (Claim.Explicit (S.sets ca.now f)))) }
        ensures some { IfSome result (FailsFirst (λ f. CoversNearest (λ n. n) overclaim
            (resources_in self.now f) (Claim.Explicit (S.sets ca.now f)))) }
    {
        if !set_covers_nearest(overclaim, &self.asn, ca.asn()) {
            return Some(Family::As);
        }
        if !set_covers_nearest(overclaim, &self.v4, ca.v4()) {
            return Some(Family::V4);
        }
        if !set_covers_nearest(overclaim, &self.v6, ca.v6()) {
            return Some(Family::V6);
        }
        None
    }
}
