//! The validated set of one family.

ghost use Rattle.std.specs.Prelude.{◌∷◌, []};
ghost use Rattle.rpki_faults.specs.Checks.{◌unless◌, AnswersFirstOr};
ghost use Rattle.rpki_faults.specs.Validated.{IsAllowed, IsValidated};
ghost use Rattle.rpki_faults.specs.declared.validation.ValidationError.TheVariants.{Memory};
ghost use Rattle.rpki_faults.specs.declared.validation.ValidationError.TheVariants.{Verification};

use crate::overclaim::Overclaim;
use crate::validation::ValidationError;
use crate::verification::VerificationError;
use rpki_resources::{Blocks, BlocksError, Number, Resources};
use std::alloc::Global;

/// The numbers of a certificate in one family, where its issuer has the numbers `issuer`: the
/// issuer's where the claim is inherited, none where it is missing, and else the claim, trimmed to
/// what the issuer has where the certificate may be trimmed (RFC 6487, section 7.2; RFC 8360,
/// section 4.2.4.4). Where it may not, and claims a number that the issuer has not, the answer is
/// the given fault, and `ValidationError::Memory` where there is no memory for the set.
pub fn validated<T: Number>(
    alloc: Global,
    claim: &Resources<T>,
    overclaim: Overclaim,
    issuer: &Blocks<T>,
    fault: VerificationError,
) -> Result<Blocks<T>, ValidationError>
    ensures { AnswersFirstOr Memory
        ((Verification fault unless IsAllowed T.number overclaim claim.now issuer.now) ∷ [])
        (IsValidated T.number overclaim claim.now issuer.now) result }
{
    let mut set = match claim.to_blocks(alloc) {
        Ok(set) => set,
        Err(BlocksError::Inherit) => return Ok(issuer.clone()?),
        Err(BlocksError::Memory) => return Err(ValidationError::Memory),
    };
    match overclaim {
        Overclaim::Refuse => {
            if !issuer.contains(&set) {
                return Err(ValidationError::Verification(fault));
            }
        }
        Overclaim::Trim => set.intersection_assign(issuer)?,
    }
    Ok(set)
}
