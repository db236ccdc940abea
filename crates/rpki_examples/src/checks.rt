//! Checks in a given order, and the numbers that a certificate has.

ghost use Rattle.std.specs.Prelude.{◌++◌, IfOk};
ghost use Rattle.rpki_resources.specs.Blocks.{Covers};
ghost use Rattle.rpki_faults.specs.Checks.{◌as_faults_of◌, AnswersFirstFault, AnswersFirstOr};
ghost use Rattle.rpki_faults.specs.Validated.{IsValidated};
ghost use Rattle.rpki_faults.specs.declared.validation.ValidationError.TheVariants.{Memory};
ghost use Rattle.rpki_faults.specs.declared.validation.ValidationError.TheVariants.{Verification};
ghost use Rattle.rpki_examples.specs.Checks.{as_checks, moment_checks};

use rpki::error::laws::sets::validated_is_held;
use rpki::error::{Family, ValidationError, VerificationError, validated};
use rpki::extensions::Claims;
use rpki::resources::{AsBlocks, Asn};
use rpki::x509::{Time, Validity};
use std::alloc::Global;

/// Whether a moment lies within a validity, or why it does not.
pub fn verify_moment(validity: Validity, now: Time) -> Result<(), VerificationError>
    ensures { AnswersFirstFault (moment_checks validity now) result }
{
    if now < validity.not_before() {
        return Err(VerificationError::NotYetValid);
    }
    if now > validity.not_after() {
        return Err(VerificationError::Expired);
    }
    Ok(())
}

/// The AS numbers of a certificate at this moment, under an issuer with these: the moment is looked
/// at first, and then the claim. All of them are the issuer's.
pub fn as_numbers_at(
    alloc: Global,
    validity: Validity,
    now: Time,
    claims: &Claims,
    issuer: &AsBlocks,
) -> Result<AsBlocks, ValidationError>
    ensures answers { AnswersFirstOr Memory
        ((Verification as_faults_of moment_checks validity now) ++ as_checks claims.now issuer.now)
        (IsValidated (λ n. n) claims.now.policy claims.now.as_numbers issuer.now) result }
    ensures held { IfOk result (Covers (λ n. n) issuer.now) }
{
    validated_is_held::<Asn>();
    verify_moment(validity, now)?;
    let fault = VerificationError::Overclaimed(Family::As);
    validated(alloc, &claims.as_numbers, claims.policy, issuer, fault)
}
