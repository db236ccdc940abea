//! Laws of validated sets.

ghost use Rattle.std.specs.Prelude.{◌≡◌, ◌↔◌, [], List};
ghost use Rattle.rpki_resources.specs.declared.block.Block.{Block};
ghost use Rattle.rpki_resources.specs.declared.resources.Claim.{Claim};
ghost use Rattle.rpki_resources.specs.declared.resources.Claim.TheVariants.{Missing, Inherit};
ghost use Rattle.rpki_resources.specs.declared.resources.Claim.TheVariants.{Explicit};
ghost use Rattle.rpki_resources.specs.Blocks.{Covers, IsCanonical, IsIntersection, SameSet};
ghost use Rattle.rpki_faults.specs.declared.overclaim.Overclaim.{Overclaim};
ghost use Rattle.rpki_faults.specs.declared.overclaim.Overclaim.TheVariants.{Refuse, Trim};
ghost use Rattle.rpki_faults.specs.Validated.{IsAllowed, IsValidated};

use rpki_resources::Number;
use rpki_resources::laws::sets::same_blocks;

/// What is missing is allowed, and stands for the empty set.
pub fn missing_is_empty<T: Number>()
    ensures allowed { (overclaim : Overclaim) (issuer : List (Block T)) →
        IsAllowed T.number overclaim Missing issuer }
    ensures numbers { (overclaim : Overclaim) (issuer set : List (Block T)) →
        IsValidated T.number overclaim Missing issuer set → SameSet T.number set [] }
    ensures set { (overclaim : Overclaim) (issuer set : List (Block T)) →
        IsValidated T.number overclaim Missing issuer set → IsCanonical T.number set → set ≡ [] }
{
    same_blocks::<T>();
}

/// What is inherited is allowed, and is the set of the issuer.
pub fn inherited_is_the_issuers<T: Number>()
    ensures allowed { (overclaim : Overclaim) (issuer : List (Block T)) →
        IsAllowed T.number overclaim Inherit issuer }
    ensures set { (overclaim : Overclaim) (issuer set : List (Block T)) →
        IsValidated T.number overclaim Inherit issuer set → set ≡ issuer }
{}

/// Where a claim of too much is refused, an explicit claim is allowed exactly where it lies in the
/// set of the issuer, and it is what is validated.
pub fn refused_or_claimed<T: Number>()
    ensures allowed { (issuer named : List (Block T)) →
        IsAllowed T.number Refuse (Explicit named) issuer ↔ Covers T.number issuer named }
    ensures set { (issuer named set : List (Block T)) →
        IsValidated T.number Refuse (Explicit named) issuer set → set ≡ named }
{}

/// Where a claim of too much is trimmed, each claim is allowed, and what is validated of an
/// explicit one is the intersection with the set of the issuer.
pub fn trimmed_is_the_intersection<T: Number>()
    ensures allowed { (claim : Claim (List (Block T))) (issuer : List (Block T)) →
        IsAllowed T.number Trim claim issuer }
    ensures set { (issuer named set : List (Block T)) →
        IsValidated T.number Trim (Explicit named) issuer set →
        IsIntersection T.number named issuer set }
{}

/// What is validated of a claim that is allowed (`IsAllowed`) lies in the set of the issuer.
pub fn validated_is_held<T: Number>()
    ensures { (overclaim : Overclaim) (claim : Claim (List (Block T)))
        (issuer set : List (Block T)) → IsAllowed T.number overclaim claim issuer →
        IsValidated T.number overclaim claim issuer set → Covers T.number issuer set }
{}

/// What is validated lies in what is claimed, where the claim is explicit.
pub fn validated_is_claimed<T: Number>()
    ensures { (overclaim : Overclaim) (issuer named set : List (Block T)) →
        IsValidated T.number overclaim (Explicit named) issuer set → Covers T.number named set }
{}

/// A claim has one validated set.
pub fn one_set_is_validated<T: Number>()
    ensures { (overclaim : Overclaim) (claim : Claim (List (Block T)))
        (issuer a b : List (Block T)) → IsValidated T.number overclaim claim issuer a →
        IsValidated T.number overclaim claim issuer b → SameSet T.number a b }
{}
