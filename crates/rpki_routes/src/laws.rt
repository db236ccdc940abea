//! What the definitions say, as functions that do nothing.

ghost use Rattle.std.specs.Prelude.{◌↔◌, ◌≡◌, ◌++◌, ◌≤◌, ◌<◌, ◌^◌, ℕ, List, All, length};
ghost use Rattle.rpki_der.specs.declared.mode.Mode.{Mode};
ghost use Rattle.rpki_der.specs.declared.mode.Mode.TheVariants.{Der};
ghost use Rattle.rpki_der.specs.Grammar.{Front, IsBytes, IsUnique};
ghost use Rattle.rpki_der.specs.Form.After.{LeavesOctetsAfter};
ghost use Rattle.rpki_basics.specs.declared.build.BuildFault.{BuildFault};
ghost use Rattle.rpki_basics.specs.declared.limits.ProviderLimit.{ProviderLimit};
ghost use Rattle.rpki_basics.specs.declared.limits.ProviderLimit.TheVariants.{Narrow, Wide};
ghost use Rattle.rpki_basics.specs.Limits.{most_providers};
ghost use Rattle.rpki_routes.specs.Aspa.{Aspa, IsAttestation};
ghost use Rattle.rpki_routes.specs.Aspa.Built.{aspa_checks};
ghost use Rattle.rpki_routes.specs.Aspa.Form.{AspaForm};
ghost use Rattle.rpki_routes.specs.Aspa.Written.{aspa_octets};
ghost use Rattle.rpki_resources.specs.declared.block.Block.{Block};
ghost use Rattle.rpki_resources.specs.declared.family.AddressFamily.{AddressFamily};
ghost use Rattle.rpki_resources.specs.declared.resources.Claim.{Claim};
ghost use Rattle.rpki_resources.specs.Claim.{HasBlocks};
ghost use Rattle.rpki_resources.specs.Family.{IsWithin};
ghost use Rattle.rpki_routes.specs.Roa.{Address, Roa, IsAddress, IsRoa};
ghost use Rattle.rpki_routes.specs.Roa.Built.{IsClaimOf, roa_checks};
ghost use Rattle.rpki_routes.specs.Roa.Form.{RoaForm};
ghost use Rattle.rpki_routes.specs.Roa.Written.{roa_contents, roa_octets};
ghost use Rattle.rpki_faults.specs.Checks.{AllHold, IsFirstFault};
ghost use Rattle.rpki_extensions.specs.declared.claims.Claims.{Claims};
ghost use Rattle.rpki_certs.specs.Inspect.{NamesNothing};
ghost use Rattle.rpki_certs.specs.Validate.{IsValidatedUnder, Sets, Validated};
ghost use Rattle.rpki_certs.specs.Verify.{Verdict};
ghost use Rattle.rpki_basics.specs.Moment.{Moment};
ghost use Rattle.rpki_faults.specs.declared.overclaim.Overclaim.TheVariants.{Refuse};
ghost use Rattle.rpki_faults.specs.Validated.{IsAllowed};
ghost use Rattle.rpki_sigobj.specs.Signed.{Whole, cert_in};
ghost use Rattle.rpki_sigobj.specs.Signed.Good.{IsGood};
ghost use Rattle.rpki_sigobj.specs.Verify.{Digester};
ghost use Rattle.rpki_signing.specs.Built.{IsFit, Settings, claims_of};
ghost use Rattle.rpki_signing.specs.Content.{Passes};
ghost use Rattle.rpki_routes.specs.Aspa.Checks.{AspaCovered, aspa_held, aspa_claimed, aspa_kind};
ghost use Rattle.rpki_routes.specs.Aspa.Signed.{IsBuiltAspa, claiming};
ghost use Rattle.rpki_routes.specs.Roa.Checks.{HasPrefix, RoaCovered, roa_held, roa_kind};
ghost use Rattle.rpki_routes.specs.Roa.Signed.{IsBuiltRoa};

use rpki_certs::ResourceCert;

/// At most one beginning of given octets is an ASPA content, and it says one thing.
pub fn attestations_are_unique()
    ensures { (limit : ProviderLimit) → IsUnique (AspaForm limit) }
{}

/// Octets after an ASPA content change nothing: they are left. Nor do octets after one whole
/// value make it a content that it is not.
pub fn octets_after_an_attestation_are_left()
    ensures { (limit : ProviderLimit) → LeavesOctetsAfter Der (AspaForm limit) }
{}

/// What an attestation is written as is a content that says it, and no other octets are. Whatever
/// follows, it stands at the front.
pub fn attestations_are_written()
    ensures written { (limit : ProviderLimit) (a : Aspa) → IsAttestation limit a
        → AspaForm limit (aspa_octets a) a }
    ensures only { (limit : ProviderLimit) (octets : List ℕ) (a : Aspa) → IsBytes octets
        → AspaForm limit octets a → octets ≡ aspa_octets a }
    ensures read { (limit : ProviderLimit) (a : Aspa) (rest : List ℕ) → IsAttestation limit a
        → Front (AspaForm limit) (aspa_octets a ++ rest) a rest }
{}

/// A content of the narrow limit is one of the wide limit that says the same, and one of the wide
/// limit is one of the narrow limit where it has no more providers.
pub fn limits_are_nested()
    ensures wider { (octets : List ℕ) (a : Aspa) → AspaForm Narrow octets a
        → AspaForm Wide octets a }
    ensures narrower { (octets : List ℕ) (a : Aspa) → AspaForm Wide octets a
        → length a.providers ≤ most_providers Narrow → AspaForm Narrow octets a }
{}

/// If a builder of an ASPA refuses values by a fault, no encoded content says these values.
pub fn refused_attestations()
    ensures { (limit : ProviderLimit) (a : Aspa) (fault : BuildFault)
        → IsFirstFault (aspa_checks limit a) fault
        → (octets : List ℕ) → AspaForm limit octets a → ⊥ }
{}

/// At most one beginning of given octets is a ROA content, and it says one thing.
pub fn roas_are_unique()
    ensures { IsUnique RoaForm }
{}

/// Octets after a ROA content change nothing: they are left. Nor do octets after one whole value
/// make it a content that it is not.
pub fn octets_after_a_roa_are_left()
    ensures { LeavesOctetsAfter Der RoaForm }
{}

/// What a ROA says is written as a content that says it, where what stands in its SEQUENCE has
/// fewer than 2^32 octets, and whatever follows, it stands at the front. What a content says is
/// what a ROA may say (`IsRoa`).
pub fn roas_are_written()
    ensures written { (r : Roa) → IsRoa r → length (roa_contents r) < 2 ^ 32
        → RoaForm (roa_octets r) r }
    ensures read { (r : Roa) (rest : List ℕ) → IsRoa r → length (roa_contents r) < 2 ^ 32
        → Front RoaForm (roa_octets r ++ rest) r rest }
    ensures found { (octets : List ℕ) (r : Roa) → IsBytes octets → RoaForm octets r → IsRoa r }
{}

/// If a builder of a ROA refuses values by a fault, no encoded content says these values.
pub fn refused_roas()
    ensures { (r : Roa) (fault : BuildFault) → IsFirstFault (roa_checks r) fault
        → (octets : List ℕ) → IsBytes octets → RoaForm octets r → ⊥ }
{}

/// What is claimed for addresses of a ROA has each of their prefixes; where they are addresses of a
/// family, its blocks are too. It is allowed under a set that has each of their prefixes.
pub fn claims_of_addresses()
    ensures covered { (list : List Address) (claim : Claim (List (Block ℕ)))
        (set : List (Block ℕ)) → IsClaimOf list claim → HasBlocks claim set
        → All (HasPrefix set) list }
    ensures within { (family : AddressFamily) (list : List Address)
        (claim : Claim (List (Block ℕ))) (set : List (Block ℕ)) → All (IsAddress family) list
        → IsClaimOf list claim → HasBlocks claim set → All (IsWithin family) set }
    ensures allowed { (list : List Address) (claim : Claim (List (Block ℕ)))
        (set : List (Block ℕ)) → IsClaimOf list claim → All (HasPrefix set) list
        → IsAllowed (λ n. n) Refuse claim set }
{}

/// A certificate passes the checks with a ROA exactly where it has the addresses of each prefix
/// (RFC 9582, section 5).
pub fn covered_roas()
    ensures { (r : Roa) (sets : Sets) → IsRoa r → AllHold (roa_held r sets) ↔ RoaCovered r sets }
{}

/// A certificate passes the checks with an ASPA exactly where it claims the customer and nothing
/// else, and has it (draft-ietf-sidrops-aspa-profile-15, section 4).
pub fn covered_aspas()
    ensures { (a : Aspa) (x : Claims) (sets : Sets) →
        (AllHold (aspa_claimed a x) × AllHold (aspa_held a sets)) ↔ AspaCovered a x sets }
{}

/// A built ROA passes its whole validation under an issuer: the object is valid, and its
/// certificate has the addresses of each prefix (RFC 9582, section 5). This needs that cryptography
/// says yes to what the signer may answer, and that what the builder was told fits the issuer and
/// the moment; a family is named, since the ROA has an address.
pub fn built_roas_are_valid(issuer: &ResourceCert)
    ensures passes { (digest : Digester) (verdict : Verdict) (mode : Mode) (handed : Settings)
        (key : List ℕ) (o : Whole Roa) (now : Moment)
        → (built : IsBuiltRoa o.content handed key (digest (roa_octets o.content)) o.object.signed)
        → (¬ NamesNothing (claims_of built.told)
        → IsFit verdict built.told key o.object.signed issuer.now now)
        → Passes roa_kind mode digest verdict issuer.now now o }
    ensures good { (digest : Digester) (verdict : Verdict) (mode : Mode) (handed : Settings)
        (key : List ℕ) (o : Whole Roa) (now : Moment)
        → (built : IsBuiltRoa o.content handed key (digest (roa_octets o.content)) o.object.signed)
        → (¬ NamesNothing (claims_of built.told)
        → IsFit verdict built.told key o.object.signed issuer.now now)
        → (v : Validated) → IsValidatedUnder (cert_in mode o) issuer.now v
        → IsGood roa_kind mode digest verdict issuer.now now o v }
{
    issuer.is_resource_cert();
}

/// A built ASPA passes its whole validation under an issuer: its certificate claims the customer
/// and nothing else, the object is valid, and the certificate has the customer
/// (draft-ietf-sidrops-aspa-profile-15, section 4). This needs that cryptography says yes to what
/// the signer may answer, and that what the builder was told fits the issuer and the moment; a
/// family is named, since the customer is claimed.
pub fn built_aspas_are_valid(issuer: &ResourceCert)
    ensures passes { (digest : Digester) (verdict : Verdict) (mode : Mode) (limit : ProviderLimit)
        (handed : Settings) (key : List ℕ) (o : Whole Aspa) (now : Moment)
        → IsBuiltAspa limit o.content handed key (digest (aspa_octets o.content)) o.object.signed
        → (¬ NamesNothing (claims_of (claiming o.content handed))
        → IsFit verdict (claiming o.content handed) key o.object.signed issuer.now now)
        → Passes aspa_kind mode digest verdict issuer.now now o }
    ensures good { (digest : Digester) (verdict : Verdict) (mode : Mode) (limit : ProviderLimit)
        (handed : Settings) (key : List ℕ) (o : Whole Aspa) (now : Moment)
        → IsBuiltAspa limit o.content handed key (digest (aspa_octets o.content)) o.object.signed
        → (¬ NamesNothing (claims_of (claiming o.content handed))
        → IsFit verdict (claiming o.content handed) key o.object.signed issuer.now now)
        → (v : Validated) → IsValidatedUnder (cert_in mode o) issuer.now v
        → IsGood aspa_kind mode digest verdict issuer.now now o v }
{
    issuer.is_resource_cert();
}
