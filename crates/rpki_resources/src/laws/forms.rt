//! What the definitions of the octets and of the texts of sets say: laws, as functions that do
//! nothing.

ghost use Rattle.std.specs.Prelude.{◌≡◌, ◌+◌, ◌-◌, ◌%◌, ◌<◌, ◌≤◌, ◌^◌, ℕ, List, ◌++◌, All, Some};
ghost use Rattle.std.specs.Prelude.{length, take, drop, codes};
ghost use Rattle.std.specs.List.{flat_map};
ghost use Rattle.std.specs.Net.Text.{groups_text, hex_groups_text, zero_run};
ghost use Rattle.rpki_der.specs.declared.mode.Mode.{Mode};
ghost use Rattle.rpki_der.specs.declared.mode.Mode.TheVariants.{Der};
ghost use Rattle.rpki_der.specs.Grammar.{IsBytes};
ghost use Rattle.rpki_der.specs.Form.Law.{TagSet, IsPart, nothing, is};
ghost use Rattle.rpki_der.specs.Read.Exact.{IsReading};
ghost use Rattle.rpki_der.specs.Read.Parse.{Parser};
ghost use Rattle.rpki_der.specs.Tags.{SEQUENCE, OCTET_STRING};
ghost use Rattle.rpki_der.specs.Write.Written.{value_octets};
ghost use Rattle.rpki_resources.specs.declared.block.Block.{Block};
ghost use Rattle.rpki_resources.specs.declared.family.AddressFamily.{AddressFamily};
ghost use Rattle.rpki_resources.specs.Blocks.{IsCanonical, SameSet, IsUnion, IsIntersection};
ghost use Rattle.rpki_resources.specs.Claim.Form.{AsClaimForm, IpClaimForm, AsIdentifiersForm};
ghost use Rattle.rpki_resources.specs.Claim.Read.{as_claim_at, ip_claim_at, as_identifiers_at};
ghost use Rattle.rpki_resources.specs.Families.Form.{FamiliesForm};
ghost use Rattle.rpki_resources.specs.Families.Read.{families_at, ip_set_at};
ghost use Rattle.rpki_resources.specs.Family.{max_bits, IsWithin};
ghost use Rattle.rpki_resources.specs.Family.Form.{afi, FamilyForm};
ghost use Rattle.rpki_resources.specs.Family.Read.{family_at};
ghost use Rattle.rpki_resources.specs.As.Form.{AsForm};
ghost use Rattle.rpki_resources.specs.As.Read.{as_blocks_at};
ghost use Rattle.rpki_resources.specs.As.Written.{as_octets};
ghost use Rattle.rpki_resources.specs.Ip.Form.{IpForm, PrefixForm};
ghost use Rattle.rpki_resources.specs.Ip.Read.{ip_blocks_at, prefix_at};
ghost use Rattle.rpki_resources.specs.Ip.Written.{end_octets, ip_octets};
ghost use Rattle.rpki_resources.specs.Prefix.{Network};
ghost use Rattle.rpki_resources.specs.Shortened.{IsShortened};

/// Reading a set of AS numbers is exact and unique, and one in DER is the same one in BER.
pub fn as_sets()
    ensures { IsReading as_blocks_at AsForm }
{}

/// So is reading a set of addresses.
pub fn ip_sets()
    ensures { (family : AddressFamily) →
        IsReading (ip_blocks_at (max_bits family)) (IpForm family) }
{}

/// So is reading a family.
pub fn families()
    ensures { IsReading family_at FamilyForm }
{}

/// So is reading a claim, and the value of the extension of AS numbers.
pub fn claims()
    ensures numbers { IsReading as_claim_at AsClaimForm }
    ensures addresses { (family : AddressFamily) →
        IsReading (ip_claim_at family) (IpClaimForm family) }
    ensures identifiers { IsReading as_identifiers_at AsIdentifiersForm }
{}

/// So is reading what stands for each family, sets or claims.
pub fn values_by_family()
    ensures sets { IsReading (families_at ip_set_at) (FamiliesForm IpForm) }
    ensures claims { IsReading (families_at ip_claim_at) (FamiliesForm IpClaimForm) }
{}

/// A part of a form that stands beside a family, and what reads it.
pub trait FamilyPart {
    ghost at: { AddressFamily → Parser Self };

    ghost form: { AddressFamily → Mode → List ℕ → Self → Type 0 };
}

/// Where what stands beside a family is read exactly, so is what stands for each family.
pub fn parts_by_family<T: FamilyPart>()
    ensures { (first : TagSet)
        → ((family : AddressFamily) → IsPart first nothing (T.at family) (T.form family))
        → IsPart (is SEQUENCE) nothing (families_at T.at) (FamiliesForm T.form) }
{}

/// A family is written in DER, and read again in both modes.
pub fn families_are_written()
    ensures written { (family : AddressFamily) →
        FamilyForm Der (value_octets OCTET_STRING (afi family)) family }
    ensures read { (mode : Mode) (family : AddressFamily) (rest : List ℕ) →
        family_at mode (value_octets OCTET_STRING (afi family) ++ rest) ≡ Some (family, rest) }
{}

/// Reading a prefix is exact and unique, and one in DER is the same one in BER.
pub fn prefixes()
    ensures { (family : AddressFamily) →
        IsReading (prefix_at (max_bits family)) (PrefixForm family) }
{}

/// A prefix of a family is written in DER, and read again in both modes.
pub fn prefixes_are_written()
    ensures written { (family : AddressFamily) (prefix : Network) →
        prefix.len ≤ max_bits family → prefix.addr < 2 ^ 128 →
        prefix.addr % 2 ^ (128 - prefix.len) ≡ 0 →
        PrefixForm family Der (end_octets prefix.addr prefix.len) prefix }
    ensures read { (family : AddressFamily) (mode : Mode) (prefix : Network) (rest : List ℕ) →
        prefix.len ≤ max_bits family → prefix.addr < 2 ^ 128 →
        prefix.addr % 2 ^ (128 - prefix.len) ≡ 0 →
        prefix_at (max_bits family) mode (end_octets prefix.addr prefix.len ++ rest)
        ≡ Some (prefix, rest) }
{}

/// A set of AS numbers is written in DER, and read again in both modes.
pub fn as_sets_are_written()
    ensures written { (set : List (Block ℕ)) →
        IsCanonical (λ n. n) set → All (λ b. b.max < 2 ^ 32) set →
        length (flat_map as_octets set) < 2 ^ 32 →
        AsForm Der (value_octets SEQUENCE (flat_map as_octets set)) set }
    ensures read { (mode : Mode) (set : List (Block ℕ)) (rest : List ℕ) →
        IsCanonical (λ n. n) set → All (λ b. b.max < 2 ^ 32) set →
        length (flat_map as_octets set) < 2 ^ 32 →
        as_blocks_at mode (value_octets SEQUENCE (flat_map as_octets set) ++ rest)
        ≡ Some (set, rest) }
{}

/// A set of AS numbers that was read has numbers below 2^32 alone. Where the contents that are
/// written of it have fewer than 2^32 octets, it is read again in both modes, whatever follows it.
pub fn as_sets_are_written_again()
    ensures below { (mode : Mode) (octets : List ℕ) (set : List (Block ℕ)) →
        AsForm mode octets set → All (λ b. b.max < 2 ^ 32) set }
    ensures read { (mode again : Mode) (octets : List ℕ) (set : List (Block ℕ)) (rest : List ℕ) →
        AsForm mode octets set → length (flat_map as_octets set) < 2 ^ 32 →
        as_blocks_at again (value_octets SEQUENCE (flat_map as_octets set) ++ rest)
        ≡ Some (set, rest) }
{}

/// A set of addresses of a family is written in DER, and read again in both modes.
pub fn ip_sets_are_written()
    ensures written { (family : AddressFamily) (set : List (Block ℕ)) →
        IsCanonical (λ n. n) set → All (IsWithin family) set →
        length (flat_map ip_octets set) < 2 ^ 32 →
        IpForm family Der (value_octets SEQUENCE (flat_map ip_octets set)) set }
    ensures read { (family : AddressFamily) (mode : Mode) (set : List (Block ℕ)) (rest : List ℕ) →
        IsCanonical (λ n. n) set → All (IsWithin family) set →
        length (flat_map ip_octets set) < 2 ^ 32 →
        ip_blocks_at (max_bits family) mode (value_octets SEQUENCE (flat_map ip_octets set) ++ rest)
        ≡ Some (set, rest) }
{}

/// A set of addresses of a family that was read is of this family. Where the contents that are
/// written of it have fewer than 2^32 octets, it is read again in both modes, whatever follows it.
pub fn ip_sets_are_written_again()
    ensures within { (family : AddressFamily) (mode : Mode) (octets : List ℕ)
        (set : List (Block ℕ)) →
        IsBytes octets → IpForm family mode octets set → All (IsWithin family) set }
    ensures read { (family : AddressFamily) (mode again : Mode) (octets : List ℕ)
        (set : List (Block ℕ)) (rest : List ℕ) → IsBytes octets → IpForm family mode octets set →
        length (flat_map ip_octets set) < 2 ^ 32 →
        ip_blocks_at (max_bits family) again
        (value_octets SEQUENCE (flat_map ip_octets set) ++ rest) ≡ Some (set, rest) }
{}

/// Of a set that is made of blocks of a family, each block is of that family: of a set that is
/// built of blocks which were added, of the numbers that are in one of two sets or in both, and of
/// those that are in both. So what `IpBlocksBuilder::finalize`, `IpBlocks::union` and
/// `IpBlocks::intersection` make of such blocks is written in the form of the family
/// (`IpBlocks::encode_ref`). The addresses of a prefix are such a block where the prefix has no
/// more bits than an address of the family (`Prefix::range`).
pub fn sets_of_a_family()
    ensures built { (family : AddressFamily) (list set : List (Block ℕ)) →
        All (IsWithin family) list → IsCanonical (λ n. n) set → SameSet (λ n. n) set list →
        All (IsWithin family) set }
    ensures united { (family : AddressFamily) (first second set : List (Block ℕ)) →
        All (IsWithin family) first → All (IsWithin family) second →
        IsCanonical (λ n. n) set → IsUnion (λ n. n) first second set →
        All (IsWithin family) set }
    ensures intersected { (family : AddressFamily) (first second set : List (Block ℕ)) →
        All (IsWithin family) first → All (IsWithin family) second →
        IsCanonical (λ n. n) set → IsIntersection (λ n. n) first second set →
        All (IsWithin family) set }
{}

/// In the text of an IPv6 address the longest run of two or more zero groups, and of the longest
/// ones the first, is written as two colons (RFC 5952, section 4.2). Without such a run all groups
/// are written.
pub fn ipv6_texts()
    ensures shortened { (groups : List ℕ) (start len : ℕ) → IsShortened groups start len
        → hex_groups_text groups
        ≡ groups_text (take start groups) ++ codes "::" ++ groups_text (drop (start + len) groups) }
    ensures whole { (groups : List ℕ) → ((start : ℕ) → zero_run (drop start groups) ≤ 1)
        → hex_groups_text groups ≡ groups_text groups }
{}
