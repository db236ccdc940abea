//! Writing claims (RFC 3779, sections 2.2.3 and 3.2.3).

ghost use Rattle.std.specs.Prelude.{◌≡◌, ◌<◌, ◌^◌, ◌++◌, length, if◌then◌else◌, Some, None};
ghost use Rattle.std.specs.List.{flat_map};
ghost use Rattle.rpki_der.specs.Tags.{SEQUENCE, context};
ghost use Rattle.rpki_der.specs.Write.Parts.{contents_small};
ghost use Rattle.rpki_der.specs.Write.Written.{value_octets};
ghost use Rattle.rpki_resources.specs.As.Written.{as_octets};
ghost use Rattle.rpki_resources.specs.declared.family.AddressFamily.TheVariants.{Ipv4, Ipv6};
ghost use Rattle.rpki_issued.specs.Values.{claim_octets, as_claim_octets, family_octets};
ghost use Rattle.rpki_issued.specs.Values.{ip_claims_octets, IsShortClaim, short_claim};
ghost use Rattle.rpki_issued.specs.Values.{IsShortFamily, short_family};
ghost use Rattle.rpki_issued.specs.Extensions.{said_addresses};

use rpki_der::encode::{null, sequence, tagged};
use rpki_der::{Encode, EncodeError, Sink, SinkFailed, Tag};
use rpki_extensions::IpClaims;
use rpki_resources::{AddressFamily, AsResources, Claim, IpResources};

// What writes a claim of AS numbers as NULL or a SEQUENCE, and nothing where it is missing.
#[derive(Drop)]
struct AsChoice<'a>(&'a AsResources);

impl Encode for AsChoice<'_> {
    ghost octets = { λ e. claim_octets (flat_map as_octets) e.0.now };

    ghost is_short = { λ e. IsShortClaim (flat_map as_octets) e.0.now };

    ghost small = { λ e h. short_claim (flat_map as_octets) e.0.now h };

    fn encoded_len(&self) -> Result<u64, EncodeError> {
        match self.0.claim() {
            Claim::Missing => Ok(0),
            Claim::Inherit => null().encoded_len(),
            Claim::Explicit(set) => sequence(set.encode_ref()).encoded_len(),
        }
    }

    fn put<W: Sink>(&self, len: u64, out: &mut W) -> Result<(), SinkFailed> {
        match self.0.claim() {
            Claim::Missing => Ok(()),
            Claim::Inherit => null().put(len, out),
            Claim::Explicit(set) => sequence(set.encode_ref()).put(len, out),
        }
    }
}

/// What writes a claim of AS numbers (RFC 3779, section 3.2.3.1).
#[derive(Drop)]
pub struct AsClaimEncoder<'a>(pub &'a AsResources);

impl Encode for AsClaimEncoder<'_> {
    ghost octets = { λ e. as_claim_octets e.0.now };

    ghost is_short = { λ e. length (value_octets (context 0)
        (claim_octets (flat_map as_octets) e.0.now)) < 2 ^ 32 };

    ghost small = { λ e h. contents_small SEQUENCE (value_octets (context 0)
        (claim_octets (flat_map as_octets) e.0.now)) h };

    fn encoded_len(&self) -> Result<u64, EncodeError> {
        sequence(tagged(Tag::CTX_0, AsChoice(self.0))).encoded_len()
    }

    fn put<W: Sink>(&self, len: u64, out: &mut W) -> Result<(), SinkFailed> {
        sequence(tagged(Tag::CTX_0, AsChoice(self.0))).put(len, out)
    }
}

// What writes a family and what is claimed of it, and nothing where it is missing.
#[derive(Drop)]
struct FamilyClaim<'a> {
    family: AddressFamily,
    claim: &'a IpResources,
}

impl Encode for FamilyClaim<'_> {
    ghost octets = { λ e. family_octets e.family e.claim.now };

    ghost is_short = { λ e. IsShortFamily e.family e.claim.now };

    ghost small = { λ e h. short_family e.family e.claim.now h };

    fn encoded_len(&self) -> Result<u64, EncodeError> {
        match self.claim.claim() {
            Claim::Missing => Ok(0),
            Claim::Inherit => sequence((self.family.encode_ref(), null())).encoded_len(),
            Claim::Explicit(set) => {
                let numbers = sequence(set.encode_ref(self.family));
                sequence((self.family.encode_ref(), numbers)).encoded_len()
            }
        }
    }

    fn put<W: Sink>(&self, len: u64, out: &mut W) -> Result<(), SinkFailed> {
        match self.claim.claim() {
            Claim::Missing => Ok(()),
            Claim::Inherit => sequence((self.family.encode_ref(), null())).put(len, out),
            Claim::Explicit(set) => {
                let numbers = sequence(set.encode_ref(self.family));
                sequence((self.family.encode_ref(), numbers)).put(len, out)
            }
        }
    }
}

/// What writes the claims of addresses (RFC 3779, section 2.2.3.1).
#[derive(Drop)]
pub struct IpClaimsEncoder<'a>(pub &'a IpClaims);

impl IpClaimsEncoder<'_> {
    // Both families, IPv4 first.
    fn fields(&self) -> (FamilyClaim<'_>, FamilyClaim<'_>)
        ensures v4 { (result.0.family ≡ Ipv4) × (result.0.claim.now ≡ self.now.0.now.v4) }
        ensures v6 { (result.1.family ≡ Ipv6) × (result.1.claim.now ≡ self.now.0.now.v6) }
    {
        let x: &IpClaims = self.0;
        (
            FamilyClaim {
                family: AddressFamily::Ipv4,
                claim: &x.v4,
            },
            FamilyClaim {
                family: AddressFamily::Ipv6,
                claim: &x.v6,
            },
        )
    }
}

impl Encode for IpClaimsEncoder<'_> {
    ghost octets = { λ e. ip_claims_octets e.0.now };

    ghost is_short = { λ e. length (family_octets Ipv4 e.0.now.v4
        ++ family_octets Ipv6 e.0.now.v6) < 2 ^ 32 };

    ghost small = { λ e h. contents_small SEQUENCE (family_octets Ipv4 e.0.now.v4
        ++ family_octets Ipv6 e.0.now.v6) h };

    fn encoded_len(&self) -> Result<u64, EncodeError> {
        sequence(self.fields()).encoded_len()
    }

    fn put<W: Sink>(&self, len: u64, out: &mut W) -> Result<(), SinkFailed> {
        sequence(self.fields()).put(len, out)
    }
}

/// Whether a family is named.
pub fn names_something(claims: &IpClaims) -> bool
    ensures { said_addresses claims.now ≡ (if result then Some claims.now else None) }
{
    match claims.v4.claim() {
        Claim::Inherit => true,
        Claim::Explicit(_) => true,
        Claim::Missing => match claims.v6.claim() {
            Claim::Inherit => true,
            Claim::Explicit(_) => true,
            Claim::Missing => false,
        },
    }
}
