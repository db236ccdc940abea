//! What the definitions of what is made say: laws, as functions that do nothing.

ghost use Rattle.std.specs.Prelude.{◌<◌, ◌^◌, ℕ, List, All, length};
ghost use Rattle.rpki_der.specs.declared.mode.Mode.TheVariants.{Der};
ghost use Rattle.rpki_resources.specs.declared.block.Block.{Block};
ghost use Rattle.rpki_resources.specs.declared.family.AddressFamily.{AddressFamily};
ghost use Rattle.rpki_resources.specs.declared.resources.Claim.{Claim};
ghost use Rattle.rpki_resources.specs.declared.resources.Claim.TheVariants.{Explicit};
ghost use Rattle.rpki_resources.specs.Claim.{IsBuilt};
ghost use Rattle.rpki_resources.specs.Family.{IsWithin};
ghost use Rattle.rpki_extensions.specs.declared.extensions.Extensions.{Extensions};
ghost use Rattle.rpki_extensions.specs.Extensions.{ExtensionsForm};
ghost use Rattle.rpki_certs.specs.Cert.{Tbs, CertForm};
ghost use Rattle.rpki_issued.specs.Extensions.{extensions_octets};
ghost use Rattle.rpki_issued.specs.Written.{AreToWrite, IsTbsToWrite, OfNumbers, cert_contents};
ghost use Rattle.rpki_issued.specs.Written.{cert_octets, made_certificate};

/// What is written of the extensions of a certificate is in their form, and says what they are made
/// of (RFC 5280, section 4.2; RFC 6487, section 4.8).
pub fn extensions_are_written()
    ensures { (x : Extensions) → AreToWrite x → length (extensions_octets x) < 2 ^ 32
        → ExtensionsForm Der (extensions_octets x) x }
{}

/// What is written of a certificate is in its form, and says what it is made of, with this
/// signature (RFC 5280, section 4.1; RFC 6487, section 4).
pub fn certificates_are_written()
    ensures { (t : Tbs) (s : List ℕ) → IsTbsToWrite t → length (cert_contents t s) < 2 ^ 32
        → CertForm Der (cert_octets t s) (made_certificate t s) }
{}

/// The claim of the addresses in blocks of a family is one of this family: where the blocks that
/// `build_v4_resource_blocks` is handed are of IPv4, so is what is claimed, as `into_cert` asks.
pub fn claims_of_a_family()
    ensures { (family : AddressFamily) (blocks : List (Block ℕ)) (claim : Claim (List (Block ℕ))) →
        All (IsWithin family) blocks → IsBuilt (λ n. n) (Explicit blocks) claim
        → OfNumbers (All (IsWithin family)) claim }
{}
