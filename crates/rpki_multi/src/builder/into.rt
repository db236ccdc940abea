//! Builders of contents that become builders of attestations.

ghost use Rattle.std.specs.Prelude.{◌≡◌, All, IfErr, IfOk, OnOk};
ghost use Rattle.rpki_lists.specs.Built.{IsNotBuilt};
ghost use Rattle.rpki_multi.specs.Built.{begun_of};
ghost use Rattle.rpki_resources.specs.declared.family.AddressFamily.TheVariants.{Ipv4};
ghost use Rattle.rpki_resources.specs.Family.{IsWithin};
ghost use Rattle.rpki_tagged.specs.Attestation.{Attestation};
ghost use Rattle.rpki_tagged.specs.Built.{IsBuiltOf, IsTooLong, HasNumbers, attestation_checks};

use crate::builder::RtaBuilder;
use rpki_basics::BuildError;
use rpki_tagged::AttestationBuilder;
use std::alloc::Global;

/// What a builder of a content is asked beside its own calls (a trait, since `AttestationBuilder`
/// is a type of another crate).
pub trait IntoRtaBuilder: Sized {
    // What the builder was told.
    ghost told: { Self → Attestation };

    /// A builder of the attestation of this content, without certificates, revocation lists and
    /// signers. Makes the content and refuses as `AttestationBuilder::into_attestation` does.
    fn into_rta_builder(self, alloc: Global) -> Result<RtaBuilder, BuildError>
        requires { All (IsWithin Ipv4) (told self).v4_resources }
        ensures built { IfOk result (λ b. IsBuiltOf (told self) b.content) }
        ensures named { OnOk result (HasNumbers (told self)) }
        ensures begun { IfOk result (λ b. b ≡ begun_of b.content) }
        ensures refused { IfErr result
            (IsNotBuilt (attestation_checks (told self)) (IsTooLong (told self))) };
}

impl IntoRtaBuilder for AttestationBuilder {
    ghost told = { λ builder. builder };

    fn into_rta_builder(self, alloc: Global) -> Result<RtaBuilder, BuildError> {
        match self.into_attestation() {
            Err(fault) => Err(fault),
            Ok(content) => match RtaBuilder::from_attestation(alloc, content) {
                Ok(builder) => Ok(builder),
                // What is built has few enough octets to be written.
                Err(_) => Err(BuildError::Memory),
            },
        }
    }
}
