//! Multi-signed attestations.

pub use rpki_multi::{
    IntoRtaBuilder, MultiSignedObject, MultiSignedObjectEncoder, Rta, RtaBuilder, SignerInfo,
    SignerInfoEncoder,
};
pub use rpki_rta::{Supply, Validation, run};
pub use rpki_tagged::{AttestationBuilder, AttestationEncoder, ResourceTaggedAttestation, faults};

/// What the definitions of attestations say.
pub mod laws {
    pub use rpki_multi::laws::{
        attestations_in_ber, multi_signed_objects, octets_after_multi_signed_objects_are_left,
        signer_infos, written_attestations_are_read,
    };
    pub use rpki_rta::laws::{
        accepted_paths_are_short, end_after_supplies, made_signers_match, no_is_right,
        refused_supply_is_right, yes_after_supplies, yes_is_granted,
    };
    pub use rpki_tagged::laws::{attestations, octets_after_a_tagged_attestation_are_left};
}
