//! Autonomous System Provider Authorizations.

pub use rpki_basics::ProviderLimit;
pub use rpki_routes::{
    AddProviderError, AsProviderAttestation, AsProviderAttestationEncoder, Aspa, AspaBuilder,
    DuplicateProviderAs, ProviderAsIter, ProviderAsSet,
};

/// What is wrong with an ASPA.
pub mod faults {
    pub use rpki_routes::faults::{
        AS0_BESIDE_OTHERS, CUSTOMER_AMONG_PROVIDERS, CUSTOMER_AS0, NO_PROVIDERS,
        PROVIDERS_NOT_ASCENDING, TOO_MANY_PROVIDERS,
    };
}

/// What the definitions of ASPAs say.
pub mod laws {
    pub use rpki_routes::laws::{
        attestations_are_unique, attestations_are_written, built_aspas_are_valid, covered_aspas,
        limits_are_nested, octets_after_an_attestation_are_left, refused_attestations,
    };
}
