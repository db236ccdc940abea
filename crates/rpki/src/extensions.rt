//! What the extensions of certificates say.

pub use rpki_extensions::{
    Claims, Extension, Extensions, IpClaims, KeyFacts, Locations, Profile, Purpose, SubjectAccess,
    faults, laws, take_authority_info_access, take_authority_key_identifier,
    take_basic_constraints, take_certificate_policies, take_crl_distribution_points,
    take_key_usage, take_purposes, take_standing, take_subject_info_access,
    take_subject_key_identifier, with_oid,
};
