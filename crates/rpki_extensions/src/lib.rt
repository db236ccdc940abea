//! What the extensions of resource certificates say (RFC 5280, section 4.2; RFC 6487, section 4.8;
//! RFC 3779).
#![tactic(auto)]

mod access;
mod addresses;
mod basic;
mod claims;
mod extension;
mod extensions;
pub mod faults;
pub mod identifiers;
mod key_identifiers;
mod keys;
pub mod laws;
mod locations;
mod name;
mod points;
mod policies;
mod purposes;
mod uri;
mod usage;

pub use access::{SubjectAccess, take_authority_info_access, take_subject_info_access};
pub use addresses::IpClaims;
pub use basic::take_basic_constraints;
pub use claims::Claims;
pub use extension::{Extension, Profile, take_standing, with_oid};
pub use extensions::Extensions;
pub use key_identifiers::{take_authority_key_identifier, take_subject_key_identifier};
pub use keys::KeyFacts;
pub use locations::Locations;
pub use points::take_crl_distribution_points;
pub use policies::take_certificate_policies;
pub use purposes::{Purpose, take_purposes};
pub use usage::take_key_usage;
