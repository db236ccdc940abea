//! Why certificates and signed objects are refused, checks in a given order, and what is left of a
//! claim of numbers under an issuer (RFC 6487, RFC 8360).
#![tactic(auto)]

mod family;
mod inspection;
pub mod laws;
mod overclaim;
mod sets;
mod text;
mod uncovered;
mod usage;
mod validation;
mod verification;

pub use family::Family;
pub use inspection::InspectionError;
pub use overclaim::Overclaim;
pub use sets::validated;
pub use text::FaultText;
pub use uncovered::UncoveredPrefix;
pub use usage::KeyUsage;
pub use validation::ValidationError;
pub use verification::VerificationError;
