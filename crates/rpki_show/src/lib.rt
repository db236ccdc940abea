//! What the programs of the signed objects of the RPKI show of a file, as lines or in JSON: a
//! content, a signed object, an attestation, a trust anchor locator, a certificate, or a revocation
//! list.
#![tactic(auto)]

mod attestation;
mod contents;
mod dated;
mod dated_rta;
mod issued;
mod json;
mod kinds;
pub mod laws;
mod locator;
mod objects;
pub mod texts;
mod whole;

pub use attestation::{show_attestation, show_rta, show_whole_rta};
pub use contents::show_kind;
pub use dated::{DatedCrl, DatedEntry};
pub use dated_rta::DatedRta;
pub use issued::{show_certificate, show_crl};
pub use json::attestation::attestation_members;
pub use json::certificate::certificate_members;
pub use json::crl::crl_members;
pub use json::locator::locator_members;
pub use json::object::object_members;
pub use json::unshown::Unshown;
pub use kinds::{Action, Lines, answer_for};
pub use locator::{locator_of, show_tal};
pub use objects::show_object;
pub use whole::show_whole_object;
