//! Whether files of the RPKI are good under the issuer that certificates make: signed objects,
//! attestations, certificates of CAs, revocation lists and locators.
#![tactic(auto)]

pub mod attestation;
pub mod certificate;
pub mod grounds;
mod issuer;
pub mod kinds;
pub mod laws;
pub mod locator;
pub mod object;
pub mod question;
pub mod refusal;
pub mod revocation_list;
pub mod revoked;
