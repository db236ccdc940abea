//! What is shown of a file in JSON (RFC 8259): the members of an object for each kind, whose values
//! nest at most four deep.

pub mod aspa;
pub mod attestation;
pub mod blocks;
pub mod certificate;
pub mod checklist;
pub mod crl;
pub mod locator;
pub mod manifest;
pub mod object;
pub mod roa;
pub mod unshown;
pub mod values;
