//! Certificates of resources (RFC 5280; RFC 6487; RFC 8360): reading, inspection and validation,
//! and the issuer that a chain of them makes. The faults, the usage of a key and what is done with
//! a claim of too much are those of `rpki_faults`, under the names of this crate.
#![tactic(auto)]

mod cert;
mod inspect;
mod issuer;
pub mod laws;
mod validate;
mod verify;

pub use cert::Cert;
pub use issuer::{IssuerError, issued_at, issuer_at, read_cert};
pub use rpki_faults::{
    Family, FaultText, InspectionError, KeyUsage, Overclaim, UncoveredPrefix, ValidationError,
    VerificationError,
};
pub use validate::ResourceCert;
