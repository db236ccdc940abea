//! Revocation lists that are made and signed (RFC 5280, section 5; RFC 6487, section 5).
#![tactic(auto)]

mod builder;
mod entry;
mod extensions;
mod issue;
pub mod laws;

pub use builder::CrlBuilder;
pub use entry::RevokedCert;
