//! Revocation lists (RFC 5280, section 5; RFC 6487, section 5): reading, and what they say.
#![tactic(auto)]

mod crl;
mod entry;
mod extensions;
pub mod faults;
pub mod laws;

pub use crl::Crl;
pub use entry::CrlEntry;
pub use extensions::{CRL_NUMBER, CrlExtensions};
