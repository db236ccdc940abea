//! Signed objects that are built, signed and written (RFC 6488, section 2).
#![tactic(auto)]

mod builder;
mod content;
mod data;
mod finalize;
pub mod laws;
mod object;

pub use builder::SignedObjectBuilder;
pub use content::not_built;
