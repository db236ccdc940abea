//! Certificates of resources that are made and signed (RFC 5280; RFC 6487).
#![tactic(auto)]

mod access;
mod claims;
pub mod extension;
mod extensions;
pub mod laws;
pub mod resources;
pub mod signing;
mod tbs;
mod writable;

pub use tbs::TbsCert;
