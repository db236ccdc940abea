//! Proved callers of the libraries, which their pages `CALLING.md` quote.
#![tactic(auto)]

pub mod attested;
pub mod attributes;
pub mod authority;
pub mod certs;
pub mod checks;
pub mod claimed;
pub mod extensions;
pub mod files;
pub mod granted;
pub mod inspected;
pub mod issuers;
pub mod laws;
pub mod listed;
pub mod locators;
pub mod numbers;
pub mod objects;
pub mod pairs;
pub mod peers;
pub mod publication;
pub mod questions;
pub mod received;
pub mod revoked;
pub mod routes;
pub mod sets;
pub mod signatures;
pub mod signers;
pub mod signing;
pub mod streams;
pub mod values;
