//! Signed objects (RFC 5652; RFC 6488): reading, what they say, and validation; and with their
//! contents, over any kind of these.
#![tactic(auto)]

pub mod cms;
pub mod faults;
pub mod laws;
mod object;
mod process;
mod signed;
mod signer_info;
mod validate;
mod verify;

pub use object::SignedObject;
pub use signed::{Content, Signed, oid_of};
pub use signer_info::SignerInfo;
