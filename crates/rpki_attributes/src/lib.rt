//! Signed attributes: what a signature of a signed object is made over (RFC 5652, section 5.3; RFC
//! 6488, section 2.1.6.4).
#![tactic(auto)]

mod attribute;
mod attrs;
mod digest;
mod fault;
pub mod faults;
pub mod laws;
mod list;

pub use attrs::{SignedAttrs, SignedAttrsEncoder};
pub use digest::{MessageDigest, MessageDigestEncoder};
pub use fault::AttrsFault;
