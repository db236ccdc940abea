//! Signatures by RSASSA-PKCS1-v1_5 with SHA-256 (RFC 8017, section 8.2; RFC 7935, section 2):
//! whether a key has signed a message is computed, without memory.
#![tactic(auto)]

mod encoding;
mod inverse;
mod key;
pub mod laws;
mod limbs;
mod modular;
mod montgomery;
mod octets;
mod power;
mod rsa;
mod signature;

pub use rsa::Rsa;
