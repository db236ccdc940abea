//! Signatures by RSA: whether a key has signed a message, computed.

pub use rpki_rsa::{Rsa, laws};
