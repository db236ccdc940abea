//! Simple values of signed objects, and what is handed in: times, serial numbers and URIs; keys,
//! their identifiers, digests, names and signatures; cryptography, a signer and a clock.
#![tactic(auto)]

mod algorithm;
mod build;
mod clock;
mod crypto;
mod digest;
pub mod faults;
mod hex;
mod identifier;
mod key;
pub mod laws;
mod limits;
mod name;
mod serial;
mod signature;
mod signer;
mod signing;
pub mod standin;
mod time;
pub mod uri;
mod validity;

pub use algorithm::{AlgorithmEncoder, DigestAlgorithm, RpkiSignatureAlgorithm};
pub use build::{BuildError, BuildFault};
pub use clock::{Clock, FixedClock};
pub use crypto::Crypto;
pub use digest::Digest;
pub use identifier::KeyIdentifier;
pub use key::{KeyEncoder, PublicKey};
pub use limits::{ManifestRule, ProviderLimit};
pub use name::Name;
pub use serial::{Serial, SerialEncoder};
pub use signature::RpkiSignature;
pub use signer::{Signer, SignerFault};
pub use signing::SigningError;
pub use time::{Time, TimeEncoder};
pub use uri::{Https, Rsync};
pub use validity::Validity;
