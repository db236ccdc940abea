//! Multi-signed objects (draft-michaelson-rpki-rta; RFC 5652): a content, the certificates and
//! revocation lists that are carried with it, and what several signers say of it; and attestations,
//! with what their contents say, which are read, or built and signed.
#![tactic(auto)]

mod attestation;
mod builder;
pub mod laws;
mod multi;
mod signer;

pub use attestation::Rta;
pub use builder::{IntoRtaBuilder, RtaBuilder};
pub use multi::{MultiSignedObject, MultiSignedObjectEncoder};
pub use signer::{SignerInfo, SignerInfoEncoder};
