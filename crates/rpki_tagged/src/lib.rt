//! Contents of multi-signed attestations (draft-michaelson-rpki-rta): which numbers are attested,
//! by which keys, and of which document.
#![tactic(auto)]

mod attestation;
pub mod faults;
pub mod laws;

pub use attestation::{AttestationBuilder, AttestationEncoder, ResourceTaggedAttestation};
