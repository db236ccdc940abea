//! Certification paths under multi-signed attestations (draft-michaelson-rpki-rta): what a path is,
//! where it is anchored and which numbers it stands for, and the laws that decide them.
#![tactic(auto)]

mod acceptance;
mod attestation;
mod carried;
mod certificate;
mod decision;
mod family_resources;
mod key_id_index;
pub mod laws;
mod pairs;
mod path_resources;
mod signing;
mod sorting;
mod supply;
mod verdict_count;
mod walker;
mod walks;

pub use acceptance::{AcceptFault, accept};
pub use attestation::{GrantFault, grant};
pub use carried::{Attestation, Candidate, CarriedCert, CarriedSigner};
pub use certificate::{Certificate, KeyId, Locator, SignedCertificate, SuppliedCa};
pub use decision::{Attested, FinalFault, finalize};
pub use family_resources::{
    FamilyResources, covers_nearest, set_covers_nearest, with_issuer, with_supplied_ca,
};
pub use key_id_index::KeyIdIndex;
pub use pairs::{Accepts, PairFault, Seeks, pair_off, take_first};
pub use path_resources::PathResources;
pub use supply::{Supplied, SupplyFault, supply_all, supply_each};
pub use verdict_count::VerdictCount;
pub use walker::{Path, PathFault, walk};
pub use walks::{WalksFault, walk_each};
