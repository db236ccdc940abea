//! Whether octets are a good manifest (RFC 9286), ROA (RFC 9582), ASPA or signed checklist (RFC
//! 9323): from octets to a yes.
#![tactic(auto)]

pub mod check;
pub mod laws;
mod walk;

pub use rpki_files::{InspectResources, Manifest, Rsc, ValidateManifest};
pub use rpki_routes::{Aspa, Roa};
pub use rpki_sigobj::{Content, Signed};
pub use walk::Walk;
