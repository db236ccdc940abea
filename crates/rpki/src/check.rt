//! Whether octets are a good manifest, ROA, ASPA, signed checklist or multi-signed attestation, and
//! which entries of a manifest are held by files at hand.

pub use rpki_signed::check::{CheckError, aspa, manifest, object, roa, rsc, rta};
pub use rpki_signed::{Walk, laws};
