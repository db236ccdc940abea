//! The lines of each kind of content.

pub mod aspa;
pub mod blocks;
pub mod certificate;
pub mod crl;
pub mod ia5;
pub mod lines;
pub mod manifest;
pub mod named;
pub mod object;
pub mod roa;
pub mod rsc;
pub mod rta;
pub mod serial;
pub mod tal;
