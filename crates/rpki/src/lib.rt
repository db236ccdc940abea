//! The signed objects of the RPKI as one library: what the crates below give out, under the names
//! of the modules of the Rust crate `rpki`, without its module `repository`, and of some of this
//! project's own.
#![tactic(auto)]

pub mod aspa;
pub mod cert;
pub mod check;
pub mod crl;
pub mod crypto;
pub mod der;
pub mod error;
pub mod extensions;
pub mod lists;
pub mod manifest;
pub mod paths;
pub mod resources;
pub mod roa;
pub mod rsa;
pub mod rsc;
pub mod rta;
pub mod sigobj;
pub mod tal;
pub mod uri;
pub mod verdicts;
pub mod x509;
