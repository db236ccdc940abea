//! Tests of certificates, lists and objects: of `rpki_extensions`, `rpki_crls`, `rpki_issued`,
//! `rpki_issued_crls`, `rpki_signing`, `rpki_multi`, `rpki_paths` and `rpki_rta`, each in the
//! module of its name. Chains of certificates and walks over manifests are rows of the programs.
//!
//! A test walks a table of rows, hands want of memory on and asserts everything else.
#![tactic(auto)]

#[cfg(test)]
mod crls;
#[cfg(test)]
mod extensions;
#[cfg(test)]
mod issued;
#[cfg(test)]
mod issued_crls;
#[cfg(test)]
mod multi;
#[cfg(test)]
mod paths;
#[cfg(test)]
mod rta;
#[cfg(test)]
mod shared;
#[cfg(test)]
mod signing;
