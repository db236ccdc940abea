//! Multi-signed attestations (draft-michaelson-rpki-rta): their validation, over whole
//! certification paths.
#![tactic(auto)]

mod carried;
mod faults;
mod handles;
pub mod laws;
mod signers;
mod supply;
mod unchecked;
mod validation;
mod verdict;
mod verdict_total;
mod whole;

pub use validation::Validation;
pub use whole::{Supply, run};
