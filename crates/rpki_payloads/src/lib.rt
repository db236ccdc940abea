//! The payloads that validation runs find in a copy of the repositories, after local exceptions, in
//! seven formats; and what is refused, as lines.
#![tactic(auto)]

pub mod formats;
mod found;
pub mod laws;
mod locators;
mod numbers;
mod outcome;
mod party;
mod refusals;
mod report;
mod seconds;
pub mod slurm;

pub use found::AnchorFindings;
pub use locators::{LocatorFault, NamedLocator, locators_in};
pub use party::{FolderParty, MOST_WORK};
pub use refusals::push_refusals;
pub use report::{PayloadsReport, report_payloads};
