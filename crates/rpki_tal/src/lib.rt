//! Trust anchor locators (RFC 8630): where a trust anchor is published, and its key.
#![tactic(auto)]

mod error;
mod info;
mod key_text;
pub mod laws;
mod lines;
mod tal;
mod text;
mod uri;

pub use error::ReadError;
pub use info::TalInfo;
pub use tal::Tal;
pub use uri::TalUri;
