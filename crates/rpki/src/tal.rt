//! Trust anchor locators.

pub use rpki_tal::{ReadError, Tal, TalInfo, TalUri, laws};
