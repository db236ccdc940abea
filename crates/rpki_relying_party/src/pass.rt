//! What a validation run knows besides the locators.

use rpki_basics::{Crypto, ProviderLimit, Time};

/// Where files are read; cryptography; the moment at which all is judged; and how many providers an
/// ASPA may have.
#[derive(Drop)]
pub struct Pass<'a, R, C: Crypto> {
    pub copy: &'a R,
    pub crypto: &'a C,
    pub moment: Time,
    pub providers: ProviderLimit,
}
