//! What the tests of several crates share: why a test ends early, what calls answer, and values
//! that are put together from octets, or that others are made of.
#![tactic(auto)]

mod answers;
mod fail;
mod octets;
mod values;

pub use answers::{ok, said};
pub use fail::Fail;
pub use octets::{joined, value};
pub use values::{copied, key, rsync, year};
