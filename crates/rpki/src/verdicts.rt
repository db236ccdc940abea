//! Which signatures are good, as a text that is looked up.

pub use rpki_verdicts::{ListingError, Verdicts, laws, listing, rta_listing};
