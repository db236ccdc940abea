//! Revocation lists.

pub use rpki_crls::{Crl, CrlEntry, CrlExtensions, faults};
pub use rpki_issued_crls::{CrlBuilder, RevokedCert};

/// Laws of revocation lists, and of those that are made.
pub mod laws {
    pub use rpki_crls::laws::{
        extensions, octets_after_a_revocation_list_are_left, revocation_lists,
        written_revocation_lists_are_read,
    };
    pub use rpki_issued_crls::laws::{
        lists_are_written, pushed_are_revoked, written_lists_are_read,
    };
}
