//! Parts that signed data of every kind has, for readers of further kinds (RFC 5652, section 5).

pub use crate::object::read::{ID_SIGNED_DATA, skip_digests, take_octets};
pub use crate::signer_info::skip_version;
