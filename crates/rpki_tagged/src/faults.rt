//! What is wrong with contents of attestations, in words.

/// A content names no resources (draft-michaelson-rpki-rta, section 4).
pub const NO_RESOURCES: &str = "resources names neither AS numbers nor addresses";
