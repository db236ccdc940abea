//! What is wrong with revocation lists, in words.

/// No authority key identifier is among the extensions (RFC 6487, section 5).
pub const NO_AUTHORITY_KEY_IDENTIFIER: &str = "authorityKeyIdentifier is missing";

/// No CRL number is among the extensions (RFC 6487, section 5).
pub const NO_CRL_NUMBER: &str = "cRLNumber is missing";
