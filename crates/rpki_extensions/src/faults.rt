//! What is wrong with the extensions of certificates, in words.

/// An extension stands more than once (RFC 5280, section 4.2).
pub const EXTENSION_TWICE: &str = "extension stands more than once";

/// An extension that is not known is critical (RFC 5280, section 4.2).
pub const UNKNOWN_CRITICAL_EXTENSION: &str = "unknown extension is critical";

/// No subject key identifier is among the extensions (RFC 6487, section 4.8.2).
pub const NO_SUBJECT_KEY_IDENTIFIER: &str = "subjectKeyIdentifier is missing";

/// No key usage is among the extensions (RFC 6487, section 4.8.4).
pub const NO_KEY_USAGE: &str = "keyUsage is missing";

/// A key usage is neither that of a CA nor that of an end entity (RFC 6487, section 4.8.4).
pub const WRONG_KEY_USAGE: &str = "keyUsage is neither that of a CA nor that of an end entity";

/// An extended key usage names no purpose (RFC 5280, section 4.2.1.12).
pub const NO_PURPOSES: &str = "extKeyUsage names no purpose";

/// No certificate policy is among the extensions (RFC 6487, section 4.8.9).
pub const NO_POLICY: &str = "certificatePolicies is missing";

/// A policy is neither that of RFC 6487 nor that of RFC 8360.
pub const UNKNOWN_POLICY: &str =
    "policyIdentifier is neither that of RFC 6487 nor that of RFC 8360";

/// Resources stand in the extensions of the other policy (RFC 8360, section 4.2.2).
pub const RESOURCES_OF_OTHER_POLICY: &str = "resources stand in the extensions of the other policy";

/// No rsync URI is among the names of a distribution point (RFC 6487, section 4.8.6).
pub const NO_RSYNC_URI: &str = "distributionPoint has no rsync URI";
