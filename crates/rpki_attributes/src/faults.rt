//! What is wrong with signed attributes, in words.

/// A signed attribute stands more than once (RFC 6488, section 2.1.6.4).
pub const ATTRIBUTE_TWICE: &str = "signed attribute stands more than once";

/// No content type is among the signed attributes (RFC 6488, section 2.1.6.4.1).
pub const NO_CONTENT_TYPE: &str = "content-type attribute is missing";

/// No message digest is among the signed attributes (RFC 6488, section 2.1.6.4.2).
pub const NO_MESSAGE_DIGEST: &str = "message-digest attribute is missing";

/// No signing time is among the signed attributes. RFC 9589 asks for one in signed objects; that
/// one is asked for in messages too is this project's own rule.
pub const NO_SIGNING_TIME: &str = "signing-time attribute is missing";

/// The signed attributes have more than 65535 octets, which is this project's own rule.
pub const ATTRIBUTES_TOO_LONG: &str = "signedAttrs has more than 65535 octets";
