//! What is wrong with signed objects, in words.

/// The content type of the signed attributes is not that of the content (RFC 6488, section
/// 2.1.6.4.1).
pub const WRONG_CONTENT_TYPE: &str = "content-type attribute is not the eContentType";

/// The type of the content is not the one that is asked for.
pub const OTHER_CONTENT_TYPE: &str = "eContentType is not the one that is asked for";
