//! What is wrong with times, keys and signatures, in words.

/// The octets of a UTCTime or a GeneralizedTime are not in the form of DER (X.690, sections 11.7
/// and 11.8).
pub const BAD_TIME: &str = "time is not in the form of DER";

/// A time has a date that is in no calendar, or no such time of day (RFC 5280, section 4.1.2.5).
pub const NO_SUCH_TIME: &str = "there is no such date or time of day";

/// An algorithm is none of those that the profile names (RFC 7935, sections 2 and 3).
pub const UNKNOWN_ALGORITHM: &str = "algorithm is none that the profile names";
