//! What is wrong with the contents of ROAs and ASPAs, in words.

/// A prefix is longer than the addresses of its family (RFC 9582, section 4.3).
pub const PREFIX_TOO_LONG: &str = "prefix is longer than an address of its family";

/// A max length is below that of its prefix, or above that of the addresses (RFC 9582, section
/// 4.3).
pub const MAX_LENGTH_OUT_OF_RANGE: &str =
    "maxLength is below the length of the prefix or above that of an address";

/// The customer of an ASPA is AS0 (draft-ietf-sidrops-aspa-profile-15, section 3).
pub const CUSTOMER_AS0: &str = "customer is AS0";

/// An ASPA names no provider (draft-ietf-sidrops-aspa-profile-15, section 3).
pub const NO_PROVIDERS: &str = "there is no provider AS number";

/// An ASPA names more providers than the limit in use, which is this project's own rule.
pub const TOO_MANY_PROVIDERS: &str = "too many provider AS numbers";

/// The providers of an ASPA don't stand in ascending order (draft-ietf-sidrops-aspa-profile-15,
/// section 3).
pub const PROVIDERS_NOT_ASCENDING: &str = "provider AS numbers are not in ascending order";

/// The customer of an ASPA is one of its providers (draft-ietf-sidrops-aspa-profile-15, section 3).
pub const CUSTOMER_AMONG_PROVIDERS: &str = "customer is one of its provider AS numbers";

/// AS0 is a provider beside others (draft-ietf-sidrops-aspa-profile-15, section 3).
pub const AS0_BESIDE_OTHERS: &str = "AS0 stands beside other provider AS numbers";
