//! What is wrong with sets of numbers, in words.

/// A block's lower end is above its upper end (RFC 3779, sections 2.2.3.9 and 3.2.3.8).
pub const LOWER_END_ABOVE_UPPER_END: &str = "lower end of a block is above its upper end";

/// An address or a prefix has more bits than the addresses of its family (RFC 3779, section
/// 2.2.3.8).
pub const ADDRESS_TOO_LONG: &str = "address or prefix has more bits than an address of its family";

/// A family of addresses is neither IPv4 nor IPv6 (RFC 3779, section 2.2.3.3).
pub const UNKNOWN_FAMILY: &str = "addressFamily is neither IPv4 nor IPv6";

/// A family of addresses is named more than once (RFC 3779, section 2.2.3.3).
pub const FAMILY_TWICE: &str = "addressFamily is named more than once";

/// Routing domain identifiers are named (RFC 6487, section 4.8.11).
pub const ROUTING_DOMAINS: &str = "routing domain identifiers (rdi) are present";
