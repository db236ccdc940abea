//! The families of number resources.

/// A family of number resources (RFC 3779, sections 2 and 3).
#[derive(Clone, Copy, Debug, PartialEq, Eq)]
pub enum Family {
    /// AS numbers.
    As,
    /// IPv4 addresses.
    V4,
    /// IPv6 addresses.
    V6,
}
