//! What becomes of numbers that the issuer has not.

/// What is done where a certificate claims more than its issuer has.
#[derive(Clone, Copy, Debug, PartialEq, Eq)]
pub enum Overclaim {
    /// The certificate is refused (RFC 6487, section 7.2).
    Refuse,
    /// The claim is trimmed to what the issuer has (RFC 8360, section 4.2.4.4).
    Trim,
}
