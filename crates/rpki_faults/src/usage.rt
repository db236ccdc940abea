//! What the key of a certificate is for.

/// What the key of a certificate is for (RFC 6487, section 4.8.4).
#[derive(Clone, Copy, Debug, PartialEq, Eq)]
pub enum KeyUsage {
    /// It signs certificates and revocation lists.
    Ca,
    /// It signs one object.
    Ee,
}
