//! What is asked.

use bytes::Bytes;
use rpki_basics::{ManifestRule, ProviderLimit, Time};

/// What an object is checked against: certificates, revocation lists, a moment and a manner.
#[derive(Drop)]
pub struct Question<'a> {
    /// The trust anchor's certificate.
    pub anchor: &'a Bytes,
    /// A trust anchor locator: that certificate has to have its key.
    pub locator: Option<&'a Bytes>,
    /// The certificates of the CAs below the trust anchor, each issued by the one before.
    pub chain: &'a [Bytes],
    /// Revocation lists, in any order. One that no CA of the chain signed has no effect.
    pub lists: &'a [Bytes],
    /// The moment at which all have to be valid.
    pub moment: Time,
    /// How objects are read.
    pub manner: Manner,
}

/// How objects are read.
#[derive(Clone, Copy, Debug, PartialEq, Eq)]
pub struct Manner {
    /// Whether they are in DER.
    pub strict: bool,
    /// Which names a manifest may have.
    pub names: ManifestRule,
    /// How many providers a customer may have.
    pub limit: ProviderLimit,
}
