//! Signatures, as those who rely on signed objects test them.

ghost use Rattle.std.specs.Prelude.{◌≡◌, ◌↔◌, IsTrue, IfOk};
ghost use Rattle.rpki_attributes.specs.Attrs.Made.{message_of};
ghost use Rattle.rpki_rsa.specs.Signature.{IsRsaSignature};

use crate::attributes::message_for;
use rpki::crypto::{Crypto, Digest, PublicKey, RpkiSignature};
use rpki::rsa::Rsa;
use rpki::rsa::laws::verdicts;
use rpki::sigobj::SignedAttrs;
use std::alloc::{AllocError, Global};

/// Whether the key has signed the message, by RSASSA-PKCS1-v1_5 with SHA-256.
pub fn has_signed(key: &PublicKey, message: &[u8], signature: &RpkiSignature) -> bool
    ensures { IsTrue result ↔ IsRsaSignature key.now message.now signature.now }
{
    verdicts();
    Rsa.verify(key, message, signature)
}

/// Whether the attributes are those of a content with this digest, and the key has signed them.
pub fn has_signed_content(
    alloc: Global,
    key: &PublicKey,
    attrs: &SignedAttrs,
    digest: &Digest,
    signature: &RpkiSignature,
) -> Result<bool, AllocError>
    ensures { IfOk result (λ yes. IsTrue yes ↔
        ((attrs.now.attributes.message_digest ≡ digest.now)
        × IsRsaSignature key.now (message_of attrs.now.attributes) signature.now)) }
{
    match message_for(alloc, attrs, digest)? {
        None => Ok(false),
        Some(message) => Ok(has_signed(key, &message, signature)),
    }
}
