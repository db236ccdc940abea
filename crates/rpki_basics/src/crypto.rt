//! What is asked of cryptography.

ghost use Rattle.std.specs.Prelude.{◌≡◌, ℕ, List, Bool};

use crate::digest::Digest;
use crate::key::PublicKey;
use crate::signature::RpkiSignature;

/// Digests and verdicts. Each is a function of the octets that are handed in.
pub trait Crypto {
    // The digest of octets.
    ghost digest_of: { Self → List ℕ → List ℕ };

    // Whether the key with these bits says yes to this signature of the message.
    ghost is_signed: { Self → List ℕ → List ℕ → List ℕ → Bool };

    /// The digest of octets.
    fn digest(&self, octets: &[u8]) -> Digest
        ensures { result ≡ digest_of self.now octets.now };

    /// Whether the key says yes to the signature of the message.
    fn verify(&self, key: &PublicKey, message: &[u8], signature: &RpkiSignature) -> bool
        ensures { result ≡ is_signed self.now key.now message.now signature.now };
}
