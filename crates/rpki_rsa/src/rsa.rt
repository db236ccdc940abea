//! Verdicts that are computed.

ghost use Rattle.std.specs.Prelude.{◌↔◌, IsTrue};
ghost use Rattle.sha2.specs.Sha256.{sha256};
ghost use Rattle.rpki_rsa.specs.Signature.{IsRsaSignature, is_rsa_signature};

use crate::key::modulus_of;
use crate::signature::is_signature;
use rpki_basics::{Crypto, Digest, PublicKey, RpkiSignature};
use sha2::{Digest as _, Sha256};

/// The cryptography of the RPKI (RFC 7935, section 2): digests are SHA-256 (FIPS 180-4), and
/// signatures are RSASSA-PKCS1-v1_5 with SHA-256 (RFC 8017, section 8.2.2).
///
/// A verdict is a yes where the key's bits are, in DER, the SEQUENCE of an odd modulus of 2048 to
/// 4096 bits and of the exponent 65537, the signature has as many octets as the modulus, its number
/// is below the modulus, and its 65537th power modulo the modulus is the number of the encoded
/// message. All else is a no.
#[derive(Clone, Copy, Debug)]
pub struct Rsa;

impl Crypto for Rsa {
    ghost digest_of = { λ _ octets. sha256 octets };

    ghost is_signed = { λ _ key message signature. is_rsa_signature key message signature };

    fn digest(&self, octets: &[u8]) -> Digest {
        Digest::new(Sha256::digest(octets))
    }

    fn verify(&self, key: &PublicKey, message: &[u8], signature: &RpkiSignature) -> bool {
        is_signed_by(key.bits(), message, signature.value())
    }
}

// Whether the key with these bits says yes to the signature of the message.
fn is_signed_by(key: &[u8], message: &[u8], signature: &[u8]) -> bool
    ensures { IsTrue result ↔ IsRsaSignature key.now message.now signature.now }
{
    match modulus_of(key) {
        Some(modulus) => is_signature(modulus, message, signature),
        None => false,
    }
}
