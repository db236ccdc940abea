//! Verdicts that are looked up, in the place of cryptography.

ghost use Rattle.std.specs.Prelude.{◌≡◌, ◌∷◌, ◌++◌, ◌<◌, ◌^◌, ◌↔◌, ℕ, List, length, IsTrue};
ghost use Rattle.std.specs.Prelude.{MatchOption};
ghost use Rattle.sha2.specs.Hashers.{Holds256};
ghost use Rattle.sha2.specs.Sha256.{sha256};
ghost use Rattle.rpki_der.specs.Tags.{BIT_STRING};
ghost use Rattle.rpki_der.specs.Write.Encode.{IsLenOf};
ghost use Rattle.rpki_der.specs.Write.Written.{length_octets, value_octets, bit_string_contents};
ghost use Rattle.rpki_basics.specs.Key.{key_contents, key_octets};
ghost use Rattle.rpki_verdicts.specs.Verdicts.{digest_text};
ghost use Rattle.rpki_verdicts.specs.Listed.{IsListed, is_listed};

use crate::verdicts::{DIGITS, Verdicts, digest_text, lists, text_of};
use rpki_basics::{Crypto, Digest, PublicKey, RpkiSignature};
use rpki_der::encode::bit_string;
use rpki_der::{Encode, EncodeError};
use sha2::{Digest as _, Sha256};

/// What stands before the bits of a key in its SubjectPublicKeyInfo: rsaEncryption with a NULL (RFC
/// 3279, section 2.3.1).
const ALGORITHM: [u8; 15] = [
    0x30, 0x0D, 0x06, 0x09, 0x2A, 0x86, 0x48, 0x86, 0xF7, 0x0D, 0x01, 0x01, 0x01, 0x05, 0x00,
];

/// The identifier of a SEQUENCE.
const SEQUENCE_TAG: u8 = 0x30;

/// The identifier of a BIT STRING.
const BIT_STRING_TAG: u8 = 0x03;

/// Digests are SHA-256 (FIPS 180-4). A verdict is a yes where a line of the list has the digests of
/// the key as a SubjectPublicKeyInfo, of the message and of the signature. It takes no memory.
impl Crypto for Verdicts<'_> {
    ghost digest_of = { λ _ octets. sha256 octets };

    ghost is_signed = { λ lines key message signature. is_listed lines key message signature };

    fn digest(&self, octets: &[u8]) -> Digest {
        Digest::new(Sha256::digest(octets))
    }

    fn verify(&self, key: &PublicKey, message: &[u8], signature: &RpkiSignature) -> bool {
        is_listed(self, key.bits(), message, signature.value())
    }
}

/// Whether the list says yes to this signature of the message by the key with these bits.
fn is_listed(list: &Verdicts<'_>, key: &[u8], message: &[u8], signature: &[u8]) -> bool
    ensures { IsTrue result ↔ IsListed list.now key.now message.now signature.now }
{
    match key_text(key) {
        None => false,
        Some(key) => {
            let message = digest_text(message, &[]);
            let signature = digest_text(signature, &[]);
            lists(list.lines, &key, &message, &signature)
        }
    }
}

/// The digest of a key as a SubjectPublicKeyInfo, if it can be written as one.
fn key_text(bits: &[u8]) -> Option<[u8; DIGITS]>
    ensures { MatchOption result (length (key_contents bits.now) < 2 ^ 32 → ⊥)
        (λ text. (length (key_contents bits.now) < 2 ^ 32)
        × (text ≡ digest_text (key_octets bits.now))) }
{
    match key_len(bits) {
        None => None,
        Some(len) => Some(text_of(hash_key(bits, len).finalize())),
    }
}

/// How many contents octets a key has as a SubjectPublicKeyInfo, if it can be written as one.
fn key_len(bits: &[u8]) -> Option<u32>
    ensures { MatchOption result (length (key_contents bits.now) < 2 ^ 32 → ⊥)
        (λ n. n ≡ length (key_contents bits.now)) }
{
    match bits_len(bits) {
        Err(_) => None,
        Ok(len) => match u32::try_from(len + ALGORITHM.len() as u64) {
            Err(_) => None,
            Ok(len) => Some(len),
        },
    }
}

/// How many octets the bits of a key have as a BIT STRING, if they can be written as one.
fn bits_len(bits: &[u8]) -> Result<u64, EncodeError>
    ensures { IsLenOf (Unit {0}) (length (bit_string_contents bits.now 0) < 2 ^ 32)
        (value_octets BIT_STRING (bit_string_contents bits.now 0)) result }
{
    bit_string(bits, 0).encoded_len()
}

/// A hasher that has taken the octets of a key as a SubjectPublicKeyInfo, piece by piece.
fn hash_key(bits: &[u8], len: u32) -> Sha256
    requires { len ≡ length (key_contents bits.now) }
    ensures { Holds256 result (key_octets bits.now) }
{
    let mut hasher = Sha256::new();
    hash_header(&mut hasher, SEQUENCE_TAG, len);
    hasher.update(&ALGORITHM);
    hash_header(&mut hasher, BIT_STRING_TAG, bits.len() as u32 + 1);
    hasher.update(&[0]);
    hasher.update(bits);
    hasher
}

/// Takes an identifier and a length below 2^32, in its shortest form (X.690, sections 8.1.3 and
/// 10.1).
#[tactic(auto, unfolding(rpki_der::specs::Write::Written::length_octets))]
fn hash_header(hasher: &mut Sha256, identifier: u8, len: u32)
    ensures { (m : List ℕ) → Holds256 hasher.old m
        → Holds256 hasher.new (m ++ (identifier ∷ length_octets len)) }
{
    let b = len.to_be_bytes();
    if len < 0x80 {
        hasher.update(&[identifier, b[3]])
    } else if len < 0x100 {
        hasher.update(&[identifier, 0x81, b[3]])
    } else if len < 0x1_0000 {
        hasher.update(&[identifier, 0x82, b[2], b[3]])
    } else if len < 0x100_0000 {
        hasher.update(&[identifier, 0x83, b[1], b[2], b[3]])
    } else {
        hasher.update(&[identifier, 0x84, b[0], b[1], b[2], b[3]])
    }
}
