//! Rows of verdicts, and a digest.

use super::encodings::ENCODINGS;
use super::kinds::KINDS;
use super::moduli::MODULI;
use super::numbers::NUMBERS;
use super::others::OTHERS;
use super::right::{MESSAGES, SIZES};
use bytes::Bytes;
use rpki_basics::{Crypto, PublicKey, RpkiSignature, RpkiSignatureAlgorithm};
use rpki_rsa::Rsa;

/// The digest of abc (FIPS 180-4, example of SHA-256).
static ABC: [u8; 32] = [
    0xBA, 0x78, 0x16, 0xBF, 0x8F, 0x01, 0xCF, 0xEA, 0x41, 0x41, 0x40, 0xDE, 0x5D, 0xAE, 0x22, 0x23,
    0xB0, 0x03, 0x61, 0xA3, 0x96, 0x17, 0x7A, 0x9C, 0xB4, 0x10, 0xFF, 0x61, 0xF2, 0x00, 0x15, 0xAD,
];

/// The verdict on a signature.
fn verdict(key: &'static [u8], message: &[u8], signature: &'static [u8]) -> bool {
    let key = PublicKey::from_bits(Bytes::from_static(key));
    let octets = Bytes::from_static(signature);
    let signature = RpkiSignature::new(RpkiSignatureAlgorithm::RsaSha256, octets);
    Rsa.verify(&key, message, &signature)
}

#[test]
fn signatures(rt: HostRuntime) {
    for rows in [SIZES.as_slice(), MESSAGES.as_slice()] {
        for (what, key, message, signature) in rows {
            assert!(rt; verdict(key, message, signature), "{what}");
        }
    }
}

#[test]
fn others(rt: HostRuntime) {
    for rows in [
        NUMBERS.as_slice(),
        KINDS.as_slice(),
        ENCODINGS.as_slice(),
        MODULI.as_slice(),
        OTHERS.as_slice(),
    ] {
        for (what, key, message, signature) in rows {
            assert!(rt; !verdict(key, message, signature), "{what}");
        }
    }
}

#[test]
fn digests(rt: HostRuntime) {
    assert!(rt; Rsa.digest(b"abc").as_slice() == ABC.as_slice());
}
