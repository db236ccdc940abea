//! What is written, copied, named and signed, each call to its exact answer.

use super::reading::{KEY, NAME, RSA_NULL, RSA_SHA_256_NULL, SHA_256, SHORT_KEY};
use crate::reads::{All, are_octets, is_written};
use bytes::Bytes;
use rpki_basics::standin::{Refused, StandIn, StandInSigner};
use rpki_basics::{
    Crypto, DigestAlgorithm, KeyIdentifier, PublicKey, RpkiSignatureAlgorithm, Signer, SignerFault,
    Time,
};
use rpki_der::DecodeError;
use std::alloc::{AllocError, Global};

/// Bits, and their SHA-1 (FIPS 180-4). The last two are in RFC 3174, section 7.3, and no bits in
/// NIST's vectors of short messages.
static IDENTIFIERS: [(&[u8], &str); 3] = [
    (b"", "DA39A3EE5E6B4B0D3255BFEF95601890AFD80709"),
    (b"abc", "A9993E364706816ABA3E25717850C26C9CD0D89D"),
    (
        b"abcdbcdecdefdefgefghfghighijhijkijkljklmklmnlmnomnopnopq",
        "84983E441C3BD26EBAAE4AA1F95129E5E54670F1",
    ),
];

/// Whether these are the identifiers of keys with these bits.
fn are_identifiers(alloc: Global) -> Result<bool, AllocError> {
    for (bits, want) in &IDENTIFIERS {
        let identifier = KeyIdentifier::of(bits);
        if PublicKey::from_bits(Bytes::from_static(bits)).key_identifier() != identifier
            || identifier.to_string(alloc)?.as_str() != *want
        {
            return Ok(false);
        }
    }
    Ok(true)
}

/// Whether algorithms, and a time that is not to be a UTCTime, are written so.
fn are_written(alloc: Global) -> Result<bool, AllocError> {
    let Some(time) = Time::utc(2024, 1, 8, 0, 0, 0) else {
        return Ok(false);
    };
    let algorithm = RpkiSignatureAlgorithm::default();
    All::new()
        .and(is_written(alloc, &DigestAlgorithm::sha256().encode_ref(), SHA_256))
        .and(is_written(alloc, &algorithm.encode_cms(), RSA_NULL))
        .and(is_written(alloc, &algorithm.encode_cert(), RSA_SHA_256_NULL))
        .and(is_written(
            alloc,
            &time.encode_generalized(),
            b"\x18\x0F20240108000000Z",
        ))
        .end()
}

/// The key that was read without a NULL. Want of memory is handed on.
fn key(alloc: Global) -> Result<Option<PublicKey>, AllocError> {
    match PublicKey::decode(Bytes::copy_from_slice(alloc, SHORT_KEY)?) {
        Ok(key) => Ok(Some(key)),
        Err(DecodeError::Memory) => Err(AllocError),
        Err(_) => Ok(None),
    }
}

/// Whether the copy of the name of a key is written so.
fn is_named(alloc: Global, key: &PublicKey) -> Result<bool, AllocError> {
    let name = key.to_subject_name(alloc)?.clone()?;
    is_written(alloc, &name.encode_ref(), NAME)
}

/// Whether the copy of the key is written with a NULL, and has this name.
fn is_key(alloc: Global) -> Result<bool, AllocError> {
    match key(alloc)? {
        None => Ok(false),
        Some(key) => {
            let key = key.clone()?;
            All::new()
                .and(are_octets(key.to_info_bytes(alloc), KEY))
                .and(is_named(alloc, &key))
                .end()
        }
    }
}

/// Whether what the key 7 signs, and what is signed once, are good signatures.
fn is_signed(alloc: Global) -> Result<bool, SignerFault<Refused>> {
    let algorithm = RpkiSignatureAlgorithm::default();
    let mut signer = StandInSigner::new(alloc);
    let key = signer.get_key_info(&7)?;
    let is_good = StandIn.verify(&key, b"abc", &signer.sign(&7, algorithm, b"abc")?.clone()?);
    drop(key);
    let (signature, key) = signer.sign_one_off(algorithm, b"abc")?;
    Ok(is_good && StandIn.verify(&key, b"abc", &signature))
}

#[test]
fn values(rt: HostRuntime) -> Result<(), AllocError> {
    let alloc = rt.alloc();
    let all = All::new()
        .and(are_identifiers(alloc))
        .and(are_written(alloc))
        .and(is_key(alloc));
    assert!(rt; all.end()?);
    match is_signed(alloc) {
        Ok(is_signed) => assert!(rt; is_signed),
        Err(SignerFault::Memory) => return Err(AllocError),
        Err(_) => assert!(rt; false),
    }
    Ok(())
}
