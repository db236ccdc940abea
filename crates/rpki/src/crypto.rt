//! Keys, digests and signatures, and the traits of who computes these.

pub use rpki_basics::{
    AlgorithmEncoder, Crypto, Digest, DigestAlgorithm, KeyEncoder, KeyIdentifier, PublicKey,
    RpkiSignature, RpkiSignatureAlgorithm, Signer, SignerFault, SigningError, standin,
};

/// What is wrong with an algorithm.
pub mod faults {
    pub use rpki_basics::faults::UNKNOWN_ALGORITHM;
}

/// What the definitions of algorithms, of keys and of the stand-in say.
pub mod laws {
    pub use rpki_basics::laws::{
        algorithms, algorithms_are_written, keys, keys_are_written, octets_after_a_key_are_left,
        stand_in_verdicts,
    };
}
