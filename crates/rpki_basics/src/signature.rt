//! Signatures.

ghost use Rattle.std.specs.Prelude.{◌≡◌};
ghost use Rattle.rpki_basics.specs.declared.algorithm.RpkiSignatureAlgorithm.TheVariants.{
  RsaSha256,
};

use crate::algorithm::RpkiSignatureAlgorithm;
use bytes::Bytes;
use std::alloc::AllocError;
use std::marker::Model;

/// A signature: its algorithm, of which there is one, and its octets.
#[derive(Debug, Drop)]
pub struct RpkiSignature {
    algorithm: RpkiSignatureAlgorithm,
    value: Bytes,
}

impl Model for RpkiSignature {
    ghost use Rattle.std.specs.Prelude.{ℕ, List};

    ghost Value = { List ℕ };

    ghost view = { λ s. s.value };
}

impl RpkiSignature {
    /// The signature with these octets.
    pub fn new(algorithm: RpkiSignatureAlgorithm, value: Bytes) -> RpkiSignature
        ensures { result ≡ value }
    {
        RpkiSignature { algorithm, value }
    }

    /// Its algorithm.
    pub fn algorithm(&self) -> RpkiSignatureAlgorithm
        ensures { result ≡ RsaSha256 }
    {
        self.algorithm
    }

    /// Its octets.
    pub fn value(&self) -> &[u8]
        ensures { result.now ≡ self.now }
    {
        self.value.as_slice()
    }
}

impl Clone for RpkiSignature {
    ghost is_clone = { λ s copy. copy ≡ s };

    fn clone(&self) -> Result<RpkiSignature, AllocError> {
        let value = self.value.clone()?;
        Ok(RpkiSignature {
            algorithm: self.algorithm,
            value,
        })
    }
}
