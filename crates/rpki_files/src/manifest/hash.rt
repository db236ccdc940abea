//! The hash of a file that a manifest names.

ghost use Rattle.std.specs.Prelude.{◌≡◌, nat_eq, MatchResult, Some, codes};
ghost use Rattle.std.specs.Cmp.{partial_equiv_from_equiv};
ghost use Rattle.std.specs.Cmp.Lexicographic.{pointwise, nat_list_eq_equiv};
ghost use Rattle.rpki_basics.specs.declared.algorithm.DigestAlgorithm.TheVariants.{Sha256};
ghost use Rattle.rpki_faults.specs.declared.verification.VerificationError.{VerificationError};

use bytes::Bytes;
use rpki_basics::{Crypto, DigestAlgorithm};
use rpki_faults::VerificationError;
use std::alloc::AllocError;
use std::error::Error;
use std::fmt;
use std::hash::{Hash, Hasher};
use std::marker::Model;

/// The hash of a file that a manifest names, and its algorithm, which is SHA-256 (RFC 7935, section
/// 2).
#[derive(Debug, Drop)]
pub struct ManifestHash {
    hash: Bytes,
    algorithm: DigestAlgorithm,
}

impl Model for ManifestHash {
    ghost use Rattle.std.specs.Prelude.{ℕ, List};

    // The octets of the hash: there is one algorithm alone.
    ghost Value = { List ℕ };

    ghost view = { λ h. h.hash };
}

impl ManifestHash {
    /// The hash that these octets are. Nothing is hashed.
    pub fn new(hash: Bytes, algorithm: DigestAlgorithm) -> ManifestHash
        ensures { result ≡ hash }
    {
        ManifestHash { hash, algorithm }
    }

    /// Whether it is the hash of these octets (RFC 9286, section 4.2.1). Refuses where their digest
    /// is another one. It takes no memory.
    pub fn verify<C: Crypto>(&self, crypto: &C, octets: &[u8]) -> Result<(), ManifestHashMismatch>
        ensures { MatchResult result (λ _. C.digest_of crypto.now octets.now ≡ self.now)
            (λ _. C.digest_of crypto.now octets.now ≡ self.now → ⊥) }
    {
        let digest = crypto.digest(octets);
        if digest.as_slice() == self.hash.as_slice() {
            Ok(())
        } else {
            Err(ManifestHashMismatch)
        }
    }

    /// Its algorithm.
    pub fn algorithm(&self) -> DigestAlgorithm
        ensures { result ≡ Sha256 }
    {
        self.algorithm
    }

    /// Its octets.
    pub fn as_slice(&self) -> &[u8]
        ensures { result.now ≡ self.now }
    {
        self.hash.as_slice()
    }
}

impl PartialEq for ManifestHash {
    ghost eq = { pointwise nat_eq };

    ghost laws = { partial_equiv_from_equiv nat_list_eq_equiv };

    fn eq(&self, other: &ManifestHash) -> bool {
        self.as_slice() == other.as_slice()
    }
}

impl Eq for ManifestHash {
    ghost laws = { nat_list_eq_equiv };
}

/// By the octets, so that equal ones hash alike.
impl Hash for ManifestHash {
    ghost use Rattle.std.proofs.Common.{rules};
    ghost use Rattle.std.specs.Cmp.Rules.{hashing};
    ghost use Rattle.std.specs.Hash as fed;

    ghost hash_input = { λ h. fed.slice fed.u8 h };

    ghost respects_eq = { Prim.search (hashing, rules) };

    fn hash<H: Hasher>(&self, state: &mut H) {
        self.as_slice().hash(state);
    }
}

impl Clone for ManifestHash {
    ghost is_clone = { λ h copy. copy ≡ h };

    fn clone(&self) -> Result<ManifestHash, AllocError> {
        Ok(ManifestHash {
            hash: self.hash.clone()?,
            algorithm: self.algorithm,
        })
    }
}

/// The octets of a file have another digest than the manifest says.
#[derive(Clone, Copy, Debug)]
pub struct ManifestHashMismatch;

impl fmt::Display for ManifestHashMismatch {
    ghost output = { λ _. Some (codes "manifest hash mismatch") };

    fn fmt<W: fmt::Write>(&self, f: &mut fmt::Formatter<W>) -> fmt::Result {
        f.write_str("manifest hash mismatch")
    }
}

impl Error for ManifestHashMismatch {}

impl From<ManifestHashMismatch> for VerificationError {
    ghost from_gives = { λ _ error. error ≡ VerificationError.ManifestHash };

    fn from(_mismatch: ManifestHashMismatch) -> VerificationError {
        VerificationError::ManifestHash
    }
}
