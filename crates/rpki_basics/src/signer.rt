//! What is asked of a signer.

ghost use Rattle.std.specs.Prelude.{◌≡◌, ◌↔◌, ℕ, List, IfOk};
ghost use Rattle.rpki_basics.specs.Signer.{CountsFault};
ghost use Rattle.rpki_basics.specs.declared.signer.SignerFault.TheVariants.{Memory};

use crate::algorithm::RpkiSignatureAlgorithm;
use crate::crypto::Crypto;
use crate::key::PublicKey;
use crate::signature::RpkiSignature;
use std::alloc::AllocError;
use std::error::Error;
use std::fmt;

/// Why a signer does not answer what was asked for.
#[derive(Debug, Drop)]
pub enum SignerFault<E> {
    /// It has no such key.
    KeyNotFound,
    /// The key is not one for this algorithm.
    IncompatibleKey,
    /// A fault of its own.
    Signer(E),
    /// No memory was to be had.
    Memory,
}

impl<E> From<AllocError> for SignerFault<E> {
    ghost from_gives = { λ _ fault. fault ≡ Memory };

    fn from(_e: AllocError) -> SignerFault<E> {
        SignerFault::Memory
    }
}

impl<E: fmt::Display> fmt::Display for SignerFault<E> {
    ghost use Rattle.rpki_basics.specs.Signer.{fault_text};

    ghost output = { λ fault. fault_text E.Display.output fault };

    fn fmt<W: fmt::Write>(&self, f: &mut fmt::Formatter<W>) -> fmt::Result {
        match self {
            SignerFault::KeyNotFound => f.write_str("key not found"),
            SignerFault::IncompatibleKey => f.write_str("incompatible key"),
            SignerFault::Signer(e) => e.fmt(f),
            SignerFault::Memory => f.write_str("out of memory"),
        }
    }
}

impl<E: Error> Error for SignerFault<E> {}

/// What holds private keys. The key of each name, which signatures may be answered, and which keys
/// are made to sign once, no call changes; nor does a call change the digests and the verdicts. A call that answers a fault other
/// than `Memory` raises the count of failed calls, and no other call does.
pub trait Signer: Crypto {
    /// What a key is named by.
    type KeyId;

    /// A fault of its own.
    type Error: Drop;

    // The bits of the public key that a name stands for.
    ghost key_of: { Self → Self.KeyId → List ℕ };

    // What may be answered as a signature, by the key with these bits, of this message.
    ghost may_sign: { Self → List ℕ → List ℕ → List ℕ → Type 0 };

    // Which keys, by their bits, are made to sign once: they have no name, and sign nothing else.
    ghost is_one_off: { Self → List ℕ → Type 0 };

    // How many calls have failed.
    ghost failures: { Self → ℕ };

    /// The public key that the name stands for. Refuses by a `SignerFault`; when, and by which, is
    /// the signer's own choice.
    fn get_key_info(&mut self, key: &Self::KeyId) -> Result<PublicKey, SignerFault<Self::Error>>
        ensures key { IfOk result (λ k. k ≡ key_of self.old key.now) }
        ensures keys { (k : Self.KeyId) → key_of self.new k ≡ key_of self.old k }
        ensures signs { (k m s : List ℕ) → may_sign self.new k m s ↔ may_sign self.old k m s }
        ensures digests { (m : List ℕ) → Self.digest_of self.new m ≡ Self.digest_of self.old m }
        ensures verdicts { (k m s : List ℕ) →
            Self.is_signed self.new k m s ≡ Self.is_signed self.old k m s }
        ensures once { (k : List ℕ) → is_one_off self.new k ↔ is_one_off self.old k }
        ensures cause { CountsFault (failures self.old) (failures self.new) result };

    /// A signature of the message by the key that the name stands for. Refuses as `get_key_info`
    /// does.
    fn sign(
        &mut self,
        key: &Self::KeyId,
        algorithm: RpkiSignatureAlgorithm,
        message: &[u8],
    ) -> Result<RpkiSignature, SignerFault<Self::Error>>
        ensures signed { IfOk result (λ s.
            may_sign self.old (key_of self.old key.now) message.now s) }
        ensures keys { (k : Self.KeyId) → key_of self.new k ≡ key_of self.old k }
        ensures signs { (k m s : List ℕ) → may_sign self.new k m s ↔ may_sign self.old k m s }
        ensures digests { (m : List ℕ) → Self.digest_of self.new m ≡ Self.digest_of self.old m }
        ensures verdicts { (k m s : List ℕ) →
            Self.is_signed self.new k m s ≡ Self.is_signed self.old k m s }
        ensures once { (k : List ℕ) → is_one_off self.new k ↔ is_one_off self.old k }
        ensures cause { CountsFault (failures self.old) (failures self.new) result };

    /// A signature of the message by a key that is made for it, and this key: one that signs
    /// nothing else (RFC 6487, section 3). Refuses as `get_key_info` does.
    fn sign_one_off(
        &mut self,
        algorithm: RpkiSignatureAlgorithm,
        message: &[u8],
    ) -> Result<(RpkiSignature, PublicKey), SignerFault<Self::Error>>
        ensures signed { IfOk result (λ p. may_sign self.old p.1 message.now p.0) }
        ensures one_off { IfOk result (λ p. is_one_off self.old p.1) }
        ensures keys { (k : Self.KeyId) → key_of self.new k ≡ key_of self.old k }
        ensures signs { (k m s : List ℕ) → may_sign self.new k m s ↔ may_sign self.old k m s }
        ensures digests { (m : List ℕ) → Self.digest_of self.new m ≡ Self.digest_of self.old m }
        ensures verdicts { (k m s : List ℕ) →
            Self.is_signed self.new k m s ≡ Self.is_signed self.old k m s }
        ensures once { (k : List ℕ) → is_one_off self.new k ↔ is_one_off self.old k }
        ensures cause { CountsFault (failures self.old) (failures self.new) result };
}
