//! A hardware module as a signer.

ghost use Rattle.std.specs.Prelude.{◌≡◌, ◌↔◌, ℕ, List, IfOk};
ghost use Rattle.sha2.specs.Sha256.{sha256};
ghost use Rattle.rpki_rsa.specs.Signature.{is_rsa_signature};

use bytes::Bytes;
use rpki::crypto::{
    Crypto, Digest, PublicKey, RpkiSignature, RpkiSignatureAlgorithm, Signer, SignerFault,
};
use rpki::der::Count;
use rpki::rsa::Rsa;
use std::marker::Model;

/// A key that signed one message, by its bits, and the signature.
#[derive(Drop)]
pub struct OneOff {
    pub bits: Bytes,
    pub signature: Bytes,
}

/// A module that keeps private keys in slots, as its maker describes it: nothing proves that it
/// does what stands here.
pub trait HardwareModule {
    /// Why a call fails.
    type Error: Drop;

    // The bits of the public key in a slot.
    ghost bits_in: { Self → ℕ → List ℕ };

    // What it may answer as a signature, by the key with these bits, of this message.
    ghost may_sign: { Self → List ℕ → List ℕ → List ℕ → Type 0 };

    // Which keys, by their bits, it makes to sign once.
    ghost is_one_off: { Self → List ℕ → Type 0 };

    /// The bits of the public key in a slot, an RSAPublicKey (RFC 8017, appendix A.1.1).
    fn key(&mut self, slot: u32) -> Result<Bytes, Self::Error>
        ensures key { IfOk result (λ bits. bits ≡ bits_in self.old slot) }
        ensures slots { (n : ℕ) → bits_in self.new n ≡ bits_in self.old n }
        ensures signs { (k m s : List ℕ) → may_sign self.new k m s ↔ may_sign self.old k m s }
        ensures once { (k : List ℕ) → is_one_off self.new k ↔ is_one_off self.old k };

    /// A signature of the message by the key in a slot, by RSASSA-PKCS1-v1_5 with SHA-256 (RFC
    /// 8017, section 8.2).
    fn sign(&mut self, slot: u32, message: &[u8]) -> Result<Bytes, Self::Error>
        ensures signed { IfOk result
            (λ s. may_sign self.old (bits_in self.old slot) message.now s) }
        ensures slots { (n : ℕ) → bits_in self.new n ≡ bits_in self.old n }
        ensures signs { (k m s : List ℕ) → may_sign self.new k m s ↔ may_sign self.old k m s }
        ensures once { (k : List ℕ) → is_one_off self.new k ↔ is_one_off self.old k };

    /// Makes a key, signs the message with it, and destroys its private half.
    fn sign_once(&mut self, message: &[u8]) -> Result<OneOff, Self::Error>
        ensures signed { IfOk result
            (λ o. may_sign self.old o.bits message.now o.signature) }
        ensures one_off { IfOk result (λ o. is_one_off self.old o.bits) }
        ensures slots { (n : ℕ) → bits_in self.new n ≡ bits_in self.old n }
        ensures signs { (k m s : List ℕ) → may_sign self.new k m s ↔ may_sign self.old k m s }
        ensures once { (k : List ℕ) → is_one_off self.new k ↔ is_one_off self.old k };
}

/// A module as a signer. Keys are named by their slots; digests and verdicts are made here.
#[derive(Drop)]
pub struct ModuleSigner<M> {
    device: M,
    failures: Count,
}

impl<M> Model for ModuleSigner<M> {
    ghost use Rattle.std.specs.Prelude.{ℕ};

    // The module, and how many of its calls failed.
    ghost Value = { M × ℕ };

    ghost view = { λ s. (s.device, s.failures.number) };
}

impl<M> ModuleSigner<M> {
    /// A signer over this module.
    pub fn new(device: M) -> ModuleSigner<M>
        ensures { result ≡ (device, 0) }
    {
        ModuleSigner {
            device,
            failures: Count::zero(),
        }
    }
}

impl<M: HardwareModule> Crypto for ModuleSigner<M> {
    ghost digest_of = { λ _ octets. sha256 octets };

    ghost is_signed = { λ _ key message signature. is_rsa_signature key message signature };

    fn digest(&self, octets: &[u8]) -> Digest {
        Rsa.digest(octets)
    }

    fn verify(&self, key: &PublicKey, message: &[u8], signature: &RpkiSignature) -> bool {
        Rsa.verify(key, message, signature)
    }
}

impl<M: HardwareModule> Signer for ModuleSigner<M> {
    type KeyId = u32;

    type Error = M::Error;

    ghost key_of = { λ s slot. M.bits_in s.0 slot };

    ghost may_sign = { λ s key message signature. M.may_sign s.0 key message signature };

    ghost is_one_off = { λ s key. M.is_one_off s.0 key };

    ghost failures = { λ s. s.1 };

    fn get_key_info(&mut self, key: &u32) -> Result<PublicKey, SignerFault<M::Error>> {
        match self.device.key(*key) {
            Ok(bits) => Ok(PublicKey::from_bits(bits)),
            Err(fault) => {
                self.failures = self.failures.next();
                Err(SignerFault::Signer(fault))
            }
        }
    }

    fn sign(
        &mut self,
        key: &u32,
        algorithm: RpkiSignatureAlgorithm,
        message: &[u8],
    ) -> Result<RpkiSignature, SignerFault<M::Error>> {
        match self.device.sign(*key, message) {
            Ok(signature) => Ok(RpkiSignature::new(algorithm, signature)),
            Err(fault) => {
                self.failures = self.failures.next();
                Err(SignerFault::Signer(fault))
            }
        }
    }

    fn sign_one_off(
        &mut self,
        algorithm: RpkiSignatureAlgorithm,
        message: &[u8],
    ) -> Result<(RpkiSignature, PublicKey), SignerFault<M::Error>> {
        match self.device.sign_once(message) {
            Ok(OneOff { bits, signature }) => {
                let signature = RpkiSignature::new(algorithm, signature);
                Ok((signature, PublicKey::from_bits(bits)))
            }
            Err(fault) => {
                self.failures = self.failures.next();
                Err(SignerFault::Signer(fault))
            }
        }
    }
}
