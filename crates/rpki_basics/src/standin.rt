//! A stand-in for cryptography, for tests: it keeps no secret.

ghost use Rattle.std.specs.Prelude.{◌≡◌, ◌++◌, ◌+◌, ◌^◌, IfOk};
ghost use Rattle.std.specs.Int.{w64, to_be_bytes};
ghost use Rattle.sha2.specs.Sha256.{sha256};
ghost use Rattle.rpki_basics.specs.StandIn.{IsStandInKey, IsStandInSignature};
ghost use Rattle.rpki_basics.specs.StandIn.{is_stand_in_signature};
ghost use Rattle.rpki_basics.specs.Signer.{CountsFault};
ghost use Rattle.rpki_basics.specs.StandIn.{is_told, after_call, after_one_off, FailsAsTold};

use crate::algorithm::RpkiSignatureAlgorithm;
use crate::crypto::Crypto;
use crate::digest::Digest;
use crate::key::PublicKey;
use crate::signature::RpkiSignature;
use crate::signer::{Signer, SignerFault};
use bytes::Bytes;
use rpki_der::Count;
use sha2::{Digest as _, Sha256};
use std::alloc::{AllocError, Global};
use std::error::Error;
use std::fmt;
use std::marker::Model;

/// Digests are SHA-256 (FIPS 180-4). The signature of a message is the digest of the key's bits
/// followed by the message.
#[derive(Clone, Copy, Debug)]
pub struct StandIn;

impl Crypto for StandIn {
    ghost digest_of = { λ _ octets. sha256 octets };

    ghost is_signed = { λ _ key message signature. is_stand_in_signature key message signature };

    fn digest(&self, octets: &[u8]) -> Digest {
        Digest::new(Sha256::digest(octets))
    }

    fn verify(&self, key: &PublicKey, message: &[u8], signature: &RpkiSignature) -> bool {
        let wanted = digest_of_two(key.bits(), message);
        signature.value() == wanted.as_slice()
    }
}

// The digest of octets followed by others.
fn digest_of_two(first: &[u8], second: &[u8]) -> Digest
    ensures { result ≡ sha256 (first.now ++ second.now) }
{
    let mut hasher = Sha256::new();
    hasher.update(first);
    hasher.update(second);
    Digest::new(hasher.finalize())
}

/// That a call was told to fail.
#[derive(Clone, Copy, Debug)]
pub struct Refused;

impl fmt::Display for Refused {
    ghost use Rattle.std.specs.Prelude.{Some, codes};

    ghost output = { λ _. Some (codes "told to fail") };

    fn fmt<W: fmt::Write>(&self, f: &mut fmt::Formatter<W>) -> fmt::Result {
        f.write_str("told to fail")
    }
}

impl Error for Refused {}

/// A signer whose signatures the stand-in takes. Key n has the eight octets of n as its bits, the
/// highest one first; the keys that sign once are numbered from 2^32 on.
#[derive(Drop)]
pub struct StandInSigner {
    alloc: Global,
    next: u64,
    fails_in: u64,
    failures: Count,
}

impl Model for StandInSigner {
    ghost use Rattle.rpki_basics.specs.StandIn.{Turns};

    ghost Value = { Turns };

    ghost view = { λ s. record {
      next = s.next;
      fails_in = s.fails_in;
      failures = s.failures.number;
    } };
}

impl StandInSigner {
    /// A signer of which no call fails, unless memory runs out.
    pub fn new(alloc: Global) -> StandInSigner
        ensures { result ≡ record { next = 2 ^ 32; fails_in = 0; failures = 0 } }
    {
        StandInSigner::failing_at(alloc, 0)
    }

    /// A signer whose call with this number fails, counted from 1; of which none fails for 0.
    pub fn failing_at(alloc: Global, call: u64) -> StandInSigner
        ensures { result ≡ record { next = 2 ^ 32; fails_in = call; failures = 0 } }
    {
        StandInSigner {
            alloc,
            next: 1 << 32,
            fails_in: call,
            failures: Count::zero(),
        }
    }

    // Whether this call is to fail, which is counted.
    fn fails(&mut self) -> bool
        ensures told { result ≡ is_told self.old }
        ensures after { self.new ≡ after_call self.old self.old.next }
    {
        if self.fails_in == 1 {
            self.fails_in = 0;
            let failures = self.failures.next();
            self.failures = failures;
            return true;
        }
        if self.fails_in > 1 {
            self.fails_in -= 1;
        }
        false
    }
}

// The signature of the message by the key with these bits.
fn signature_of(
    alloc: Global,
    bits: &[u8],
    algorithm: RpkiSignatureAlgorithm,
    message: &[u8],
) -> Result<RpkiSignature, AllocError>
    ensures { IfOk result (λ s. s ≡ sha256 (bits.now ++ message.now)) }
{
    let digest = digest_of_two(bits, message);
    let value = Bytes::copy_from_slice(alloc, digest.as_slice())?;
    Ok(RpkiSignature::new(algorithm, value))
}

// The key with this number.
fn key_of(alloc: Global, number: u64) -> Result<PublicKey, AllocError>
    ensures { IfOk result (λ k. k ≡ to_be_bytes w64 number) }
{
    let bits = Bytes::copy_from_slice(alloc, &number.to_be_bytes())?;
    Ok(PublicKey::from_bits(bits))
}

impl Crypto for StandInSigner {
    ghost digest_of = { λ _ octets. sha256 octets };

    ghost is_signed = { λ _ key message signature. is_stand_in_signature key message signature };

    fn digest(&self, octets: &[u8]) -> Digest {
        StandIn.digest(octets)
    }

    fn verify(&self, key: &PublicKey, message: &[u8], signature: &RpkiSignature) -> bool {
        StandIn.verify(key, message, signature)
    }
}

impl Signer for StandInSigner {
    type KeyId = u64;

    type Error = Refused;

    ghost key_of = { λ _ number. to_be_bytes w64 number };

    ghost may_sign = { λ _ key message signature.
        IsStandInKey key × IsStandInSignature key message signature };

    ghost is_one_off = { λ _ key. IsStandInKey key };

    ghost failures = { λ s. s.failures };

    fn get_key_info(&mut self, key: &u64) -> Result<PublicKey, SignerFault<Refused>>
        ensures key { IfOk result (λ k. k ≡ to_be_bytes w64 key.now) }
        ensures cause { CountsFault self.old.failures self.new.failures result }
        ensures told { FailsAsTold self.old result }
        ensures after { self.new ≡ after_call self.old self.old.next }
    {
        if self.fails() {
            return Err(SignerFault::Signer(Refused));
        }
        match key_of(self.alloc, *key) {
            Ok(info) => Ok(info),
            Err(_) => Err(SignerFault::Memory),
        }
    }

    fn sign(
        &mut self,
        key: &u64,
        algorithm: RpkiSignatureAlgorithm,
        message: &[u8],
    ) -> Result<RpkiSignature, SignerFault<Refused>>
        ensures signed { IfOk result (λ s. IsStandInKey (to_be_bytes w64 key.now)
            × IsStandInSignature (to_be_bytes w64 key.now) message.now s) }
        ensures cause { CountsFault self.old.failures self.new.failures result }
        ensures told { FailsAsTold self.old result }
        ensures after { self.new ≡ after_call self.old self.old.next }
    {
        if self.fails() {
            return Err(SignerFault::Signer(Refused));
        }
        match signature_of(self.alloc, &key.to_be_bytes(), algorithm, message) {
            Ok(signature) => Ok(signature),
            Err(_) => Err(SignerFault::Memory),
        }
    }

    fn sign_one_off(
        &mut self,
        algorithm: RpkiSignatureAlgorithm,
        message: &[u8],
    ) -> Result<(RpkiSignature, PublicKey), SignerFault<Refused>>
        ensures signed { IfOk result (λ p.
            IsStandInKey p.1 × IsStandInSignature p.1 message.now p.0) }
        ensures one_off { IfOk result (λ p. IsStandInKey p.1) }
        ensures key { IfOk result (λ p. p.1 ≡ to_be_bytes w64 self.old.next) }
        ensures cause { CountsFault self.old.failures self.new.failures result }
        ensures told { FailsAsTold self.old result }
        ensures after { self.new ≡ after_one_off self.old }
    {
        if self.fails() {
            return Err(SignerFault::Signer(Refused));
        }
        let number = self.next;
        self.next = number.wrapping_add(1);
        let Ok(info) = key_of(self.alloc, number) else {
            return Err(SignerFault::Memory);
        };
        match signature_of(self.alloc, info.bits(), algorithm, message) {
            Ok(signature) => Ok((signature, info)),
            Err(_) => Err(SignerFault::Memory),
        }
    }
}
