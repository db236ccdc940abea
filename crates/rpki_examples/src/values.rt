//! Times, keys and names, and cryptography of one's own.

ghost use Rattle.std.specs.Prelude.{◌≡◌, ◌&&◌, ℕ, List, MatchResult, Some, nat_le, bytes_eq};
ghost use Rattle.sha1.specs.Sha1.{sha1};
ghost use Rattle.rpki_der.specs.declared.mode.Mode.TheVariants.{Der};
ghost use Rattle.rpki_der.specs.declared.encode.EncodeError.TheVariants.{Memory};
ghost use Rattle.rpki_der.specs.declared.error.DecodeError.{DecodeError};
ghost use Rattle.rpki_der.specs.Grammar.{Front, HasNoFront};
ghost use Rattle.rpki_der.specs.Read.Parse.{◌>>=◌ as ◌and_then◌};
ghost use Rattle.rpki_der.specs.Read.Reads.{Found, Reads, Refuses};
ghost use Rattle.rpki_basics.specs.Key.{KeyForm};
ghost use Rattle.rpki_basics.specs.Name.{key_name_octets};
ghost use Rattle.rpki_basics.specs.Moment.{stamp};
ghost use Rattle.rpki_basics.specs.Time.Read.{time_at};

use bytes::Bytes;
use rpki::crypto::{Crypto, Digest, KeyIdentifier, PublicKey, RpkiSignature};
use rpki::der::{Constructed, DecodeError, Encode, EncodeError, Mode};
use rpki::x509::laws::times_are_written;
use rpki::x509::{Time, Validity};
use std::alloc::Global;
use std::marker::Model;

/// Reads two times, one after the other, as those of a validity (RFC 5280, section 4.1.2.5).
pub fn take_times(cons: &mut Constructed<'_>) -> Result<(Time, Time), DecodeError>
    ensures { Reads (λ times. times) (λ mode octets. (time_at mode octets) and_then
        (λ first. (time_at mode first.1) and_then
        (λ second. Some ((first.0, second.0), second.1)))) cons.old result cons.new }
{
    let first = Time::take_from(cons)?;
    let second = Time::take_from(cons)?;
    Ok((first, second))
}

/// The UTCTime `500101000000Z`: from 50 on, the two digits of the year stand for one of the
/// twentieth century (RFC 5280, section 4.1.2.5.1). Only memory may be wanting.
pub fn earliest_utc_time() -> Result<Time, DecodeError>
    ensures { MatchResult result (λ time. time ≡ record {
      year = 1950;
      month = 1;
      day = 1;
      hour = 0;
      minute = 0;
      second = 0;
    }) (λ error. error ≡ DecodeError.Memory) }
{
    times_are_written();
    read_time(Bytes::from_static(b"\x17\x0D500101000000Z"))
}

// Reads the time at the front.
fn read_time(octets: Bytes) -> Result<Time, DecodeError>
    ensures { Found (λ t. t) (time_at Der octets) result }
{
    Constructed::decode(octets, Mode::Der, |cons| Time::take_from(cons))
}

/// Whether a moment lies between the ends of a validity, or is one of them.
pub fn is_valid_at(validity: Validity, now: Time) -> bool
    ensures { result ≡ (nat_le (stamp validity.not_before) (stamp now)
        && nat_le (stamp now) (stamp validity.not_after)) }
{
    validity.not_before() <= now && now <= validity.not_after()
}

/// The identifier of the key at the front of octets in DER.
pub fn identifier_in(octets: Bytes) -> Result<KeyIdentifier, DecodeError>
    ensures { MatchResult result
        (λ identifier. (bits rest : List ℕ) × Front (KeyForm Der) octets bits rest
        × (identifier ≡ sha1 bits))
        (λ error. Refuses error (HasNoFront (KeyForm Der) octets)) }
{
    let key = PublicKey::decode(octets)?;
    Ok(key.key_identifier())
}

/// The octets of the name of a key. Only memory may be wanting.
pub fn name_of(alloc: Global, key: &PublicKey) -> Result<Vec<u8>, EncodeError>
    ensures { MatchResult result (λ octets. octets.items ≡ key_name_octets (sha1 key.now))
        (λ error. error ≡ Memory) }
{
    match key.to_subject_name(alloc) {
        Ok(name) => name.encode_ref().to_bytes(alloc),
        Err(_) => Err(EncodeError::Memory),
    }
}

/// Cryptography that says yes to signatures by one key alone.
#[derive(Drop)]
pub struct Pinned<C> {
    crypto: C,
    key: PublicKey,
}

impl<C> Model for Pinned<C> {
    ghost use Rattle.std.specs.Prelude.{ℕ, List};

    // The cryptography, and the bits of the key.
    ghost Value = { C × List ℕ };

    ghost view = { λ p. (p.crypto, p.key) };
}

impl<C> Pinned<C> {
    /// What says yes to signatures by this key, where this cryptography does.
    pub fn new(crypto: C, key: PublicKey) -> Pinned<C>
        ensures { result ≡ (crypto, key) }
    {
        Pinned { crypto, key }
    }
}

impl<C: Crypto> Crypto for Pinned<C> {
    ghost digest_of = { λ p octets. C.digest_of p.0 octets };

    ghost is_signed = { λ p key message signature.
        bytes_eq key p.1 && C.is_signed p.0 key message signature };

    fn digest(&self, octets: &[u8]) -> Digest {
        self.crypto.digest(octets)
    }

    fn verify(&self, key: &PublicKey, message: &[u8], signature: &RpkiSignature) -> bool {
        *key == self.key && self.crypto.verify(key, message, signature)
    }
}
