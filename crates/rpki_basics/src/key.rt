//! Public keys.

ghost use Rattle.std.specs.Prelude.{◌≡◌, nat_eq, ◌<◌, ◌^◌, length};
ghost use Rattle.std.specs.Cmp.{partial_equiv_from_equiv};
ghost use Rattle.std.specs.Cmp.Lexicographic.{pointwise, nat_list_eq_equiv};
ghost use Rattle.sha1.specs.Sha1.{sha1};
ghost use Rattle.rpki_der.specs.declared.mode.Mode.TheVariants.{Der};
ghost use Rattle.rpki_der.specs.Write.Encode.{IsBytesOf};
ghost use Rattle.rpki_der.specs.Write.Parts.{contents_small};
ghost use Rattle.rpki_der.specs.Read.Reads.{Reads, Found, Stays};
ghost use Rattle.rpki_der.specs.Form.Decodes.{Decodes, DecodesNext};
ghost use Rattle.rpki_der.specs.Tags.{SEQUENCE};
ghost use Rattle.rpki_basics.specs.Key.{KeyForm, key_fields_at, key_at, key_contents, key_octets};

use crate::algorithm::{RSA_ENCRYPTION, RpkiSignatureAlgorithm, skip_algorithm};
use crate::identifier::KeyIdentifier;
use bytes::Bytes;
use rpki_der::encode::{bit_string, sequence};
use rpki_der::laws::slices_hold_octets;
use rpki_der::{Constructed, DecodeError, Encode, EncodeError, Mode, Sink, SinkFailed};
use std::alloc::{AllocError, Global};
use std::marker::Model;

/// An RSA key (RFC 7935, section 3). What its bits mean is left to cryptography.
#[derive(Debug, Drop)]
pub struct PublicKey {
    bits: Bytes,
    identifier: KeyIdentifier,
}

impl Model for PublicKey {
    ghost use Rattle.std.specs.Prelude.{◌≡◌, ℕ, List};
    ghost use Rattle.sha1.specs.Sha1.{sha1};

    ghost Value = { List ℕ };

    ghost view = { λ k. k.bits };

    ghost invariant = { λ k. k.identifier ≡ sha1 k.bits };
}

impl PublicKey {
    /// The key with these bits.
    pub fn from_bits(bits: Bytes) -> PublicKey
        ensures { result ≡ bits }
    {
        let identifier = KeyIdentifier::of(bits.as_slice());
        PublicKey { bits, identifier }
    }

    /// Its bits.
    pub fn bits(&self) -> &[u8]
        ensures { result.now ≡ self.now }
    {
        self.bits.as_slice()
    }

    /// Its identifier: the SHA-1 digest of its bits (RFC 5280, section 4.2.1.2).
    pub fn key_identifier(&self) -> KeyIdentifier
        ensures { result ≡ sha1 self.now }
    {
        self.identifier
    }
}

impl Clone for PublicKey {
    ghost is_clone = { λ k copy. copy ≡ k };

    fn clone(&self) -> Result<PublicKey, AllocError> {
        let bits = self.bits.clone()?;
        Ok(PublicKey {
            bits,
            identifier: self.identifier,
        })
    }
}

impl PartialEq for PublicKey {
    ghost eq = { pointwise nat_eq };

    ghost laws = { partial_equiv_from_equiv nat_list_eq_equiv };

    fn eq(&self, other: &PublicKey) -> bool {
        self.bits() == other.bits()
    }
}

impl Eq for PublicKey {
    ghost laws = { nat_list_eq_equiv };
}

// Reads the algorithm and the bits of a key.
#[tactic(auto, unfolding(crate::specs::Key::key_fields_at))]
fn take_fields(cons: &mut Constructed<'_>) -> Result<PublicKey, DecodeError>
    ensures { Reads (λ k. k) key_fields_at cons.old result cons.new }
{
    skip_algorithm(cons, &RSA_ENCRYPTION)?;
    let bits = cons.take_octets_in_bits()?;
    Ok(PublicKey::from_bits(bits))
}

// Reads a key.
fn take_key(cons: &mut Constructed<'_>) -> Result<PublicKey, DecodeError>
    ensures reads { Reads (λ k. k) key_at cons.old result cons.new }
    ensures stays { Stays result cons.new }
{
    cons.take_sequence(take_fields)
}

impl PublicKey {
    /// Reads a key: a SubjectPublicKeyInfo of an RSA key whose bits are whole octets (RFC 5280,
    /// section 4.1.2.7), in DER and in BER alike. A key of another algorithm is refused by
    /// `UNKNOWN_ALGORITHM`, all else by `Malformed`; `Memory` may come too.
    pub fn take_from(cons: &mut Constructed<'_>) -> Result<PublicKey, DecodeError>
        ensures reads { Reads (λ k. k) key_at cons.old result cons.new }
        ensures decodes { DecodesNext KeyForm (λ k. k) cons.old result cons.new }
        ensures stays { Stays result cons.new }
    {
        cons.holds_octets();
        take_key(cons)
    }

    /// Reads the key at the front of octets in DER (RFC 5280, section 4.1.2.7). Octets after it are
    /// left. Reads and refuses as `take_from` does.
    pub fn decode(source: Bytes) -> Result<PublicKey, DecodeError>
        ensures { Decodes (KeyForm Der) (λ k. k) source result }
    {
        slices_hold_octets(source.as_slice());
        decode_key(source)
    }
}

// Reads the key at the front of octets in DER.
fn decode_key(source: Bytes) -> Result<PublicKey, DecodeError>
    ensures { Found (λ k. k) (key_at Der source) result }
{
    Constructed::decode(source, Mode::Der, take_key)
}

/// What writes a key, as a SubjectPublicKeyInfo.
#[derive(Drop)]
pub struct KeyEncoder<'a>(pub &'a PublicKey);

impl Encode for KeyEncoder<'_> {
    ghost use Rattle.rpki_der.specs.Tags.{SEQUENCE};
    ghost use Rattle.rpki_der.specs.Write.Parts.{contents_small};
    ghost use Rattle.rpki_basics.specs.Key.{key_contents, key_octets};

    ghost octets = { λ e. key_octets e.0.now };

    ghost is_short = { λ e. length (key_contents e.0.now) < 2 ^ 32 };

    ghost small = { λ e h. contents_small SEQUENCE (key_contents e.0.now) h };

    fn encoded_len(&self) -> Result<u64, EncodeError> {
        let algorithm = RpkiSignatureAlgorithm::RsaSha256.encode_cms();
        sequence((algorithm, bit_string(self.0.bits(), 0))).encoded_len()
    }

    fn put<W: Sink>(&self, len: u64, out: &mut W) -> Result<(), SinkFailed> {
        let algorithm = RpkiSignatureAlgorithm::RsaSha256.encode_cms();
        sequence((algorithm, bit_string(self.0.bits(), 0))).put(len, out)
    }
}

impl PublicKey {
    /// The key as a SubjectPublicKeyInfo: rsaEncryption with a NULL, and its bits (RFC 3279,
    /// section 2.3.1).
    pub fn encode_ref(&self) -> KeyEncoder<'_>
        ensures { result.0.now ≡ self.now }
    {
        KeyEncoder(self)
    }

    /// The octets of the key as a SubjectPublicKeyInfo (RFC 3279, section 2.3.1), or `TooLong`
    /// where its contents have 2^32 octets or more, or `Memory`.
    pub fn to_info_bytes(&self, alloc: Global) -> Result<Vec<u8>, EncodeError>
        ensures { IsBytesOf (Unit {0}) (length (key_contents self.now) < 2 ^ 32)
            (key_octets self.now) result }
    {
        self.encode_ref().to_bytes(alloc)
    }
}
