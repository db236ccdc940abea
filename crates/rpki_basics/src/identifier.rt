//! Identifiers of keys.

ghost use Rattle.std.specs.Prelude.{◌≡◌, ◌<◌, ◌^◌, length, nat_eq, IfOk, IfSome, Some};
ghost use Rattle.std.proofs.Common.{refl};
ghost use Rattle.std.specs.Ordering.{nat_cmp};
ghost use Rattle.std.specs.Cmp.{partial_equiv_from_equiv};
ghost use Rattle.std.specs.Cmp.Lexicographic.{pointwise, slice_cmp, nat_list_eq_equiv};
ghost use Rattle.std.specs.Cmp.Lexicographic.{nat_list_cmp_total, texts_ties, texts_po};
ghost use Rattle.sha1.specs.Sha1.{sha1};
ghost use Rattle.rpki_der.specs.Read.Parse.{optional};
ghost use Rattle.rpki_der.specs.Read.Reads.{Reads};
ghost use Rattle.rpki_der.specs.Tags.{OCTET_STRING};
ghost use Rattle.rpki_der.specs.Text.Hex.{upper_hex};
ghost use Rattle.rpki_der.specs.Write.Parts.{contents_small};
ghost use Rattle.rpki_basics.specs.Identifier.{key_identifier_at, key_identifier_octets};

use rpki_der::encode::octet_string;
use rpki_der::{
    Constructed, DecodeError, Encode, EncodeError, ListItem, Sink, SinkFailed, Tag, UpperHex,
};
use sha1::Sha1;
use std::alloc::Global;
use std::cmp::Ordering;
use std::fmt;
use std::marker::Model;

/// The SHA-1 digest of the bits of a key (RFC 5280, section 4.2.1.2; RFC 6487, section 4.8.2).
#[derive(Clone, Copy, Debug)]
pub struct KeyIdentifier {
    octets: [u8; 20],
}

impl Model for KeyIdentifier {
    ghost use Rattle.std.specs.Prelude.{◌≡◌, ℕ, List, length};

    ghost Value = { List ℕ };

    ghost view = { λ k. k.octets };

    ghost invariant = { λ k. length k.octets ≡ 20 };

    ghost inverse = { λ octets. record { octets = octets } };
}

impl KeyIdentifier {
    /// The identifier of these octets.
    pub fn from_octets(octets: [u8; 20]) -> KeyIdentifier
        ensures { result ≡ octets }
    {
        KeyIdentifier { octets }
    }

    /// The identifier of the key with these bits: their SHA-1 digest, without the octet of unused
    /// bits (RFC 5280, section 4.2.1.2).
    pub fn of(bits: &[u8]) -> KeyIdentifier
        ensures { result ≡ sha1 bits.now }
    {
        KeyIdentifier {
            octets: Sha1::digest(bits),
        }
    }

    /// Its octets.
    pub fn as_slice(&self) -> &[u8]
        ensures octets { result.now ≡ self.now }
        ensures len { length self.now ≡ 20 }
    {
        &self.octets
    }

    /// Its octets, as an array.
    pub fn octets(&self) -> [u8; 20]
        ensures { result ≡ self.now }
    {
        self.octets
    }
}

/// An identifier as it stands in a list of keys: an OCTET STRING in one piece
/// (draft-michaelson-rpki-rta, section 3).
impl Encode for KeyIdentifier {
    ghost use Rattle.rpki_der.specs.Tags.{OCTET_STRING};
    ghost use Rattle.rpki_der.specs.Write.Parts.{contents_small};
    ghost use Rattle.rpki_basics.specs.Identifier.{key_identifier_octets};

    ghost octets = { key_identifier_octets };

    ghost is_short = { λ k. length k < 2 ^ 32 };

    ghost small = { λ k h. contents_small OCTET_STRING k h };

    fn encoded_len(&self) -> Result<u64, EncodeError> {
        octet_string(self.as_slice()).encoded_len()
    }

    fn put<W: Sink>(&self, len: u64, out: &mut W) -> Result<(), SinkFailed> {
        octet_string(self.as_slice()).put(len, out)
    }
}

impl ListItem for KeyIdentifier {
    ghost use Rattle.rpki_der.specs.Tags.{OCTET_STRING};
    ghost use Rattle.rpki_basics.specs.Identifier.{key_identifier_at};

    ghost tag = { OCTET_STRING };

    ghost at = { key_identifier_at };

    #[tactic(auto, unfolding(rpki_der::specs::Read::Parse::tested))]
    fn take_opt_from(
        _alloc: Global,
        cons: &mut Constructed<'_>,
    ) -> Result<Option<KeyIdentifier>, DecodeError>
        ensures reads { Reads (λ id. id) (optional OCTET_STRING key_identifier_at)
            cons.old result cons.new }
        ensures shorter { IfOk result
            (λ id. IfSome id (λ _. length cons.new.rest < length cons.old.rest)) }
    {
        match cons.take_opt_primitive_if(Tag::OCTET_STRING)? {
            None => Ok(None),
            Some(octets) => match <[u8; 20]>::try_from(octets.as_slice()) {
                Ok(octets) => Ok(Some(KeyIdentifier { octets })),
                Err(_) => Err(cons.fail(DecodeError::Malformed)),
            },
        }
    }
}

impl PartialEq for KeyIdentifier {
    ghost eq = { pointwise nat_eq };

    ghost laws = { partial_equiv_from_equiv nat_list_eq_equiv };

    fn eq(&self, other: &KeyIdentifier) -> bool {
        self.as_slice() == other.as_slice()
    }
}

impl Eq for KeyIdentifier {
    ghost laws = { nat_list_eq_equiv };
}

impl PartialOrd for KeyIdentifier {
    ghost partial_cmp = { λ a b. Some (slice_cmp nat_cmp a b) };

    ghost laws = { texts_po };

    fn partial_cmp(&self, other: &KeyIdentifier) -> Option<Ordering> {
        Some(self.cmp(other))
    }
}

/// The order of the octets, the first one first.
impl Ord for KeyIdentifier {
    ghost cmp = { slice_cmp nat_cmp };

    ghost total = { nat_list_cmp_total };

    ghost matches_partial_cmp = { λ a b. refl };

    ghost matches_eq = { texts_ties };

    fn cmp(&self, other: &KeyIdentifier) -> Ordering {
        self.as_slice().cmp(other.as_slice())
    }
}

/// The octets in upper hexadecimal digits.
impl fmt::Display for KeyIdentifier {
    ghost use Rattle.rpki_der.specs.Text.Hex.{upper_hex};

    ghost output = { λ k. Some (upper_hex k) };

    fn fmt<W: fmt::Write>(&self, f: &mut fmt::Formatter<W>) -> fmt::Result {
        UpperHex(self.as_slice()).fmt(f)
    }
}
