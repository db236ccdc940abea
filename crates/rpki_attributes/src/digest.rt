//! Digests of contents, as signed attributes have them.

ghost use Rattle.std.specs.Prelude.{◌≡◌, ◌<◌, ◌^◌, nat_eq, length, IfOk};
ghost use Rattle.std.specs.Cmp.{partial_equiv_from_equiv};
ghost use Rattle.std.specs.Cmp.Lexicographic.{pointwise, nat_list_eq_equiv};
ghost use Rattle.rpki_der.specs.Tags.{OCTET_STRING};
ghost use Rattle.rpki_der.specs.Write.Parts.{contents_small};
ghost use Rattle.rpki_der.specs.Write.Written.{value_octets};

use bytes::Bytes;
use rpki_basics::Digest;
use rpki_der::encode::octet_string;
use rpki_der::{Encode, EncodeError, Sink, SinkFailed};
use std::alloc::{AllocError, Global};
use std::marker::Model;

/// The digest of a content (RFC 5652, section 11.2): octets, as many as the algorithm gives.
#[derive(Debug, Drop)]
pub struct MessageDigest(Bytes);

impl Model for MessageDigest {
    ghost use Rattle.std.specs.Prelude.{ℕ, List};

    ghost Value = { List ℕ };

    ghost view = { λ d. d.0 };
}

impl MessageDigest {
    /// The octets of a SHA-256 digest. Refuses where memory runs out.
    pub fn from_digest(alloc: Global, digest: &Digest) -> Result<MessageDigest, AllocError>
        ensures { IfOk result (λ d. d ≡ digest.now) }
    {
        Ok(MessageDigest(Bytes::copy_from_slice(alloc, digest.as_slice())?))
    }

    /// Its octets.
    pub fn as_slice(&self) -> &[u8]
        ensures { result.now ≡ self.now }
    {
        self.0.as_slice()
    }

    /// The digest as an OCTET STRING (X.690, section 8.7), in one piece.
    pub fn encode_ref(&self) -> MessageDigestEncoder<'_>
        ensures { result ≡ self.now }
    {
        MessageDigestEncoder { digest: self }
    }
}

impl From<Bytes> for MessageDigest {
    ghost from_gives = { λ octets d. d ≡ octets };

    fn from(octets: Bytes) -> MessageDigest {
        MessageDigest(octets)
    }
}

impl Clone for MessageDigest {
    ghost is_clone = { λ d copy. copy ≡ d };

    fn clone(&self) -> Result<MessageDigest, AllocError> {
        Ok(MessageDigest(self.0.clone()?))
    }
}

impl PartialEq for MessageDigest {
    ghost eq = { pointwise nat_eq };

    ghost laws = { partial_equiv_from_equiv nat_list_eq_equiv };

    fn eq(&self, other: &MessageDigest) -> bool {
        self.as_slice() == other.as_slice()
    }
}

impl Eq for MessageDigest {
    ghost laws = { nat_list_eq_equiv };
}

/// A digest, to be written in DER.
#[derive(Drop)]
pub struct MessageDigestEncoder<'a> {
    digest: &'a MessageDigest,
}

impl<'a> Model for MessageDigestEncoder<'a> {
    ghost use Rattle.std.specs.Prelude.{ℕ, List};

    ghost Value = { List ℕ };

    ghost view = { λ e. e.digest.now };
}

impl<'a> Encode for MessageDigestEncoder<'a> {
    ghost octets = { λ d. value_octets OCTET_STRING d };

    ghost is_short = { λ d. length d < 2 ^ 32 };

    ghost small = { λ d h. contents_small OCTET_STRING d h };

    fn encoded_len(&self) -> Result<u64, EncodeError> {
        octet_string(self.digest.as_slice()).encoded_len()
    }

    fn put<W: Sink>(&self, len: u64, out: &mut W) -> Result<(), SinkFailed> {
        octet_string(self.digest.as_slice()).put(len, out)
    }
}
