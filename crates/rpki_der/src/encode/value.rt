//! A value round its contents, as it is written.

ghost use Rattle.std.specs.Prelude.{◌∷◌, ◌≡◌, ℕ, ◌+◌, ◌<◌, ◌≤◌, ◌^◌, length, OnOk, OnErr};
ghost use Rattle.std.specs.Io.KnownBytes.{Appends};
ghost use Rattle.rpki_der.specs.Tags.{SEQUENCE, SET};
ghost use Rattle.rpki_der.specs.Write.Sink.{AppendsFront};
ghost use Rattle.rpki_der.specs.Write.Written.{length_octets, value_octets};
ghost use Rattle.rpki_der.specs.Write.Parts.{contents_small};

use crate::encode::{Encode, EncodeError};
use crate::stream::{Sink, SinkFailed};
use crate::tag::Tag;

/// A value (X.690, section 8.1.1): an identifier octet, the length in its shortest form, and the
/// contents.
#[derive(Drop)]
pub struct Value<T> {
    pub tag: Tag,
    pub contents: T,
}

/// A value with this tag (X.690, section 8.1.1). Its contents are what the parts are written as.
pub fn tagged<T>(tag: Tag, parts: T) -> Value<T>
    ensures tag { result.tag ≡ tag }
    ensures contents { result.contents ≡ parts }
{
    Value {
        tag,
        contents: parts,
    }
}

/// A SET of the parts (X.690, section 8.11), in the order given.
pub fn set<T>(parts: T) -> Value<T>
    ensures tag { result.tag.octet ≡ SET }
    ensures contents { result.contents ≡ parts }
{
    Value {
        tag: Tag::SET,
        contents: parts,
    }
}

/// A SEQUENCE of the parts (X.690, section 8.9).
pub fn sequence<T>(parts: T) -> Value<T>
    ensures tag { result.tag.octet ≡ SEQUENCE }
    ensures contents { result.contents ≡ parts }
{
    Value {
        tag: Tag::SEQUENCE,
        contents: parts,
    }
}

impl<T: Encode> Encode for Value<T> {
    ghost octets = { λ s. value_octets s.tag.octet (T.octets s.contents) };

    ghost is_der = { λ s. T.is_der s.contents };

    ghost is_short = { λ s. length (T.octets s.contents) < 2 ^ 32 };

    ghost small = { λ x h. contents_small x.tag.octet (T.octets x.contents) h };

    #[inline(always)]
    fn encoded_len(&self) -> Result<u64, EncodeError> {
        let n = self.contents.encoded_len()?;
        match u32::try_from(n) {
            Ok(len) => Ok(1 + length_size(len) + n),
            Err(_) => Err(EncodeError::TooLong),
        }
    }

    #[inline(always)]
    fn put<W: Sink>(&self, len: u64, out: &mut W) -> Result<(), SinkFailed> {
        let n = contents_len(len);
        put_header(self.tag.octet, n as u32, out)?;
        self.contents.put(n, out)
    }
}

/// The identifier and the length of a value (X.690, sections 8.1.2, 8.1.3 and 10.1).
#[derive(Drop)]
pub(crate) struct Header {
    pub identifier: u8,
    pub len: u32,
}

impl Encode for Header {
    ghost octets = { λ s. s.identifier ∷ length_octets s.len };

    ghost is_short = { λ _. Unit {0} };

    ghost small = { λ _ _. tt };

    #[inline(always)]
    fn encoded_len(&self) -> Result<u64, EncodeError> {
        Ok(1 + length_size(self.len))
    }

    #[inline(always)]
    fn put<W: Sink>(&self, _len: u64, out: &mut W) -> Result<(), SinkFailed> {
        put_header(self.identifier, self.len, out)
    }
}

// How many octets a length has.
#[tactic(auto, unfolding(crate::specs::Write::Written::length_octets))]
#[inline(always)]
fn length_size(n: u32) -> u64
    ensures size { result ≡ length (length_octets n) }
    ensures small { result ≤ 5 }
{
    if n < 0x80 {
        1
    } else if n < 0x100 {
        2
    } else if n < 0x1_0000 {
        3
    } else if n < 0x100_0000 {
        4
    } else {
        5
    }
}

// How many contents octets there are in a value of this length.
#[tactic(auto, unfolding(crate::specs::Write::Written::length_octets))]
#[inline(always)]
fn contents_len(len: u64) -> u64
    ensures { (n : ℕ) → n < 2 ^ 32 → len ≡ 1 + length (length_octets n) + n → result ≡ n }
{
    let header = match len {
        0..=0x81 => 2,
        0x82..=0x102 => 3,
        0x103..=0x1_0003 => 4,
        0x1_0004..=0x100_0004 => 5,
        _ => 6,
    };
    len.saturating_sub(header)
}

// Writes an identifier and a length, in one call of the sink.
#[tactic(auto, unfolding(crate::specs::Write::Written::length_octets))]
#[inline(always)]
fn put_header<W: Sink>(tag: u8, n: u32, out: &mut W) -> Result<(), SinkFailed>
    ensures ok { OnOk result (Appends (W.taken out.old) (W.taken out.new) (tag ∷ length_octets n)) }
    ensures begun { OnErr result
        (AppendsFront (W.taken out.old) (W.taken out.new) (tag ∷ length_octets n)) }
    ensures same { OnOk result (W.failures out.new ≡ W.failures out.old) }
    ensures failed { OnErr result (W.failures out.new ≡ W.failures out.old + 1) }
{
    let b = n.to_be_bytes();
    if n < 0x80 {
        out.take_all(&[tag, b[3]])
    } else if n < 0x100 {
        out.take_all(&[tag, 0x81, b[3]])
    } else if n < 0x1_0000 {
        out.take_all(&[tag, 0x82, b[2], b[3]])
    } else if n < 0x100_0000 {
        out.take_all(&[tag, 0x83, b[1], b[2], b[3]])
    } else {
        out.take_all(&[tag, 0x84, b[0], b[1], b[2], b[3]])
    }
}
