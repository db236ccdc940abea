//! Strings of bits, as they are written.

ghost use Rattle.std.specs.Prelude.{◌≡◌, ◌<◌, ◌-◌, ◌%◌};
ghost use Rattle.rpki_der.specs.Tags.{BIT_STRING};
ghost use Rattle.rpki_der.specs.Write.Written.{bit_string_contents, unused_bits, zero_bits};

use crate::encode::raw::Raw;
use crate::encode::value::Value;
use crate::encode::{Encode, EncodeError};
use crate::stream::{Sink, SinkFailed};
use crate::tag::Tag;

/// The contents of a BIT STRING: how many bits of the last octet are not used, and the octets. The
/// bits that are not used are written as zeros.
#[derive(Drop)]
pub struct Bits<'a> {
    pub octets: &'a [u8],
    pub unused: u8,
}

impl Encode for Bits<'_> {
    ghost octets = { λ s. bit_string_contents s.octets.now s.unused };

    ghost is_short = { λ _. Unit {0} };

    ghost small = { λ _ _. tt };

    #[tactic(auto, using(crate::proofs::Writing::Strings::length_zero_last))]
    fn encoded_len(&self) -> Result<u64, EncodeError> {
        Ok(self.octets.len() as u64 + 1)
    }

    #[tactic(auto, using(crate::proofs::Writing::Strings::zero_last_split))]
    fn put<W: Sink>(&self, len: u64, out: &mut W) -> Result<(), SinkFailed> {
        if self.octets.is_empty() {
            return out.take_all(&[0]);
        }
        let unused = unused_bits(self.octets, self.unused);
        let last = self.octets.len() - 1;
        let zeroed = zero_bits(self.octets[last], unused);
        (Raw(&[unused]), Raw(&self.octets[..last]), Raw(&[zeroed])).put(len, out)
    }
}

// How many bits of the last octet are not used.
fn unused_bits(octets: &[u8], unused: u8) -> u8
    ensures value { result ≡ unused_bits octets.now unused }
    ensures few { result < 8 }
{
    if octets.is_empty() {
        0
    } else if unused < 8 {
        unused
    } else {
        7
    }
}

// An octet with zeros for its `unused` lowest bits, 7 at most.
fn zero_bits(octet: u8, unused: u8) -> u8
    requires { unused < 8 }
    ensures { result ≡ zero_bits octet unused }
{
    match unused {
        0 => octet,
        1 => octet - octet % 2,
        2 => octet - octet % 4,
        3 => octet - octet % 8,
        4 => octet - octet % 16,
        5 => octet - octet % 32,
        6 => octet - octet % 64,
        _ => octet - octet % 128,
    }
}

/// A BIT STRING (X.690, sections 8.6 and 11.2) of these octets without the last bits of the last
/// one. More than 7 bits count as 7, and where there is no octet none are left out. The bits that
/// are left out are written as zeros.
pub fn bit_string(octets: &[u8], unused: u8) -> Value<Bits<'_>>
    ensures tag { result.tag.octet ≡ BIT_STRING }
    ensures octets { result.contents.octets.now ≡ octets.now }
    ensures unused { result.contents.unused ≡ unused }
{
    Value {
        tag: Tag::BIT_STRING,
        contents: Bits { octets, unused },
    }
}
