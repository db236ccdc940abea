//! Numbers, as they are written.

ghost use Rattle.std.specs.Prelude.{◌≡◌};
ghost use Rattle.rpki_der.specs.Tags.{INTEGER};
ghost use Rattle.rpki_der.specs.Write.Written.{significant, integer_contents, number_octets};

use crate::encode::raw::Raw;
use crate::encode::value::Value;
use crate::encode::{Encode, EncodeError};
use crate::stream::{Sink, SinkFailed};
use crate::tag::Tag;

/// The shortest contents of an INTEGER that is not negative, from its digits to base 256, the
/// highest one first.
#[derive(Drop)]
pub struct Digits<'a>(pub &'a [u8]);

impl Encode for Digits<'_> {
    ghost octets = { λ s. integer_contents s.0.now };

    ghost is_short = { λ _. Unit {0} };

    ghost small = { λ _ _. tt };

    #[inline(always)]
    fn encoded_len(&self) -> Result<u64, EncodeError> {
        let digits = significant(self.0);
        if digits.is_empty() {
            Ok(1)
        } else if digits[0] < 0x80 {
            Ok(digits.len() as u64)
        } else {
            Ok(digits.len() as u64 + 1)
        }
    }

    #[inline(always)]
    fn put<W: Sink>(&self, len: u64, out: &mut W) -> Result<(), SinkFailed> {
        let digits = significant(self.0);
        if digits.is_empty() {
            out.take_all(&[0])
        } else if digits[0] < 0x80 {
            out.take_all(digits)
        } else {
            (Raw(&[0]), Raw(digits)).put(len, out)
        }
    }
}

// The digits without zeros in front.
#[inline(always)]
fn significant(digits: &[u8]) -> &[u8]
    ensures { result.now ≡ significant digits.now }
{
    let mut rest = digits;
    while !rest.is_empty() {
        if rest[0] != 0 {
            return rest;
        }
        rest = &rest[1..];
    }
    rest
}

/// An INTEGER of 32 bits that is not negative (X.690, section 8.3), in its shortest form.
#[derive(Drop)]
pub struct Unsigned(pub u32);

impl Encode for Unsigned {
    ghost octets = { λ s. number_octets s.0 };

    ghost is_short = { λ _. Unit {0} };

    ghost small = { λ _ _. tt };

    #[tactic(auto, using(crate::proofs::Writing::Numbers::one_octet, crate::proofs::Writing::Numbers::two_octets, crate::proofs::Writing::Numbers::three_octets, crate::proofs::Writing::Numbers::four_octets, crate::proofs::Writing::Numbers::five_octets))]
    #[inline(always)]
    fn encoded_len(&self) -> Result<u64, EncodeError> {
        Ok(match self.0 {
            0..=0x7F => 3,
            0x80..=0x7FFF => 4,
            0x8000..=0x7F_FFFF => 5,
            0x80_0000..=0x7FFF_FFFF => 6,
            _ => 7,
        })
    }

    #[inline(always)]
    fn put<W: Sink>(&self, _len: u64, out: &mut W) -> Result<(), SinkFailed> {
        // identifier, length and contents as the digits of one number, so that they are moved as
        // one word
        let n = u64::from(self.0);
        match self.0 {
            0..=0x7F => out.take_all(&(0x02_01_00 + n).to_be_bytes()[5..]),
            0x80..=0x7FFF => out.take_all(&(0x02_02_0000 + n).to_be_bytes()[4..]),
            0x8000..=0x7F_FFFF => out.take_all(&(0x02_03_00_0000 + n).to_be_bytes()[3..]),
            0x80_0000..=0x7FFF_FFFF => out.take_all(&(0x02_04_0000_0000 + n).to_be_bytes()[2..]),
            _ => out.take_all(&(0x02_05_00_0000_0000 + n).to_be_bytes()[1..]),
        }
    }
}

/// An INTEGER of 32 bits (X.690, section 8.3) in its shortest form.
pub fn integer(n: u32) -> Unsigned
    ensures { result.0 ≡ n }
{
    Unsigned(n)
}

/// An INTEGER of 8 bits (X.690, section 8.3) in its shortest form.
pub fn integer_u8(n: u8) -> Unsigned
    ensures { result.0 ≡ n }
{
    Unsigned(u32::from(n))
}

/// The INTEGER (X.690, section 8.3) that is not negative with these digits to base 256, the highest
/// one first, in its shortest form. Zeros in front are left out; no digits are zero.
pub fn integer_of(digits: &[u8]) -> Value<Digits<'_>>
    ensures tag { result.tag.octet ≡ INTEGER }
    ensures digits { result.contents.0.now ≡ digits.now }
{
    Value {
        tag: Tag::INTEGER,
        contents: Digits(digits),
    }
}
