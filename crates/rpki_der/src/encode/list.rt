//! References, options and lists, as they are written.

ghost use Rattle.std.specs.Prelude.{◌≡◌, All};
ghost use Rattle.std.specs.List.{flat_map};
ghost use Rattle.rpki_der.specs.Write.Parts.{optional_octets, IsEach, optional_small, each_small};

use crate::encode::{Encode, EncodeError, len_of};
use crate::stream::{Sink, SinkFailed};

/// What the reference shows.
impl<T: Encode> Encode for &T {
    ghost octets = { λ s. T.octets s.now };

    ghost is_der = { λ s. T.is_der s.now };

    ghost is_short = { λ s. T.is_short s.now };

    ghost small = { λ x h. T.small x.now h };

    #[inline(always)]
    fn encoded_len(&self) -> Result<u64, EncodeError> {
        (**self).encoded_len()
    }

    #[inline(always)]
    fn put<W: Sink>(&self, len: u64, out: &mut W) -> Result<(), SinkFailed> {
        (**self).put(len, out)
    }
}

/// What is optional: nothing, where there is none.
impl<T: Encode> Encode for Option<T> {
    ghost octets = { optional_octets T.octets };

    ghost is_der = { IsEach T.is_der };

    ghost is_short = { IsEach T.is_short };

    ghost small = { optional_small T.octets T.is_short T.small };

    #[inline(always)]
    fn encoded_len(&self) -> Result<u64, EncodeError> {
        match self {
            None => Ok(0),
            Some(x) => x.encoded_len(),
        }
    }

    #[inline(always)]
    fn put<W: Sink>(&self, len: u64, out: &mut W) -> Result<(), SinkFailed> {
        match self {
            None => Ok(()),
            Some(x) => x.put(len, out),
        }
    }
}

/// The values of a slice, one after another.
#[derive(Drop)]
pub struct Elements<'a, T>(pub &'a [T]);

/// The values of a slice, one after another.
pub fn each<T>(values: &[T]) -> Elements<'_, T>
    ensures { result.0.now ≡ values.now }
{
    Elements(values)
}

impl<T: Encode> Encode for Elements<'_, T> {
    ghost octets = { λ s. flat_map T.octets s.0.now };

    ghost is_der = { λ s. All T.is_der s.0.now };

    ghost is_short = { λ s. All T.is_short s.0.now };

    ghost small = { λ x h. each_small T.octets T.is_short T.small x.0.now h };

    #[inline(always)]
    fn encoded_len(&self) -> Result<u64, EncodeError> {
        let mut total = 0u64;
        for x in self.0 {
            let n = x.encoded_len()?;
            total = match total.checked_add(n) {
                Some(n) => n,
                None => return Err(EncodeError::TooLong),
            };
        }
        Ok(total)
    }

    #[inline(always)]
    fn put<W: Sink>(&self, _len: u64, out: &mut W) -> Result<(), SinkFailed> {
        for x in self.0 {
            x.put(len_of(x), out)?;
        }
        Ok(())
    }
}
