//! Octets that are written as they are.

use crate::encode::{Encode, EncodeError};
use crate::stream::{Sink, SinkFailed};

/// Octets as they are.
#[derive(Drop)]
pub struct Raw<'a>(pub &'a [u8]);

impl Encode for Raw<'_> {
    ghost octets = { λ s. s.0.now };

    ghost is_short = { λ _. Unit {0} };

    ghost small = { λ _ _. tt };

    #[inline(always)]
    fn encoded_len(&self) -> Result<u64, EncodeError> {
        Ok(self.0.len() as u64)
    }

    #[inline(always)]
    fn put<W: Sink>(&self, _len: u64, out: &mut W) -> Result<(), SinkFailed> {
        out.take_all(self.0)
    }
}
