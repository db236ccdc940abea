//! Captured octets, as they are written.

ghost use Rattle.std.specs.Prelude.{◌≡◌};
ghost use Rattle.rpki_der.specs.declared.mode.Mode.TheVariants.{Der};

use crate::captured::Captured;
use crate::encode::{Encode, EncodeError};
use crate::mode::Mode;
use crate::stream::{Sink, SinkFailed};

/// Captured octets as they are, which are DER where they were read so.
#[derive(Drop)]
pub struct CapturedEncoder<'a>(pub &'a Captured);

impl Encode for CapturedEncoder<'_> {
    ghost octets = { λ s. s.0.now.octets };

    ghost is_der = { λ s. s.0.now.mode ≡ Der };

    ghost is_short = { λ _. Unit {0} };

    ghost small = { λ _ _. tt };

    fn encoded_len(&self) -> Result<u64, EncodeError> {
        match self.0.mode() {
            Mode::Der => Ok(self.0.as_slice().len() as u64),
            Mode::Ber => Err(EncodeError::NotDer),
        }
    }

    fn put<W: Sink>(&self, _len: u64, out: &mut W) -> Result<(), SinkFailed> {
        out.take_all(self.0.as_slice())
    }
}

impl Captured {
    /// The octets as they were read. Only those that were read in DER can be written.
    pub fn encode_ref(&self) -> CapturedEncoder<'_>
        ensures { result.0.now ≡ self.now }
    {
        CapturedEncoder(self)
    }
}
