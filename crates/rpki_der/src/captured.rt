//! Octets that are kept as they are.

ghost use Rattle.std.specs.Prelude.{◌≡◌};
ghost use Rattle.rpki_der.specs.Captured.{Kept};

use crate::mode::Mode;
use bytes::Bytes;
use std::alloc::AllocError;
use std::marker::Model;

/// Octets that are kept with a mode: that in which they were read, or the one that `new` took.
#[derive(Drop, Debug)]
pub struct Captured {
    octets: Bytes,
    mode: Mode,
}

impl Model for Captured {
    ghost use Rattle.rpki_der.specs.Captured.{Kept};

    ghost Value = { Kept };

    ghost view = { λ c. record { octets = c.octets; mode = c.mode } };
}

impl Captured {
    /// These octets, as if they had been read in this mode. Neither is tested.
    pub fn new(octets: Bytes, mode: Mode) -> Captured
        ensures { result ≡ record { octets = octets; mode = mode } }
    {
        Captured { octets, mode }
    }

    /// The octets, as they stood in the source or were handed to `new`.
    pub fn as_slice(&self) -> &[u8]
        ensures { result.now ≡ self.now.octets }
    {
        self.octets.as_slice()
    }

    /// The mode that they are kept with.
    pub fn mode(&self) -> Mode
        ensures { result ≡ self.now.mode }
    {
        self.mode
    }

    /// The octets, without their mode.
    pub fn into_bytes(self) -> Bytes
        ensures { result ≡ self.octets }
    {
        self.octets
    }
}

impl Clone for Captured {
    ghost is_clone = { λ c copy. copy ≡ c };

    fn clone(&self) -> Result<Captured, AllocError> {
        Ok(Captured {
            octets: self.octets.clone()?,
            mode: self.mode,
        })
    }
}
