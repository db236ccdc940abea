//! Strings of bits.

ghost use Rattle.std.specs.Prelude.{◌≡◌, MatchOption};
ghost use Rattle.rpki_der.specs.Bits.{IsBits};

use bytes::Bytes;
use std::alloc::AllocError;

/// A BIT STRING (X.690, section 8.6): its octets, and how many bits of the last one are not used.
#[derive(Drop, Debug)]
pub struct BitString {
    pub octets: Bytes,
    pub unused: u8,
    pub ghost valid: { IsBits octets unused },
}

impl BitString {
    /// The string of these octets without the `unused` last bits of the last: 0 to 7, and 0 where
    /// there is no octet.
    pub fn new(octets: Bytes, unused: u8) -> Option<BitString>
        ensures { MatchOption result (IsBits octets unused → ⊥)
            (λ bits. (bits.octets ≡ octets) × (bits.unused ≡ unused)) }
    {
        if unused > 7 || (octets.is_empty() && unused != 0) {
            None
        } else {
            Some(BitString { octets, unused })
        }
    }
}

impl Clone for BitString {
    ghost is_clone = { λ b copy. (copy.octets ≡ b.octets) × (copy.unused ≡ b.unused) };

    fn clone(&self) -> Result<BitString, AllocError> {
        Ok(BitString {
            octets: self.octets.clone()?,
            unused: self.unused,
        })
    }
}
