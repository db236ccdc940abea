//! What shows octets.

ghost use Rattle.std.specs.Prelude.{◌≡◌};

use bytes::Bytes;

/// What shows octets, which are all that it means.
pub trait AsOctets {
    ghost use Rattle.std.specs.Prelude.{ℕ, List};

    // The octets that it means.
    ghost meaning: { Self → List ℕ };

    /// Its octets.
    fn as_octets(&self) -> &[u8]
        ensures { result.now ≡ meaning self.now };
}

impl AsOctets for Bytes {
    ghost meaning = { λ s. s };

    fn as_octets(&self) -> &[u8] {
        self.as_slice()
    }
}

impl AsOctets for Vec<u8> {
    ghost meaning = { λ s. s.items };

    fn as_octets(&self) -> &[u8] {
        &self[..]
    }
}

impl AsOctets for &[u8] {
    ghost meaning = { λ s. s.now };

    fn as_octets(&self) -> &[u8] {
        *self
    }
}
