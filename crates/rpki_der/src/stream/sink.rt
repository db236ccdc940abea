//! What takes octets.

ghost use Rattle.std.specs.Prelude.{◌≡◌, ℕ, ◌+◌, ◌<◌, List, Option, OnOk, OnErr, IfOk};
ghost use Rattle.std.specs.Io.KnownBytes.{Appends, WriteAppends};
ghost use Rattle.rpki_der.specs.Write.Sink.{AppendsFront, IsTakenCount};

use std::error::Error;
use std::fmt;

/// A call of a sink has failed. It is not tried again.
#[derive(Debug, Drop)]
pub struct SinkFailed;

impl fmt::Display for SinkFailed {
    ghost use Rattle.std.specs.Prelude.{Some, codes};

    ghost output = { λ _. Some (codes "write failed") };

    fn fmt<W: fmt::Write>(&self, f: &mut fmt::Formatter<W>) -> fmt::Result {
        f.write_str("write failed")
    }
}

impl Error for SinkFailed {}

/// What takes octets.
pub trait Sink {
    // The octets that it has taken, where they are known.
    ghost taken: { Self → Option (List ℕ) };

    // How many calls have failed.
    ghost failures: { Self → ℕ };

    /// Takes octets from the front of a slice: at least one, where there is one. A call that fails,
    /// by `SinkFailed`, takes none.
    fn take(&mut self, octets: &[u8]) -> Result<usize, SinkFailed>
        ensures count { IfOk result (IsTakenCount octets.now) }
        ensures taken { WriteAppends (taken self.old) (taken self.new) result octets.now }
        ensures ok { OnOk result (failures self.new ≡ failures self.old) }
        ensures err { OnErr result (failures self.new ≡ failures self.old + 1) };

    /// Takes all octets of a slice. Refuses by `SinkFailed` where a call of `take` fails; it has
    /// taken those before.
    #[inline(always)]
    final fn take_all(&mut self, octets: &[u8]) -> Result<(), SinkFailed>
    where
        Self: Sized,
        ensures ok { OnOk result (Appends (taken self.old) (taken self.new) octets.now) }
        ensures begun { OnErr result (AppendsFront (taken self.old) (taken self.new) octets.now) }
        ensures same { OnOk result (failures self.new ≡ failures self.old) }
        ensures failed { OnErr result (failures self.new ≡ failures self.old + 1) }
    {
        let mut rest = octets;
        while !rest.is_empty() {
            let n = self.take(rest)?;
            rest = &rest[n..];
        }
        Ok(())
    }
}

impl<S: Sink> Sink for &mut S {
    ghost taken = { λ s. S.taken s.now };

    ghost failures = { λ s. S.failures s.now };

    fn take(&mut self, octets: &[u8]) -> Result<usize, SinkFailed> {
        (**self).take(octets)
    }
}
