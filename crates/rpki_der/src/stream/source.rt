//! What gives octets.

ghost use Rattle.std.specs.Prelude.{◌≡◌, ℕ, ◌+◌, ◌≤◌, List, length, Option, OnOk, OnErr, IfOk};
ghost use Rattle.std.specs.Prelude.{IsErrOf};
ghost use Rattle.std.specs.Io.KnownBytes.{ReadConsumes, Consumes, IsAtEnd};

use std::alloc::Global;
use std::error::Error;
use std::fmt;

/// A call of a source has failed. It is not tried again.
#[derive(Debug, Drop)]
pub struct SourceFailed;

/// Why a source was not read to its end.
#[derive(Debug, Drop)]
pub enum SourceError {
    /// A call of the source has failed.
    Io,
    /// No memory was to be had.
    Memory,
}

impl fmt::Display for SourceFailed {
    ghost use Rattle.std.specs.Prelude.{Some, codes};

    ghost output = { λ _. Some (codes "read failed") };

    fn fmt<W: fmt::Write>(&self, f: &mut fmt::Formatter<W>) -> fmt::Result {
        f.write_str("read failed")
    }
}

impl Error for SourceFailed {}

impl fmt::Display for SourceError {
    ghost use Rattle.std.specs.Prelude.{Some};
    ghost use Rattle.rpki_der.specs.Text.Error.{source_error_text};

    ghost output = { λ error. Some (source_error_text error) };

    fn fmt<W: fmt::Write>(&self, f: &mut fmt::Formatter<W>) -> fmt::Result {
        f.write_str(match self {
            SourceError::Io => "read failed",
            SourceError::Memory => "out of memory",
        })
    }
}

impl Error for SourceError {}

/// What gives octets.
pub trait Source {
    // The octets that it has left to give, where they are known.
    ghost left: { Self → Option (List ℕ) };

    // How many calls have failed.
    ghost failures: { Self → ℕ };

    /// Gives octets into the front of a slice, and answers how many. Where it gives none into a
    /// slice that is not empty, it has ended. A call that fails, by `SourceFailed`, gives none.
    fn read(&mut self, buf: &mut [u8]) -> Result<usize, SourceFailed>
        ensures count { IfOk result (λ n. n ≤ length buf.new) }
        ensures given { ReadConsumes (left self.old) (left self.new) result buf.new }
        ensures ok { OnOk result (failures self.new ≡ failures self.old) }
        ensures err { OnErr result (failures self.new ≡ failures self.old + 1) };

    /// Reads to the end. Where a call fails, what was given before is lost, and the answer is `Io`;
    /// a source that never ends ends in `Memory`, the want of it.
    final fn read_all(&mut self, alloc: Global) -> Result<Vec<u8>, SourceError>
    where
        Self: Sized,
        ensures given { IfOk result (λ v. Consumes (left self.old) (left self.new) v.items) }
        ensures end { OnOk result (IsAtEnd (left self.new)) }
        ensures same { OnOk result (failures self.new ≡ failures self.old) }
        ensures failed { IsErrOf result SourceError.Io → failures self.new ≡ failures self.old + 1 }
        ensures memory { IsErrOf result SourceError.Memory → failures self.new ≡ failures self.old }
    {
        let mut octets = Vec::new(alloc);
        let mut chunk = [0u8; 512];
        loop {
            match self.read(&mut chunk) {
                Err(_) => return Err(SourceError::Io),
                Ok(0) => return Ok(octets),
                Ok(n) => match octets.extend_from_slice(&chunk[..n]) {
                    Ok(()) => {}
                    Err(_) => return Err(SourceError::Memory),
                },
            }
        }
    }
}

impl<S: Source> Source for &mut S {
    ghost left = { λ s. S.left s.now };

    ghost failures = { λ s. S.failures s.now };

    fn read(&mut self, buf: &mut [u8]) -> Result<usize, SourceFailed> {
        (**self).read(buf)
    }
}
