//! Sinks and sources over writers and readers.

ghost use Rattle.std.specs.Prelude.{◌≡◌, ◌+◌};

use crate::count::Count;
use crate::stream::sink::{Sink, SinkFailed};
use crate::stream::source::{Source, SourceFailed};
use std::io;

/// A sink over a writer, or a source over a reader, which counts the failed calls. A write that
/// takes nothing has failed.
#[derive(Drop)]
pub struct Counted<T> {
    pub inner: T,
    pub failures: Count,
}

impl<T> Counted<T> {
    /// No call has failed yet.
    pub fn new(inner: T) -> Counted<T>
        ensures inner { result.inner ≡ inner }
        ensures failures { result.failures.number ≡ 0 }
    {
        Counted {
            inner,
            failures: Count::zero(),
        }
    }

    // One more call has failed.
    fn count_failure(&mut self)
        ensures inner { self.new.inner ≡ self.old.inner }
        ensures failures { self.new.failures.number ≡ self.old.failures.number + 1 }
    {
        let failures = self.failures.next();
        self.failures = failures;
    }

    /// The writer or reader.
    pub fn into_inner(self) -> T
        ensures { result ≡ self.inner }
    {
        self.inner
    }
}

impl<T: io::Write> Sink for Counted<T> {
    ghost taken = { λ s. T.contents s.inner };

    ghost failures = { λ s. s.failures.number };

    fn take(&mut self, octets: &[u8]) -> Result<usize, SinkFailed> {
        if octets.is_empty() {
            return Ok(0);
        }
        match self.inner.write(octets) {
            Ok(n) if n > 0 => Ok(n),
            _ => {
                self.count_failure();
                Err(SinkFailed)
            }
        }
    }
}

impl<T: io::Read> Source for Counted<T> {
    ghost left = { λ s. T.remaining s.inner };

    ghost failures = { λ s. s.failures.number };

    fn read(&mut self, buf: &mut [u8]) -> Result<usize, SourceFailed> {
        match self.inner.read(buf) {
            Ok(n) => Ok(n),
            Err(_) => {
                self.count_failure();
                Err(SourceFailed)
            }
        }
    }
}
