//! Prefixes that a certificate does not have.

ghost use Rattle.std.specs.Prelude.{Some};
ghost use Rattle.rpki_faults.specs.Text.Verification.{uncovered_text};

use rpki_resources::MaxLenPrefix;
use std::error::Error;
use std::fmt;

/// A prefix of a ROA that is not among the numbers of its certificate (RFC 9582, section 5).
#[derive(Clone, Copy, Debug, PartialEq, Eq)]
pub struct UncoveredPrefix {
    /// The prefix, with its maximum length where the ROA has one, in bits.
    pub prefix: MaxLenPrefix,
}

impl fmt::Display for UncoveredPrefix {
    ghost output = { λ uncovered. Some (uncovered_text uncovered) };

    fn fmt<W: fmt::Write>(&self, f: &mut fmt::Formatter<W>) -> fmt::Result {
        let prefix = self.prefix;
        write!(f, "ROA prefix {prefix} not covered by certificate")
    }
}

impl Error for UncoveredPrefix {}
