//! What faults say.

ghost use Rattle.std.specs.Prelude.{Some};
ghost use Rattle.rpki_faults.specs.Text.Fault.{text_of};

use crate::uncovered::UncoveredPrefix;
use std::fmt;

/// What a fault says. It is had without memory, and printed by `Display`.
#[derive(Clone, Copy, Debug, PartialEq, Eq)]
pub enum FaultText {
    /// These words.
    Fixed(&'static str),
    /// The words of a prefix that a certificate does not have, which name the prefix.
    Uncovered(UncoveredPrefix),
}

impl fmt::Display for FaultText {
    ghost output = { λ text. Some (text_of text) };

    fn fmt<W: fmt::Write>(&self, f: &mut fmt::Formatter<W>) -> fmt::Result {
        match self {
            FaultText::Fixed(words) => f.write_str(*words),
            FaultText::Uncovered(uncovered) => uncovered.fmt(f),
        }
    }
}
