//! Kinds of entries, and how they are read from a slice.

ghost use Rattle.std.specs.Prelude.{◌≡◌, ◌↔◌, ℕ, List, length, IsTrue, Some};
ghost use Rattle.rpki_der.specs.Read.Parse.{Parser};
ghost use Rattle.rpki_lists.specs.Slice.{FindsFront, IsFound};
ghost use Rattle.rpki_lists.specs.Entries.{PassesFront, Shrinks};
ghost use Rattle.rpki_lists.specs.Text.{refused_text};

use crate::slice::SliceReader;
use std::error::Error;
use std::fmt::{self, Debug};

/// Why an entry is refused.
#[derive(Clone, Copy, Debug)]
pub enum Refused {
    /// The octets don't begin with an entry.
    Malformed,
    /// A rule of the format is broken, which this text states.
    For(&'static str),
}

impl fmt::Display for Refused {
    ghost output = { λ refused. Some (refused_text refused) };

    fn fmt<W: fmt::Write>(&self, f: &mut fmt::Formatter<W>) -> fmt::Result {
        match self {
            Refused::Malformed => f.write_str("malformed"),
            Refused::For(text) => f.write_str(*text),
        }
    }
}

impl Error for Refused {}

/// A kind of entries.
pub trait EntryKind {
    /// What an entry says.
    type Shown;

    // What reads an entry.
    ghost entry_at: { Parser Self.Shown };

    /// Goes past the entry in front. Refuses by `Malformed` or `For` where there is none.
    fn skip(reader: &mut SliceReader<'_>) -> Result<(), Refused>
        ensures { PassesFront entry_at reader.old result reader.new };

    // Each has an octet at least.
    ghost shrinks: { Shrinks entry_at };
}

/// How the entries of a kind are read from a slice. A kind implements it for a type with the
/// lifetime of the slice, as `struct NumberEntry<'a>(PhantomData<&'a [u8]>)`, and with
/// `SliceReader<'a>` as its reader.
pub trait SliceEntry {
    type EntryKind: EntryKind;

    /// An entry, whose parts lie in the slice.
    type Item: Drop;

    /// The reader of the slice.
    type Reader: Drop + Debug;

    // The octets that the reader has left.
    ghost slice: { Self.Reader → List ℕ };

    // What the entry says.
    ghost shown: { Self.Item → Self.EntryKind.Shown };

    /// Whether the reader is at its end.
    fn is_end(reader: &Self::Reader) -> bool
        ensures { IsTrue result ↔ (length (slice reader.now) ≡ 0) };

    /// Reads the entry in front. That there is one is known, and need not be tested.
    fn read(reader: &mut Self::Reader) -> Self::Item
        requires { IsFound Self.EntryKind.entry_at (slice reader.old) }
        ensures { FindsFront shown Self.EntryKind.entry_at
            (slice reader.old) (Some result) (slice reader.new) };

    /// The same reader again.
    fn again(reader: &Self::Reader) -> Self::Reader
        ensures { slice result ≡ slice reader.now };
}
