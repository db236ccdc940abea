//! Where the octets of files come from.

ghost use Rattle.std.specs.Prelude.{ℕ, List, Result, IfOk, Some};
ghost use Rattle.rpki_relying_party.specs.Fetches.{IsFetched};
ghost use Rattle.rpki_relying_party.specs.Texts.{no_file_text};

use bytes::Bytes;
use std::alloc::{AllocError, Global};
use std::fmt;

/// Why a copy gives no file for a URI.
#[derive(Clone, Copy, Debug, PartialEq, Eq)]
pub enum NoFile {
    /// It has none, or does not look for it.
    Missing,
    /// What it has is no regular file, or is reached by a symbolic link.
    NotRegular,
    /// The file has more octets than may be read.
    TooLarge,
    /// The file can't be read.
    Unreadable,
}

impl fmt::Display for NoFile {
    ghost output = { λ why. Some (no_file_text why) };

    fn fmt<W: fmt::Write>(&self, f: &mut fmt::Formatter<W>) -> fmt::Result {
        match self {
            NoFile::Missing => f.write_str("is not in the copy"),
            NoFile::NotRegular => f.write_str("is no regular file"),
            NoFile::TooLarge => f.write_str("is too large"),
            NoFile::Unreadable => f.write_str("can't be read"),
        }
    }
}

/// What a copy has for a URI.
#[derive(Debug, Drop)]
pub enum Fetched {
    /// The octets of the file.
    File(Bytes),
    /// There is no file, for this reason.
    NoFile(NoFile),
    /// The file has more octets than were asked for.
    Larger,
}

/// The repositories as a relying party has them, such as a folder of files: octets by URI.
pub trait Repository {
    ghost use Rattle.rpki_relying_party.specs.declared.copy.NoFile.{NoFile};

    // What a read of a URI may find: octets, or why there are none. Of a folder, which may change
    // at any time, that may be many things; a copy in memory finds one thing for each URI.
    ghost finds: { Self → List ℕ → Result (List ℕ) NoFile → Type 0 };

    /// What there is for a URI, or that memory ran out. A file is read if it has at most so many
    /// octets.
    fn read(&self, alloc: Global, uri: &[u8], most: u64) -> Result<Fetched, AllocError>
        ensures { IfOk result (IsFetched (finds self.now uri.now) most) };
}
