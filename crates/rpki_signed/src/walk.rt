//! Which entries of a manifest are held by files at hand.

ghost use Rattle.std.specs.Prelude.{◌≡◌, map};
ghost use Rattle.rpki_signed.specs.Walk.{at_hand, is_held, walk_of};

use rpki_basics::Crypto;
use rpki_der::AsOctets;
use rpki_files::{FileAndHash, FileListIter, ManifestContent};
use std::marker::Model;

/// The entries of a manifest that are held by files at hand, in the manifest's order: those whose
/// name a file has, and whose hash is the digest of the first such file's octets (RFC 9286, section
/// 6.5).
///
/// It borrows the manifest and the files, which are pairs of a name and its octets, takes no memory
/// and can't fail. Names are octets, and are compared as they are. A hash is compared as a whole,
/// so one of no octets, or of any number but 32, is never held. Since nothing is kept, each entry
/// is looked up among the files from the first one on: its cost grows with their number. For a
/// folder of many files there is `rpki_relying_party`, which looks each entry up by its URI.
#[derive(Debug, Drop)]
pub struct Walk<'a, N: AsOctets, O: AsOctets, C: Crypto> {
    entries: FileListIter<'a>,
    files: &'a [(N, O)],
    crypto: &'a C,
}

impl<'a, N: AsOctets, O: AsOctets, C: Crypto> Model for Walk<'a, N, O, C> {
    ghost use Rattle.std.specs.Prelude.{List, map};
    ghost use Rattle.rpki_files.specs.Manifest.Files.{File};
    ghost use Rattle.rpki_signed.specs.Walk.{at_hand, walk_of};

    // The entries that are still to come.
    ghost Value = { List File };

    ghost view = { λ w. walk_of (C.digest_of w.crypto.now)
        (map (at_hand N.meaning O.meaning) w.files.now) w.entries };
}

impl<'a, N: AsOctets, O: AsOctets, C: Crypto> Walk<'a, N, O, C> {
    /// The entries of this manifest that these files hold, by the digests of `crypto`.
    pub fn new(
        content: &'a ManifestContent,
        files: &'a [(N, O)],
        crypto: &'a C,
    ) -> Walk<'a, N, O, C>
        ensures { result ≡ walk_of (C.digest_of crypto.now)
            (map (at_hand N.meaning O.meaning) files.now) content.now.files }
    {
        Walk {
            entries: content.iter(),
            files,
            crypto,
        }
    }
}

impl<'a, N: AsOctets, O: AsOctets, C: Crypto> Iterator for Walk<'a, N, O, C> {
    type Item = FileAndHash<&'a [u8], &'a [u8]>;

    ghost use Rattle.std.specs.Iterator.{YieldsFirstBy, item_count};

    ghost next_gives = { YieldsFirstBy (λ f. record { file = f.file.now; hash = f.hash.now })
        (λ rest. rest) };

    ghost remaining = { item_count (λ rest. rest) };

    fn next(&mut self) -> Option<FileAndHash<&'a [u8], &'a [u8]>> {
        while let Some(entry) = self.entries.next() {
            if is_held(&entry, self.files, self.crypto) {
                return Some(entry);
            }
        }
        None
    }
}

// Whether the first of the files with the name of the entry has its hash.
fn is_held<N: AsOctets, O: AsOctets, C: Crypto>(
    entry: &FileAndHash<&[u8], &[u8]>,
    files: &[(N, O)],
    crypto: &C,
) -> bool
    ensures { result ≡ is_held (C.digest_of crypto.now)
        (map (at_hand N.meaning O.meaning) files.now)
        (record { file = entry.now.file.now; hash = entry.now.hash.now }) }
{
    for (name, octets) in files {
        if name.as_octets() == entry.file {
            return crypto.digest(octets.as_octets()).as_slice() == entry.hash;
        }
    }
    false
}
