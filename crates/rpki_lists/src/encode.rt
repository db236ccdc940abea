//! Lists that are written anew.

ghost use Rattle.std.specs.Prelude.{◌≡◌, ◌↔◌, ◌<◌, ◌^◌, ℕ, List, All, length};
ghost use Rattle.std.specs.List.{flat_map};
ghost use Rattle.rpki_der.specs.Write.Parts.{each_small};

use crate::iter::EntryIter;
use crate::kind::{EntryKind, SliceEntry};
use rpki_der::{Encode, EncodeError, Sink, SinkFailed};

/// Entries that are written. That what is written is read again is each content's own clause: see
/// `laws::lists_are_written`.
pub trait Written: SliceEntry {
    /// What writes an entry.
    type Encoder: Encode + Drop;

    // The octets that an entry is written as.
    ghost octets: { Self.EntryKind.Shown → List ℕ };

    // Each contents in it has fewer than 2^32 octets.
    ghost is_short: { Self.EntryKind.Shown → Type 0 };

    /// The entry, to be written.
    fn encoder(item: Self::Item) -> Self::Encoder
        ensures octets { Self.Encoder.octets result ≡ octets (Self.shown item) }
        ensures der { Self.Encoder.is_der result }
        ensures short { Self.Encoder.is_short result ↔ is_short (Self.shown item) };

    // What has few octets has no long contents.
    ghost small: { (x : Self.EntryKind.Shown) → length (octets x) < 2 ^ 32 → is_short x };
}

/// Entries, written one after another, each anew. They are read once for their length and once to
/// be written; no memory is taken.
#[derive(Drop)]
pub struct EntriesEncoder<E: SliceEntry>(pub EntryIter<E>);

impl<E: Written> Encode for EntriesEncoder<E> {
    ghost octets = { λ s. flat_map E.octets s.0 };

    ghost is_short = { λ s. All E.is_short s.0 };

    ghost small = { λ x h. each_small E.octets E.is_short E.small x.0 h };

    fn encoded_len(&self) -> Result<u64, EncodeError> {
        let mut total = 0u64;
        let mut rest = self.0.again();
        while let Some(item) = rest.next() {
            let n = E::encoder(item).encoded_len()?;
            total = match total.checked_add(n) {
                Some(n) => n,
                None => return Err(EncodeError::TooLong),
            };
        }
        Ok(total)
    }

    fn put<W: Sink>(&self, _len: u64, out: &mut W) -> Result<(), SinkFailed> {
        let mut rest = self.0.again();
        while let Some(item) = rest.next() {
            let encoder = E::encoder(item);
            let Ok(n) = encoder.encoded_len() else {
                unreachable!()
            };
            encoder.put(n, out)?;
        }
        Ok(())
    }
}
