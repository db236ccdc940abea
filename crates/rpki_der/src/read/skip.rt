//! Values that are skipped.

ghost use Rattle.std.specs.Prelude.{◌≡◌, ◌≤◌, ◌<◌, ◌-◌, length, slice_range, None, Some};
ghost use Rattle.std.specs.Prelude.{MatchOption, is_some};
ghost use Rattle.rpki_der.specs.Numbers.{MAX_DEPTH};
ghost use Rattle.rpki_der.specs.Read.Parse.{skip_at, Finds, all_of, there};

use crate::mode::Mode;
use crate::read::header::{any_of, is_constructed};

/// How deep values that are skipped nest.
pub const DEPTH: u32 = 32;

/// What follows the value in front, which nests at most to this depth.
pub fn skip_of(depth: u32, mode: Mode, bytes: &[u8]) -> Option<&[u8]>
    ensures { Finds (λ r. (tt, r.now)) result (skip_at depth mode bytes.now) }
{
    if depth == 0 {
        return None;
    }
    let ((tag, contents), after) = any_of(mode, bytes)?;
    if is_constructed(tag) {
        let mut rest = contents;
        while !rest.is_empty() {
            rest = skip_of(depth - 1, mode, rest)?;
        }
    }
    Some(after)
}

/// Where the value in front ends.
pub fn skip_place(mode: Mode, bytes: &[u8]) -> Option<usize>
    ensures { MatchOption result (skip_at MAX_DEPTH mode bytes.now ≡ None)
        (λ end. (end ≤ length bytes.now)
        × (skip_at MAX_DEPTH mode bytes.now
        ≡ Some (tt, slice_range bytes.now end (length bytes.now)))) }
{
    let after = skip_of(DEPTH, mode, bytes)?;
    Some(bytes.len() - after.len())
}

/// Whether octets are values that nest at most 32 deep, one after the other.
pub fn are_skipped(mode: Mode, bytes: &[u8]) -> bool
    ensures { result ≡ is_some (there (all_of (skip_at MAX_DEPTH) mode bytes.now)) }
{
    let mut rest = bytes;
    while !rest.is_empty() {
        match skip_of(DEPTH, mode, rest) {
            None => return false,
            Some(after) => rest = after,
        }
    }
    true
}
