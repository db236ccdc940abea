//! OCTET STRINGs.

ghost use Rattle.std.specs.Prelude.{◌≡◌, ◌≤◌, ◌<◌, ◌-◌, ◌++◌, length, slice_range, None, Some};
ghost use Rattle.std.specs.Prelude.{IfOk, MatchOption, List, ℕ};
ghost use Rattle.rpki_der.specs.Numbers.{MAX_DEPTH};
ghost use Rattle.rpki_der.specs.Read.Parse.{octets_at, Appends};

use crate::mode::Mode;
use crate::read::header::any_of;
use crate::read::skip::DEPTH;
use crate::tag::Tag;
use std::alloc::AllocError;

/// Puts the octets of the OCTET STRING in front, which nests at most to this depth, after those of
/// `out`. What follows it, or `None` where no such string stands there. Refuses where memory runs
/// out.
pub fn append_octets<'s>(
    depth: u32,
    mode: Mode,
    bytes: &'s [u8],
    out: &mut Vec<u8>,
) -> Result<Option<&'s [u8]>, AllocError>
    ensures { IfOk result
        (λ o. Appends (λ r. r.now) out.old.items o out.new.items (octets_at depth mode bytes.now)) }
{
    if depth == 0 {
        return Ok(None);
    }
    match any_of(mode, bytes) {
        None => Ok(None),
        Some(((tag, contents), after)) => {
            if tag == Tag::OCTET_STRING.octet {
                out.extend_from_slice(contents)?;
                return Ok(Some(after));
            }
            if tag != Tag::OCTET_STRING_IN_PIECES.octet {
                return Ok(None);
            }
            if let Mode::Der = mode {
                return Ok(None);
            }
            let mut rest = contents;
            while !rest.is_empty() {
                match append_octets(depth - 1, mode, rest, out)? {
                    None => return Ok(None),
                    Some(others) => rest = others,
                }
            }
            Ok(Some(after))
        }
    }
}

/// Puts the octets of the OCTET STRING in front after those of `out`. Where it ends, or `None`
/// where none stands there. Refuses where memory runs out.
pub fn string_place(
    mode: Mode,
    bytes: &[u8],
    out: &mut Vec<u8>,
) -> Result<Option<usize>, AllocError>
    ensures { IfOk result
        (λ o. MatchOption o (octets_at MAX_DEPTH mode bytes.now ≡ None)
        (λ end. (end ≤ length bytes.now)
        × (octets : List ℕ)
        × (octets_at MAX_DEPTH mode bytes.now
        ≡ Some (octets, slice_range bytes.now end (length bytes.now)))
        × (out.new.items ≡ out.old.items ++ octets))) }
{
    match append_octets(DEPTH, mode, bytes, out)? {
        None => Ok(None),
        Some(after) => Ok(Some(bytes.len() - after.len())),
    }
}
