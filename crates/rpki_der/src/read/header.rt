//! Identifiers and lengths.

ghost use Rattle.std.specs.Prelude.{slice_range, ◌≡◌, ◌<◌, ◌≤◌, ◌+◌, ◌^◌, length, None};
ghost use Rattle.std.specs.Prelude.{Some, MatchOption, Option};
ghost use Rattle.rpki_der.specs.Identifier.{is_constructed, is_tag};
ghost use Rattle.rpki_der.specs.Read.Parse.{shortest, value_at, length_at, long_at, contents_at};
ghost use Rattle.rpki_der.specs.Read.Parse.{step, outer, end_of, indefinite_at};
ghost use Rattle.rpki_der.specs.Read.Parse.{body_at, any_at, Finds};
ghost use Rattle.rpki_der.specs.Numbers.{least};

use crate::mode::Mode;
use crate::read::integer::number_in;
use crate::tag::{Tag, is_tag};

// The length, unless it is not in the shortest form.
#[inline(always)]
fn shortest_of(mode: Mode, least: usize, len: usize, rest: &[u8]) -> Option<(usize, &[u8])>
    ensures { Finds (λ r. (r.0, r.1.now)) result (shortest mode least len rest.now) }
{
    match mode {
        Mode::Der => { if len < least { None } else { Some((len, rest)) } }
        Mode::Ber => Some((len, rest)),
    }
}

// The least length that has a long form of `k` octets as its shortest one.
#[inline(always)]
fn least(k: usize) -> usize
    ensures { result ≡ least k }
{
    match k {
        1 => 0x80,
        2 => 0x100,
        3 => 0x1_0000,
        _ => 0x100_0000,
    }
}

// A length of `k` octets, and what follows it.
#[tactic(auto, unfolding(crate::specs::Read::Parse::long_at, crate::specs::Read::Parse::number_of))]
#[inline(always)]
fn long_of(mode: Mode, k: usize, bytes: &[u8]) -> Option<(usize, &[u8])>
    requires { k ≤ 4 }
    ensures { Finds (λ r. (r.0, r.1.now)) result (long_at k mode bytes.now) }
{
    if bytes.len() < k {
        return None;
    }
    let (digits, rest) = bytes.split_at(k);
    let len = number_in(digits)?;
    shortest_of(mode, least(k), len as usize, rest)
}

// A length, and what follows it.
#[tactic(auto, unfolding(crate::specs::Read::Parse::length_at))]
#[inline(always)]
fn length_of(mode: Mode, bytes: &[u8]) -> Option<(usize, &[u8])>
    ensures { Finds (λ r. (r.0, r.1.now)) result (length_at mode bytes.now) }
{
    match bytes {
        [] => None,
        [b, rest @ ..] => {
            if *b < 0x80 {
                Some((*b as usize, rest))
            } else if *b < 0x81 || *b > 0x84 {
                None
            } else {
                long_of(mode, *b as usize - 0x80, rest)
            }
        }
    }
}

// The contents after a length, and what follows them.
#[tactic(auto, unfolding(crate::specs::Read::Parse::contents_at))]
#[inline(always)]
fn contents_of(mode: Mode, bytes: &[u8]) -> Option<(&[u8], &[u8])>
    ensures { Finds (λ r. (r.0.now, r.1.now)) result (contents_at mode bytes.now) }
{
    let (len, rest) = length_of(mode, bytes)?;
    if rest.len() < len {
        return None;
    }
    Some(rest.split_at(len))
}

/// Whether the contents of a value with this identifier are values.
#[inline(always)]
pub fn is_constructed(t: u8) -> bool
    ensures { result ≡ is_constructed t }
{
    t % 64 >= 32
}

// How many values are open after an end, if any value is.
fn outer(depth: usize) -> Option<usize>
    ensures { result ≡ outer depth }
{
    if depth == 0 { None } else { Some(depth - 1) }
}

// Past an end, past a value of definite length, or into one of indefinite length.
#[tactic(auto, unfolding(crate::specs::Read::Parse::step, crate::specs::Read::Parse::value_step))]
fn step(depth: usize, bytes: &[u8]) -> Option<(Option<usize>, &[u8])>
    requires { depth + 1 < 2 ^ 64 }
    ensures { Finds (λ r. (r.0, r.1.now)) result (step depth bytes.now) }
{
    match bytes {
        [] => None,
        [_] => None,
        [t, rest @ ..] => {
            let l = rest[0];
            if *t == 0 {
                if l == 0 {
                    Some((outer(depth), &rest[1..]))
                } else {
                    None
                }
            } else if !is_tag(*t) {
                None
            } else if l == 0x80 {
                if is_constructed(*t) {
                    Some((Some(depth + 1), &rest[1..]))
                } else {
                    None
                }
            } else {
                let (_, after) = contents_of(Mode::Ber, rest)?;
                Some((Some(depth), after))
            }
        }
    }
}

// What follows the end of the contents of an indefinite value.
fn end_of(bytes: &[u8]) -> Option<&[u8]>
    ensures { Finds (λ r. r.now) result (end_of 0 bytes.now) }
{
    let mut depth = 0;
    let mut rest = bytes;
    loop {
        match step(depth, rest)? {
            (None, after) => return Some(after),
            (Some(k), after) => {
                depth = k;
                rest = after;
            }
        }
    }
}

// The contents up to their end, in BER, and what follows the end.
#[tactic(auto, using(crate::proofs::Reading::Scan::end_room), unfolding(crate::specs::Read::Parse::indefinite_at))]
fn indefinite_of(mode: Mode, tag: u8, bytes: &[u8]) -> Option<(&[u8], &[u8])>
    ensures { Finds (λ r. (r.0.now, r.1.now)) result (indefinite_at tag mode bytes.now) }
{
    match mode {
        Mode::Der => None,
        Mode::Ber => {
            if !is_constructed(tag) {
                return None;
            }
            let after = end_of(bytes)?;
            Some((&bytes[..bytes.len() - after.len() - 2], after))
        }
    }
}

// The contents after this identifier, and what follows the value.
#[tactic(auto, unfolding(crate::specs::Read::Parse::body_at))]
#[inline(always)]
fn body_of(mode: Mode, tag: u8, bytes: &[u8]) -> Option<(&[u8], &[u8])>
    ensures { Finds (λ r. (r.0.now, r.1.now)) result (body_at tag mode bytes.now) }
{
    match bytes {
        [] => None,
        [l, rest @ ..] => {
            if !is_tag(tag) {
                None
            } else if *l == 0x80 {
                indefinite_of(mode, tag, rest)
            } else {
                contents_of(mode, bytes)
            }
        }
    }
}

/// The contents of the value in front, which has this tag, and what follows the value (X.690,
/// section 8.1).
#[tactic(auto, unfolding(crate::specs::Read::Parse::value_at))]
#[inline(always)]
pub fn value_of(mode: Mode, tag: Tag, bytes: &[u8]) -> Option<(&[u8], &[u8])>
    ensures { Finds (λ r. (r.0.now, r.1.now)) result (value_at tag.octet mode bytes.now) }
{
    match bytes {
        [] => None,
        [t, rest @ ..] => {
            if *t == tag.octet {
                body_of(mode, *t, rest)
            } else {
                None
            }
        }
    }
}

/// The tag and the contents of any value in front, and what follows it.
#[tactic(auto, unfolding(crate::specs::Read::Parse::any_at))]
#[inline(always)]
pub fn any_of(mode: Mode, bytes: &[u8]) -> Option<((u8, &[u8]), &[u8])>
    ensures { Finds (λ r. ((r.0.0, r.0.1.now), r.1.now)) result (any_at mode bytes.now) }
{
    match bytes {
        [] => None,
        [t, rest @ ..] => {
            let (contents, after) = body_of(mode, *t, rest)?;
            Some(((*t, contents), after))
        }
    }
}

/// Where the contents of the value in front start and end, and where the value ends.
#[inline(always)]
pub fn place_of(mode: Mode, tag: Tag, bytes: &[u8]) -> Option<(usize, usize, usize)>
    ensures { MatchOption result (value_at tag.octet mode bytes.now ≡ None)
        (λ r. (r.0 ≤ r.1) × (r.1 ≤ length bytes.now) × (r.2 ≤ length bytes.now)
        × (value_at tag.octet mode bytes.now
        ≡ Some (slice_range bytes.now r.0 r.1, slice_range bytes.now r.2 (length bytes.now)))) }
{
    let (contents, after) = value_of(mode, tag, bytes)?;
    let next = bytes.len() - after.len();
    let end = if bytes[1] == 0x80 { next - 2 } else { next };
    Some((end - contents.len(), end, next))
}
