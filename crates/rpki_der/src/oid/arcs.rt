//! The text of an object identifier.

ghost use Rattle.std.specs.Prelude.{◌≡◌, ◌≤◌, ◌^◌, ◌++◌, true, false, Some, MatchOption};
ghost use Rattle.std.specs.List.{flat_map};
ghost use Rattle.rpki_der.specs.Oid.{IsOid, arcs, subidentifiers, point, dotted};
ghost use Rattle.rpki_der.specs.Text.Arcs.{is_whole, first_below, are_small, head_text};
ghost use Rattle.rpki_der.specs.Read.Parse.{Finds};

use std::fmt;

// Each printed arc is below this.
const LIMIT: u64 = 1 << 32;

// The first subidentifier is below this: from 80 on it stands for the arcs 2 and itself without
// 80.
const FIRST_LIMIT: u64 = LIMIT + 80;

// The first subidentifier and what follows it, if it is below the limit.
#[tactic(auto, unfolding(crate::specs::Text::Arcs::first_below))]
fn subidentifier(limit: u64, octets: &[u8]) -> Option<(u64, &[u8])>
    requires { limit ≤ 2 ^ 40 }
    ensures { Finds (λ r. (r.0, r.1.now)) result (first_below limit 0 octets.now) }
{
    let mut n = 0;
    let mut rest = octets;
    while let Some((octet, after)) = rest.split_first() {
        let octet = *octet as u64;
        n = n * 128 + octet % 128;
        if n >= limit {
            return None;
        }
        rest = after;
        if octet < 128 {
            return Some((n, rest));
        }
    }
    None
}

// Whether each subidentifier has at most 32 bits.
fn are_small(octets: &[u8]) -> bool
    requires { is_whole octets.now ≡ true }
    ensures { result ≡ are_small (subidentifiers 0 octets.now) }
{
    let mut rest = octets;
    while !rest.is_empty() {
        match subidentifier(LIMIT, rest) {
            None => return false,
            Some((_, after)) => rest = after,
        }
    }
    true
}

/// The arcs, where each has at most 32 bits.
pub fn small_arcs(contents: &[u8]) -> Option<(Head, Points<'_>)>
    requires { IsOid contents.now }
    ensures { MatchOption result (are_small (arcs contents.now) ≡ false)
        (λ r. (are_small (arcs contents.now) ≡ true)
        × (dotted (arcs contents.now)
        ≡ head_text r.0.0 ++ flat_map point (subidentifiers 0 r.1.octets.now))) }
{
    let (x, others) = subidentifier(FIRST_LIMIT, contents)?;
    if are_small(others) {
        Some((Head(x), Points { octets: others }))
    } else {
        None
    }
}

/// The two arcs of a first subidentifier.
#[derive(Drop)]
pub struct Head(u64);

impl fmt::Display for Head {
    ghost output = { λ h. Some (head_text h.0) };

    fn fmt<W: fmt::Write>(&self, f: &mut fmt::Formatter<W>) -> fmt::Result {
        let x = self.0;
        if x < 40 {
            write!(f, "0.{x}")
        } else if x < 80 {
            let y = x - 40;
            write!(f, "1.{y}")
        } else {
            let y = x - 80;
            write!(f, "2.{y}")
        }
    }
}

/// Further arcs, each after a dot.
#[derive(Drop)]
pub struct Points<'a> {
    octets: &'a [u8],
    ghost whole: { is_whole octets.now ≡ true },
    ghost small: { are_small (subidentifiers 0 octets.now) ≡ true },
}

impl fmt::Display for Points<'_> {
    ghost output = { λ p. Some (flat_map point (subidentifiers 0 p.octets.now)) };

    fn fmt<W: fmt::Write>(&self, f: &mut fmt::Formatter<W>) -> fmt::Result {
        let mut rest = self.octets;
        while let Some((arc, after)) = subidentifier(LIMIT, rest) {
            write!(f, ".{arc}")?;
            rest = after;
        }
        Ok(())
    }
}
