//! Places that are numbers.

ghost use Rattle.std.specs.Prelude.{◌≡◌, ◌++◌, OnOk};
ghost use Rattle.rpki_relying_party_tests.specs.Numbers.{cost_of, seconds_of};

use rpki_relying_party::{Places, Reading, Told};
use std::alloc::{AllocError, Global};

/// Pairs of a place and a child, and pairs of a place and what it says. Each place costs 1, and from
/// this one on 100; for one there may be no memory.
#[derive(Clone, Copy)]
pub struct Numbers<'a> {
    pub issued: &'a [(u8, u8)],
    pub said: &'a [(u8, u8)],
    pub dear: u8,
    pub large: Option<u8>,
}

// Puts the second numbers of the pairs with this first number at the end of a list.
#[tactic(auto, using(crate::proofs::Seconds::pair_by_pair))]
fn put_seconds(first: u8, pairs: &[(u8, u8)], list: &mut Vec<u8>) -> Result<(), AllocError>
    ensures { OnOk result (list.new.items ≡ list.old.items ++ seconds_of first pairs.now) }
{
    for (number, second) in pairs {
        if *number == first {
            list.push(*second)?;
        }
    }
    Ok(())
}

// What it costs to read a place.
fn cost_of(place: u8, dear: u8) -> u64
    ensures { result ≡ cost_of dear place }
{
    if place < dear { 1 } else { 100 }
}

// Puts numbers at the end of others.
fn append(numbers: &[u8], list: &mut Vec<u8>) -> Result<(), AllocError>
    ensures { OnOk result (list.new.items ≡ list.old.items ++ numbers.now) }
{
    list.extend_from_slice(numbers)
}

impl<'a> Places for Numbers<'a> {
    ghost use Rattle.std.specs.Prelude.{◌≡◌, ◌<◌, ◌⊎◌, ◌∷◌, [], ℕ, All, Contains, OnOk};
    ghost use Rattle.rpki_relying_party_tests.specs.Numbers.{cost_of, seconds_of};

    type Place = u8;

    type Finding = u8;

    type Found = Vec<u8>;

    ghost key_of = { λ t place. place ∷ [] };

    ghost tells = { λ t place said children. (said ≡ seconds_of place t.said.now)
        × (children ≡ seconds_of place t.issued.now) };

    ghost costs = { λ t place n. n ≡ cost_of t.dear place };

    ghost exceeds = { λ t place n. n < cost_of t.dear place };

    ghost alike = { λ x y. x ≡ y };

    ghost lists = { λ found x. Contains found.items x };

    ghost has = { λ found x. Contains found.items x };

    fn key(&self, alloc: Global, place: &u8) -> Result<Vec<u8>, AllocError> {
        let mut key = Vec::new(alloc);
        key.push(*place)?;
        Ok(key)
    }

    fn read(&self, alloc: Global, place: &u8, room: u64) -> Result<Reading<u8, u8>, AllocError> {
        if self.large == Some(*place) {
            return Err(AllocError);
        }
        let cost = cost_of(*place, self.dear);
        if room < cost {
            return Ok(Reading::Cut);
        }
        let mut said = Vec::new(alloc);
        put_seconds(*place, self.said, &mut said)?;
        let mut children = Vec::new(alloc);
        put_seconds(*place, self.issued, &mut children)?;
        Ok(Reading::Told(Told {
            said,
            children,
            cost,
        }))
    }

    fn keep(&self, _alloc: Global, said: Vec<u8>, found: &mut Vec<u8>) -> Result<(), AllocError>
        ensures lists { OnOk result ((x : ℕ) → Contains found.new.items x
            → Contains found.old.items x ⊎ Contains said.items x) }
        ensures stays { OnOk result ((x : ℕ) → Contains found.old.items x
            → Contains found.new.items x) }
        ensures said { OnOk result (All (Contains found.new.items) said.items) }
    {
        append(&said, found)
    }
}
