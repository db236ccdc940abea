//! Files at hand: those that the pairs after the trust anchor of a walk name.

ghost use Rattle.std.specs.Prelude.{◌≡◌, ◌≤◌, length, map, IfOk};
ghost use Rattle.rpki_signed.specs.Walk.{at_hand};
ghost use Rattle.rpki_cli.specs.Words.{texts, chain_in};
ghost use Rattle.rpki_command.specs.Walk.{certs_in, hand_in};

use bytes::Bytes;
use rpki_cli::pairs::{cut_at_with, name_of};
use std::alloc::{AllocError, Global};
use std::marker::Model;

/// Files at hand: pairs NAME=PATH, and the octets of the file of each.
#[derive(Drop)]
pub struct Hand<'s> {
    pairs: &'s [&'s str],
    octets: &'s [Bytes],
}

impl<'s> Model for Hand<'s> {
    ghost use Rattle.std.specs.Prelude.{ℕ, List, map};
    ghost use Rattle.std.specs.List.{zip};
    ghost use Rattle.rpki_cli.specs.Words.{name_in, texts};

    // Each name with its octets.
    ghost Value = { List (List ℕ × List ℕ) };

    ghost view = { λ h. zip (map name_in (texts h.pairs.now)) h.octets.now };
}

/// Of the files that the words after a trust anchor name, those of CAs, and the files at hand.
pub fn cut_others<'s>(tail: &'s [&'s str], others: &'s [Bytes]) -> (&'s [Bytes], Hand<'s>)
    requires { length (chain_in (texts tail.now)) ≤ length others.now }
    ensures certs { result.0.now ≡ certs_in (texts tail.now) others.now }
    ensures hand { result.1 ≡ hand_in (texts tail.now) others.now }
{
    let (chain, pairs) = cut_at_with(tail);
    let (certs, octets) = others.split_at(chain.len());
    (certs, Hand { pairs, octets })
}

impl<'s> Hand<'s> {
    /// The files, each with its name.
    pub fn files(&self, alloc: Global) -> Result<Vec<(&'s [u8], &'s [u8])>, AllocError>
        ensures { IfOk result (λ files.
            map (at_hand (λ name. name.now) (λ octets. octets.now)) files.items ≡ self.now) }
    {
        let mut files = Vec::new(alloc);
        for (pair, octets) in self.pairs.iter().zip(self.octets.iter()) {
            files.push((name_of(pair).as_bytes(), octets.as_slice()))?;
        }
        Ok(files)
    }
}
