//! The words after the trust anchor of a walk: certificates of CAs, `with`, and pairs NAME=PATH.

ghost use Rattle.std.specs.Prelude.{◌≡◌, ◌++◌, ◌↔◌, IfOk, OnOk, IsTrue, Contains, map};
ghost use Rattle.rpki_cli.specs.Words.{texts, are_named, word_with, chain_in, pairs_in, name_in};
ghost use Rattle.rpki_cli.specs.Words.{path_in, others_in};

use crate::words::all_named;
use std::alloc::{AllocError, Global};

/// The word that ends the certificates.
const WITH: &str = "with";

/// Whether one of the words is `with`.
pub fn has_with(tail: &[&str]) -> bool
    ensures { IsTrue result ↔ Contains (texts tail.now) word_with }
{
    for word in tail {
        if *word == WITH {
            return true;
        }
    }
    false
}

/// The words before the first `with`, and those after it; without one, all are before it.
pub fn cut_at_with<'a, 's>(tail: &'s [&'a str]) -> (&'s [&'a str], &'s [&'a str])
    ensures chain { texts result.0.now ≡ chain_in (texts tail.now) }
    ensures pairs { texts result.1.now ≡ pairs_in (texts tail.now) }
{
    for (at, word) in tail.iter().enumerate() {
        if *word == WITH {
            return (&tail[..at], &tail[at + 1..]);
        }
    }
    (tail, &[])
}

/// The name and the path of a pair, which stand before and after its first `=`; without one, all
/// is the name, and the path is empty.
fn cut_pair<'a>(pair: &'a str) -> (&'a str, &'a str)
    ensures name { result.0.now ≡ name_in pair.now }
    ensures path { result.1.now ≡ path_in pair.now }
{
    match pair.split_once('=') {
        Some(parts) => parts,
        None => (pair, ""),
    }
}

/// The name of a pair.
pub fn name_of<'a>(pair: &'a str) -> &'a str
    ensures { result.now ≡ name_in pair.now }
{
    cut_pair(pair).0
}

/// The path of a pair.
pub fn path_of<'a>(pair: &'a str) -> &'a str
    ensures { result.now ≡ path_in pair.now }
{
    cut_pair(pair).1
}

/// Whether each file that these words name has a name.
pub fn are_others_named(tail: &[&str]) -> bool
    ensures { result ≡ are_named (others_in (texts tail.now)) }
{
    let (chain, pairs) = cut_at_with(tail);
    all_named(chain) && are_paths_named(pairs)
}

/// Whether each pair has a path.
fn are_paths_named(pairs: &[&str]) -> bool
    ensures { result ≡ are_named (map path_in (texts pairs.now)) }
{
    for pair in pairs {
        if path_of(pair).is_empty() {
            return false;
        }
    }
    true
}

/// The files that these words name: those of CAs, and those of the pairs.
pub fn others_of<'a>(alloc: Global, tail: &[&'a str]) -> Result<Vec<&'a str>, AllocError>
    ensures { IfOk result (λ names. texts names.items ≡ others_in (texts tail.now)) }
{
    let (chain, pairs) = cut_at_with(tail);
    let mut names = Vec::new(alloc);
    names.extend_from_slice(chain)?;
    push_paths(&mut names, pairs)?;
    Ok(names)
}

/// Appends the paths of the pairs.
fn push_paths<'a>(names: &mut Vec<&'a str>, pairs: &[&'a str]) -> Result<(), AllocError>
    ensures { OnOk result (texts names.new.items
        ≡ texts names.old.items ++ map path_in (texts pairs.now)) }
{
    for pair in pairs {
        names.push(path_of(pair))?;
    }
    Ok(())
}
