//! The words of anchors: tal=FILE, and ca=FILE[:FILE ..].

ghost use Rattle.std.specs.Prelude.{◌≡◌, ◌∷◌, [], IfOk, length};
ghost use Rattle.std.specs.List.{list_all};
ghost use Rattle.rpki_cli.specs.Words.{texts, are_named, is_locator, is_anchor, are_anchors};
ghost use Rattle.rpki_cli.specs.Words.{files_of_anchor, files_of_anchors};

use crate::pairs::{name_of, path_of};
use std::alloc::{AllocError, Global};

/// The word before the file of a locator.
const TAL: &str = "tal";

/// The word before the certificates of a chain.
const CA: &str = "ca";

/// Whether a word names a locator.
pub fn is_locator(word: &str) -> bool
    ensures { result ≡ is_locator word.now }
{
    name_of(word) == TAL
}

/// Whether a word names an anchor.
fn is_anchor(word: &str) -> bool
    ensures { result ≡ is_anchor word.now }
{
    is_locator(word) || name_of(word) == CA
}

/// Whether there are words, and each names an anchor.
pub fn are_anchors(words: &[&str]) -> bool
    ensures { result ≡ are_anchors (texts words.now) }
{
    !words.is_empty() && each_is_anchor(words)
}

/// Whether each of these words names an anchor.
fn each_is_anchor(words: &[&str]) -> bool
    ensures { result ≡ list_all is_anchor (texts words.now) }
{
    words.iter().all(|word| is_anchor(word))
}

/// The files that a word names: that of a locator, or those of a chain.
fn files_of<'a>(alloc: Global, word: &'a str) -> Result<Vec<&'a str>, AllocError>
    ensures { IfOk result (λ names. texts names.items ≡ files_of_anchor word.now) }
{
    if is_locator(word) {
        one_of(alloc, path_of(word))
    } else {
        path_of(word).split(':').collect(alloc)
    }
}

/// One file.
fn one_of<'a>(alloc: Global, path: &'a str) -> Result<Vec<&'a str>, AllocError>
    ensures { IfOk result (λ names. texts names.items ≡ path.now ∷ []) }
{
    let mut names = Vec::new(alloc);
    names.push(path)?;
    Ok(names)
}

/// How many files a word names.
pub fn count_of(word: &str) -> usize
    ensures { result ≡ length (files_of_anchor word.now) }
{
    if is_locator(word) {
        1
    } else {
        path_of(word).split(':').count()
    }
}

/// Whether each file that a word names has a name.
fn is_named(word: &str) -> bool
    ensures { result ≡ are_named (files_of_anchor word.now) }
{
    if is_locator(word) {
        !path_of(word).is_empty()
    } else {
        path_of(word).split(':').all(|path| !path.is_empty())
    }
}

/// Whether each file that these words name has a name.
pub fn are_anchors_named(words: &[&str]) -> bool
    ensures { result ≡ are_named (files_of_anchors (texts words.now)) }
{
    words.iter().all(|word| is_named(word))
}

/// The files that these words name, in their order.
pub fn names_of_anchors<'a>(alloc: Global, words: &[&'a str]) -> Result<Vec<&'a str>, AllocError>
    ensures { IfOk result (λ names. texts names.items ≡ files_of_anchors (texts words.now)) }
{
    let mut names = Vec::new(alloc);
    for word in words {
        let own = files_of(alloc, word)?;
        names.extend_from_slice(&own)?;
    }
    Ok(names)
}
