//! What a program answers of several files.

ghost use Rattle.std.specs.Prelude.{◌≡◌, ◌≤◌, ◌+◌, ◌++◌, ℕ, List, length, IfOk};
ghost use Rattle.rpki_cli.specs.Answer.{Output, said};
ghost use Rattle.rpki_cli.specs.Command.{AreReadAtMost, IsOfFiles};
ghost use Rattle.rpki_cli.specs.Words.{texts, chain_in, others_in, files_of_anchors};

use crate::anchor_words::names_of_anchors;
use crate::answer::Answer;
use crate::pairs::others_of;
use crate::store::{Store, Unread, read_all};
use bytes::Bytes;
use std::alloc::{AllocError, Global};

/// What is answered of the octets of files.
pub trait Work: Drop {
    // How many files it takes, at the least.
    ghost least: { Self → ℕ };

    // What is said of their octets.
    ghost says: { Self → List (List ℕ) → Output → Type 0 };

    /// Answers of these files.
    fn answer<'a>(self, alloc: Global, files: &[Bytes]) -> Answer<'a>
        requires { least self ≤ length files.now }
        ensures { says self files.now (said result) };
}

/// Answers by the work of the files with these names, first some, and then others: they are read in
/// this order.
#[tactic(auto, using(crate::proofs::Asking::by_names))]
pub fn answer_files<'a, W: Work, S: Store>(
    alloc: Global,
    work: W,
    first: &[&'a str],
    others: &[&'a str],
    store: &mut S,
) -> Answer<'a>
    requires { W.least work ≤ length first.now + length others.now }
    ensures said { IsOfFiles (S.told store.old) (texts (first.now ++ others.now)) (W.says work)
        (S.reads store.old) (S.reads store.new) (said result) }
    ensures reads { AreReadAtMost (texts (first.now ++ others.now))
        (S.reads store.old) (S.reads store.new) }
    ensures same { S.told store.new ≡ S.told store.old }
{
    match names_of(alloc, first, others) {
        Err(_) => Answer::OutOfMemory,
        Ok(names) => answer_named(alloc, work, &names, store),
    }
}

/// Answers by the work of the files with these names, first some, and then those that the words
/// after a trust anchor name.
#[tactic(auto, using(crate::proofs::Asking::by_tail))]
pub fn answer_tail<'a, W: Work, S: Store>(
    alloc: Global,
    work: W,
    first: &[&'a str],
    tail: &[&'a str],
    store: &mut S,
) -> Answer<'a>
    requires { W.least work ≤ length first.now + length (chain_in (texts tail.now)) }
    ensures said { IsOfFiles (S.told store.old) (texts first.now ++ others_in (texts tail.now))
        (W.says work) (S.reads store.old) (S.reads store.new) (said result) }
    ensures reads { AreReadAtMost (texts first.now ++ others_in (texts tail.now))
        (S.reads store.old) (S.reads store.new) }
    ensures same { S.told store.new ≡ S.told store.old }
{
    match others_of(alloc, tail) {
        Err(_) => Answer::OutOfMemory,
        Ok(others) => answer_files(alloc, work, first, &others, store),
    }
}

/// Answers by the work of the files with these names, first some, and then those that anchors name.
#[tactic(auto, using(crate::proofs::Asking::by_tail))]
pub fn answer_anchors<'a, W: Work, S: Store>(
    alloc: Global,
    work: W,
    first: &[&'a str],
    anchors: &[&'a str],
    store: &mut S,
) -> Answer<'a>
    requires { W.least work ≤ length first.now + length (files_of_anchors (texts anchors.now)) }
    ensures said { IsOfFiles (S.told store.old)
        (texts first.now ++ files_of_anchors (texts anchors.now))
        (W.says work) (S.reads store.old) (S.reads store.new) (said result) }
    ensures reads { AreReadAtMost (texts first.now ++ files_of_anchors (texts anchors.now))
        (S.reads store.old) (S.reads store.new) }
    ensures same { S.told store.new ≡ S.told store.old }
{
    match names_of_anchors(alloc, anchors) {
        Err(_) => Answer::OutOfMemory,
        Ok(others) => answer_files(alloc, work, first, &others, store),
    }
}

/// The names of the files, in their order.
fn names_of<'a>(
    alloc: Global,
    first: &[&'a str],
    others: &[&'a str],
) -> Result<Vec<&'a str>, AllocError>
    ensures { IfOk result (λ names. names.items ≡ first.now ++ others.now) }
{
    let mut names = Vec::new(alloc);
    names.extend_from_slice(first)?;
    names.extend_from_slice(others)?;
    Ok(names)
}

/// Answers by the work of the files with these names.
#[tactic(auto, using(crate::proofs::Asking::by_reads))]
fn answer_named<'a, W: Work, S: Store>(
    alloc: Global,
    work: W,
    names: &[&'a str],
    store: &mut S,
) -> Answer<'a>
    requires { W.least work ≤ length names.now }
    ensures said { IsOfFiles (S.told store.old) (texts names.now) (W.says work)
        (S.reads store.old) (S.reads store.new) (said result) }
    ensures reads { AreReadAtMost (texts names.now) (S.reads store.old) (S.reads store.new) }
    ensures same { S.told store.new ≡ S.told store.old }
{
    match read_all(alloc, names, store) {
        Err(Unread::Unreadable(name, _)) => Answer::CannotRead(name),
        Err(Unread::Memory) => Answer::OutOfMemory,
        Ok(files) => work.answer(alloc, &files),
    }
}
