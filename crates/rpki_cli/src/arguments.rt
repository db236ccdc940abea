//! The arguments of a program.

ghost use Rattle.std.specs.Prelude.{◌≡◌, ℕ, List, Option, None, Some, IfOk};
ghost use Rattle.rpki_cli.specs.Arguments.{IsArgument, IsWordAt, IsText, AreWords};
ghost use Rattle.rpki_cli.specs.Arguments.{words_error_text};

use crate::answer::OUT_OF_MEMORY;
use std::alloc::{AllocError, Global};
use std::env::{Env, FillError};
use std::error::Error;
use std::fmt;
use std::marker::Model;

/// How many octets an argument has at first room for.
const FIRST_ROOM: usize = 256;

/// The arguments of a program: its name, and the words after it.
pub trait Arguments {
    // What they tell: nothing, or the octets of each, the program's name first.
    ghost told: { Self → Option (List (List ℕ)) };

    /// The octets of the argument at this place, if there is one. The program's name is at place 0.
    /// Refuses where memory runs out.
    fn argument(&self, alloc: Global, place: usize) -> Result<Option<Vec<u8>>, AllocError>
        ensures { IfOk result (IsArgument (told self.now) place) };
}

/// Why there are no words.
#[derive(Clone, Copy, Debug, PartialEq, Eq)]
pub enum WordsError {
    /// One of the arguments is no text (UTF-8).
    NoText,
    /// No memory was to be had.
    Memory,
}

impl fmt::Display for WordsError {
    ghost output = { λ error. Some (words_error_text error) };

    fn fmt<W: fmt::Write>(&self, f: &mut fmt::Formatter<W>) -> fmt::Result {
        match self {
            WordsError::NoText => f.write_str("argument that is no text"),
            WordsError::Memory => f.write_str(OUT_OF_MEMORY),
        }
    }
}

impl Error for WordsError {}

/// Gives the words after the program's name, which need not be a text. Refuses by `NoText` at the
/// first of them that is none, or by `Memory`.
#[tactic(auto, using(crate::proofs::Following::word_by_word))]
pub fn words_of<A: Arguments>(alloc: Global, arguments: &A) -> Result<Vec<String>, WordsError>
    ensures { AreWords (A.told arguments.now) result }
{
    let mut words = Vec::new(alloc);
    for count in 0..usize::MAX {
        match word_at(alloc, arguments, count + 1) {
            Err(error) => return Err(error),
            Ok(None) => return Ok(words),
            Ok(Some(word)) => {
                if words.push(word).is_err() {
                    return Err(WordsError::Memory);
                }
            }
        }
    }
    Err(WordsError::Memory)
}

/// Gives the word at this place of the arguments, if there is one.
fn word_at<A: Arguments>(
    alloc: Global,
    arguments: &A,
    place: usize,
) -> Result<Option<String>, WordsError>
    ensures word { IsWordAt (A.told arguments.now) place result }
    ensures text { IsText result }
{
    match arguments.argument(alloc, place) {
        Err(_) => Err(WordsError::Memory),
        Ok(None) => Ok(None),
        Ok(Some(octets)) => match String::from_utf8(octets) {
            Ok(word) => {
                // The proof knows that a `String` is UTF-8 where it is read as a `&str`.
                let _ = word.as_str();
                Ok(Some(word))
            }
            Err(_) => Err(WordsError::NoText),
        },
    }
}

/// The arguments of the process.
#[derive(Drop)]
pub struct ProcessArguments<'a, R> {
    runtime: &'a R,
}

impl<'a, R> Model for ProcessArguments<'a, R> {
    ghost Value = { R };

    ghost view = { λ a. a.runtime.now };
}

impl<'a, R> ProcessArguments<'a, R> {
    /// The arguments that this runtime has.
    pub fn new(runtime: &'a R) -> ProcessArguments<'a, R>
        ensures { result ≡ runtime.now }
    {
        ProcessArguments { runtime }
    }
}

impl<R: Env> Arguments for ProcessArguments<'_, R> {
    ghost told = { λ _. None };

    fn argument(&self, alloc: Global, place: usize) -> Result<Option<Vec<u8>>, AllocError> {
        let mut octets = Vec::new(alloc);
        let mut room = FIRST_ROOM;
        for _ in 0..usize::BITS {
            octets.resize(room, 0)?;
            match self.runtime.arg(place, octets.as_mut_slice()) {
                Ok(len) => {
                    octets.truncate(len);
                    return Ok(Some(octets));
                }
                Err(FillError::NotPresent) => return Ok(None),
                Err(FillError::TooLong) => room = room.saturating_add(room),
            }
        }
        Err(AllocError)
    }
}
