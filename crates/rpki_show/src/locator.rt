//! What the program shows of a trust anchor locator.

ghost use Rattle.std.specs.Prelude.{◌≡◌};
ghost use Rattle.rpki_cli.specs.Answer.{said};
ghost use Rattle.rpki_cli.specs.Shown.{IsShown, IsLinesOf};
ghost use Rattle.rpki_cli.specs.declared.causes.Causes.TheVariants.{Omitted};
ghost use Rattle.rpki_show.specs.Locator.{IsLocatorOf, tal_refusal};
ghost use Rattle.rpki_show.specs.Texts.Tal.{TalLines, tal_text};

use crate::texts::tal::push_tal;
use rpki_cli::answer::Answer;
use rpki_der::{Source, SourceFailed};
use rpki_tal::{ReadError, Tal};
use std::alloc::Global;
use std::io::Read;
use std::marker::Model;

/// The octets of a file, as a source that never fails.
#[derive(Drop)]
struct Octets<'a> {
    rest: &'a [u8],
}

impl<'a> Model for Octets<'a> {
    ghost use Rattle.std.specs.Prelude.{ℕ, List};

    // What is left of them.
    ghost Value = { List ℕ };

    ghost view = { λ o. o.rest.now };
}

impl Source for Octets<'_> {
    ghost use Rattle.std.specs.Prelude.{Some};

    ghost left = { λ o. Some o };

    ghost failures = { λ _. 0 };

    fn read(&mut self, buf: &mut [u8]) -> Result<usize, SourceFailed> {
        // A read from a slice is always `Ok`.
        match self.rest.read(buf) {
            Ok(len) => Ok(len),
            Err(_) => Ok(0),
        }
    }
}

/// The locator that the octets are, if they are one. Its name is empty.
pub fn locator_of(alloc: Global, octets: &[u8]) -> Result<Tal, ReadError>
    ensures { IsLocatorOf octets.now result }
{
    let mut source = Octets { rest: octets };
    Tal::read_named(alloc, String::new(alloc), &mut source)
}

/// Answers with the lines of the locator that the octets are, if they are one.
pub fn show_tal<'a>(alloc: Global, octets: &[u8]) -> Answer<'a>
    ensures { IsShown Omitted TalLines octets.now (said result) }
{
    match locator_of(alloc, octets) {
        Err(error) => refusal(error),
        Ok(tal) => {
            let answer = show_lines(alloc, &tal);
            drop(tal);
            answer
        }
    }
}

/// The answer where a locator is not read.
pub(crate) fn refusal<'a>(error: ReadError) -> Answer<'a>
    ensures { said result ≡ tal_refusal error }
{
    match error {
        ReadError::Memory => Answer::OutOfMemory,
        ReadError::Io
        | ReadError::UnexpectedEof
        | ReadError::BadUri(_)
        | ReadError::BadKeyInfoEncoding
        | ReadError::BadKeyInfo(_) => Answer::Malformed,
    }
}

/// The lines of a locator.
fn show_lines<'a>(alloc: Global, tal: &Tal) -> Answer<'a>
    ensures { IsLinesOf (tal_text tal.now.uris tal.now.key) (said result) }
{
    let mut text = String::new(alloc);
    match push_tal(&mut text, tal) {
        Ok(()) => Answer::Shown(text),
        Err(_) => Answer::OutOfMemory,
    }
}
