//! What is answered where octets are not read.

ghost use Rattle.std.specs.Prelude.{◌≡◌, IfOk, string_bytes};
ghost use Rattle.rpki_der.specs.Text.Error.{fault_text};
ghost use Rattle.rpki_cli.specs.Answer.{said};
ghost use Rattle.rpki_cli.specs.Command.{unread};
ghost use Rattle.rpki_cli.specs.Refusal.{IsRefusal};

use crate::answer::Answer;
use crate::store::StoreError;
use rpki_der::{ContentFault, DecodeError};
use std::alloc::{AllocError, Global};
use std::fmt::Write;

/// Whether the cause for which octets are refused is said, where there is one.
#[derive(Clone, Copy, Debug, PartialEq, Eq)]
pub enum Causes {
    /// It is not: they are `malformed`.
    Omitted,
    /// They are `malformed: CAUSE`.
    Included,
}

/// The answer where a read of a file failed.
pub fn unread<'a>(error: StoreError, file: &'a str) -> Answer<'a>
    ensures { said result ≡ unread file.now error }
{
    match error {
        StoreError::Unreadable(_) => Answer::CannotRead(file),
        StoreError::Memory => Answer::OutOfMemory,
    }
}

/// The answer where octets are not read, with the cause or without.
pub fn refusal<'a>(alloc: Global, causes: Causes, error: DecodeError) -> Answer<'a>
    ensures { IsRefusal causes error (said result) }
{
    match error {
        DecodeError::Memory => Answer::OutOfMemory,
        DecodeError::Malformed => Answer::Malformed,
        DecodeError::Content(fault) => match causes {
            Causes::Omitted => Answer::Malformed,
            Causes::Included => match text_of(alloc, &fault) {
                Ok(cause) => Answer::MalformedBy(cause),
                Err(_) => Answer::OutOfMemory,
            },
        },
    }
}

/// A fault as a text.
fn text_of(alloc: Global, fault: &ContentFault) -> Result<String, AllocError>
    ensures { IfOk result (λ text. string_bytes text ≡ fault_text fault.now) }
{
    let mut text = String::new(alloc);
    write!(text, "{fault}")?;
    Ok(text)
}
