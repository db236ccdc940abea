//! Multi-signed attestations, where the issuer that certificates make is the CA that is supplied.

ghost use Rattle.std.specs.Prelude.{◌≡◌, IfOk, string_bytes};
ghost use Rattle.rpki_check.specs.Attestation.{IsAttestationFound, IsAttestationRead};
ghost use Rattle.rpki_check.specs.Attestation.{IsAttestationSaid, IsAttestationShown, IsGrantFound};
ghost use Rattle.rpki_check.specs.Attestation.{lines_of};
ghost use Rattle.rpki_check.specs.Report.{IsReported, text_of};

use crate::grounds::grounds_of;
use crate::numbers::NO_MEMORY;
use crate::question::Question;
use crate::refusal::{Refusal, status_of, told_as};
use crate::report::words_of;
use crate::room::put;
use bytes::Bytes;
use rpki_multi::Rta;
use rpki_show::texts::rta::push_attestation;
use rpki_signed::check::CheckError;
use rpki_validation::attestation;
use rpki_validation::grounds::Grounds;
use std::alloc::{AllocError, Global};

/// What is found of octets on these grounds.
pub fn granted_on(alloc: Global, octets: &[u8], grounds: &Grounds) -> Result<Rta, Refusal>
    ensures { IsGrantFound grounds.now octets.now result }
{
    let Ok(source) = Bytes::copy_from_slice(alloc, octets) else {
        return Err(Refusal::Memory);
    };
    match attestation::granted_on(alloc, &source, grounds) {
        Ok(rta) => Ok(rta),
        Err(refusal) => Err(told_as(refusal)),
    }
}

/// What is found of octets in answer to a question.
fn granted_in(alloc: Global, question: &Question<'_>, octets: &[u8]) -> Result<Rta, Refusal>
    ensures { IsAttestationFound question.now octets.now result }
{
    match grounds_of(alloc, question) {
        Err(refusal) => Err(refusal),
        Ok(grounds) => {
            let found = granted_on(alloc, octets, &grounds);
            drop(grounds);
            found
        }
    }
}

/// The lines of an attestation.
fn lines_of(alloc: Global, rta: &Rta) -> Result<String, AllocError>
    ensures { IfOk result (λ text. string_bytes text ≡ lines_of rta.now) }
{
    let mut text = String::new(alloc);
    push_attestation(&mut text, rta.content())?;
    Ok(text)
}

/// The lines of what is found, or why nothing is.
fn text_of(alloc: Global, found: &Result<Rta, Refusal>) -> Result<String, AllocError>
    ensures { IfOk result (λ text. string_bytes text ≡ text_of lines_of found.now) }
{
    match found {
        Ok(rta) => lines_of(alloc, rta),
        Err(refusal) => words_of(alloc, refusal),
    }
}

/// Puts the text of what is found into a room, and gives the status.
fn put_granted(alloc: Global, found: &Result<Rta, Refusal>, room: &mut [u8], len: &mut usize) -> u32
    ensures { IsReported lines_of found.now room.old room.new len.new result }
{
    match text_of(alloc, found) {
        Err(_) => {
            put(b"", room, len);
            NO_MEMORY
        }
        Ok(text) => {
            put(text.as_bytes(), room, len);
            status_of(found)
        }
    }
}

/// Puts what is said of the attestation at the front of octets into a room, and gives the status.
pub fn report_attestation(
    alloc: Global,
    question: &Question<'_>,
    octets: &[u8],
    room: &mut [u8],
    len: &mut usize,
) -> u32
    ensures { IsAttestationSaid question.now octets.now room.old room.new len.new result }
{
    let found = granted_in(alloc, question, octets);
    let status = put_granted(alloc, &found, room, len);
    drop(found);
    status
}

/// The attestation that is read of octets, without a check.
fn read_attestation(alloc: Global, octets: &[u8]) -> Result<Rta, Refusal>
    ensures { IsAttestationRead octets.now result }
{
    let Ok(source) = Bytes::copy_from_slice(alloc, octets) else {
        return Err(Refusal::Memory);
    };
    match Rta::decode(alloc, source) {
        Ok(rta) => Ok(rta),
        Err(fault) => Err(Refusal::Check(CheckError::Decode(fault))),
    }
}

/// Puts what the attestation at the front of octets says, without a check.
pub fn show_attestation(alloc: Global, octets: &[u8], room: &mut [u8], len: &mut usize) -> u32
    ensures { IsAttestationShown octets.now room.old room.new len.new result }
{
    let read = read_attestation(alloc, octets);
    let status = put_granted(alloc, &read, room, len);
    drop(read);
    status
}
