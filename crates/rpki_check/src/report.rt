//! What a call says of an object: a status and a text.

ghost use Rattle.std.specs.Prelude.{◌≡◌, IfOk, string_bytes};
ghost use Rattle.rpki_check.specs.Grounds.{manner_in};
ghost use Rattle.rpki_sigobj.specs.Object.{mode_of};
ghost use Rattle.rpki_validation.specs.Kinds.{OfKind};
ghost use Rattle.rpki_check.specs.Calls.{IsObjectCall, IsShowCall};
ghost use Rattle.rpki_check.specs.Report.{IsReported, IsSaid, IsShown, refusal_text, text_of};

use crate::attestation::{report_attestation, show_attestation};
use crate::kinds::{Asked, asked_for};
use crate::numbers::NO_MEMORY;
use crate::object::{found_in, read_object};
use crate::question::Question;
use crate::refusal::{Refusal, status_of};
use crate::room::put;
use rpki_files::{ManifestContent, ResourceSignedChecklist};
use rpki_routes::{AsProviderAttestation, RouteOriginAttestation};
use rpki_validation::kinds::{Kind, Lines};
use rpki_validation::question::Manner;
use std::alloc::{AllocError, Global};

/// The lines of a content.
fn lines_of<T: Lines>(alloc: Global, content: &T) -> Result<String, AllocError>
    ensures { IfOk result (λ text. string_bytes text ≡ T.lines content.now) }
{
    let mut text = String::new(alloc);
    content.push(alloc, &mut text)?;
    Ok(text)
}

/// The text of a refusal.
pub fn words_of(alloc: Global, refusal: &Refusal) -> Result<String, AllocError>
    ensures { IfOk result (λ text. string_bytes text ≡ refusal_text refusal.now) }
{
    let mut text = String::new(alloc);
    refusal.push(&mut text)?;
    Ok(text)
}

/// The lines of what is found, or why nothing is.
fn text_of<T: Lines>(alloc: Global, found: &Result<T, Refusal>) -> Result<String, AllocError>
    ensures { IfOk result (λ text. string_bytes text ≡ text_of T.lines found.now) }
{
    match found {
        Ok(content) => lines_of(alloc, content),
        Err(refusal) => words_of(alloc, refusal),
    }
}

/// Puts the text of what is found into a room, and gives the status.
fn put_found<T: Lines>(
    alloc: Global,
    found: &Result<T, Refusal>,
    room: &mut [u8],
    len: &mut usize,
) -> u32
    ensures { IsReported T.lines found.now room.old room.new len.new result }
{
    match text_of(alloc, found) {
        Err(_) => {
            put(b"", room, len);
            NO_MEMORY
        }
        Ok(text) => {
            put(text.as_bytes(), room, len);
            status_of(found)
        }
    }
}

/// Puts what is said of the object of this kind at the front of octets into a room, and gives the
/// status.
fn report<T: Lines>(
    alloc: Global,
    question: &Question<'_>,
    octets: &[u8],
    room: &mut [u8],
    len: &mut usize,
) -> u32
    ensures { IsSaid T.kind (T.form (T.rule_in (manner_in question.now))) T.lines question.now
        octets.now room.old room.new len.new result }
{
    let found = found_in::<T>(alloc, question, octets);
    let status = put_found(alloc, &found, room, len);
    drop(found);
    status
}

/// The same for a kind.
fn report_kind(
    alloc: Global,
    question: &Question<'_>,
    kind: Kind,
    octets: &[u8],
    room: &mut [u8],
    len: &mut usize,
) -> u32
    ensures { OfKind (manner_in question.now) kind (λ X asked form lines.
        IsSaid asked form lines question.now octets.now room.old room.new len.new result) }
{
    match kind {
        Kind::Roa => report::<RouteOriginAttestation>(alloc, question, octets, room, len),
        Kind::Aspa => report::<AsProviderAttestation>(alloc, question, octets, room, len),
        Kind::Manifest => report::<ManifestContent>(alloc, question, octets, room, len),
        Kind::Checklist => report::<ResourceSignedChecklist>(alloc, question, octets, room, len),
    }
}

/// The same for what a number asks for.
pub fn report_asked(
    alloc: Global,
    question: &Question<'_>,
    number: u32,
    octets: &[u8],
    room: &mut [u8],
    len: &mut usize,
) -> u32
    ensures { IsObjectCall question.now number octets.now room.old room.new len.new result }
{
    match asked_for(alloc, number, octets, question.relaxed == 0) {
        Err(status) => {
            put(b"", room, len);
            status
        }
        Ok(Asked::Object(kind)) => report_kind(alloc, question, kind, octets, room, len),
        Ok(Asked::Attestation) => report_attestation(alloc, question, octets, room, len),
    }
}

/// Puts what the object of this kind at the front of octets says, without a check.
fn show<T: Lines>(
    alloc: Global,
    manner: Manner,
    octets: &[u8],
    room: &mut [u8],
    len: &mut usize,
) -> u32
    ensures { IsShown T.kind (T.form (T.rule_in manner)) T.lines (mode_of manner.strict) octets.now
        room.old room.new len.new result }
{
    let read = read_object::<T>(alloc, octets, manner);
    let status = put_found(alloc, &read, room, len);
    drop(read);
    status
}

/// The same for a kind.
fn show_kind(
    alloc: Global,
    manner: Manner,
    kind: Kind,
    octets: &[u8],
    room: &mut [u8],
    len: &mut usize,
) -> u32
    ensures { OfKind manner kind (λ X asked form lines.
        IsShown asked form lines (mode_of manner.strict) octets.now room.old room.new len.new
        result) }
{
    match kind {
        Kind::Roa => show::<RouteOriginAttestation>(alloc, manner, octets, room, len),
        Kind::Aspa => show::<AsProviderAttestation>(alloc, manner, octets, room, len),
        Kind::Manifest => show::<ManifestContent>(alloc, manner, octets, room, len),
        Kind::Checklist => show::<ResourceSignedChecklist>(alloc, manner, octets, room, len),
    }
}

/// The same for what a number asks for.
pub fn show_asked(
    alloc: Global,
    manner: Manner,
    number: u32,
    octets: &[u8],
    room: &mut [u8],
    len: &mut usize,
) -> u32
    ensures { IsShowCall manner number octets.now room.old room.new len.new result }
{
    match asked_for(alloc, number, octets, manner.strict) {
        Err(status) => {
            put(b"", room, len);
            status
        }
        Ok(Asked::Object(kind)) => show_kind(alloc, manner, kind, octets, room, len),
        Ok(Asked::Attestation) => show_attestation(alloc, octets, room, len),
    }
}
