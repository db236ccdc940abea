//! What the programs show of attestations.

ghost use Rattle.rpki_multi.specs.Attestation.{whole_of};
ghost use Rattle.rpki_cli.specs.Answer.{said};
ghost use Rattle.rpki_cli.specs.Shown.{IsShown, IsLinesOf};
ghost use Rattle.rpki_show.specs.Attestation.{AttestationLines, RtaLines, WholeRtaLines};
ghost use Rattle.rpki_show.specs.DatedRta.{dated_of};
ghost use Rattle.rpki_show.specs.Texts.Rta.{attestation_text, rta_text, whole_rta_text};

use crate::dated_rta::DatedRta;
use crate::texts::rta::{push_attestation, push_rta, push_whole_rta};
use bytes::Bytes;
use rpki_cli::answer::Answer;
use rpki_cli::{Causes, refusal};
use rpki_multi::Rta;
use rpki_tagged::ResourceTaggedAttestation;
use std::alloc::Global;

/// Answers with the lines of the content of an attestation at the front of the octets, if there is
/// one.
pub fn show_attestation<'a>(alloc: Global, causes: Causes, octets: Bytes) -> Answer<'a>
    ensures { IsShown causes AttestationLines octets (said result) }
{
    match ResourceTaggedAttestation::decode(alloc, octets) {
        Err(error) => refusal(alloc, causes, error),
        Ok(content) => {
            let answer = show_content_lines(alloc, &content);
            drop(content);
            answer
        }
    }
}

/// The lines of a content.
fn show_content_lines<'a>(alloc: Global, content: &ResourceTaggedAttestation) -> Answer<'a>
    ensures { IsLinesOf (attestation_text content.now) (said result) }
{
    let mut text = String::new(alloc);
    match push_attestation(&mut text, content) {
        Ok(()) => Answer::Shown(text),
        Err(_) => Answer::OutOfMemory,
    }
}

/// Answers with the lines of the attestation at the front of the octets, if there is one.
pub fn show_rta<'a>(alloc: Global, causes: Causes, octets: Bytes) -> Answer<'a>
    ensures { IsShown causes RtaLines octets (said result) }
{
    match Rta::decode(alloc, octets) {
        Err(error) => refusal(alloc, causes, error),
        Ok(rta) => {
            let answer = show_object_lines(alloc, &rta);
            drop(rta);
            answer
        }
    }
}

/// The lines of an attestation.
fn show_object_lines<'a>(alloc: Global, rta: &Rta) -> Answer<'a>
    ensures { IsLinesOf (rta_text (whole_of rta.now)) (said result) }
{
    let mut text = String::new(alloc);
    match push_rta(&mut text, rta) {
        Ok(()) => Answer::Shown(text),
        Err(_) => Answer::OutOfMemory,
    }
}

/// Answers with the lines of the attestation at the front of the octets, and those of each
/// certificate and of each revocation list that it carries, if there is one.
pub fn show_whole_rta<'a>(alloc: Global, causes: Causes, octets: Bytes) -> Answer<'a>
    ensures { IsShown causes WholeRtaLines octets (said result) }
{
    match DatedRta::decode(alloc, octets) {
        Err(error) => refusal(alloc, causes, error),
        Ok(rta) => {
            let answer = show_whole_lines(alloc, &rta);
            drop(rta);
            answer
        }
    }
}

/// The lines of an attestation, and of what it carries.
fn show_whole_lines<'a>(alloc: Global, rta: &DatedRta) -> Answer<'a>
    ensures { IsLinesOf (whole_rta_text (dated_of rta.now)) (said result) }
{
    let mut text = String::new(alloc);
    match push_whole_rta(alloc, &mut text, rta) {
        Ok(()) => Answer::Shown(text),
        Err(_) => Answer::OutOfMemory,
    }
}
