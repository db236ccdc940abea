//! What the program answers of attestations under anchors.

ghost use Rattle.std.specs.Prelude.{◌≤◌, ◌+◌, ◌++◌, length, map, IfErr};
ghost use Rattle.rpki_rta.specs.Refused.{supply_in};
ghost use Rattle.rpki_signed.specs.Attested.{IsExactRta, IsFirstOfRta};
ghost use Rattle.rpki_cli.specs.Answer.{said};
ghost use Rattle.rpki_cli.specs.Shown.{IsLinesOf};
ghost use Rattle.rpki_cli.specs.Words.{texts, files_of_anchors};
ghost use Rattle.rpki_show.specs.Grows.{Grows};
ghost use Rattle.rpki_show.specs.Texts.Rta.{attestation_text};
ghost use Rattle.rpki_command.specs.Check.{yes_line};
ghost use Rattle.rpki_command.specs.Rta.{supply_of, IsRtaSaid, AttestedUnder, IsAnchorRefused};
ghost use Rattle.rpki_command.specs.Rta.{IsAttestedWith, RtaOf};

use crate::anchors::{Anchor, AnchorError, anchors_of, supplies_of};
use crate::check::{refused, refused_issuer};
use bytes::Bytes;
use rpki_basics::{Crypto, Time};
use rpki_cli::answer::Answer;
use rpki_cli::{Causes, Work, refusal};
use rpki_der::DecodeError;
use rpki_multi::Rta;
use rpki_rta::Supply;
use rpki_show::texts::rta::push_attestation;
use rpki_signed::check;
use rpki_signed::check::CheckError;
use rpki_tagged::ResourceTaggedAttestation;
use rpki_verdicts::Verdicts;
use std::alloc::{AllocError, Global};
use std::fmt::Write;

/// To check whether the first file begins with an attestation that is granted at this moment. The
/// second is the list of verdicts, and the others are those that the anchors name.
#[derive(Drop)]
pub struct RtaByList<'s> {
    pub moment: Time,
    pub anchors: &'s [&'s str],
}

impl Work for RtaByList<'_> {
    ghost least = { λ r. 2 + length (files_of_anchors (texts r.anchors.now)) };

    ghost says = { λ r. RtaOf r.moment (texts r.anchors.now) };

    fn answer<'a>(self, alloc: Global, files: &[Bytes]) -> Answer<'a> {
        check_files(alloc, self.moment, self.anchors, files)
    }
}

/// Answers whether the first of these files begins with an attestation that is granted at this
/// moment, by the verdicts of the second, under the anchors, whose files are the others.
fn check_files<'a>(alloc: Global, now: Time, words: &[&str], files: &[Bytes]) -> Answer<'a>
    requires { 2 + length (files_of_anchors (texts words.now)) ≤ length files.now }
    ensures { RtaOf now (texts words.now) files.now (said result) }
{
    match files {
        [object, verdicts, others @ ..] => match Verdicts::read(verdicts) {
            None => Answer::BadVerdicts,
            Some(verdicts) => check_rta(alloc, object, words, others, &verdicts, now),
        },
        _ => unreachable!(),
    }
}

/// Answers whether the octets begin with an attestation that is granted at this moment, under the
/// anchors that the words name, by the octets of their files.
fn check_rta<'a, K: Crypto>(
    alloc: Global,
    object: &Bytes,
    words: &[&str],
    files: &[Bytes],
    crypto: &K,
    now: Time,
) -> Answer<'a>
    requires { length (files_of_anchors (texts words.now)) ≤ length files.now }
    ensures { IsAttestedWith K.digest_of K.is_signed crypto.now now
        (texts words.now) object.now files.now (said result) }
{
    match anchors_of(alloc, words, files, crypto, now) {
        Err(error) => refused_anchor(alloc, error),
        Ok(anchors) => {
            let answer = check_anchored(alloc, object, &anchors, crypto, now);
            drop(anchors);
            answer
        }
    }
}

/// Answers whether the octets begin with an attestation that is granted under these anchors.
fn check_anchored<'a, K: Crypto>(
    alloc: Global,
    object: &Bytes,
    anchors: &[Anchor],
    crypto: &K,
    now: Time,
) -> Answer<'a>
    ensures { AttestedUnder K.digest_of K.is_signed crypto.now now
        (map supply_of anchors.now) object.now (said result) }
{
    match supplies_of(alloc, anchors) {
        Err(_) => Answer::OutOfMemory,
        Ok(supplies) => check_supplied(alloc, object, &supplies, crypto, now),
    }
}

/// Answers whether the octets begin with an attestation that is granted under these supplies.
fn check_supplied<'a, K: Crypto>(
    alloc: Global,
    object: &Bytes,
    supplies: &[Supply<'_>],
    crypto: &K,
    now: Time,
) -> Answer<'a>
    ensures { AttestedUnder K.digest_of K.is_signed crypto.now now
        (map supply_in supplies.now) object.now (said result) }
{
    answer_checked(alloc, checked(alloc, object, supplies, crypto, now))
}

/// What a check of the octets under these supplies answers, as `check::rta` of `rpki_signed` does.
fn checked<K: Crypto>(
    alloc: Global,
    object: &Bytes,
    supplies: &[Supply<'_>],
    crypto: &K,
    now: Time,
) -> Result<Rta, CheckError>
    ensures first { IfErr result (IsFirstOfRta K.digest_of K.is_signed crypto.now now
        supplies.now object.now) }
    ensures exact { IsExactRta (K.digest_of crypto.now) (K.is_signed crypto.now) now
        (map supply_in supplies.now) object.now result }
{
    match object.clone() {
        Err(_) => Err(CheckError::Decode(DecodeError::Memory)),
        Ok(source) => check::rta(alloc, source, true, crypto, now, supplies),
    }
}

/// What is said of what a check answers.
fn answer_checked<'a>(alloc: Global, checked: Result<Rta, CheckError>) -> Answer<'a>
    ensures { IsRtaSaid checked (said result) }
{
    match checked {
        Err(CheckError::Decode(error)) => refusal(alloc, Causes::Omitted, error),
        Err(CheckError::Validation(error)) => refused(alloc, error),
        Ok(rta) => {
            let answer = say_yes(alloc, rta.content());
            drop(rta);
            answer
        }
    }
}

/// A yes, and the lines of a content.
fn say_yes<'a>(alloc: Global, content: &ResourceTaggedAttestation) -> Answer<'a>
    ensures { IsLinesOf (yes_line ++ attestation_text content.now) (said result) }
{
    let mut text = String::new(alloc);
    match push_yes(&mut text, content) {
        Ok(()) => Answer::Shown(text),
        Err(_) => Answer::OutOfMemory,
    }
}

/// Appends a yes, and the lines of a content.
fn push_yes(text: &mut String, content: &ResourceTaggedAttestation) -> Result<(), AllocError>
    ensures { Grows result text.old text.new (yes_line ++ attestation_text content.now) }
{
    write!(text, "yes\n")?;
    push_attestation(text, content)
}

/// The answer where files make no anchor.
fn refused_anchor<'a>(alloc: Global, error: AnchorError) -> Answer<'a>
    ensures { IsAnchorRefused error (said result) }
{
    match error {
        AnchorError::NoLocator => Answer::Malformed,
        AnchorError::NoIssuer(error) => refused_issuer(alloc, error),
        AnchorError::Memory => Answer::OutOfMemory,
    }
}
