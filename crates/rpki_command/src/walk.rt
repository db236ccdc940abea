//! What the program answers of a manifest and of files at hand.

ghost use Rattle.std.specs.Prelude.{◌≤◌, ◌+◌, ◌++◌, length};
ghost use Rattle.rpki_cli.specs.Answer.{said};
ghost use Rattle.rpki_cli.specs.Shown.{IsLinesOf};
ghost use Rattle.rpki_cli.specs.Words.{texts, chain_in};
ghost use Rattle.rpki_show.specs.Grows.{Grows};
ghost use Rattle.rpki_command.specs.Check.{yes_line, IsCheckSaid};
ghost use Rattle.rpki_command.specs.Held.{held_text};
ghost use Rattle.rpki_command.specs.Walk.{WalkedUnder, IsWalkedWith, WalkOf};

use crate::check::{check_passed, pass, refused, refused_issuer};
use crate::hand::{Hand, cut_others};
use crate::held::push_held;
use bytes::Bytes;
use rpki_basics::{Crypto, Time};
use rpki_certs::{ResourceCert, issuer_at};
use rpki_cli::answer::Answer;
use rpki_cli::words::Options;
use rpki_cli::{Causes, Work, refusal};
use rpki_files::ManifestContent;
use rpki_signed::check::CheckError;
use rpki_verdicts::Verdicts;
use std::alloc::{AllocError, Global};
use std::fmt::Write;

/// To check whether the first file begins with a good manifest at this moment, and to tell which
/// of its entries files at hand hold. The second is the list of verdicts, the third the certificate
/// of a trust anchor, and the others are those that the words after it name.
#[derive(Drop)]
pub struct WalkByList<'s> {
    pub options: Options,
    pub moment: Time,
    pub tail: &'s [&'s str],
}

impl Work for WalkByList<'_> {
    ghost least = { λ w. 3 + length (chain_in (texts w.tail.now)) };

    ghost says = { λ w. WalkOf w.options w.moment (texts w.tail.now) };

    fn answer<'a>(self, alloc: Global, files: &[Bytes]) -> Answer<'a> {
        walk_files(alloc, self.options, self.moment, self.tail, files)
    }
}

/// Answers whether the first of these files begins with a good manifest at this moment, by the
/// verdicts of the second, and which of its entries files at hand hold. The others are those that
/// the words name.
fn walk_files<'a>(
    alloc: Global,
    options: Options,
    now: Time,
    tail: &[&str],
    files: &[Bytes],
) -> Answer<'a>
    requires { 3 + length (chain_in (texts tail.now)) ≤ length files.now }
    ensures { WalkOf options now (texts tail.now) files.now (said result) }
{
    match files {
        [object, verdicts, anchor, others @ ..] => match Verdicts::read(verdicts) {
            None => Answer::BadVerdicts,
            Some(verdicts) => {
                walk_with(alloc, options, tail, object, anchor, others, &verdicts, now)
            }
        },
        _ => unreachable!(),
    }
}

/// Answers whether the octets begin with a good manifest under the issuer that certificates make,
/// at this moment, and which of its entries files at hand hold. The certificates are that of the
/// trust anchor and the first of the other files; the files at hand are those after these.
fn walk_with<'a, K: Crypto>(
    alloc: Global,
    options: Options,
    tail: &[&str],
    object: &Bytes,
    anchor: &Bytes,
    others: &[Bytes],
    crypto: &K,
    now: Time,
) -> Answer<'a>
    requires { length (chain_in (texts tail.now)) ≤ length others.now }
    ensures { IsWalkedWith options (K.digest_of crypto.now) (K.is_signed crypto.now) now
        (texts tail.now) object.now anchor.now others.now (said result) }
{
    let (certs, hand) = cut_others(tail, others);
    match issuer_at(alloc, anchor, certs, crypto, now) {
        Err(error) => refused_issuer(alloc, error),
        Ok(issuer) => {
            let answer = walk_under(alloc, options, &hand, object, &issuer, crypto, now);
            drop(issuer);
            answer
        }
    }
}

/// Answers whether the octets begin with a good manifest under this issuer, at this moment, and
/// which of its entries the files hold.
fn walk_under<'a, K: Crypto>(
    alloc: Global,
    options: Options,
    hand: &Hand<'_>,
    object: &Bytes,
    issuer: &ResourceCert,
    crypto: &K,
    now: Time,
) -> Answer<'a>
    ensures { WalkedUnder options (K.digest_of crypto.now) (K.is_signed crypto.now)
        issuer.now now hand.now object.now (said result) }
{
    match object.clone() {
        Err(_) => Answer::OutOfMemory,
        Ok(source) => {
            let checked = check_passed::<ManifestContent, K, _>(
                alloc, options, source, issuer, crypto, now, pass,
            );
            answer_walked(alloc, checked, hand, crypto)
        }
    }
}

/// What is said of what a check answers.
fn answer_walked<'a, K: Crypto>(
    alloc: Global,
    checked: Result<(ResourceCert, ManifestContent), CheckError>,
    hand: &Hand<'_>,
    crypto: &K,
) -> Answer<'a>
    ensures { IsCheckSaid (held_text (K.digest_of crypto.now) hand.now) checked
        (said result) }
{
    match checked {
        Err(CheckError::Decode(error)) => refusal(alloc, Causes::Omitted, error),
        Err(CheckError::Validation(error)) => refused(alloc, error),
        Ok((cert, content)) => {
            drop(cert);
            let answer = say_held(alloc, &content, hand, crypto);
            drop(content);
            answer
        }
    }
}

/// A yes, and a line for each entry that the files hold.
fn say_held<'a, K: Crypto>(
    alloc: Global,
    content: &ManifestContent,
    hand: &Hand<'_>,
    crypto: &K,
) -> Answer<'a>
    ensures { IsLinesOf (yes_line ++ held_text (K.digest_of crypto.now) hand.now content.now)
        (said result) }
{
    let mut text = String::new(alloc);
    match push_yes_held(alloc, &mut text, content, hand, crypto) {
        Ok(()) => Answer::Shown(text),
        Err(_) => Answer::OutOfMemory,
    }
}

/// Appends a yes, and a line for each entry that the files hold.
fn push_yes_held<K: Crypto>(
    alloc: Global,
    text: &mut String,
    content: &ManifestContent,
    hand: &Hand<'_>,
    crypto: &K,
) -> Result<(), AllocError>
    ensures { Grows result text.old text.new
        (yes_line ++ held_text (K.digest_of crypto.now) hand.now content.now) }
{
    let files = hand.files(alloc)?;
    write!(text, "yes\n")?;
    push_held(text, content, &files, crypto)
}
