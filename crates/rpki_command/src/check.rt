//! What the program answers of signed objects under a chain of certificates.

ghost use Rattle.std.specs.Prelude.{◌≡◌, ◌++◌, ◌≤◌, length, IfOk, Result, string_bytes};
ghost use Rattle.std.specs.Fn.{FnOnceTakesAt, FnOnceReturnsAt};
ghost use Rattle.rpki_faults.specs.Text.Validation.{validation_text};
ghost use Rattle.rpki_faults.specs.declared.validation.ValidationError.{ValidationError};
ghost use Rattle.rpki_certs.specs.Cert.{KeptCertificate};
ghost use Rattle.rpki_signed.specs.Check.{Checks};
ghost use Rattle.rpki_signed.specs.Exact.{IsExact};
ghost use Rattle.rpki_cli.specs.Answer.{said};
ghost use Rattle.rpki_cli.specs.Shown.{IsLinesOf};
ghost use Rattle.rpki_show.specs.Grows.{Grows};
ghost use Rattle.rpki_show.specs.Options.{read_mode};
ghost use Rattle.rpki_show.specs.declared.texts.serial.Hexadecimal.TheVariants.{Plain};
ghost use Rattle.rpki_command.specs.Check.{passes, yes_line, IsCheckSaid, IsCheckedAs, IsRefused};
ghost use Rattle.rpki_command.specs.Check.{IsIssuerRefused, IsCheckedWith, CheckOf};

use bytes::Bytes;
use rpki_basics::{Crypto, Time};
use rpki_certs::{Cert, IssuerError, ResourceCert, issuer_at};
use rpki_cli::answer::Answer;
use rpki_cli::words::{Kind, Options};
use rpki_cli::{Causes, Work, refusal};
use rpki_der::DecodeError;
use rpki_faults::{FaultText, ValidationError};
use rpki_show::texts::serial::Hexadecimal;
use rpki_show::{Action, Lines, answer_for};
use rpki_signed::check;
use rpki_signed::check::CheckError;
use rpki_verdicts::Verdicts;
use std::alloc::{AllocError, Global};
use std::fmt::Write;

/// What is said of a certificate where nobody asks whether it was revoked.
pub fn pass(_cert: &Cert) -> Result<(), ValidationError>
    ensures { result ≡ Ok tt }
{
    Ok(())
}

/// To check whether the first file begins with a good object of the kind at this moment. The
/// second is the list of verdicts, the third the certificate of a trust anchor, and the others are
/// those of CAs, each under the one before.
#[derive(Drop)]
pub struct CheckByList {
    pub options: Options,
    pub kind: Kind,
    pub moment: Time,
}

impl Work for CheckByList {
    ghost least = { λ _. 3 };

    ghost says = { λ c. CheckOf c.options c.kind c.moment };

    fn answer<'a>(self, alloc: Global, files: &[Bytes]) -> Answer<'a> {
        check_files(alloc, self.options, self.kind, self.moment, files)
    }
}

/// Answers whether the first of these files begins with a good object of the kind at this moment,
/// by the verdicts of the second, under the certificates of the others.
fn check_files<'a>(
    alloc: Global,
    options: Options,
    kind: Kind,
    now: Time,
    files: &[Bytes],
) -> Answer<'a>
    requires { 3 ≤ length files.now }
    ensures { CheckOf options kind now files.now (said result) }
{
    match files {
        [object, verdicts, anchor, chain @ ..] => match Verdicts::read(verdicts) {
            None => Answer::BadVerdicts,
            Some(verdicts) => {
                check_with(alloc, options, kind, object, anchor, chain, &verdicts, now)
            }
        },
        _ => unreachable!(),
    }
}

/// Answers whether the octets begin with a good object of the kind under the issuer that these
/// certificates make, at this moment.
fn check_with<'a, K: Crypto>(
    alloc: Global,
    options: Options,
    kind: Kind,
    object: &Bytes,
    anchor: &Bytes,
    chain: &[Bytes],
    crypto: &K,
    now: Time,
) -> Answer<'a>
    ensures { IsCheckedWith options kind (K.digest_of crypto.now) (K.is_signed crypto.now)
        now object.now anchor.now chain.now (said result) }
{
    match issuer_at(alloc, anchor, chain, crypto, now) {
        Err(error) => refused_issuer(alloc, error),
        Ok(issuer) => {
            let action = CheckObject {
                octets: object,
                issuer: &issuer,
                crypto,
                moment: now,
            };
            let answer = answer_for(alloc, options, kind, action);
            drop(issuer);
            answer
        }
    }
}

/// To check the object at the front of the octets under this issuer, at this moment.
#[derive(Drop)]
struct CheckObject<'s, K: Crypto> {
    octets: &'s Bytes,
    issuer: &'s ResourceCert,
    crypto: &'s K,
    moment: Time,
}

impl<'s, K: Crypto> Action for CheckObject<'s, K> {
    ghost says = { λ options X asked form text action s.
        IsCheckedAs asked form text (read_mode options)
        (K.digest_of action.crypto.now) (K.is_signed action.crypto.now) action.issuer.now
        action.moment action.octets.now s };

    fn answer<'a, C: Lines>(self, alloc: Global, options: Options) -> Answer<'a> {
        match self.octets.clone() {
            Err(_) => Answer::OutOfMemory,
            Ok(source) => {
                let checked = check_passed::<C, K, _>(
                    alloc,
                    options,
                    source,
                    self.issuer,
                    self.crypto,
                    self.moment,
                    pass,
                );
                answer_checked(alloc, checked)
            }
        }
    }
}

/// Whether the octets begin with a good object, where it is known what is said of a certificate:
/// that it was not revoked.
pub fn check_passed<C: Lines, K: Crypto, F: FnOnce(&Cert) -> Result<(), ValidationError>>(
    alloc: Global,
    options: Options,
    octets: Bytes,
    issuer: &ResourceCert,
    crypto: &K,
    now: Time,
    check_crl: F,
) -> Result<(ResourceCert, C), CheckError>
    requires takes { (k : KeptCertificate) → FnOnceTakesAt F.FnOnce check_crl k }
    requires says { (k : KeptCertificate) (said : Result (Unit {0}) ValidationError) →
        FnOnceReturnsAt F.FnOnce check_crl k said → passes k said }
    ensures first { Checks C.kind (C.form (C.rule_of options)) (read_mode options)
        (K.digest_of crypto.now) (K.is_signed crypto.now) issuer.now now passes octets result }
    ensures exact { IsExact C.kind (C.form (C.rule_of options)) (read_mode options)
        (K.digest_of crypto.now) (K.is_signed crypto.now) issuer.now now passes octets result }
{
    let strict = !options.relaxed;
    let rule = C::rule(options);
    check::object(alloc, octets, strict, issuer, crypto, now, check_crl, rule)
}

/// What is said of what a check answers.
fn answer_checked<'a, C: Lines>(
    alloc: Global,
    checked: Result<(ResourceCert, C), CheckError>,
) -> Answer<'a>
    ensures { IsCheckSaid (C.lines Plain) checked (said result) }
{
    match checked {
        Err(CheckError::Decode(error)) => refusal(alloc, Causes::Omitted, error),
        Err(CheckError::Validation(error)) => refused(alloc, error),
        Ok((cert, content)) => {
            drop(cert);
            let answer = say_yes(alloc, &content);
            drop(content);
            answer
        }
    }
}

/// A yes, and the lines of a content.
fn say_yes<'a, C: Lines>(alloc: Global, content: &C) -> Answer<'a>
    ensures { IsLinesOf (yes_line ++ C.lines Plain content.now) (said result) }
{
    let mut text = String::new(alloc);
    match push_yes(alloc, &mut text, content) {
        Ok(()) => Answer::Shown(text),
        Err(_) => Answer::OutOfMemory,
    }
}

/// Appends a yes, and the lines of a content.
fn push_yes<C: Lines>(alloc: Global, text: &mut String, content: &C) -> Result<(), AllocError>
    ensures { Grows result text.old text.new (yes_line ++ C.lines Plain content.now) }
{
    write!(text, "yes\n")?;
    content.push(alloc, text, Hexadecimal::Plain)
}

/// The answer where an object is refused for this fault.
pub fn refused<'a>(alloc: Global, error: ValidationError) -> Answer<'a>
    ensures { IsRefused error (said result) }
{
    match error {
        ValidationError::Memory => Answer::OutOfMemory,
        ValidationError::Inspection(_) | ValidationError::Verification(_) => {
            match cause_of(alloc, error) {
                Ok(cause) => Answer::Refused(cause),
                Err(_) => Answer::OutOfMemory,
            }
        }
    }
}

/// The answer where certificates make no issuer for this fault.
pub fn refused_issuer<'a>(alloc: Global, error: IssuerError) -> Answer<'a>
    ensures { IsIssuerRefused error (said result) }
{
    match error {
        IssuerError::Decode(DecodeError::Memory) => Answer::OutOfMemory,
        IssuerError::Decode(_) => Answer::IssuerMalformed,
        IssuerError::Validation(ValidationError::Memory) => Answer::OutOfMemory,
        IssuerError::Validation(error) => match cause_of(alloc, error) {
            Ok(cause) => Answer::IssuerRefused(cause),
            Err(_) => Answer::OutOfMemory,
        },
    }
}

/// A fault as a text.
fn cause_of(alloc: Global, error: ValidationError) -> Result<String, AllocError>
    ensures { IfOk result (λ text. string_bytes text ≡ validation_text error) }
{
    let mut text = String::new(alloc);
    push_fault(&mut text, &error)?;
    Ok(text)
}

/// Appends the text of a fault. It is formatted only where it names a prefix.
pub fn push_fault(text: &mut String, error: &ValidationError) -> Result<(), AllocError>
    ensures { Grows result text.old text.new (validation_text error.now) }
{
    match error.text() {
        FaultText::Fixed(words) => text.push_str(words),
        FaultText::Uncovered(uncovered) => write!(text, "{uncovered}"),
    }
}
