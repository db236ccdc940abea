//! What is said of a file of a kind on the grounds of a question.

ghost use Rattle.std.specs.Prelude.{◌≡◌, IfOk, OnOk, false, string_bytes};
ghost use Rattle.rpki_sigobj.specs.Object.{mode_of};
ghost use Rattle.rpki_validation.specs.Refusal.{is_memory, is_memory_at_ca};
ghost use Rattle.rpki_program.specs.Verify.Entry.{SaysRight};
ghost use Rattle.rpki_program.specs.Verify.Judged.{IsCaJudged, IsJudged, IsJudgedAs, IsListJudged};
ghost use Rattle.rpki_program.specs.Verify.Judged.{IsLocatorJudged, IsRtaJudged, is_yes};
ghost use Rattle.rpki_program.specs.declared.verify.check.judged.Judged.TheVariants.{No};

use crate::verify::check::cause::{ca_cause, cause_of, list_cause, locator_cause};
use crate::verify::check::hint::{self, Issuer};
use crate::verify::request::{FileKind, IssuerFiles};
use bytes::Bytes;
use rpki_files::{ManifestContent, ResourceSignedChecklist};
use rpki_routes::{AsProviderAttestation, RouteOriginAttestation};
use rpki_show::texts::certificate::push_certificate;
use rpki_show::texts::rta::push_attestation;
use rpki_show::texts::tal::push_tal;
use rpki_validation::attestation::granted_on;
use rpki_validation::certificate::ca_on;
use rpki_validation::grounds::Grounds;
use rpki_validation::kinds::Lines;
use rpki_validation::locator::locator_under;
use rpki_validation::object::found_on;
use rpki_validation::question::Question;
use rpki_validation::refusal::{CaFault, Refusal};
use rpki_validation::revocation_list::list_on;
use std::alloc::{AllocError, Global};

/// What is said of a file.
#[derive(Debug, Drop)]
pub enum Judged {
    /// It is good, and its content has these lines.
    Yes(String),
    /// It is not, for this cause.
    No(String),
}

impl Judged {
    /// Whether it is good.
    pub fn is_yes(&self) -> bool
        ensures { result ≡ is_yes self.now }
    {
        match self {
            Judged::Yes(_) => true,
            Judged::No(_) => false,
        }
    }
}

/// What a file is judged on.
#[derive(Drop)]
pub struct Basis<'s> {
    pub question: &'s Question<'s>,
    pub grounds: &'s Grounds,
    /// The names of the files of the question.
    pub files: &'s IssuerFiles<'s>,
}

/// What is said of octets that are to begin with a good one of this kind.
pub fn judge(
    alloc: Global,
    on: &Basis<'_>,
    kind: FileKind,
    octets: &Bytes,
) -> Result<Judged, AllocError>
    ensures judged { IfOk result (IsJudged on.now.question.now on.now.grounds.now kind octets.now) }
    ensures says { IfOk result SaysRight }
{
    match kind {
        FileKind::Roa => signed::<RouteOriginAttestation>(alloc, on, octets),
        FileKind::Aspa => signed::<AsProviderAttestation>(alloc, on, octets),
        FileKind::Manifest => signed::<ManifestContent>(alloc, on, octets),
        FileKind::Checklist => signed::<ResourceSignedChecklist>(alloc, on, octets),
        FileKind::Attestation => attestation(alloc, on, octets),
        FileKind::Certificate => certificate(alloc, on, octets),
        FileKind::RevocationList => revocation_list(alloc, on, octets),
        FileKind::Locator => locator(alloc, on, octets),
    }
}

/// Why a signed object is not good.
fn object_cause(
    alloc: Global,
    on: &Basis<'_>,
    octets: &Bytes,
    refusal: &Refusal,
) -> Result<String, AllocError>
    ensures memory { OnOk result (is_memory refusal.now ≡ false) }
    ensures says { IfOk result (λ cause. SaysRight (No cause)) }
{
    let issuer = Issuer::on(on.grounds, on.files);
    let hint = hint::of_object(alloc, &issuer, on.question.manner, octets, refusal)?;
    cause_of(alloc, octets, &on.files.crls, refusal, &hint)
}

/// Why a certificate is not good.
fn certificate_cause(
    alloc: Global,
    on: &Basis<'_>,
    octets: &Bytes,
    fault: &CaFault,
) -> Result<String, AllocError>
    ensures memory { OnOk result (is_memory_at_ca fault.now ≡ false) }
    ensures says { IfOk result (λ cause. SaysRight (No cause)) }
{
    let issuer = Issuer::on(on.grounds, on.files);
    let hint = hint::of_certificate(alloc, &issuer, octets, fault)?;
    ca_cause(alloc, octets, &on.files.crls, fault, &hint)
}

/// The lines of a content.
pub fn lines_of<T: Lines>(alloc: Global, content: &T) -> Result<String, AllocError>
    ensures { IfOk result (λ text. string_bytes text ≡ T.lines content.now) }
{
    let mut text = String::new(alloc);
    content.push(alloc, &mut text)?;
    Ok(text)
}

/// The same of a signed object.
fn signed<T: Lines>(alloc: Global, on: &Basis<'_>, octets: &Bytes) -> Result<Judged, AllocError>
    ensures judged { IfOk result (IsJudgedAs T.kind
        (T.form (T.rule_in on.now.question.now.manner)) T.lines
        (mode_of on.now.question.now.manner.strict) on.now.grounds.now octets.now) }
    ensures says { IfOk result SaysRight }
{
    match found_on::<T>(alloc, octets, on.question.manner, on.grounds) {
        Ok(content) => {
            let lines = lines_of(alloc, &content);
            drop(content);
            Ok(Judged::Yes(lines?))
        }
        Err(refusal) => {
            let cause = object_cause(alloc, on, octets, &refusal);
            drop(refusal);
            Ok(Judged::No(cause?))
        }
    }
}

/// The same of an attestation.
fn attestation(alloc: Global, on: &Basis<'_>, octets: &Bytes) -> Result<Judged, AllocError>
    ensures judged { IfOk result (IsRtaJudged on.now.grounds.now octets.now) }
    ensures says { IfOk result SaysRight }
{
    match granted_on(alloc, octets, on.grounds) {
        Ok(rta) => {
            let mut text = String::new(alloc);
            let pushed = push_attestation(&mut text, rta.content());
            drop(rta);
            pushed?;
            Ok(Judged::Yes(text))
        }
        Err(refusal) => {
            let cause = cause_of(alloc, octets, &on.files.crls, &refusal, "");
            drop(refusal);
            Ok(Judged::No(cause?))
        }
    }
}

/// The same of the certificate of a CA.
fn certificate(alloc: Global, on: &Basis<'_>, octets: &Bytes) -> Result<Judged, AllocError>
    ensures judged { IfOk result (IsCaJudged on.now.grounds.now octets.now) }
    ensures says { IfOk result SaysRight }
{
    match ca_on(alloc, octets, on.grounds) {
        Ok(ca) => {
            let mut text = String::new(alloc);
            let pushed = push_certificate(alloc, &mut text, ca.cert());
            drop(ca);
            pushed?;
            Ok(Judged::Yes(text))
        }
        Err(fault) => {
            let cause = certificate_cause(alloc, on, octets, &fault);
            drop(fault);
            Ok(Judged::No(cause?))
        }
    }
}

/// The same of a revocation list. It has the line of its kind.
fn revocation_list(alloc: Global, on: &Basis<'_>, octets: &Bytes) -> Result<Judged, AllocError>
    ensures judged { IfOk result (IsListJudged on.now.grounds.now octets.now) }
    ensures says { IfOk result SaysRight }
{
    match list_on(alloc, octets, on.grounds) {
        Ok(list) => {
            drop(list);
            Ok(Judged::Yes(String::from_str(alloc, "crl\n")?))
        }
        Err(fault) => {
            let cause = list_cause(alloc, octets, &fault);
            drop(fault);
            Ok(Judged::No(cause?))
        }
    }
}

/// The same of a locator.
fn locator(alloc: Global, on: &Basis<'_>, octets: &Bytes) -> Result<Judged, AllocError>
    ensures judged { IfOk result (IsLocatorJudged on.now.question.now octets.now) }
    ensures says { IfOk result SaysRight }
{
    match locator_under(alloc, octets, on.question.anchor) {
        Ok(locator) => {
            let mut text = String::new(alloc);
            let pushed = push_tal(&mut text, &locator);
            drop(locator);
            pushed?;
            Ok(Judged::Yes(text))
        }
        Err(fault) => Ok(Judged::No(locator_cause(alloc, fault)?)),
    }
}
