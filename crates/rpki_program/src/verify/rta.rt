//! To check an attestation under anchors: locators, and CAs that certificates make.

ghost use Rattle.std.specs.Prelude.{◌≡◌, ◌++◌, [], Any, IfErr, IfOk, codes, map, string_bytes};
ghost use Rattle.rpki_rta.specs.Refused.{supply_in};
ghost use Rattle.rpki_show.specs.Texts.Rta.{attestation_text};
ghost use Rattle.rpki_program.specs.Verify.Report.{IsRefused, IsStopped};
ghost use Rattle.rpki_program.specs.Verify.Rta.{AreAnchors, IsAnchorOf, IsIssued, IsLocated};
ghost use Rattle.rpki_program.specs.Verify.Rta.{IsNoAnchor, IsNone, IsReportUnder, IsRtaReport};
ghost use Rattle.rpki_program.specs.Verify.Rta.{IsUnder, IsUnissued, supply_of};

use crate::verify::check::cause::{bad_input, bad_locator, cause_of, issuer_cause, unread_report};
use crate::verify::inputs::{question_of, read_inputs, read_one};
use crate::verify::report::Report;
use crate::verify::request::{IssuerFiles, RtaRequest};
use bytes::Bytes;
use rpki_basics::{ManifestRule, ProviderLimit, Time};
use rpki_cli::Store;
use rpki_cli::anchor_words::{is_locator, names_of_anchors};
use rpki_multi::Rta;
use rpki_paths::Supplied;
use rpki_rta::Supply;
use rpki_show::texts::rta::push_attestation;
use rpki_tal::Tal;
use rpki_validation::attestation::check_supplied;
use rpki_validation::grounds::{Grounds, grounds_of};
use rpki_validation::locator::locator_in;
use rpki_validation::question::{Manner, Question};
use rpki_validation::refusal::Refusal;
use std::alloc::{AllocError, Global};

/// What an attestation is anchored under.
#[derive(Drop)]
pub enum Anchor {
    /// A trust anchor locator.
    Tal(Tal),
    /// The issuer that certificates make.
    Ca(Grounds),
}

/// Checks an attestation under anchors at this moment. The status is 0 where it is granted, and 1
/// where it is not, or a word names no anchor. Refuses where memory runs out.
pub fn rta<S: Store>(
    alloc: Global,
    request: &RtaRequest<'_>,
    moment: Time,
    store: &mut S,
) -> Result<Report, AllocError>
    ensures { IfOk result (λ r. IsRtaReport (S.told store.old) request.now moment
        (string_bytes r.out) r.status) }
{
    match anchors_of(alloc, &request.anchors, moment, store)? {
        Err(report) => Ok(report),
        Ok(anchors) => match read_one(alloc, request.object, store) {
            Err(unread) => {
                drop(anchors);
                unread_report(alloc, unread)
            }
            Ok(octets) => {
                let report = granted(alloc, &octets, &anchors, moment);
                drop(anchors);
                report
            }
        },
    }
}

/// The anchors that these words name, in their order, or the report where one is none.
fn anchors_of<S: Store>(
    alloc: Global,
    words: &[&str],
    moment: Time,
    store: &mut S,
) -> Result<Result<Vec<Anchor>, Report>, AllocError>
    ensures anchors { IfOk result (λ made. IfOk made
        (λ anchors. AreAnchors (S.told store.old) moment words.now anchors.items)) }
    ensures none { IfOk result (λ made. IfErr made (λ report.
        IsNone (Any (λ w. IsNoAnchor (S.told store.old) moment w.now) words.now)
        (string_bytes report.out) report.status)) }
    ensures same { S.told store.new ≡ S.told store.old }
{
    let mut anchors = Vec::new(alloc);
    for word in words {
        match anchor_of(alloc, word, moment, store)? {
            Err(report) => return Ok(Err(report)),
            Ok(anchor) => anchors.push(anchor)?,
        }
    }
    Ok(Ok(anchors))
}

/// The anchor that this word names, or the report where it is none.
fn anchor_of<S: Store>(
    alloc: Global,
    word: &str,
    moment: Time,
    store: &mut S,
) -> Result<Result<Anchor, Report>, AllocError>
    ensures anchor { IfOk result (λ made. IfOk made (IsAnchorOf (S.told store.old) moment word.now)) }
    ensures none { IfOk result (λ made. IfErr made (λ report.
        IsNone (IsNoAnchor (S.told store.old) moment word.now)
        (string_bytes report.out) report.status)) }
    ensures same { S.told store.new ≡ S.told store.old }
{
    let under = under_of(alloc, word)?;
    if is_locator(word) {
        located(alloc, under.ta, store)
    } else {
        issued(alloc, &under, moment, store)
    }
}

/// The files that an anchor names, the first as that of a trust anchor.
fn under_of<'a>(alloc: Global, word: &'a str) -> Result<IssuerFiles<'a>, AllocError>
    ensures { IfOk result (λ under. IsUnder word.now under) }
{
    let names = names_of_anchors(alloc, &[word])?;
    match names.split_first() {
        None => Err(AllocError),
        Some((first, others)) => {
            let mut cas = Vec::new(alloc);
            cas.extend_from_slice(others)?;
            Ok(IssuerFiles {
                ta: first,
                tal: None,
                cas,
                crls: Vec::new(alloc),
            })
        }
    }
}

/// The anchor that the locator in the file of this name is.
fn located<S: Store>(
    alloc: Global,
    name: &str,
    store: &mut S,
) -> Result<Result<Anchor, Report>, AllocError>
    ensures anchor { IfOk result (λ made. IfOk made (IsLocated (S.told store.old) name.now)) }
    ensures none { IfOk result (λ made. IfErr made (λ report.
        IsStopped report.status × (string_bytes report.out ≡ []))) }
    ensures same { S.told store.new ≡ S.told store.old }
{
    match read_one(alloc, name, store) {
        Err(unread) => Ok(Err(unread_report(alloc, unread)?)),
        Ok(octets) => match locator_in(alloc, Some(&octets)) {
            Ok(Some(locator)) => Ok(Ok(Anchor::Tal(locator))),
            Err(Refusal::NoLocator) => Ok(Err(bad_locator(alloc, name)?)),
            _ => Err(AllocError),
        },
    }
}

/// How the certificates of an anchor are read.
fn manner() -> Manner {
    Manner {
        strict: true,
        names: ManifestRule::Any,
        limit: ProviderLimit::Narrow,
    }
}

/// The anchor that these certificates make.
fn issued<S: Store>(
    alloc: Global,
    under: &IssuerFiles<'_>,
    moment: Time,
    store: &mut S,
) -> Result<Result<Anchor, Report>, AllocError>
    ensures anchor { IfOk result (λ made. IfOk made
        (IsIssued (S.told store.old) moment under.now)) }
    ensures none { IfOk result (λ made. IfErr made (λ report.
        IsNone (IsUnissued (S.told store.old) moment under.now)
        (string_bytes report.out) report.status)) }
    ensures same { S.told store.new ≡ S.told store.old }
{
    match read_inputs(alloc, under, store) {
        Err(unread) => Ok(Err(unread_report(alloc, unread)?)),
        Ok(inputs) => {
            let question = question_of(&inputs, moment, manner());
            match grounds_of(alloc, &question) {
                Ok(grounds) => Ok(Ok(Anchor::Ca(grounds))),
                Err(refusal) => {
                    let report = unissued(alloc, &question, under, &refusal);
                    drop(refusal);
                    Ok(Err(report?))
                }
            }
        }
    }
}

/// That certificates make no issuer.
fn unissued(
    alloc: Global,
    question: &Question<'_>,
    under: &IssuerFiles<'_>,
    refusal: &Refusal,
) -> Result<Report, AllocError>
    ensures { IfOk result (λ r. IsRefused refusal.now (string_bytes r.out) r.status) }
{
    if refusal.is_memory() {
        return Err(AllocError);
    }
    match refusal {
        Refusal::Issuer(fault) => {
            let cause = issuer_cause(alloc, question, under, fault)?;
            no(alloc, &cause)
        }
        _ => bad_input(alloc, under, refusal),
    }
}

/// Whether octets begin with an attestation that is granted under these anchors.
fn granted(
    alloc: Global,
    octets: &Bytes,
    anchors: &[Anchor],
    moment: Time,
) -> Result<Report, AllocError>
    ensures { IfOk result (λ r. IsReportUnder moment (map supply_of anchors.now) octets.now
        (string_bytes r.out) r.status) }
{
    let supplies = supplies_of(alloc, anchors)?;
    match check_supplied(alloc, octets.clone()?, &supplies, moment) {
        Err(fault) => {
            let refusal = Refusal::Check(fault);
            let cause = cause_of(alloc, octets, &[], &refusal, "");
            drop(refusal);
            no(alloc, &cause?)
        }
        Ok(rta) => {
            let lines = lines_of(alloc, &rta);
            drop(rta);
            Ok(Report::shown(alloc, lines?, 0))
        }
    }
}

/// A no, for this cause.
fn no(alloc: Global, cause: &str) -> Result<Report, AllocError>
    ensures out { IfOk result (λ r. string_bytes r.out ≡ cause.now ++ codes "\n") }
    ensures status { IfOk result (λ r. r.status ≡ 1) }
{
    let out = format!(in alloc; "{cause}\n")?;
    Ok(Report::shown(alloc, out, 1))
}

/// A yes, and the lines of an attestation.
fn lines_of(alloc: Global, rta: &Rta) -> Result<String, AllocError>
    ensures { IfOk result (λ text. string_bytes text
        ≡ codes "yes\n" ++ attestation_text rta.now.content) }
{
    let mut text = String::from_str(alloc, "yes\n")?;
    push_attestation(&mut text, rta.content())?;
    Ok(text)
}

/// What these anchors supply, in their order.
fn supplies_of<'s>(alloc: Global, anchors: &'s [Anchor]) -> Result<Vec<Supply<'s>>, AllocError>
    ensures { IfOk result (λ supplies. map supply_in supplies.items ≡ map supply_of anchors.now) }
{
    let mut supplies = Vec::new(alloc);
    for anchor in anchors {
        supplies.push(supply_of(anchor))?;
    }
    Ok(supplies)
}

/// What an anchor supplies.
fn supply_of<'s>(anchor: &'s Anchor) -> Supply<'s>
    ensures { supply_in result ≡ supply_of anchor.now }
{
    match anchor {
        Anchor::Tal(tal) => Supplied::Tal(tal),
        Anchor::Ca(grounds) => Supplied::Ca(&grounds.issuer),
    }
}
