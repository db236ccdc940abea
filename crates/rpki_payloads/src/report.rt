//! What is reported of validation runs under locators.

ghost use Rattle.std.specs.Prelude.{◌≡◌, ◌++◌, IfOk, string_bytes};
ghost use Rattle.rpki_payloads.specs.Formats.{IsPayloadsText};
ghost use Rattle.rpki_payloads.specs.Texts.Refusals.{refusals_text};
ghost use Rattle.rpki_payloads.specs.Report.{IsReport, IsReportOf, found_in, faults_text};
ghost use Rattle.rpki_payloads.specs.Report.{all_have_runs, memory_ran_out, status_of};
ghost use Rattle.rpki_payloads.specs.Party.{party_of};

use crate::formats::{PayloadFormat, push_payloads};
use crate::found::AnchorFindings;
use crate::locators::NamedLocator;
use crate::outcome::AnchorOutcome;
use crate::party::{FolderParty, run_all};
use crate::refusals::push_refusals;
use crate::slurm::Exceptions;
use rpki_basics::{Crypto, Time};
use rpki_relying_party::Folders;
use std::alloc::{AllocError, Global};

/// The exit status where each locator has a run.
const ANSWERED: u8 = 0;

/// The exit status where one has none, but not for want of memory.
const REFUSED: u8 = 1;

/// The exit status where one has none for want of memory.
const OUT_OF_MEMORY: u8 = 3;

/// What is reported of runs under locators.
#[derive(Debug, Drop)]
pub struct PayloadsReport {
    /// The payloads, for standard output.
    pub out: String,
    /// What is refused, a line for each, for standard error.
    pub err: String,
    /// The exit status: 3 where a locator has no run for want of memory; else 0 where each has a
    /// run, and 1 where one has none for another cause.
    pub status: u8,
}

/// Reports what the runs under these locators find, in this format and after these local
/// exceptions. Refuses where memory runs out.
pub fn report_payloads<F: Folders, C: Crypto>(
    alloc: Global,
    party: &FolderParty<'_, F, C>,
    locators: &[NamedLocator<'_>],
    format: PayloadFormat,
    exceptions: &[Exceptions],
) -> Result<PayloadsReport, AllocError>
    ensures { IfOk result (IsReport (party_of F.finds C.digest_of C.is_signed party.now)
        locators.now format exceptions.now) }
{
    let outcomes = run_all(alloc, party, locators)?;
    let report = report_outcomes(alloc, &outcomes, party.moment, format, exceptions);
    drop(outcomes);
    report
}

// Reports what runs came to, in their order.
fn report_outcomes(
    alloc: Global,
    outcomes: &[AnchorOutcome<'_>],
    moment: Time,
    format: PayloadFormat,
    exceptions: &[Exceptions],
) -> Result<PayloadsReport, AllocError>
    ensures { IfOk result (IsReportOf exceptions.now format moment outcomes.now) }
{
    let found = found_in(alloc, outcomes)?;
    let out = payloads_of(alloc, &found, moment, format, exceptions)?;
    let err = refused_of(alloc, outcomes, &found)?;
    Ok(PayloadsReport {
        out,
        err,
        status: status_of(outcomes),
    })
}

// Whether a locator has no run for want of memory.
fn memory_ran_out(outcomes: &[AnchorOutcome<'_>]) -> bool
    ensures { result ≡ memory_ran_out outcomes.now }
{
    outcomes.iter().any(|one| one.lacks_memory())
}

// Whether each locator has a run.
fn all_have_runs(outcomes: &[AnchorOutcome<'_>]) -> bool
    ensures { result ≡ all_have_runs outcomes.now }
{
    outcomes.iter().all(|one| one.is_ok())
}

// The exit status. Want of memory comes first: then the answer may be another one at the next run.
fn status_of(outcomes: &[AnchorOutcome<'_>]) -> u8
    ensures { result ≡ status_of outcomes.now }
{
    if memory_ran_out(outcomes) {
        OUT_OF_MEMORY
    } else if all_have_runs(outcomes) {
        ANSWERED
    } else {
        REFUSED
    }
}

// What was found under the locators that have a run.
fn found_in<'p>(
    alloc: Global,
    outcomes: &'p [AnchorOutcome<'_>],
) -> Result<Vec<AnchorFindings<'p>>, AllocError>
    ensures { IfOk result (λ found. found.items ≡ found_in outcomes.now) }
{
    outcomes
        .iter()
        .filter_map(|one| one.findings())
        .collect(alloc)
}

// Payloads as text.
fn payloads_of(
    alloc: Global,
    found: &[AnchorFindings<'_>],
    moment: Time,
    format: PayloadFormat,
    exceptions: &[Exceptions],
) -> Result<String, AllocError>
    ensures { IfOk result (λ text.
        IsPayloadsText exceptions.now format moment found.now (string_bytes text)) }
{
    let mut text = String::new(alloc);
    push_payloads(alloc, &mut text, format, moment, found, exceptions)?;
    Ok(text)
}

// What is refused, as text: locators, and what is below the others.
fn refused_of(
    alloc: Global,
    outcomes: &[AnchorOutcome<'_>],
    found: &[AnchorFindings<'_>],
) -> Result<String, AllocError>
    ensures { IfOk result (λ text.
        string_bytes text ≡ faults_text outcomes.now ++ refusals_text found.now) }
{
    let mut text = faults_of(alloc, outcomes)?;
    push_refusals(&mut text, found)?;
    Ok(text)
}

// A line for each locator that has no run.
fn faults_of(alloc: Global, outcomes: &[AnchorOutcome<'_>]) -> Result<String, AllocError>
    ensures { IfOk result (λ text. string_bytes text ≡ faults_text outcomes.now) }
{
    let mut text = String::new(alloc);
    for one in outcomes {
        one.push_line(&mut text)?;
    }
    Ok(text)
}
