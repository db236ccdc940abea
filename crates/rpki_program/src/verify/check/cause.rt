//! Why a file is not good, in words.

ghost use Rattle.std.specs.Prelude.{◌≡◌, ◌++◌, ℕ, List, [], IfOk, OnOk, codes, false, string_bytes};
ghost use Rattle.rpki_validation.specs.Locator.{is_memory_of_locator};
ghost use Rattle.rpki_validation.specs.Refusal.{is_memory, is_memory_at_ca};
ghost use Rattle.rpki_validation.specs.RevocationList.{is_memory_of_list};
ghost use Rattle.rpki_program.specs.Verify.Entry.{SaysRight};
ghost use Rattle.rpki_program.specs.declared.verify.check.judged.Judged.TheVariants.{No};

use crate::verify::check::hint::of_link;
use crate::verify::messages::malformed;
use crate::verify::report::{FAILED, Report, UNREADABLE};
use crate::verify::request::IssuerFiles;
use bytes::Bytes;
use rpki_certs::IssuerError;
use rpki_cli::Unread;
use rpki_der::DecodeError;
use rpki_signed::check::CheckError;
use rpki_validation::locator::LocatorFault;
use rpki_validation::question::Question;
use rpki_validation::refusal::{CaFault, IssuerFault, Refusal};
use rpki_validation::revocation_list::{ListCheck, ListFault};
use std::alloc::{AllocError, Global};

/// Why there is no good object, and this hint. Refuses where it is for want of memory.
pub fn cause_of(
    alloc: Global,
    octets: &Bytes,
    lists: &[&str],
    refusal: &Refusal,
    hint: &str,
) -> Result<String, AllocError>
    ensures memory { OnOk result (is_memory refusal.now ≡ false) }
    ensures says { IfOk result (λ cause. SaysRight (No cause)) }
{
    if refusal.is_memory() {
        Err(AllocError)
    } else {
        Ok(refused(alloc, octets, lists, refusal, hint)?)
    }
}

/// The same in words.
fn refused(
    alloc: Global,
    octets: &Bytes,
    lists: &[&str],
    refusal: &Refusal,
    hint: &str,
) -> Result<String, AllocError>
    ensures { IfOk result (λ cause. SaysRight (No cause)) }
{
    match refusal {
        Refusal::Check(CheckError::Decode(error)) => not_decoded(alloc, octets, error),
        Refusal::Revoked(place) => {
            let list = name_at(lists, *place);
            format!(in alloc; "refused: revoked by {list}")
        }
        _ => {
            let mut text = String::from_str(alloc, "refused: ")?;
            refusal.push(&mut text)?;
            text.push_str(hint)?;
            Ok(text)
        }
    }
}

/// Why a certificate is none of a CA, and this hint. Refuses where it is for want of memory.
pub fn ca_cause(
    alloc: Global,
    octets: &Bytes,
    lists: &[&str],
    fault: &CaFault,
    hint: &str,
) -> Result<String, AllocError>
    ensures memory { OnOk result (is_memory_at_ca fault.now ≡ false) }
    ensures says { IfOk result (λ cause. SaysRight (No cause)) }
{
    if fault.is_memory() {
        Err(AllocError)
    } else {
        Ok(ca_refused(alloc, octets, lists, fault, hint)?)
    }
}

/// The same in words.
fn ca_refused(
    alloc: Global,
    octets: &Bytes,
    lists: &[&str],
    fault: &CaFault,
    hint: &str,
) -> Result<String, AllocError>
    ensures { IfOk result (λ cause. SaysRight (No cause)) }
{
    match fault {
        CaFault::Error(IssuerError::Decode(error)) => not_decoded(alloc, octets, error),
        CaFault::Error(IssuerError::Validation(error)) => {
            format!(in alloc; "refused: {error}{hint}")
        }
        CaFault::Revoked(place) => {
            let list = name_at(lists, *place);
            format!(in alloc; "refused: revoked by {list}")
        }
    }
}

/// Why a list is not the current one of an issuer. Refuses where it is for want of memory.
pub fn list_cause(alloc: Global, octets: &Bytes, fault: &ListFault) -> Result<String, AllocError>
    ensures memory { OnOk result (is_memory_of_list fault.now ≡ false) }
    ensures says { IfOk result (λ cause. SaysRight (No cause)) }
{
    if fault.is_memory() {
        Err(AllocError)
    } else {
        Ok(list_refused(alloc, octets, fault)?)
    }
}

/// The same in words.
fn list_refused(alloc: Global, octets: &Bytes, fault: &ListFault) -> Result<String, AllocError>
    ensures { IfOk result (λ cause. SaysRight (No cause)) }
{
    match fault {
        ListFault::Decode(error) => not_decoded(alloc, octets, error),
        ListFault::Check(ListCheck::OtherKey) => {
            String::from_str(
                alloc,
                "refused: authority key identifier is not the issuer's",
            )
        }
        ListFault::Check(ListCheck::BadSignature) => {
            String::from_str(alloc, "refused: signature is not valid")
        }
        ListFault::Check(ListCheck::NotYet(time)) => {
            format!(in alloc; "refused: not yet current: thisUpdate {time}")
        }
        ListFault::Check(ListCheck::Stale(time)) => {
            format!(in alloc; "refused: stale: nextUpdate {time}")
        }
    }
}

/// Why a locator is not that of the trust anchor. Refuses where it is for want of memory.
pub fn locator_cause(alloc: Global, fault: LocatorFault) -> Result<String, AllocError>
    ensures memory { OnOk result (is_memory_of_locator fault ≡ false) }
    ensures says { IfOk result (λ cause. SaysRight (No cause)) }
{
    if fault.is_memory() {
        return Err(AllocError);
    }
    let words = match fault {
        LocatorFault::OtherKey => "refused: the trust anchor has another key",
        LocatorFault::NoCertificate => "refused: the trust anchor has no certificate",
        LocatorFault::NoLocator | LocatorFault::Memory => "malformed",
    };
    Ok(String::from_str(alloc, words)?)
}

/// Why certificates make no issuer, and which of their files is refused.
pub fn issuer_cause(
    alloc: Global,
    question: &Question<'_>,
    under: &IssuerFiles<'_>,
    fault: &IssuerFault,
) -> Result<String, AllocError>
    ensures refused { IfOk result (λ cause. (why : List ℕ)
        × (string_bytes cause ≡ codes "issuer refused: " ++ why)) }
    ensures says { IfOk result (λ cause. SaysRight (No cause)) }
{
    let why = file_refused(alloc, question, under, fault)?;
    format!(in alloc; "issuer refused: {why}")
}

/// Which of their files is refused, and why.
fn file_refused(
    alloc: Global,
    question: &Question<'_>,
    under: &IssuerFiles<'_>,
    fault: &IssuerFault,
) -> Result<String, AllocError> {
    match fault {
        IssuerFault::Anchor(error) => unissued(alloc, under.ta, error),
        IssuerFault::OtherKey => {
            let (ta, tal) = (under.ta, under.tal.unwrap_or("the locator"));
            format!(in alloc; "{ta}: key is not that of {tal}")
        }
        IssuerFault::Chain(place, fault) => link_refused(alloc, question, under, *place, fault),
    }
}

/// Why the certificate at this place of the chain is none of a CA, and its file.
fn link_refused(
    alloc: Global,
    question: &Question<'_>,
    under: &IssuerFiles<'_>,
    place: usize,
    fault: &CaFault,
) -> Result<String, AllocError> {
    let ca = name_at(&under.cas, place);
    match fault {
        CaFault::Error(error) => {
            let mut why = unissued(alloc, ca, error)?;
            why.push_str(&of_link(alloc, question, under, place, fault)?)?;
            Ok(why)
        }
        CaFault::Revoked(list) => {
            let list = name_at(&under.crls, *list);
            format!(in alloc; "{ca}: revoked by {list}")
        }
    }
}

/// That a file can't be read, or that memory ran out.
pub fn unread_report(alloc: Global, unread: Unread<'_>) -> Result<Report, AllocError>
    ensures { IfOk result (λ r. (r.status ≡ 4) × (string_bytes r.out ≡ [])) }
{
    match unread {
        Unread::Memory => Err(AllocError),
        Unread::Unreadable(name, reason) => {
            let reason = reason.text();
            let err = format!(in alloc; "cannot read {name}{reason}\n")?;
            Ok(Report::complaint(alloc, err, UNREADABLE))
        }
    }
}

/// That the file of this name is no locator.
pub fn bad_locator(alloc: Global, name: &str) -> Result<Report, AllocError>
    ensures { IfOk result (λ r. (r.status ≡ 2) × (string_bytes r.out ≡ [])) }
{
    let err = format!(in alloc; "bad locator {name}\n")?;
    Ok(Report::complaint(alloc, err, FAILED))
}

/// That what is to be a locator or a list of a question is none.
pub fn bad_input(
    alloc: Global,
    under: &IssuerFiles<'_>,
    refusal: &Refusal,
) -> Result<Report, AllocError>
    ensures { IfOk result (λ r. (r.status ≡ 2) × (string_bytes r.out ≡ [])) }
{
    match refusal {
        Refusal::NoList(place) => {
            let name = name_at(&under.crls, *place);
            let err = format!(in alloc; "bad list {name}\n")?;
            Ok(Report::complaint(alloc, err, FAILED))
        }
        _ => bad_locator(alloc, under.tal.unwrap_or("")),
    }
}

/// Why the certificate in the file of this name is not valid.
fn unissued(alloc: Global, file: &str, error: &IssuerError) -> Result<String, AllocError> {
    match error {
        IssuerError::Decode(DecodeError::Content(fault)) => {
            format!(in alloc; "{file}: malformed: {fault}")
        }
        IssuerError::Decode(_) => format!(in alloc; "{file}: malformed"),
        IssuerError::Validation(error) => format!(in alloc; "{file}: {error}"),
    }
}

/// The name at this place.
pub fn name_at<'a>(names: &[&'a str], place: usize) -> &'a str {
    match names.get(place) {
        Some(name) => name,
        None => "a list",
    }
}

/// Why octets are not read.
fn not_decoded(alloc: Global, octets: &Bytes, error: &DecodeError) -> Result<String, AllocError>
    ensures { IfOk result (λ cause. SaysRight (No cause)) }
{
    match error {
        DecodeError::Content(fault) => format!(in alloc; "malformed: {fault}"),
        DecodeError::Memory => Err(AllocError),
        DecodeError::Malformed => malformed(alloc, octets.as_slice()),
    }
}
