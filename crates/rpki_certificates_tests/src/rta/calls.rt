//! Attestations that are validated step by step, and from their octets.

use super::given::{ca_of, locator_of, now};
use super::octets::{
    ANCHOR, CA_1_2, CA_1_5, CA_1_9, CA_8_30, CHAIN, FORGED_ANCHOR, LOCATOR, OTHER_LOCATOR,
    TWO_HEADS,
};
use crate::shared::{Row, are_so, is_said};
use bytes::Bytes;
use rpki_basics::FixedClock;
use rpki_basics::standin::StandIn;
use rpki_multi::Rta;
use rpki_rta::Validation;
use rpki_testing::{Fail, copied};
use std::alloc::Global;

/// What is supplied: the certificate of a CA, or the text of a locator.
enum Given {
    Ca(&'static [u8]),
    Locator(&'static [u8]),
}

/// Supplies in their order, each with what it answers.
type Supplies = &'static [(Given, &'static str)];

/// An attestation, what is supplied to it, and the answer in the end.
type Supplied = (&'static [u8], Supplies, &'static str);

/// Attestations whose paths CAs anchor.
static SUPPLIED: [Supplied; 4] = [
    (CHAIN, &[(Given::Ca(CA_8_30), "all")], "yes"),
    (CHAIN, &[], "RTA could not be validated"),
    // the first path has all that is attested of it under AS1 to AS5, and keeps its anchor
    (
        TWO_HEADS,
        &[
            (Given::Ca(CA_1_5), "overclaimed AS resources"),
            (Given::Ca(CA_1_9), "all"),
            // both are anchored already
            (Given::Ca(CA_1_2), "all"),
        ],
        "yes",
    ),
    // and less under AS1 and AS2
    (
        TWO_HEADS,
        &[
            (Given::Ca(CA_1_2), "overclaimed AS resources"),
            (Given::Ca(CA_1_9), "all"),
        ],
        "AS resources not fully covered",
    ),
];

/// Attestations that carry their anchor, of which another key signed that of the third one.
static LOCATED: [Supplied; 3] = [
    (
        ANCHOR,
        &[
            (Given::Locator(OTHER_LOCATOR), "not all"),
            // a CA is meant for no head that is self-signed
            (Given::Ca(CA_1_9), "not all"),
            (Given::Locator(LOCATOR), "all"),
            (Given::Locator(OTHER_LOCATOR), "all"),
        ],
        "yes",
    ),
    (
        ANCHOR,
        &[(Given::Locator(OTHER_LOCATOR), "not all")],
        "RTA could not be validated",
    ),
    (
        FORGED_ANCHOR,
        &[(Given::Locator(LOCATOR), "signature is not valid")],
        "RTA could not be validated",
    ),
];

/// Whether a supply answers so: `all` or `not all`, as paths are anchored then, or a refusal.
fn is_supplied(
    alloc: Global,
    validation: &mut Validation<'_, StandIn>,
    given: &Given,
    want: &str,
) -> Result<bool, Fail> {
    let answer = match given {
        Given::Ca(octets) => {
            let ca = ca_of(alloc, *octets)?;
            let answer = validation.supply_ca(&ca);
            drop(ca);
            answer
        }
        Given::Locator(text) => {
            let tal = locator_of(alloc, *text)?;
            let answer = validation.supply_tal(&tal);
            drop(tal);
            answer
        }
    };
    match answer {
        Ok(all) => Ok(want == if all { "all" } else { "not all" }),
        Err(error) => is_said(alloc, Err::<(), _>(error), want),
    }
}

/// Whether each supply answers as is wanted.
fn are_supplied(
    alloc: Global,
    validation: &mut Validation<'_, StandIn>,
    supplies: Supplies,
) -> Result<bool, Fail> {
    for (given, want) in supplies {
        if !is_supplied(alloc, validation, given, want)? {
            return Ok(false);
        }
    }
    Ok(true)
}

/// Whether a copy of a validation that is begun ends so.
fn is_ended(alloc: Global, rta: &Rta, supplies: Supplies, want: &str) -> Result<bool, Fail> {
    let clock = FixedClock(now()?);
    let mut validation = copied(Validation::new(alloc, rta, true, &StandIn, &clock)?)?;
    let are_supplied = are_supplied(alloc, &mut validation, supplies);
    let is_said = is_said(alloc, validation.finalize(alloc), want);
    Ok(are_supplied? && is_said?)
}

impl Row for Supplied {
    fn is_so(&self, alloc: Global) -> Result<bool, Fail> {
        let (octets, supplies, want) = *self;
        let rta = Rta::decode(alloc, Bytes::from_static(octets))?;
        let is_ended = is_ended(alloc, &rta, supplies, want);
        drop(rta);
        is_ended
    }
}

#[test]
fn attestations_are_validated(rt: HostRuntime) -> Result<(), Fail> {
    let alloc = rt.alloc();
    assert!(rt; are_so(alloc, &SUPPLIED)? && are_so(alloc, &LOCATED)?);
    Ok(())
}
