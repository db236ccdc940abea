//! Lists whose octets another program made, what is said of them, and signers that fail.

use super::octets::{EMPTY, TWO};
use crate::shared::{Row, are_so, is_answer, is_said};
use rpki_basics::standin::{StandIn, StandInSigner};
use rpki_basics::{Serial, Time};
use rpki_crls::Crl;
use rpki_der::Encode;
use rpki_issued_crls::CrlBuilder;
use rpki_testing::{Fail, key, year};
use std::alloc::Global;

/// What is made.
enum Made {
    /// A list without entries, with the number zero, whose next update is in 2050.
    Empty,
    /// One with two entries that states another key than the one that is to sign it.
    Two,
}

/// The octets of a list, and which serial numbers below 16 it revokes, each as the bit with this
/// number.
struct Elsewhere(&'static [u8], u16);

/// What is made, the call of the signer that fails, and the list or why there is none.
type Issued = (Made, u64, Result<Elsewhere, &'static str>);

static ROWS: [Issued; 5] = [
    (Made::Empty, 0, Ok(Elsewhere(EMPTY, 0))),
    (Made::Two, 0, Ok(Elsewhere(TWO, 0x0208))),
    (Made::Two, 1, Err("told to fail")),
    (Made::Two, 2, Err("told to fail")),
    (Made::Two, 3, Ok(Elsewhere(TWO, 0x0208))),
];

/// Adds both entries, of which that of 2050 is the first.
fn push_both(list: &mut CrlBuilder) -> Result<(), Fail> {
    let (first, second) = (year(2050)?, year(2024)?);
    list.push(Serial::from(9), first)?;
    list.push(Serial::from(3), second)?;
    Ok(())
}

/// A list that is to be signed.
fn unsigned(alloc: Global, made: &Made) -> Result<CrlBuilder, Fail> {
    let this = year(2024)?;
    let Made::Two = made else {
        let id = key(alloc, 1)?.key_identifier();
        return Ok(CrlBuilder::new(alloc, id, this, year(2050)?, Serial::from(0)));
    };
    let id = key(alloc, 2)?.key_identifier();
    let Some(next) = Time::utc(2049, 12, 31, 23, 59, 59) else {
        return Err(Fail::Refused);
    };
    let mut list = CrlBuilder::new(alloc, id, this, next, Serial::from(u64::MAX));
    match push_both(&mut list) {
        Ok(()) => Ok(list),
        Err(fail) => {
            drop(list);
            Err(fail)
        }
    }
}

/// Whether a list is this one, and key 1 and not key 2 is said to have signed it.
fn is_as_elsewhere(alloc: Global, list: &Crl, want: &Elsewhere) -> Result<bool, Fail> {
    let Elsewhere(octets, revoked) = want;
    let first = list.verify_signature(&key(alloc, 1)?, &StandIn).is_ok();
    let second = list.verify_signature(&key(alloc, 2)?, &StandIn).is_ok();
    for n in 0..16u16 {
        if list.contains(Serial::from(u64::from(n))) != (*revoked >> n & 1 == 1) {
            return Ok(false);
        }
    }
    let is_written = is_answer(alloc, list.encode_ref().to_bytes(alloc), &Ok(*octets))?;
    Ok(is_written && first && !second)
}

impl Row for Issued {
    fn is_so(&self, alloc: Global) -> Result<bool, Fail> {
        let (made, call, want) = self;
        let mut signer = StandInSigner::failing_at(alloc, *call);
        match (
            unsigned(alloc, made)?.into_crl(alloc, &mut signer, &1),
            want,
        ) {
            (Ok(list), Ok(want)) => {
                let is_so = is_as_elsewhere(alloc, &list, want);
                drop(list);
                is_so
            }
            (answer, Err(text)) => is_said(alloc, answer, text),
            (answer, Ok(_)) => is_said(alloc, answer, ""),
        }
    }
}

#[test]
fn lists_are_issued(rt: HostRuntime) -> Result<(), Fail> {
    assert!(rt; are_so(rt.alloc(), &ROWS)?);
    Ok(())
}
