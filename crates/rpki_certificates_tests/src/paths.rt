//! Tests of `rpki_paths`: rows of certificates that are walked, each with what must be answered.
//! The answers follow from the draft by hand. Whole attestations are rows of the programs; further
//! pairings are in the sweeps.

mod attested;
mod granted;
mod identifiers;
mod plain;
mod walks;

use crate::shared::are_so;
use rpki_testing::Fail;

#[test]
fn walks_and_supplies(rt: HostRuntime) -> Result<(), Fail> {
    let alloc = rt.alloc();
    let are_granted = are_so(alloc, &walks::CASES)? && are_so(alloc, &granted::ROWS)?;
    assert!(rt; are_granted && are_so(alloc, &identifiers::ROWS)?);
    Ok(())
}
