//! A revocation list, in which serial numbers are looked up by halves.

ghost use Rattle.std.specs.Prelude.{◌≡◌, ◌↔◌, Contains, IfOk, IsTrue};
ghost use Rattle.std.specs.List.Sorted.{IsPermutation, IsSorted};
ghost use Rattle.std.specs.Ordering.{nat_cmp};

use rpki_basics::{Serial, Time};
use rpki_crls::{Crl, CrlEntry};
use std::alloc::{AllocError, Global};
use std::marker::Model;

/// A revocation list, and beside it the serial numbers of its entries, in order.
#[derive(Drop)]
pub struct SortedCrl {
    crl: Crl,
    serials: Vec<Serial>,
}

impl Model for SortedCrl {
    ghost use Rattle.std.specs.List.Sorted.{IsPermutation, IsSorted};
    ghost use Rattle.std.specs.Ordering.{nat_cmp};
    ghost use Rattle.rpki_crls.specs.Crl.{KeptCrl};

    ghost Value = { KeptCrl };

    ghost view = { λ s. s.crl };

    ghost invariant = { λ s. IsPermutation s.crl.list.tbs.revoked s.serials.items
        × IsSorted nat_cmp s.serials.items };
}

// The serial numbers of entries, in order.
fn sorted_serials(alloc: Global, entries: &[CrlEntry]) -> Result<Vec<Serial>, AllocError>
    ensures all { IfOk result (λ serials. IsPermutation entries.now serials.items) }
    ensures sorted { IfOk result (λ serials. IsSorted nat_cmp serials.items) }
{
    let mut serials = Vec::with_capacity(alloc, entries.len())?;
    for entry in entries {
        serials.push(entry.serial())?;
    }
    serials.sort_unstable();
    Ok(serials)
}

impl SortedCrl {
    /// Sorts the serial numbers of a list.
    pub fn new(alloc: Global, crl: Crl) -> Result<SortedCrl, AllocError>
        ensures { IfOk result (λ sorted. sorted ≡ crl) }
    {
        match sorted_serials(alloc, crl.revoked()) {
            Err(error) => {
                drop(crl);
                Err(error)
            }
            Ok(serials) => Ok(SortedCrl { crl, serials }),
        }
    }

    /// Until when the next list is made.
    pub fn next_update(&self) -> Time
        ensures { result ≡ self.now.list.tbs.next_update }
    {
        self.crl.next_update()
    }

    /// Whether the list revokes the certificate with this serial number: an entry has it (RFC 5280,
    /// section 5.1.2.6).
    pub fn contains(&self, serial: Serial) -> bool
        ensures { IsTrue result ↔ Contains self.now.list.tbs.revoked serial }
    {
        self.serials.binary_search(&serial).is_ok()
    }
}
