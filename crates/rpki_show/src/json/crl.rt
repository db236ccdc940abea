//! The members of a revocation list.

use crate::dated::{DatedCrl, DatedEntry};
use crate::json::unshown::{Unshown, refusal, shown};
use crate::json::values::{Members, put_objects, put_serial, put_shown};
use bytes::Bytes;
use serde_json::Map;
use std::alloc::{AllocError, Global};

/// The members of the revocation list at the front of the octets, if there is one: `crl_serial`,
/// `valid_since`, `valid_until`, `aki`, and `revoked_certs`, a list of objects with `serial` and
/// `date`.
pub fn crl_members(alloc: Global, octets: Bytes) -> Result<Members, Unshown> {
    match DatedCrl::decode(alloc, octets) {
        Err(error) => Err(refusal(alloc, error)),
        Ok(list) => {
            let members = of_list(alloc, &list);
            drop(list);
            members
        }
    }
}

/// The members of a revocation list.
fn of_list(alloc: Global, list: &DatedCrl) -> Result<Members, Unshown> {
    let mut members = Map::new(alloc);
    let filled = put_crl(alloc, &mut members, list);
    shown(filled, members)
}

/// Puts the members of a revocation list.
pub fn put_crl(alloc: Global, members: &mut Members, list: &DatedCrl) -> Result<(), AllocError> {
    put_serial(alloc, members, "crl_serial", list.number())?;
    put_shown(alloc, members, "valid_since", &list.this_update())?;
    put_shown(alloc, members, "valid_until", &list.next_update())?;
    put_shown(alloc, members, "aki", &list.authority_key())?;
    let entries = list.revoked().iter();
    put_objects(alloc, members, "revoked_certs", entries, |members, entry| {
        put_revoked(alloc, members, entry)
    })
}

/// Puts the serial number of an entry and its date.
fn put_revoked(alloc: Global, members: &mut Members, entry: &DatedEntry) -> Result<(), AllocError> {
    put_serial(alloc, members, "serial", entry.serial)?;
    put_shown(alloc, members, "date", &entry.date)
}
