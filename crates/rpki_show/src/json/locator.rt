//! The members of a trust anchor locator.

use crate::json::unshown::{Unshown, shown};
use crate::json::values::{Members, put_shown, put_texts};
use crate::locator::locator_of;
use rpki_tal::{ReadError, Tal};
use serde_json::Map;
use std::alloc::{AllocError, Global};

/// The members of the locator that the octets are, if they are one: `trust_anchor_locations`, a
/// list, and `ski`. No cause is known where they are none.
pub fn locator_members(alloc: Global, octets: &[u8]) -> Result<Members, Unshown> {
    match locator_of(alloc, octets) {
        Err(ReadError::Memory) => Err(Unshown::Memory),
        Err(_) => Err(Unshown::Malformed(String::new(alloc))),
        Ok(tal) => {
            let members = of_locator(alloc, &tal);
            drop(tal);
            members
        }
    }
}

/// The members of a locator.
fn of_locator(alloc: Global, tal: &Tal) -> Result<Members, Unshown> {
    let mut members = Map::new(alloc);
    let filled = put_locator(alloc, &mut members, tal);
    shown(filled, members)
}

/// Puts the members of a locator.
fn put_locator(alloc: Global, members: &mut Members, tal: &Tal) -> Result<(), AllocError> {
    let key = tal.key_info().key_identifier();
    put_shown(alloc, members, "ski", &key)?;
    let uris = tal.uris();
    put_texts(alloc, members, "trust_anchor_locations", uris, |uri| {
        uri.to_string(alloc)
    })
}
