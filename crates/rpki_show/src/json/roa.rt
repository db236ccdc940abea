//! The members of a ROA content.

use crate::json::values::{Members, put_objects, put_shown};
use rpki_resources::Asn;
use rpki_routes::{FriendlyRoaIpAddress, RouteOriginAttestation};
use serde_json::{Value, put};
use std::alloc::{AllocError, Global};

/// Puts `vrps`, a list with an object for each prefix, those of IPv4 first.
pub fn put_roa(
    alloc: Global,
    members: &mut Members,
    content: &RouteOriginAttestation,
) -> Result<(), AllocError> {
    let asn = content.as_id();
    put_objects(alloc, members, "vrps", content.iter(), |members, origin| {
        put_vrp(alloc, members, asn, origin)
    })
}

/// Puts the origin, the prefix and its maximum length.
fn put_vrp(
    alloc: Global,
    members: &mut Members,
    asn: Asn,
    origin: FriendlyRoaIpAddress,
) -> Result<(), AllocError> {
    put_shown(alloc, members, "asn", &asn)?;
    let prefix = origin.max_len_prefix();
    let prefix = prefix.prefix.display(prefix.family);
    put_shown(alloc, members, "prefix", &prefix)?;
    let max_length = Value::from(origin.max_length());
    put(members, alloc, "maxLength", max_length)
}
