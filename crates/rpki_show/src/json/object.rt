//! The members of a signed object.

use crate::json::certificate::put_signer;
use crate::json::unshown::{Unshown, refusal, shown};
use crate::json::values::{Members, put_shown};
use crate::kinds::Lines;
use bytes::Bytes;
use rpki_cli::words::{Kind, Options};
use rpki_files::{ManifestContent, ResourceSignedChecklist};
use rpki_routes::{AsProviderAttestation, RouteOriginAttestation};
use rpki_sigobj::Signed;
use serde_json::Map;
use std::alloc::{AllocError, Global};

/// The members of the signed object of this kind at the front of the octets, if there is one: those
/// of its content, `signing_time`, and those of its signer's certificate.
pub fn object_members(
    alloc: Global,
    options: Options,
    kind: Kind,
    octets: Bytes,
) -> Result<Members, Unshown> {
    match kind {
        Kind::Aspa => of_kind::<AsProviderAttestation>(alloc, options, octets),
        Kind::Manifest => of_kind::<ManifestContent>(alloc, options, octets),
        Kind::Roa => of_kind::<RouteOriginAttestation>(alloc, options, octets),
        Kind::Rsc => of_kind::<ResourceSignedChecklist>(alloc, options, octets),
    }
}

/// The members of the object with such a content at the front of the octets, if there is one.
fn of_kind<C: Lines>(alloc: Global, options: Options, octets: Bytes) -> Result<Members, Unshown> {
    match Signed::<C>::decode(alloc, octets, !options.relaxed, C::rule(options)) {
        Err(error) => Err(refusal(alloc, error)),
        Ok(object) => {
            let members = of_object(alloc, &object);
            drop(object);
            members
        }
    }
}

/// The members of an object.
fn of_object<C: Lines>(alloc: Global, object: &Signed<C>) -> Result<Members, Unshown> {
    let mut members = Map::new(alloc);
    let filled = put_object(alloc, &mut members, object);
    shown(filled, members)
}

/// Puts the members of an object.
fn put_object<C: Lines>(
    alloc: Global,
    members: &mut Members,
    object: &Signed<C>,
) -> Result<(), AllocError> {
    object.content().put_members(alloc, members)?;
    let signed = object.signed().signing_time();
    put_shown(alloc, members, "signing_time", &signed)?;
    put_signer(alloc, members, object.cert())
}
