//! An extension of purposes, and one of these, which are copied.

use bytes::Bytes;
use rpki_der::{Constructed, Mode};
use rpki_extensions::{Extension, take_purposes};
use rpki_testing::{Fail, copied};
use std::alloc::Global;

/// The purpose id-kp-bgpsec-router.
static PURPOSES: &[u8] =
    b"\x30\x13\x06\x03\x55\x1D\x25\x04\x0C\x30\x0A\x06\x08\x2B\x06\x01\x05\x05\x07\x03\x1E";

/// Whether a copy of the last purpose in these octets is id-kp-bgpsec-router.
fn is_router(alloc: Global, value: Bytes) -> Result<bool, Fail> {
    let mut purposes = Constructed::decode(value, Mode::Der, |cons| take_purposes(alloc, cons))?;
    match purposes.pop() {
        None => Ok(false),
        Some(purpose) => {
            let copy = copied(purpose)?;
            let is_router = copy.oid().as_slice() == b"\x2B\x06\x01\x05\x05\x07\x03\x1E".as_slice();
            drop(copy);
            Ok(is_router)
        }
    }
}

/// Whether a copy of an extension of purposes has this one in its value.
fn are_purposes(alloc: Global) -> Result<bool, Fail> {
    let source = Bytes::from_static(PURPOSES);
    let mut read: Vec<Extension> = Constructed::decode(
        source,
        Mode::Der,
        |cons| cons.take_items(alloc),
    )?;
    match read.pop() {
        None => Ok(false),
        Some(extension) => {
            let Extension { value, .. } = copied(extension)?;
            is_router(alloc, value)
        }
    }
}

#[test]
fn copies(rt: HostRuntime) -> Result<(), Fail> {
    assert!(rt; are_purposes(rt.alloc())?);
    Ok(())
}
