//! Values of which others are made.

ghost use Rattle.std.specs.Prelude.{IfOk};

use crate::answers::ok;
use crate::fail::Fail;
use bytes::Bytes;
use rpki_basics::{PublicKey, Rsync, Time};
use std::alloc::{AllocError, Global};

/// A copy of a value, which is let go.
pub fn copied<T: Clone + Drop>(value: T) -> Result<T, AllocError>
    ensures { IfOk result (λ copy. T.is_clone value copy) }
{
    let copy: Result<T, AllocError> = value.clone();
    drop(value);
    copy
}

/// The first moment of a year.
pub fn year(year: u16) -> Result<Time, Fail> {
    match Time::utc(year, 1, 1, 0, 0, 0) {
        Some(time) => Ok(time),
        None => Err(Fail::Refused),
    }
}

/// The rsync URI of this text.
pub fn rsync(alloc: Global, text: &'static [u8]) -> Result<Rsync, Fail> {
    ok(alloc, Rsync::from_bytes(Bytes::from_static(text)))
}

/// The key of the stand-in with this number: its bits are the eight octets of the number.
pub fn key(alloc: Global, number: u64) -> Result<PublicKey, AllocError> {
    let bits = Bytes::copy_from_slice(alloc, &number.to_be_bytes())?;
    Ok(PublicKey::from_bits(bits))
}
