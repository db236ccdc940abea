//! Values put together from octets.

ghost use Rattle.std.specs.Prelude.{◌≡◌, IfOk};
ghost use Rattle.std.specs.List.{flat_map};
ghost use Rattle.rpki_der.specs.Write.Written.{value_octets};

use rpki_der::build::tlv;
use std::alloc::{AllocError, Global};

/// The parts, one after the other.
pub fn joined(alloc: Global, parts: &[&[u8]]) -> Result<Vec<u8>, AllocError>
    ensures { IfOk result (λ v. v.items ≡ flat_map (λ x. x.now) parts.now) }
{
    parts.concat(alloc)
}

/// A value with this identifier, whose contents are the parts. Contents of 2^32 octets answer
/// `AllocError`.
pub fn value(alloc: Global, identifier: u8, parts: &[&[u8]]) -> Result<Vec<u8>, AllocError>
    ensures { IfOk result (λ v.
        v.items ≡ value_octets identifier (flat_map (λ x. x.now) parts.now)) }
{
    let contents = joined(alloc, parts)?;
    match tlv(alloc, identifier, &contents) {
        Ok(octets) => Ok(octets),
        Err(_) => Err(AllocError),
    }
}
