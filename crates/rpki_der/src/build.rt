//! Values put together from octets.

ghost use Rattle.std.specs.Prelude.{◌≡◌, ◌<◌, ◌^◌, ◌⊎◌, length, IfOk, OnOk, IfErr, IsErrOf};
ghost use Rattle.rpki_der.specs.Write.Written.{value_octets};

use crate::encode::{Encode, EncodeError, Header, Raw};
use std::alloc::Global;

/// An identifier octet, the length of the contents in its shortest form, and the contents (X.690,
/// section 8.1.1). Any octet is taken for an identifier. Answers `TooLong` for 2^32 octets or more,
/// or `Memory`.
pub fn tlv(alloc: Global, identifier: u8, contents: &[u8]) -> Result<Vec<u8>, EncodeError>
    ensures value { IfOk result (λ v. v.items ≡ value_octets identifier contents.now) }
    ensures short { OnOk result (length contents.now < 2 ^ 32) }
    ensures too_long { IsErrOf result EncodeError.TooLong → ¬ (length contents.now < 2 ^ 32) }
    ensures memory { IsErrOf result EncodeError.Memory → length contents.now < 2 ^ 32 }
    ensures errors { IfErr result (λ e. (e ≡ EncodeError.TooLong) ⊎ (e ≡ EncodeError.Memory)) }
{
    match u32::try_from(contents.len()) {
        Err(_) => Err(EncodeError::TooLong),
        Ok(len) => (Header { identifier, len }, Raw(contents)).to_bytes(alloc),
    }
}
