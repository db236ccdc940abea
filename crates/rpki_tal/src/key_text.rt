//! The key of a locator, as text.

ghost use Rattle.std.specs.Prelude.{IfOk, IfErr};
ghost use Rattle.rpki_der.specs.declared.mode.Mode.TheVariants.{Der};
ghost use Rattle.rpki_der.specs.Form.Decodes.{Decodes};
ghost use Rattle.rpki_basics.specs.Key.{KeyForm};
ghost use Rattle.rpki_tal.specs.Form.{IsBase64, HasKey};
ghost use Rattle.rpki_tal.specs.Faults.{IsEncodingFault, IsKeyFault, Refuses};

use crate::error::ReadError;
use crate::lines::without_blanks;
use base64::DecodeAllocError;
use base64::engine::general_purpose::STANDARD;
use bytes::Bytes;
use rpki_basics::PublicKey;
use rpki_der::DecodeError;
use std::alloc::Global;

/// Reads the key whose canonical base64 the text is, broken up by blanks. Octets after the key are
/// left. Refuses by `BadKeyInfoEncoding`, by `BadKeyInfo`, or by `Memory`.
pub fn read_key(alloc: Global, text: &[u8]) -> Result<PublicKey, ReadError>
    ensures ok { IfOk result (λ key. HasKey text.now key) }
    ensures err { IfErr result (λ e. Refuses e (IsKeyFault text.now e)) }
{
    let octets = octets_of(alloc, text)?;
    let source = Bytes::from_vec(octets)?;
    let key = decode_key(source)?;
    Ok(key)
}

// The octets whose canonical base64 the text is, broken up by blanks.
fn octets_of(alloc: Global, text: &[u8]) -> Result<Vec<u8>, ReadError>
    ensures ok { IfOk result (λ octets. IsBase64 text.now octets.items) }
    ensures err { IfErr result (λ e. Refuses e (IsEncodingFault text.now e)) }
{
    let symbols = without_blanks(alloc, text)?;
    match STANDARD.decode(alloc, symbols.as_slice()) {
        Ok(octets) => Ok(octets),
        Err(DecodeAllocError::OutOfMemory) => Err(ReadError::Memory),
        Err(DecodeAllocError::DecodeError(_)) => Err(ReadError::BadKeyInfoEncoding),
    }
}

// The key at the front of octets in DER.
#[tactic(auto, using(crate::proofs::KeyReading::decodes_key))]
fn decode_key(source: Bytes) -> Result<PublicKey, DecodeError>
    ensures { Decodes (KeyForm Der) (λ key. key) source result }
{
    PublicKey::decode(source)
}
