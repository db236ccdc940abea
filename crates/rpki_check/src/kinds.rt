//! What a number asks for.

ghost use Rattle.std.specs.Prelude.{◌≡◌, ◌↔◌, IfOk, IsTrue, MatchOption};
ghost use Rattle.rpki_sigobj.specs.Object.{mode_of};
ghost use Rattle.rpki_validation.specs.Kinds.{IsNamed};
ghost use Rattle.rpki_validation.specs.declared.kinds.Kind.{Kind as KindOf};
ghost use Rattle.rpki_check.specs.Kinds.{AsksFor, IsAskedOr, IsNamedBy, NamesAttestation, kind_code};

use crate::numbers::{NO_KIND, NO_MEMORY};
use bytes::Bytes;
use rpki_der::DecodeError;
use rpki_multi::MultiSignedObject;
use rpki_validation::kinds::{Kind, kind_in};
use std::alloc::{AllocError, Global};

/// What is asked for: an object of a kind, or a multi-signed attestation.
#[derive(Clone, Copy, Drop)]
pub enum Asked {
    Object(Kind),
    Attestation,
}

/// The number of attestations.
const ATTESTATION: u32 = 5;

/// The kind with this number.
fn kind_of(number: u32) -> Option<Kind>
    ensures { MatchOption result ((k : KindOf) → number ≡ kind_code k → ⊥)
        (λ k. number ≡ kind_code k) }
{
    match number {
        1 => Some(Kind::Roa),
        2 => Some(Kind::Aspa),
        3 => Some(Kind::Manifest),
        4 => Some(Kind::Checklist),
        _ => None,
    }
}

/// The kind that the content type of the object at the front of octets names, if it names one.
fn kind_named(alloc: Global, octets: &[u8], strict: bool) -> Result<Option<Kind>, AllocError>
    ensures { IsNamed (mode_of strict) octets.now result }
{
    let Ok(source) = Bytes::copy_from_slice(alloc, octets) else {
        return Err(AllocError);
    };
    kind_in(alloc, &source, strict)
}

/// Whether octets begin with a multi-signed object, whose content is to be an attestation.
fn is_attestation(alloc: Global, octets: &[u8]) -> Result<bool, AllocError>
    ensures { IfOk result (λ is. IsTrue is ↔ NamesAttestation octets.now) }
{
    let Ok(source) = Bytes::copy_from_slice(alloc, octets) else {
        return Err(AllocError);
    };
    match MultiSignedObject::decode(alloc, source) {
        Err(DecodeError::Memory) => Err(AllocError),
        Err(DecodeError::Malformed) => Ok(false),
        Err(DecodeError::Content(_)) => Ok(false),
        Ok(object) => {
            drop(object);
            Ok(true)
        }
    }
}

/// What the object at the front of octets names, or the status where it names nothing.
fn named(alloc: Global, octets: &[u8], strict: bool) -> Result<Asked, u32>
    ensures { IsAskedOr (IsNamedBy (mode_of strict) octets.now) result }
{
    match kind_named(alloc, octets, strict) {
        Err(_) => Err(NO_MEMORY),
        Ok(Some(kind)) => Ok(Asked::Object(kind)),
        Ok(None) => match is_attestation(alloc, octets) {
            Err(_) => Err(NO_MEMORY),
            Ok(is) => {
                if is {
                    Ok(Asked::Attestation)
                } else {
                    Err(NO_KIND)
                }
            }
        },
    }
}

/// What is asked for: what has this number, or for 0 what the object at the front of octets names;
/// or the status where there is nothing such.
pub fn asked_for(alloc: Global, number: u32, octets: &[u8], strict: bool) -> Result<Asked, u32>
    ensures { IsAskedOr (AsksFor (mode_of strict) number octets.now) result }
{
    if number == 0 {
        return named(alloc, octets, strict);
    }
    if number == ATTESTATION {
        return Ok(Asked::Attestation);
    }
    match kind_of(number) {
        Some(kind) => Ok(Asked::Object(kind)),
        None => Err(NO_KIND),
    }
}
