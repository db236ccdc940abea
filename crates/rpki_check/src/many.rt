//! Many objects in one call, on the grounds of one question.

ghost use Rattle.std.specs.Prelude.{◌≡◌, IfOk};
ghost use Rattle.std.specs.List.{AllZip};
ghost use Rattle.rpki_sigobj.specs.Object.{mode_of};
ghost use Rattle.rpki_validation.specs.Kinds.{OfKind};
ghost use Rattle.rpki_check.specs.Many.{IsGrantStatus, IsManyCall, IsStatusAs, IsStatusOn};

use crate::attestation::granted_on;
use crate::grounds::grounds_of;
use crate::kinds::{Asked, asked_for};
use crate::numbers::{GOOD, NO_MEMORY};
use crate::object::found_on;
use crate::question::{Question, manner_of};
use crate::refusal::status_of;
use crate::room::put;
use rpki_files::{ManifestContent, ResourceSignedChecklist};
use rpki_routes::{AsProviderAttestation, RouteOriginAttestation};
use rpki_validation::grounds::Grounds;
use rpki_validation::kinds::{Kind, Lines};
use rpki_validation::question::Manner;
use std::alloc::{AllocError, Global};

/// Octets that are to begin with an object of a kind.
#[repr(C)]
#[derive(Drop)]
pub struct Object<'a> {
    /// The number of the kind.
    pub kind: u32,
    pub octets: &'a [u8],
}

/// The status of an object of this kind on these grounds.
fn status_as<T: Lines>(alloc: Global, octets: &[u8], manner: Manner, grounds: &Grounds) -> u32
    ensures { IsStatusAs T.kind (T.form (T.rule_in manner)) (mode_of manner.strict) grounds.now
        octets.now result }
{
    let found = found_on::<T>(alloc, octets, manner, grounds);
    let status = status_of(&found);
    drop(found);
    status
}

/// The status of an attestation on these grounds.
fn grant_status(alloc: Global, octets: &[u8], grounds: &Grounds) -> u32
    ensures { IsGrantStatus grounds.now octets.now result }
{
    let found = granted_on(alloc, octets, grounds);
    let status = status_of(&found);
    drop(found);
    status
}

/// The status of an object of a kind on these grounds.
fn kind_status(alloc: Global, kind: Kind, octets: &[u8], manner: Manner, grounds: &Grounds) -> u32
    ensures { OfKind manner kind (λ X asked form lines.
        IsStatusAs asked form (mode_of manner.strict) grounds.now octets.now result) }
{
    match kind {
        Kind::Roa => status_as::<RouteOriginAttestation>(alloc, octets, manner, grounds),
        Kind::Aspa => status_as::<AsProviderAttestation>(alloc, octets, manner, grounds),
        Kind::Manifest => status_as::<ManifestContent>(alloc, octets, manner, grounds),
        Kind::Checklist => status_as::<ResourceSignedChecklist>(alloc, octets, manner, grounds),
    }
}

/// The status of an object on these grounds.
fn status_on(alloc: Global, object: &Object<'_>, manner: Manner, grounds: &Grounds) -> u32
    ensures { IsStatusOn manner grounds.now object.now result }
{
    let octets = object.octets;
    match asked_for(alloc, object.kind, octets, manner.strict) {
        Err(status) => status,
        Ok(Asked::Object(kind)) => kind_status(alloc, kind, octets, manner, grounds),
        Ok(Asked::Attestation) => grant_status(alloc, octets, grounds),
    }
}

/// The statuses of objects on these grounds.
fn statuses_on(
    alloc: Global,
    objects: &[Object<'_>],
    manner: Manner,
    grounds: &Grounds,
) -> Result<Vec<u32>, AllocError>
    ensures { IfOk result (λ all. AllZip (IsStatusOn manner grounds.now) objects.now all.items) }
{
    let mut statuses = Vec::new(alloc);
    for object in objects {
        statuses.push(status_on(alloc, object, manner, grounds))?;
    }
    Ok(statuses)
}

/// Puts the statuses of objects into a room, or answers why the question has no grounds.
pub fn judge(
    alloc: Global,
    question: &Question<'_>,
    objects: &[Object<'_>],
    room: &mut [u32],
    count: &mut usize,
) -> u32
    ensures { IsManyCall question.now objects.now room.old room.new count.new result }
{
    match grounds_of(alloc, question) {
        Err(refusal) => {
            put(&[], room, count);
            refusal.number()
        }
        Ok(grounds) => {
            let statuses = statuses_on(alloc, objects, manner_of(question), &grounds);
            drop(grounds);
            match statuses {
                Err(_) => {
                    put(&[], room, count);
                    NO_MEMORY
                }
                Ok(statuses) => {
                    put(&statuses, room, count);
                    GOOD
                }
            }
        }
    }
}
