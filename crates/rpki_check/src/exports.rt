//! The calls.

ghost use Rattle.std.specs.Prelude.{◌≡◌};
ghost use Rattle.rpki_der.specs.declared.mode.Mode.TheVariants.{Der};
ghost use Rattle.rpki_files.specs.Checklist.{ChecklistForm};
ghost use Rattle.rpki_files.specs.Checklist.Checks.{checklist_kind};
ghost use Rattle.rpki_files.specs.Manifest.{ManifestForm};
ghost use Rattle.rpki_files.specs.Manifest.Checks.{manifest_kind};
ghost use Rattle.rpki_routes.specs.Aspa.Checks.{aspa_kind};
ghost use Rattle.rpki_routes.specs.Aspa.Form.{AspaForm};
ghost use Rattle.rpki_routes.specs.Roa.Checks.{roa_kind};
ghost use Rattle.rpki_routes.specs.Roa.Form.{RoaForm};
ghost use Rattle.rpki_check.specs.Calls.{IsObjectCall, IsShowCall};
ghost use Rattle.rpki_check.specs.Decided.{TellsAsked, TellsEach, TellsGood};
ghost use Rattle.rpki_check.specs.Edition.{IsEditionCall};
ghost use Rattle.rpki_check.specs.Files.{IsFilesCall, checked_files, listed_files};
ghost use Rattle.rpki_check.specs.Grounds.{manner_in};
ghost use Rattle.rpki_check.specs.Many.{IsManyCall};
ghost use Rattle.rpki_check.specs.Numbers.{IsVerdict, version};
ghost use Rattle.rpki_check.specs.Rows.{IsRowsCall, numbers, payloads};

use crate::edition::{Edition, edition_in};
use crate::files::{Entry, files_in};
use crate::many::{Object, judge};
use crate::numbers::{GOOD, NO_MEMORY, VERSION, verification_number};
use crate::question::{Question, manner_of};
use crate::report::{report_asked, show_asked};
use crate::rows::{Payload, rows_in};
use bytes::Bytes;
use rpki_basics::{Crypto, PublicKey, RpkiSignature, RpkiSignatureAlgorithm};
use rpki_faults::VerificationError;
use rpki_files::{ManifestContent, ResourceSignedChecklist};
use rpki_routes::{AsProviderAttestation, RouteOriginAttestation};
use rpki_rsa::Rsa;
use std::alloc::Global;

/// The version of these calls.
#[unsafe(no_mangle)]
pub extern "C" fn rpki_check_version() -> u32
    ensures { result ≡ version }
{
    VERSION
}

/// Whether a signature of a message is one by RSA with SHA-256 by the key with these bits.
#[unsafe(no_mangle)]
pub extern "C" fn rpki_check_signature(
    alloc: Global,
    key: &[u8],
    message: &[u8],
    signature: &[u8],
) -> u32
    ensures { IsVerdict key.now message.now signature.now result }
{
    let Ok(bits) = Bytes::copy_from_slice(alloc, key) else {
        return NO_MEMORY;
    };
    let Ok(value) = Bytes::copy_from_slice(alloc, signature) else {
        return NO_MEMORY;
    };
    let key = PublicKey::from_bits(bits);
    let signature = RpkiSignature::new(RpkiSignatureAlgorithm::RsaSha256, value);
    if Rsa.verify(&key, message, &signature) {
        GOOD
    } else {
        verification_number(VerificationError::BadSignature)
    }
}

/// Whether octets begin with a good object of a kind, or with a multi-signed attestation that is
/// granted, where the issuer that the certificates make is the CA that is supplied. The text is
/// what the object says, or why there is none.
#[unsafe(no_mangle)]
pub extern "C" fn rpki_check_object(
    alloc: Global,
    question: &Question<'_>,
    kind: u32,
    object: &[u8],
    room: &mut [u8],
    len: &mut usize,
) -> u32
    ensures call { IsObjectCall question.now kind object.now room.old room.new len.new result }
    ensures tells { TellsAsked question.now kind object.now result }
{
    report_asked(alloc, question, kind, object, room, len)
}

/// What the object of a kind at the front of octets says, without a check. Of the question, the
/// options alone are looked at.
#[unsafe(no_mangle)]
pub extern "C" fn rpki_check_show(
    alloc: Global,
    question: &Question<'_>,
    kind: u32,
    object: &[u8],
    room: &mut [u8],
    len: &mut usize,
) -> u32
    ensures { IsShowCall (manner_in question.now) kind object.now room.old room.new len.new result }
{
    show_asked(alloc, manner_of(question), kind, object, room, len)
}

/// Whether objects are good, all on the grounds of one question: the status of each.
#[unsafe(no_mangle)]
pub extern "C" fn rpki_check_objects(
    alloc: Global,
    question: &Question<'_>,
    objects: &[Object<'_>],
    room: &mut [u32],
    count: &mut usize,
) -> u32
    ensures call { IsManyCall question.now objects.now room.old room.new count.new result }
    ensures tells { TellsEach question.now objects.now room.old room.new count.new result }
{
    judge(alloc, question, objects, room, count)
}

/// Whether octets begin with a good ROA: its prefixes.
#[unsafe(no_mangle)]
pub extern "C" fn rpki_check_roa(
    alloc: Global,
    question: &Question<'_>,
    object: &[u8],
    room: &mut [Payload],
    count: &mut usize,
) -> u32
    ensures call { IsRowsCall roa_kind RoaForm payloads question.now object.now room.old room.new
        count.new result }
    ensures tells { TellsGood roa_kind RoaForm question.now object.now result }
{
    rows_in::<RouteOriginAttestation>(alloc, question, object, room, count)
}

/// Whether octets begin with a good manifest: the files that it lists.
#[unsafe(no_mangle)]
pub extern "C" fn rpki_check_manifest(
    alloc: Global,
    question: &Question<'_>,
    object: &[u8],
    room: &mut [Entry],
    count: &mut usize,
    octets: &mut [u8],
    len: &mut usize,
) -> u32
    ensures call { IsFilesCall manifest_kind (ManifestForm (manner_in question.now).names Der)
        listed_files question.now object.now room.old room.new count.new octets.old octets.new
        len.new result }
    ensures tells { TellsGood manifest_kind (ManifestForm (manner_in question.now).names Der)
        question.now object.now result }
{
    files_in::<ManifestContent>(alloc, question, object, room, count, octets, len)
}

/// Whether octets begin with a good manifest: its number and its moments.
#[unsafe(no_mangle)]
pub extern "C" fn rpki_check_edition(
    alloc: Global,
    question: &Question<'_>,
    object: &[u8],
    edition: &mut Edition,
    room: &mut [u8],
    len: &mut usize,
) -> u32
    ensures call { IsEditionCall question.now object.now edition.old edition.new room.old room.new
        len.new result }
    ensures tells { TellsGood manifest_kind (ManifestForm (manner_in question.now).names Der)
        question.now object.now result }
{
    edition_in(alloc, question, object, edition, room, len)
}

/// Whether octets begin with a good checklist: the files that it lists.
#[unsafe(no_mangle)]
pub extern "C" fn rpki_check_checklist(
    alloc: Global,
    question: &Question<'_>,
    object: &[u8],
    room: &mut [Entry],
    count: &mut usize,
    octets: &mut [u8],
    len: &mut usize,
) -> u32
    ensures call { IsFilesCall checklist_kind (ChecklistForm Der) checked_files question.now
        object.now room.old room.new count.new octets.old octets.new len.new result }
    ensures tells { TellsGood checklist_kind (ChecklistForm Der) question.now object.now result }
{
    files_in::<ResourceSignedChecklist>(alloc, question, object, room, count, octets, len)
}

/// Whether octets begin with a good ASPA: its customer, and the customer's providers.
#[unsafe(no_mangle)]
pub extern "C" fn rpki_check_aspa(
    alloc: Global,
    question: &Question<'_>,
    object: &[u8],
    room: &mut [u32],
    count: &mut usize,
) -> u32
    ensures call { IsRowsCall aspa_kind (AspaForm (manner_in question.now).limit) numbers
        question.now object.now room.old room.new count.new result }
    ensures tells { TellsGood aspa_kind (AspaForm (manner_in question.now).limit) question.now
        object.now result }
{
    rows_in::<AsProviderAttestation>(alloc, question, object, room, count)
}
