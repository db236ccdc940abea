//! What a manifest says of itself: its number, and of which moments it is.

ghost use Rattle.std.specs.Prelude.{◌≡◌, IfOk, string_bytes};
ghost use Rattle.rpki_basics.specs.Serial.{serial_text};
ghost use Rattle.rpki_check.specs.Edition.{IsEditionCall, IsEditionPut, edition_of};

use crate::numbers::{GOOD, NO_MEMORY};
use crate::object::found_in;
use crate::question::Question;
use crate::refusal::Refusal;
use crate::room::put;
use rpki_basics::Serial;
use rpki_files::ManifestContent;
use std::alloc::{AllocError, Global};
use std::fmt::Write;

/// The moments of a manifest, as numbers that grow with time.
#[repr(C)]
#[derive(Clone, Copy, Drop)]
pub struct Edition {
    /// When it was made.
    pub this_update: u64,
    /// When the next one is due.
    pub next_update: u64,
}

/// The moments of a manifest.
fn edition_of(manifest: &ManifestContent) -> Edition
    ensures { result ≡ edition_of manifest.now }
{
    Edition {
        this_update: manifest.this_update().stamp(),
        next_update: manifest.next_update().stamp(),
    }
}

/// A number in lower hexadecimal.
fn digits_of(alloc: Global, number: Serial) -> Result<String, AllocError>
    ensures { IfOk result (λ text. string_bytes text ≡ serial_text number) }
{
    let mut text = String::new(alloc);
    write!(text, "{number}")?;
    Ok(text)
}

/// Puts what a manifest says of itself, if one is found, and gives the status.
fn put_edition(
    alloc: Global,
    found: &Result<ManifestContent, Refusal>,
    edition: &mut Edition,
    room: &mut [u8],
    len: &mut usize,
) -> u32
    ensures { IsEditionPut found.now edition.old edition.new room.old room.new len.new result }
{
    match found {
        Err(refusal) => {
            put(b"", room, len);
            refusal.number()
        }
        Ok(manifest) => match digits_of(alloc, manifest.manifest_number()) {
            Err(_) => {
                put(b"", room, len);
                NO_MEMORY
            }
            Ok(text) => {
                put(text.as_bytes(), room, len);
                *edition = edition_of(manifest);
                GOOD
            }
        },
    }
}

/// What the manifest at the front of octets says of itself.
pub fn edition_in(
    alloc: Global,
    question: &Question<'_>,
    octets: &[u8],
    edition: &mut Edition,
    room: &mut [u8],
    len: &mut usize,
) -> u32
    ensures { IsEditionCall question.now octets.now edition.old edition.new room.old room.new
        len.new result }
{
    let found = found_in::<ManifestContent>(alloc, question, octets);
    let status = put_edition(alloc, &found, edition, room, len);
    drop(found);
    status
}
