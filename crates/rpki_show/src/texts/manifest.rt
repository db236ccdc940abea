//! The lines of the content of a manifest.

ghost use Rattle.std.specs.List.{flat_map};
ghost use Rattle.rpki_show.specs.Grows.{Grows};
ghost use Rattle.rpki_show.specs.Texts.Manifest.{manifest_text, number_line, this_line, next_line};
ghost use Rattle.rpki_show.specs.Texts.Manifest.{file_line};

use crate::texts::ia5::Ia5;
use crate::texts::lines::push_each;
use crate::texts::serial::{Hexadecimal, push_hexadecimal};
use rpki_basics::{Serial, Time};
use rpki_der::LowerHex;
use rpki_files::ManifestContent;
use std::alloc::{AllocError, Global};
use std::fmt::Write;

/// Appends the lines of the content of a manifest, with its number written so. Refuses where memory
/// runs out.
pub fn push_manifest(
    alloc: Global,
    text: &mut String,
    way: Hexadecimal,
    content: &ManifestContent,
) -> Result<(), AllocError>
    ensures { Grows result text.old text.new (manifest_text way content.now) }
{
    write!(text, "manifest\n")?;
    push_number(alloc, text, way, content.manifest_number())?;
    push_this(text, content.this_update())?;
    push_next(text, content.next_update())?;
    push_files(text, content)
}

/// Appends the line of the number.
fn push_number(
    alloc: Global,
    text: &mut String,
    way: Hexadecimal,
    number: Serial,
) -> Result<(), AllocError>
    ensures { Grows result text.old text.new (number_line way number) }
{
    write!(text, "number ")?;
    push_hexadecimal(alloc, text, way, number)?;
    write!(text, "\n")
}

/// Appends the line of the moment of this manifest.
#[tactic(auto, unfolding(crate::specs::Texts::Manifest::this_line))]
fn push_this(text: &mut String, moment: Time) -> Result<(), AllocError>
    ensures { Grows result text.old text.new (this_line moment) }
{
    write!(text, "this {moment}\n")
}

/// Appends the line of the moment of the next one.
#[tactic(auto, unfolding(crate::specs::Texts::Manifest::next_line))]
fn push_next(text: &mut String, moment: Time) -> Result<(), AllocError>
    ensures { Grows result text.old text.new (next_line moment) }
{
    write!(text, "next {moment}\n")
}

/// Appends a line for each file.
fn push_files(text: &mut String, content: &ManifestContent) -> Result<(), AllocError>
    ensures { Grows result text.old text.new (flat_map file_line content.now.files) }
{
    push_each(text, content.iter(), |text, file| {
        let name = Ia5(file.file);
        let hash = LowerHex(file.hash);
        write!(text, "file {name} {hash}\n")
    })
}
