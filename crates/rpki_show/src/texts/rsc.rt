//! The lines of the content of a signed checklist.

ghost use Rattle.std.specs.List.{flat_map};
ghost use Rattle.rpki_lists.specs.Slice.{seen};
ghost use Rattle.rpki_show.specs.Grows.{Grows};
ghost use Rattle.rpki_show.specs.Texts.Rsc.{rsc_text, name_text, checked_line};

use crate::texts::blocks::{push_numbers, push_v4, push_v6};
use crate::texts::ia5::Ia5;
use crate::texts::lines::push_each;
use rpki_der::LowerHex;
use rpki_files::ResourceSignedChecklist;
use std::alloc::AllocError;
use std::fmt::Write;

/// Appends the lines of the content of a checklist. Refuses where memory runs out.
pub fn push_rsc(text: &mut String, content: &ResourceSignedChecklist) -> Result<(), AllocError>
    ensures { Grows result text.old text.new (rsc_text content.now) }
{
    write!(text, "rsc\n")?;
    push_numbers(text, content.as_resources())?;
    push_v4(text, content.v4_resources())?;
    push_v6(text, content.v6_resources())?;
    push_files(text, content)
}

/// Appends a line for each file.
fn push_files(text: &mut String, content: &ResourceSignedChecklist) -> Result<(), AllocError>
    ensures { Grows result text.old text.new (flat_map checked_line content.now.files) }
{
    push_each(text, content.iter(), |text, file| {
        push_name(text, file.file_name)?;
        let hash = LowerHex(file.hash);
        write!(text, "{hash}\n")
    })
}

/// Appends what stands before the hash of a file: its name, if it has one.
fn push_name(text: &mut String, name: Option<&[u8]>) -> Result<(), AllocError>
    ensures { Grows result text.old text.new (name_text (seen (λ n. n.now) name.entry)) }
{
    match name {
        Some(name) => {
            let name = Ia5(name);
            write!(text, "named {name} ")
        }
        None => write!(text, "unnamed "),
    }
}
