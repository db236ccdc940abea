//! The lines of a revocation list.

ghost use Rattle.std.specs.Prelude.{codes};
ghost use Rattle.std.specs.List.{flat_map};
ghost use Rattle.rpki_show.specs.Grows.{Grows};
ghost use Rattle.rpki_show.specs.Texts.Crl.{crl_text, head_text, revoked_line, updates_text};
ghost use Rattle.rpki_show.specs.Texts.Named.{moment_line};

use crate::dated::{DatedCrl, DatedEntry};
use crate::texts::lines::push_each;
use crate::texts::named::{push_key, push_moment, push_serial};
use crate::texts::serial::serial_hex;
use std::alloc::{AllocError, Global};
use std::fmt::Write;

/// Appends the lines of a revocation list. Refuses where memory runs out.
pub fn push_crl(alloc: Global, text: &mut String, list: &DatedCrl) -> Result<(), AllocError>
    ensures { Grows result text.old text.new (crl_text list.now) }
{
    write!(text, "crl\n")?;
    push_head(alloc, text, list)?;
    push_entries(alloc, text, list.revoked())
}

/// Appends the lines before those of the entries.
fn push_head(alloc: Global, text: &mut String, list: &DatedCrl) -> Result<(), AllocError>
    ensures { Grows result text.old text.new (head_text list.now) }
{
    push_serial(alloc, text, "number", list.number())?;
    push_updates(text, list)?;
    push_key(text, "authority-key-id", list.authority_key())
}

/// Appends the lines of both moments.
#[tactic(auto, unfolding(crate::specs::Texts::Crl::updates_text))]
fn push_updates(text: &mut String, list: &DatedCrl) -> Result<(), AllocError>
    ensures { Grows result text.old text.new (updates_text list.now) }
{
    push_this(text, list)?;
    push_next(text, list)
}

/// Appends the line of when it was made.
fn push_this(text: &mut String, list: &DatedCrl) -> Result<(), AllocError>
    ensures { Grows result text.old text.new
        (moment_line (codes "this-update") list.now.this_update) }
{
    push_moment(text, "this-update", list.this_update())
}

/// Appends the line of until when the next one is made.
fn push_next(text: &mut String, list: &DatedCrl) -> Result<(), AllocError>
    ensures { Grows result text.old text.new
        (moment_line (codes "next-update") list.now.next_update) }
{
    push_moment(text, "next-update", list.next_update())
}

/// Appends a line for each entry.
fn push_entries(alloc: Global, text: &mut String, entries: &[DatedEntry]) -> Result<(), AllocError>
    ensures { Grows result text.old text.new (flat_map revoked_line entries.now) }
{
    push_each(text, entries.iter(), |text, entry| {
        push_revoked(alloc, text, entry)
    })
}

/// Appends the line of an entry.
#[tactic(auto, unfolding(crate::specs::Texts::Crl::revoked_line))]
fn push_revoked(alloc: Global, text: &mut String, entry: &DatedEntry) -> Result<(), AllocError>
    ensures { Grows result text.old text.new (revoked_line entry.now) }
{
    let serial = serial_hex(alloc, entry.serial)?;
    let date = entry.date;
    write!(text, "revoked {serial} {date}\n")
}
