//! The plain lines of payloads.

ghost use Rattle.std.specs.List.{flat_map};
ghost use Rattle.rpki_payloads.specs.Formats.Lines.{lines_text, origin_line, aspa_line};
ghost use Rattle.rpki_payloads.specs.Formats.Lines.{provider_word};
ghost use Rattle.rpki_show.specs.Grows.{Grows};

use crate::formats::groups::AspaGroup;
use crate::formats::rows::OriginRow;
use crate::numbers::PrefixOf;
use rpki_resources::Asn;
use rpki_show::texts::lines::push_each;
use std::alloc::AllocError;
use std::fmt::Write;

/// Appends a line for each origin, and then for each customer with its providers.
pub(crate) fn push_lines(
    text: &mut String,
    origins: &[OriginRow<'_>],
    groups: &[AspaGroup<'_, '_>],
) -> Result<(), AllocError>
    ensures { Grows result text.old text.new (lines_text origins.now groups.now) }
{
    push_each(text, origins.iter(), |text, row| { push_origin(text, row) })?;
    push_each(text, groups.iter(), |text, group| {
        push_aspa(text, group)
    })
}

// Appends the line of an origin.
fn push_origin(text: &mut String, row: &OriginRow<'_>) -> Result<(), AllocError>
    ensures { Grows result text.old text.new (origin_line row.now) }
{
    let asn = Asn::from_u32(row.origin.asn);
    let prefix = PrefixOf(&row.origin);
    let max_len = row.origin.max_len;
    if max_len == row.origin.len {
        write!(text, "origin {asn} {prefix}\n")
    } else {
        write!(text, "origin {asn} {prefix}-{max_len}\n")
    }
}

// Appends the line of a customer with its providers.
fn push_aspa(text: &mut String, group: &AspaGroup<'_, '_>) -> Result<(), AllocError>
    ensures { Grows result text.old text.new (aspa_line group.now) }
{
    let customer = group.customer();
    write!(text, "aspa {customer}")?;
    push_providers(text, group)?;
    write!(text, "\n")
}

// Appends each provider, after a space.
fn push_providers(text: &mut String, group: &AspaGroup<'_, '_>) -> Result<(), AllocError>
    ensures { Grows result text.old text.new (flat_map provider_word group.now) }
{
    push_each(text, group.rows().iter(), |text, row| {
        let provider = Asn::from_u32(row.provider.provider);
        write!(text, " {provider}")
    })
}
