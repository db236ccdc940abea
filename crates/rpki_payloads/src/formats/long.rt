//! The lines of payloads with until when they hold and which objects say them.

ghost use Rattle.rpki_payloads.specs.Formats.Lines.{long_text, long_origin, long_provider};
ghost use Rattle.rpki_show.specs.Grows.{Grows};

use crate::formats::fields::Source;
use crate::formats::rows::{OriginRow, ProviderRow};
use crate::numbers::PrefixOf;
use rpki_resources::Asn;
use rpki_show::texts::lines::push_each;
use std::alloc::AllocError;
use std::fmt::Write;

/// Appends a line for each origin, and then for each provider.
pub(crate) fn push_long(
    text: &mut String,
    origins: &[OriginRow<'_>],
    providers: &[ProviderRow<'_>],
) -> Result<(), AllocError>
    ensures { Grows result text.old text.new (long_text origins.now providers.now) }
{
    push_each(text, origins.iter(), |text, row| { push_origin(text, row) })?;
    push_each(text, providers.iter(), |text, row| {
        push_provider(text, row)
    })
}

// Appends the line of an origin.
fn push_origin(text: &mut String, row: &OriginRow<'_>) -> Result<(), AllocError>
    ensures { Grows result text.old text.new (long_origin row.now) }
{
    let asn = Asn::from_u32(row.origin.asn);
    let prefix = PrefixOf(&row.origin);
    let max_len = row.origin.max_len;
    let source = Source {
        until: row.until,
        object: row.object,
    };
    if max_len == row.origin.len {
        write!(text, "origin {asn} {prefix} {source}\n")
    } else {
        write!(text, "origin {asn} {prefix}-{max_len} {source}\n")
    }
}

// Appends the line of a provider.
fn push_provider(text: &mut String, row: &ProviderRow<'_>) -> Result<(), AllocError>
    ensures { Grows result text.old text.new (long_provider row.now) }
{
    let customer = Asn::from_u32(row.provider.customer);
    let provider = Asn::from_u32(row.provider.provider);
    let source = Source {
        until: row.until,
        object: row.object,
    };
    write!(text, "aspa {customer} {provider} {source}\n")
}
