//! Payloads as sets of OpenBGPD's bgpd.conf: `roa-set`, and `aspa-set` where there is a customer.

ghost use Rattle.std.specs.List.{flat_map};
ghost use Rattle.rpki_payloads.specs.Formats.Openbgpd.{aspa_set, customer_words, openbgpd_text, roa_line, roa_set};
ghost use Rattle.rpki_payloads.specs.Formats.Openbgpd.{aspa_set_line, number_word, some_aspas};
ghost use Rattle.rpki_show.specs.Grows.{Grows};

use crate::formats::fields::{Expires, MaxLen, end_seconds};
use crate::formats::groups::AspaGroup;
use crate::formats::rows::OriginRow;
use crate::numbers::PrefixOf;
use rpki_show::texts::lines::push_each;
use std::alloc::AllocError;
use std::fmt::Write;

/// Appends both sets.
pub(crate) fn push_openbgpd(
    text: &mut String,
    origins: &[OriginRow<'_>],
    groups: &[AspaGroup<'_, '_>],
) -> Result<(), AllocError>
    ensures { Grows result text.old text.new (openbgpd_text origins.now groups.now) }
{
    push_roa_set(text, origins)?;
    push_aspa_set(text, groups)
}

// Appends the set of origins.
fn push_roa_set(text: &mut String, rows: &[OriginRow<'_>]) -> Result<(), AllocError>
    ensures { Grows result text.old text.new (roa_set rows.now) }
{
    write!(text, "roa-set {{\n")?;
    push_roas(text, rows)?;
    write!(text, "}}\n")
}

// Appends the lines of origins.
fn push_roas(text: &mut String, rows: &[OriginRow<'_>]) -> Result<(), AllocError>
    ensures { Grows result text.old text.new (flat_map roa_line rows.now) }
{
    push_each(text, rows.iter(), |text, row| { push_roa(text, row) })
}

// Appends the line of an origin.
fn push_roa(text: &mut String, row: &OriginRow<'_>) -> Result<(), AllocError>
    ensures { Grows result text.old text.new (roa_line row.now) }
{
    let prefix = PrefixOf(&row.origin);
    let max_len = MaxLen {
        len: row.origin.len,
        max_len: row.origin.max_len,
    };
    let asn = row.origin.asn;
    let expires = Expires(end_seconds(row.until));
    write!(text, "\t{prefix}{max_len} source-as {asn}{expires}\n")
}

// Appends the set of customers with their providers, if there is one.
fn push_aspa_set(text: &mut String, groups: &[AspaGroup<'_, '_>]) -> Result<(), AllocError>
    ensures { Grows result text.old text.new (aspa_set groups.now) }
{
    if groups.is_empty() {
        Ok(())
    } else {
        push_some_aspas(text, groups)
    }
}

// Appends the set of customers with their providers.
fn push_some_aspas(text: &mut String, groups: &[AspaGroup<'_, '_>]) -> Result<(), AllocError>
    ensures { Grows result text.old text.new (some_aspas groups.now) }
{
    write!(text, "aspa-set {{\n")?;
    push_aspas(text, groups)?;
    write!(text, "}}\n")
}

// Appends the lines of customers.
fn push_aspas(text: &mut String, groups: &[AspaGroup<'_, '_>]) -> Result<(), AllocError>
    ensures { Grows result text.old text.new (flat_map aspa_set_line groups.now) }
{
    push_each(text, groups.iter(), |text, group| {
        push_aspa(text, group)
    })
}

// Appends the line of a customer with its providers.
fn push_aspa(text: &mut String, group: &AspaGroup<'_, '_>) -> Result<(), AllocError>
    ensures { Grows result text.old text.new (aspa_set_line group.now) }
{
    push_customer(text, group)?;
    push_providers(text, group)?;
    write!(text, " }}\n")
}

// Appends how the line of a customer begins.
fn push_customer(text: &mut String, group: &AspaGroup<'_, '_>) -> Result<(), AllocError>
    ensures { Grows result text.old text.new (customer_words group.now) }
{
    let customer = group.customer().into_u32();
    let expires = Expires(group.expires());
    write!(text, "\tcustomer-as {customer}{expires} provider-as {{")
}

// Appends each provider, after a space.
fn push_providers(text: &mut String, group: &AspaGroup<'_, '_>) -> Result<(), AllocError>
    ensures { Grows result text.old text.new (flat_map number_word group.now) }
{
    push_each(text, group.rows().iter(), |text, row| {
        let provider = row.provider.provider;
        write!(text, " {provider}")
    })
}
