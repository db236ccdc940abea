//! Origins as tables of BIRD 2, one for IPv4 and one for IPv6, each with a static protocol.

ghost use Rattle.std.specs.List.{flat_map};
ghost use Rattle.rpki_payloads.specs.Formats.Bird.{bird_text, table_v4, table_v6, route};
ghost use Rattle.rpki_payloads.specs.Formats.Bird.{route_v4, route_v6};
ghost use Rattle.rpki_show.specs.Grows.{Grows};

use crate::formats::rows::OriginRow;
use crate::numbers::PrefixOf;
use rpki_show::texts::lines::push_each;
use std::alloc::AllocError;
use std::fmt::Write;

/// Appends both tables.
pub(crate) fn push_bird(text: &mut String, rows: &[OriginRow<'_>]) -> Result<(), AllocError>
    ensures { Grows result text.old text.new (bird_text rows.now) }
{
    push_v4(text, rows)?;
    push_v6(text, rows)
}

// Appends the table for IPv4.
fn push_v4(text: &mut String, rows: &[OriginRow<'_>]) -> Result<(), AllocError>
    ensures { Grows result text.old text.new (table_v4 rows.now) }
{
    write!(
        text,
        "roa4 table ROAS4;\n\nprotocol static origins4 {{\n\troa4 {{ table ROAS4; }};\n"
    )?;
    push_routes_v4(text, rows)?;
    write!(text, "}}\n")
}

// Appends the routes for IPv4.
fn push_routes_v4(text: &mut String, rows: &[OriginRow<'_>]) -> Result<(), AllocError>
    ensures { Grows result text.old text.new (flat_map route_v4 rows.now) }
{
    push_each(text, rows.iter(), |text, row| { push_route_v4(text, row) })
}

// Appends the route of an origin of IPv4.
fn push_route_v4(text: &mut String, row: &OriginRow<'_>) -> Result<(), AllocError>
    ensures { Grows result text.old text.new (route_v4 row.now) }
{
    if row.origin.family == 1 {
        push_route(text, row)
    } else {
        Ok(())
    }
}

// Appends the table for IPv6.
fn push_v6(text: &mut String, rows: &[OriginRow<'_>]) -> Result<(), AllocError>
    ensures { Grows result text.old text.new (table_v6 rows.now) }
{
    write!(
        text,
        "\nroa6 table ROAS6;\n\nprotocol static origins6 {{\n\troa6 {{ table ROAS6; }};\n"
    )?;
    push_routes_v6(text, rows)?;
    write!(text, "}}\n")
}

// Appends the routes for IPv6.
fn push_routes_v6(text: &mut String, rows: &[OriginRow<'_>]) -> Result<(), AllocError>
    ensures { Grows result text.old text.new (flat_map route_v6 rows.now) }
{
    push_each(text, rows.iter(), |text, row| { push_route_v6(text, row) })
}

// Appends the route of an origin of IPv6.
fn push_route_v6(text: &mut String, row: &OriginRow<'_>) -> Result<(), AllocError>
    ensures { Grows result text.old text.new (route_v6 row.now) }
{
    if row.origin.family == 1 {
        Ok(())
    } else {
        push_route(text, row)
    }
}

// Appends the route of an origin.
fn push_route(text: &mut String, row: &OriginRow<'_>) -> Result<(), AllocError>
    ensures { Grows result text.old text.new (route row.now) }
{
    let prefix = PrefixOf(&row.origin);
    let max_len = row.origin.max_len;
    let asn = row.origin.asn;
    write!(text, "\troute {prefix} max {max_len} as {asn};\n")
}
