//! Origins as comma-separated values (RFC 4180).

ghost use Rattle.std.specs.Prelude.{◌≡◌, ◌∷◌, [], OnOk, IfOk, string_bytes};
ghost use Rattle.rpki_payloads.specs.Formats.Table.{KeepsReady, header, maybe_decimal};
ghost use Rattle.rpki_payloads.specs.Formats.Table.{origin_fields, table_text};
ghost use Rattle.rpki_show.specs.Grows.{Grows};

use crate::formats::fields::end_seconds;
use crate::formats::rows::OriginRow;
use crate::numbers::PrefixOf;
use csv::{Writer, WriterBuilder};
use rpki_resources::Asn;
use std::alloc::{AllocError, Global};

/// Appends a header, and a row for each origin.
pub(crate) fn push_csv(
    alloc: Global,
    text: &mut String,
    rows: &[OriginRow<'_>],
) -> Result<(), AllocError>
    ensures { Grows result text.old text.new (table_text rows.now) }
{
    let octets = table_of(alloc, rows)?;
    match String::from_utf8(octets) {
        Err(refused) => {
            drop(refused);
            Err(AllocError)
        }
        Ok(table) => text.push_str(table.as_str()),
    }
}

// The octets of the table.
fn table_of(alloc: Global, rows: &[OriginRow<'_>]) -> Result<Vec<u8>, AllocError>
    ensures { IfOk result (λ octets. octets.items ≡ table_text rows.now) }
{
    let mut out = WriterBuilder::new().from_writer(Vec::new(alloc));
    write_header(&mut out)?;
    for row in rows {
        write_row(alloc, &mut out, row)?;
    }
    match out.into_inner() {
        Ok(octets) => Ok(octets),
        Err(refused) => {
            drop(refused);
            Err(AllocError)
        }
    }
}

// Writes a record. A failed write to memory is want of it.
fn write_five(
    out: &mut Writer<Vec<u8>>,
    asn: &str,
    prefix: &str,
    max_len: &str,
    name: &str,
    until: &str,
) -> Result<(), AllocError>
    ensures { OnOk result (KeepsReady out.old out.new
        (asn.now ∷ prefix.now ∷ max_len.now ∷ name.now ∷ until.now ∷ [])) }
{
    let fields: [&[u8]; 5] = [
        asn.as_bytes(),
        prefix.as_bytes(),
        max_len.as_bytes(),
        name.as_bytes(),
        until.as_bytes(),
    ];
    match out.write_fields(&fields) {
        Ok(()) => Ok(()),
        Err(error) => {
            drop(error);
            Err(AllocError)
        }
    }
}

// Writes the names of the columns.
fn write_header(out: &mut Writer<Vec<u8>>) -> Result<(), AllocError>
    ensures { OnOk result (KeepsReady out.old out.new header) }
{
    write_five(
        out,
        "ASN",
        "IP Prefix",
        "Max Length",
        "Trust Anchor",
        "Expires",
    )
}

// Writes the row of an origin.
fn write_row(
    alloc: Global,
    out: &mut Writer<Vec<u8>>,
    row: &OriginRow<'_>,
) -> Result<(), AllocError>
    ensures { OnOk result (KeepsReady out.old out.new (origin_fields row.now)) }
{
    let asn = Asn::from_u32(row.origin.asn);
    let asn = format!(in alloc; "{asn}")?;
    let prefix = PrefixOf(&row.origin);
    let prefix = format!(in alloc; "{prefix}")?;
    let max_len = row.origin.max_len;
    let max_len = format!(in alloc; "{max_len}")?;
    let until = end_text(alloc, end_seconds(row.until))?;
    write_five(
        out,
        asn.as_str(),
        prefix.as_str(),
        max_len.as_str(),
        row.name,
        until.as_str(),
    )
}

// A number, or nothing.
fn end_text(alloc: Global, until: Option<u64>) -> Result<String, AllocError>
    ensures { IfOk result (λ text. string_bytes text ≡ maybe_decimal until) }
{
    match until {
        None => Ok(String::new(alloc)),
        Some(until) => format!(in alloc; "{until}"),
    }
}
