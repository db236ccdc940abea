//! Payloads as JSON (RFC 8259), each on a line.

ghost use Rattle.std.specs.Prelude.{◌≡◌, ◌++◌, ℕ, List, false, IfOk, OnOk, codes};
ghost use Rattle.serde_json.specs.View.{view};
ghost use Rattle.serde_json.specs.Written.{has_float};
ghost use Rattle.rpki_payloads.specs.Formats.Json.{json_text, client_text, list_text, item_text};
ghost use Rattle.rpki_payloads.specs.Formats.Json.{items_text};
ghost use Rattle.rpki_payloads.specs.Formats.Json.{aspa_item, roa_item, refused_item};
ghost use Rattle.rpki_payloads.specs.Formats.Json.{aspas_part, metadata_part, refused_part};
ghost use Rattle.rpki_payloads.specs.Formats.Json.{roas_part, refused_rows, refused_under};
ghost use Rattle.rpki_show.specs.Grows.{Grows, AppendsItem};

use crate::formats::Printed;
use crate::formats::groups::AspaGroup;
use crate::formats::members::{AsForm, aspa_value, metadata_value, refused_value, roa_value};
use crate::formats::rows::OriginRow;
use crate::found::AnchorFindings;
use rpki_relying_party::Refusal;
use rpki_show::texts::lines::Listed;
use serde_json::Value;
use std::alloc::{AllocError, Global};
use std::fmt::Write;
use std::marker::Model;

/// A refusal, and the name of the locator that it is below.
#[derive(Drop)]
struct RefusedLine<'a> {
    name: &'a str,
    refusal: &'a Refusal,
}

impl<'a> Model for RefusedLine<'a> {
    ghost use Rattle.std.specs.Coded.{codes};
    ghost use Rattle.rpki_relying_party.specs.contracts.found.Refusal as refusal_type;
    ghost use Rattle.rpki_payloads.specs.Formats.Json.{RefusedRow};

    ghost Value = { RefusedRow };

    ghost coded = { Prim.hlevel (codes, refusal_type.the_row.coded) };

    ghost view = { λ r. record { name = r.name.now; refusal = r.refusal.now } };
}

/// Appends the JSON of Routinator, with what is refused.
pub(crate) fn push_json(
    alloc: Global,
    text: &mut String,
    printed: &Printed<'_, '_>,
    groups: &[AspaGroup<'_, '_>],
) -> Result<(), AllocError>
    ensures { Grows result text.old text.new (json_text printed.now.moment
        printed.now.found.now printed.now.origins.now groups.now) }
{
    push_aspas(alloc, text, AsForm::Text, groups)?;
    push_metadata(alloc, text, printed)?;
    push_refused(alloc, text, printed.found)?;
    push_roas(alloc, text, AsForm::Text, printed.origins)
}

/// Appends the JSON of `rpki-client -j`.
pub(crate) fn push_client(
    alloc: Global,
    text: &mut String,
    printed: &Printed<'_, '_>,
    groups: &[AspaGroup<'_, '_>],
) -> Result<(), AllocError>
    ensures { Grows result text.old text.new (client_text printed.now.moment
        printed.now.found.now printed.now.origins.now groups.now) }
{
    push_aspas(alloc, text, AsForm::Number, groups)?;
    push_metadata(alloc, text, printed)?;
    push_roas(alloc, text, AsForm::Number, printed.origins)
}

// Appends a value on a line of its own.
fn push_value(alloc: Global, text: &mut String, value: Value) -> Result<(), AllocError>
    ensures { has_float (view value) ≡ false
        → Grows result text.old text.new (item_text (view value)) }
{
    let written = value.to_string(alloc);
    drop(value);
    let written = written?;
    let written = written.as_str();
    write!(text, "\n{written}")
}

// Appends a list, as `push` appends each item: what begins it, the items with commas, and its end.
fn push_list<I, F>(text: &mut String, begin: &str, items: I, push: F) -> Result<(), AllocError>
where
    I: Listed + Drop,
    I::Item: Drop,
    F: Fn(&mut String, I::Item) -> Result<(), AllocError>,
    requires { F.IsAlwaysCallable push }
    ensures { (line : I.Shown → List ℕ) → AppendsItem (F.post push) I.shown line
        → Grows result text.old text.new (list_text begin.now line (I.rest items)) }
{
    write!(text, "{begin}")?;
    push_items(text, items, push)?;
    write!(text, "\n]")
}

// Appends what `push` appends for each item, in order, with a comma between each two.
fn push_items<I, F>(text: &mut String, mut items: I, push: F) -> Result<(), AllocError>
where
    I: Listed + Drop,
    I::Item: Drop,
    F: Fn(&mut String, I::Item) -> Result<(), AllocError>,
    requires { F.IsAlwaysCallable push }
    ensures { (line : I.Shown → List ℕ) → AppendsItem (F.post push) I.shown line
        → Grows result text.old text.new (items_text line (I.rest items)) }
{
    let Some(first) = items.next() else {
        return Ok(());
    };
    push(text, first)?;
    for item in items {
        text.push_str(",")?;
        push(text, item)?;
    }
    Ok(())
}

// Appends the beginning, and the customers with their providers.
#[tactic(auto, unfolding(crate::specs::Formats::Json::aspas_part))]
fn push_aspas(
    alloc: Global,
    text: &mut String,
    form: AsForm,
    groups: &[AspaGroup<'_, '_>],
) -> Result<(), AllocError>
    ensures { Grows result text.old text.new (aspas_part form groups.now) }
{
    push_list(text, "{\"aspas\":[", groups.iter(), |text, group| {
        push_aspa(alloc, text, form, group)
    })
}

// Appends a customer with its providers.
fn push_aspa(
    alloc: Global,
    text: &mut String,
    form: AsForm,
    group: &AspaGroup<'_, '_>,
) -> Result<(), AllocError>
    ensures { Grows result text.old text.new (aspa_item form group.now) }
{
    let value = aspa_value(alloc, form, group)?;
    push_value(alloc, text, value)
}

// Appends when payloads were found, and how many.
#[tactic(auto, unfolding(crate::specs::Formats::Json::metadata_part))]
fn push_metadata(
    alloc: Global,
    text: &mut String,
    printed: &Printed<'_, '_>,
) -> Result<(), AllocError>
    ensures { Grows result text.old text.new (metadata_part printed.now.moment
        printed.now.found.now) }
{
    write!(text, ",\n\"metadata\":")?;
    let value = metadata_value(alloc, printed.moment, printed.found)?;
    push_value(alloc, text, value)
}

// What was refused, name by name, in the order of what the lines say.
fn refused_lines<'a>(
    alloc: Global,
    found: &[AnchorFindings<'a>],
) -> Result<Vec<RefusedLine<'a>>, AllocError>
    ensures { IfOk result (λ rows. rows.items ≡ refused_rows found.now) }
{
    let mut rows = Vec::new(alloc);
    for one in found {
        push_refusals_of(&mut rows, one)?;
    }
    Ok(rows)
}

// Appends what was refused under one name.
fn push_refusals_of<'a>(
    rows: &mut Vec<RefusedLine<'a>>,
    one: &AnchorFindings<'a>,
) -> Result<(), AllocError>
    ensures { OnOk result (rows.new.items ≡ rows.old.items ++ refused_under one.now) }
{
    for refusal in one.found().refusals.by_line.values() {
        rows.push(RefusedLine {
            name: one.name(),
            refusal,
        })?;
    }
    Ok(())
}

// Appends what was refused.
#[tactic(auto, unfolding(crate::specs::Formats::Json::refused_part))]
fn push_refused(
    alloc: Global,
    text: &mut String,
    found: &[AnchorFindings<'_>],
) -> Result<(), AllocError>
    ensures { Grows result text.old text.new (refused_part found.now) }
{
    let rows = refused_lines(alloc, found)?;
    push_refusals(alloc, text, &rows)
}

// Appends the list of refusals.
fn push_refusals(
    alloc: Global,
    text: &mut String,
    rows: &[RefusedLine<'_>],
) -> Result<(), AllocError>
    ensures { Grows result text.old text.new
        (list_text (codes ",\n\"refused\":[") refused_item rows.now) }
{
    push_list(text, ",\n\"refused\":[", rows.iter(), |text, row| {
        push_refusal(alloc, text, row)
    })
}

// Appends a refusal.
fn push_refusal(alloc: Global, text: &mut String, row: &RefusedLine<'_>) -> Result<(), AllocError>
    ensures { Grows result text.old text.new (refused_item row.now) }
{
    let value = refused_value(alloc, row.name, row.refusal)?;
    push_value(alloc, text, value)
}

// Appends the origins, and the end.
#[tactic(auto, unfolding(crate::specs::Formats::Json::roas_part))]
fn push_roas(
    alloc: Global,
    text: &mut String,
    form: AsForm,
    rows: &[OriginRow<'_>],
) -> Result<(), AllocError>
    ensures { Grows result text.old text.new (roas_part form rows.now) }
{
    push_origins(alloc, text, form, rows)?;
    write!(text, "}}\n")
}

// Appends the list of origins.
fn push_origins(
    alloc: Global,
    text: &mut String,
    form: AsForm,
    rows: &[OriginRow<'_>],
) -> Result<(), AllocError>
    ensures { Grows result text.old text.new
        (list_text (codes ",\n\"roas\":[") (roa_item form) rows.now) }
{
    push_list(text, ",\n\"roas\":[", rows.iter(), |text, row| {
        push_roa(alloc, text, form, row)
    })
}

// Appends an origin.
fn push_roa(
    alloc: Global,
    text: &mut String,
    form: AsForm,
    row: &OriginRow<'_>,
) -> Result<(), AllocError>
    ensures { Grows result text.old text.new (roa_item form row.now) }
{
    let value = roa_value(alloc, form, row)?;
    push_value(alloc, text, value)
}
