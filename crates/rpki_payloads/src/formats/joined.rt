//! Rows that several say, joined: of each payload the one that holds longest, in order.

ghost use Rattle.std.specs.Prelude.{◌≡◌, IfOk, OnOk};
ghost use Rattle.std.specs.BTreeMap.{IsOrdered, values};
ghost use Rattle.rpki_relying_party.specs.Orders.{origin_order, provider_order};
ghost use Rattle.rpki_payloads.specs.Formats.Joined.{IsJoin, KeepsLongest, outlasts};
ghost use Rattle.rpki_payloads.specs.Formats.Row.{origin_payload, origin_until, provider_payload};
ghost use Rattle.rpki_payloads.specs.Formats.Row.{provider_until};

use crate::formats::rows::{OriginRow, ProviderRow};
use rpki_basics::Time;
use rpki_relying_party::{Origin, Provider};
use std::alloc::{AllocError, Global};
use std::collections::BTreeMap;

/// A row of each origin.
pub(crate) type Origins<'a> = BTreeMap<Origin, OriginRow<'a>>;

/// A row of each provider.
pub(crate) type Providers<'a> = BTreeMap<Provider, ProviderRow<'a>>;

// Whether what holds until one end outlasts what holds until another.
fn outlasts(one: Option<Time>, other: Option<Time>) -> bool
    ensures { result ≡ outlasts one other }
{
    match (one, other) {
        (None, None) => false,
        (None, Some(_)) => true,
        (Some(_), None) => false,
        (Some(one), Some(other)) => other.stamp() < one.stamp(),
    }
}

// Keeps the row of an origin, unless one is kept that holds as long.
fn keep_origin<'a>(joined: &mut Origins<'a>, row: OriginRow<'a>) -> Result<(), AllocError>
    ensures { OnOk result (KeepsLongest origin_order origin_payload origin_until row.entry
        joined.old joined.new) }
{
    let is_kept = match joined.get(&row.origin) {
        None => false,
        Some(kept) => !outlasts(row.until, kept.until),
    };
    if is_kept {
        drop(row);
        return Ok(());
    }
    joined.insert(row.origin, row)?;
    Ok(())
}

/// Joins the rows of origins.
pub(crate) fn join_origins<'a>(
    alloc: Global,
    said: Vec<OriginRow<'a>>,
) -> Result<Origins<'a>, AllocError>
    ensures { IfOk result (IsJoin origin_order origin_payload origin_until said.entry.items) }
{
    let mut joined = BTreeMap::new(alloc);
    for row in said {
        keep_origin(&mut joined, row)?;
    }
    Ok(joined)
}

/// The rows of origins that were joined, in their order.
pub(crate) fn list_origins<'a>(
    alloc: Global,
    joined: Origins<'a>,
) -> Result<Vec<OriginRow<'a>>, AllocError>
    ensures { IfOk result (λ rows. (rows.items ≡ values joined.entry)
        × IsOrdered origin_order joined.entry) }
{
    let mut rows = Vec::new(alloc);
    for (_, row) in joined {
        rows.push(row)?;
    }
    Ok(rows)
}

// Keeps the row of a provider, unless one is kept that holds as long.
fn keep_provider<'a>(joined: &mut Providers<'a>, row: ProviderRow<'a>) -> Result<(), AllocError>
    ensures { OnOk result (KeepsLongest provider_order provider_payload provider_until row.entry
        joined.old joined.new) }
{
    let is_kept = match joined.get(&row.provider) {
        None => false,
        Some(kept) => !outlasts(row.until, kept.until),
    };
    if is_kept {
        drop(row);
        return Ok(());
    }
    joined.insert(row.provider, row)?;
    Ok(())
}

/// Joins the rows of providers.
pub(crate) fn join_providers<'a>(
    alloc: Global,
    said: Vec<ProviderRow<'a>>,
) -> Result<Providers<'a>, AllocError>
    ensures { IfOk result (IsJoin provider_order provider_payload provider_until said.entry.items) }
{
    let mut joined = BTreeMap::new(alloc);
    for row in said {
        keep_provider(&mut joined, row)?;
    }
    Ok(joined)
}

/// The rows of providers that were joined, in their order.
pub(crate) fn list_providers<'a>(
    alloc: Global,
    joined: Providers<'a>,
) -> Result<Vec<ProviderRow<'a>>, AllocError>
    ensures { IfOk result (λ rows. (rows.items ≡ values joined.entry)
        × IsOrdered provider_order joined.entry) }
{
    let mut rows = Vec::new(alloc);
    for (_, row) in joined {
        rows.push(row)?;
    }
    Ok(rows)
}
