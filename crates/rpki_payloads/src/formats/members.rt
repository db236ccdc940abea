//! Payloads, refusals and counts as values of JSON.

ghost use Rattle.std.specs.Prelude.{◌≡◌, IfOk, map};
ghost use Rattle.serde_json.specs.View.{view, items_of, items_view};
ghost use Rattle.rpki_payloads.specs.Formats.Json.{as_data, roa_data, aspa_data, refused_data};
ghost use Rattle.rpki_payloads.specs.Formats.Json.{provider_data, count_data, metadata_data};
ghost use Rattle.rpki_payloads.specs.Formats.Json.{maybe};

use crate::formats::fields::end_seconds;
use crate::formats::groups::AspaGroup;
use crate::formats::rows::OriginRow;
use crate::found::AnchorFindings;
use crate::numbers::PrefixOf;
use crate::seconds::seconds_of;
use rpki_basics::Time;
use rpki_relying_party::Refusal;
use rpki_resources::Asn;
use serde_json::{Value, json, push};
use std::alloc::{AllocError, Global};

/// How AS numbers are written: as Routinator does, `"AS64496"`, or as rpki-client, `64496`.
#[derive(Clone, Copy, Debug, PartialEq, Eq)]
pub enum AsForm {
    Text,
    Number,
}

// An AS number.
fn as_value(alloc: Global, form: AsForm, asn: u32) -> Result<Value, AllocError>
    ensures { IfOk result (λ v. view v ≡ as_data form asn) }
{
    match form {
        AsForm::Number => Ok(Value::from(asn)),
        AsForm::Text => {
            let asn = Asn::from_u32(asn);
            Ok(Value::String(format!(in alloc; "{asn}")?))
        }
    }
}

// An end, or null.
fn end_value(until: Option<u64>) -> Value
    ensures { view result ≡ maybe until }
{
    match until {
        None => Value::Null,
        Some(until) => Value::from(until),
    }
}

/// An origin.
pub(crate) fn roa_value(
    alloc: Global,
    form: AsForm,
    row: &OriginRow<'_>,
) -> Result<Value, AllocError>
    ensures { IfOk result (λ v. view v ≡ roa_data form row.now) }
{
    let prefix = PrefixOf(&row.origin);
    let prefix = format!(in alloc; "{prefix}")?;
    let asn = as_value(alloc, form, row.origin.asn)?;
    let until = end_value(end_seconds(row.until));
    let max_len = row.origin.max_len;
    let name = row.name;
    json!(in alloc; {
        "asn": asn, "expires": until, "maxLength": max_len, "prefix": prefix, "ta": name
    })
}

// The providers of a customer.
fn provider_values(
    alloc: Global,
    form: AsForm,
    group: &AspaGroup<'_, '_>,
) -> Result<Vec<Value>, AllocError>
    ensures { IfOk result (λ values.
        items_view values.items ≡ items_of (map (provider_data form) group.now)) }
{
    let mut values = Vec::new(alloc);
    for row in group.rows() {
        let pushed = match as_value(alloc, form, row.provider.provider) {
            Err(error) => Err(error),
            Ok(value) => push(&mut values, value),
        };
        if pushed.is_err() {
            drop(values);
            return Err(AllocError);
        }
    }
    Ok(values)
}

/// A customer with its providers.
pub(crate) fn aspa_value(
    alloc: Global,
    form: AsForm,
    group: &AspaGroup<'_, '_>,
) -> Result<Value, AllocError>
    ensures { IfOk result (λ v. view v ≡ aspa_data form group.now) }
{
    let name = group.name();
    match form {
        AsForm::Text => {
            let customer = group.customer();
            let customer = format!(in alloc; "{customer}")?;
            let providers = provider_values(alloc, form, group)?;
            let until = end_value(group.expires());
            json!(in alloc; {
                "customer": customer, "expires": until, "providers": providers, "ta": name
            })
        }
        AsForm::Number => {
            let customer = group.customer().into_u32();
            let providers = provider_values(alloc, form, group)?;
            let until = end_value(group.expires());
            json!(in alloc; {
                "customer_asid": customer, "expires": until, "providers": providers
            })
        }
    }
}

/// A refusal below the locator of this name.
pub(crate) fn refused_value(
    alloc: Global,
    name: &str,
    refusal: &Refusal,
) -> Result<Value, AllocError>
    ensures { IfOk result (λ v. view v ≡ refused_data name.now refusal.now) }
{
    let cause = &refusal.cause;
    let reason = format!(in alloc; "{cause}")?;
    let uri = refusal.uri.as_str();
    let under = refusal.under.as_str();
    json!(in alloc; {"ca": under, "reason": reason, "ta": name, "uri": uri})
}

// How much was found under a name.
fn count_value(alloc: Global, one: &AnchorFindings<'_>) -> Result<Value, AllocError>
    ensures { IfOk result (λ v. view v ≡ count_data one.now) }
{
    let name = one.name();
    let found = one.found();
    let origins = found.payloads.origins.len();
    let providers = found.payloads.providers.len();
    let refused = found.refusals.by_line.len();
    json!(in alloc; {
        "name": name, "origins": origins, "providers": providers, "refused": refused
    })
}

// How much was found under each name.
fn count_values(alloc: Global, found: &[AnchorFindings<'_>]) -> Result<Vec<Value>, AllocError>
    ensures { IfOk result (λ values.
        items_view values.items ≡ items_of (map count_data found.now)) }
{
    let mut values = Vec::new(alloc);
    for one in found {
        let pushed = match count_value(alloc, one) {
            Err(error) => Err(error),
            Ok(value) => push(&mut values, value),
        };
        if pushed.is_err() {
            drop(values);
            return Err(AllocError);
        }
    }
    Ok(values)
}

/// When payloads were found, and how many under each name.
pub(crate) fn metadata_value(
    alloc: Global,
    moment: Time,
    found: &[AnchorFindings<'_>],
) -> Result<Value, AllocError>
    ensures { IfOk result (λ v. view v ≡ metadata_data moment found.now) }
{
    let time = format!(in alloc; "{moment}")?;
    let counts = count_values(alloc, found)?;
    let seconds = seconds_of(moment);
    json!(in alloc; {
        "buildtime": &time, "generated": seconds, "generatedTime": &time, "locators": counts
    })
}
