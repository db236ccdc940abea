//! Payloads as rows: each with the name of the locator under which it was found, until when it
//! holds, and the object that says it.

ghost use Rattle.std.specs.Prelude.{◌≡◌, ◌++◌, IfOk, OnOk, map};
ghost use Rattle.rpki_payloads.specs.Formats.Rows.{AreOriginsAfter, AreProvidersAfter};
ghost use Rattle.rpki_payloads.specs.Formats.Rows.{added_origins, added_providers, kept_origins};
ghost use Rattle.rpki_payloads.specs.Formats.Rows.{kept_providers, providers_of_assertion};
ghost use Rattle.rpki_payloads.specs.Formats.Rows.{said_origins, said_providers};

use crate::formats::joined::{join_origins, join_providers, list_origins, list_providers};
use crate::found::AnchorFindings;
use crate::slurm::{AspaAssertion, Exceptions, drops_origin, drops_provider};
use rpki_basics::Time;
use rpki_relying_party::{Origin, Provider};
use std::alloc::{AllocError, Global};
use std::marker::Model;

/// The name of payloads that local exceptions assert.
const ASSERTED: &str = "slurm";

/// An origin. One that local exceptions assert holds forever, and no object says it.
#[derive(Drop)]
pub(crate) struct OriginRow<'a> {
    pub(crate) name: &'a str,
    pub(crate) origin: Origin,
    pub(crate) until: Option<Time>,
    pub(crate) object: &'a str,
}

impl<'a> Model for OriginRow<'a> {
    ghost use Rattle.rpki_payloads.specs.Formats.Row.{OriginRow};

    ghost Value = { OriginRow };

    ghost view = { λ r. record {
      name = r.name.now;
      origin = r.origin;
      until = r.until;
      object = r.object.now;
    } };
}

/// A provider of a customer. One that local exceptions assert holds forever, and no object says it.
#[derive(Drop)]
pub(crate) struct ProviderRow<'a> {
    pub(crate) name: &'a str,
    pub(crate) provider: Provider,
    pub(crate) until: Option<Time>,
    pub(crate) object: &'a str,
}

impl<'a> Model for ProviderRow<'a> {
    ghost use Rattle.rpki_payloads.specs.Formats.Row.{ProviderRow};

    ghost Value = { ProviderRow };

    ghost view = { λ r. record {
      name = r.name.now;
      provider = r.provider;
      until = r.until;
      object = r.object.now;
    } };
}

/// The origins that were found, but for those that a filter removes, and those that are asserted:
/// each once, in their order.
pub(crate) fn origin_rows<'a>(
    alloc: Global,
    found: &[AnchorFindings<'a>],
    exceptions: &[Exceptions],
) -> Result<Vec<OriginRow<'a>>, AllocError>
    ensures { IfOk result (λ rows. AreOriginsAfter exceptions.now found.now rows.items) }
{
    let said = said_origins(alloc, found, exceptions)?;
    let joined = join_origins(alloc, said)?;
    let rows = list_origins(alloc, joined)?;
    Ok(rows)
}

// All that is said of origins: what was found, name by name, but for what a filter removes; and then
// what is asserted.
fn said_origins<'a>(
    alloc: Global,
    found: &[AnchorFindings<'a>],
    exceptions: &[Exceptions],
) -> Result<Vec<OriginRow<'a>>, AllocError>
    ensures { IfOk result (λ rows. rows.items ≡ said_origins exceptions.now found.now) }
{
    let mut rows = Vec::new(alloc);
    for one in found {
        push_kept_origins(&mut rows, one, exceptions)?;
    }
    for file in exceptions {
        push_added_origins(&mut rows, file)?;
    }
    Ok(rows)
}

// Appends the origins of one name that no filter removes.
fn push_kept_origins<'a>(
    rows: &mut Vec<OriginRow<'a>>,
    one: &AnchorFindings<'a>,
    exceptions: &[Exceptions],
) -> Result<(), AllocError>
    ensures { OnOk result (rows.new.items ≡ rows.old.items ++ kept_origins exceptions.now one.now) }
{
    for (origin, held) in one.found().payloads.origins.iter() {
        if !drops_origin(exceptions, origin) {
            rows.push(OriginRow {
                name: one.name(),
                origin: *origin,
                until: Some(held.until),
                object: held.object.as_str(),
            })?;
        }
    }
    Ok(())
}

// Appends the origins that a file asserts.
fn push_added_origins(rows: &mut Vec<OriginRow<'_>>, file: &Exceptions) -> Result<(), AllocError>
    ensures { OnOk result (rows.new.items ≡ rows.old.items ++ added_origins file.now) }
{
    for assertion in &file.assertions.prefix_assertions {
        rows.push(OriginRow {
            name: ASSERTED,
            origin: assertion.origin(),
            until: None,
            object: "",
        })?;
    }
    Ok(())
}

/// The providers that were found, but for those that a filter removes, and those that are asserted:
/// each once, in their order.
pub(crate) fn provider_rows<'a>(
    alloc: Global,
    found: &[AnchorFindings<'a>],
    exceptions: &[Exceptions],
) -> Result<Vec<ProviderRow<'a>>, AllocError>
    ensures { IfOk result (λ rows. AreProvidersAfter exceptions.now found.now rows.items) }
{
    let said = said_providers(alloc, found, exceptions)?;
    let joined = join_providers(alloc, said)?;
    let rows = list_providers(alloc, joined)?;
    Ok(rows)
}

// All that is said of providers, in the same order.
fn said_providers<'a>(
    alloc: Global,
    found: &[AnchorFindings<'a>],
    exceptions: &[Exceptions],
) -> Result<Vec<ProviderRow<'a>>, AllocError>
    ensures { IfOk result (λ rows. rows.items ≡ said_providers exceptions.now found.now) }
{
    let mut rows = Vec::new(alloc);
    for one in found {
        push_kept_providers(&mut rows, one, exceptions)?;
    }
    for file in exceptions {
        push_added_providers(&mut rows, file)?;
    }
    Ok(rows)
}

// Appends the providers of one name that no filter removes.
fn push_kept_providers<'a>(
    rows: &mut Vec<ProviderRow<'a>>,
    one: &AnchorFindings<'a>,
    exceptions: &[Exceptions],
) -> Result<(), AllocError>
    ensures { OnOk result (rows.new.items
        ≡ rows.old.items ++ kept_providers exceptions.now one.now) }
{
    for (provider, held) in one.found().payloads.providers.iter() {
        if !drops_provider(exceptions, provider) {
            rows.push(ProviderRow {
                name: one.name(),
                provider: *provider,
                until: Some(held.until),
                object: held.object.as_str(),
            })?;
        }
    }
    Ok(())
}

// Appends the providers that a file asserts.
fn push_added_providers(
    rows: &mut Vec<ProviderRow<'_>>,
    file: &Exceptions,
) -> Result<(), AllocError>
    ensures { OnOk result (rows.new.items ≡ rows.old.items ++ added_providers file.now) }
{
    for assertion in &file.assertions.aspa_assertions {
        push_asserted(rows, assertion)?;
    }
    Ok(())
}

// Appends the providers of one customer that are asserted.
fn push_asserted(
    rows: &mut Vec<ProviderRow<'_>>,
    assertion: &AspaAssertion,
) -> Result<(), AllocError>
    ensures { OnOk result (rows.new.items
        ≡ rows.old.items ++ providers_of_assertion assertion.now) }
{
    let customer = assertion.customer_asn;
    for provider in &assertion.provider_asns {
        let provider = Provider {
            customer,
            provider: *provider,
        };
        rows.push(ProviderRow {
            name: ASSERTED,
            provider,
            until: None,
            object: "",
        })?;
    }
    Ok(())
}
