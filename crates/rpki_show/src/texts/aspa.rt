//! The lines of an ASPA content.

ghost use Rattle.std.specs.List.{flat_map};
ghost use Rattle.rpki_show.specs.Grows.{Grows};
ghost use Rattle.rpki_show.specs.Texts.Aspa.{aspa_text, customer_line, provider_line};

use crate::texts::lines::push_each;
use rpki_resources::Asn;
use rpki_routes::{AsProviderAttestation, ProviderAsSet};
use std::alloc::AllocError;
use std::fmt::Write;

/// Appends the lines of an ASPA content. Refuses where memory runs out.
pub fn push_aspa(text: &mut String, content: &AsProviderAttestation) -> Result<(), AllocError>
    ensures { Grows result text.old text.new (aspa_text content.now) }
{
    write!(text, "aspa\n")?;
    push_customer(text, content.customer_as())?;
    push_providers(text, content.provider_as_set())
}

/// Appends the line of the customer.
fn push_customer(text: &mut String, customer: Asn) -> Result<(), AllocError>
    ensures { Grows result text.old text.new (customer_line customer) }
{
    write!(text, "customer {customer}\n")
}

/// Appends a line for each provider.
fn push_providers(text: &mut String, providers: &ProviderAsSet) -> Result<(), AllocError>
    ensures { Grows result text.old text.new (flat_map provider_line providers.now) }
{
    push_each(text, providers.iter(), |text, provider| {
        write!(text, "provider {provider}\n")
    })
}
