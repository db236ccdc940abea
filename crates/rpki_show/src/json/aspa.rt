//! The members of an ASPA content.

use crate::json::values::{Members, put_shown, put_texts};
use rpki_routes::AsProviderAttestation;
use std::alloc::{AllocError, Global};

/// Puts `customer`, and `providers`, a list.
pub fn put_aspa(
    alloc: Global,
    members: &mut Members,
    content: &AsProviderAttestation,
) -> Result<(), AllocError> {
    put_shown(alloc, members, "customer", &content.customer_as())?;
    let providers = content.provider_as_set();
    put_texts(alloc, members, "providers", providers.iter(), |provider| {
        provider.to_string(alloc)
    })
}
