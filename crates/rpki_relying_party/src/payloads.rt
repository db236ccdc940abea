//! Payloads in the order of routers.

ghost use Rattle.std.proofs.Props.{props};
ghost use Rattle.std.specs.BTreeMap.{IsOrdered};
ghost use Rattle.rpki_relying_party.specs.Orders.{origin_order, provider_order};

use crate::payload::{Held, Origin, Provider};
use std::collections::BTreeMap;

/// Payloads in order, each once: of several objects that say it, the one that holds longest.
#[derive(Drop)]
pub struct Payloads {
    pub origins: BTreeMap<Origin, Held>,
    pub providers: BTreeMap<Provider, Held>,
    pub ghost origins_in_order: { IsOrdered origin_order origins } by { Prim.hlevel props },
    pub ghost providers_in_order: { IsOrdered provider_order providers } by { Prim.hlevel props },
}
