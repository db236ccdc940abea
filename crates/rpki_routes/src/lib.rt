//! Route Origin Authorizations (ROAs, RFC 9582) and Autonomous System Provider Authorizations
//! (ASPAs, draft-ietf-sidrops-aspa-profile-15): their contents, and what is checked of the
//! objects that carry these.
#![tactic(auto)]

mod aspa;
pub mod faults;
pub mod laws;
mod roa;

pub use aspa::{
    AddProviderError, AsProviderAttestation, AsProviderAttestationEncoder, Aspa, AspaBuilder,
    DuplicateProviderAs, ProviderAsIter, ProviderAsSet,
};
pub use roa::{
    FriendlyRoaIpAddress, Roa, RoaAddrIter, RoaBuilder, RoaIpAddress, RoaIpAddressIter,
    RoaIpAddresses, RoaIpAddressesBuilder, RoaIpAddressesEncoder, RoaOriginIter, RouteOrigin,
    RouteOriginAttestation, RouteOriginAttestationEncoder,
};
