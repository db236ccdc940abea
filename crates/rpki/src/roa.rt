//! Route Origin Authorizations.

pub use rpki_routes::{
    FriendlyRoaIpAddress, Roa, RoaAddrIter, RoaBuilder, RoaIpAddress, RoaIpAddressIter,
    RoaIpAddresses, RoaIpAddressesBuilder, RoaIpAddressesEncoder, RoaOriginIter, RouteOrigin,
    RouteOriginAttestation, RouteOriginAttestationEncoder,
};

/// What is wrong with a ROA.
pub mod faults {
    pub use rpki_routes::faults::{MAX_LENGTH_OUT_OF_RANGE, PREFIX_TOO_LONG};
}

/// What the definitions of ROAs say.
pub mod laws {
    pub use rpki_routes::laws::{
        built_roas_are_valid, claims_of_addresses, covered_roas, octets_after_a_roa_are_left,
        refused_roas, roas_are_unique, roas_are_written,
    };
}
