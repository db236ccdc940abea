//! Certification paths under multi-signed attestations.

pub use rpki_paths::{
    AcceptFault, Accepts, Attestation, Attested, Candidate, CarriedCert, CarriedSigner,
    Certificate, FamilyResources, FinalFault, GrantFault, KeyId, KeyIdIndex, Locator, PairFault,
    Path, PathFault, PathResources, Seeks, SignedCertificate, Supplied, SuppliedCa, SupplyFault,
    VerdictCount, WalksFault, accept, covers_nearest, finalize, grant, laws, pair_off,
    set_covers_nearest, supply_all, supply_each, take_first, walk, walk_each, with_issuer,
    with_supplied_ca,
};
