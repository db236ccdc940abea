//! What the definitions say of validations: laws, as functions that do nothing.

ghost use Rattle.rpki_rta.specs.Laws.{AcceptedPathsAreShort, EndAfterSupplies};
ghost use Rattle.rpki_rta.specs.Laws.{MadeSignersMatch, NoIsRight};
ghost use Rattle.rpki_rta.specs.Laws.{RefusedSupplyIsRight, YesAfterSupplies, YesIsGranted};

use rpki_basics::{Crypto, Signer};

/// After any supplies, refused ones among them, a yes of `Validation::finalize` means that the
/// attestation is granted, each path anchored by some supply that is meant for it and takes it.
pub fn yes_after_supplies<C: Crypto>()
    ensures { YesAfterSupplies C.digest_of C.is_signed }
{}

/// After any supplies, refused ones among them, what is kept of each path stands for its explicit
/// sets: for the numbers that all of them have, and the nearest of them. Where it is anchored,
/// those of a supply that is meant for it and took it are among them. Where all paths are anchored,
/// what `Validation::finalize` compares the attested sets with are the sets of the paths under
/// these supplies: so it says no, but for memory, exactly where an attested set is not their union.
pub fn end_after_supplies<C: Crypto>()
    ensures { EndAfterSupplies C.digest_of C.is_signed }
{}

/// Each path of an accepted attestation has at most as many CAs as are carried.
pub fn accepted_paths_are_short()
    ensures { AcceptedPathsAreShort }
{}

/// Where no supply is refused, a yes of `Validation::finalize` means that the attestation is
/// granted.
pub fn yes_is_granted<C: Crypto>()
    ensures { YesIsGranted C.digest_of C.is_signed }
{}

/// With distinct identifiers, where no supply before it is refused, a supply is refused, but for
/// memory, only where the attestation is not granted.
pub fn refused_supply_is_right<C: Crypto>()
    ensures { RefusedSupplyIsRight C.digest_of C.is_signed }
{}

/// With distinct identifiers, where no supply is refused, `Validation::finalize` says no, but for
/// memory, only where the attestation is not granted.
pub fn no_is_right<C: Crypto>()
    ensures { NoIsRight C.digest_of C.is_signed }
{}

/// What `RtaBuilder::sign` makes a signer say matches, where cryptography says yes to its
/// signature: it has the subject key of its key, it states the digest of the content, and each
/// certificate with that key and its identifier verifies it (RFC 5652, section 5.4).
pub fn made_signers_match<S: Signer>()
    ensures { MadeSignersMatch S.may_sign }
{}
