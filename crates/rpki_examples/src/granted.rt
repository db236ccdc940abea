//! Attestations and paths, as those who decide what is granted use them.

ghost use Rattle.std.specs.Prelude.{◌≡◌, ◌↔◌, ◌≤◌, ◌+◌, false, IsFalse, IsTrue, IfOk, OnOk, List};
ghost use Rattle.std.specs.Prelude.{map};
ghost use Rattle.std.specs.Prelude.{All, MatchResult};
ghost use Rattle.rpki_paths.specs.declared.decision.FinalFault.{FinalFault};
ghost use Rattle.rpki_paths.specs.declared.supply.SupplyFault.{SupplyFault};
ghost use Rattle.rpki_paths.specs.declared.walks.WalksFault.{WalksFault};
ghost use Rattle.rpki_paths.specs.Accepting.{AreAccepted, WantsMemory, carried_of};
ghost use Rattle.rpki_paths.specs.Accepting.{most_verdicts};
ghost use Rattle.rpki_paths.specs.After.{AreAfter, IsGrantedBySome};
ghost use Rattle.rpki_paths.specs.Cert.{Cert};
ghost use Rattle.rpki_paths.specs.Final.{attested_sets};
ghost use Rattle.rpki_paths.specs.Grant.{ArePaths, AreUsed, IsEarned, IsGranted};
ghost use Rattle.rpki_paths.specs.Granting.{LacksMemory};
ghost use Rattle.rpki_paths.specs.Kept.{AreWalked};
ghost use Rattle.rpki_paths.specs.Pairing.{HasDistinctIds};
ghost use Rattle.rpki_paths.specs.Supplied.{refusal_of, supply_of};
ghost use Rattle.rpki_paths.specs.Walk.{placed};

use rpki::paths::laws::{all_are_kept, final_is_decided, yes_after_refusals};
use rpki::paths::{
    AcceptFault, Accepts, Attestation, Attested, Candidate, CarriedCert, CarriedSigner,
    Certificate, FinalFault, GrantFault, Locator, Path, SignedCertificate, Supplied, SuppliedCa,
    SupplyFault, VerdictCount, WalksFault, accept, finalize, grant, supply_all, supply_each,
    walk_each,
};
use std::alloc::{AllocError, Global};
use std::sync::ledger::Ledger;

// Whether there are no walks for want of memory.
fn of_walks(fault: WalksFault) -> bool
    ensures { IsTrue result ↔ (fault ≡ WalksFault.Memory) }
{
    match fault {
        WalksFault::NoPath(_) => false,
        WalksFault::Unused(_) => false,
        WalksFault::Memory => true,
    }
}

// Whether an attestation was not accepted for want of memory.
fn of_acceptance<F>(fault: &AcceptFault<F>) -> bool
    ensures { IsTrue result ↔ WantsMemory fault.now }
{
    match fault {
        AcceptFault::NotGood(_) => false,
        AcceptFault::NoCrl => false,
        AcceptFault::NoKey => false,
        AcceptFault::Digest => false,
        AcceptFault::NoCert => false,
        AcceptFault::KeysLeft => false,
        AcceptFault::CrlsLeft => false,
        AcceptFault::CertsLeft => false,
        AcceptFault::Walks(fault) => of_walks(*fault),
        AcceptFault::Memory => true,
    }
}

// Whether a supply ended the call for want of memory.
fn of_supply<F>(fault: &SupplyFault<F>) -> bool
    ensures { IsTrue result ↔ (fault.now ≡ SupplyFault.Memory) }
{
    match fault {
        SupplyFault::NoAnchor(_) => false,
        SupplyFault::NotCovered(_) => false,
        SupplyFault::Memory => true,
    }
}

// Whether the end said no for want of memory.
fn of_end(fault: FinalFault) -> bool
    ensures { IsTrue result ↔ (fault ≡ FinalFault.Memory) }
{
    match fault {
        FinalFault::NotAnchored => false,
        FinalFault::AsNumbers => false,
        FinalFault::Addresses => false,
        FinalFault::Memory => true,
    }
}

/// Whether an attestation was not granted for want of memory alone.
pub fn lacks_memory<A, F>(fault: &GrantFault<A, F>) -> bool
    ensures { IsTrue result ↔ LacksMemory fault.now }
{
    match fault {
        GrantFault::NotAccepted(fault) => of_acceptance(fault),
        GrantFault::NotSupplied(fault) => of_supply(fault),
        GrantFault::NotGranted(fault) => of_end(*fault),
    }
}

/// Whether an attestation is granted under some supplies. A yes is right always, and a no where
/// identifiers are distinct.
pub fn is_granted<X, S, C, R, T, U, L: Ledger>(
    alloc: Global,
    a: &Attestation<X, S, R>,
    supplies: &[Supplied<T, U>],
    asked: &mut VerdictCount<L>,
) -> Result<bool, AllocError>
where
    X: Candidate<C>,
    X::Fault: Copy,
    S: CarriedSigner<C> + Accepts<C, L>,
    C: CarriedCert<R> + Accepts<R, L> + SignedCertificate<L>,
    T: Locator<C>,
    T::Fault: Copy,
    U: SuppliedCa<C>,
    ensures good { IfOk result (λ yes. IsTrue yes → All X.is_good a.now.certs.now) }
    ensures yes { IfOk result (λ yes. IsTrue yes →
        IsGranted (carried_of X.seen X.of_ca S.signer C.crl a.now)
        (map (supply_of T.key U.ski U.key U.sets) supplies.now) (attested_sets a.now.sets)) }
    ensures no { IfOk result (λ yes. IsFalse yes →
        HasDistinctIds (carried_of X.seen X.of_ca S.signer C.crl a.now) →
        All X.is_good a.now.certs.now →
        ¬ (IsGranted (carried_of X.seen X.of_ca S.signer C.crl a.now)
        (map (supply_of T.key U.ski U.key U.sets) supplies.now) (attested_sets a.now.sets))) }
{
    match grant(alloc, a, supplies, asked) {
        Ok(()) => Ok(true),
        Err(fault) => {
            if lacks_memory(&fault) {
                return Err(AllocError);
            }
            Ok(false)
        }
    }
}

/// Whether an attestation is accepted. A yes costs few verdicts, whoever made it: of s signers, l
/// revocation lists and a CAs with distinct identifiers, at most s + l + s * a.
pub fn is_accepted<X, S, C, R, L: Ledger>(
    alloc: Global,
    a: &Attestation<X, S, R>,
    asked: &mut VerdictCount<L>,
) -> Result<bool, AllocError>
where
    X: Candidate<C>,
    X::Fault: Copy,
    S: CarriedSigner<C> + Accepts<C, L>,
    C: CarriedCert<R> + Accepts<R, L> + SignedCertificate<L>,
    ensures { IfOk result (λ yes. IsTrue yes →
        HasDistinctIds (carried_of X.seen X.of_ca S.signer C.crl a.now) → asked.new ≤
        asked.old + most_verdicts (carried_of X.seen X.of_ca S.signer C.crl a.now)) }
{
    match accept(alloc, a, asked) {
        Ok(paths) => {
            drop(paths);
            Ok(true)
        }
        Err(fault) => {
            if of_acceptance(&fault) {
                Err(AllocError)
            } else {
                Ok(false)
            }
        }
    }
}

// Whether paths that were walked earn the attested numbers under some supplies.
fn earn<C: Certificate, T, U>(
    alloc: Global,
    paths: &mut [Path<C>],
    supplies: &[Supplied<T, U>],
    attested: &Attested,
) -> Result<bool, AllocError>
where
    T: Locator<C>,
    T::Fault: Copy,
    U: SuppliedCa<C>,
    ensures { IfOk result (λ yes. IsTrue yes → (cas ees : List Cert)
        → AreWalked C.cert cas ees paths.old → (walked : List (List Cert))
        × ArePaths cas ees walked × AreUsed cas walked
        × IsEarned walked (map (supply_of T.key U.ski U.key U.sets) supplies.now)
        (attested_sets attested.now)) }
{
    all_are_kept::<C, T, U>();
    final_is_decided::<C>();
    match supply_all(paths, supplies) {
        Ok(()) => {}
        Err(SupplyFault::Memory) => return Err(AllocError),
        Err(_) => return Ok(false),
    }
    match finalize(alloc, paths, attested) {
        Ok(()) => Ok(true),
        Err(FinalFault::Memory) => Err(AllocError),
        Err(_) => Ok(false),
    }
}

/// Whether end-entity certificates have paths up some CAs, each on one of these, that earn just the
/// attested numbers under some supplies: a yes means that they do.
pub fn are_earned<C: SignedCertificate<L>, T, U, L: Ledger>(
    alloc: Global,
    ees: &[C],
    cas: &[C],
    supplies: &[Supplied<T, U>],
    attested: &Attested,
    asked: &mut VerdictCount<L>,
) -> Result<bool, AllocError>
where
    T: Locator<C>,
    T::Fault: Copy,
    U: SuppliedCa<C>,
    ensures { IfOk result (λ yes. IsTrue yes → (paths : List (List Cert))
        × ArePaths (placed C.cert 1 cas.now) (map C.cert ees.now) paths
        × AreUsed (placed C.cert 1 cas.now) paths
        × IsEarned paths (map (supply_of T.key U.ski U.key U.sets) supplies.now)
        (attested_sets attested.now)) }
{
    match walk_each(alloc, ees, cas, asked) {
        Ok(mut paths) => {
            let are_earned = earn(alloc, paths.as_mut_slice(), supplies, attested);
            drop(paths);
            are_earned
        }
        Err(WalksFault::Memory) => Err(AllocError),
        Err(_) => Ok(false),
    }
}

// Whether a supply lacked memory.
fn lacked_memory<F>(answer: &Result<bool, SupplyFault<F>>) -> bool
    ensures { MatchResult answer.now (λ _. result ≡ false)
        (λ fault. IsTrue result ↔ (fault ≡ SupplyFault.Memory)) }
{
    match answer {
        Ok(_) => false,
        Err(fault) => of_supply(fault),
    }
}

// Hands in several supplies in order, each to all paths, whatever the one before it answered.
fn supply_after<C: Certificate, T, U>(
    paths: &mut [Path<C>],
    supplies: &[Supplied<T, U>],
) -> Result<(), AllocError>
where
    T: Locator<C>,
    T::Fault: Copy,
    U: SuppliedCa<C>,
    ensures { OnOk result (AreAfter C.cert (supply_of T.key U.ski U.key U.sets)
        (refusal_of T.refuses) supplies.now paths.old paths.new) }
{
    for i in 0..supplies.len() {
        let answer = supply_each(paths, &supplies[i]);
        if lacked_memory(&answer) {
            return Err(AllocError);
        }
    }
    Ok(())
}

// Whether an attestation with these paths is granted after some supplies.
fn decide_after<X, S, C, R, T, U>(
    alloc: Global,
    a: &Attestation<X, S, R>,
    paths: &mut [Path<C>],
    supplies: &[Supplied<T, U>],
) -> Result<bool, AllocError>
where
    X: Candidate<C>,
    S: CarriedSigner<C>,
    C: CarriedCert<R>,
    T: Locator<C>,
    T::Fault: Copy,
    U: SuppliedCa<C>,
    ensures { IfOk result (λ yes. IsTrue yes →
        AreAccepted C.cert (carried_of X.seen X.of_ca S.signer C.crl a.now) paths.old →
        IsGrantedBySome (carried_of X.seen X.of_ca S.signer C.crl a.now)
        (map (supply_of T.key U.ski U.key U.sets) supplies.now) (attested_sets a.now.sets)) }
{
    yes_after_refusals::<C, T, U>();
    supply_after(paths, supplies)?;
    match finalize(alloc, paths, &a.sets) {
        Ok(()) => Ok(true),
        Err(FinalFault::Memory) => Err(AllocError),
        Err(_) => Ok(false),
    }
}

/// Whether an attestation is granted by some of these supplies: where one declines a path, the
/// later ones are handed in all the same. A yes means that each path is anchored by one that is
/// meant for it and takes it, and that need not be the first that is meant.
pub fn is_granted_by_some<X, S, C, R, T, U, L: Ledger>(
    alloc: Global,
    a: &Attestation<X, S, R>,
    supplies: &[Supplied<T, U>],
    asked: &mut VerdictCount<L>,
) -> Result<bool, AllocError>
where
    X: Candidate<C>,
    X::Fault: Copy,
    S: CarriedSigner<C> + Accepts<C, L>,
    C: CarriedCert<R> + Accepts<R, L> + SignedCertificate<L>,
    T: Locator<C>,
    T::Fault: Copy,
    U: SuppliedCa<C>,
    ensures good { IfOk result (λ yes. IsTrue yes → All X.is_good a.now.certs.now) }
    ensures granted { IfOk result (λ yes. IsTrue yes →
        IsGrantedBySome (carried_of X.seen X.of_ca S.signer C.crl a.now)
        (map (supply_of T.key U.ski U.key U.sets) supplies.now) (attested_sets a.now.sets)) }
{
    match accept(alloc, a, asked) {
        Ok(mut paths) => {
            let is_granted = decide_after(alloc, a, paths.as_mut_slice(), supplies);
            drop(paths);
            is_granted
        }
        Err(fault) => {
            if of_acceptance(&fault) {
                return Err(AllocError);
            }
            Ok(false)
        }
    }
}
