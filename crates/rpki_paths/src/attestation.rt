//! The whole check of an attestation: accepted, anchored, and of just the numbers that it names.

ghost use Rattle.std.specs.Prelude.{◌≤◌, ◌+◌, All, map, IfErr, OnOk};
ghost use Rattle.rpki_paths.specs.Accepting.{AreAccepted, WhyNot, carried_of, most_verdicts};
ghost use Rattle.rpki_paths.specs.Final.{attested_sets};
ghost use Rattle.rpki_paths.specs.Grant.{IsGranted};
ghost use Rattle.rpki_paths.specs.Granting.{IsPassed, LacksMemory, WhyNotGranted};
ghost use Rattle.rpki_paths.specs.Pairing.{HasDistinctIds};
ghost use Rattle.rpki_paths.specs.Supplied.{supply_of, refusal_of};
ghost use Rattle.rpki_paths.specs.Texts.{grant_text};

use crate::acceptance::{AcceptFault, accept};
use crate::carried::{Attestation, Candidate, CarriedCert, CarriedSigner};
use crate::certificate::{Locator, SignedCertificate, SuppliedCa};
use crate::decision::{FinalFault, finalize};
use crate::pairs::Accepts;
use crate::supply::{Supplied, SupplyFault, supply_all};
use crate::verdict_count::VerdictCount;
use crate::walker::Path;
use std::alloc::Global;
use std::error::Error;
use std::fmt;
use std::sync::ledger::Ledger;

/// Why an attestation is not granted.
#[derive(Clone, Copy, Debug, PartialEq, Eq)]
pub enum GrantFault<A, F> {
    /// It is not accepted.
    NotAccepted(AcceptFault<A>),
    /// A supply does not take a path.
    NotSupplied(SupplyFault<F>),
    /// A path is not anchored, or the sets are not those of the paths.
    NotGranted(FinalFault),
}

impl<A: fmt::Display, F: fmt::Display> fmt::Display for GrantFault<A, F> {
    ghost output = { λ fault. grant_text A.Display.output F.Display.output fault };

    fn fmt<W: fmt::Write>(&self, f: &mut fmt::Formatter<W>) -> fmt::Result {
        match self {
            GrantFault::NotAccepted(fault) => fault.fmt(f),
            GrantFault::NotSupplied(fault) => fault.fmt(f),
            GrantFault::NotGranted(fault) => fault.fmt(f),
        }
    }
}

impl<A: Error, F: Error> Error for GrantFault<A, F> {}

// Whether an attestation with these paths is granted under some supplies.
fn decide<X, S, C, R, T, U>(
    alloc: Global,
    a: &Attestation<X, S, R>,
    paths: &mut [Path<C>],
    supplies: &[Supplied<T, U>],
) -> Result<(), GrantFault<X::Fault, T::Fault>>
where
    X: Candidate<C>,
    S: CarriedSigner<C>,
    C: CarriedCert<R>,
    T: Locator<C>,
    U: SuppliedCa<C>,
    ensures yes { OnOk result (
        AreAccepted C.cert (carried_of X.seen X.of_ca S.signer C.crl a.now) paths.old →
        IsGranted (carried_of X.seen X.of_ca S.signer C.crl a.now)
        (map (supply_of T.key U.ski U.key U.sets) supplies.now) (attested_sets a.now.sets)) }
    ensures no { IfErr result (λ fault. ¬ (LacksMemory fault) →
        AreAccepted C.cert (carried_of X.seen X.of_ca S.signer C.crl a.now) paths.old →
        HasDistinctIds (carried_of X.seen X.of_ca S.signer C.crl a.now) →
        ¬ (IsGranted (carried_of X.seen X.of_ca S.signer C.crl a.now)
        (map (supply_of T.key U.ski U.key U.sets) supplies.now) (attested_sets a.now.sets))) }
    ensures fault { IfErr result (λ fault.
        IsPassed X.is_good a.now.certs.now C.cert
        (carried_of X.seen X.of_ca S.signer C.crl a.now) paths.old →
        WhyNotGranted (WhyNot X.is_good X.because X.seen X.of_ca a.now.certs.now
        (carried_of X.seen X.of_ca S.signer C.crl a.now))
        (IsPassed X.is_good a.now.certs.now C.cert
        (carried_of X.seen X.of_ca S.signer C.crl a.now))
        C.cert (supply_of T.key U.ski U.key U.sets) (refusal_of T.refuses) supplies.now
        (attested_sets a.now.sets) fault) }
{
    match supply_all(paths, supplies) {
        Err(fault) => return Err(GrantFault::NotSupplied(fault)),
        Ok(()) => {}
    }
    match finalize(alloc, paths, &a.sets) {
        Ok(()) => Ok(()),
        Err(fault) => Err(GrantFault::NotGranted(fault)),
    }
}

/// Whether an attestation is granted under some supplies, handed in one after the other. A yes is
/// right always. With distinct identifiers an error but for memory means that a certificate is not
/// good, or that the attestation is not granted. An error is the first thing that fails: what
/// `accept` asks, then the supplies, then the end. Of s signers, l CRLs and
/// a CAs, with distinct identifiers, a yes asks for at most s + l + s * a verdicts.
pub fn grant<X, S, C, R, T, U, L: Ledger>(
    alloc: Global,
    a: &Attestation<X, S, R>,
    supplies: &[Supplied<T, U>],
    asked: &mut VerdictCount<L>,
) -> Result<(), GrantFault<X::Fault, T::Fault>>
where
    X: Candidate<C>,
    S: CarriedSigner<C> + Accepts<C, L>,
    C: CarriedCert<R> + Accepts<R, L> + SignedCertificate<L>,
    T: Locator<C>,
    U: SuppliedCa<C>,
    ensures good { OnOk result (All X.is_good a.now.certs.now) }
    ensures yes { OnOk result (IsGranted (carried_of X.seen X.of_ca S.signer C.crl a.now)
        (map (supply_of T.key U.ski U.key U.sets) supplies.now) (attested_sets a.now.sets)) }
    ensures no { IfErr result (λ fault. ¬ (LacksMemory fault) →
        HasDistinctIds (carried_of X.seen X.of_ca S.signer C.crl a.now) →
        All X.is_good a.now.certs.now →
        ¬ (IsGranted (carried_of X.seen X.of_ca S.signer C.crl a.now)
        (map (supply_of T.key U.ski U.key U.sets) supplies.now) (attested_sets a.now.sets))) }
    ensures fault { IfErr result (WhyNotGranted (WhyNot X.is_good X.because X.seen X.of_ca
        a.now.certs.now (carried_of X.seen X.of_ca S.signer C.crl a.now))
        (IsPassed X.is_good a.now.certs.now C.cert
        (carried_of X.seen X.of_ca S.signer C.crl a.now))
        C.cert (supply_of T.key U.ski U.key U.sets) (refusal_of T.refuses) supplies.now
        (attested_sets a.now.sets)) }
    ensures cost { OnOk result (
        HasDistinctIds (carried_of X.seen X.of_ca S.signer C.crl a.now) → asked.new ≤
        asked.old + most_verdicts (carried_of X.seen X.of_ca S.signer C.crl a.now)) }
{
    match accept(alloc, a, asked) {
        Err(fault) => Err(GrantFault::NotAccepted(fault)),
        Ok(mut paths) => decide(alloc, a, paths.as_mut_slice(), supplies),
    }
}
