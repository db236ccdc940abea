//! Whether an attestation is accepted: all that it carries is valid and paired, and has paths.

ghost use Rattle.std.specs.Prelude.{◌≡◌, ◌≤◌, ◌+◌, All, IfOk, IfErr, OnOk};
ghost use Rattle.rpki_paths.specs.Accepting.{AreAccepted, WhyNot, carried_of, most_verdicts};
ghost use Rattle.rpki_paths.specs.Accepting.{fault_of_certs, fault_of_signers};
ghost use Rattle.rpki_paths.specs.Heads.{HeadsFrom};
ghost use Rattle.rpki_paths.specs.Pairing.{HasDistinctIds};
ghost use Rattle.rpki_paths.specs.Texts.{accept_text};

use crate::carried::{Attestation, Candidate, CarriedCert, CarriedSigner};
use crate::certificate::SignedCertificate;
use crate::pairs::Accepts;
use crate::signing::{SignFault, take_signers};
use crate::sorting::{SortFault, Sorted, sort};
use crate::verdict_count::VerdictCount;
use crate::walker::Path;
use crate::walks::{WalksFault, walk_each};
use std::alloc::Global;
use std::error::Error;
use std::fmt;
use std::sync::ledger::Ledger;

/// Why an attestation is not accepted.
#[derive(Clone, Copy, Debug, PartialEq, Eq)]
pub enum AcceptFault<F> {
    /// A certificate does not pass its inspection, or is not valid at the moment, for this cause.
    NotGood(F),
    /// No CRL that is left is that of a CA.
    NoCrl,
    /// No subject key that is left is that of a signer.
    NoKey,
    /// The digest that a signer states is not that of the content.
    Digest,
    /// No end-entity certificate that is left is that of a signer.
    NoCert,
    /// Subject keys are left over.
    KeysLeft,
    /// CRLs are left over.
    CrlsLeft,
    /// End-entity certificates are left over.
    CertsLeft,
    /// A walk from an end-entity certificate is refused, or a CA stands on no path.
    Walks(WalksFault),
    /// There is no memory.
    Memory,
}

impl<F> AcceptFault<F> {
    // That of certificates.
    fn of_certs(fault: SortFault<F>) -> AcceptFault<F>
        ensures { result ≡ fault_of_certs fault }
    {
        match fault {
            SortFault::NotGood(fault) => AcceptFault::NotGood(fault),
            SortFault::NoCrl => AcceptFault::NoCrl,
            SortFault::Memory => AcceptFault::Memory,
        }
    }

    // That of signers.
    fn of_signers(fault: SignFault) -> AcceptFault<F>
        ensures { result ≡ fault_of_signers fault }
    {
        match fault {
            SignFault::NoKey => AcceptFault::NoKey,
            SignFault::Digest => AcceptFault::Digest,
            SignFault::NoCert => AcceptFault::NoCert,
            SignFault::Memory => AcceptFault::Memory,
        }
    }
}

impl<F: fmt::Display> fmt::Display for AcceptFault<F> {
    ghost output = { λ fault. accept_text F.Display.output fault };

    fn fmt<W: fmt::Write>(&self, f: &mut fmt::Formatter<W>) -> fmt::Result {
        match self {
            AcceptFault::NotGood(fault) => fault.fmt(f),
            AcceptFault::NoCrl => f.write_str("no revocation list for a CA"),
            AcceptFault::NoKey => f.write_str("no subject key for a signer"),
            AcceptFault::Digest => f.write_str("wrong digest of the content"),
            AcceptFault::NoCert => f.write_str("no certificate for a signer"),
            AcceptFault::KeysLeft => f.write_str("unused subject keys"),
            AcceptFault::CrlsLeft => f.write_str("unused revocation lists"),
            AcceptFault::CertsLeft => f.write_str("unused end-entity certificates"),
            AcceptFault::Walks(fault) => fault.fmt(f),
            AcceptFault::Memory => f.write_str("out of memory"),
        }
    }
}

impl<F: Error> Error for AcceptFault<F> {}

/// Accepts an attestation, in carried order. Certificate by certificate: each has to be good, and a
/// CA takes the first CRL that fits it and is left. Then signer by signer: each takes the first
/// subject key that is its own and is left, has the digest of the content, and takes the first
/// end-entity certificate that it names, whose key verifies it and that is left. Then no subject
/// key may be left over, no CRL, and no end-entity certificate; and the walks from the certificates
/// of the signers have to find paths on which all CAs stand. An error is the first of these that
/// fails, or want of memory. Of s signers, l CRLs and a CAs, with distinct identifiers, at most
/// s + l + s * a verdicts are asked where it succeeds.
pub fn accept<X, S, C, R, L: Ledger>(
    alloc: Global,
    a: &Attestation<X, S, R>,
    asked: &mut VerdictCount<L>,
) -> Result<Vec<Path<C>>, AcceptFault<X::Fault>>
where
    X: Candidate<C>,
    S: CarriedSigner<C> + Accepts<C, L>,
    C: CarriedCert<R> + Accepts<R, L> + SignedCertificate<L>,
    ensures good { OnOk result (All X.is_good a.now.certs.now) }
    ensures accepted { IfOk result (λ paths. AreAccepted C.cert
        (carried_of X.seen X.of_ca S.signer C.crl a.now) paths.items) }
    ensures heads { IfOk result (λ paths. HeadsFrom X.admits C.same a.now.certs.now paths.items) }
    ensures refused { IfErr result (WhyNot X.is_good X.because X.seen X.of_ca a.now.certs.now
        (carried_of X.seen X.of_ca S.signer C.crl a.now)) }
    ensures cost { OnOk result (
        HasDistinctIds (carried_of X.seen X.of_ca S.signer C.crl a.now) → asked.new ≤
        asked.old + most_verdicts (carried_of X.seen X.of_ca S.signer C.crl a.now)) }
{
    let crls = a.crls;
    let keys = a.subject_keys;
    let signers = a.signers;
    let Sorted { ees, cas } = match sort(alloc, a.certs, crls, asked) {
        Ok(sorted) => sorted,
        Err(fault) => return Err(AcceptFault::of_certs(fault)),
    };
    let seen_ees = ees.as_slice();
    let seen_cas = cas.as_slice();
    let taken = match take_signers(alloc, signers, keys, seen_ees, asked) {
        Ok(taken) => taken,
        Err(fault) => return Err(AcceptFault::of_signers(fault)),
    };
    if signers.len() < keys.len() {
        return Err(AcceptFault::KeysLeft);
    }
    if seen_cas.len() < crls.len() {
        return Err(AcceptFault::CrlsLeft);
    }
    if signers.len() < seen_ees.len() {
        return Err(AcceptFault::CertsLeft);
    }
    let seen_taken = taken.as_slice();
    match walk_each(alloc, seen_taken, seen_cas, asked) {
        Ok(paths) => Ok(paths),
        Err(fault) => Err(AcceptFault::Walks(fault)),
    }
}
