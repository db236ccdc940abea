//! What an attestation carries, as handles.

ghost use Rattle.std.specs.Prelude.{◌≡◌, Bool, IsTrue, IfOk, IfErr};
ghost use Rattle.rpki_paths.specs.Cert.{Cert};
ghost use Rattle.rpki_paths.specs.Pairing.{Crl, Signer};

use crate::certificate::{Certificate, KeyId};
use crate::decision::Attested;
use crate::pairs::{Accepts, Seeks};
use crate::verdict_count::VerdictCount;
use std::sync::ledger::Ledger;

/// A certificate that is carried, before it is known to be valid.
pub trait Candidate<C: Certificate> {
    /// Why it is not good.
    type Fault: Drop;

    // It passes the inspection of its kind, and is valid at the moment.
    ghost is_good: { Self → Type 0 };

    // The faults that it gives where it is not good: the first of its checks that fails.
    ghost because: { Self → Self.Fault → Type 0 };

    // What paths see of it.
    ghost seen: { Self → Cert };

    // Whether it is that of a CA.
    ghost of_ca: { Self → Bool };

    // Whether a handle is one that it is admitted with.
    ghost admits: { Self → C → Type 0 };

    // Paths see a good one as valid.
    ghost good_is_valid: { (x : Self) → Self.is_good x → IsTrue (Self.seen x).is_valid };

    /// Whether it is that of a CA.
    fn is_of_ca(&self) -> bool
        ensures { result ≡ of_ca self.now };

    /// Its handle, where it passes the inspection of its kind and is valid at the moment. An error
    /// is the first of these checks that fails. It asks for no verdict.
    fn admit(&self) -> Result<C, Self::Fault>
        ensures good { IfOk result (λ _. is_good self.now) }
        ensures seen { IfOk result (λ c. C.cert c ≡ seen self.now) }
        ensures admitted { IfOk result (admits self.now) }
        ensures refused { IfErr result (λ _. ¬ (is_good self.now)) }
        ensures fault { IfErr result (λ fault. because self.now fault) };
}

/// A carried signer, which takes the end-entity certificate that it names and whose key verifies
/// it.
pub trait CarriedSigner<C: Certificate>: Seeks<C> {
    // What pairings see of it.
    ghost signer: { Self → Signer };

    /// Whether its digest attribute is the digest of the content.
    fn has_digest(&self) -> bool
        ensures { result ≡ (signer self.now).digest_holds };

    // It seeks its key identifier, among those of the certificates, and asks for one verdict.
    ghost seeks_sid: { (s : Self) → Self.sought s ≡ (signer s).sid };

    ghost holds_ski: { (c : C) → Self.held c ≡ (C.cert c).ski };

    ghost verdict_is_own: { (s : Self) (c : C) →
        Self.verdict s c ≡ (signer s).verifies (C.cert c).key };

    ghost one_verdict: { Self.price ≡ 1 };
}

/// A carried certificate, and, where it is a CA's, what takes the CRL that names it and that its
/// key verifies.
pub trait CarriedCert<R>: Certificate + Seeks<R> {
    // What pairings see of a CRL.
    ghost crl: { R → Crl };

    // Whether two handles are of one certificate, whatever CRLs are paired with it.
    ghost same: { Self → Self → Type 0 };

    /// The certificate with this CRL.
    fn with_crl(&self, list: &R) -> Self
        ensures same { Self.same self.now result }
        ensures cert { Self.cert result ≡
            record (Self.cert self.now) { revokes = (crl list.now).serials } };

    ghost same_self: { (c : Self) → Self.same c c };

    // It seeks its key identifier, among those of the CRLs, and asks for one verdict.
    ghost seeks_ski: { (c : Self) → Self.sought c ≡ (Self.cert c).ski };

    ghost holds_aki: { (l : R) → Self.held l ≡ (crl l).aki };

    ghost verdict_is_crl: { (c : Self) (l : R) →
        Self.verdict c l ≡ (crl l).verifies (Self.cert c).key };

    ghost one_verdict: { Self.price ≡ 1 };
}

/// What an attestation carries, as handles, each list in carried order, and the sets that it names.
#[derive(Drop)]
pub struct Attestation<'a, X, S, R> {
    pub subject_keys: &'a [KeyId],
    pub signers: &'a [S],
    pub certs: &'a [X],
    pub crls: &'a [R],
    pub sets: Attested<'a>,
}

impl Seeks<KeyId> for KeyId {
    ghost use Rattle.std.specs.Prelude.{true, refl};

    ghost sought = { λ s. s };

    ghost held = { λ s. s };

    ghost verdict = { λ s t. true };

    ghost price = { 0 };

    fn seeks(&self) -> KeyId {
        *self
    }

    fn identifier(other: &KeyId) -> KeyId {
        *other
    }

    ghost free_is_yes = { λ x y e. refl };
}

impl<L: Ledger> Accepts<KeyId, L> for KeyId {
    fn accepts(&self, _other: &KeyId, _asked: &mut VerdictCount<L>) -> bool {
        true
    }
}
