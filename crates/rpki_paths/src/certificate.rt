//! What a walk asks of a carried certificate.

ghost use Rattle.std.specs.Prelude.{◌≡◌, ◌↔◌, ℕ, ◌+◌, List, IsTrue, IfOk, IfErr};
ghost use Rattle.rpki_faults.specs.declared.family.Family.{Family};
ghost use Rattle.rpki_paths.specs.Anchor.{Supply, Fits, IsAnchor};
ghost use Rattle.rpki_paths.specs.Cert.{Cert, Numbers, IsSelfSigned};

use crate::verdict_count::VerdictCount;
use rpki_faults::Overclaim;
use rpki_resources::{AsBlocks, AsResources, IpBlocks, IpResources};
use std::sync::ledger::Ledger;

/// A key identifier: 20 octets (RFC 6487, section 4.8.2).
pub type KeyId = [u8; 20];

/// A carried certificate and, where it is a CA's, the CRL that is paired with it: a handle, which
/// is copied.
pub trait Certificate: Copy {
    // What paths see of it.
    ghost cert: { Self → Cert };

    /// Its subject key identifier.
    fn subject(&self) -> KeyId
        ensures { result ≡ (cert self.now).ski };

    /// Its authority key identifier.
    fn authority(&self) -> Option<KeyId>
        ensures { result ≡ (cert self.now).aki };

    /// Whether its form is that of a self-signed certificate.
    fn is_self_signed(&self) -> bool
        ensures { IsTrue result ↔ IsSelfSigned (cert self.now) };

    /// Whether the CRL that is paired with it lists the serial number of another.
    fn revokes(&self, subject: &Self) -> bool
        ensures { result ≡ (cert self.now).revokes (cert subject.now).serial };

    /// What becomes of numbers that its issuer has not.
    fn overclaim(&self) -> Overclaim
        ensures { result ≡ (cert self.now).overclaim };

    /// What it claims of AS numbers.
    fn asn(&self) -> &AsResources
        ensures { result.now ≡ (cert self.now).claim Family.As };

    /// What it claims of IPv4 addresses.
    fn v4(&self) -> &IpResources
        ensures { result.now ≡ (cert self.now).claim Family.V4 };

    /// What it claims of IPv6 addresses.
    fn v6(&self) -> &IpResources
        ensures { result.now ≡ (cert self.now).claim Family.V6 };
}

/// A carried certificate whose signature is asked about on this count, and on no other: a caller
/// who knows no more of `L` has no count but the one that is handed in.
pub trait SignedCertificate<L: Ledger>: Certificate {
    /// Whether the key of another verifies its signature: one verdict, which is counted.
    fn is_signed_by(&self, issuer: &Self, asked: &mut VerdictCount<L>) -> bool
        ensures says { result ≡ (Self.cert self.now).verifies (Self.cert issuer.now).key }
        ensures counts { asked.new ≡ asked.old + 1 };
}

/// A trust anchor locator, for the heads of paths (RFC 8630).
pub trait Locator<C: Certificate> {
    /// Why a head is no trust anchor.
    type Fault;

    // The key that it names.
    ghost key: { Self → List ℕ };

    // The faults that it gives of a head that is no trust anchor.
    ghost refuses: { Self → C → Self.Fault → Type 0 };

    /// Whether a head is self-signed and has its key.
    fn fits(&self, head: &C) -> bool
        ensures { IsTrue result ↔ Fits (C.cert head.now) (Supply.Tal (key self.now)) };

    /// Asks whether a head passes the inspection of a trust anchor, is valid at the moment, and is
    /// verified by its own key. An error is why it is no trust anchor.
    fn validate(&self, head: &C) -> Result<(), Self::Fault>
        ensures ok { IfOk result (λ _. IsAnchor (C.cert head.now)) }
        ensures refused { IfErr result (λ _. ¬ (IsAnchor (C.cert head.now))) }
        ensures fault { IfErr result (λ fault. refuses self.now head.now fault) };
}

/// A CA certificate that was validated elsewhere, for the heads of paths.
pub trait SuppliedCa<C: Certificate> {
    // Its subject key identifier.
    ghost ski: { Self → List ℕ };

    // Its key.
    ghost key: { Self → List ℕ };

    // Its validated sets.
    ghost sets: { Self → Family → Numbers };

    /// Whether a head that is not self-signed names it, and its key verifies the head.
    fn fits(&self, head: &C) -> bool
        ensures { IsTrue result ↔
            Fits (C.cert head.now) (Supply.Ca (ski self.now) (key self.now) (sets self.now)) };

    /// Its AS numbers.
    fn asn(&self) -> &AsBlocks
        ensures { result.now ≡ sets self.now Family.As };

    /// Its IPv4 addresses.
    fn v4(&self) -> &IpBlocks
        ensures { result.now ≡ sets self.now Family.V4 };

    /// Its IPv6 addresses.
    fn v6(&self) -> &IpBlocks
        ensures { result.now ≡ sets self.now Family.V6 };
}
