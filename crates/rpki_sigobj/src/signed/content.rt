//! What kinds of signed objects there are, by their contents.

ghost use Rattle.std.specs.Prelude.{◌≡◌, ℕ, List, IfOk};
ghost use Rattle.rpki_der.specs.Form.Decodes.{Decodes};
ghost use Rattle.rpki_der.specs.Oid.{IsOid};
ghost use Rattle.rpki_faults.specs.Checks.{AnswersFirstFault};
ghost use Rattle.rpki_sigobj.specs.Signed.Good.{Means};
ghost use Rattle.rpki_sigobj.specs.Signed.Kind.{ObjectKind};

use bytes::Bytes;
use rpki_certs::{Cert, ResourceCert};
use rpki_der::{DecodeError, Oid};
use rpki_faults::ValidationError;
use std::alloc::Global;
use std::fmt::Debug;

/// The content of a kind of signed objects.
pub trait Content: Clone + Debug + Drop {
    /// What the caller chooses of how contents are read.
    type Rule: Copy;

    // What is asked of objects with such a content.
    ghost kind: { ObjectKind Self };

    // What the octets of a content are, by the caller's choice.
    ghost form: { Self.Rule → List ℕ → Self → Type 0 };

    // What holds of each content that was read.
    ghost is_content: { Self → Type 0 };

    /// The type of such contents.
    fn oid() -> Oid
        ensures { result ≡ kind.type };

    /// Whether the certificate of the signer has to say where the object is published.
    fn is_published() -> bool
        ensures { result ≡ kind.is_published };

    /// Reads the content at the front of the source, by the rules of DER. Refuses by `Malformed` or
    /// by a `Content` fault of the kind where there is none, or by `Memory`.
    fn read(alloc: Global, source: Bytes, rule: Self::Rule) -> Result<Self, DecodeError>
        ensures decodes { Decodes (form rule) (λ x. x) source result }
        ensures content { IfOk result is_content };

    /// Looks at what the certificate of the signer claims, before it is validated. Refuses by the
    /// fault of the first check of the kind that does not hold.
    fn verify_claims(&self, cert: &Cert) -> Result<(), ValidationError>
        ensures { AnswersFirstFault (kind.claimed self.now
            cert.now.certificate.tbs.extensions.claims) result };

    /// Looks at the numbers that the certificate has, after it was validated. Refuses by the fault
    /// of the first check of the kind that does not hold.
    fn verify_held(&self, cert: &ResourceCert) -> Result<(), ValidationError>
        ensures { AnswersFirstFault (kind.held self.now cert.now.sets) result };

    /// Does nothing: a law, that the checks of a content that was read mean what its kind says in
    /// words.
    fn meaning()
        ensures { (x : Self) → is_content x → Means kind x };

    // A copy says the same.
    ghost copies: { (x copy : Self) → Self.Clone.is_clone x copy → copy ≡ x };
}

/// The OBJECT IDENTIFIER with these contents.
pub fn oid_of(contents: &'static [u8]) -> Oid
    requires { IsOid contents.now }
    ensures { result ≡ contents.now }
{
    match Oid::from_bytes(Bytes::from_static(contents)) {
        Some(oid) => oid,
        None => unreachable!(),
    }
}
