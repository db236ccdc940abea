//! Signing contents of a kind that are built (RFC 6488, section 2).

ghost use Rattle.std.specs.Prelude.{◌≡◌, ◌↔◌, ℕ, List, IfOk, IfErr, OnOk};
ghost use Rattle.rpki_der.specs.declared.mode.Mode.TheVariants.{Der};
ghost use Rattle.rpki_basics.specs.Signing.{CountsError};
ghost use Rattle.rpki_issued.specs.Written.{ClaimsIpv4};
ghost use Rattle.rpki_sigobj.specs.Signed.{ObjectForm, whole_of};
ghost use Rattle.rpki_signing.specs.Built.{AreSignatures, IsBuilt, IsNotBuilt, NamesInDer};
ghost use Rattle.rpki_signing.specs.Built.{claims_of};
ghost use Rattle.rpki_signing.specs.Content.{signing_error};
ghost use Rattle.rpki_signing.specs.Written.{made_object};

use crate::builder::SignedObjectBuilder;
use rpki_basics::{BuildError, Signer, SigningError};
use rpki_sigobj::{Content, Signed, SignedObject};
use std::alloc::Global;

/// The error for a content that is not built.
pub fn not_built<E>(error: BuildError) -> SigningError<E>
    ensures { result ≡ signing_error error }
{
    match error {
        BuildError::Fault(fault) => SigningError::Content(fault),
        BuildError::TooLong => SigningError::TooLong,
        BuildError::Memory => SigningError::Memory,
    }
}

// The object with its content.
fn with_content<T: Content>(object: SignedObject, content: T) -> Signed<T>
    requires der { object.mode ≡ Der }
    requires kind { object.object.signed.content_type ≡ T.kind.type }
    requires content { (rule : T.Rule) × T.form rule object.object.signed.content content }
    ensures object { result.object ≡ object }
    ensures content { result.content ≡ content }
    ensures form { (rule : T.Rule) → T.form rule object.object.signed.content content
        → ObjectForm T.kind.type (T.form rule) Der result.object.object.octets (whole_of result) }
{
    // The proof takes from this call that the octets of the object are in its form.
    let _ = object.encode_ref();
    Signed::from_parts(object, content)
}

impl SignedObjectBuilder {
    /// The signed object of this content, whose octets are these: they are in the form of its kind,
    /// by some rule for how contents are read. Signs and refuses as `finalize` does. The blocks
    /// that are claimed of IPv4 have to be of this family.
    pub fn finalize_content<T: Content, S: Signer>(
        self,
        alloc: Global,
        content: T,
        octets: &[u8],
        signer: &mut S,
        issuer_key: &S::KeyId,
    ) -> Result<Signed<T>, SigningError<S::Error>>
        requires ipv4 { ClaimsIpv4 (claims_of self) }
        requires said { (rule : T.Rule) × T.form rule octets.now content }
        ensures content { IfOk result (λ o. o.content ≡ content) }
        ensures form { (rule : T.Rule) → T.form rule octets.now content → IfOk result (λ o.
            ObjectForm T.kind.type (T.form rule) Der o.object.object.octets (whole_of o)) }
        ensures built { IfOk result (λ o. IsBuilt self (S.key_of signer.old issuer_key.now)
            T.kind.type octets.now (S.digest_of signer.old octets.now) o.object.object.signed) }
        ensures der { IfOk result (λ o. o.object.mode ≡ Der) }
        ensures written { IfOk result (λ o.
            o.object.object ≡ made_object o.object.object.signed) }
        ensures signatures { IfOk result (λ o. AreSignatures (S.may_sign signer.old)
            (S.key_of signer.old issuer_key.now) o.object.object.signed) }
        ensures one_off { IfOk result
            (λ o. S.is_one_off signer.old o.object.object.signed.cert.tbs.key) }
        ensures names { OnOk result (NamesInDer self) }
        ensures refused { IfErr result (IsNotBuilt (S.may_sign signer.old)
            (S.is_one_off signer.old) self (S.key_of signer.old issuer_key.now)
            T.kind.type octets.now (S.digest_of signer.old octets.now)) }
        ensures cause { CountsError (S.failures signer.old) (S.failures signer.new) result }
        ensures keys { (k : S.KeyId) → S.key_of signer.new k ≡ S.key_of signer.old k }
        ensures signs { (k m s : List ℕ) →
            S.may_sign signer.new k m s ↔ S.may_sign signer.old k m s }
        ensures digests { (m : List ℕ) → S.digest_of signer.new m ≡ S.digest_of signer.old m }
        ensures verdicts { (k m s : List ℕ) →
            S.is_signed signer.new k m s ≡ S.is_signed signer.old k m s }
        ensures once { (k : List ℕ) → S.is_one_off signer.new k ↔ S.is_one_off signer.old k }
    {
        let kind = T::oid();
        match self.finalize(alloc, &kind, octets, signer, issuer_key) {
            Err(fault) => {
                drop(content);
                Err(fault)
            }
            Ok(object) => Ok(with_content(object, content)),
        }
    }
}
