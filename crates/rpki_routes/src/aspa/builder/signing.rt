//! Signing Autonomous System Provider Authorizations that are built
//! (draft-ietf-sidrops-aspa-profile-15; RFC 6488).

ghost use Rattle.std.specs.Prelude.{◌≡◌, ◌↔◌, ℕ, List, Err, IfErr, IfOk, OnOk};
ghost use Rattle.rpki_basics.specs.declared.build.BuildFault.{BuildFault};
ghost use Rattle.rpki_basics.specs.declared.signing.SigningError.TheVariants as error;
ghost use Rattle.rpki_der.specs.declared.mode.Mode.TheVariants.{Der};
ghost use Rattle.rpki_basics.specs.Signing.{CountsError};
ghost use Rattle.rpki_basics.specs.declared.limits.ProviderLimit.{ProviderLimit};
ghost use Rattle.rpki_resources.specs.declared.resources.Claim.TheVariants.{Missing};
ghost use Rattle.rpki_sigobj.specs.Signed.{ObjectForm, whole_of};
ghost use Rattle.rpki_signing.specs.Built.{AreSignatures, IsBuilt, NamesInDer};
ghost use Rattle.rpki_signing.specs.Built.{IsNotBuilt as IsUnsigned};
ghost use Rattle.rpki_signing.specs.Written.{made_object};
ghost use Rattle.rpki_routes.specs.Aspa.Checks.{ct_aspa};
ghost use Rattle.rpki_routes.specs.Aspa.Form.{AspaForm};
ghost use Rattle.rpki_routes.specs.Aspa.Signed.{IsBuiltAspa, IsNotBuiltAspa, claiming};
ghost use Rattle.rpki_routes.specs.Aspa.Written.{aspa_octets};

use crate::aspa::AsProviderAttestation;
use crate::aspa::builder::AspaBuilder;
use crate::aspa::object::Aspa;
use rpki_basics::{ProviderLimit, Signer, SigningError};
use rpki_lists::octets_of;
use rpki_resources::Resources;
use rpki_signing::{SignedObjectBuilder, not_built};
use std::alloc::{AllocError, Global};

impl AspaBuilder {
    /// The ASPA of this content as a signed object (sections 2 and 3 of the profile), with at most
    /// as many providers as the limit says. The builder of the signed object claims the customer
    /// and no address, whatever it claimed before (section 4). Refuses by the faults of
    /// `into_attestation`, which go before those of the signer and leave it as it was; and then as
    /// `SignedObjectBuilder::finalize` does.
    pub fn finalize<S: Signer>(
        self,
        alloc: Global,
        builder: SignedObjectBuilder,
        signer: &mut S,
        issuer_key: &S::KeyId,
        limit: ProviderLimit,
    ) -> Result<Aspa, SigningError<S::Error>>
        ensures content { IfOk result (λ o. o.content ≡ self) }
        ensures form { IfOk result (λ o. ObjectForm ct_aspa (AspaForm limit) Der
            o.object.object.octets (whole_of o)) }
        ensures built { IfOk result (λ o. IsBuiltAspa limit self builder
            (S.key_of signer.old issuer_key.now) (S.digest_of signer.old (aspa_octets self))
            o.object.object.signed) }
        ensures der { IfOk result (λ o. o.object.mode ≡ Der) }
        ensures written { IfOk result (λ o.
            o.object.object ≡ made_object o.object.object.signed) }
        ensures signatures { IfOk result (λ o. AreSignatures (S.may_sign signer.old)
            (S.key_of signer.old issuer_key.now) o.object.object.signed) }
        ensures one_off { IfOk result
            (λ o. S.is_one_off signer.old o.object.object.signed.cert.tbs.key) }
        ensures names { OnOk result (NamesInDer builder) }
        ensures refused { IfErr result (IsNotBuiltAspa (S.may_sign signer.old)
            (S.is_one_off signer.old) limit self builder (S.key_of signer.old issuer_key.now)
            (S.digest_of signer.old (aspa_octets self))) }
        ensures unasked { (fault : BuildFault) → result ≡ Err (error.Content fault)
            → signer.new ≡ signer.old }
        ensures cause { CountsError (S.failures signer.old) (S.failures signer.new) result }
        ensures keys { (k : S.KeyId) → S.key_of signer.new k ≡ S.key_of signer.old k }
        ensures signs { (k m s : List ℕ) →
            S.may_sign signer.new k m s ↔ S.may_sign signer.old k m s }
        ensures digests { (m : List ℕ) → S.digest_of signer.new m ≡ S.digest_of signer.old m }
        ensures verdicts { (k m s : List ℕ) →
            S.is_signed signer.new k m s ≡ S.is_signed signer.old k m s }
        ensures once { (k : List ℕ) → S.is_one_off signer.new k ↔ S.is_one_off signer.old k }
    {
        match self.into_attestation(limit) {
            Err(fault) => {
                drop(builder);
                Err(not_built(fault))
            }
            Ok(content) => match told(alloc, builder, &content) {
                Err(_) => {
                    drop(content);
                    Err(SigningError::Memory)
                }
                Ok(told) => signed(alloc, told, content, signer, issuer_key),
            },
        }
    }
}

// The builder that claims the customer and no address.
fn told(
    alloc: Global,
    builder: SignedObjectBuilder,
    content: &AsProviderAttestation,
) -> Result<SignedObjectBuilder, AllocError>
    ensures { IfOk result (λ told. told ≡ claiming content.now builder) }
{
    match content.as_resources(alloc) {
        Err(fault) => {
            drop(builder);
            Err(fault)
        }
        Ok(customer) => {
            let mut builder = builder;
            builder.set_as_resources(customer);
            builder.set_v4_resources(Resources::missing());
            builder.set_v6_resources(Resources::missing());
            Ok(builder)
        }
    }
}

// The octets of a content: it is short, so they are refused for memory alone.
fn octets(alloc: Global, content: &AsProviderAttestation) -> Result<Vec<u8>, AllocError>
    ensures { IfOk result (λ octets. octets.items ≡ aspa_octets content.now) }
{
    match octets_of(alloc, &content.encode_ref()) {
        Ok(octets) => Ok(octets),
        Err(_) => Err(AllocError),
    }
}

// The signed object of a content, of a builder that was told what is claimed.
fn signed<S: Signer>(
    alloc: Global,
    told: SignedObjectBuilder,
    content: AsProviderAttestation,
    signer: &mut S,
    issuer_key: &S::KeyId,
) -> Result<Aspa, SigningError<S::Error>>
    requires missing { told.v4 ≡ Missing }
    requires said { (limit : ProviderLimit) × AspaForm limit (aspa_octets content) content }
    ensures content { IfOk result (λ o. o.content ≡ content) }
    ensures form { (limit : ProviderLimit) → AspaForm limit (aspa_octets content) content
        → IfOk result (λ o. ObjectForm ct_aspa (AspaForm limit) Der o.object.object.octets
        (whole_of o)) }
    ensures built { IfOk result (λ o. IsBuilt told (S.key_of signer.old issuer_key.now) ct_aspa
        (aspa_octets content) (S.digest_of signer.old (aspa_octets content))
        o.object.object.signed) }
    ensures der { IfOk result (λ o. o.object.mode ≡ Der) }
    ensures written { IfOk result (λ o. o.object.object ≡ made_object o.object.object.signed) }
    ensures signatures { IfOk result (λ o. AreSignatures (S.may_sign signer.old)
        (S.key_of signer.old issuer_key.now) o.object.object.signed) }
    ensures one_off { IfOk result
        (λ o. S.is_one_off signer.old o.object.object.signed.cert.tbs.key) }
    ensures names { OnOk result (NamesInDer told) }
    ensures refused { IfErr result (IsUnsigned (S.may_sign signer.old)
        (S.is_one_off signer.old) told (S.key_of signer.old issuer_key.now) ct_aspa
        (aspa_octets content) (S.digest_of signer.old (aspa_octets content))) }
    ensures cause { CountsError (S.failures signer.old) (S.failures signer.new) result }
    ensures keys { (k : S.KeyId) → S.key_of signer.new k ≡ S.key_of signer.old k }
    ensures signs { (k m s : List ℕ) →
        S.may_sign signer.new k m s ↔ S.may_sign signer.old k m s }
    ensures digests { (m : List ℕ) → S.digest_of signer.new m ≡ S.digest_of signer.old m }
    ensures verdicts { (k m s : List ℕ) →
        S.is_signed signer.new k m s ≡ S.is_signed signer.old k m s }
    ensures once { (k : List ℕ) → S.is_one_off signer.new k ↔ S.is_one_off signer.old k }
{
    match octets(alloc, &content) {
        Err(_) => {
            drop(told);
            drop(content);
            Err(SigningError::Memory)
        }
        Ok(octets) => told.finalize_content(alloc, content, &octets, signer, issuer_key),
    }
}
