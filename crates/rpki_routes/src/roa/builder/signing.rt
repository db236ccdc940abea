//! Signing Route Origin Authorizations that are built (RFC 9582; RFC 6488).

ghost use Rattle.std.specs.Prelude.{◌≡◌, ◌↔◌, ◌<◌, ◌^◌, ℕ, List, Err, [], length};
ghost use Rattle.std.specs.Prelude.{IfErr, IfOk, IsTrue, OnOk};
ghost use Rattle.rpki_basics.specs.declared.build.BuildFault.{BuildFault};
ghost use Rattle.rpki_basics.specs.declared.signing.SigningError.TheVariants as error;
ghost use Rattle.rpki_der.specs.declared.mode.Mode.TheVariants.{Der};
ghost use Rattle.rpki_basics.specs.Signing.{CountsError};
ghost use Rattle.rpki_issued.specs.Written.{ClaimsIpv4};
ghost use Rattle.rpki_sigobj.specs.Signed.{ObjectForm, whole_of};
ghost use Rattle.rpki_signing.specs.Built.{AreSignatures, IsBuilt, NamesInDer, claims_of};
ghost use Rattle.rpki_signing.specs.Built.{IsNotBuilt as IsUnsigned};
ghost use Rattle.rpki_signing.specs.Written.{made_object};
ghost use Rattle.rpki_lists.specs.Built.{IsNotBuilt};
ghost use Rattle.rpki_routes.specs.Roa.{IsRoa};
ghost use Rattle.rpki_routes.specs.Roa.Built.{IsClaimOf};
ghost use Rattle.rpki_routes.specs.Roa.Checks.{route_origin_authz};
ghost use Rattle.rpki_routes.specs.Roa.Form.{RoaForm};
ghost use Rattle.rpki_routes.specs.Roa.Signed.{ClaimsPrefixes, HasAddress, signed_checks};
ghost use Rattle.rpki_routes.specs.Roa.Signed.{IsBuiltRoa, IsNotBuiltRoa};
ghost use Rattle.rpki_routes.specs.Roa.Written.{roa_contents, roa_octets};

use crate::roa::RouteOriginAttestation;
use crate::roa::builder::RoaBuilder;
use crate::roa::object::Roa;
use rpki_basics::{BuildError, BuildFault, Signer, SigningError};
use rpki_lists::octets_of;
use rpki_resources::IpResources;
use rpki_signing::{SignedObjectBuilder, not_built};
use std::alloc::{AllocError, Global};

// What is claimed of each family.
#[derive(Drop)]
struct Claims {
    v4: IpResources,
    v6: IpResources,
}

impl RoaBuilder {
    /// The ROA of this content as a signed object (RFC 9582, section 3). The builder of the signed
    /// object claims the addresses of the prefixes, whatever it claimed of addresses before; its
    /// claim of AS numbers stays as it was handed in, and should be missing (section 5). Refuses by
    /// the faults of `to_attestation`, and by `EmptyRoa` where there is no address; a fault of the
    /// content goes before one of the signer, and leaves the signer as it was. Then refuses as
    /// `SignedObjectBuilder::finalize` does.
    pub fn finalize<S: Signer>(
        self,
        alloc: Global,
        builder: SignedObjectBuilder,
        signer: &mut S,
        issuer_key: &S::KeyId,
    ) -> Result<Roa, SigningError<S::Error>>
        ensures content { IfOk result (λ o. o.content ≡ self) }
        ensures form { IfOk result (λ o. ObjectForm route_origin_authz RoaForm Der
            o.object.object.octets (whole_of o)) }
        ensures built { IfOk result (λ o. IsBuiltRoa self builder
            (S.key_of signer.old issuer_key.now) (S.digest_of signer.old (roa_octets self))
            o.object.object.signed) }
        ensures der { IfOk result (λ o. o.object.mode ≡ Der) }
        ensures written { IfOk result (λ o.
            o.object.object ≡ made_object o.object.object.signed) }
        ensures signatures { IfOk result (λ o. AreSignatures (S.may_sign signer.old)
            (S.key_of signer.old issuer_key.now) o.object.object.signed) }
        ensures one_off { IfOk result
            (λ o. S.is_one_off signer.old o.object.object.signed.cert.tbs.key) }
        ensures names { OnOk result (NamesInDer builder) }
        ensures refused { IfErr result (IsNotBuiltRoa (S.may_sign signer.old)
            (S.is_one_off signer.old) self builder (S.key_of signer.old issuer_key.now)
            (S.digest_of signer.old (roa_octets self))) }
        ensures unasked { (fault : BuildFault) → result ≡ Err (error.Content fault)
            → signer.new ≡ signer.old }
        ensures cause { CountsError (S.failures signer.old) (S.failures signer.new) result }
        ensures keys { (k : S.KeyId) → S.key_of signer.new k ≡ S.key_of signer.old k }
        ensures signs { (k m s : List ℕ) →
            S.may_sign signer.new k m s ↔ S.may_sign signer.old k m s }
        ensures digests { (m : List ℕ) → S.digest_of signer.new m ≡ S.digest_of signer.old m }
        ensures verdicts { (k m s : List ℕ) →
            S.is_signed signer.new k m s ≡ S.is_signed signer.old k m s }
        ensures once { (k : List ℕ) → S.is_one_off signer.new k ↔ S.is_one_off signer.old k }
    {
        match self.content_to_sign() {
            Err(fault) => {
                drop(self);
                drop(builder);
                Err(not_built(fault))
            }
            Ok(content) => {
                let told = self.claiming(builder);
                drop(self);
                match told {
                    Err(_) => {
                        drop(content);
                        Err(SigningError::Memory)
                    }
                    Ok(told) => signed(alloc, told, content, signer, issuer_key),
                }
            }
        }
    }

    // The content, which has an address.
    fn content_to_sign(&self) -> Result<RouteOriginAttestation, BuildError>
        ensures built { IfOk result (λ roa. roa ≡ self.now) }
        ensures said { OnOk result (IsRoa self.now) }
        ensures some { OnOk result (HasAddress self.now) }
        ensures written { OnOk result (RoaForm (roa_octets self.now) self.now) }
        ensures refused { IfErr result (IsNotBuilt (signed_checks self.now)
            (¬ (length (roa_contents self.now) < 2 ^ 32))) }
    {
        if self.is_empty() {
            return Err(BuildError::Fault(BuildFault::EmptyRoa));
        }
        self.to_attestation()
    }

    // Whether there is no address.
    fn is_empty(&self) -> bool
        ensures { IsTrue result ↔ ((self.now.v4 ≡ []) × (self.now.v6 ≡ [])) }
    {
        self.v4.is_empty() && self.v6.is_empty()
    }

    // The builder that claims the addresses.
    fn claiming(&self, builder: SignedObjectBuilder) -> Result<SignedObjectBuilder, AllocError>
        requires { IsRoa self.now }
        ensures claims { IfOk result (ClaimsPrefixes self.now builder) }
        ensures ipv4 { IfOk result (λ told. ClaimsIpv4 (claims_of told)) }
    {
        match self.claims() {
            Err(fault) => {
                drop(builder);
                Err(fault)
            }
            Ok(claims) => Ok(claiming(builder, claims)),
        }
    }

    // What is claimed of each family.
    fn claims(&self) -> Result<Claims, AllocError>
        ensures v4 { IfOk result (λ c. IsClaimOf self.now.v4 c.v4) }
        ensures v6 { IfOk result (λ c. IsClaimOf self.now.v6 c.v6) }
    {
        let v4 = self.v4.to_resources()?;
        let v6 = self.v6.to_resources()?;
        Ok(Claims { v4, v6 })
    }
}

// The builder with these claims.
fn claiming(builder: SignedObjectBuilder, claims: Claims) -> SignedObjectBuilder
    ensures { result ≡ record builder { v4 = claims.v4; v6 = claims.v6 } }
{
    let mut builder = builder;
    builder.set_v4_resources(claims.v4);
    builder.set_v6_resources(claims.v6);
    builder
}

// The octets of a content that was built: it is short, so they are refused for memory alone.
fn octets(alloc: Global, content: &RouteOriginAttestation) -> Result<Vec<u8>, AllocError>
    ensures { IfOk result (λ octets. octets.items ≡ roa_octets content.now) }
{
    match octets_of(alloc, &content.encode_ref()) {
        Ok(octets) => Ok(octets),
        Err(_) => Err(AllocError),
    }
}

// The signed object of a content, of a builder that was told what is claimed.
fn signed<S: Signer>(
    alloc: Global,
    told: SignedObjectBuilder,
    content: RouteOriginAttestation,
    signer: &mut S,
    issuer_key: &S::KeyId,
) -> Result<Roa, SigningError<S::Error>>
    requires ipv4 { ClaimsIpv4 (claims_of told) }
    requires form { RoaForm (roa_octets content) content }
    ensures content { IfOk result (λ o. o.content ≡ content) }
    ensures form { IfOk result (λ o. ObjectForm route_origin_authz RoaForm Der
        o.object.object.octets (whole_of o)) }
    ensures built { IfOk result (λ o. IsBuilt told (S.key_of signer.old issuer_key.now)
        route_origin_authz (roa_octets content) (S.digest_of signer.old (roa_octets content))
        o.object.object.signed) }
    ensures der { IfOk result (λ o. o.object.mode ≡ Der) }
    ensures written { IfOk result (λ o. o.object.object ≡ made_object o.object.object.signed) }
    ensures signatures { IfOk result (λ o. AreSignatures (S.may_sign signer.old)
        (S.key_of signer.old issuer_key.now) o.object.object.signed) }
    ensures one_off { IfOk result
        (λ o. S.is_one_off signer.old o.object.object.signed.cert.tbs.key) }
    ensures names { OnOk result (NamesInDer told) }
    ensures refused { IfErr result (IsUnsigned (S.may_sign signer.old)
        (S.is_one_off signer.old) told (S.key_of signer.old issuer_key.now) route_origin_authz
        (roa_octets content) (S.digest_of signer.old (roa_octets content))) }
    ensures cause { CountsError (S.failures signer.old) (S.failures signer.new) result }
    ensures keys { (k : S.KeyId) → S.key_of signer.new k ≡ S.key_of signer.old k }
    ensures signs { (k m s : List ℕ) →
        S.may_sign signer.new k m s ↔ S.may_sign signer.old k m s }
    ensures digests { (m : List ℕ) → S.digest_of signer.new m ≡ S.digest_of signer.old m }
    ensures verdicts { (k m s : List ℕ) →
        S.is_signed signer.new k m s ≡ S.is_signed signer.old k m s }
    ensures once { (k : List ℕ) → S.is_one_off signer.new k ↔ S.is_one_off signer.old k }
{
    match octets(alloc, &content) {
        Err(_) => {
            drop(told);
            drop(content);
            Err(SigningError::Memory)
        }
        Ok(octets) => told.finalize_content(alloc, content, &octets, signer, issuer_key),
    }
}
