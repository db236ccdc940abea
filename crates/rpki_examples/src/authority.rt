//! A certification authority: it makes its certificate, its revocation list and its objects. The
//! certificate and the objects are checked as by those who rely on them, before they are published.

ghost use Rattle.std.specs.Prelude.{◌≡◌, ◌↔◌, ◌∷◌, [], Err, IfErr, IfOk, List, ℕ, true};
ghost use Rattle.std.specs.Fn.{FnOnceTakesAt, FnOnceReturnsAt};
ghost use Rattle.rpki_der.specs.declared.error.DecodeError.{DecodeError};
ghost use Rattle.rpki_der.specs.declared.mode.Mode.TheVariants.{Der};
ghost use Rattle.rpki_basics.specs.Signing.{CountsError};
ghost use Rattle.rpki_basics.specs.StandIn.{IsStandInKey, IsStandInSignature};
ghost use Rattle.rpki_basics.specs.StandIn.{is_stand_in_signature};
ghost use Rattle.rpki_basics.specs.declared.build.BuildFault.{BuildFault};
ghost use Rattle.rpki_basics.specs.declared.signing.SigningError.TheVariants as error;
ghost use Rattle.rpki_resources.specs.Blocks.{Covers};
ghost use Rattle.rpki_resources.specs.As.Form.{only};
ghost use Rattle.rpki_faults.specs.Validated.{IsAllowed};
ghost use Rattle.rpki_faults.specs.declared.overclaim.Overclaim.TheVariants.{Refuse};
ghost use Rattle.rpki_crls.specs.Crl.{IsSignedBy, RevocationList};
ghost use Rattle.rpki_certs.specs.Cert.{KeptCertificate};
ghost use Rattle.rpki_certs.specs.Verify.{Verdict};
ghost use Rattle.rpki_issued.specs.Tbs.{IsNotSigned};
ghost use Rattle.rpki_issued.specs.Written.{ClaimsIpv4};
ghost use Rattle.rpki_issued_crls.specs.Lists.{IsNotIssued, made_list, name_of};
ghost use Rattle.rpki_sigobj.specs.Signed.{ObjectForm, whole_of};
ghost use Rattle.rpki_signing.specs.Content.{Passes};
ghost use Rattle.rpki_files.specs.Manifest.Files.{MeetsRule};
ghost use Rattle.rpki_files.specs.Manifest.{ManifestForm};
ghost use Rattle.rpki_files.specs.Manifest.Checks.{manifest_kind};
ghost use Rattle.rpki_files.specs.Manifest.Signed.{IsNotSigned as IsUnsignedManifest};
ghost use Rattle.rpki_routes.specs.Aspa.Checks.{aspa_kind};
ghost use Rattle.rpki_routes.specs.Aspa.Form.{AspaForm};
ghost use Rattle.rpki_routes.specs.Aspa.Signed.{IsNotBuiltAspa};
ghost use Rattle.rpki_routes.specs.Aspa.Written.{aspa_octets};
ghost use Rattle.rpki_routes.specs.Roa.Checks.{RoaCovered, roa_kind};
ghost use Rattle.rpki_routes.specs.Roa.Form.{RoaForm};
ghost use Rattle.rpki_routes.specs.Roa.Signed.{IsNotBuiltRoa};
ghost use Rattle.rpki_routes.specs.Roa.Written.{roa_octets};
ghost use Rattle.rpki_signed.specs.Check.{Checks};
ghost use Rattle.rpki_signed.specs.Exact.{IsExact};
ghost use Rattle.rpki_signed.specs.declared.check.CheckError.TheVariants.{Decode};
ghost use Rattle.rpki_examples.specs.Authority.{CountsIssue, IsFaulty, IsFitAnchor, IsIssuedAspa};
ghost use Rattle.rpki_examples.specs.Authority.{IsIssuedManifest, IsIssuedRoa, IsMadeAnchor};
ghost use Rattle.rpki_examples.specs.Authority.{IsNoAnchor, IsNotPublished};
ghost use Rattle.rpki_examples.specs.Authority.{IsPublished, IsTimely, IsWantOfMemory, Takes};
ghost use Rattle.rpki_examples.specs.Authority.{checking};
ghost use Rattle.rpki_examples.specs.Received.{IsUnrevoked, SaysAs, SaysOf};
ghost use Rattle.rpki_examples.specs.declared.authority.IssueError.TheVariants.{Signing};

use crate::received::verify_unrevoked;
use bytes::Bytes;
use rpki::aspa::laws::built_aspas_are_valid;
use rpki::aspa::{AspaBuilder, ProviderLimit};
use rpki::cert::laws::valid_anchors;
use rpki::cert::{Cert, ResourceCert, TbsCert};
use rpki::check::{self, CheckError};
use rpki::crl::{Crl, CrlBuilder};
use rpki::crypto::laws::stand_in_verdicts;
use rpki::crypto::{Crypto, Signer, SigningError};
use rpki::der::{DecodeError, EncodeError};
use rpki::error::ValidationError;
use rpki::manifest::laws::built_manifests_are_valid;
use rpki::manifest::{ManifestContent, ManifestRule};
use rpki::roa::RoaBuilder;
use rpki::roa::laws::{built_roas_are_valid, claims_of_addresses};
use rpki::sigobj::{Content, Signed, SignedObjectBuilder};
use rpki::x509::Time;
use std::alloc::Global;
use std::marker::Model;

/// Why something is not published.
#[derive(Debug, Drop)]
pub enum IssueError<E> {
    /// It is not made and signed.
    Signing(SigningError<E>),
    /// What was made and signed does not pass its check.
    Check(CheckError),
}

/// What objects are checked by before they are published: cryptography, a validated issuer with its
/// revocation list, and a moment.
#[derive(Drop)]
pub struct Checker<'a, C: Crypto> {
    crypto: &'a C,
    issuer: &'a ResourceCert,
    list: &'a Crl,
    moment: Time,
}

impl<'a, C: Crypto> Model for Checker<'a, C> {
    ghost use Rattle.rpki_examples.specs.Authority.{Desk};

    ghost Value = { Desk C };

    ghost view = { λ c. record {
      crypto = c.crypto.now;
      issuer = c.issuer.now;
      list = c.list.now.list;
      moment = c.moment;
    } };
}

impl<'a, C: Crypto> Checker<'a, C> {
    /// A check by this cryptography, under this issuer and by its list, at this moment.
    pub fn new(
        crypto: &'a C,
        issuer: &'a ResourceCert,
        list: &'a Crl,
        moment: Time,
    ) -> Checker<'a, C>
        ensures { result ≡ record {
          crypto = crypto.now;
          issuer = issuer.now;
          list = list.now.list;
          moment = moment;
        } }
    {
        Checker {
            crypto,
            issuer,
            list,
            moment,
        }
    }
}

// What is answered of octets, with what `ask` says of the certificate. Where that is what a list
// says, the answer is by the list.
fn asking<T: Content, C: Crypto, F: FnOnce(&Cert) -> Result<(), ValidationError>>(
    alloc: Global,
    octets: Bytes,
    issuer: &ResourceCert,
    crypto: &C,
    now: Time,
    ask: F,
    rule: T::Rule,
) -> Result<(ResourceCert, T), CheckError>
    requires { (k : KeptCertificate) → FnOnceTakesAt F.FnOnce ask k }
    ensures first { (list : RevocationList) → SaysAs (FnOnceReturnsAt F.FnOnce ask) list
        → Checks T.kind (T.form rule) Der (C.digest_of crypto.now) (C.is_signed crypto.now)
        issuer.now now (SaysOf list) octets result }
    ensures exact { (list : RevocationList) → SaysAs (FnOnceReturnsAt F.FnOnce ask) list
        → IsExact T.kind (T.form rule) Der (C.digest_of crypto.now) (C.is_signed crypto.now)
        issuer.now now (SaysOf list) octets result }
{
    check::object(alloc, octets, true, issuer, crypto, now, ask, rule)
}

// What is answered of octets, by a list.
fn checked<T: Content, C: Crypto>(
    alloc: Global,
    octets: Bytes,
    issuer: &ResourceCert,
    list: &Crl,
    crypto: &C,
    now: Time,
    rule: T::Rule,
) -> Result<(ResourceCert, T), CheckError>
    ensures first { Checks T.kind (T.form rule) Der (C.digest_of crypto.now)
        (C.is_signed crypto.now) issuer.now now (SaysOf list.now.list) octets result }
    ensures exact { IsExact T.kind (T.form rule) Der (C.digest_of crypto.now)
        (C.is_signed crypto.now) issuer.now now (SaysOf list.now.list) octets result }
{
    asking(
        alloc,
        octets,
        issuer,
        crypto,
        now,
        |cert| verify_unrevoked(list, cert),
        rule,
    )
}

// The octets of an object that is in DER, twice.
fn copies<T: Content>(object: &Signed<T>) -> Result<(Bytes, Bytes), EncodeError>
    ensures { IfOk result (λ o. (o.0 ≡ object.now.object.object.octets)
        × (o.1 ≡ object.now.object.object.octets)) }
{
    let octets = object.to_captured()?;
    let copy = object.to_captured()?;
    Ok((octets, copy))
}

// That memory ran out, as what a check answers.
fn memory() -> CheckError
    ensures { result ≡ Decode DecodeError.Memory }
{
    CheckError::Decode(DecodeError::Memory)
}

// The octets of an object, once they were checked.
fn published<T: Content, C: Crypto>(
    alloc: Global,
    object: Signed<T>,
    check: &Checker<'_, C>,
    rule: T::Rule,
) -> Result<Bytes, CheckError>
    requires { ObjectForm T.kind.type (T.form rule) Der object.object.object.octets
        (whole_of object) }
    ensures good { IfOk result
        (IsPublished T.kind (T.form rule) (checking C.digest_of C.is_signed check.now)
        object.content (λ s. s ≡ object.object.object.signed)) }
    ensures refused { IfErr result
        (IsFaulty T.kind (checking C.digest_of C.is_signed check.now) object.content
        (λ s. s ≡ object.object.object.signed)) }
    ensures passes { Passes T.kind Der (C.digest_of check.now.crypto)
        (C.is_signed check.now.crypto) check.now.issuer check.now.moment (whole_of object)
        → IsUnrevoked check.now.list object.object.object.signed.cert
        → IfErr result IsWantOfMemory }
{
    let copies = copies(&object);
    drop(object);
    match copies {
        Err(_) => Err(memory()),
        Ok((octets, copy)) => match checked::<T, C>(
            alloc,
            copy,
            check.issuer,
            check.list,
            check.crypto,
            check.moment,
            rule,
        ) {
            Err(error) => {
                drop(octets);
                Err(error)
            }
            Ok((cert, content)) => {
                drop(cert);
                drop(content);
                Ok(octets)
            }
        },
    }
}

/// The certificate of a trust anchor, signed by its own key and validated at this moment (RFC 6487,
/// section 7; RFC 8630, section 3). Refuses as `TbsCert::into_cert` and `Cert::validate_ta_at` do;
/// no validation refuses it, unless memory runs out, where the builder was told what a trust anchor
/// has to be.
pub fn anchor<S: Signer, C: Crypto>(
    alloc: Global,
    told: TbsCert,
    signer: &mut S,
    key: &S::KeyId,
    crypto: &C,
    now: Time,
) -> Result<ResourceCert, IssueError<S::Error>>
    requires { ClaimsIpv4 told.extensions.claims }
    ensures made { IfOk result
        (IsMadeAnchor (S.may_sign signer.old (S.key_of signer.old key.now))
        (C.is_signed crypto.now) told now) }
    ensures refused { IfErr result (IsNotPublished
        (IsNotSigned (S.may_sign signer.old (S.key_of signer.old key.now)) told)
        (IsNoAnchor (S.may_sign signer.old (S.key_of signer.old key.now))
        (C.is_signed crypto.now) told now)) }
    ensures passes { IsFitAnchor (S.may_sign signer.old) (C.is_signed crypto.now) told
        (S.key_of signer.old key.now) now
        → IfErr result (IsNotPublished
        (IsNotSigned (S.may_sign signer.old (S.key_of signer.old key.now)) told)
        IsWantOfMemory) }
    ensures cause { CountsIssue (S.failures signer.old) (S.failures signer.new) result }
    ensures keys { (k : S.KeyId) → S.key_of signer.new k ≡ S.key_of signer.old k }
    ensures signs { (k m s : List ℕ) →
        S.may_sign signer.new k m s ↔ S.may_sign signer.old k m s }
    ensures digests { (m : List ℕ) → S.digest_of signer.new m ≡ S.digest_of signer.old m }
    ensures verdicts { (k m s : List ℕ) →
        S.is_signed signer.new k m s ≡ S.is_signed signer.old k m s }
    ensures once { (k : List ℕ) → S.is_one_off signer.new k ↔ S.is_one_off signer.old k }
{
    valid_anchors();
    match told.into_cert(alloc, signer, key) {
        Err(error) => Err(IssueError::Signing(error)),
        Ok(cert) => match cert.validate_ta_at(alloc, true, crypto, now) {
            Err(fault) => Err(IssueError::Check(CheckError::Validation(fault))),
            Ok(anchor) => Ok(anchor),
        },
    }
}

/// The revocation list of the key, signed by it (RFC 5280, section 5.1). Refuses as
/// `CrlBuilder::into_crl` does.
pub fn list<S: Signer>(
    alloc: Global,
    told: CrlBuilder,
    signer: &mut S,
    key: &S::KeyId,
) -> Result<Crl, SigningError<S::Error>>
    ensures made { IfOk result (λ list. list.list
        ≡ made_list told (name_of (S.key_of signer.old key.now)) list.list.signature) }
    ensures signed { (verdict : Verdict) → ((k m s : List ℕ) → S.may_sign signer.old k m s
        → verdict k m s ≡ true)
        → IfOk result (λ list. IsSignedBy verdict (S.key_of signer.old key.now) list.list) }
    ensures refused { IfErr result (IsNotIssued
        (S.may_sign signer.old (S.key_of signer.old key.now)) told
        (name_of (S.key_of signer.old key.now))) }
    ensures cause { CountsError (S.failures signer.old) (S.failures signer.new) result }
    ensures keys { (k : S.KeyId) → S.key_of signer.new k ≡ S.key_of signer.old k }
    ensures signs { (k m s : List ℕ) →
        S.may_sign signer.new k m s ↔ S.may_sign signer.old k m s }
    ensures digests { (m : List ℕ) → S.digest_of signer.new m ≡ S.digest_of signer.old m }
    ensures verdicts { (k m s : List ℕ) →
        S.is_signed signer.new k m s ≡ S.is_signed signer.old k m s }
    ensures once { (k : List ℕ) → S.is_one_off signer.new k ↔ S.is_one_off signer.old k }
{
    told.into_crl(alloc, signer, key)
}

/// The octets of a ROA, made and checked: what is published says the content, is good under the
/// issuer and is not revoked. Refuses as `RoaBuilder::finalize` does, or by what the check answers.
/// No check refuses it, unless memory runs out, where the builder fits the issuer, and the issuer
/// has each prefix and the AS numbers that the builder was told to claim.
pub fn roa<S: Signer, C: Crypto>(
    alloc: Global,
    content: RoaBuilder,
    told: SignedObjectBuilder,
    signer: &mut S,
    key: &S::KeyId,
    check: &Checker<'_, C>,
) -> Result<Bytes, IssueError<S::Error>>
    ensures good { IfOk result (IsPublished roa_kind RoaForm
        (checking C.digest_of C.is_signed check.now) content
        (IsIssuedRoa (S.may_sign signer.old) (S.is_one_off signer.old)
        (S.key_of signer.old key.now) (S.digest_of signer.old) content told)) }
    ensures refused { IfErr result (IsNotPublished
        (IsNotBuiltRoa (S.may_sign signer.old) (S.is_one_off signer.old) content told
        (S.key_of signer.old key.now) (S.digest_of signer.old (roa_octets content)))
        (IsFaulty roa_kind (checking C.digest_of C.is_signed check.now) content
        (IsIssuedRoa (S.may_sign signer.old) (S.is_one_off signer.old)
        (S.key_of signer.old key.now) (S.digest_of signer.old) content told))) }
    ensures passes { Takes (S.may_sign signer.old) (S.digest_of signer.old)
        (checking C.digest_of C.is_signed check.now)
        → IsTimely told (S.key_of signer.old key.now)
        (checking C.digest_of C.is_signed check.now)
        → RoaCovered content check.now.issuer.sets
        → IsAllowed (λ n. n) Refuse told.as_numbers check.now.issuer.sets.as_numbers
        → IfErr result (IsNotPublished
        (IsNotBuiltRoa (S.may_sign signer.old) (S.is_one_off signer.old) content told
        (S.key_of signer.old key.now) (S.digest_of signer.old (roa_octets content)))
        IsWantOfMemory) }
    ensures unasked { (fault : BuildFault) → result ≡ Err (Signing (error.Content fault))
        → signer.new ≡ signer.old }
    ensures cause { CountsIssue (S.failures signer.old) (S.failures signer.new) result }
    ensures keys { (k : S.KeyId) → S.key_of signer.new k ≡ S.key_of signer.old k }
    ensures signs { (k m s : List ℕ) →
        S.may_sign signer.new k m s ↔ S.may_sign signer.old k m s }
    ensures digests { (m : List ℕ) → S.digest_of signer.new m ≡ S.digest_of signer.old m }
    ensures verdicts { (k m s : List ℕ) →
        S.is_signed signer.new k m s ≡ S.is_signed signer.old k m s }
    ensures once { (k : List ℕ) → S.is_one_off signer.new k ↔ S.is_one_off signer.old k }
{
    built_roas_are_valid(check.issuer);
    claims_of_addresses();
    match content.finalize(alloc, told, signer, key) {
        Err(error) => Err(IssueError::Signing(error)),
        Ok(object) => match published(alloc, object, check, ()) {
            Err(error) => Err(IssueError::Check(error)),
            Ok(octets) => Ok(octets),
        },
    }
}

/// The octets of an ASPA, made and checked, as `roa` says of a ROA. No check refuses it, unless
/// memory runs out, where the issuer has the customer, and the builder fits the issuer.
pub fn aspa<S: Signer, C: Crypto>(
    alloc: Global,
    content: AspaBuilder,
    told: SignedObjectBuilder,
    signer: &mut S,
    key: &S::KeyId,
    check: &Checker<'_, C>,
    limit: ProviderLimit,
) -> Result<Bytes, IssueError<S::Error>>
    ensures good { IfOk result (IsPublished aspa_kind (AspaForm limit)
        (checking C.digest_of C.is_signed check.now) content
        (IsIssuedAspa (S.may_sign signer.old) (S.is_one_off signer.old)
        (S.key_of signer.old key.now) (S.digest_of signer.old) limit content told)) }
    ensures refused { IfErr result (IsNotPublished
        (IsNotBuiltAspa (S.may_sign signer.old) (S.is_one_off signer.old) limit content told
        (S.key_of signer.old key.now) (S.digest_of signer.old (aspa_octets content)))
        (IsFaulty aspa_kind (checking C.digest_of C.is_signed check.now) content
        (IsIssuedAspa (S.may_sign signer.old) (S.is_one_off signer.old)
        (S.key_of signer.old key.now) (S.digest_of signer.old) limit content told))) }
    ensures passes { Takes (S.may_sign signer.old) (S.digest_of signer.old)
        (checking C.digest_of C.is_signed check.now)
        → IsTimely told (S.key_of signer.old key.now)
        (checking C.digest_of C.is_signed check.now)
        → Covers (λ n. n) check.now.issuer.sets.as_numbers (only content.customer ∷ [])
        → IfErr result (IsNotPublished
        (IsNotBuiltAspa (S.may_sign signer.old) (S.is_one_off signer.old) limit content told
        (S.key_of signer.old key.now) (S.digest_of signer.old (aspa_octets content)))
        IsWantOfMemory) }
    ensures unasked { (fault : BuildFault) → result ≡ Err (Signing (error.Content fault))
        → signer.new ≡ signer.old }
    ensures cause { CountsIssue (S.failures signer.old) (S.failures signer.new) result }
    ensures keys { (k : S.KeyId) → S.key_of signer.new k ≡ S.key_of signer.old k }
    ensures signs { (k m s : List ℕ) →
        S.may_sign signer.new k m s ↔ S.may_sign signer.old k m s }
    ensures digests { (m : List ℕ) → S.digest_of signer.new m ≡ S.digest_of signer.old m }
    ensures verdicts { (k m s : List ℕ) →
        S.is_signed signer.new k m s ≡ S.is_signed signer.old k m s }
    ensures once { (k : List ℕ) → S.is_one_off signer.new k ↔ S.is_one_off signer.old k }
{
    built_aspas_are_valid(check.issuer);
    match content.finalize(alloc, told, signer, key, limit) {
        Err(error) => Err(IssueError::Signing(error)),
        Ok(object) => match published(alloc, object, check, limit) {
            Err(error) => Err(IssueError::Check(error)),
            Ok(octets) => Ok(octets),
        },
    }
}

/// The octets of a manifest, made and checked, as `roa` says of a ROA. No check refuses it, unless
/// memory runs out, where the names of its files are registered ones, and the builder fits the
/// issuer.
pub fn manifest<S: Signer, C: Crypto>(
    alloc: Global,
    content: ManifestContent,
    told: SignedObjectBuilder,
    signer: &mut S,
    key: &S::KeyId,
    check: &Checker<'_, C>,
) -> Result<Bytes, IssueError<S::Error>>
    requires { MeetsRule ManifestRule.Registered content.files }
    ensures good { IfOk result (IsPublished manifest_kind
        (ManifestForm ManifestRule.Registered Der)
        (checking C.digest_of C.is_signed check.now) content
        (IsIssuedManifest (S.may_sign signer.old) (S.is_one_off signer.old)
        (S.key_of signer.old key.now) (S.digest_of signer.old) content told)) }
    ensures refused { IfErr result (IsNotPublished
        (IsUnsignedManifest (S.may_sign signer.old) (S.is_one_off signer.old) told
        (S.key_of signer.old key.now) (S.digest_of signer.old) content)
        (IsFaulty manifest_kind (checking C.digest_of C.is_signed check.now) content
        (IsIssuedManifest (S.may_sign signer.old) (S.is_one_off signer.old)
        (S.key_of signer.old key.now) (S.digest_of signer.old) content told))) }
    ensures passes { Takes (S.may_sign signer.old) (S.digest_of signer.old)
        (checking C.digest_of C.is_signed check.now)
        → IsTimely told (S.key_of signer.old key.now)
        (checking C.digest_of C.is_signed check.now)
        → IfErr result (IsNotPublished
        (IsUnsignedManifest (S.may_sign signer.old) (S.is_one_off signer.old) told
        (S.key_of signer.old key.now) (S.digest_of signer.old) content)
        IsWantOfMemory) }
    ensures cause { CountsIssue (S.failures signer.old) (S.failures signer.new) result }
    ensures keys { (k : S.KeyId) → S.key_of signer.new k ≡ S.key_of signer.old k }
    ensures signs { (k m s : List ℕ) →
        S.may_sign signer.new k m s ↔ S.may_sign signer.old k m s }
    ensures digests { (m : List ℕ) → S.digest_of signer.new m ≡ S.digest_of signer.old m }
    ensures verdicts { (k m s : List ℕ) →
        S.is_signed signer.new k m s ≡ S.is_signed signer.old k m s }
    ensures once { (k : List ℕ) → S.is_one_off signer.new k ↔ S.is_one_off signer.old k }
{
    built_manifests_are_valid(check.issuer);
    match content.into_manifest(alloc, told, signer, key) {
        Err(error) => Err(IssueError::Signing(error)),
        Ok(object) => match published(alloc, object, check, ManifestRule::Registered) {
            Err(error) => Err(IssueError::Check(error)),
            Ok(octets) => Ok(octets),
        },
    }
}

/// What the stand-in's signer may answer, the stand-in says yes to: so what is made by it passes
/// its check by the stand-in.
pub fn stand_ins_agree()
    ensures { (key message signature : List ℕ) →
        IsStandInKey key × IsStandInSignature key message signature
        → is_stand_in_signature key message signature ≡ true }
{
    stand_in_verdicts();
}
