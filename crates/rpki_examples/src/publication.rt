//! A whole authority of the stand-in: the certificate of its trust anchor, its revocation list, and
//! a ROA, an ASPA and a manifest, each of which is made and checked under both before it is
//! published.

ghost use Rattle.std.specs.Prelude.{◌≡◌, IfErr, IfOk};
ghost use Rattle.std.specs.Int.{w64, to_be_bytes};
ghost use Rattle.rpki_basics.specs.StandIn.{is_stand_in_signature};
ghost use Rattle.rpki_basics.specs.declared.limits.ManifestRule.{ManifestRule};
ghost use Rattle.rpki_crls.specs.Crl.{IsSignedBy};
ghost use Rattle.rpki_issued.specs.Written.{ClaimsIpv4};
ghost use Rattle.rpki_issued_crls.specs.Lists.{made_list, name_of};
ghost use Rattle.rpki_files.specs.Manifest.Files.{MeetsRule};
ghost use Rattle.rpki_examples.specs.Authority.{CountsIssue, IsMadeAnchor, IsNotPublished};
ghost use Rattle.rpki_examples.specs.Publication.{AnchorFits, ArePublished, AreUnsigned};
ghost use Rattle.rpki_examples.specs.Publication.{AspaFits, IsGoodAspa, IsGoodManifest, IsGoodRoa};
ghost use Rattle.rpki_examples.specs.Publication.{IsNoPublication, IsPublication, IsUnsignedAspa};
ghost use Rattle.rpki_examples.specs.Publication.{IsUnsignedAuthority, IsUnsignedManifest};
ghost use Rattle.rpki_examples.specs.Publication.{IsUnsignedRoa, ManifestFits, ObjectsFit, OrUnfit};
ghost use Rattle.rpki_examples.specs.Publication.{RoaFits, by_stand_in, may_sign};

use crate::authority::{self, Checker, IssueError};
use bytes::Bytes;
use rpki::aspa::{AspaBuilder, ProviderLimit};
use rpki::cert::{ResourceCert, TbsCert};
use rpki::crl::laws::pushed_are_revoked;
use rpki::crl::{Crl, CrlBuilder};
use rpki::crypto::standin::{Refused, StandIn, StandInSigner};
use rpki::manifest::ManifestContent;
use rpki::roa::RoaBuilder;
use rpki::sigobj::SignedObjectBuilder;
use rpki::x509::Time;
use std::alloc::Global;

/// A content, and the builder of the object that is to carry it.
#[derive(Drop)]
pub struct ToSign<T> {
    pub content: T,
    pub builder: SignedObjectBuilder,
}

/// An object of each kind that is to be signed, and how many providers the ASPA may have.
#[derive(Drop)]
pub struct Objects {
    pub roa: ToSign<RoaBuilder>,
    pub aspa: ToSign<AspaBuilder>,
    pub limit: ProviderLimit,
    pub manifest: ToSign<ManifestContent>,
}

/// What an authority is told to publish.
#[derive(Drop)]
pub struct Plan {
    pub anchor: TbsCert,
    pub list: CrlBuilder,
    pub objects: Objects,
}

/// The octets of an object of each kind.
#[derive(Drop)]
pub struct Published {
    pub roa: Bytes,
    pub aspa: Bytes,
    pub manifest: Bytes,
}

/// What an authority publishes.
#[derive(Drop)]
pub struct Publication {
    pub anchor: ResourceCert,
    pub list: Crl,
    pub objects: Published,
}

// The certificate of the trust anchor, and its list.
fn authority_of(
    alloc: Global,
    told: TbsCert,
    revoked: CrlBuilder,
    signer: &mut StandInSigner,
    key: u64,
    now: Time,
) -> Result<(ResourceCert, Crl), IssueError<Refused>>
    requires { ClaimsIpv4 told.extensions.claims }
    ensures anchor { IfOk result (λ made. IsMadeAnchor (may_sign (to_be_bytes w64 key))
        is_stand_in_signature told now made.0) }
    ensures list { IfOk result (λ made. made.1.list
        ≡ made_list revoked (name_of (to_be_bytes w64 key)) made.1.list.signature) }
    ensures signed { IfOk result (λ made.
        IsSignedBy is_stand_in_signature (to_be_bytes w64 key) made.1.list) }
    ensures refused { IfErr result (IsNotPublished
        (IsUnsignedAuthority (to_be_bytes w64 key) told revoked)
        (OrUnfit (AnchorFits (to_be_bytes w64 key) told now))) }
    ensures cause { CountsIssue signer.old.failures signer.new.failures result }
{
    authority::stand_ins_agree();
    match authority::anchor(alloc, told, signer, &key, &StandIn, now) {
        Err(error) => {
            drop(revoked);
            Err(error)
        }
        Ok(anchor) => match authority::list(alloc, revoked, signer, &key) {
            Err(error) => {
                drop(anchor);
                Err(IssueError::Signing(error))
            }
            Ok(list) => Ok((anchor, list)),
        },
    }
}

// The ROA.
fn roa_of(
    alloc: Global,
    told: ToSign<RoaBuilder>,
    signer: &mut StandInSigner,
    key: u64,
    check: &Checker<'_, StandIn>,
) -> Result<Bytes, IssueError<Refused>>
    ensures good { IfOk result
        (IsGoodRoa (to_be_bytes w64 key) told (by_stand_in check.now)) }
    ensures refused { IfErr result (IsNotPublished (IsUnsignedRoa (to_be_bytes w64 key) told)
        (OrUnfit (RoaFits (to_be_bytes w64 key) told (by_stand_in check.now)))) }
    ensures cause { CountsIssue signer.old.failures signer.new.failures result }
{
    authority::stand_ins_agree();
    let ToSign { content, builder } = told;
    authority::roa(alloc, content, builder, signer, &key, check)
}

// The ASPA.
fn aspa_of(
    alloc: Global,
    told: ToSign<AspaBuilder>,
    limit: ProviderLimit,
    signer: &mut StandInSigner,
    key: u64,
    check: &Checker<'_, StandIn>,
) -> Result<Bytes, IssueError<Refused>>
    ensures good { IfOk result
        (IsGoodAspa (to_be_bytes w64 key) limit told (by_stand_in check.now)) }
    ensures refused { IfErr result
        (IsNotPublished (IsUnsignedAspa (to_be_bytes w64 key) limit told)
        (OrUnfit (AspaFits (to_be_bytes w64 key) told (by_stand_in check.now)))) }
    ensures cause { CountsIssue signer.old.failures signer.new.failures result }
{
    authority::stand_ins_agree();
    let ToSign { content, builder } = told;
    authority::aspa(alloc, content, builder, signer, &key, check, limit)
}

// The manifest.
fn manifest_of(
    alloc: Global,
    told: ToSign<ManifestContent>,
    signer: &mut StandInSigner,
    key: u64,
    check: &Checker<'_, StandIn>,
) -> Result<Bytes, IssueError<Refused>>
    requires { MeetsRule ManifestRule.Registered told.content.files }
    ensures good { IfOk result
        (IsGoodManifest (to_be_bytes w64 key) told (by_stand_in check.now)) }
    ensures refused { IfErr result (IsNotPublished (IsUnsignedManifest (to_be_bytes w64 key) told)
        (OrUnfit (ManifestFits (to_be_bytes w64 key) told (by_stand_in check.now)))) }
    ensures cause { CountsIssue signer.old.failures signer.new.failures result }
{
    authority::stand_ins_agree();
    let ToSign { content, builder } = told;
    authority::manifest(alloc, content, builder, signer, &key, check)
}

// An object of each kind.
fn objects_of(
    alloc: Global,
    told: Objects,
    signer: &mut StandInSigner,
    key: u64,
    check: &Checker<'_, StandIn>,
) -> Result<Published, IssueError<Refused>>
    requires { MeetsRule ManifestRule.Registered told.manifest.content.files }
    ensures good { IfOk result
        (ArePublished (to_be_bytes w64 key) told (by_stand_in check.now)) }
    ensures refused { IfErr result (IsNotPublished (AreUnsigned (to_be_bytes w64 key) told)
        (OrUnfit (ObjectsFit (to_be_bytes w64 key) told (by_stand_in check.now)))) }
    ensures cause { CountsIssue signer.old.failures signer.new.failures result }
{
    let Objects {
        roa: for_roa,
        aspa: for_aspa,
        limit,
        manifest: for_manifest,
    } = told;
    match roa_of(alloc, for_roa, signer, key, check) {
        Err(error) => {
            drop(for_aspa);
            drop(for_manifest);
            Err(error)
        }
        Ok(roa) => match aspa_of(alloc, for_aspa, limit, signer, key, check) {
            Err(error) => {
                drop(roa);
                drop(for_manifest);
                Err(error)
            }
            Ok(aspa) => match manifest_of(alloc, for_manifest, signer, key, check) {
                Err(error) => {
                    drop(roa);
                    drop(aspa);
                    Err(error)
                }
                Ok(manifest) => Ok(Published {
                    roa,
                    aspa,
                    manifest,
                }),
            },
        },
    }
}

/// Makes the certificate of a trust anchor and its revocation list, and under these a ROA, an ASPA
/// and a manifest, all by the stand-in's signer: the first two and the certificates of the objects
/// by the key with this number. Each object is checked under the trust anchor, by its list and at
/// this moment, before it is published: what is published says the content that was told, is good,
/// and the list does not revoke it. Nothing is published where something is not signed, for a
/// reason that its builder states; where what was told does not fit, as a prefix that the anchor
/// does not claim, or a serial number that the list names; or where memory runs out.
pub fn publish(
    alloc: Global,
    told: Plan,
    signer: &mut StandInSigner,
    key: u64,
    now: Time,
) -> Result<Publication, IssueError<Refused>>
    requires ipv4 { ClaimsIpv4 told.anchor.extensions.claims }
    requires names { MeetsRule ManifestRule.Registered told.objects.manifest.content.files }
    ensures good { IfOk result (IsPublication (to_be_bytes w64 key) told now) }
    ensures refused { IfErr result (IsNoPublication (to_be_bytes w64 key) told now) }
    ensures cause { CountsIssue signer.old.failures signer.new.failures result }
{
    pushed_are_revoked();
    let Plan {
        anchor,
        list,
        objects: for_objects,
    } = told;
    match authority_of(alloc, anchor, list, signer, key, now) {
        Err(error) => {
            drop(for_objects);
            Err(error)
        }
        Ok((anchor, list)) => {
            let check = Checker::new(&StandIn, &anchor, &list, now);
            match objects_of(alloc, for_objects, signer, key, &check) {
                Err(error) => {
                    drop(anchor);
                    drop(list);
                    Err(error)
                }
                Ok(objects) => Ok(Publication {
                    anchor,
                    list,
                    objects,
                }),
            }
        }
    }
}
