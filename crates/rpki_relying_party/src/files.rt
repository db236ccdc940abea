//! What the files of a publication point tell.

ghost use Rattle.std.specs.Prelude.{◌≡◌, ◌↔◌, ◌⊎◌, ◌*◌, [], ◌∷◌, ◌++◌, length, IfOk, IsTrue};
ghost use Rattle.std.specs.Prelude.{MatchResult};
ghost use Rattle.rpki_files.specs.Manifest.Uris.{uris_of};
ghost use Rattle.rpki_routes.specs.Roa.{addresses};
ghost use Rattle.rpki_relying_party.specs.Costs.{payload_cost};
ghost use Rattle.rpki_relying_party.specs.Judged.{IsJudged, IsFileRead, AreFilesRead};
ghost use Rattle.rpki_relying_party.specs.Kind.{kind_of};
ghost use Rattle.rpki_relying_party.specs.Memory.{IsCheckMemory, IsIssuerMemory};
ghost use Rattle.rpki_relying_party.specs.Memory.{plain_check, plain_issuer};
ghost use Rattle.rpki_relying_party.specs.Outcome.{Puts};
ghost use Rattle.rpki_relying_party.specs.Passes.{setting};
ghost use Rattle.rpki_relying_party.specs.Tells.{NamesPrefixesAlone, IsEntity, HasEntity};
ghost use Rattle.rpki_relying_party.specs.Tells.{payload_said, origins_said, providers_said};
ghost use Rattle.rpki_relying_party.specs.Tells.{child_of, refusal};
ghost use Rattle.rpki_relying_party.specs.declared.cause.Cause.{Cause as Causes};
ghost use Rattle.rpki_relying_party.specs.declared.cause.Stop.{Stop as Stops};
ghost use Rattle.rpki_relying_party.specs.declared.kind.ListedKind.{ListedKind as Kinds};

use crate::cause::{Cause, Stop};
use crate::copy::Repository;
use crate::found::{BoxedRefusal, Finding, Refusal};
use crate::kind::{ListedKind, kind_of};
use crate::list::List;
use crate::memory::{is_check_memory, is_issuer_memory, plain_check, plain_issuer};
use crate::pass::Pass;
use crate::payload::{Held, Payload, origin_of, provider_of};
use crate::place::{Place, cost_of, earlier};
use crate::reader::{listing_cost, read_listed, spend};
use crate::under::{aspa_under, ca_under, roa_under};
use bytes::Bytes;
use rpki_basics::{Crypto, Rsync, Time};
use rpki_certs::{Cert, IssuerError, ResourceCert};
use rpki_der::DecodeError;
use rpki_faults::KeyUsage;
use rpki_files::{ManifestContent, ManifestHash};
use rpki_routes::{AsProviderAttestation, RouteOriginAttestation};
use rpki_signed::check::CheckError;
use std::alloc::{AllocError, Global};

/// What is known of a publication point when its files are read: the CA, its revocation list, until
/// when all that is above the files holds, and the URI of the manifest.
#[derive(Clone, Copy)]
pub(crate) struct Above<'a> {
    pub ca: &'a ResourceCert,
    pub list: &'a List,
    pub until: Time,
    pub manifest: &'a Rsync,
}

/// What a place told so far.
#[derive(Drop)]
pub(crate) struct Findings {
    pub said: Vec<Finding>,
    pub children: Vec<Place>,
}

/// Puts a refusal at the end of a list.
pub(crate) fn put_refusal(
    alloc: Global,
    refusal: Refusal,
    said: &mut Vec<Finding>,
) -> Result<(), AllocError>
    ensures { IfOk result (λ _. said.new.items
        ≡ said.old.items ++ Finding.Refusal refusal ∷ []) }
{
    match BoxedRefusal::new(alloc, refusal) {
        Err(error) => Err(error),
        Ok(boxed) => {
            said.push(Finding::Refusal(boxed))?;
            Ok(())
        }
    }
}

// A file is refused, unless memory runs out.
fn refuse(
    alloc: Global,
    uri: Rsync,
    cause: Cause,
    under: &Rsync,
    said: &mut Vec<Finding>,
) -> Result<(), Stop>
    ensures { MatchResult result (λ _. said.new.items
        ≡ said.old.items ++ refusal uri cause under.now ∷ []) (λ stop. stop ≡ Stops.Memory) }
{
    match under.clone() {
        Err(_) => {
            drop(uri);
            drop(cause);
            Err(Stop::Memory)
        }
        Ok(under) => match put_refusal(alloc, Refusal { uri, cause, under }, said) {
            Err(_) => Err(Stop::Memory),
            Ok(()) => Ok(()),
        },
    }
}

// A ROA or an ASPA is refused, unless its fault is that memory ran out.
fn refuse_object(
    alloc: Global,
    uri: Rsync,
    error: CheckError,
    under: &Rsync,
    said: &mut Vec<Finding>,
) -> Result<(), Stop>
    ensures memory { IfOk result (λ _. ¬ IsCheckMemory error) }
    ensures refused { MatchResult result (λ _. said.new.items
        ≡ said.old.items ++ refusal uri (Causes.Object (plain_check error)) under.now ∷ [])
        (λ stop. stop ≡ Stops.Memory) }
{
    if is_check_memory(&error) {
        drop(uri);
        drop(error);
        return Err(Stop::Memory);
    }
    let cause = Cause::Object(plain_check(error));
    refuse(alloc, uri, cause, under, said)
}

// Whether a certificate names no AS numbers and inherits no addresses (RFC 9582, section 5).
fn names_prefixes_alone(cert: &Cert) -> bool
    ensures { IsTrue result ↔ NamesPrefixesAlone cert.now.certificate.tbs.extensions.claims }
{
    cert.as_resources().is_missing()
        && !cert.v4_resources().is_inherited()
        && !cert.v6_resources().is_inherited()
}

// What a payload costs that is held.
const PAYLOAD: u128 = 2048;

// Puts a payload at the end of a list.
fn push_payload(
    payload: Payload,
    until: Time,
    uri: &Rsync,
    said: &mut Vec<Finding>,
) -> Result<(), AllocError>
    ensures { IfOk result (λ _. said.new.items
        ≡ said.old.items ++ payload_said until uri.now payload ∷ []) }
{
    let object = uri.clone()?;
    said.push(Finding::Payload(payload, Held { until, object }))?;
    Ok(())
}

// Spends what a payload costs, and puts it at the end of a list.
fn put_payload(
    payload: Payload,
    until: Time,
    uri: &Rsync,
    said: &mut Vec<Finding>,
    room: &mut u64,
) -> Result<(), Stop>
    ensures { Puts payload_cost (payload_said until uri.now payload ∷ []) said.old.items
        said.new.items room.old room.new result }
{
    if let Err(stop) = spend(room, PAYLOAD) {
        return Err(stop);
    }
    match push_payload(payload, until, uri, said) {
        Err(_) => Err(Stop::Memory),
        Ok(()) => Ok(()),
    }
}

// Puts each origin of a ROA, which holds until this moment, at the end of a list.
fn put_origins(
    roa: &RouteOriginAttestation,
    until: Time,
    uri: &Rsync,
    said: &mut Vec<Finding>,
    room: &mut u64,
) -> Result<(), Stop>
    ensures { Puts (payload_cost * length (addresses roa.now)) (origins_said until uri.now roa.now)
        said.old.items said.new.items room.old room.new result }
{
    for origin in roa.iter_origins() {
        let payload = Payload::Origin(origin_of(&origin));
        if let Err(stop) = put_payload(payload, until, uri, said, room) {
            return Err(stop);
        }
    }
    Ok(())
}

// Puts each provider of an ASPA, which holds until this moment, at the end of a list.
fn put_providers(
    aspa: &AsProviderAttestation,
    until: Time,
    uri: &Rsync,
    said: &mut Vec<Finding>,
    room: &mut u64,
) -> Result<(), Stop>
    ensures { Puts (payload_cost * length aspa.now.providers)
        (providers_said until uri.now aspa.now) said.old.items said.new.items room.old room.new
        result }
{
    let customer = aspa.customer_as();
    for provider in aspa.provider_as_set().iter() {
        let payload = Payload::Provider(provider_of(customer, provider));
        if let Err(stop) = put_payload(payload, until, uri, said, room) {
            return Err(stop);
        }
    }
    Ok(())
}

// A ROA says its origins, until its certificate ends or what is above it does.
fn process_roa<R: Repository, C: Crypto>(
    alloc: Global,
    pass: &Pass<'_, R, C>,
    above: &Above<'_>,
    uri: Rsync,
    octets: Bytes,
    findings: &mut Findings,
    room: &mut u64,
) -> Result<(), Stop>
    ensures { IsJudged (setting R.finds C.digest_of C.is_signed pass.now) above.now.ca.now
        above.now.list.now.crl.list above.now.until above.now.manifest.now uri octets Kinds.Roa
        findings.old findings.new room.old room.new result }
{
    let crl = &above.list.crl;
    match roa_under(alloc, octets, above.ca, crl, pass.crypto, pass.moment) {
        Err(error) => refuse_object(alloc, uri, error, above.manifest, &mut findings.said),
        Ok((cert, roa)) => {
            let until = earlier(above.until, cert.cert().validity().not_after());
            if names_prefixes_alone(cert.cert()) {
                drop(cert);
                let put = put_origins(&roa, until, &uri, &mut findings.said, room);
                drop(roa);
                drop(uri);
                return put;
            }
            drop(cert);
            drop(roa);
            let (cause, under) = (Cause::RoaCertificate, above.manifest);
            refuse(alloc, uri, cause, under, &mut findings.said)
        }
    }
}

// An ASPA says its providers, until its certificate ends or what is above it does.
fn process_aspa<R: Repository, C: Crypto>(
    alloc: Global,
    pass: &Pass<'_, R, C>,
    above: &Above<'_>,
    uri: Rsync,
    octets: Bytes,
    findings: &mut Findings,
    room: &mut u64,
) -> Result<(), Stop>
    ensures { IsJudged (setting R.finds C.digest_of C.is_signed pass.now) above.now.ca.now
        above.now.list.now.crl.list above.now.until above.now.manifest.now uri octets Kinds.Aspa
        findings.old findings.new room.old room.new result }
{
    let (crl, limit) = (&above.list.crl, pass.providers);
    match aspa_under(
        alloc,
        octets,
        above.ca,
        crl,
        pass.crypto,
        pass.moment,
        limit,
    ) {
        Err(error) => refuse_object(alloc, uri, error, above.manifest, &mut findings.said),
        Ok((cert, aspa)) => {
            let until = earlier(above.until, cert.cert().validity().not_after());
            drop(cert);
            let put = put_providers(&aspa, until, &uri, &mut findings.said, room);
            drop(aspa);
            drop(uri);
            put
        }
    }
}

// Whether a certificate is that of an end entity.
fn is_for_entity(cert: &Cert) -> bool
    ensures { IsTrue result ↔ IsEntity cert.now.certificate }
{
    cert.basic_ca().is_none() && cert.key_usage() == KeyUsage::Ee
}

// Whether octets begin with the certificate of an end entity.
fn is_entity(alloc: Global, octets: Bytes) -> Result<bool, AllocError>
    ensures { IfOk result (λ yes. IsTrue yes ↔ HasEntity octets) }
{
    match Cert::decode(alloc, octets) {
        Err(DecodeError::Memory) => Err(AllocError),
        Err(DecodeError::Malformed) => Ok(false),
        Err(DecodeError::Content(fault)) => {
            drop(fault);
            Ok(false)
        }
        Ok(cert) => {
            let is_entity = is_for_entity(&cert);
            drop(cert);
            Ok(is_entity)
        }
    }
}

// A certificate is refused, unless it is that of an end entity.
fn refuse_cert(
    alloc: Global,
    uri: Rsync,
    octets: Bytes,
    error: IssuerError,
    under: &Rsync,
    said: &mut Vec<Finding>,
) -> Result<(), Stop>
    ensures memory { IfOk result (λ _. ¬ IsIssuerMemory error) }
    ensures said { MatchResult result (λ _. (HasEntity octets × (said.new.items ≡ said.old.items))
        ⊎ ((¬ HasEntity octets) × (said.new.items ≡ said.old.items
        ++ refusal uri (Causes.Certificate (plain_issuer error)) under.now ∷ [])))
        (λ stop. stop ≡ Stops.Memory) }
{
    if is_issuer_memory(&error) {
        drop(uri);
        drop(octets);
        drop(error);
        return Err(Stop::Memory);
    }
    match is_entity(alloc, octets) {
        Err(_) => {
            drop(uri);
            drop(error);
            Err(Stop::Memory)
        }
        Ok(true) => {
            drop(uri);
            drop(error);
            Ok(())
        }
        Ok(false) => {
            let cause = Cause::Certificate(plain_issuer(error));
            refuse(alloc, uri, cause, under, said)
        }
    }
}

// The certificate of a CA is that of a child.
fn push_child(
    above: &Above<'_>,
    ca: ResourceCert,
    children: &mut Vec<Place>,
) -> Result<(), AllocError>
    ensures { IfOk result (λ _. children.new.items
        ≡ children.old.items ++ child_of above.now.until above.now.manifest.now ca ∷ []) }
{
    let until = earlier(above.until, ca.cert().validity().not_after());
    match above.manifest.clone() {
        Err(error) => {
            drop(ca);
            Err(error)
        }
        Ok(manifest) => {
            let listed_by = Some(manifest);
            children.push(Place {
                ca,
                until,
                listed_by,
            })?;
            Ok(())
        }
    }
}

// Spends what a child costs, and puts it at the end of a list.
fn put_child(
    above: &Above<'_>,
    ca: ResourceCert,
    cost: u128,
    children: &mut Vec<Place>,
    room: &mut u64,
) -> Result<(), Stop>
    ensures { Puts cost (child_of above.now.until above.now.manifest.now ca ∷ [])
        children.old.items children.new.items room.old room.new result }
{
    if let Err(stop) = spend(room, cost) {
        drop(ca);
        return Err(stop);
    }
    match push_child(above, ca, children) {
        Err(_) => Err(Stop::Memory),
        Ok(()) => Ok(()),
    }
}

// A certificate is that of a child, or of an end entity, which is passed over, or it is refused.
fn process_cert<R: Repository, C: Crypto>(
    alloc: Global,
    pass: &Pass<'_, R, C>,
    above: &Above<'_>,
    uri: Rsync,
    octets: Bytes,
    findings: &mut Findings,
    room: &mut u64,
) -> Result<(), Stop>
    ensures { IsJudged (setting R.finds C.digest_of C.is_signed pass.now) above.now.ca.now
        above.now.list.now.crl.list above.now.until above.now.manifest.now uri octets Kinds.Ca
        findings.old findings.new room.old room.new result }
{
    let copy = octets.clone()?;
    let crl = &above.list.crl;
    match ca_under(alloc, copy, above.ca, crl, pass.crypto, pass.moment) {
        Err(error) => {
            let under = above.manifest;
            refuse_cert(alloc, uri, octets, error, under, &mut findings.said)
        }
        Ok(ca) => {
            drop(uri);
            ca.is_resource_cert();
            let cost = cost_of(&octets, &ca);
            drop(octets);
            put_child(above, ca, cost, &mut findings.children, room)
        }
    }
}

// A file is judged by its kind.
fn process_read<R: Repository, C: Crypto>(
    alloc: Global,
    pass: &Pass<'_, R, C>,
    above: &Above<'_>,
    uri: Rsync,
    octets: Bytes,
    findings: &mut Findings,
    room: &mut u64,
) -> Result<(), Stop>
    ensures { IsJudged (setting R.finds C.digest_of C.is_signed pass.now) above.now.ca.now
        above.now.list.now.crl.list above.now.until above.now.manifest.now uri octets (kind_of uri)
        findings.old findings.new room.old room.new result }
{
    match kind_of(uri.as_slice()) {
        ListedKind::Roa => process_roa(alloc, pass, above, uri, octets, findings, room),
        ListedKind::Aspa => process_aspa(alloc, pass, above, uri, octets, findings, room),
        ListedKind::Ca => process_cert(alloc, pass, above, uri, octets, findings, room),
        ListedKind::Other => {
            drop(uri);
            drop(octets);
            Ok(())
        }
    }
}

// Whether two URIs are the same.
fn are_same(uri: &Rsync, other: &Rsync) -> bool
    ensures { IsTrue result ↔ (uri.now ≡ other.now) }
{
    uri.as_slice() == other.as_slice()
}

// A listed file is read, and judged by its kind. The revocation list is passed over.
fn process_file<R: Repository, C: Crypto>(
    alloc: Global,
    pass: &Pass<'_, R, C>,
    above: &Above<'_>,
    listed: (Rsync, ManifestHash),
    findings: &mut Findings,
    room: &mut u64,
) -> Result<(), Stop>
    ensures { IsFileRead (setting R.finds C.digest_of C.is_signed pass.now) above.now.ca.now
        above.now.list.now.uri above.now.list.now.crl.list above.now.until above.now.manifest.now
        listed findings.old findings.new room.old room.new result }
{
    let (uri, hash) = listed;
    if are_same(&uri, &above.list.uri) {
        drop(uri);
        drop(hash);
        return Ok(());
    }
    let price = listing_cost(above.ca, above.manifest, &uri);
    match read_listed(alloc, pass, &uri, &hash, price, room) {
        Err(stop) => {
            drop(uri);
            drop(hash);
            Err(stop)
        }
        Ok(octets) => {
            drop(hash);
            process_read(alloc, pass, above, uri, octets, findings, room)
        }
    }
}

/// Reads each file of a manifest below this folder once, in its order.
pub(crate) fn process_files<'x, R: Repository, C: Crypto>(
    alloc: Global,
    pass: &Pass<'_, R, C>,
    above: &Above<'_>,
    folder: &'x Rsync,
    manifest: &'x ManifestContent,
    findings: &mut Findings,
    room: &mut u64,
) -> Result<(), Stop>
    ensures { AreFilesRead (setting R.finds C.digest_of C.is_signed pass.now) above.now.ca.now
        above.now.list.now.uri above.now.list.now.crl.list above.now.until above.now.manifest.now
        (uris_of folder.now manifest.now.files) findings.old findings.new room.old room.new
        result }
{
    let mut files = manifest.iter_uris(alloc, folder);
    while let Some(item) = files.next() {
        match item {
            Err(_) => return Err(Stop::Memory),
            Ok(listed) => match process_file(alloc, pass, above, listed, findings, room) {
                Err(stop) => return Err(stop),
                Ok(()) => {}
            },
        }
    }
    Ok(())
}
