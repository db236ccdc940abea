//! The publication point of a CA, read once.

ghost use Rattle.std.specs.Prelude.{◌≡◌, [], ◌∷◌, None, IfOk, MatchOption, unwrap_or};
ghost use Rattle.rpki_relying_party.specs.Costs.{PlaceCosts, PlaceExceeds, PointCosts, PointStarts};
ghost use Rattle.rpki_relying_party.specs.Costs.{ListedCosts, ListedStarts};
ghost use Rattle.rpki_relying_party.specs.Lacks.{WhyNoPoint};
ghost use Rattle.rpki_relying_party.specs.Outcome.{IsOutcome, AppendsBoth};
ghost use Rattle.rpki_relying_party.specs.Passes.{setting};
ghost use Rattle.rpki_relying_party.specs.Point.{IsManifestAt, PublishesIn, NamesManifest};
ghost use Rattle.rpki_relying_party.specs.Reading.{IsPointReading, TellsNothing};
ghost use Rattle.rpki_relying_party.specs.Steps.{IsReading};
ghost use Rattle.rpki_relying_party.specs.Tells.{PointTells, PlaceTells, until_of};

use crate::cause::{Cause, Stop};
use crate::copy::Repository;
use crate::files::{Above, Findings, process_files, put_refusal};
use crate::found::{Finding, Refusal};
use crate::list::{List, find_crl};
use crate::manifest::{Manifest, find_manifest};
use crate::pass::Pass;
use crate::place::{Place, earlier};
use crate::places::{Reading, Told};
use rpki_basics::{Crypto, Rsync, Time};
use rpki_certs::ResourceCert;
use std::alloc::{AllocError, Global};

/// What came of reading the publication point of a place.
#[derive(Drop)]
pub(crate) enum PointReading {
    /// It was read, or the certificate of the place names none.
    Told(Told<Place, Finding>),
    /// It is refused, and how much work it was to find that out.
    Refused(Refusal, u64),
    /// There was no room to read it to its end.
    Cut,
}

// Until when all that is above the files of a point holds.
fn until_of(place: &Place, manifest: &Manifest, list: &List) -> Time
    ensures { result ≡ until_of place.now.until (record {
      signer = manifest.now.signer.cert.certificate;
      manifest = manifest.now.content;
      list_uri = list.now.uri;
      list = list.now.crl.list;
    }) }
{
    let signer = manifest.signer.cert().validity().not_after();
    let until = earlier(manifest.content.next_update(), list.crl.next_update());
    earlier(place.until, earlier(signer, until))
}

// Reads the revocation list of a point, and then each file of its manifest once.
fn process_listed<R: Repository, C: Crypto>(
    alloc: Global,
    pass: &Pass<'_, R, C>,
    place: &Place,
    folder: &Rsync,
    uri: &Rsync,
    manifest: &Manifest,
    findings: &mut Findings,
    room: &mut u64,
) -> Result<(), Stop>
    requires { IsManifestAt (setting R.finds C.digest_of C.is_signed pass.now) place.now.ca
        folder.now uri.now manifest.now.signer.cert.certificate manifest.now.content }
    ensures { IsOutcome (ListedStarts (setting R.finds C.digest_of C.is_signed pass.now)
        place.now.ca folder.now uri.now manifest.now.signer.cert.certificate manifest.now.content)
        (λ _ n. AppendsBoth (PointTells (setting R.finds C.digest_of C.is_signed pass.now)
        place.now folder.now uri.now)
        findings.old.said.items findings.new.said.items
        findings.old.children.items findings.new.children.items
        × ListedCosts (setting R.finds C.digest_of C.is_signed pass.now) place.now.ca folder.now
        uri.now manifest.now.signer.cert.certificate manifest.now.content n)
        (λ cause n. WhyNoPoint (setting R.finds C.digest_of C.is_signed pass.now) place.now.ca
        folder.now uri.now cause
        × ListedCosts (setting R.finds C.digest_of C.is_signed pass.now) place.now.ca folder.now
        uri.now manifest.now.signer.cert.certificate manifest.now.content n)
        room.old room.new result }
{
    match find_crl(alloc, pass, &place.ca, folder, manifest, room) {
        Err(stop) => Err(stop),
        Ok(list) => {
            let above = Above {
                ca: &place.ca,
                list: &list,
                until: until_of(place, manifest, &list),
                manifest: uri,
            };
            let content = &manifest.content;
            let done = process_files(alloc, pass, &above, folder, content, findings, room);
            drop(list);
            done
        }
    }
}

// Reads the point in this folder, whose manifest has this URI: each file of its manifest once (RFC
// 9286, section 6).
fn process_point<R: Repository, C: Crypto>(
    alloc: Global,
    pass: &Pass<'_, R, C>,
    place: &Place,
    folder: &Rsync,
    uri: &Rsync,
    findings: &mut Findings,
    room: &mut u64,
) -> Result<(), Stop>
    ensures { IsOutcome (PointStarts (setting R.finds C.digest_of C.is_signed pass.now)
        place.now.ca folder.now uri.now)
        (λ _ n. AppendsBoth (PointTells (setting R.finds C.digest_of C.is_signed pass.now)
        place.now folder.now uri.now)
        findings.old.said.items findings.new.said.items
        findings.old.children.items findings.new.children.items
        × PointCosts (setting R.finds C.digest_of C.is_signed pass.now) place.now.ca folder.now
        uri.now n)
        (λ cause n. WhyNoPoint (setting R.finds C.digest_of C.is_signed pass.now) place.now.ca
        folder.now uri.now cause
        × PointCosts (setting R.finds C.digest_of C.is_signed pass.now) place.now.ca folder.now
        uri.now n)
        room.old room.new result }
{
    match find_manifest(alloc, pass, &place.ca, folder, uri, room) {
        Err(stop) => Err(stop),
        Ok(manifest) => {
            let done = process_listed(alloc, pass, place, folder, uri, &manifest, findings, room);
            drop(manifest);
            done
        }
    }
}

// The folder in which a CA publishes.
fn folder_of(ca: &ResourceCert) -> Option<&Rsync>
    ensures { MatchOption result
        (ca.now.cert.certificate.tbs.extensions.locations.subject.ca_repository ≡ None)
        (λ folder. PublishesIn ca.now folder.now) }
{
    ca.cert().ca_repository()
}

// The URI of the manifest of a CA.
fn manifest_of(ca: &ResourceCert) -> Option<&Rsync>
    ensures { MatchOption result
        (ca.now.cert.certificate.tbs.extensions.locations.subject.rpki_manifest ≡ None)
        (λ uri. NamesManifest ca.now uri.now) }
{
    ca.cert().rpki_manifest()
}

// Copies of two URIs.
fn clone_both(a: &Rsync, b: &Rsync) -> Result<(Rsync, Rsync), AllocError>
    ensures { IfOk result (λ both. (both.0 ≡ a.now) × (both.1 ≡ b.now)) }
{
    Ok((a.clone()?, b.clone()?))
}

// The refusal of a point, which stands below the CA that listed the place.
fn refuse_point(
    place: &Place,
    uri: &Rsync,
    cause: Cause,
    cost: u64,
) -> Result<PointReading, AllocError>
    ensures { IfOk result (λ reading. reading ≡ PointReading.Refused (record {
      uri = uri.now;
      cause = cause;
      under = unwrap_or place.now.listed_by uri.now;
    }) cost) }
{
    let above = match &place.listed_by {
        None => uri,
        Some(above) => above,
    };
    match clone_both(uri, above) {
        Err(error) => {
            drop(cause);
            Err(error)
        }
        Ok((uri, under)) => Ok(PointReading::Refused(Refusal { uri, cause, under }, cost)),
    }
}

// Reads the publication point of a place in this folder, whose manifest has this URI.
fn read_point<R: Repository, C: Crypto>(
    alloc: Global,
    pass: &Pass<'_, R, C>,
    place: &Place,
    folder: &Rsync,
    uri: &Rsync,
    room: u64,
) -> Result<PointReading, AllocError>
    requires folder { PublishesIn place.now.ca folder.now }
    requires manifest { NamesManifest place.now.ca uri.now }
    ensures { IfOk result (IsPointReading (setting R.finds C.digest_of C.is_signed pass.now)
        place.now room) }
{
    let said = Vec::new(alloc);
    let children = Vec::new(alloc);
    let mut findings = Findings { said, children };
    let mut left = room;
    match process_point(alloc, pass, place, folder, uri, &mut findings, &mut left) {
        Ok(()) => {
            let Findings { said, children } = findings;
            let cost = room.saturating_sub(left);
            Ok(PointReading::Told(Told {
                said,
                children,
                cost,
            }))
        }
        Err(Stop::Refused(cause)) => {
            drop(findings);
            refuse_point(place, uri, cause, room.saturating_sub(left))
        }
        Err(Stop::Room) => {
            drop(findings);
            Ok(PointReading::Cut)
        }
        Err(Stop::Memory) => {
            drop(findings);
            Err(AllocError)
        }
    }
}

// A place whose certificate names no point tells nothing, and costs one.
fn read_nothing(alloc: Global, room: u64) -> PointReading
    ensures { TellsNothing room result }
{
    if room == 0 {
        return PointReading::Cut;
    }
    PointReading::Told(Told {
        said: Vec::new(alloc),
        children: Vec::new(alloc),
        cost: 1,
    })
}

/// Reads the publication point of a place, if its certificate names one, unless there is too little
/// room for it.
pub(crate) fn read_within<R: Repository, C: Crypto>(
    alloc: Global,
    pass: &Pass<'_, R, C>,
    place: &Place,
    room: u64,
) -> Result<PointReading, AllocError>
    ensures { IfOk result (IsPointReading (setting R.finds C.digest_of C.is_signed pass.now)
        place.now room) }
{
    match folder_of(&place.ca) {
        None => Ok(read_nothing(alloc, room)),
        Some(folder) => match manifest_of(&place.ca) {
            None => Ok(read_nothing(alloc, room)),
            Some(uri) => read_point(alloc, pass, place, folder, uri, room),
        },
    }
}

// Of a place whose point is refused this alone is told.
fn tell_refusal(
    alloc: Global,
    refusal: Refusal,
    cost: u64,
) -> Result<Told<Place, Finding>, AllocError>
    ensures said { IfOk result (λ told. told.said.items ≡ Finding.Refusal refusal ∷ []) }
    ensures children { IfOk result (λ told. told.children.items ≡ []) }
    ensures costs { IfOk result (λ told. told.cost ≡ cost) }
{
    let mut said = Vec::new(alloc);
    put_refusal(alloc, refusal, &mut said)?;
    let children = Vec::new(alloc);
    Ok(Told {
        said,
        children,
        cost,
    })
}

/// Reads a place, unless there is too little room for it. Where its point is refused it tells that.
pub(crate) fn read_place<R: Repository, C: Crypto>(
    alloc: Global,
    pass: &Pass<'_, R, C>,
    place: &Place,
    room: u64,
) -> Result<Reading<Place, Finding>, AllocError>
    ensures { IfOk result
        (IsReading (PlaceTells (setting R.finds C.digest_of C.is_signed pass.now))
        (PlaceCosts (setting R.finds C.digest_of C.is_signed pass.now))
        (PlaceExceeds (setting R.finds C.digest_of C.is_signed pass.now)) place.now room) }
{
    match read_within(alloc, pass, place, room) {
        Err(error) => Err(error),
        Ok(PointReading::Told(told)) => Ok(Reading::Told(told)),
        Ok(PointReading::Cut) => Ok(Reading::Cut),
        Ok(PointReading::Refused(refusal, cost)) => match tell_refusal(alloc, refusal, cost) {
            Err(error) => Err(error),
            Ok(told) => Ok(Reading::Told(told)),
        },
    }
}
