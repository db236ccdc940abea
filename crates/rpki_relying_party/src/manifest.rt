//! The manifest of a publication point.

ghost use Rattle.std.specs.Prelude.{◌≡◌, ◌⊎◌, ◌+◌, ◌<◌, IfOk, MatchOption, Ok, Result};
ghost use Rattle.std.specs.Fn.{FnOnceTakesAt, FnOnceReturnsAt};
ghost use Rattle.rpki_der.specs.declared.mode.Mode.TheVariants.{Der};
ghost use Rattle.rpki_faults.specs.Checks.{AnswersFirstFault};
ghost use Rattle.rpki_basics.specs.Uri.{join_text};
ghost use Rattle.rpki_certs.specs.Cert.{KeptCertificate};
ghost use Rattle.rpki_files.specs.Manifest.{ManifestForm};
ghost use Rattle.rpki_files.specs.Manifest.Checks.{manifest_kind};
ghost use Rattle.rpki_files.specs.Manifest.Uris.{uris_of};
ghost use Rattle.rpki_files.specs.Name.{IsFileName};
ghost use Rattle.rpki_signed.specs.Check.{Checks};
ghost use Rattle.rpki_signed.specs.Exact.{IsExact};
ghost use Rattle.rpki_relying_party.specs.Costs.{ManifestStarts, ReadCosts, RefusedCosts};
ghost use Rattle.rpki_relying_party.specs.Costs.{naming_cost, opening_cost};
ghost use Rattle.rpki_relying_party.specs.Lacks.{IsFirstRepeated, WhyNoManifestOf, manifest_checks};
ghost use Rattle.rpki_relying_party.specs.Memory.{IsCheckMemory, plain_check};
ghost use Rattle.rpki_relying_party.specs.Outcome.{IsOutcome};
ghost use Rattle.rpki_relying_party.specs.Passes.{setting};
ghost use Rattle.rpki_relying_party.specs.Point.{AreOnce, IsManifestAt};
ghost use Rattle.rpki_relying_party.specs.declared.cause.Cause.TheVariants as causes;
ghost use Rattle.rpki_relying_party.specs.declared.cause.ManifestFault.TheVariants as faults;
ghost use Rattle.rpki_relying_party.specs.declared.cause.Stop.TheVariants as stops;

use crate::cause::{Cause, ManifestFault, Stop};
use crate::copy::Repository;
use crate::memory::{is_check_memory, plain_check};
use crate::pass::Pass;
use crate::reader::{OPENING, naming_cost, read_file, spend};
use bytes::Bytes;
use rpki_basics::uri::Error;
use rpki_basics::{Crypto, ManifestRule, Rsync, Time};
use rpki_certs::{Cert, ResourceCert};
use rpki_faults::ValidationError;
use rpki_files::ManifestContent;
use rpki_signed::check::{self, CheckError};
use std::alloc::{AllocError, Global};
use std::collections::BTreeSet;

/// A manifest that is good, with the certificate of its signer.
#[derive(Drop)]
pub(crate) struct Manifest {
    pub signer: ResourceCert,
    pub content: ManifestContent,
}

// A yes to each certificate: whether that of a manifest's signer is revoked is looked at once the
// list is found, and it is found by the manifest.
fn accept(_cert: &Cert) -> Result<(), ValidationError>
    ensures { result ≡ Ok tt }
{
    Ok(())
}

// The manifest of a CA at the front of octets in DER, where what is said of its certificate is a
// yes.
fn manifest_asking<C: Crypto, F: FnOnce(&Cert) -> Result<(), ValidationError>>(
    alloc: Global,
    octets: Bytes,
    ca: &ResourceCert,
    crypto: &C,
    now: Time,
    ask: F,
) -> Result<(ResourceCert, ManifestContent), CheckError>
    requires { (k : KeptCertificate) → FnOnceTakesAt F.FnOnce ask k }
    ensures first { ((k : KeptCertificate) (said : Result (Unit {0}) ValidationError)
        → FnOnceReturnsAt F.FnOnce ask k said → said ≡ Ok tt)
        → Checks manifest_kind (ManifestForm ManifestRule.Any Der) Der (C.digest_of crypto.now)
        (C.is_signed crypto.now) ca.now now (λ k said. said ≡ Ok tt) octets result }
    ensures exact { ((k : KeptCertificate) (said : Result (Unit {0}) ValidationError)
        → FnOnceReturnsAt F.FnOnce ask k said → said ≡ Ok tt)
        → IsExact manifest_kind (ManifestForm ManifestRule.Any Der) Der (C.digest_of crypto.now)
        (C.is_signed crypto.now) ca.now now (λ k said. said ≡ Ok tt) octets result }
{
    check::manifest(alloc, octets, true, ca, crypto, now, ask, ManifestRule::Any)
}

// The manifest of a CA at the front of octets in DER, where it is good at the moment. A refusal is
// that of the first check that fails.
fn manifest_in<C: Crypto>(
    alloc: Global,
    octets: Bytes,
    ca: &ResourceCert,
    crypto: &C,
    now: Time,
) -> Result<(ResourceCert, ManifestContent), CheckError>
    ensures first { Checks manifest_kind (ManifestForm ManifestRule.Any Der) Der
        (C.digest_of crypto.now) (C.is_signed crypto.now) ca.now now (λ k said. said ≡ Ok tt)
        octets result }
    ensures exact { IsExact manifest_kind (ManifestForm ManifestRule.Any Der) Der
        (C.digest_of crypto.now) (C.is_signed crypto.now) ca.now now (λ k said. said ≡ Ok tt)
        octets result }
{
    manifest_asking(alloc, octets, ca, crypto, now, |cert| accept(cert))
}

// What a manifest lacks to be current, by the first check that fails.
fn check_current(manifest: &ManifestContent, now: Time) -> Result<(), ManifestFault>
    ensures { AnswersFirstFault (manifest_checks now manifest.now) result }
{
    if now < manifest.this_update() {
        return Err(ManifestFault::NotYet(manifest.this_update()));
    }
    if manifest.next_update() < now {
        return Err(ManifestFault::Stale(manifest.next_update()));
    }
    Ok(())
}

// The URI of the file with this name below a folder.
#[tactic(auto, using(rpki_files::proofs::Names::Joined::name_joined))]
fn uri_below(alloc: Global, folder: &Rsync, name: &[u8]) -> Result<Rsync, AllocError>
    requires { IsFileName name.now }
    ensures { IfOk result (λ uri. uri ≡ join_text folder.now name.now) }
{
    // The proof takes from this call that the folder is an rsync URI.
    let _ = folder.as_slice();
    match folder.join(alloc, name) {
        Ok(uri) => Ok(uri),
        Err(Error::Memory) => Err(AllocError),
        Err(Error::InvalidCharacters) => unreachable!(),
        Err(Error::BadScheme) => unreachable!(),
        Err(Error::BadUri) => unreachable!(),
    }
}

// The first file that an earlier one has, if any. Names are compared, and not their URIs, which all
// begin with the folder: so time and memory follow the octets of the manifest.
fn find_repeated(
    alloc: Global,
    manifest: &ManifestContent,
    folder: &Rsync,
) -> Result<Option<Rsync>, AllocError>
    ensures { IfOk result (λ found. MatchOption found
        (AreOnce (uris_of folder.now manifest.now.files))
        (IsFirstRepeated (uris_of folder.now manifest.now.files))) }
{
    let mut names = BTreeSet::new(alloc);
    let mut files = manifest.iter();
    while let Some(file) = files.next() {
        if !names.insert(file.file)? {
            return Ok(Some(uri_below(alloc, folder, file.file)?));
        }
    }
    Ok(None)
}

// What a manifest is refused by, or that memory ran out.
fn refused_manifest(error: CheckError) -> Stop
    ensures { (IsCheckMemory error × (result ≡ stops.Memory))
        ⊎ ((¬ IsCheckMemory error)
        × (result ≡ stops.Refused (causes.Manifest (faults.Refused (plain_check error))))) }
{
    if is_check_memory(&error) {
        drop(error);
        return Stop::Memory;
    }
    let fault = ManifestFault::Refused(plain_check(error));
    Stop::Refused(Cause::Manifest(fault))
}

// That a manifest is refused which lists this file twice, or that there is too little room for it.
fn refused_twice(twice: Rsync, room: &mut u64) -> Stop
    ensures { ((room.new + naming_cost twice ≡ room.old)
        × (result ≡ stops.Refused (causes.Manifest (faults.Twice twice))))
        ⊎ ((result ≡ stops.Room) × (room.old < naming_cost twice) × (room.new ≡ room.old)) }
{
    if let Err(stop) = spend(room, naming_cost(&twice)) {
        drop(twice);
        return stop;
    }
    Stop::Refused(Cause::Manifest(ManifestFault::Twice(twice)))
}

/// The manifest that the copy has of a CA for this URI, where it is good and current and lists no
/// name twice (RFC 9286, sections 6.2 and 6.3). Whether its certificate was revoked is not looked
/// at.
pub(crate) fn find_manifest<R: Repository, C: Crypto>(
    alloc: Global,
    pass: &Pass<'_, R, C>,
    ca: &ResourceCert,
    folder: &Rsync,
    uri: &Rsync,
    room: &mut u64,
) -> Result<Manifest, Stop>
    ensures { IsOutcome
        (ManifestStarts (setting R.finds C.digest_of C.is_signed pass.now) ca.now folder.now
        uri.now)
        (λ m n. IsManifestAt (setting R.finds C.digest_of C.is_signed pass.now) ca.now folder.now
        uri.now m.signer.cert.certificate m.content
        × ReadCosts (setting R.finds C.digest_of C.is_signed pass.now) opening_cost uri.now n)
        (λ cause n. WhyNoManifestOf (setting R.finds C.digest_of C.is_signed pass.now) ca.now
        folder.now uri.now cause
        × RefusedCosts (setting R.finds C.digest_of C.is_signed pass.now) uri.now cause n)
        room.old room.new result }
{
    let octets = match read_file(alloc, pass, uri, OPENING, room)? {
        Ok(octets) => octets,
        Err(why) => return Err(Stop::Refused(Cause::Manifest(ManifestFault::NoFile(why)))),
    };
    let (signer, content) = match manifest_in(alloc, octets, ca, pass.crypto, pass.moment) {
        Err(error) => return Err(refused_manifest(error)),
        Ok(checked) => checked,
    };
    if let Err(fault) = check_current(&content, pass.moment) {
        drop(signer);
        drop(content);
        return Err(Stop::Refused(Cause::Manifest(fault)));
    }
    match find_repeated(alloc, &content, folder) {
        Err(_) => {
            drop(signer);
            drop(content);
            Err(Stop::Memory)
        }
        Ok(Some(twice)) => {
            drop(signer);
            drop(content);
            Err(refused_twice(twice, room))
        }
        Ok(None) => Ok(Manifest { signer, content }),
    }
}
