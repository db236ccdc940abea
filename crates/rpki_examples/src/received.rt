//! Octets that were fetched or handed over, as those who rely on them check them.

ghost use Rattle.std.specs.Prelude.{◌≡◌, ◌↔◌, IsTrue, IfOk, Contains};
ghost use Rattle.std.specs.Fn.{FnOnceTakesAt, FnOnceReturnsAt};
ghost use Rattle.std.specs.List.{Any};
ghost use Rattle.rpki_der.specs.declared.mode.Mode.TheVariants.{Der};
ghost use Rattle.rpki_crls.specs.Crl.{RevocationList};
ghost use Rattle.rpki_certs.specs.Cert.{KeptCertificate};
ghost use Rattle.rpki_certs.specs.Validate.{IsGoodUnder};
ghost use Rattle.rpki_files.specs.Checklist.{ChecklistForm};
ghost use Rattle.rpki_files.specs.Manifest.{ManifestForm};
ghost use Rattle.rpki_files.specs.Checklist.Checks.{checklist_kind};
ghost use Rattle.rpki_files.specs.Manifest.Checks.{manifest_kind};
ghost use Rattle.rpki_routes.specs.Roa.Form.{RoaForm};
ghost use Rattle.rpki_routes.specs.Roa.Checks.{RoaCovered, roa_kind};
ghost use Rattle.rpki_signed.specs.Exact.{IsExact};
ghost use Rattle.rpki_examples.specs.Received.{IsUnrevoked, SaysOf, SaysAs, LooksInto};

use crate::files::{attests, names_octets};
use bytes::Bytes;
use rpki::cert::{Cert, ResourceCert};
use rpki::check::{self, CheckError};
use rpki::crl::Crl;
use rpki::crypto::Crypto;
use rpki::error::{ValidationError, VerificationError};
use rpki::manifest::{ManifestContent, ManifestRule};
use rpki::roa::RouteOriginAttestation;
use rpki::rsc::ResourceSignedChecklist;
use rpki::x509::Time;
use std::alloc::Global;

/// Verifies that a list does not revoke the certificate of an end entity. Where it does, that is
/// the caller's own refusal: `Revoked` is said of the paths of attestations.
pub fn verify_unrevoked(list: &Crl, cert: &Cert) -> Result<(), ValidationError>
    ensures { SaysOf list.now.list cert.now result }
{
    if list.contains(cert.serial_number()) {
        return Err(ValidationError::Verification(VerificationError::Caller));
    }
    Ok(())
}

// Whether the octets begin with a good ROA in DER, with what `ask` says of its certificate. Where
// `ask` says what a list says, the answer is that by the list.
fn roa_asking<C: Crypto, F: FnOnce(&Cert) -> Result<(), ValidationError>>(
    alloc: Global,
    octets: Bytes,
    issuer: &ResourceCert,
    crypto: &C,
    now: Time,
    ask: F,
) -> Result<(ResourceCert, RouteOriginAttestation), CheckError>
    requires { (k : KeptCertificate) → FnOnceTakesAt F.FnOnce ask k }
    ensures { (list : RevocationList) → SaysAs (FnOnceReturnsAt F.FnOnce ask) list
        → IsExact roa_kind RoaForm Der (C.digest_of crypto.now) (C.is_signed crypto.now)
        issuer.now now (SaysOf list) octets result }
{
    check::roa(alloc, octets, true, issuer, crypto, now, ask)
}

/// What the ROA at the front of octets in DER says, and its certificate, where it is good under an
/// issuer and `ask` says yes. `ask` may rely on it that the certificate is valid under the issuer
/// at this moment: it is asked about no other.
pub fn roa_relying<C: Crypto, F: FnOnce(&Cert) -> Result<(), ValidationError>>(
    alloc: Global,
    octets: Bytes,
    issuer: &ResourceCert,
    crypto: &C,
    now: Time,
    ask: F,
) -> Result<(ResourceCert, RouteOriginAttestation), CheckError>
    requires { (k : KeptCertificate)
        → IsGoodUnder (C.is_signed crypto.now) k.certificate issuer.now now
        → FnOnceTakesAt F.FnOnce ask k }
    ensures { IsExact roa_kind RoaForm Der (C.digest_of crypto.now) (C.is_signed crypto.now)
        issuer.now now (FnOnceReturnsAt F.FnOnce ask) octets result }
{
    let strict = true;
    check::roa(alloc, octets, strict, issuer, crypto, now, ask)
}

// Whether the octets begin with a good manifest in DER with registered names, as `roa_asking` says
// of a ROA.
fn manifest_asking<C: Crypto, F: FnOnce(&Cert) -> Result<(), ValidationError>>(
    alloc: Global,
    octets: Bytes,
    issuer: &ResourceCert,
    crypto: &C,
    now: Time,
    ask: F,
) -> Result<(ResourceCert, ManifestContent), CheckError>
    requires { (k : KeptCertificate) → FnOnceTakesAt F.FnOnce ask k }
    ensures { (list : RevocationList) → SaysAs (FnOnceReturnsAt F.FnOnce ask) list
        → IsExact manifest_kind (ManifestForm ManifestRule.Registered Der) Der
        (C.digest_of crypto.now) (C.is_signed crypto.now) issuer.now now (SaysOf list) octets
        result }
{
    check::manifest(
        alloc,
        octets,
        true,
        issuer,
        crypto,
        now,
        ask,
        ManifestRule::Registered,
    )
}

// Whether the octets begin with a good checklist in DER, as `roa_asking` says of a ROA.
fn checklist_asking<C: Crypto, F: FnOnce(&Cert) -> Result<(), ValidationError>>(
    alloc: Global,
    octets: Bytes,
    issuer: &ResourceCert,
    crypto: &C,
    now: Time,
    ask: F,
) -> Result<(ResourceCert, ResourceSignedChecklist), CheckError>
    requires { (k : KeptCertificate) → FnOnceTakesAt F.FnOnce ask k }
    ensures { (list : RevocationList) → SaysAs (FnOnceReturnsAt F.FnOnce ask) list
        → IsExact checklist_kind (ChecklistForm Der) Der (C.digest_of crypto.now)
        (C.is_signed crypto.now) issuer.now now (SaysOf list) octets result }
{
    check::rsc(alloc, octets, true, issuer, crypto, now, ask)
}

/// What the ROA at the front of octets in DER says, and its certificate with its numbers, where it
/// is good under an issuer and the list does not revoke it. The certificate has each prefix.
pub fn roa_under<C: Crypto>(
    alloc: Global,
    octets: Bytes,
    issuer: &ResourceCert,
    list: &Crl,
    crypto: &C,
    now: Time,
) -> Result<(ResourceCert, RouteOriginAttestation), CheckError>
    ensures exact { IsExact roa_kind RoaForm Der (C.digest_of crypto.now) (C.is_signed crypto.now)
        issuer.now now (SaysOf list.now.list) octets result }
    ensures held { IfOk result (λ a. RoaCovered a.1 a.0.sets
        × IsUnrevoked list.now.list a.0.cert.certificate) }
{
    roa_asking(
        alloc,
        octets,
        issuer,
        crypto,
        now,
        |cert| verify_unrevoked(list, cert),
    )
}

/// What the manifest at the front of octets in DER says, and its certificate, where it is good
/// under an issuer and the list does not revoke it. The names of its files are registered ones.
pub fn manifest_under<C: Crypto>(
    alloc: Global,
    octets: Bytes,
    issuer: &ResourceCert,
    list: &Crl,
    crypto: &C,
    now: Time,
) -> Result<(ResourceCert, ManifestContent), CheckError>
    ensures { IsExact manifest_kind (ManifestForm ManifestRule.Registered Der) Der
        (C.digest_of crypto.now) (C.is_signed crypto.now) issuer.now now (SaysOf list.now.list)
        octets result }
{
    manifest_asking(
        alloc,
        octets,
        issuer,
        crypto,
        now,
        |cert| verify_unrevoked(list, cert),
    )
}

/// Whether the manifest at the front of octets in DER, which is good under an issuer and which the
/// list does not revoke, has a file with this name and these octets.
pub fn is_in_manifest<C: Crypto>(
    alloc: Global,
    octets: Bytes,
    issuer: &ResourceCert,
    list: &Crl,
    crypto: &C,
    now: Time,
    name: &[u8],
    file: &[u8],
) -> Result<bool, CheckError>
    ensures { LooksInto manifest_kind (ManifestForm ManifestRule.Registered Der)
        (C.digest_of crypto.now) (C.is_signed crypto.now) issuer.now now list.now.list
        (λ yes m. IsTrue yes ↔ Contains m.files
        (record { file = name.now; hash = C.digest_of crypto.now file.now })) octets result }
{
    match manifest_under(alloc, octets, issuer, list, crypto, now) {
        Err(e) => Err(e),
        Ok((cert, manifest)) => {
            drop(cert);
            let is_named = names_octets(&manifest, crypto, name, file);
            drop(manifest);
            Ok(is_named)
        }
    }
}

/// What the checklist at the front of octets in DER says, and its certificate with its numbers,
/// where it is good under an issuer and the list does not revoke it.
pub fn checklist_under<C: Crypto>(
    alloc: Global,
    octets: Bytes,
    issuer: &ResourceCert,
    list: &Crl,
    crypto: &C,
    now: Time,
) -> Result<(ResourceCert, ResourceSignedChecklist), CheckError>
    ensures { IsExact checklist_kind (ChecklistForm Der) Der (C.digest_of crypto.now)
        (C.is_signed crypto.now) issuer.now now (SaysOf list.now.list) octets result }
{
    checklist_asking(
        alloc,
        octets,
        issuer,
        crypto,
        now,
        |cert| verify_unrevoked(list, cert),
    )
}

/// Whether the checklist at the front of octets in DER, which is good under an issuer and which the
/// list does not revoke, attests a document, under whatever name.
pub fn is_attested<C: Crypto>(
    alloc: Global,
    octets: Bytes,
    issuer: &ResourceCert,
    list: &Crl,
    crypto: &C,
    now: Time,
    document: &[u8],
) -> Result<bool, CheckError>
    ensures { LooksInto checklist_kind (ChecklistForm Der) (C.digest_of crypto.now)
        (C.is_signed crypto.now) issuer.now now list.now.list (λ yes l. IsTrue yes
        ↔ Any (λ file. file.hash ≡ C.digest_of crypto.now document.now) l.files) octets result }
{
    match checklist_under(alloc, octets, issuer, list, crypto, now) {
        Err(e) => Err(e),
        Ok((cert, checklist)) => {
            drop(cert);
            let is_listed = attests(&checklist, crypto, document);
            drop(checklist);
            Ok(is_listed)
        }
    }
}
