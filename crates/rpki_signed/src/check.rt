//! Whether octets are a good object, under a validated issuer, at a moment.

ghost use Rattle.std.specs.Prelude.{IfErr, Some, map};
ghost use Rattle.std.specs.Fn.{FnOnceTakesAt, FnOnceReturnsAt};
ghost use Rattle.rpki_sigobj.specs.Object.{mode_of};
ghost use Rattle.rpki_der.specs.declared.mode.Mode.TheVariants.{Der};
ghost use Rattle.rpki_files.specs.Checklist.{ChecklistForm};
ghost use Rattle.rpki_files.specs.Manifest.{ManifestForm};
ghost use Rattle.rpki_files.specs.Checklist.Checks.{checklist_kind};
ghost use Rattle.rpki_files.specs.Manifest.Checks.{manifest_kind};
ghost use Rattle.rpki_routes.specs.Aspa.Form.{AspaForm};
ghost use Rattle.rpki_routes.specs.Roa.Form.{RoaForm};
ghost use Rattle.rpki_routes.specs.Aspa.Checks.{aspa_kind};
ghost use Rattle.rpki_routes.specs.Roa.Checks.{roa_kind};
ghost use Rattle.rpki_multi.specs.Attestation.{whole_of};
ghost use Rattle.rpki_rta.specs.Granted.{GrantsRta};
ghost use Rattle.rpki_rta.specs.Refused.{WhyNotGrantedRta, supply_in};
ghost use Rattle.rpki_signed.specs.Attested.{IsExactRta, IsFirstOfRta};
ghost use Rattle.rpki_signed.specs.Check.{MayAsk, Checks, ChecksContent};
ghost use Rattle.rpki_signed.specs.Exact.{IsExact};
ghost use Rattle.rpki_signed.specs.Text.{check_text};

use bytes::Bytes;
use rpki_basics::{Crypto, ManifestRule, ProviderLimit, Time};
use rpki_certs::{Cert, ResourceCert};
use rpki_der::DecodeError;
use rpki_faults::ValidationError;
use rpki_files::{ManifestContent, ResourceSignedChecklist};
use rpki_multi::Rta;
use rpki_routes::{AsProviderAttestation, RouteOriginAttestation};
use rpki_rta::{Supply, run};
use rpki_sigobj::{Content, Signed};
use std::alloc::Global;
use std::error::Error;
use std::fmt;

/// Why octets are not a good object.
#[derive(Debug, Drop)]
pub enum CheckError {
    /// They don't begin with an object of the kind, or memory ran out.
    Decode(DecodeError),
    /// They begin with one, and a check of it fails.
    Validation(ValidationError),
}

impl fmt::Display for CheckError {
    ghost output = { λ error. Some (check_text error) };

    fn fmt<W: fmt::Write>(&self, f: &mut fmt::Formatter<W>) -> fmt::Result {
        match self {
            CheckError::Decode(error) => error.fmt(f),
            CheckError::Validation(error) => error.fmt(f),
        }
    }
}

impl Error for CheckError {}

// Checks the object at the front of the octets, whose content is read by this rule.
fn check_front<T: Content, C: Crypto, F: FnOnce(&Cert) -> Result<(), ValidationError>>(
    alloc: Global,
    bytes: Bytes,
    strict: bool,
    issuer: &ResourceCert,
    crypto: &C,
    now: Time,
    check_crl: F,
    rule: T::Rule,
) -> Result<(ResourceCert, T), CheckError>
    requires { MayAsk T.kind (T.form rule) (mode_of strict) (C.digest_of crypto.now)
        (C.is_signed crypto.now) issuer.now now (FnOnceTakesAt F.FnOnce check_crl) bytes }
    ensures { ChecksContent T.is_content T.kind (T.form rule) (mode_of strict)
        (C.digest_of crypto.now) (C.is_signed crypto.now) issuer.now now
        (FnOnceReturnsAt F.FnOnce check_crl) bytes result }
{
    match Signed::<T>::decode(alloc, bytes, strict, rule) {
        Err(e) => Err(CheckError::Decode(e)),
        Ok(object) => match object.process_at(alloc, issuer, strict, crypto, now, check_crl) {
            Err(e) => Err(CheckError::Validation(e)),
            Ok(checked) => Ok(checked),
        },
    }
}

/// Whether the octets begin with a good object whose content is of this type and is read by this
/// rule. What is checked of such objects is said by their kind (`Content`). Answers, refuses and
/// calls `check_crl` as `roa` does for a ROA.
pub fn object<T: Content, C: Crypto, F: FnOnce(&Cert) -> Result<(), ValidationError>>(
    alloc: Global,
    bytes: Bytes,
    strict: bool,
    issuer: &ResourceCert,
    crypto: &C,
    now: Time,
    check_crl: F,
    rule: T::Rule,
) -> Result<(ResourceCert, T), CheckError>
    requires { MayAsk T.kind (T.form rule) (mode_of strict) (C.digest_of crypto.now)
        (C.is_signed crypto.now) issuer.now now (FnOnceTakesAt F.FnOnce check_crl) bytes }
    ensures first { Checks T.kind (T.form rule) (mode_of strict) (C.digest_of crypto.now)
        (C.is_signed crypto.now) issuer.now now (FnOnceReturnsAt F.FnOnce check_crl) bytes result }
    ensures exact { IsExact T.kind (T.form rule) (mode_of strict) (C.digest_of crypto.now)
        (C.is_signed crypto.now) issuer.now now (FnOnceReturnsAt F.FnOnce check_crl) bytes result }
{
    T::meaning();
    check_front(alloc, bytes, strict, issuer, crypto, now, check_crl, rule)
}

/// Whether the octets begin with a good manifest (RFC 9286) with the names that the rule takes. A
/// manifest claims no numbers. Answers and refuses as `roa` does for a ROA.
pub fn manifest<C: Crypto, F: FnOnce(&Cert) -> Result<(), ValidationError>>(
    alloc: Global,
    bytes: Bytes,
    strict: bool,
    issuer: &ResourceCert,
    crypto: &C,
    now: Time,
    check_crl: F,
    rule: ManifestRule,
) -> Result<(ResourceCert, ManifestContent), CheckError>
    requires { MayAsk manifest_kind (ManifestForm rule Der) (mode_of strict)
        (C.digest_of crypto.now) (C.is_signed crypto.now) issuer.now now
        (FnOnceTakesAt F.FnOnce check_crl) bytes }
    ensures first { Checks manifest_kind (ManifestForm rule Der) (mode_of strict)
        (C.digest_of crypto.now) (C.is_signed crypto.now) issuer.now now
        (FnOnceReturnsAt F.FnOnce check_crl) bytes result }
    ensures exact { IsExact manifest_kind (ManifestForm rule Der) (mode_of strict)
        (C.digest_of crypto.now) (C.is_signed crypto.now) issuer.now now
        (FnOnceReturnsAt F.FnOnce check_crl) bytes result }
{
    object(alloc, bytes, strict, issuer, crypto, now, check_crl, rule)
}

/// Whether the octets begin with a good ROA (RFC 9582), read strictly, in DER, or in BER, under
/// this issuer and at this moment: the answer is its validated certificate and what it says.
///
/// A yes means that the octets begin with a ROA, that each check of `Roa::process` holds, what
/// `check_crl` says of its certificate among them, and that the certificate has the addresses of
/// each of its prefixes. Unless memory runs out, the answer is a yes exactly there, `Decode`
/// exactly where the octets begin with no ROA, and `Validation`, with the fault of the first check
/// that fails, exactly where they do and one fails. `check_crl` is called once at most, where each
/// check before it holds.
pub fn roa<C: Crypto, F: FnOnce(&Cert) -> Result<(), ValidationError>>(
    alloc: Global,
    bytes: Bytes,
    strict: bool,
    issuer: &ResourceCert,
    crypto: &C,
    now: Time,
    check_crl: F,
) -> Result<(ResourceCert, RouteOriginAttestation), CheckError>
    requires { MayAsk roa_kind RoaForm (mode_of strict) (C.digest_of crypto.now)
        (C.is_signed crypto.now) issuer.now now (FnOnceTakesAt F.FnOnce check_crl) bytes }
    ensures first { Checks roa_kind RoaForm (mode_of strict) (C.digest_of crypto.now)
        (C.is_signed crypto.now) issuer.now now (FnOnceReturnsAt F.FnOnce check_crl) bytes result }
    ensures exact { IsExact roa_kind RoaForm (mode_of strict) (C.digest_of crypto.now)
        (C.is_signed crypto.now) issuer.now now (FnOnceReturnsAt F.FnOnce check_crl) bytes result }
{
    object(alloc, bytes, strict, issuer, crypto, now, check_crl, ())
}

/// Whether the octets begin with a good ASPA (draft-ietf-sidrops-aspa-profile-15) with at most as
/// many providers as the limit says: its certificate claims the customer and nothing else, and has
/// it once it was validated. Answers and refuses as `roa` does for a ROA.
pub fn aspa<C: Crypto, F: FnOnce(&Cert) -> Result<(), ValidationError>>(
    alloc: Global,
    bytes: Bytes,
    strict: bool,
    issuer: &ResourceCert,
    crypto: &C,
    now: Time,
    check_crl: F,
    limit: ProviderLimit,
) -> Result<(ResourceCert, AsProviderAttestation), CheckError>
    requires { MayAsk aspa_kind (AspaForm limit) (mode_of strict) (C.digest_of crypto.now)
        (C.is_signed crypto.now) issuer.now now (FnOnceTakesAt F.FnOnce check_crl) bytes }
    ensures first { Checks aspa_kind (AspaForm limit) (mode_of strict) (C.digest_of crypto.now)
        (C.is_signed crypto.now) issuer.now now (FnOnceReturnsAt F.FnOnce check_crl) bytes result }
    ensures exact { IsExact aspa_kind (AspaForm limit) (mode_of strict) (C.digest_of crypto.now)
        (C.is_signed crypto.now) issuer.now now (FnOnceReturnsAt F.FnOnce check_crl) bytes result }
{
    object(alloc, bytes, strict, issuer, crypto, now, check_crl, limit)
}

/// Whether the octets begin with a good signed checklist (RFC 9323): its certificate, which need
/// not say where the checklist is published, claims the numbers of the checklist and has them once
/// it was validated. Answers and refuses as `roa` does for a ROA.
pub fn rsc<C: Crypto, F: FnOnce(&Cert) -> Result<(), ValidationError>>(
    alloc: Global,
    bytes: Bytes,
    strict: bool,
    issuer: &ResourceCert,
    crypto: &C,
    now: Time,
    check_crl: F,
) -> Result<(ResourceCert, ResourceSignedChecklist), CheckError>
    requires { MayAsk checklist_kind (ChecklistForm Der) (mode_of strict) (C.digest_of crypto.now)
        (C.is_signed crypto.now) issuer.now now (FnOnceTakesAt F.FnOnce check_crl) bytes }
    ensures first { Checks checklist_kind (ChecklistForm Der) (mode_of strict)
        (C.digest_of crypto.now) (C.is_signed crypto.now) issuer.now now
        (FnOnceReturnsAt F.FnOnce check_crl) bytes result }
    ensures exact { IsExact checklist_kind (ChecklistForm Der) (mode_of strict)
        (C.digest_of crypto.now) (C.is_signed crypto.now) issuer.now now
        (FnOnceReturnsAt F.FnOnce check_crl) bytes result }
{
    object(alloc, bytes, strict, issuer, crypto, now, check_crl, ())
}

// Validates an attestation under these supplies.
fn granted<C: Crypto>(
    alloc: Global,
    rta: &Rta,
    strict: bool,
    crypto: &C,
    now: Time,
    supplies: &[Supply<'_>],
) -> Result<(), ValidationError>
    ensures granted { GrantsRta (C.digest_of crypto.now) (C.is_signed crypto.now) now
        (map supply_in supplies.now) (whole_of rta.now) result }
    ensures first { IfErr result (WhyNotGrantedRta C.digest_of C.is_signed crypto.now now rta.now
        supplies.now) }
{
    match run(alloc, rta, strict, crypto, now, supplies) {
        Err(fault) => Err(fault),
        Ok(_) => Ok(()),
    }
}

/// Whether the octets begin with a multi-signed attestation (draft-michaelson-rpki-rta), read in
/// DER, that is granted at this moment under these supplies: trust anchor locators, and CAs that
/// were validated elsewhere. The answer is the attestation. `strict` changes nothing.
///
/// A yes means that every certificate that is carried is valid, that signers, certificates and
/// revocation lists pair off, that each signer states the digest of the content, that the
/// certificate of each signer has a path of signed and unrevoked certificates, whose links are
/// covered where they have to be, up to one that a supply anchors, that each carried CA stands on
/// one of these paths, and that each attested set is the union, over the signers, of the numbers of
/// their paths. If no two carried CAs have one key identifier, and certificates of end entities
/// that share one have one key, a yes is answered exactly there, unless memory runs out. Refuses by
/// `Decode` exactly where the octets begin with no attestation, and by `Validation` as
/// `rpki_rta::run` does, or by want of memory.
pub fn rta<C: Crypto>(
    alloc: Global,
    bytes: Bytes,
    strict: bool,
    crypto: &C,
    now: Time,
    supplies: &[Supply<'_>],
) -> Result<Rta, CheckError>
    ensures first { IfErr result (IsFirstOfRta C.digest_of C.is_signed crypto.now now
        supplies.now bytes) }
    ensures exact { IsExactRta (C.digest_of crypto.now) (C.is_signed crypto.now) now
        (map supply_in supplies.now) bytes result }
{
    match Rta::decode(alloc, bytes) {
        Err(e) => Err(CheckError::Decode(e)),
        Ok(rta) => match granted(alloc, &rta, strict, crypto, now, supplies) {
            Err(fault) => {
                drop(rta);
                Err(CheckError::Validation(fault))
            }
            Ok(()) => Ok(rta),
        },
    }
}
