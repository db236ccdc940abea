//! Certificates and objects that a CA issued and did not revoke.

ghost use Rattle.std.specs.Prelude.{Ok};
ghost use Rattle.std.specs.Fn.{FnOnceTakesAt, FnOnceReturnsAt};
ghost use Rattle.rpki_der.specs.declared.mode.Mode.TheVariants.{Der};
ghost use Rattle.rpki_crls.specs.Crl.{RevocationList};
ghost use Rattle.rpki_certs.specs.Cert.{KeptCertificate};
ghost use Rattle.rpki_certs.specs.Issuer.{IsIssued};
ghost use Rattle.rpki_routes.specs.Aspa.Form.{AspaForm};
ghost use Rattle.rpki_routes.specs.Aspa.Checks.{aspa_kind};
ghost use Rattle.rpki_routes.specs.Roa.Form.{RoaForm};
ghost use Rattle.rpki_routes.specs.Roa.Checks.{roa_kind};
ghost use Rattle.rpki_signed.specs.Check.{Checks};
ghost use Rattle.rpki_signed.specs.Exact.{IsExact};
ghost use Rattle.rpki_relying_party.specs.Under.{SaysOf, SaysAs, IsCaUnder};

use crate::revoked::SortedCrl;
use bytes::Bytes;
use rpki_basics::{Crypto, ProviderLimit, Time};
use rpki_certs::{Cert, IssuerError, ResourceCert};
use rpki_faults::{ValidationError, VerificationError};
use rpki_routes::{AsProviderAttestation, RouteOriginAttestation};
use rpki_signed::check::{self, CheckError};
use std::alloc::Global;

// Verifies that a list does not revoke a certificate. Where it does, that is the caller's refusal.
fn verify_unrevoked(list: &SortedCrl, cert: &Cert) -> Result<(), ValidationError>
    ensures { SaysOf list.now.list cert.now result }
{
    if list.contains(cert.serial_number()) {
        return Err(ValidationError::Verification(VerificationError::Caller));
    }
    Ok(())
}

// Whether the octets begin with a good ROA in DER, with what `ask` says of its certificate. Where
// `ask` says what a list says, the answer is that by the list.
fn roa_asking<C: Crypto, F: FnOnce(&Cert) -> Result<(), ValidationError>>(
    alloc: Global,
    octets: Bytes,
    issuer: &ResourceCert,
    crypto: &C,
    now: Time,
    ask: F,
) -> Result<(ResourceCert, RouteOriginAttestation), CheckError>
    requires { (k : KeptCertificate) → FnOnceTakesAt F.FnOnce ask k }
    ensures first { (list : RevocationList) → SaysAs (FnOnceReturnsAt F.FnOnce ask) list
        → Checks roa_kind RoaForm Der (C.digest_of crypto.now) (C.is_signed crypto.now)
        issuer.now now (SaysOf list) octets result }
    ensures exact { (list : RevocationList) → SaysAs (FnOnceReturnsAt F.FnOnce ask) list
        → IsExact roa_kind RoaForm Der (C.digest_of crypto.now) (C.is_signed crypto.now)
        issuer.now now (SaysOf list) octets result }
{
    check::roa(alloc, octets, true, issuer, crypto, now, ask)
}

// Whether the octets begin with a good ASPA in DER, as `roa_asking` says of a ROA.
fn aspa_asking<C: Crypto, F: FnOnce(&Cert) -> Result<(), ValidationError>>(
    alloc: Global,
    octets: Bytes,
    issuer: &ResourceCert,
    crypto: &C,
    now: Time,
    ask: F,
    limit: ProviderLimit,
) -> Result<(ResourceCert, AsProviderAttestation), CheckError>
    requires { (k : KeptCertificate) → FnOnceTakesAt F.FnOnce ask k }
    ensures first { (list : RevocationList) → SaysAs (FnOnceReturnsAt F.FnOnce ask) list
        → Checks aspa_kind (AspaForm limit) Der (C.digest_of crypto.now) (C.is_signed crypto.now)
        issuer.now now (SaysOf list) octets result }
    ensures exact { (list : RevocationList) → SaysAs (FnOnceReturnsAt F.FnOnce ask) list
        → IsExact aspa_kind (AspaForm limit) Der (C.digest_of crypto.now) (C.is_signed crypto.now)
        issuer.now now (SaysOf list) octets result }
{
    check::aspa(alloc, octets, true, issuer, crypto, now, ask, limit)
}

/// What the ROA at the front of octets in DER says, and its certificate with its numbers, where it
/// is good under an issuer and the list does not revoke it (RFC 9582, section 5, but for what it
/// asks of the certificate's own claims, which `names_prefixes_alone` looks at). A refusal is that
/// of the first check that fails.
pub fn roa_under<C: Crypto>(
    alloc: Global,
    octets: Bytes,
    issuer: &ResourceCert,
    list: &SortedCrl,
    crypto: &C,
    now: Time,
) -> Result<(ResourceCert, RouteOriginAttestation), CheckError>
    ensures first { Checks roa_kind RoaForm Der (C.digest_of crypto.now) (C.is_signed crypto.now)
        issuer.now now (SaysOf list.now.list) octets result }
    ensures exact { IsExact roa_kind RoaForm Der (C.digest_of crypto.now) (C.is_signed crypto.now)
        issuer.now now (SaysOf list.now.list) octets result }
{
    roa_asking(
        alloc,
        octets,
        issuer,
        crypto,
        now,
        |cert| verify_unrevoked(list, cert),
    )
}

/// What the ASPA at the front of octets in DER says, and its certificate with its numbers, where it
/// is good under an issuer and the list does not revoke it. A refusal is that of the first check
/// that fails.
pub fn aspa_under<C: Crypto>(
    alloc: Global,
    octets: Bytes,
    issuer: &ResourceCert,
    list: &SortedCrl,
    crypto: &C,
    now: Time,
    limit: ProviderLimit,
) -> Result<(ResourceCert, AsProviderAttestation), CheckError>
    ensures first { Checks aspa_kind (AspaForm limit) Der (C.digest_of crypto.now)
        (C.is_signed crypto.now) issuer.now now (SaysOf list.now.list) octets result }
    ensures exact { IsExact aspa_kind (AspaForm limit) Der (C.digest_of crypto.now)
        (C.is_signed crypto.now) issuer.now now (SaysOf list.now.list) octets result }
{
    aspa_asking(
        alloc,
        octets,
        issuer,
        crypto,
        now,
        |cert| verify_unrevoked(list, cert),
        limit,
    )
}

// The certificate of a CA at the front of octets in DER, where it is valid under an issuer.
fn ca_in<C: Crypto>(
    alloc: Global,
    octets: Bytes,
    issuer: &ResourceCert,
    crypto: &C,
    now: Time,
) -> Result<ResourceCert, IssuerError>
    ensures { IsIssued (C.is_signed crypto.now) now issuer.now octets result }
{
    match Cert::decode(alloc, octets) {
        Err(error) => Err(IssuerError::Decode(error)),
        Ok(cert) => match cert.validate_ca_at(alloc, issuer, true, crypto, now) {
            Err(error) => Err(IssuerError::Validation(error)),
            Ok(valid) => Ok(valid),
        },
    }
}

/// The certificate of a CA at the front of octets in DER, with its numbers, where it is valid under
/// an issuer (RFC 6487, section 7.2) and the list does not revoke it. A refusal is that of the
/// first check that fails, and whether the list revokes it is the last one.
pub fn ca_under<C: Crypto>(
    alloc: Global,
    octets: Bytes,
    issuer: &ResourceCert,
    list: &SortedCrl,
    crypto: &C,
    now: Time,
) -> Result<ResourceCert, IssuerError>
    ensures { IsCaUnder (C.is_signed crypto.now) now issuer.now list.now.list octets result }
{
    match ca_in(alloc, octets, issuer, crypto, now) {
        Err(error) => Err(error),
        Ok(valid) => match verify_unrevoked(list, valid.cert()) {
            Err(error) => {
                drop(valid);
                Err(IssuerError::Validation(error))
            }
            Ok(()) => Ok(valid),
        },
    }
}
