//! The members of a certificate.

use crate::json::blocks::{put_as_blocks, put_inherited, put_ip_blocks};
use crate::json::unshown::{Unshown, refusal, shown};
use crate::json::values::{Members, put_serial, put_shown, put_text};
use bytes::Bytes;
use rpki_basics::{Https, Rsync};
use rpki_certs::Cert;
use rpki_resources::{AddressFamily, AsResources, Claim, IpResources};
use serde_json::{Map, Value, put};
use std::alloc::{AllocError, Global};

/// The members of the certificate at the front of the octets, if there is one: `cert_serial`,
/// `valid_since`, `valid_until`, `ski`, `aki`, `ca`; where something lies, `carepository`,
/// `manifest`, `notify_url`, `sia`, `aia` and `crl`, each where there is one; and `asns`, `ipv4` and
/// `ipv6`, each a list of blocks or of the word `inherit`, where it is claimed.
pub fn certificate_members(alloc: Global, octets: Bytes) -> Result<Members, Unshown> {
    match Cert::decode(alloc, octets) {
        Err(error) => Err(refusal(alloc, error)),
        Ok(cert) => {
            let members = of_certificate(alloc, &cert);
            drop(cert);
            members
        }
    }
}

/// The members of a certificate.
fn of_certificate(alloc: Global, cert: &Cert) -> Result<Members, Unshown> {
    let mut members = Map::new(alloc);
    let filled = put_certificate(alloc, &mut members, cert);
    shown(filled, members)
}

/// Puts the members of a certificate.
pub fn put_certificate(
    alloc: Global,
    members: &mut Members,
    cert: &Cert,
) -> Result<(), AllocError> {
    put_facts(alloc, members, cert)?;
    put(members, alloc, "ca", Value::from(is_ca(cert)))?;
    put_as_claim(alloc, members, "asns", cert.as_resources())?;
    let v4 = cert.v4_resources();
    put_ip_claim(alloc, members, "ipv4", AddressFamily::Ipv4, v4)?;
    let v6 = cert.v6_resources();
    put_ip_claim(alloc, members, "ipv6", AddressFamily::Ipv6, v6)
}

/// Puts the members of a certificate that signed something: no `ca`, and its numbers under
/// `cert_asns`, `cert_ipv4` and `cert_ipv6`.
pub fn put_signer(alloc: Global, members: &mut Members, cert: &Cert) -> Result<(), AllocError> {
    put_facts(alloc, members, cert)?;
    put_as_claim(alloc, members, "cert_asns", cert.as_resources())?;
    let v4 = cert.v4_resources();
    put_ip_claim(alloc, members, "cert_ipv4", AddressFamily::Ipv4, v4)?;
    let v6 = cert.v6_resources();
    put_ip_claim(alloc, members, "cert_ipv6", AddressFamily::Ipv6, v6)
}

/// Whether its subject is a CA.
fn is_ca(cert: &Cert) -> bool {
    matches!(cert.basic_ca(), Some(true))
}

/// Puts the serial number, the validity, the identifiers of keys, and where something lies.
fn put_facts(alloc: Global, members: &mut Members, cert: &Cert) -> Result<(), AllocError> {
    put_serial(alloc, members, "cert_serial", cert.serial_number())?;
    let validity = cert.validity();
    put_shown(alloc, members, "valid_since", &validity.not_before())?;
    put_shown(alloc, members, "valid_until", &validity.not_after())?;
    put_shown(alloc, members, "ski", &cert.subject_key_identifier())?;
    if let Some(key) = cert.authority_key_identifier() {
        put_shown(alloc, members, "aki", &key)?;
    }
    put_locations(alloc, members, cert)
}

/// Puts where something lies.
fn put_locations(alloc: Global, members: &mut Members, cert: &Cert) -> Result<(), AllocError> {
    put_rsync(alloc, members, "carepository", cert.ca_repository())?;
    put_rsync(alloc, members, "manifest", cert.rpki_manifest())?;
    put_https(alloc, members, "notify_url", cert.rpki_notify())?;
    put_rsync(alloc, members, "sia", cert.signed_object())?;
    put_rsync(alloc, members, "aia", cert.ca_issuer())?;
    put_rsync(alloc, members, "crl", cert.crl_uri())
}

/// Puts an rsync URI, if there is one.
fn put_rsync(
    alloc: Global,
    members: &mut Members,
    name: &str,
    uri: Option<&Rsync>,
) -> Result<(), AllocError> {
    match uri {
        None => Ok(()),
        Some(uri) => put_text(alloc, members, name, uri.as_str()),
    }
}

/// Puts an https URI, if there is one.
fn put_https(
    alloc: Global,
    members: &mut Members,
    name: &str,
    uri: Option<&Https>,
) -> Result<(), AllocError> {
    match uri {
        None => Ok(()),
        Some(uri) => put_text(alloc, members, name, uri.as_str()),
    }
}

/// Puts the AS numbers, if they are claimed.
fn put_as_claim(
    alloc: Global,
    members: &mut Members,
    name: &str,
    claim: &AsResources,
) -> Result<(), AllocError> {
    match claim.claim() {
        Claim::Missing => Ok(()),
        Claim::Inherit => put_inherited(alloc, members, name),
        Claim::Explicit(blocks) => put_as_blocks(alloc, members, name, blocks),
    }
}

/// Puts the addresses of this family, if they are claimed.
fn put_ip_claim(
    alloc: Global,
    members: &mut Members,
    name: &str,
    family: AddressFamily,
    claim: &IpResources,
) -> Result<(), AllocError> {
    match claim.claim() {
        Claim::Missing => Ok(()),
        Claim::Inherit => put_inherited(alloc, members, name),
        Claim::Explicit(blocks) => put_ip_blocks(alloc, members, name, family, blocks),
    }
}
