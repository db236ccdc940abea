//! The lines of a certificate.

ghost use Rattle.std.specs.Prelude.{codes};
ghost use Rattle.rpki_show.specs.Grows.{Grows};
ghost use Rattle.rpki_show.specs.Texts.Blocks.{as_lines};
ghost use Rattle.rpki_show.specs.Texts.Certificate.{certificate_text, issued_text, key_text};
ghost use Rattle.rpki_show.specs.Texts.Certificate.{authority_line, subject_line, locations_text};
ghost use Rattle.rpki_show.specs.Texts.Certificate.{claims_text, claim_lines, facts_text};
ghost use Rattle.rpki_show.specs.Texts.Certificate.{ipv4_lines, ipv6_lines, access_text};
ghost use Rattle.rpki_show.specs.Texts.Named.{uri_line};

use crate::texts::blocks::push_numbers;
use crate::texts::lines::push_each;
use crate::texts::named::{push_https, push_key, push_moment, push_rsync, push_serial};
use rpki_basics::KeyIdentifier;
use rpki_certs::Cert;
use rpki_resources::{AddressFamily, AsResources, Claim, IpBlocks, IpResources};
use std::alloc::{AllocError, Global};
use std::fmt::Write;

/// Appends the lines of a certificate. Refuses where memory runs out.
pub fn push_certificate(alloc: Global, text: &mut String, cert: &Cert) -> Result<(), AllocError>
    ensures { Grows result text.old text.new (certificate_text cert.now.certificate) }
{
    write!(text, "certificate\n")?;
    push_facts(alloc, text, cert)
}

/// Appends the lines of a certificate after that of its kind. Refuses where memory runs out.
fn push_facts(alloc: Global, text: &mut String, cert: &Cert) -> Result<(), AllocError>
    ensures { Grows result text.old text.new (facts_text cert.now.certificate) }
{
    push_issued(alloc, text, cert)?;
    push_keys(text, cert)?;
    push_locations(text, cert)?;
    push_claims(text, cert)
}

/// Appends the lines of the serial number and of the validity.
fn push_issued(alloc: Global, text: &mut String, cert: &Cert) -> Result<(), AllocError>
    ensures { Grows result text.old text.new (issued_text cert.now.certificate.tbs) }
{
    push_serial(alloc, text, "serial", cert.serial_number())?;
    let validity = cert.validity();
    push_moment(text, "valid-from", validity.not_before())?;
    push_moment(text, "valid-until", validity.not_after())
}

/// Appends the lines of the identifiers of keys, and that of what its subject is.
fn push_keys(text: &mut String, cert: &Cert) -> Result<(), AllocError>
    ensures { Grows result text.old text.new (key_text cert.now.certificate.tbs.extensions.key) }
{
    push_key(text, "key-id", cert.subject_key_identifier())?;
    push_authority(text, cert.authority_key_identifier())?;
    push_subject(text, cert.basic_ca())
}

/// Appends the line of the identifier of the issuer's key, if there is one.
#[tactic(auto, unfolding(crate::specs::Texts::Certificate::authority_line))]
fn push_authority(text: &mut String, key: Option<KeyIdentifier>) -> Result<(), AllocError>
    ensures { Grows result text.old text.new (authority_line key) }
{
    match key {
        None => Ok(()),
        Some(key) => push_key(text, "authority-key-id", key),
    }
}

/// Appends the line of what its subject is.
#[tactic(auto, unfolding(crate::specs::Texts::Certificate::subject_line))]
fn push_subject(text: &mut String, basic_ca: Option<bool>) -> Result<(), AllocError>
    ensures { Grows result text.old text.new (subject_line basic_ca) }
{
    match basic_ca {
        Some(true) => write!(text, "ca\n"),
        Some(false) => write!(text, "ee\n"),
        None => write!(text, "ee\n"),
    }
}

/// Appends the lines of where something lies.
fn push_locations(text: &mut String, cert: &Cert) -> Result<(), AllocError>
    ensures { Grows result text.old text.new
        (locations_text cert.now.certificate.tbs.extensions.locations) }
{
    push_access(text, cert)?;
    push_ca_issuer(text, cert)?;
    push_crl_uri(text, cert)
}

/// Appends the lines of what is to be had from the subject.
fn push_access(text: &mut String, cert: &Cert) -> Result<(), AllocError>
    ensures { Grows result text.old text.new
        (access_text cert.now.certificate.tbs.extensions.locations.subject) }
{
    push_repository(text, cert)?;
    push_manifest_uri(text, cert)?;
    push_notify(text, cert)?;
    push_signed_object(text, cert)
}

/// Appends the line of the folder in which its subject publishes, if it says where.
fn push_repository(text: &mut String, cert: &Cert) -> Result<(), AllocError>
    ensures { Grows result text.old text.new (uri_line (codes "ca-repository")
        cert.now.certificate.tbs.extensions.locations.subject.ca_repository) }
{
    push_rsync(text, "ca-repository", cert.ca_repository())
}

/// Appends the line of the manifest of its subject, if it says where.
fn push_manifest_uri(text: &mut String, cert: &Cert) -> Result<(), AllocError>
    ensures { Grows result text.old text.new (uri_line (codes "rpki-manifest")
        cert.now.certificate.tbs.extensions.locations.subject.rpki_manifest) }
{
    push_rsync(text, "rpki-manifest", cert.rpki_manifest())
}

/// Appends the line of the notification file of its subject's repository, if it says where.
fn push_notify(text: &mut String, cert: &Cert) -> Result<(), AllocError>
    ensures { Grows result text.old text.new (uri_line (codes "rpki-notify")
        cert.now.certificate.tbs.extensions.locations.subject.rpki_notify) }
{
    push_https(text, "rpki-notify", cert.rpki_notify())
}

/// Appends the line of the object that its key signed, if it says where.
fn push_signed_object(text: &mut String, cert: &Cert) -> Result<(), AllocError>
    ensures { Grows result text.old text.new (uri_line (codes "signed-object")
        cert.now.certificate.tbs.extensions.locations.subject.signed_object) }
{
    push_rsync(text, "signed-object", cert.signed_object())
}

/// Appends the line of the certificate of its issuer, if it says where.
fn push_ca_issuer(text: &mut String, cert: &Cert) -> Result<(), AllocError>
    ensures { Grows result text.old text.new (uri_line (codes "ca-issuers")
        cert.now.certificate.tbs.extensions.locations.ca_issuer) }
{
    push_rsync(text, "ca-issuers", cert.ca_issuer())
}

/// Appends the line of the revocation list of its issuer, if it says where.
fn push_crl_uri(text: &mut String, cert: &Cert) -> Result<(), AllocError>
    ensures { Grows result text.old text.new (uri_line (codes "crl")
        cert.now.certificate.tbs.extensions.locations.crl) }
{
    push_rsync(text, "crl", cert.crl_uri())
}

/// Appends the lines of the numbers that are claimed.
fn push_claims(text: &mut String, cert: &Cert) -> Result<(), AllocError>
    ensures { Grows result text.old text.new
        (claims_text cert.now.certificate.tbs.extensions.claims) }
{
    push_as_claim(text, cert.as_resources())?;
    push_v4_claim(text, cert.v4_resources())?;
    push_v6_claim(text, cert.v6_resources())
}

/// Appends the lines of the AS numbers.
#[tactic(auto, unfolding(crate::specs::Texts::Certificate::claim_lines))]
fn push_as_claim(text: &mut String, claim: &AsResources) -> Result<(), AllocError>
    ensures { Grows result text.old text.new
        (claim_lines (codes "as inherit\n") as_lines claim.now) }
{
    match claim.claim() {
        Claim::Missing => Ok(()),
        Claim::Inherit => write!(text, "as inherit\n"),
        Claim::Explicit(blocks) => push_numbers(text, blocks),
    }
}

/// Appends the lines of the IPv4 addresses.
#[tactic(auto, unfolding(crate::specs::Texts::Certificate::claim_lines))]
fn push_v4_claim(text: &mut String, claim: &IpResources) -> Result<(), AllocError>
    ensures { Grows result text.old text.new
        (claim_lines (codes "ipv4 inherit\n") ipv4_lines claim.now) }
{
    match claim.claim() {
        Claim::Missing => Ok(()),
        Claim::Inherit => write!(text, "ipv4 inherit\n"),
        Claim::Explicit(blocks) => push_ipv4(text, blocks),
    }
}

/// Appends the lines of the IPv6 addresses.
#[tactic(auto, unfolding(crate::specs::Texts::Certificate::claim_lines))]
fn push_v6_claim(text: &mut String, claim: &IpResources) -> Result<(), AllocError>
    ensures { Grows result text.old text.new
        (claim_lines (codes "ipv6 inherit\n") ipv6_lines claim.now) }
{
    match claim.claim() {
        Claim::Missing => Ok(()),
        Claim::Inherit => write!(text, "ipv6 inherit\n"),
        Claim::Explicit(blocks) => push_ipv6(text, blocks),
    }
}

/// Appends a line for each block of IPv4 addresses.
fn push_ipv4(text: &mut String, blocks: &IpBlocks) -> Result<(), AllocError>
    ensures { Grows result text.old text.new (ipv4_lines blocks.now) }
{
    push_each(text, blocks.iter(), |text, block| {
        let block = block.display(AddressFamily::Ipv4);
        write!(text, "ipv4 {block}\n")
    })
}

/// Appends a line for each block of IPv6 addresses.
fn push_ipv6(text: &mut String, blocks: &IpBlocks) -> Result<(), AllocError>
    ensures { Grows result text.old text.new (ipv6_lines blocks.now) }
{
    push_each(text, blocks.iter(), |text, block| {
        let block = block.display(AddressFamily::Ipv6);
        write!(text, "ipv6 {block}\n")
    })
}
