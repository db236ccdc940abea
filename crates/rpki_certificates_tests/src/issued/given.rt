//! What the certificates of tests are made of.

ghost use Rattle.std.specs.Prelude.{◌≡◌, IfOk, OnOk};
ghost use Rattle.rpki_resources.specs.declared.resources.Claim.TheVariants.{Missing, Inherit};

use crate::shared::{push_addresses, push_numbers};
use bytes::Bytes;
use rpki_basics::{Https, Name, Serial, Time, Validity};
use rpki_der::{Constructed, DecodeError, Mode};
use rpki_faults::{KeyUsage, Overclaim};
use rpki_issued::TbsCert;
use rpki_issued::resources::{build_as_resources, build_ip_resources};
use rpki_resources::Resources;
use rpki_testing::{Fail, key, ok, rsync, year};
use std::alloc::Global;

/// The names of an issuer and of a subject.
static ISSUER: &[u8] = b"\x30\x0C\x31\x0A\x30\x08\x06\x03\x55\x04\x03\x13\x01\x69";

static SUBJECT: &[u8] = b"\x30\x0C\x31\x0A\x30\x08\x06\x03\x55\x04\x03\x13\x01\x73";

/// The name with these octets, read in this mode.
pub fn name(octets: &'static [u8], mode: Mode) -> Result<Name, DecodeError> {
    Constructed::decode(Bytes::from_static(octets), mode, Name::take_from)
}

/// A certificate of an end entity with key 2, under this name, from 2024 to 2049, that says nothing
/// else.
pub fn plain(alloc: Global, issuer: Name) -> Result<TbsCert, Fail>
    ensures { IfOk result (λ t. t.extensions.claims.addresses.v4 ≡ Missing) }
{
    let validity = Validity::new(year(2024)?, year(2050)?);
    let of = key(alloc, 2)?;
    let (serial, usage) = (Serial::from(7), KeyUsage::Ee);
    Ok(TbsCert::new(serial, issuer, validity, None, of, usage, Overclaim::Refuse))
}

/// A CA's with key 2, under both names, that says nothing else.
pub fn named(alloc: Global) -> Result<TbsCert, Fail>
    ensures { IfOk result (λ t. t.extensions.claims.addresses.v4 ≡ Missing) }
{
    let Some(end) = Time::utc(2049, 12, 31, 23, 59, 59) else {
        return Err(Fail::Refused);
    };
    let validity = Validity::new(year(2024)?, end);
    let issuer = name(ISSUER, Mode::Der)?;
    let subject = Some(name(SUBJECT, Mode::Der)?);
    let of = key(alloc, 2)?;
    let serial = Serial::from(u64::MAX);
    Ok(TbsCert::new(
        serial,
        issuer,
        validity,
        subject,
        of,
        KeyUsage::Ca,
        Overclaim::Trim,
    ))
}

/// Sets each URI.
pub fn set_places(alloc: Global, t: &mut TbsCert) -> Result<(), Fail> {
    t.set_crl_uri(Some(rsync(alloc, b"rsync://a.example.com/r/a.crl")?));
    t.set_ca_issuer(Some(rsync(alloc, b"rsync://a.example.com/r/a.cer")?));
    t.set_ca_repository(Some(rsync(alloc, b"rsync://a.example.com/r/s/")?));
    t.set_rpki_manifest(Some(rsync(alloc, b"rsync://a.example.com/r/s/a.mft")?));
    t.set_signed_object(Some(rsync(alloc, b"rsync://a.example.com/r/a.roa")?));
    let notify = Https::from_bytes(Bytes::from_static(b"https://a.example.com/n.xml"));
    t.set_rpki_notify(Some(ok(alloc, notify)?));
    Ok(())
}

/// How what is claimed is built.
pub enum Way {
    /// By the certificate, of which IPv4 addresses are inherited in the end.
    Within,
    /// Before it is handed to the certificate.
    Before,
}

/// Sets all that can be set.
pub fn set_all(alloc: Global, t: &mut TbsCert, way: &Way) -> Result<(), Fail>
    ensures { OnOk result (t.new.extensions.claims.addresses.v4 ≡ Inherit) }
{
    t.set_basic_ca(Some(true));
    t.set_authority_key_identifier(Some(key(alloc, 1)?.key_identifier()));
    set_places(alloc, t)?;
    match way {
        Way::Within => {
            t.build_as_resource_blocks(alloc, push_numbers)?;
            t.build_v4_resource_blocks(alloc, push_addresses)?;
            t.build_v6_resource_blocks(alloc, push_addresses)?;
        }
        Way::Before => {
            t.set_as_resources(build_as_resources(alloc, push_numbers)?);
            t.set_v6_resources(build_ip_resources(alloc, push_addresses)?);
        }
    }
    t.set_v4_resources(Resources::inherit());
    Ok(())
}
