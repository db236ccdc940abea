//! What anchors the paths of attestations.

use bytes::Bytes;
use rpki_basics::Time;
use rpki_basics::standin::StandIn;
use rpki_certs::{Cert, ResourceCert};
use rpki_der::Counted;
use rpki_tal::Tal;
use rpki_testing::{Fail, ok};
use std::alloc::Global;

/// The moment at which all signers signed.
pub fn now() -> Result<Time, Fail> {
    match Time::utc(2024, 6, 1, 0, 0, 0) {
        Some(time) => Ok(time),
        None => Err(Fail::Refused),
    }
}

/// The CA of this certificate, which is validated as that of a trust anchor.
pub fn ca_of(alloc: Global, octets: &'static [u8]) -> Result<ResourceCert, Fail> {
    let now = now()?;
    let cert = Cert::decode(alloc, Bytes::from_static(octets))?;
    Ok(cert.validate_ta_at(alloc, true, &StandIn, now)?)
}

/// The locator of this text.
pub fn locator_of(alloc: Global, text: &'static [u8]) -> Result<Tal, Fail> {
    ok(
        alloc,
        Tal::read_named(alloc, String::new(alloc), &mut Counted::new(text)),
    )
}
