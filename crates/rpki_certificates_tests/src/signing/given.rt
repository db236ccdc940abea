//! What tests are given: an issuer, and builders of objects.

ghost use Rattle.std.specs.Prelude.{◌≡◌, IfOk};
ghost use Rattle.rpki_resources.specs.declared.resources.Claim.TheVariants.{Missing};

use crate::shared::{push_addresses, push_numbers};
use bytes::Bytes;
use rpki_basics::standin::StandIn;
use rpki_basics::{Serial, Validity};
use rpki_certs::{Cert, ResourceCert};
use rpki_resources::{Claim, Number, Resources};
use rpki_signing::SignedObjectBuilder;
use rpki_testing::{Fail, copied, rsync, year};
use std::alloc::Global;

/// The key of the issuer.
pub const ISSUER: u64 = 7;

/// The certificate of a trust anchor of this key, from 2020 to 2040, with AS64496, 192.0.2.0/24 and
/// 2001:db8::/32, which another program made.
static ANCHOR: &[u8] = b"\
    \x30\x82\x01\x7B\x30\x82\x01\x45\xA0\x03\x02\x01\x02\x02\x01\x01\x30\x0D\x06\x09\x2A\x86\x48\
    \x86\xF7\x0D\x01\x01\x0B\x05\x00\x30\x00\x30\x1E\x17\x0D\x32\x30\x30\x31\x30\x31\x30\x30\x30\
    \x30\x30\x30\x5A\x17\x0D\x34\x30\x30\x31\x30\x31\x30\x30\x30\x30\x30\x30\x5A\x30\x00\x30\x1A\
    \x30\x0D\x06\x09\x2A\x86\x48\x86\xF7\x0D\x01\x01\x01\x05\x00\x03\x09\x00\x00\x00\x00\x00\x00\
    \x00\x00\x07\xA3\x81\xEB\x30\x81\xE8\x30\x0F\x06\x03\x55\x1D\x13\x01\x01\xFF\x04\x05\x30\x03\
    \x01\x01\xFF\x30\x1D\x06\x03\x55\x1D\x0E\x04\x16\x04\x14\xAE\xBF\x74\x00\x96\xFE\xA5\xF7\x38\
    \x20\x2D\x5D\x29\x9F\xC8\x4E\x93\x21\x55\xD5\x30\x0E\x06\x03\x55\x1D\x0F\x01\x01\xFF\x04\x04\
    \x03\x02\x01\x06\x30\x40\x06\x08\x2B\x06\x01\x05\x05\x07\x01\x0B\x04\x34\x30\x32\x30\x17\x06\
    \x08\x2B\x06\x01\x05\x05\x07\x30\x05\x86\x0B\x72\x73\x79\x6E\x63\x3A\x2F\x2F\x68\x2F\x6D\x30\
    \x17\x06\x08\x2B\x06\x01\x05\x05\x07\x30\x0A\x86\x0B\x72\x73\x79\x6E\x63\x3A\x2F\x2F\x68\x2F\
    \x6D\x30\x18\x06\x03\x55\x1D\x20\x01\x01\xFF\x04\x0E\x30\x0C\x30\x0A\x06\x08\x2B\x06\x01\x05\
    \x05\x07\x0E\x02\x30\x2E\x06\x08\x2B\x06\x01\x05\x05\x07\x01\x07\x01\x01\xFF\x04\x1F\x30\x1D\
    \x30\x0C\x04\x02\x00\x01\x30\x06\x03\x04\x00\xC0\x00\x02\x30\x0D\x04\x02\x00\x02\x30\x07\x03\
    \x05\x00\x20\x01\x0D\xB8\x30\x1A\x06\x08\x2B\x06\x01\x05\x05\x07\x01\x08\x01\x01\xFF\x04\x0B\
    \x30\x09\xA0\x07\x30\x05\x02\x03\x00\xFB\xF0\x30\x0D\x06\x09\x2A\x86\x48\x86\xF7\x0D\x01\x01\
    \x0B\x05\x00\x03\x21\x00\x33\x4A\xE7\x77\x5E\xD9\x7E\x4E\x7A\x81\xD4\x19\x55\x95\x33\x7C\x7F\
    \xC7\x36\x42\xB6\xFA\xA4\x55\xCC\x8D\x28\x70\x37\x97\x3B\x11";

/// The issuer, a trust anchor.
pub fn issuer(alloc: Global) -> Result<ResourceCert, Fail> {
    let now = year(2030)?;
    let cert = copied(Cert::decode(alloc, Bytes::from_static(ANCHOR))?)?;
    Ok(copied(cert.validate_ta_at(alloc, true, &StandIn, now)?)?)
}

/// Whether there is a claim, of two blocks.
fn are_two<T: Number>(claim: &Resources<T>) -> bool {
    match claim.claim() {
        Claim::Explicit(blocks) => blocks.as_slice().len() == 2,
        _ => false,
    }
}

/// Whether a builder claims the blocks of each family that are added to it.
pub fn are_claimed(alloc: Global) -> Result<bool, Fail> {
    let mut builder = builder(alloc, 2030)?;
    let numbers = builder.build_as_resource_blocks(alloc, push_numbers);
    let v4 = builder.build_v4_resource_blocks(alloc, push_addresses);
    let v6 = builder.build_v6_resource_blocks(alloc, push_addresses);
    let are_claimed = are_two(builder.as_resources())
        && are_two(builder.v4_resources())
        && are_two(builder.v6_resources());
    drop(builder);
    numbers?;
    v4?;
    v6?;
    Ok(are_claimed)
}

/// A copy of a builder that claims the AS numbers of the issuer, and signs at the beginning of this
/// year, which is its serial number too.
pub fn builder(alloc: Global, at: u16) -> Result<SignedObjectBuilder, Fail>
    ensures { IfOk result (λ b. b.v4 ≡ Missing) }
{
    let mut builder = SignedObjectBuilder::new(
        Serial::from(u64::from(at)),
        Validity::new(year(2029)?, year(2031)?),
        rsync(alloc, b"rsync://host/module/ca.crl")?,
        rsync(alloc, b"rsync://host/ca.cer")?,
        rsync(alloc, b"rsync://host/module/object.roa")?,
        year(at)?,
    );
    builder.set_as_resources_inherit();
    Ok(copied(builder)?)
}
