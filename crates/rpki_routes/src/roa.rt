//! Contents of Route Origin Authorizations (ROAs; RFC 9582, section 4).

mod address;
mod addresses;
mod bits;
mod builder;
mod checks;
mod encoder;
mod iter;
mod object;

ghost use Rattle.std.specs.Prelude.{◌≡◌, ◌<◌, ◌^◌, [], length, map, unwrap_or};
ghost use Rattle.rpki_der.specs.Read.Reads.{Reads, Found};
ghost use Rattle.rpki_der.specs.Form.Decodes.{Decodes};
ghost use Rattle.rpki_der.specs.Form.Parts.{sequence_at};
ghost use Rattle.rpki_der.specs.declared.mode.Mode.TheVariants.{Der};
ghost use Rattle.rpki_routes.specs.Roa.{Roa, IsRoa, addresses, origin_of};
ghost use Rattle.rpki_routes.specs.Roa.Form.{RoaForm};
ghost use Rattle.rpki_routes.specs.Roa.Read.{fields_at};
ghost use Rattle.rpki_routes.specs.Roa.Written.{roa_contents, roa_octets};

pub use address::{FriendlyRoaIpAddress, RoaIpAddress, RouteOrigin};
pub use addresses::{RoaIpAddressIter, RoaIpAddresses};
pub use builder::{RoaBuilder, RoaIpAddressesBuilder, RoaIpAddressesEncoder};
use bytes::Bytes;
pub use encoder::RouteOriginAttestationEncoder;
pub use iter::{RoaAddrIter, RoaOriginIter};
pub use object::Roa;
use rpki_der::laws::slices_hold_octets;
use rpki_der::{Constructed, DecodeError, Mode};
use rpki_lists::version::skip_version;
use rpki_resources::{Asn, ByFamily, take_families};
use std::alloc::{AllocError, Global};
use std::marker::Model;

/// Which prefixes an autonomous system may originate.
#[derive(Debug, Drop)]
pub struct RouteOriginAttestation {
    as_id: Asn,
    v4_addrs: RoaIpAddresses,
    v6_addrs: RoaIpAddresses,
}

impl Model for RouteOriginAttestation {
    ghost use Rattle.rpki_routes.specs.Roa.{Roa, IsRoa};

    ghost Value = { Roa };

    ghost view = { λ r. record { as_id = r.as_id; v4 = r.v4_addrs; v6 = r.v6_addrs } };

    ghost invariant = { λ r. IsRoa
        (record { as_id = r.as_id; v4 = r.v4_addrs; v6 = r.v6_addrs }) };
}

impl Clone for RouteOriginAttestation {
    ghost is_clone = { λ r copy. copy ≡ r };

    fn clone(&self) -> Result<RouteOriginAttestation, AllocError> {
        Ok(RouteOriginAttestation {
            as_id: self.as_id,
            v4_addrs: self.v4_addrs.clone()?,
            v6_addrs: self.v6_addrs.clone()?,
        })
    }
}

impl RouteOriginAttestation {
    /// Reads the content at the front of the source, in DER (RFC 9582, section 4). Where the source
    /// begins with no content, refuses by `Malformed` or by the `Content` fault that is found
    /// first, and by `Memory` where no memory was to be had. The octets of the addresses are shared
    /// with the source.
    pub fn decode(alloc: Global, source: Bytes) -> Result<RouteOriginAttestation, DecodeError>
        ensures { Decodes RoaForm (λ r. r) source result }
    {
        // The proof needs that each octet is below 256, which is known of a slice and not of a
        // `Bytes`.
        slices_hold_octets(source.as_slice());
        read_front(alloc, source)
    }

    /// The autonomous system.
    pub fn as_id(&self) -> Asn
        ensures value { result ≡ self.now.as_id }
        ensures roa { IsRoa self.now }
    {
        self.as_id
    }

    /// The addresses of IPv4.
    pub fn v4_addrs(&self) -> &RoaIpAddresses
        ensures value { result.now ≡ self.now.v4 }
        ensures roa { IsRoa self.now }
    {
        &self.v4_addrs
    }

    /// The addresses of IPv6.
    pub fn v6_addrs(&self) -> &RoaIpAddresses
        ensures value { result.now ≡ self.now.v6 }
        ensures roa { IsRoa self.now }
    {
        &self.v6_addrs
    }

    /// All addresses, those of IPv4 first.
    pub fn iter(&self) -> RoaAddrIter<'_>
        ensures { result ≡ addresses self.now }
    {
        RoaAddrIter::new(self.v4_addrs.iter(), self.v6_addrs.iter())
    }

    /// All addresses with the autonomous system, those of IPv4 first.
    pub fn iter_origins(&self) -> RoaOriginIter<'_>
        ensures { result ≡ map (origin_of self.now.as_id) (addresses self.now) }
    {
        RoaOriginIter::new(self.as_id, self.iter())
    }

    /// The content, to be written in DER: without the version, IPv4 first, a family without
    /// addresses left out, and the bits that are not used zero, whatever was read.
    pub fn encode_ref(&self) -> RouteOriginAttestationEncoder<'_>
        ensures value { result ≡ self.now }
        ensures written { length (roa_contents self.now) < 2 ^ 32
            → RoaForm (roa_octets self.now) self.now }
    {
        // What a value's type promises is known to the proof only where one of its fields is read.
        let _ = &self.as_id;
        RouteOriginAttestationEncoder::new(self)
    }
}

// Reads the content at the front.
fn read_front(alloc: Global, source: Bytes) -> Result<RouteOriginAttestation, DecodeError>
    ensures { Found (λ r. r) (sequence_at fields_at Der source) result }
{
    Constructed::decode(source, Mode::Der, |cons| {
        cons.take_sequence(|cons| take_fields(cons, alloc))
    })
}

// The list, or none.
fn or_none(list: Option<RoaIpAddresses>) -> RoaIpAddresses
    ensures { result ≡ unwrap_or list [] }
{
    match list {
        Some(list) => list,
        None => RoaIpAddresses::none(),
    }
}

// Reads the version, the AS number, and the addresses of each family.
#[tactic(auto, unfolding(crate::specs::Roa::Read::fields_at))]
fn take_fields(
    cons: &mut Constructed<'_>,
    alloc: Global,
) -> Result<RouteOriginAttestation, DecodeError>
    ensures { Reads (λ r. r) fields_at cons.old result cons.new }
{
    skip_version(cons)?;
    let as_id = cons.take_u32()?;
    cons.holds_octets();
    let ByFamily { v4, v6 } = take_families(alloc, cons)?;
    Ok(RouteOriginAttestation {
        as_id: Asn::from_u32(as_id),
        v4_addrs: or_none(v4),
        v6_addrs: or_none(v6),
    })
}
