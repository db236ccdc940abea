//! What contents say, in rows.

ghost use Rattle.std.specs.Prelude.{◌≡◌, IfOk, List};
ghost use Rattle.rpki_check.specs.Grounds.{manner_in};
ghost use Rattle.rpki_check.specs.Rows.{IsPut, IsRowsCall, family_number, numbers, payload_of};
ghost use Rattle.rpki_check.specs.Rows.{payloads};

use crate::numbers::{GOOD, NO_MEMORY};
use crate::object::found_in;
use crate::question::Question;
use crate::refusal::Refusal;
use crate::room::put;
use rpki_resources::AddressFamily;
use rpki_routes::{AsProviderAttestation, FriendlyRoaIpAddress, RouteOriginAttestation};
use rpki_validation::kinds::Lines;
use std::alloc::{AllocError, Global};

/// The numbers of the families.
const IPV4: u8 = 4;

const IPV6: u8 = 6;

/// A prefix that an AS may originate.
#[repr(C)]
#[derive(Clone, Copy, Drop)]
pub struct Payload {
    /// The first address of the prefix, in network order; one of IPv4 has 12 zeros behind it.
    pub address: [u8; 16],
    /// The AS.
    pub asn: u32,
    /// 4 or 6.
    pub family: u8,
    /// The length of the prefix, in bits.
    pub prefix_length: u8,
    /// The maximum length, or the length where there is none.
    pub max_length: u8,
    /// 0.
    pub zero: u8,
}

/// The row of an address.
fn payload_of(asn: u32, address: FriendlyRoaIpAddress) -> Payload
    ensures { result ≡ payload_of asn address }
{
    let prefix = address.prefix();
    Payload {
        address: prefix.addr().to_bits().to_be_bytes(),
        asn,
        family: family_number(address),
        prefix_length: prefix.addr_len(),
        max_length: address.max_length(),
        zero: 0,
    }
}

/// The number of the family of an address.
fn family_number(address: FriendlyRoaIpAddress) -> u8
    ensures { result ≡ family_number address.family }
{
    match address.max_len_prefix().family {
        AddressFamily::Ipv4 => IPV4,
        AddressFamily::Ipv6 => IPV6,
    }
}

/// The rows of a ROA, those of IPv4 first.
fn payloads_of(alloc: Global, roa: &RouteOriginAttestation) -> Result<Vec<Payload>, AllocError>
    ensures { IfOk result (λ rows. rows.items ≡ payloads roa.now) }
{
    let asn = roa.as_id().into_u32();
    let mut rows = Vec::new(alloc);
    for address in roa.iter() {
        rows.push(payload_of(asn, address))?;
    }
    Ok(rows)
}

/// The rows of an ASPA: the customer, and then its providers.
fn numbers_of(alloc: Global, aspa: &AsProviderAttestation) -> Result<Vec<u32>, AllocError>
    ensures { IfOk result (λ rows. rows.items ≡ numbers aspa.now) }
{
    let mut rows = Vec::new(alloc);
    rows.push(aspa.customer_as().into_u32())?;
    for provider in aspa.provider_as_set().iter() {
        rows.push(provider.into_u32())?;
    }
    Ok(rows)
}

/// A content that has rows.
pub trait Rows: Lines {
    /// A row.
    type Row: Copy;

    // Its rows.
    ghost rows_of: { Self → List Self.Row };

    /// Its rows.
    fn in_rows(&self, alloc: Global) -> Result<Vec<Self::Row>, AllocError>
        ensures { IfOk result (λ all. all.items ≡ rows_of self.now) };
}

impl Rows for RouteOriginAttestation {
    type Row = Payload;

    ghost rows_of = { payloads };

    fn in_rows(&self, alloc: Global) -> Result<Vec<Payload>, AllocError> {
        payloads_of(alloc, self)
    }
}

impl Rows for AsProviderAttestation {
    type Row = u32;

    ghost rows_of = { numbers };

    fn in_rows(&self, alloc: Global) -> Result<Vec<u32>, AllocError> {
        numbers_of(alloc, self)
    }
}

/// Puts the rows of a content, if one is found, and gives the status.
fn put_rows<T: Rows>(
    alloc: Global,
    found: &Result<T, Refusal>,
    room: &mut [T::Row],
    count: &mut usize,
) -> u32
    ensures { IsPut T.rows_of found.now room.old room.new count.new result }
{
    match found {
        Err(refusal) => {
            put(&[], room, count);
            refusal.number()
        }
        Ok(content) => match content.in_rows(alloc) {
            Err(_) => {
                put(&[], room, count);
                NO_MEMORY
            }
            Ok(rows) => {
                put(&rows, room, count);
                GOOD
            }
        },
    }
}

/// The rows of the object at the front of octets.
pub fn rows_in<T: Rows>(
    alloc: Global,
    question: &Question<'_>,
    octets: &[u8],
    room: &mut [T::Row],
    count: &mut usize,
) -> u32
    ensures { IsRowsCall T.kind (T.form (T.rule_in (manner_in question.now))) T.rows_of question.now
        octets.now room.old room.new count.new result }
{
    let found = found_in::<T>(alloc, question, octets);
    let status = put_rows(alloc, &found, room, count);
    drop(found);
    status
}
