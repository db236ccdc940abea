//! Contents that are built.

ghost use Rattle.std.specs.Prelude.{◌≡◌, ◌≤◌, [], All};
ghost use Rattle.rpki_resources.specs.declared.family.AddressFamily.TheVariants.{Ipv4};
ghost use Rattle.rpki_resources.specs.As.{as_range};
ghost use Rattle.rpki_resources.specs.Blocks.{IsBlock};
ghost use Rattle.rpki_resources.specs.Family.{IsWithin};
ghost use Rattle.rpki_resources.specs.Ip.{ip_range};

use crate::contents;
use crate::contents::{Answer, Row, are_so};
use bytes::Bytes;
use rpki_attributes::MessageDigest;
use rpki_basics::{DigestAlgorithm, KeyIdentifier};
use rpki_resources::{Addr, AsBlock, Asn, IpBlock, Prefix};
use rpki_tagged::AttestationBuilder;
use std::alloc::{AllocError, Global};

/// The octets 1 to 20, and E1 to F4.
static KEYS: [[u8; 20]; 2] = [
    [
        1, 2, 3, 4, 5, 6, 7, 8, 9, 10, 11, 12, 13, 14, 15, 16, 17, 18, 19, 20,
    ],
    [
        0xE1, 0xE2, 0xE3, 0xE4, 0xE5, 0xE6, 0xE7, 0xE8, 0xE9, 0xEA, 0xEB, 0xEC, 0xED, 0xEE, 0xEF,
        0xF0, 0xF1, 0xF2, 0xF3, 0xF4,
    ],
];

/// Both keys, AS64496, AS64498 to AS64511, 192.0.2.0/24 and 2001:db8::/32, and the digest `hash`.
pub static ALL: &[u8] =
    b"0y1,\x04\x14\x01\x02\x03\x04\x05\x06\x07\x08\x09\x0A\x0B\x0C\x0D\x0E\x0F\x10\x11\x12\x13\
      \x14\x04\x14\xE1\xE2\xE3\xE4\xE5\xE6\xE7\xE8\xE9\xEA\xEB\xEC\xED\xEE\xEF\xF0\xF1\xF2\xF3\
      \xF406\xA0\x130\x11\x02\x03\x00\xFB\xF00\x0A\x02\x03\x00\xFB\xF2\x02\x03\x00\xFB\xFF\xA1\
      \x1F0\x1D0\x0C\x04\x02\x00\x010\x06\x03\x04\x00\xC0\x00\x020\x0D\x04\x02\x00\x020\x07\x03\
      \x05\x00 \x01\x0D\xB80\x0B\x06\x09`\x86H\x01e\x03\x04\x02\x01\x04\x04hash";

/// No key, and of these numbers those of one kind alone.
const NUMBERS: &[u8] =
    b"0 1\x000\x09\xA0\x070\x05\x02\x03\x00\xFB\xF00\x0B\x06\x09`\x86H\x01e\x03\x04\x02\x01\x04\
      \x04hash";

const V4: &[u8] =
    b"0)1\x000\x12\xA1\x100\x0E0\x0C\x04\x02\x00\x010\x06\x03\x04\x00\xC0\x00\x020\x0B\x06\x09`\
      \x86H\x01e\x03\x04\x02\x01\x04\x04hash";

const V6: &[u8] =
    b"0*1\x000\x13\xA1\x110\x0F0\x0D\x04\x02\x00\x020\x07\x03\x05\x00 \x01\x0D\xB80\x0B\x06\x09`\
      \x86H\x01e\x03\x04\x02\x01\x04\x04hash";

/// A builder with the digest `hash`.
pub fn empty(alloc: Global) -> AttestationBuilder
    ensures { result.v4_resources ≡ [] }
{
    let digest = MessageDigest::from(Bytes::from_static(b"hash"));
    AttestationBuilder::new(alloc, DigestAlgorithm::sha256(), digest)
}

pub fn key(at: usize) -> KeyIdentifier {
    KeyIdentifier::from_octets(KEYS[at % 2])
}

/// 192.0.2.0/24.
pub fn v4_block() -> IpBlock
    ensures block { IsBlock (λ n. n) (ip_range result) }
    ensures within { IsWithin Ipv4 (ip_range result) }
{
    let prefix = Prefix::new(Addr::from_bits(0xC000_0200 << 96), 24);
    let _ = prefix.range();
    IpBlock::Prefix(prefix)
}

/// 2001:db8::/32.
pub fn v6_block() -> IpBlock
    ensures { IsBlock (λ n. n) (ip_range result) }
{
    IpBlock::Prefix(Prefix::new(Addr::from_bits(0x2001_0DB8 << 96), 32))
}

/// The block of these AS numbers.
pub fn numbers(first: u32, last: u32) -> AsBlock
    requires { first ≤ last }
    ensures { IsBlock (λ n. n) (as_range result) }
{
    AsBlock::Range(Asn::from_u32(first), Asn::from_u32(last))
}

/// Pushes all, AS numbers in blocks that overlap.
fn push_all(to: &mut AttestationBuilder) -> Result<(), AllocError>
    ensures { All (IsWithin Ipv4) to.old.v4_resources → All (IsWithin Ipv4) to.new.v4_resources }
{
    to.push_v6(v6_block())?;
    to.push_as(numbers(64500, 64511))?;
    to.push_v4(v4_block())?;
    to.push_key(key(0))?;
    to.push_as(numbers(64498, 64505))?;
    to.push_as(AsBlock::Id(Asn::from_u32(64496)))?;
    to.push_key(key(1))
}

/// The same by what the builder lends.
fn lend_all(to: &mut AttestationBuilder) -> Result<(), AllocError>
    ensures { All (IsWithin Ipv4) to.old.v4_resources → All (IsWithin Ipv4) to.new.v4_resources }
{
    to.keys_mut().push(key(0))?;
    to.keys_mut().push(key(1))?;
    to.as_resources_mut().push(numbers(64496, 64496))?;
    to.as_resources_mut().push(numbers(64498, 64511))?;
    to.v4_resources_mut().push(v4_block())?;
    to.v6_resources_mut().push(v6_block())
}

/// Whether the content is built so.
pub fn is_built(
    alloc: Global,
    builder: AttestationBuilder,
    wanted: Answer<'_>,
) -> Result<bool, AllocError>
    requires { All (IsWithin Ipv4) builder.v4_resources }
{
    contents::is_built(alloc, builder.into_attestation(), wanted)
}

/// Whether the content to which all is pushed is built.
fn is_pushed(alloc: Global) -> Result<bool, AllocError> {
    let mut builder = empty(alloc);
    let pushed = push_all(&mut builder);
    let has_keys = builder.keys() == &[key(0), key(1)][..];
    let is_built = is_built(alloc, builder, Ok(ALL));
    pushed?;
    Ok(has_keys && is_built?)
}

/// The same by what the builder lends.
fn is_lent(alloc: Global) -> Result<bool, AllocError> {
    let mut builder = empty(alloc);
    let lent = lend_all(&mut builder);
    let is_built = is_built(alloc, builder, Ok(ALL));
    lent?;
    is_built
}

/// Resources of one kind, or none.
#[derive(Clone, Copy)]
enum Named {
    Nothing,
    Numbers,
    V4,
    V6,
}

/// What is named, and what is written, or why it is refused.
struct Built(Named, Answer<'static>);

static ROWS: [Built; 4] = [
    Built(Named::Nothing, Err("no resources")),
    Built(Named::Numbers, Ok(NUMBERS)),
    Built(Named::V4, Ok(V4)),
    Built(Named::V6, Ok(V6)),
];

/// Pushes what is named.
fn push(to: &mut AttestationBuilder, named: Named) -> Result<(), AllocError>
    ensures { All (IsWithin Ipv4) to.old.v4_resources → All (IsWithin Ipv4) to.new.v4_resources }
{
    match named {
        Named::Nothing => Ok(()),
        Named::Numbers => to.push_as(AsBlock::Id(Asn::from_u32(64496))),
        Named::V4 => to.push_v4(v4_block()),
        Named::V6 => to.push_v6(v6_block()),
    }
}

impl Row for Built {
    fn is_so(&self, alloc: Global) -> Result<bool, AllocError> {
        let Built(named, wanted) = self;
        let mut builder = empty(alloc);
        let pushed = push(&mut builder, *named);
        let is_built = is_built(alloc, builder, *wanted);
        pushed?;
        is_built
    }
}

#[test]
fn contents_are_built(rt: HostRuntime) -> Result<(), AllocError> {
    let alloc = rt.alloc();
    assert!(rt; is_pushed(alloc)? && is_lent(alloc)? && are_so(alloc, &ROWS)?);
    Ok(())
}
