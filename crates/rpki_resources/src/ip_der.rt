//! Sets of addresses in DER and BER (RFC 3779, section 2.2.3).

ghost use Rattle.std.specs.Prelude.{◌≡◌, ◌<◌, ◌≤◌, ◌^◌, ℕ, List, IfOk, All, None, length};
ghost use Rattle.rpki_der.specs.Form.Made.{made};
ghost use Rattle.rpki_der.specs.Form.Decodes.{DecodesNext};
ghost use Rattle.rpki_der.specs.Read.Reads.{Reads, Stays};
ghost use Rattle.rpki_resources.specs.declared.block.Block.{Block};
ghost use Rattle.rpki_resources.specs.Blocks.{IsBlock};
ghost use Rattle.std.specs.List.{flat_map};
ghost use Rattle.rpki_der.specs.declared.mode.Mode.TheVariants.{Der};
ghost use Rattle.rpki_der.specs.Tags.{SEQUENCE};
ghost use Rattle.rpki_der.specs.Write.Written.{value_octets};
ghost use Rattle.rpki_resources.specs.declared.family.AddressFamily.TheVariants.{Ipv6};
ghost use Rattle.rpki_resources.specs.Family.{IsWithin, max_bits};
ghost use Rattle.rpki_resources.specs.Ip.Form.{IpForm, beginning};
ghost use Rattle.rpki_der.specs.Write.Parts.{contents_small, each_small};
ghost use Rattle.rpki_resources.specs.Prefix.{prefix_len};
ghost use Rattle.rpki_resources.specs.Ip.Written.{tag_by, ip_contents, ip_octets};
ghost use Rattle.rpki_resources.specs.Ip.Read.{ip_address_at, ip_ends_at, ip_item_at};
ghost use Rattle.rpki_resources.specs.Ip.Read.{ip_items_at, ip_blocks_at};

use crate::addr::Addr;
use crate::address_bits::{highest_of, lower_end, lowest_of, prefix_bits, take_address, upper_end};
use crate::block::Block;
use crate::blocks::Blocks;
use crate::family::AddressFamily;
use crate::faults;
use crate::ip::IpBlocks;
use crate::list::{Listed, take_list};
use crate::prefix::len_of;
use rpki_der::encode::{each, sequence};
use rpki_der::{Constructed, DecodeError, Encode, EncodeError, Sink, SinkFailed};
use std::alloc::Global;
use std::marker::Model;

// Reads the two ends of a range.
#[tactic(auto, unfolding(crate::specs::Ip::Read::ip_ends_at))]
fn take_ends(cons: &mut Constructed<'_>, most: u8) -> Result<Block<Addr>, DecodeError>
    requires { most ≤ 128 }
    ensures reads { Reads (λ b. b) (ip_ends_at most) cons.old result cons.new }
    ensures stays { Stays result cons.new }
    ensures ordered { IfOk result (IsBlock (λ n. n)) }
{
    let lower = take_address(cons, most)?;
    let upper = take_address(cons, most)?;
    let min = lowest_of(lower.octets.as_slice(), lower.unused);
    let max = highest_of(upper.octets.as_slice(), upper.unused);
    if min <= max {
        Ok(Block {
            min: Addr::from_bits(min),
            max: Addr::from_bits(max),
        })
    } else {
        Err(cons.refuse_for(faults::LOWER_END_ABOVE_UPPER_END))
    }
}

// Reads the addresses of a prefix.
fn take_prefix(cons: &mut Constructed<'_>, most: u8) -> Result<Block<Addr>, DecodeError>
    requires { most ≤ 128 }
    ensures reads { Reads (λ b. b) (made beginning (ip_address_at most)) cons.old result cons.new }
    ensures ordered { IfOk result (IsBlock (λ n. n)) }
{
    let bits = take_address(cons, most)?;
    let octets = bits.octets.as_slice();
    Ok(Block {
        min: Addr::from_bits(lowest_of(octets, bits.unused)),
        max: Addr::from_bits(highest_of(octets, bits.unused)),
    })
}

impl Listed for Block<Addr> {
    ghost use Rattle.rpki_resources.specs.Blocks.{IsBlock};
    ghost use Rattle.rpki_resources.specs.Family.{max_bits};
    ghost use Rattle.rpki_resources.specs.Ip.Read.{ip_item_at};

    type Family = AddressFamily;

    ghost parser = { λ family. ip_item_at (max_bits family) };

    ghost known = { IsBlock (λ n. n) };

    // Reads a range or a prefix.
    fn take_one(
        cons: &mut Constructed<'_>,
        _alloc: Global,
        family: AddressFamily,
    ) -> Result<Block<Addr>, DecodeError> {
        let most = family.max_len();
        match cons.take_opt_sequence(|cons| take_ends(cons, most))? {
            Some(block) => Ok(block),
            None => take_prefix(cons, most),
        }
    }
}

// Reads blocks to the end, and makes a set of them.
#[tactic(auto, unfolding(crate::specs::Ip::Read::ip_items_at))]
fn take_items(
    cons: &mut Constructed<'_>,
    alloc: Global,
    family: AddressFamily,
) -> Result<IpBlocks, DecodeError>
    ensures { Reads (λ set. set) (ip_items_at (max_bits family)) cons.old result cons.new }
{
    let list = take_list(cons, alloc, family)?;
    Ok(Blocks::of(list)?)
}

// Reads a set.
fn take_set(
    cons: &mut Constructed<'_>,
    alloc: Global,
    family: AddressFamily,
) -> Result<IpBlocks, DecodeError>
    ensures reads { Reads (λ set. set) (ip_blocks_at (max_bits family)) cons.old result cons.new }
    ensures stays { Stays result cons.new }
{
    cons.take_sequence(|cons| take_items(cons, alloc, family))
}

impl Blocks<Addr> {
    /// Reads a set of addresses of the family: a SEQUENCE OF of prefixes and ranges, in any order,
    /// which may overlap, and of which there may be none (RFC 3779, sections 2.2.3.6 to 2.2.3.9). A
    /// lower end above its upper end is refused by `LOWER_END_ABOVE_UPPER_END`, more bits than an
    /// address of the family has by `ADDRESS_TOO_LONG`, and all else that is no such set is
    /// `Malformed`. Where there is no memory for the blocks, the answer is `Memory`.
    pub fn take_from(
        alloc: Global,
        cons: &mut Constructed<'_>,
        family: AddressFamily,
    ) -> Result<IpBlocks, DecodeError>
        ensures reads { Reads (λ set. set) (ip_blocks_at (max_bits family))
            cons.old result cons.new }
        ensures stays { Stays result cons.new }
        ensures decodes { DecodesNext (IpForm family) (λ set. set) cons.old result cons.new }
    {
        cons.holds_octets();
        take_set(cons, alloc, family)
    }
}

impl Encode for Block<Addr> {
    ghost octets = { ip_octets };

    ghost is_short = { λ b. length (ip_contents b) < 2 ^ 32 };

    ghost small = { λ b h. contents_small (tag_by (prefix_len b.min b.max)) (ip_contents b) h };

    fn encoded_len(&self) -> Result<u64, EncodeError> {
        match len_of(self.min.to_bits(), self.max.to_bits()) {
            Some(len) => prefix_bits(self.min, len).encoded_len(),
            None => sequence((lower_end(self.min), upper_end(self.max))).encoded_len(),
        }
    }

    fn put<W: Sink>(&self, len: u64, out: &mut W) -> Result<(), SinkFailed> {
        match len_of(self.min.to_bits(), self.max.to_bits()) {
            Some(bits) => prefix_bits(self.min, bits).put(len, out),
            None => sequence((lower_end(self.min), upper_end(self.max))).put(len, out),
        }
    }
}

/// What writes the blocks of a set of addresses, one after another.
#[derive(Drop)]
pub struct IpBlocksEncoder<'a> {
    blocks: &'a [Block<Addr>],
}

impl<'a> Model for IpBlocksEncoder<'a> {
    ghost use Rattle.std.specs.Prelude.{ℕ, List};
    ghost use Rattle.rpki_resources.specs.declared.block.Block.{Block};

    ghost Value = { List (Block ℕ) };

    ghost view = { λ e. e.blocks.now };
}

impl Encode for IpBlocksEncoder<'_> {
    ghost octets = { flat_map ip_octets };

    ghost is_short = { All (λ b. length (ip_contents b) < 2 ^ 32) };

    ghost small = { λ blocks h. each_small ip_octets (λ b. length (ip_contents b) < 2 ^ 32)
        (λ b h. contents_small (tag_by (prefix_len b.min b.max)) (ip_contents b) h) blocks h };

    fn encoded_len(&self) -> Result<u64, EncodeError> {
        each(self.blocks).encoded_len()
    }

    fn put<W: Sink>(&self, len: u64, out: &mut W) -> Result<(), SinkFailed> {
        each(self.blocks).put(len, out)
    }
}

impl Blocks<Addr> {
    /// The contents of a SEQUENCE OF of the set of addresses of a family: the blocks in ascending
    /// order, joined where they touch, the addresses of a prefix as a prefix. Of the other lower
    /// ends the trailing zero bits are left out, and of the upper ends the trailing one bits, so
    /// that both families are written alike (RFC 3779, sections 2.1 and 2.2.3.6).
    ///
    /// A SEQUENCE of these contents is a set of the family in DER, and this one, where the ends are
    /// those of addresses of the family; for IPv6 they always are. A set that was read is so
    /// (`laws::forms::ip_sets_are_written_again`), and so is one that was built, united or
    /// intersected of blocks of the family (`laws::forms::sets_of_a_family`). Of a set of other
    /// blocks octets are written that are no set of the family: for IPv4 with more than 32 bits.
    pub fn encode_ref(&self, family: AddressFamily) -> IpBlocksEncoder<'_>
        ensures blocks { result ≡ self.now }
        ensures addresses { All (IsWithin Ipv6) self.now }
        ensures written { All (IsWithin family) self.now →
            length (flat_map ip_octets self.now) < 2 ^ 32 →
            IpForm family Der (value_octets SEQUENCE (flat_map ip_octets self.now)) self.now }
    {
        IpBlocksEncoder {
            blocks: self.as_slice(),
        }
    }
}
