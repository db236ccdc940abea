//! Sets of AS numbers in DER and BER (RFC 3779, section 3.2.3).

ghost use Rattle.std.specs.Prelude.{◌≡◌, IfOk, All, ◌<◌, ◌^◌, length};
ghost use Rattle.std.specs.List.{flat_map};
ghost use Rattle.rpki_der.specs.declared.mode.Mode.TheVariants.{Der};
ghost use Rattle.rpki_der.specs.Tags.{SEQUENCE};
ghost use Rattle.rpki_der.specs.Write.Written.{value_octets};
ghost use Rattle.rpki_der.specs.Read.Reads.{Reads, Stays};
ghost use Rattle.rpki_der.specs.Form.Decodes.{DecodesNext};
ghost use Rattle.rpki_resources.specs.As.Form.{AsForm};
ghost use Rattle.rpki_resources.specs.declared.block.Block.{Block};
ghost use Rattle.rpki_resources.specs.Blocks.{EndBelow, IsBlock};
ghost use Rattle.rpki_der.specs.Write.Parts.{contents_small, each_small};
ghost use Rattle.rpki_resources.specs.As.Written.{IsAsShort, as_ends, as_octets};
ghost use Rattle.rpki_resources.specs.As.Read.{as_ends_at, as_item_at, as_items_at, as_blocks_at};

use crate::asn::{AsBlock, AsBlocks, Asn};
use crate::block::Block;
use crate::blocks::Blocks;
use crate::faults;
use crate::list::{Listed, take_list};
use rpki_der::encode::{each, integer, sequence};
use rpki_der::{Constructed, DecodeError, Encode, EncodeError, Sink, SinkFailed};
use std::alloc::Global;
use std::marker::Model;

// Reads the two ends of a range.
#[tactic(auto, unfolding(crate::specs::As::Read::as_ends_at))]
fn take_ends(cons: &mut Constructed<'_>) -> Result<Block<Asn>, DecodeError>
    ensures reads { Reads (λ b. b) as_ends_at cons.old result cons.new }
    ensures stays { Stays result cons.new }
    ensures ordered { IfOk result (IsBlock (λ n. n)) }
{
    let min = cons.take_u32()?;
    let max = cons.take_u32()?;
    if min <= max {
        Ok(Block {
            min: Asn::from_u32(min),
            max: Asn::from_u32(max),
        })
    } else {
        Err(cons.refuse_for(faults::LOWER_END_ABOVE_UPPER_END))
    }
}

impl Listed for Block<Asn> {
    ghost use Rattle.rpki_resources.specs.Blocks.{IsBlock};
    ghost use Rattle.rpki_resources.specs.As.Read.{as_item_at};

    type Family = ();

    ghost parser = { λ _. as_item_at };

    ghost known = { IsBlock (λ n. n) };

    // Reads a range or one number.
    fn take_one(
        cons: &mut Constructed<'_>,
        _alloc: Global,
        _kind: (),
    ) -> Result<Block<Asn>, DecodeError> {
        match cons.take_opt_sequence(take_ends)? {
            Some(block) => Ok(block),
            None => {
                let id = Asn::from_u32(cons.take_u32()?);
                Ok(Block { min: id, max: id })
            }
        }
    }
}

// Reads blocks to the end, and makes a set of them.
fn take_items(cons: &mut Constructed<'_>, alloc: Global) -> Result<AsBlocks, DecodeError>
    ensures { Reads (λ set. set) as_items_at cons.old result cons.new }
{
    let list = take_list(cons, alloc, ())?;
    Ok(Blocks::of(list)?)
}

// Reads a set.
fn take_set(cons: &mut Constructed<'_>, alloc: Global) -> Result<AsBlocks, DecodeError>
    ensures reads { Reads (λ set. set) as_blocks_at cons.old result cons.new }
    ensures stays { Stays result cons.new }
{
    cons.take_sequence(|cons| take_items(cons, alloc))
}

impl Blocks<Asn> {
    /// Reads a set: a SEQUENCE OF of numbers and ranges, in any order, which may overlap, and of
    /// which there may be none (RFC 3779, sections 3.2.3.4 to 3.2.3.10). A lower end above its
    /// upper end is refused by `LOWER_END_ABOVE_UPPER_END`, and all else that is no such set is
    /// `Malformed`. Where there is no memory for the blocks, the answer is `Memory`.
    pub fn take_from(alloc: Global, cons: &mut Constructed<'_>) -> Result<AsBlocks, DecodeError>
        ensures reads { Reads (λ set. set) as_blocks_at cons.old result cons.new }
        ensures stays { Stays result cons.new }
        ensures decodes { DecodesNext AsForm (λ set. set) cons.old result cons.new }
    {
        cons.holds_octets();
        take_set(cons, alloc)
    }
}

impl Encode for Block<Asn> {
    ghost octets = { as_octets };

    ghost is_short = { IsAsShort };

    ghost small = { λ b h e. contents_small SEQUENCE (as_ends b) (rw e at h) };

    fn encoded_len(&self) -> Result<u64, EncodeError> {
        match AsBlock::of(*self) {
            AsBlock::Id(id) => integer(id.into_u32()).encoded_len(),
            AsBlock::Range(min, max) => {
                sequence((integer(min.into_u32()), integer(max.into_u32()))).encoded_len()
            }
        }
    }

    fn put<W: Sink>(&self, len: u64, out: &mut W) -> Result<(), SinkFailed> {
        match AsBlock::of(*self) {
            AsBlock::Id(id) => integer(id.into_u32()).put(len, out),
            AsBlock::Range(min, max) => {
                sequence((integer(min.into_u32()), integer(max.into_u32()))).put(len, out)
            }
        }
    }
}

/// What writes the blocks of a set of AS numbers, one after another.
#[derive(Drop)]
pub struct AsBlocksEncoder<'a> {
    blocks: &'a [Block<Asn>],
}

impl<'a> Model for AsBlocksEncoder<'a> {
    ghost use Rattle.std.specs.Prelude.{ℕ, List};
    ghost use Rattle.rpki_resources.specs.declared.block.Block.{Block};

    ghost Value = { List (Block ℕ) };

    ghost view = { λ e. e.blocks.now };
}

impl Encode for AsBlocksEncoder<'_> {
    ghost octets = { flat_map as_octets };

    ghost is_short = { All IsAsShort };

    ghost small = { λ blocks h. each_small as_octets IsAsShort
        (λ b h e. contents_small SEQUENCE (as_ends b) (rw e at h)) blocks h };

    fn encoded_len(&self) -> Result<u64, EncodeError> {
        each(self.blocks).encoded_len()
    }

    fn put<W: Sink>(&self, len: u64, out: &mut W) -> Result<(), SinkFailed> {
        each(self.blocks).put(len, out)
    }
}

impl Blocks<Asn> {
    /// The contents of a SEQUENCE OF of the set: the blocks in ascending order, joined where they
    /// touch, and one number as an INTEGER (RFC 3779, section 3.2.3.4). A SEQUENCE of these
    /// contents is a set in DER, and this one.
    pub fn encode_ref(&self) -> AsBlocksEncoder<'_>
        ensures blocks { result ≡ self.now }
        ensures below { EndBelow (λ n. n) (2 ^ 32) self.now }
        ensures written { length (flat_map as_octets self.now) < 2 ^ 32 →
            AsForm Der (value_octets SEQUENCE (flat_map as_octets self.now)) self.now }
    {
        AsBlocksEncoder {
            blocks: self.as_slice(),
        }
    }
}
