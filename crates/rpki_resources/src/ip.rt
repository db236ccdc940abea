//! Blocks of addresses and sets of them.

ghost use Rattle.std.specs.Prelude.{◌≡◌, ℕ, ◌↔◌, ◌∷◌, [], ◌++◌, List, IsTrue, OnOk, OnErr};
ghost use Rattle.std.specs.Prelude.{All, map, ◌^◌, ◌<◌};
ghost use Rattle.std.specs.Iterator.{Drains, HoldsAlong, IsFinite};
ghost use Rattle.rpki_resources.specs.declared.ip.IpBlock.{IpBlock};
ghost use Rattle.rpki_resources.specs.Blocks.{Covers, EndBelow, IsBlock, IsCanonical};
ghost use Rattle.rpki_resources.specs.Prefix.{IsPrefix};
ghost use Rattle.rpki_resources.specs.Ip.{ip_block, ip_range};

use crate::addr::Addr;
use crate::block::Block;
use crate::blocks::{Blocks, BlocksBuilder};
use crate::prefix::{Prefix, len_of};
use crate::walks::covers_block;
use std::alloc::AllocError;
use std::marker::Model;

/// The addresses of a prefix, or those from the first address to the second one (RFC 3779, section
/// 2.2.3.7).
#[derive(Clone, Copy, Debug, PartialEq, Eq)]
pub enum IpBlock {
    Prefix(Prefix),
    Range(Addr, Addr),
}

impl IpBlock {
    /// The block of the addresses from `min` to `max`: a prefix where they are those of one.
    pub fn from_range(min: Addr, max: Addr) -> IpBlock
        ensures value { result ≡ ip_block (record { min = min; max = max }) }
        ensures prefix { (len : ℕ) → IsPrefix min max len →
            result ≡ IpBlock.Prefix (record { addr = min; len = len }) }
        ensures range { ((len : ℕ) → IsPrefix min max len → ⊥) → result ≡ IpBlock.Range min max }
    {
        match len_of(min.to_bits(), max.to_bits()) {
            Some(len) => IpBlock::Prefix(Prefix::new(min, len)),
            None => IpBlock::Range(min, max),
        }
    }

    // Its addresses.
    pub(crate) fn range(self) -> Block<Addr>
        ensures { result ≡ ip_range self }
    {
        match self {
            IpBlock::Prefix(prefix) => {
                let (min, max) = prefix.range();
                Block { min, max }
            }
            IpBlock::Range(min, max) => Block { min, max },
        }
    }
}

impl From<Prefix> for IpBlock {
    ghost from_gives = { λ prefix block. block ≡ IpBlock.Prefix prefix };

    fn from(prefix: Prefix) -> IpBlock {
        IpBlock::Prefix(prefix)
    }
}

/// A set of addresses.
pub type IpBlocks = Blocks<Addr>;

impl Blocks<Addr> {
    /// The blocks in ascending order, joined where they touch.
    pub fn iter(&self) -> IpBlocksIter<'_>
        ensures items { result ≡ map ip_block self.now }
        ensures ranges { map ip_range result ≡ self.now }
        ensures canonical { IsCanonical (λ n. n) self.now }
        ensures below { EndBelow (λ n. n) (2 ^ 128) self.now }
    {
        IpBlocksIter(self.as_slice())
    }

    /// Whether each address of the block, whose lower end is not above its upper end, is in the
    /// set.
    pub fn contains_block(&self, block: IpBlock) -> bool
        requires { IsBlock (λ n. n) (ip_range block) }
        ensures { IsTrue result ↔ Covers (λ n. n) self.now (ip_range block ∷ []) }
    {
        covers_block(self.as_slice(), block.range())
    }
}

/// Goes over the blocks of a set of addresses.
#[derive(Debug, Drop)]
pub struct IpBlocksIter<'a>(&'a [Block<Addr>]);

impl<'a> Model for IpBlocksIter<'a> {
    ghost use Rattle.std.specs.Prelude.{List, map};
    ghost use Rattle.rpki_resources.specs.declared.ip.IpBlock.{IpBlock};
    ghost use Rattle.rpki_resources.specs.Ip.{ip_block};

    ghost Value = { List IpBlock };

    ghost view = { λ s. map ip_block s.0.now };
}

impl<'a> Clone for IpBlocksIter<'a> {
    ghost use Rattle.std.specs.Prelude.{◌≡◌};

    ghost is_clone = { λ x y. y ≡ x };

    fn clone(&self) -> Result<Self, AllocError> {
        Ok(IpBlocksIter(self.0))
    }
}

impl<'a> Iterator for IpBlocksIter<'a> {
    type Item = IpBlock;

    ghost use Rattle.std.specs.Iterator.{YieldsFirst, item_count};

    ghost next_gives = { YieldsFirst (λ s. s) };

    ghost remaining = { item_count (λ s. s) };

    fn next(&mut self) -> Option<IpBlock> {
        let (first, rest) = self.0.split_first()?;
        self.0 = rest;
        Some(IpBlock::from_range(first.min, first.max))
    }
}

/// What builds a set of addresses.
pub type IpBlocksBuilder = BlocksBuilder<Addr>;

impl BlocksBuilder<Addr> {
    /// Adds a block, whose lower end is not above its upper end. Where there is no memory for it,
    /// the builder stays as it was.
    pub fn push(&mut self, block: IpBlock) -> Result<(), AllocError>
        requires { IsBlock (λ n. n) (ip_range block) }
        ensures ok { OnOk result (self.new ≡ self.old ++ ip_range block ∷ []) }
        ensures err { OnErr result (self.new ≡ self.old) }
    {
        self.push_block(block.range())
    }

    /// Adds each block that the iterator gives. The iterator comes to an end, and of each block the
    /// lower end is not above the upper end. Where there is no memory for all of them, the builder
    /// stays as it was.
    pub fn extend<I: Iterator<Item = IpBlock> + Drop>(
        &mut self,
        blocks: I,
    ) -> Result<(), AllocError>
        requires can { I.can_next blocks }
        requires ends { IsFinite (I.remaining blocks) }
        requires ordered { HoldsAlong I.next_gives blocks
            (All (λ b. IsBlock (λ n. n) (ip_range b))) }
        ensures ok { OnOk result ((xs : List IpBlock) ×
            Drains I.next_gives blocks xs × (self.new ≡ self.old ++ map ip_range xs)) }
        ensures err { OnErr result (self.new ≡ self.old) }
    {
        let mut added = Vec::new(self.allocator());
        for block in blocks {
            added.push(block.range())?;
        }
        self.append(added)
    }
}
