//! AS numbers and sets of them.

ghost use Rattle.std.specs.Prelude.{◌≡◌, ℕ, ◌↔◌, ◌∷◌, [], ◌++◌, List, IsTrue, OnOk, OnErr};
ghost use Rattle.std.specs.Prelude.{All, Some, map, length, ◌^◌};
ghost use Rattle.std.specs.Iterator.{Drains, HoldsAlong, IsFinite};
ghost use Rattle.std.specs.List.Sorted.{IsStrictlyIncreasing};
ghost use Rattle.rpki_resources.specs.declared.asn.AsBlock.{AsBlock};
ghost use Rattle.rpki_resources.specs.Blocks.{Covers, EndBelow, IsBlock, IsCanonical};
ghost use Rattle.rpki_resources.specs.As.{asn_text, as_block, as_range, as_block_text};

use crate::block::Block;
use crate::blocks::{Blocks, BlocksBuilder};
use crate::number::Number;
use crate::walks::covers_block;
use rpki_der::encode::integer;
use rpki_der::{Encode, EncodeError, Sink, SinkFailed};
use std::alloc::AllocError;
use std::fmt;
use std::marker::Model;

/// The number of an autonomous system, of four octets (RFC 6793, section 3).
#[derive(Clone, Copy, Debug, PartialEq, Eq, PartialOrd, Ord, Hash)]
pub struct Asn(u32);

impl Model for Asn {
    ghost use Rattle.std.specs.Prelude.{ℕ};

    ghost Value = { ℕ };

    ghost view = { λ a. a.0 };

    ghost inverse = { λ n. record { 0 = n } };
}

impl Asn {
    /// The smallest AS number.
    pub const MIN: Asn = Asn(0);

    /// The largest AS number.
    pub const MAX: Asn = Asn(u32::MAX);

    /// The AS number of this value.
    #[inline(always)]
    pub fn from_u32(value: u32) -> Asn
        ensures { result ≡ value }
    {
        Asn(value)
    }

    /// The value of the AS number.
    #[inline(always)]
    pub fn into_u32(self) -> u32
        ensures { result ≡ self }
    {
        self.0
    }
}

impl Number for Asn {
    ghost use Rattle.std.specs.Prelude.{refl, ◌^◌};

    ghost number = { λ n. n };

    ghost limit = { 2 ^ 32 };

    fn value(self) -> u128 {
        u128::from(self.0)
    }

    ghost exact = { λ x y e. e };

    ghost alike = { λ x y. refl };
}

/// `AS` and the number in decimal digits (asplain, RFC 5396, section 2).
impl fmt::Display for Asn {
    ghost output = { λ n. Some (asn_text n) };

    fn fmt<W: fmt::Write>(&self, f: &mut fmt::Formatter<W>) -> fmt::Result {
        let number = self.0;
        write!(f, "AS{number}")
    }
}

/// An INTEGER (X.690, section 8.3).
impl Encode for Asn {
    ghost use Rattle.rpki_der.specs.Write.Written.{number_octets};

    ghost octets = { number_octets };

    ghost is_short = { λ _. Unit {0} };

    ghost small = { λ _ _. tt };

    #[inline(always)]
    fn encoded_len(&self) -> Result<u64, EncodeError> {
        integer(self.0).encoded_len()
    }

    #[inline(always)]
    fn put<W: Sink>(&self, len: u64, out: &mut W) -> Result<(), SinkFailed> {
        integer(self.0).put(len, out)
    }
}

/// One AS number, or those from the first one to the second one (RFC 3779, section 3.2.3.5).
#[derive(Clone, Copy, Debug, PartialEq, Eq)]
pub enum AsBlock {
    Id(Asn),
    Range(Asn, Asn),
}

impl AsBlock {
    // How a block is named: one number as `Id`.
    pub(crate) fn of(block: Block<Asn>) -> AsBlock
        ensures { result ≡ as_block block }
    {
        if block.min == block.max {
            AsBlock::Id(block.min)
        } else {
            AsBlock::Range(block.min, block.max)
        }
    }

    // Its numbers.
    pub(crate) fn range(self) -> Block<Asn>
        ensures { result ≡ as_range self }
    {
        match self {
            AsBlock::Id(id) => Block { min: id, max: id },
            AsBlock::Range(min, max) => Block { min, max },
        }
    }
}

impl From<Asn> for AsBlock {
    ghost from_gives = { λ id block. block ≡ AsBlock.Id id };

    fn from(id: Asn) -> AsBlock {
        AsBlock::Id(id)
    }
}

impl fmt::Display for AsBlock {
    ghost output = { λ block. Some (as_block_text block) };

    fn fmt<W: fmt::Write>(&self, f: &mut fmt::Formatter<W>) -> fmt::Result {
        match *self {
            AsBlock::Id(id) => write!(f, "{id}"),
            AsBlock::Range(min, max) => write!(f, "{min}-{max}"),
        }
    }
}

/// A set of AS numbers.
pub type AsBlocks = Blocks<Asn>;

impl Blocks<Asn> {
    /// The blocks in ascending order, joined where they touch.
    pub fn iter(&self) -> AsBlocksIter<'_>
        ensures items { result ≡ map as_block self.now }
        ensures ranges { map as_range result ≡ self.now }
        ensures canonical { IsCanonical (λ n. n) self.now }
        ensures below { EndBelow (λ n. n) (2 ^ 32) self.now }
    {
        AsBlocksIter(self.as_slice())
    }

    /// Whether each number of the block, whose lower end is not above its upper end, is in the set.
    pub fn contains_block(&self, block: AsBlock) -> bool
        requires { IsBlock (λ n. n) (as_range block) }
        ensures { IsTrue result ↔ Covers (λ n. n) self.now (as_range block ∷ []) }
    {
        covers_block(self.as_slice(), block.range())
    }
}

/// Goes over the blocks of a set of AS numbers.
#[derive(Debug, Drop)]
pub struct AsBlocksIter<'a>(&'a [Block<Asn>]);

impl<'a> Model for AsBlocksIter<'a> {
    ghost use Rattle.std.specs.Prelude.{List, map};
    ghost use Rattle.rpki_resources.specs.declared.asn.AsBlock.{AsBlock};
    ghost use Rattle.rpki_resources.specs.As.{as_block};

    ghost Value = { List AsBlock };

    ghost view = { λ s. map as_block s.0.now };
}

impl<'a> Clone for AsBlocksIter<'a> {
    ghost use Rattle.std.specs.Prelude.{◌≡◌};

    ghost is_clone = { λ x y. y ≡ x };

    fn clone(&self) -> Result<Self, AllocError> {
        Ok(AsBlocksIter(self.0))
    }
}

impl<'a> Iterator for AsBlocksIter<'a> {
    type Item = AsBlock;

    ghost use Rattle.std.specs.Iterator.{YieldsFirst, item_count};

    ghost next_gives = { YieldsFirst (λ s. s) };

    ghost remaining = { item_count (λ s. s) };

    fn next(&mut self) -> Option<AsBlock> {
        let (first, rest) = self.0.split_first()?;
        self.0 = rest;
        Some(AsBlock::of(*first))
    }
}

/// What builds a set of AS numbers.
pub type AsBlocksBuilder = BlocksBuilder<Asn>;

impl BlocksBuilder<Asn> {
    /// Adds a block, whose lower end is not above its upper end. Where there is no memory for it,
    /// the builder stays as it was.
    pub fn push(&mut self, block: AsBlock) -> Result<(), AllocError>
        requires { IsBlock (λ n. n) (as_range block) }
        ensures ok { OnOk result (self.new ≡ self.old ++ as_range block ∷ []) }
        ensures err { OnErr result (self.new ≡ self.old) }
    {
        self.push_block(block.range())
    }

    /// Adds each block that the iterator gives. The iterator comes to an end, and of each block the
    /// lower end is not above the upper end. Where there is no memory for all of them, the builder
    /// stays as it was.
    pub fn extend<I: Iterator<Item = AsBlock> + Drop>(
        &mut self,
        blocks: I,
    ) -> Result<(), AllocError>
        requires can { I.can_next blocks }
        requires ends { IsFinite (I.remaining blocks) }
        requires ordered { HoldsAlong I.next_gives blocks
            (All (λ b. IsBlock (λ n. n) (as_range b))) }
        ensures ok { OnOk result ((xs : List AsBlock) ×
            Drains I.next_gives blocks xs × (self.new ≡ self.old ++ map as_range xs)) }
        ensures err { OnErr result (self.new ≡ self.old) }
    {
        let mut added = Vec::new(self.allocator());
        for block in blocks {
            added.push(block.range())?;
        }
        self.append(added)
    }
}

/// A few AS numbers, in ascending order.
#[derive(Debug, Drop)]
pub struct SmallAsnSet {
    items: Vec<Asn>,
}

impl Model for SmallAsnSet {
    ghost use Rattle.std.specs.Prelude.{ℕ, List};
    ghost use Rattle.std.specs.List.Sorted.{IsStrictlyIncreasing};

    ghost Value = { List ℕ };

    ghost view = { λ s. s.items.items };

    ghost invariant = { λ s. IsStrictlyIncreasing s.items.items };
}

impl SmallAsnSet {
    /// The set of numbers that strictly ascend.
    pub fn from_ascending(asns: Vec<Asn>) -> SmallAsnSet
        requires { IsStrictlyIncreasing asns.items }
        ensures { result ≡ asns.items }
    {
        SmallAsnSet { items: asns }
    }

    /// The numbers, which strictly ascend.
    pub fn as_slice(&self) -> &[Asn]
        ensures numbers { result.now ≡ self.now }
        ensures ascending { IsStrictlyIncreasing self.now }
    {
        &self.items
    }

    /// How many numbers there are.
    pub fn len(&self) -> usize
        ensures { result ≡ length self.now }
    {
        self.items.len()
    }

    /// Whether there is none.
    pub fn is_empty(&self) -> bool
        ensures { IsTrue result ↔ (self.now ≡ []) }
    {
        self.items.is_empty()
    }
}

impl Clone for SmallAsnSet {
    ghost use Rattle.std.specs.Prelude.{◌≡◌, IfOk};

    ghost is_clone = { λ x y. y ≡ x };

    fn clone(&self) -> Result<Self, AllocError>
        ensures { IfOk result (λ y. y ≡ self.now) }
    {
        let mut items = Vec::new(*self.items.allocator());
        items.extend_from_slice(&self.items)?;
        Ok(SmallAsnSet { items })
    }
}
