//! Sets of numbers, and what builds them.

ghost use Rattle.std.specs.Prelude.{◌≡◌, ◌↔◌, ◌∷◌, [], ◌++◌, List, IsTrue, IfOk, OnOk, OnErr, All};
ghost use Rattle.rpki_resources.specs.declared.block.Block.{Block};
ghost use Rattle.rpki_resources.specs.Blocks.{Covers, EndBelow, IsBlock, IsCanonical, SameSet};
ghost use Rattle.rpki_resources.specs.Blocks.{IsIntersection, IsUnion};

use crate::block::Block;
use crate::number::Number;
use crate::walks::{covers, intersection, sorted, union};
use std::alloc::{AllocError, Global};
use std::marker::Model;

/// A set of numbers, which contracts see as its blocks, sorted and joined.
#[derive(Debug, Drop)]
pub struct Blocks<T: Number> {
    items: Vec<Block<T>>,
}

impl<T: Number> Model for Blocks<T> {
    ghost use Rattle.std.specs.Prelude.{List};
    ghost use Rattle.rpki_resources.specs.declared.block.Block.{Block};
    ghost use Rattle.rpki_resources.specs.Blocks.{EndBelow, IsCanonical};

    ghost Value = { List (Block T) };

    ghost view = { λ s. s.items.items };

    ghost invariant = { λ s. IsCanonical T.number s.items.items
        × EndBelow T.number T.limit s.items.items };
}

impl<T: Number> Blocks<T> {
    /// The set of no numbers.
    pub fn new(alloc: Global) -> Self
        ensures { result ≡ [] }
    {
        Blocks {
            items: Vec::new(alloc),
        }
    }

    // The set of the numbers in these blocks.
    pub(crate) fn of(blocks: Vec<Block<T>>) -> Result<Self, AllocError>
        requires { All (IsBlock T.number) blocks.items }
        ensures same { IfOk result (λ set. SameSet T.number set blocks.items) }
        ensures canonical { IfOk result (IsCanonical T.number) }
    {
        let alloc = *blocks.allocator();
        Ok(Blocks {
            items: sorted(alloc, blocks)?,
        })
    }

    /// Whether no number is in it.
    pub fn is_empty(&self) -> bool
        ensures { IsTrue result ↔ (self.now ≡ []) }
    {
        self.items.is_empty()
    }

    /// The blocks, which ascend: between two of them a number at least is missing. Each number is
    /// below the limit of its type.
    pub fn as_slice(&self) -> &[Block<T>]
        ensures blocks { result.now ≡ self.now }
        ensures canonical { IsCanonical T.number self.now }
        ensures below { EndBelow T.number T.limit self.now }
    {
        &self.items
    }

    /// Whether each number of the other set is in this one.
    pub fn contains(&self, other: &Self) -> bool
        ensures { IsTrue result ↔ Covers T.number self.now other.now }
    {
        covers(self.as_slice(), other.as_slice())
    }

    /// The numbers that are in both sets. Where there is no memory for them, the answer is an
    /// error.
    pub fn intersection(&self, other: &Self) -> Result<Self, AllocError>
        ensures numbers { IfOk result (λ v. IsIntersection T.number self.now other.now v) }
        ensures canonical { IfOk result (IsCanonical T.number) }
    {
        let alloc = *self.items.allocator();
        Ok(Blocks {
            items: intersection(alloc, self.as_slice(), other.as_slice())?,
        })
    }

    /// Keeps the numbers that are in the other set too. Where there is no memory for them, the set
    /// stays as it was.
    pub fn intersection_assign(&mut self, other: &Self) -> Result<(), AllocError>
        ensures ok { OnOk result (IsIntersection T.number self.old other.now self.new) }
        ensures canonical { OnOk result (IsCanonical T.number self.new) }
        ensures err { OnErr result (self.new ≡ self.old) }
    {
        *self = self.intersection(other)?;
        Ok(())
    }

    /// The numbers that are in one of the two sets or in both. Where there is no memory for them,
    /// the answer is an error.
    pub fn union(&self, other: &Self) -> Result<Self, AllocError>
        ensures numbers { IfOk result (λ v. IsUnion T.number self.now other.now v) }
        ensures canonical { IfOk result (IsCanonical T.number) }
    {
        let alloc = *self.items.allocator();
        Ok(Blocks {
            items: union(alloc, self.as_slice(), other.as_slice())?,
        })
    }
}

impl<T: Number> Clone for Blocks<T> {
    ghost use Rattle.std.specs.Prelude.{◌≡◌};

    ghost is_clone = { λ x y. y ≡ x };

    fn clone(&self) -> Result<Self, AllocError>
        ensures { IfOk result (λ y. y ≡ self.now) }
    {
        let mut items = Vec::new(*self.items.allocator());
        items.extend_from_slice(&self.items)?;
        Ok(Blocks { items })
    }
}

impl<T: Number> PartialEq for Blocks<T> {
    ghost use Rattle.std.specs.Prelude.{◌≡◌, ◌↔◌, IsTrue};
    ghost use Rattle.rpki_resources.specs.Blocks.{SameSet};
    ghost use Rattle.rpki_resources.specs.Equal.{same_ends};
    ghost use Rattle.std.specs.Cmp.{on_per, and_per};
    ghost use Rattle.std.specs.Cmp.Lexicographic.{pointwise, lists_per};

    ghost eq = { pointwise (same_ends T.eq) };

    ghost laws = { lists_per (and_per (on_per (λ b. b.min) T.PartialEq.laws)
        (on_per (λ b. b.max) T.PartialEq.laws)) };

    fn eq(&self, other: &Self) -> bool
        ensures eq { result ≡ pointwise (same_ends T.eq) self.now other.now }
        ensures same { IsTrue result ↔ (self.now ≡ other.now) }
        ensures sets { IsTrue result ↔ SameSet T.number self.now other.now }
    {
        self.items == other.items
    }
}

impl<T: Number> Eq for Blocks<T> {
    ghost use Rattle.std.specs.Cmp.{on_equiv, and_equiv};
    ghost use Rattle.std.specs.Cmp.Lexicographic.{lists_equiv};

    ghost laws = { lists_equiv (and_equiv (on_equiv (λ b. b.min) T.Eq.laws)
        (on_equiv (λ b. b.max) T.Eq.laws)) };
}

/// Blocks in any order, of which a set is made.
#[derive(Debug, Drop)]
pub struct BlocksBuilder<T: Number> {
    items: Vec<Block<T>>,
}

impl<T: Number> Model for BlocksBuilder<T> {
    ghost use Rattle.std.specs.Prelude.{List, All};
    ghost use Rattle.rpki_resources.specs.declared.block.Block.{Block};
    ghost use Rattle.rpki_resources.specs.Blocks.{IsBlock};

    ghost Value = { List (Block T) };

    ghost view = { λ s. s.items.items };

    ghost invariant = { λ s. All (IsBlock T.number) s.items.items };
}

impl<T: Number> BlocksBuilder<T> {
    /// A builder to which no block was added.
    pub fn new(alloc: Global) -> Self
        ensures { result ≡ [] }
    {
        BlocksBuilder {
            items: Vec::new(alloc),
        }
    }

    // What its memory comes from.
    pub(crate) fn allocator(&self) -> Global {
        *self.items.allocator()
    }

    // Adds the numbers of a block.
    pub(crate) fn push_block(&mut self, block: Block<T>) -> Result<(), AllocError>
        requires { IsBlock T.number block }
        ensures ok { OnOk result (self.new ≡ self.old ++ block ∷ []) }
        ensures err { OnErr result (self.new ≡ self.old) }
    {
        self.items.push(block)?;
        Ok(())
    }

    /// Adds the numbers of a set. Where there is no memory for its blocks, the builder stays as it
    /// was.
    pub fn push_set(&mut self, set: &Blocks<T>) -> Result<(), AllocError>
        ensures ok { OnOk result (self.new ≡ self.old ++ set.now) }
        ensures err { OnErr result (self.new ≡ self.old) }
    {
        self.items.extend_from_slice(set.as_slice())
    }

    // Adds several blocks, or none.
    pub(crate) fn append(&mut self, mut blocks: Vec<Block<T>>) -> Result<(), AllocError>
        requires { All (IsBlock T.number) blocks.items }
        ensures ok { OnOk result (self.new ≡ self.old ++ blocks.items) }
        ensures err { OnErr result (self.new ≡ self.old) }
    {
        self.items.append(&mut blocks)
    }

    /// The set of the numbers that were added. The blocks may overlap, and may have been added in
    /// any order. Where there is no memory for the set, the builder is dropped with what was added.
    pub fn finalize(self) -> Result<Blocks<T>, AllocError>
        ensures numbers { IfOk result (λ set. SameSet T.number set self) }
        ensures canonical { IfOk result (IsCanonical T.number) }
    {
        let BlocksBuilder { items } = self;
        Blocks::of(items)
    }
}

impl<T: Number> Clone for BlocksBuilder<T> {
    ghost use Rattle.std.specs.Prelude.{◌≡◌};

    ghost is_clone = { λ x y. y ≡ x };

    fn clone(&self) -> Result<Self, AllocError>
        ensures { IfOk result (λ y. y ≡ self.now) }
    {
        let mut items = Vec::new(*self.items.allocator());
        items.extend_from_slice(&self.items)?;
        Ok(BlocksBuilder { items })
    }
}
