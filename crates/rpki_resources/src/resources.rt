//! What a certificate claims of one family of numbers.

ghost use Rattle.std.specs.Prelude.{◌≡◌, ℕ, ◌↔◌, ◌++◌, List, Result, Ok, Err, IsTrue, IsOk, IfOk};
ghost use Rattle.std.specs.Prelude.{OnOk, OnErr, Some, codes};
ghost use Rattle.std.specs.Fn.{FnOnceReturnsAtMut};
ghost use Rattle.std.specs.declared.alloc.AllocError.{AllocError};
ghost use Rattle.rpki_resources.specs.declared.block.Block.{Block};
ghost use Rattle.rpki_resources.specs.declared.resources.Claim.{Claim};
ghost use Rattle.rpki_resources.specs.Claim.{claim_of, IsCoveredBy, HasBlocks, added, IsBuilt};
ghost use Rattle.rpki_resources.specs.Text.{blocks_error_text};

use crate::addr::Addr;
use crate::asn::{AsBlocksBuilder, Asn};
use crate::blocks::{Blocks, BlocksBuilder};
use crate::ip::IpBlocksBuilder;
use crate::number::Number;
use std::alloc::{AllocError, Global};
use std::error::Error;
use std::fmt;
use std::marker::Model;

/// What is claimed of a family: nothing, what the issuer has, or these numbers (RFC 3779, sections
/// 2.2.3.5 and 3.2.3.3).
#[derive(Debug, Drop)]
pub enum Claim<B> {
    /// The family is not named.
    Missing,
    /// The numbers are those of the issuer.
    Inherit,
    /// These numbers.
    Explicit(B),
}

impl<B: Clone> Clone for Claim<B> {
    ghost use Rattle.rpki_resources.specs.Claim.{IsClaimClone};

    ghost is_clone = { IsClaimClone B.is_clone };

    fn clone(&self) -> Result<Self, AllocError> {
        match self {
            Claim::Missing => Ok(Claim::Missing),
            Claim::Inherit => Ok(Claim::Inherit),
            Claim::Explicit(numbers) => Ok(Claim::Explicit(numbers.clone()?)),
        }
    }
}

/// The claim of a certificate for one family. One that is missing stands for the empty set.
#[derive(Debug, Drop)]
pub struct Resources<T: Number> {
    claim: Claim<Blocks<T>>,
}

impl<T: Number> Model for Resources<T> {
    ghost use Rattle.std.specs.Prelude.{List};
    ghost use Rattle.rpki_resources.specs.declared.block.Block.{Block};
    ghost use Rattle.rpki_resources.specs.declared.resources.Claim.{Claim};

    ghost Value = { Claim (List (Block T)) };

    ghost view = { λ r. r.claim };
}

/// Why a claim has no blocks.
#[derive(Clone, Copy, Debug, PartialEq, Eq)]
pub enum BlocksError {
    /// The issuer alone knows them.
    Inherit,
    /// There is no memory for them.
    Memory,
}

impl fmt::Display for BlocksError {
    ghost output = { λ error. Some (blocks_error_text error) };

    fn fmt<W: fmt::Write>(&self, f: &mut fmt::Formatter<W>) -> fmt::Result {
        match self {
            BlocksError::Inherit => f.write_str("inherited resources"),
            BlocksError::Memory => f.write_str("out of memory"),
        }
    }
}

impl Error for BlocksError {}

/// Numbers are claimed that are not all in the resources.
#[derive(Clone, Copy, Debug, PartialEq, Eq)]
pub struct Overclaimed;

impl fmt::Display for Overclaimed {
    ghost output = { λ _. Some (codes "overclaimed resources") };

    fn fmt<W: fmt::Write>(&self, f: &mut fmt::Formatter<W>) -> fmt::Result {
        f.write_str("overclaimed resources")
    }
}

impl Error for Overclaimed {}

impl<T: Number> Resources<T> {
    /// The family is not named.
    pub fn missing() -> Self
        ensures { result ≡ Claim.Missing }
    {
        Resources {
            claim: Claim::Missing,
        }
    }

    /// The numbers are those of the issuer.
    pub fn inherit() -> Self
        ensures { result ≡ Claim.Inherit }
    {
        Resources {
            claim: Claim::Inherit,
        }
    }

    /// These numbers. Where there is none the family is missing.
    pub fn blocks(blocks: Blocks<T>) -> Self
        ensures { result ≡ claim_of blocks }
    {
        if blocks.is_empty() {
            Resources::missing()
        } else {
            Resources::explicit(blocks)
        }
    }

    /// These numbers, and the family is named even where there is none.
    pub fn explicit(blocks: Blocks<T>) -> Self
        ensures { result ≡ Claim.Explicit blocks }
    {
        Resources {
            claim: Claim::Explicit(blocks),
        }
    }

    /// What is claimed.
    pub fn claim(&self) -> &Claim<Blocks<T>>
        ensures { result.now ≡ self.now }
    {
        &self.claim
    }

    /// Whether the family is not named.
    pub fn is_missing(&self) -> bool
        ensures { IsTrue result ↔ (self.now ≡ Claim.Missing) }
    {
        match &self.claim {
            Claim::Missing => true,
            Claim::Inherit => false,
            Claim::Explicit(_) => false,
        }
    }

    /// Whether the numbers are those of the issuer.
    pub fn is_inherited(&self) -> bool
        ensures { IsTrue result ↔ (self.now ≡ Claim.Inherit) }
    {
        match &self.claim {
            Claim::Missing => false,
            Claim::Inherit => true,
            Claim::Explicit(_) => false,
        }
    }

    /// Whether the family is named.
    pub fn is_present(&self) -> bool
        ensures { IsTrue result ↔ ¬ (self.now ≡ Claim.Missing) }
    {
        !self.is_missing()
    }

    /// The blocks: none where the family is missing. What is inherited has no blocks here, and
    /// answers `BlocksError::Inherit`. Where there is no memory for a copy of them, the answer is
    /// `BlocksError::Memory`.
    pub fn to_blocks(&self, alloc: Global) -> Result<Blocks<T>, BlocksError>
        ensures blocks { IfOk result (HasBlocks self.now) }
        ensures missing { self.now ≡ Claim.Missing → IsOk result }
        ensures inherit { (result ≡ Err BlocksError.Inherit) ↔ (self.now ≡ Claim.Inherit) }
    {
        match &self.claim {
            Claim::Missing => Ok(Blocks::new(alloc)),
            Claim::Inherit => Err(BlocksError::Inherit),
            Claim::Explicit(blocks) => match blocks.clone() {
                Ok(blocks) => Ok(blocks),
                Err(_) => Err(BlocksError::Memory),
            },
        }
    }
}

impl<T: Number> Clone for Resources<T> {
    ghost use Rattle.std.specs.Prelude.{◌≡◌};

    ghost is_clone = { λ x y. y ≡ x };

    fn clone(&self) -> Result<Self, AllocError>
        ensures { IfOk result (λ y. y ≡ self.now) }
    {
        match &self.claim {
            Claim::Missing => Ok(Resources::missing()),
            Claim::Inherit => Ok(Resources::inherit()),
            Claim::Explicit(blocks) => Ok(Resources::explicit(blocks.clone()?)),
        }
    }
}

impl<T: Number> Blocks<T> {
    /// Whether the resources have each of these numbers (RFC 3779, sections 2.3 and 3.3). What is
    /// inherited has all of them, and a family that is missing has none. Refuses by `Overclaimed`
    /// where they lack a number.
    pub fn verify_covered(&self, resources: &Resources<T>) -> Result<(), Overclaimed>
        ensures { IsOk result ↔ IsCoveredBy T.number resources.now self.now }
    {
        let covered = match &resources.claim {
            Claim::Missing => self.is_empty(),
            Claim::Inherit => true,
            Claim::Explicit(blocks) => blocks.contains(self),
        };
        if covered { Ok(()) } else { Err(Overclaimed) }
    }
}

/// What builds the claim of a family. It is missing until it is inherited or has blocks.
#[derive(Debug, Drop)]
pub struct ResourcesBuilder<T: Number> {
    alloc: Global,
    claim: Claim<BlocksBuilder<T>>,
}

impl<T: Number> Model for ResourcesBuilder<T> {
    ghost use Rattle.std.specs.Prelude.{List};
    ghost use Rattle.rpki_resources.specs.declared.block.Block.{Block};
    ghost use Rattle.rpki_resources.specs.declared.resources.Claim.{Claim};

    ghost Value = { Claim (List (Block T)) };

    ghost view = { λ b. b.claim };
}

impl<T: Number> ResourcesBuilder<T> {
    /// A builder of a claim that is missing.
    pub fn new(alloc: Global) -> Self
        ensures { result ≡ Claim.Missing }
    {
        ResourcesBuilder {
            alloc,
            claim: Claim::Missing,
        }
    }

    /// The numbers are those of the issuer, and blocks that were added are dropped.
    pub fn inherit(&mut self)
        ensures { self.new ≡ Claim.Inherit }
    {
        self.claim = Claim::Inherit;
    }

    /// Adds the numbers of a set. What was inherited is inherited no longer. Where there is no
    /// memory for its blocks, the builder stays as it was.
    pub fn push_set(&mut self, set: &Blocks<T>) -> Result<(), AllocError>
        ensures ok { OnOk result (self.new ≡ Claim.Explicit (added self.old ++ set.now)) }
        ensures err { OnErr result (self.new ≡ self.old) }
    {
        match &mut self.claim {
            Claim::Explicit(blocks) => blocks.push_set(set),
            Claim::Missing | Claim::Inherit => {
                let mut blocks = BlocksBuilder::new(self.alloc);
                blocks.push_set(set)?;
                self.claim = Claim::Explicit(blocks);
                Ok(())
            }
        }
    }

    // A copy of the blocks that were added.
    fn added(&self) -> Result<BlocksBuilder<T>, AllocError>
        ensures { IfOk result (λ blocks. blocks ≡ added self.now) }
    {
        match &self.claim {
            Claim::Missing => Ok(BlocksBuilder::new(self.alloc)),
            Claim::Inherit => Ok(BlocksBuilder::new(self.alloc)),
            Claim::Explicit(blocks) => blocks.clone(),
        }
    }

    /// The claim: missing or inherited where the builder's is, and else the set of the numbers of
    /// the blocks that were added, or missing where these have none. Where there is no memory for
    /// the set, the builder is dropped with what was added.
    pub fn finalize(self) -> Result<Resources<T>, AllocError>
        ensures { IfOk result (IsBuilt T.number self) }
    {
        let ResourcesBuilder { alloc: _, claim } = self;
        match claim {
            Claim::Missing => Ok(Resources::missing()),
            Claim::Inherit => Ok(Resources::inherit()),
            Claim::Explicit(blocks) => Ok(Resources::blocks(blocks.finalize()?)),
        }
    }
}

impl ResourcesBuilder<Asn> {
    /// Adds the blocks that `op` adds to those that are there. What was inherited is inherited no
    /// longer. `op` is one that may be called on every builder, and is lent a copy. Where it
    /// answers an error, or there is no memory for the copy, the builder stays as it was.
    pub fn blocks<F: FnOnce(&mut AsBlocksBuilder) -> Result<(), AllocError>>(
        &mut self,
        op: F,
    ) -> Result<(), AllocError>
        requires { F.IsAlwaysCallable op }
        ensures ok { OnOk result ((after : List (Block ℕ)) ×
            FnOnceReturnsAtMut F.FnOnce op (added self.old) (Ok tt) after
            × (self.new ≡ Claim.Explicit after)) }
        ensures err { OnErr result (self.new ≡ self.old) }
    {
        let mut numbers = self.added()?;
        op(&mut numbers)?;
        self.claim = Claim::Explicit(numbers);
        Ok(())
    }
}

impl ResourcesBuilder<Addr> {
    /// Adds the blocks that `op` adds to those that are there. What was inherited is inherited no
    /// longer. `op` is one that may be called on every builder, and is lent a copy. Where it
    /// answers an error, or there is no memory for the copy, the builder stays as it was.
    pub fn blocks<F: FnOnce(&mut IpBlocksBuilder) -> Result<(), AllocError>>(
        &mut self,
        op: F,
    ) -> Result<(), AllocError>
        requires { F.IsAlwaysCallable op }
        ensures ok { OnOk result ((after : List (Block ℕ)) ×
            FnOnceReturnsAtMut F.FnOnce op (added self.old) (Ok tt) after
            × (self.new ≡ Claim.Explicit after)) }
        ensures err { OnErr result (self.new ≡ self.old) }
    {
        let mut addresses = self.added()?;
        op(&mut addresses)?;
        self.claim = Claim::Explicit(addresses);
        Ok(())
    }
}

impl<T: Number> Clone for ResourcesBuilder<T> {
    ghost use Rattle.std.specs.Prelude.{◌≡◌};

    ghost is_clone = { λ x y. y ≡ x };

    fn clone(&self) -> Result<Self, AllocError>
        ensures { IfOk result (λ y. y ≡ self.now) }
    {
        let claim = match &self.claim {
            Claim::Missing => Claim::Missing,
            Claim::Inherit => Claim::Inherit,
            Claim::Explicit(blocks) => Claim::Explicit(blocks.clone()?),
        };
        Ok(ResourcesBuilder {
            alloc: self.alloc,
            claim,
        })
    }
}

/// What is claimed of AS numbers.
pub type AsResources = Resources<Asn>;

/// What builds a claim of AS numbers.
pub type AsResourcesBuilder = ResourcesBuilder<Asn>;

/// What is claimed of the addresses of a family.
pub type IpResources = Resources<Addr>;

/// What builds a claim of addresses.
pub type IpResourcesBuilder = ResourcesBuilder<Addr>;
