//! Sets of rows.

use rpki_resources::{
    Addr, AsBlock, AsBlocks, AsBlocksBuilder, Asn, IpBlock, IpBlocks, IpBlocksBuilder,
};
use std::alloc::{AllocError, Global};

/// The first number and the last one of each block.
pub type Numbers = &'static [(u32, u32)];

/// The AS numbers of these blocks, each with its lower end first.
pub fn as_set(alloc: Global, blocks: &[(u32, u32)]) -> Result<AsBlocks, AllocError> {
    let mut builder = AsBlocksBuilder::new(alloc);
    for (min, max) in blocks {
        if *min <= *max {
            builder.push(AsBlock::Range(Asn::from_u32(*min), Asn::from_u32(*max)))?;
        }
    }
    builder.finalize()
}

/// The addresses of these blocks, each with its lower end first.
pub fn ip_set(alloc: Global, blocks: &[(u128, u128)]) -> Result<IpBlocks, AllocError> {
    let mut builder = IpBlocksBuilder::new(alloc);
    for (min, max) in blocks {
        if *min <= *max {
            builder.push(IpBlock::Range(Addr::from_bits(*min), Addr::from_bits(*max)))?;
        }
    }
    builder.finalize()
}
