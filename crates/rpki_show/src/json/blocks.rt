//! Numbers that a content or a certificate names, in JSON.

use crate::json::values::{Members, put_texts};
use rpki_resources::{AddressFamily, AsBlocks, IpBlocks};
use serde_json::{json, put};
use std::alloc::{AllocError, Global};

/// Puts a list of blocks of AS numbers.
pub fn put_as_blocks(
    alloc: Global,
    members: &mut Members,
    name: &str,
    blocks: &AsBlocks,
) -> Result<(), AllocError> {
    put_texts(alloc, members, name, blocks.iter(), |block| {
        block.to_string(alloc)
    })
}

/// Puts a list of blocks of addresses of this family.
pub fn put_ip_blocks(
    alloc: Global,
    members: &mut Members,
    name: &str,
    family: AddressFamily,
    blocks: &IpBlocks,
) -> Result<(), AllocError> {
    put_texts(alloc, members, name, blocks.iter(), |block| {
        block.display(family).to_string(alloc)
    })
}

/// Puts, where blocks are inherited, a list of one word.
pub fn put_inherited(alloc: Global, members: &mut Members, name: &str) -> Result<(), AllocError> {
    let word = json!(in alloc; ["inherit"])?;
    put(members, alloc, name, word)
}
