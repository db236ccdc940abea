//! The lines of the numbers that a content names.

ghost use Rattle.rpki_show.specs.Grows.{Grows};
ghost use Rattle.rpki_show.specs.Texts.Blocks.{as_lines, v4_lines, v6_lines};

use crate::texts::lines::push_each;
use rpki_resources::{AddressFamily, AsBlocks, IpBlocks};
use std::alloc::AllocError;
use std::fmt::Write;

/// Appends a line for each block of AS numbers. Refuses where memory runs out.
pub fn push_numbers(text: &mut String, blocks: &AsBlocks) -> Result<(), AllocError>
    ensures { Grows result text.old text.new (as_lines blocks.now) }
{
    push_each(text, blocks.iter(), |text, block| {
        write!(text, "as {block}\n")
    })
}

/// Appends a line for each block of IPv4 addresses. Refuses where memory runs out.
pub fn push_v4(text: &mut String, blocks: &IpBlocks) -> Result<(), AllocError>
    ensures { Grows result text.old text.new (v4_lines blocks.now) }
{
    push_each(text, blocks.iter(), |text, block| {
        let block = block.display(AddressFamily::Ipv4);
        write!(text, "v4 {block}\n")
    })
}

/// Appends a line for each block of IPv6 addresses. Refuses where memory runs out.
pub fn push_v6(text: &mut String, blocks: &IpBlocks) -> Result<(), AllocError>
    ensures { Grows result text.old text.new (v6_lines blocks.now) }
{
    push_each(text, blocks.iter(), |text, block| {
        let block = block.display(AddressFamily::Ipv6);
        write!(text, "v6 {block}\n")
    })
}
