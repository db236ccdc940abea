//! Sets of AS numbers and of IP addresses, as resource certificates claim them (RFC 3779).
//!
//! A set is kept as its blocks, sorted and joined, and contracts see it as the list of these
//! blocks. A number lies in the set where it lies in one of them, and two sets are equal exactly
//! if their blocks are. One core serves AS numbers and addresses. An address is a number of 128
//! bits, and an IPv4 address stands in the upper 32 of them.
#![tactic(auto)]

mod addr;
mod address_bits;
mod as_der;
mod asn;
mod block;
mod blocks;
mod by_family;
mod claim_der;
mod family;
pub mod faults;
mod ip;
mod ip_der;
pub mod laws;
mod list;
mod number;
mod prefix;
mod prefix_der;
mod resources;
mod text;
mod walks;

pub use addr::Addr;
pub use as_der::AsBlocksEncoder;
pub use asn::{AsBlock, AsBlocks, AsBlocksBuilder, AsBlocksIter, Asn, SmallAsnSet};
pub use block::Block;
pub use blocks::{Blocks, BlocksBuilder};
pub use by_family::{ByFamily, OfFamily, take_families};
pub use family::{AddressFamily, AddressFamilyEncoder};
pub use ip::{IpBlock, IpBlocks, IpBlocksBuilder, IpBlocksIter};
pub use ip_der::IpBlocksEncoder;
pub use number::Number;
pub use prefix::Prefix;
pub use resources::{
    AsResources, AsResourcesBuilder, BlocksError, Claim, IpResources, IpResourcesBuilder,
    Overclaimed, Resources, ResourcesBuilder,
};
pub use text::{DisplayAddr, DisplayBlock, DisplayPrefix, MaxLenPrefix};
