//! Sets of AS numbers and of IP addresses.

pub use rpki_resources::{
    Addr, AddressFamily, AddressFamilyEncoder, AsBlock, AsBlocks, AsBlocksBuilder, AsBlocksEncoder,
    AsBlocksIter, AsResources, AsResourcesBuilder, Asn, Block, Blocks, BlocksBuilder, BlocksError,
    ByFamily, Claim, DisplayAddr, DisplayBlock, DisplayPrefix, IpBlock, IpBlocks, IpBlocksBuilder,
    IpBlocksEncoder, IpBlocksIter, IpResources, IpResourcesBuilder, MaxLenPrefix, Number, OfFamily,
    Overclaimed, Prefix, Resources, ResourcesBuilder, SmallAsnSet, faults, laws, take_families,
};
