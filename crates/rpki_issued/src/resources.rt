//! Claims of the blocks that a caller adds.

ghost use Rattle.std.specs.Prelude.{[], Ok, IfOk};
ghost use Rattle.std.specs.Fn.{FnOnceReturnsAtMut};
ghost use Rattle.rpki_issued.specs.Resources.{IsOfBlocks};

use rpki_resources::{
    AsBlocksBuilder, AsResources, AsResourcesBuilder, IpBlocksBuilder, IpResources,
    IpResourcesBuilder,
};
use std::alloc::{AllocError, Global};

/// The claim of the AS numbers in the blocks that `op` adds to an empty builder: missing, where it
/// adds none. `op` must accept any builder. Refuses where it does, and where memory runs out.
pub fn build_as_resources<F: FnOnce(&mut AsBlocksBuilder) -> Result<(), AllocError>>(
    alloc: Global,
    op: F,
) -> Result<AsResources, AllocError>
    requires { F.IsAlwaysCallable op }
    ensures { IfOk result (IsOfBlocks (FnOnceReturnsAtMut F.FnOnce op [] (Ok tt))) }
{
    let mut builder = AsResourcesBuilder::new(alloc);
    builder.blocks(op)?;
    builder.finalize()
}

/// The claim of the addresses in the blocks that `op` adds to an empty builder: missing, where it
/// adds none. `op` must accept any builder. Refuses where it does, and where memory runs out.
pub fn build_ip_resources<F: FnOnce(&mut IpBlocksBuilder) -> Result<(), AllocError>>(
    alloc: Global,
    op: F,
) -> Result<IpResources, AllocError>
    requires { F.IsAlwaysCallable op }
    ensures { IfOk result (IsOfBlocks (FnOnceReturnsAtMut F.FnOnce op [] (Ok tt))) }
{
    let mut builder = IpResourcesBuilder::new(alloc);
    builder.blocks(op)?;
    builder.finalize()
}
