//! Sets of numbers, as holders of them use them.

ghost use Rattle.std.specs.Prelude.{◌≡◌, ◌↔◌, IsTrue, IfOk, OnOk, OnErr};
ghost use Rattle.rpki_resources.specs.Blocks.{Covers, IsIntersection};
ghost use Rattle.rpki_examples.specs.Sets.{HaveCommon};

use rpki::resources::{AsBlocks, IpBlocks};
use std::alloc::AllocError;

/// The addresses that both sets have. The sets stay as they are.
pub fn shared(first: &IpBlocks, second: &IpBlocks) -> Result<IpBlocks, AllocError>
    ensures { IfOk result (IsIntersection (λ n. n) first.now second.now) }
{
    first.intersection(second)
}

/// Cuts a set down to the addresses that another one has too, and says whether any are left: the
/// two have an address in common. Where there is no memory for it, the set stays as it was.
pub fn cut_down(set: &mut IpBlocks, other: &IpBlocks) -> Result<bool, AllocError>
    ensures cut { OnOk result (IsIntersection (λ n. n) set.old other.now set.new) }
    ensures left { IfOk result (λ yes. IsTrue yes ↔ HaveCommon set.old other.now) }
    ensures err { OnErr result (set.new ≡ set.old) }
{
    set.intersection_assign(other)?;
    Ok(!set.is_empty())
}

/// Whether the first set has all numbers that the other two have.
pub fn has_both(all: &AsBlocks, first: &AsBlocks, second: &AsBlocks) -> bool
    ensures { IsTrue result ↔ (Covers (λ n. n) all.now first.now
        × Covers (λ n. n) all.now second.now) }
{
    all.contains(first) && all.contains(second)
}
