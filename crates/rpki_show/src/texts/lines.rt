//! Lines of each of several items.

ghost use Rattle.std.specs.Prelude.{ℕ, List};
ghost use Rattle.std.specs.List.{flat_map};
ghost use Rattle.rpki_show.specs.Grows.{Grows, AppendsItem};

use rpki_lists::{EntryIter, EntryKind, SliceEntry};
use rpki_resources::{AsBlock, AsBlocksIter, IpBlock, IpBlocksIter};
use rpki_routes::{FriendlyRoaIpAddress, RoaAddrIter};
use std::alloc::AllocError;
use std::slice::Iter;

/// An iterator that contracts see as the list of what it has left.
pub trait Listed: Iterator {
    ghost use Rattle.std.specs.Prelude.{List, Option};
    ghost use Rattle.std.specs.Iterator.{YieldsFirstBy, IsFinite};

    /// What an item says.
    type Shown;

    // What this item says.
    ghost shown: { Self.Item → Self.Shown };

    // What the items that are left say, in order.
    ghost rest: { Self → List Self.Shown };

    // An item may be asked for at any time.
    ghost can: { (s : Self) → Self.can_next s };

    // The first of those that are left comes, if there is one.
    ghost gives: { (s : Self) (r : Option Self.Item) (t : Self) → Self.next_gives s r t
        → YieldsFirstBy shown rest s r t };

    // There is an end.
    ghost ends: { (s : Self) → IsFinite (Self.remaining s) };
}

/// Appends a line for each item, in order, as `push` appends that of one. Where each call of `push`
/// appends the line of its item, all lines are appended, whatever the line of an item is. Refuses
/// where a call of `push` does.
pub fn push_each<I, F>(text: &mut String, items: I, push: F) -> Result<(), AllocError>
where
    I: Listed,
    I::Item: Drop,
    F: Fn(&mut String, I::Item) -> Result<(), AllocError>,
    requires { F.IsAlwaysCallable push }
    ensures { (line : I.Shown → List ℕ) → AppendsItem (F.post push) I.shown line
        → Grows result text.old text.new (flat_map line (I.rest items)) }
{
    for item in items {
        push(text, item)?;
    }
    Ok(())
}

impl<E: SliceEntry> Listed for EntryIter<E> {
    type Shown = <E::EntryKind as EntryKind>::Shown;

    ghost shown = { E.shown };

    ghost rest = { λ s. s };

    ghost can = { λ s. tt };

    ghost gives = { λ s r t h. h };

    ghost ends = { λ s. tt };
}

impl<'a> Listed for RoaAddrIter<'a> {
    type Shown = FriendlyRoaIpAddress;

    ghost shown = { λ x. x };

    ghost rest = { λ s. s };

    ghost can = { λ s. tt };

    ghost gives = { λ s r t h. h };

    ghost ends = { λ s. tt };
}

impl<'a> Listed for AsBlocksIter<'a> {
    type Shown = AsBlock;

    ghost shown = { λ x. x };

    ghost rest = { λ s. s };

    ghost can = { λ s. tt };

    ghost gives = { λ s r t h. h };

    ghost ends = { λ s. tt };
}

impl<'a> Listed for IpBlocksIter<'a> {
    type Shown = IpBlock;

    ghost shown = { λ x. x };

    ghost rest = { λ s. s };

    ghost can = { λ s. tt };

    ghost gives = { λ s r t h. h };

    ghost ends = { λ s. tt };
}

impl<'a, T> Listed for Iter<'a, T> {
    ghost use Rattle.std.specs.Slice.Iter.{iter_rest};
    ghost use Rattle.std.proofs.Common.{rules};
    ghost use Rattle.std.proofs.lemmas.List.{nil_from_length};

    type Shown = T;

    ghost shown = { λ x. x.now };

    ghost rest = { iter_rest };

    ghost can = { λ s. tt };

    ghost gives = { Prim.search (rules, nil_from_length) };

    ghost ends = { λ s. tt };
}
