//! Lists of values that are read to their end.

ghost use Rattle.std.specs.Prelude.{All, IfOk};
ghost use Rattle.rpki_der.specs.Read.Parse.{all_at};
ghost use Rattle.rpki_der.specs.Read.Reads.{Reads};
ghost use Rattle.rpki_resources.specs.Lists.{TakesOctets};

use rpki_der::{Constructed, DecodeError};
use std::alloc::Global;

/// What stands in a list.
pub trait Listed: Drop + Sized {
    ghost use Rattle.rpki_der.specs.Read.Parse.{Parser};

    /// What its form depends on: the family of addresses, or nothing.
    type Family: Copy;

    // How one is read.
    ghost parser: { Self.Family → Parser Self };

    // What is known of one that was read.
    ghost known: { Self → Type 0 };

    /// Reads one. Refuses by `Malformed`, by a rule of its form, or by `Memory`.
    fn take_one(
        cons: &mut Constructed<'_>,
        alloc: Global,
        family: Self::Family,
    ) -> Result<Self, DecodeError>
        ensures reads { Reads (λ x. x) (parser family) cons.old result cons.new }
        ensures known { IfOk result known };
}

/// Reads them to the end. Refuses as `take_one` does, or by `Memory`.
pub fn take_list<T: Listed>(
    cons: &mut Constructed<'_>,
    alloc: Global,
    family: T::Family,
) -> Result<Vec<T>, DecodeError>
    requires { TakesOctets (T.parser family) }
    ensures reads { Reads (λ list. list.items) (all_at (T.parser family)) cons.old result cons.new }
    ensures known { IfOk result (λ list. All T.known list.items) }
{
    let mut list = Vec::new(alloc);
    while !cons.is_at_end()? {
        let one = T::take_one(cons, alloc, family)?;
        list.push(one)?;
    }
    Ok(list)
}
