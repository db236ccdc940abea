//! As many values of one kind as there are.

ghost use Rattle.rpki_der.specs.Form.Parts.{items_at};
ghost use Rattle.rpki_der.specs.Read.Reads.{Reads, Stays};

use crate::error::DecodeError;
use crate::read::constructed::Constructed;
use std::alloc::Global;

/// What stands in a SEQUENCE OF or a SET OF (X.690, sections 8.10 and 8.12): values with one tag.
pub trait ListItem: Sized {
    ghost use Rattle.std.specs.Prelude.{◌<◌, ℕ, length, IfOk, IfSome};
    ghost use Rattle.rpki_der.specs.Read.Parse.{Parser, optional};

    // The tag of each.
    ghost tag: { ℕ };

    // What reads one.
    ghost at: { Parser Self };

    /// Takes the value in front if it has the tag. Refuses by `Malformed` or the `Content` fault
    /// where it has the tag and is not of the form, or by `Memory`. A value that is taken has an
    /// octet at least.
    fn take_opt_from(alloc: Global, cons: &mut Constructed<'_>) -> Result<Option<Self>, DecodeError>
        ensures reads { Reads (λ item. item) (optional tag at) cons.old result cons.new }
        ensures shorter { IfOk result
            (λ item. IfSome item (λ _. length cons.new.rest < length cons.old.rest)) };
}

impl<'a> Constructed<'a> {
    /// Takes as many values as there are that have the tag of such items, in the order in which
    /// they stand (X.690, sections 8.10 and 8.12). Refuses as the items do, or by `Memory`.
    #[tactic(auto, using(crate::proofs::Reading::Marked::reads_marked))]
    pub fn take_items<T: ListItem + Drop>(&mut self, alloc: Global) -> Result<Vec<T>, DecodeError>
        ensures reads { Reads (λ items. items.items) (items_at T.tag T.at)
            self.old result self.new }
        ensures stays { Stays result self.new }
    {
        match self.gather(alloc) {
            Ok(items) => Ok(items),
            Err(error) => Err(self.mark(error)),
        }
    }

    // Takes the items, and leaves the reader as the refusal of an item leaves it.
    fn gather<T: ListItem + Drop>(&mut self, alloc: Global) -> Result<Vec<T>, DecodeError>
        ensures { Reads (λ items. items.items) (items_at T.tag T.at) self.old result self.new }
    {
        let mut items = Vec::new(alloc);
        while let Some(item) = T::take_opt_from(alloc, self)? {
            items.push(item)?;
        }
        Ok(items)
    }
}
