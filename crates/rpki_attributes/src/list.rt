//! Signed attributes in any order, whose values are not read yet.

ghost use Rattle.std.specs.Prelude.{◌≡◌};
ghost use Rattle.rpki_der.specs.Form.Keyed.{has_key, only_one};
ghost use Rattle.rpki_der.specs.Form.Parts.{items_at};
ghost use Rattle.rpki_der.specs.Read.Reads.{Reads, Tells};
ghost use Rattle.rpki_der.specs.Tags.{SEQUENCE};
ghost use Rattle.rpki_attributes.specs.Attribute.{type_of};
ghost use Rattle.rpki_attributes.specs.Attribute.Read.{attribute_at};

use crate::attribute::{Attribute, OtherTypes, take_opt_attribute};
use crate::faults;
use rpki_der::{Constructed, DecodeError};
use std::alloc::Global;

/// Reads as many attributes as there are. Refuses as `take_opt_attribute` does, or by `Memory`.
pub fn take_list(
    cons: &mut Constructed<'_>,
    alloc: Global,
    others: OtherTypes,
) -> Result<Vec<Attribute>, DecodeError>
    ensures { Reads (λ list. list.items) (items_at SEQUENCE (attribute_at others))
        cons.old result cons.new }
{
    let mut list = Vec::new(alloc);
    while let Some(attribute) = take_opt_attribute(cons, alloc, others)? {
        list.push(attribute)?;
    }
    Ok(list)
}

// Whether an attribute has this type.
fn has(list: &[Attribute], oid: &[u8]) -> bool
    ensures { result ≡ has_key type_of oid.now list.now }
{
    for attribute in list {
        if attribute.oid() == oid {
            return true;
        }
    }
    false
}

/// The attribute of this type. Refuses by `ATTRIBUTE_TWICE` where there is a second one, and by
/// `missing` where there is none.
pub fn only_one<'l>(
    list: &'l [Attribute],
    oid: &[u8],
    missing: &'static str,
) -> Result<&'l Attribute, DecodeError>
    ensures { Tells (λ a. a.now) (only_one type_of oid.now list.now) result }
{
    let mut rest = list;
    while let Some((first, others)) = rest.split_first() {
        if first.oid() == oid {
            return if has(others, oid) {
                Err(DecodeError::refusal(faults::ATTRIBUTE_TWICE))
            } else {
                Ok(first)
            };
        }
        rest = others;
    }
    Err(DecodeError::refusal(missing))
}
