//! The purposes of a key.

ghost use Rattle.std.specs.Prelude.{◌≡◌};
ghost use Rattle.rpki_der.specs.Form.Decodes.{DecodesNext};
ghost use Rattle.rpki_der.specs.Form.Parts.{sequence_of_at};
ghost use Rattle.rpki_der.specs.Read.Parse.{oid_at};
ghost use Rattle.rpki_der.specs.Read.Reads.{Reads, Stays};
ghost use Rattle.rpki_der.specs.Tags.{OBJECT_IDENTIFIER};
ghost use Rattle.rpki_extensions.specs.Purposes.{PurposesForm, purposes_at};

use crate::faults;
use rpki_der::{Constructed, DecodeError, ListItem, Oid, Tag};
use std::alloc::{AllocError, Global};
use std::marker::Model;

/// A purpose of a key (RFC 5280, section 4.2.1.12).
#[derive(Debug, Drop)]
pub struct Purpose(Oid);

impl Model for Purpose {
    ghost use Rattle.std.specs.Prelude.{ℕ, List};

    ghost Value = { List ℕ };

    ghost view = { λ p. p.0 };
}

impl Clone for Purpose {
    ghost is_clone = { λ p copy. copy ≡ p };

    fn clone(&self) -> Result<Purpose, AllocError> {
        Ok(Purpose(self.0.clone()?))
    }
}

impl Purpose {
    /// Its identifier.
    pub fn oid(&self) -> &Oid
        ensures { result.now ≡ self.now }
    {
        &self.0
    }
}

impl ListItem for Purpose {
    ghost use Rattle.rpki_der.specs.Tags.{OBJECT_IDENTIFIER};
    ghost use Rattle.rpki_der.specs.Read.Parse.{oid_at, oid_of};

    ghost tag = { OBJECT_IDENTIFIER };

    ghost at = { oid_at };

    #[tactic(auto, unfolding(rpki_der::specs::Read::Parse::oid_of))]
    fn take_opt_from(
        _alloc: Global,
        cons: &mut Constructed<'_>,
    ) -> Result<Option<Purpose>, DecodeError> {
        match cons.take_opt_primitive_if(Tag::OBJECT_IDENTIFIER)? {
            None => Ok(None),
            Some(contents) => match Oid::from_bytes(contents) {
                Some(oid) => Ok(Some(Purpose(oid))),
                None => Err(cons.fail(DecodeError::Malformed)),
            },
        }
    }
}

// Reads a SEQUENCE OF purposes.
fn take_list(alloc: Global, cons: &mut Constructed<'_>) -> Result<Vec<Purpose>, DecodeError>
    ensures reads { Reads (λ purposes. purposes.items) (sequence_of_at OBJECT_IDENTIFIER oid_at)
        cons.old result cons.new }
    ensures stays { Stays result cons.new }
{
    cons.take_sequence(|cons| cons.take_items(alloc))
}

// Reads the purposes, of which there is one at least.
#[tactic(auto, unfolding(rpki_der::specs::Read::Parse::tested))]
fn take_some(alloc: Global, cons: &mut Constructed<'_>) -> Result<Vec<Purpose>, DecodeError>
    ensures reads { Reads (λ purposes. purposes.items) purposes_at cons.old result cons.new }
    ensures stays { Stays result cons.new }
{
    let purposes = take_list(alloc, cons)?;
    if purposes.is_empty() {
        return Err(cons.refuse_for(faults::NO_PURPOSES));
    }
    Ok(purposes)
}

/// Reads the purposes of a key, an extended key usage (RFC 5280, section 4.2.1.12). Refuses by
/// `NO_PURPOSES` where there is none, by `Malformed`, or by `Memory`.
pub fn take_purposes(alloc: Global, cons: &mut Constructed<'_>) -> Result<Vec<Purpose>, DecodeError>
    ensures reads { Reads (λ purposes. purposes.items) purposes_at cons.old result cons.new }
    ensures decodes { DecodesNext PurposesForm (λ purposes. purposes.items)
        cons.old result cons.new }
    ensures stays { Stays result cons.new }
{
    cons.holds_octets();
    take_some(alloc, cons)
}
