//! Lists of entries that are made of values: what these are written as, and the list of it.

ghost use Rattle.std.specs.Prelude.{◌≡◌, [], IfOk, IfErr};
ghost use Rattle.rpki_der.specs.Write.Encode.{Fits};
ghost use Rattle.rpki_lists.specs.Entries.{HoldEntries, entries_of};
ghost use Rattle.rpki_lists.specs.Built.{IsNotBuilt};

use crate::kind::EntryKind;
use crate::list::EntryList;
use bytes::Bytes;
use rpki_basics::BuildError;
use rpki_der::{Encode, EncodeError};
use std::alloc::{AllocError, Global};

/// What a value is written as. Refuses by `TooLong` or by `Memory`.
pub fn octets_of<T: Encode>(alloc: Global, value: &T) -> Result<Vec<u8>, BuildError>
    requires { T.is_der value.now }
    ensures written { IfOk result (λ octets. octets.items ≡ T.octets value.now) }
    ensures refused { IfErr result
        (IsNotBuilt [] (¬ Fits (T.is_short value.now) (T.octets value.now))) }
{
    match value.to_bytes(alloc) {
        Ok(octets) => Ok(octets),
        Err(EncodeError::TooLong) => Err(BuildError::TooLong),
        Err(EncodeError::Memory) => Err(BuildError::Memory),
        Err(EncodeError::NotDer) => unreachable!(),
        Err(EncodeError::Io) => unreachable!(),
    }
}

/// The list whose entries these octets are, one after the other in DER. Refuses where memory runs
/// out.
pub fn list_of<K: EntryKind>(octets: Vec<u8>) -> Result<EntryList<K>, AllocError>
    requires { HoldEntries K.entry_at octets.items }
    ensures { IfOk result (λ list. list ≡ entries_of K.entry_at octets.items) }
{
    let octets = Bytes::from_vec(octets)?;
    match EntryList::of(octets) {
        Some(list) => Ok(list),
        None => unreachable!(),
    }
}
