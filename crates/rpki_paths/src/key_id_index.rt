//! Where carried items stand, by their key identifiers.

ghost use Rattle.std.specs.Prelude.{◌≡◌, None, IfOk};
ghost use Rattle.rpki_paths.specs.Index.{IsIndex, IsPut, listed, places_of};

use crate::certificate::KeyId;
use std::alloc::{AllocError, Global};
use std::collections::BTreeMap;

/// The places of carried items by their key identifiers, those of one identifier in carried order.
#[derive(Drop)]
pub struct KeyIdIndex {
    pub map: BTreeMap<KeyId, Vec<usize>>,
}

// Takes the places of an identifier out of a map.
fn removed(alloc: Global, map: &mut BTreeMap<KeyId, Vec<usize>>, id: &KeyId) -> Vec<usize>
    ensures places { result.items ≡ listed map.old id.now }
    ensures others { IsPut id.now None map.old map.new }
{
    match map.remove(id) {
        Some(places) => places,
        None => Vec::new(alloc),
    }
}

impl KeyIdIndex {
    /// The index of these identifiers. An error is want of memory.
    pub fn of(alloc: Global, ids: &[KeyId]) -> Result<KeyIdIndex, AllocError>
        ensures { IfOk result (IsIndex ids.now) }
    {
        let mut map: BTreeMap<KeyId, Vec<usize>> = BTreeMap::new(alloc);
        for i in 0..ids.len() {
            let id = ids[i];
            let mut places = removed(alloc, &mut map, &id);
            places.push(i)?;
            map.insert(id, places)?;
        }
        Ok(KeyIdIndex { map })
    }

    /// The places of this identifier, and none where there is no identifier.
    pub fn named(&self, id: Option<KeyId>) -> &[usize]
        ensures { result.now ≡ places_of self.now id }
    {
        match id {
            None => &[],
            Some(id) => match self.map.get(&id) {
                None => &[],
                Some(places) => places.as_slice(),
            },
        }
    }
}
