//! A validation run under a trust anchor.

use crate::copy::Repository;
use crate::found::{Finding, Found};
use crate::pass::Pass;
use crate::place::{Place, key_of};
use crate::places::{Places, Reading};
use crate::point::read_place;
use rpki_basics::Crypto;
use std::alloc::{AllocError, Global};

impl<'a, R: Repository, C: Crypto> Places for Pass<'a, R, C> {
    type Place = Place;

    type Finding = Finding;

    type Found = Found;

    ghost use Rattle.std.specs.Prelude.{◌⊎◌, All, Contains, OnOk};
    ghost use Rattle.rpki_relying_party.specs.declared.found.Finding.{Finding};
    ghost use Rattle.rpki_relying_party.specs.Costs.{PlaceCosts, PlaceExceeds};
    ghost use Rattle.rpki_relying_party.specs.Found.{Lists, HasAsLong, SaysLike};
    ghost use Rattle.rpki_relying_party.specs.Passes.{setting};
    ghost use Rattle.rpki_relying_party.specs.Place.{key_of};
    ghost use Rattle.rpki_relying_party.specs.Tells.{PlaceTells};

    ghost key_of = { λ pass. key_of };

    ghost tells = { λ pass. PlaceTells (setting R.finds C.digest_of C.is_signed pass) };

    ghost costs = { λ pass. PlaceCosts (setting R.finds C.digest_of C.is_signed pass) };

    ghost exceeds = { λ pass. PlaceExceeds (setting R.finds C.digest_of C.is_signed pass) };

    ghost alike = { SaysLike };

    ghost lists = { Lists };

    ghost has = { HasAsLong };

    fn key(&self, alloc: Global, place: &Place) -> Result<Vec<u8>, AllocError> {
        key_of(alloc, place)
    }

    fn read(
        &self,
        alloc: Global,
        place: &Place,
        room: u64,
    ) -> Result<Reading<Place, Finding>, AllocError> {
        read_place(alloc, self, place, room)
    }

    fn keep(&self, alloc: Global, said: Vec<Finding>, found: &mut Found) -> Result<(), AllocError>
        ensures lists { OnOk result ((x : Finding) → Lists found.new x
            → Lists found.old x ⊎ Contains said.items x) }
        ensures stays { OnOk result ((x : Finding) → HasAsLong found.old x
            → HasAsLong found.new x) }
        ensures said { OnOk result (All (HasAsLong found.new) said.items) }
    {
        found.keep_all(alloc, said)
    }
}
