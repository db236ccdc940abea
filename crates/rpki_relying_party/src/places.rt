//! What a walk asks of places.

ghost use Rattle.std.specs.Prelude.{◌≡◌, ◌⊎◌, ℕ, List, All, Contains, IfOk, OnOk};
ghost use Rattle.rpki_relying_party.specs.Steps.{IsReading};

use std::alloc::{AllocError, Global};

/// What a place told, and how much work it was to read it, one at least.
#[derive(Drop)]
pub struct Told<P, X> {
    pub said: Vec<X>,
    pub children: Vec<P>,
    pub cost: u64,
}

/// What came of reading a place.
#[derive(Drop)]
pub enum Reading<P, X> {
    /// It was read.
    Told(Told<P, X>),
    /// There was no room to read it to its end.
    Cut,
}

/// Places, each of which says something and has children, when it is read.
pub trait Places {
    /// A place.
    type Place: Drop;

    /// One of the things that a place says.
    type Finding: Drop;

    /// What was found so far.
    type Found: Drop;

    // The key of a place: of places with one key, one is read.
    ghost key_of: { Self → Self.Place → List ℕ };

    // The place says this, and these are its children, both in their order. Where places may change
    // between two reads, as files do, more than one such thing may hold of a place.
    ghost tells: { Self → Self.Place → List Self.Finding → List Self.Place → Type 0 };

    // To read the place is so much work.
    ghost costs: { Self → Self.Place → ℕ → Type 0 };

    // To read the place is more work than so much.
    ghost exceeds: { Self → Self.Place → ℕ → Type 0 };

    // The two say the same, though perhaps not for as long.
    ghost alike: { Self.Finding → Self.Finding → Type 0 };

    // This is one of the things that were found.
    ghost lists: { Self.Found → Self.Finding → Type 0 };

    // This was found, or one that says the same for as long.
    ghost has: { Self.Found → Self.Finding → Type 0 };

    /// The key of a place.
    fn key(&self, alloc: Global, place: &Self::Place) -> Result<Vec<u8>, AllocError>
        ensures { IfOk result (λ key. key.items ≡ key_of self.now place.now) };

    /// Reads a place, unless that is more work than there is room for.
    fn read(
        &self,
        alloc: Global,
        place: &Self::Place,
        room: u64,
    ) -> Result<Reading<Self::Place, Self::Finding>, AllocError>
        ensures { IfOk result (IsReading (tells self.now) (costs self.now) (exceeds self.now)
            place.now room) };

    /// Puts what was said to what was found. Where memory runs out nothing is known of `found`.
    fn keep(
        &self,
        alloc: Global,
        said: Vec<Self::Finding>,
        found: &mut Self::Found,
    ) -> Result<(), AllocError>
        ensures lists { OnOk result ((x : Self.Finding) → lists found.new x
            → lists found.old x ⊎ Contains said.items x) }
        ensures stays { OnOk result ((x : Self.Finding) → has found.old x → has found.new x) }
        ensures said { OnOk result (All (has found.new) said.items) };
}
