//! Items in any order, told apart by their keys: what is looked up is what the items say.

ghost use Rattle.std.specs.Prelude.{◌≡◌, ◌↔◌, ℕ, List, Option, Some, All, Decides};
ghost use Rattle.rpki_der.specs.Form.Keyed.{IsSaid, AreDistinct, Keyed, Once, First};
ghost use Rattle.rpki_der.specs.Form.Keyed.{are_distinct, said, said_once, first_said};

/// An item, its key, what it says of an X, and what understands it.
pub trait Saying<X> {
    ghost key: { Self → List ℕ };

    ghost good: { Self → Type 0 };

    ghost says: { Self → X → Type 0 };

    ghost say: { Self → Option X };
}

/// Whether no two items have the same key.
pub fn distinct_items<I: Saying<X>, X>()
    ensures { (items : List I) → Decides (are_distinct I.key items) (AreDistinct I.key items) }
{}

/// The item with a key, the only one with it, and the first that says something.
pub fn keyed_items<I: Saying<X>, X>()
    ensures keyed { IsSaid I.say I.good I.says → (oid : List ℕ) (items : List I) → All I.good items
        → AreDistinct I.key items → (o : Option X)
        → (said I.key I.say oid items ≡ Some o) ↔ Keyed I.key I.says items oid o }
    ensures once { IsSaid I.say I.good I.says → (oid : List ℕ) (items : List I) → All I.good items
        → (x : X) → (said_once I.key I.say oid items ≡ Some x) ↔ Once I.key I.says items oid x }
    ensures first { IsSaid I.say I.good I.says → (items : List I) → All I.good items
        → (o : Option X) → (first_said I.say items ≡ o) ↔ First I.says items o }
{}
