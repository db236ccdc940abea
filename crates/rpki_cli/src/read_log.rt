//! The names that a store was asked for.

ghost use Rattle.std.specs.Prelude.{◌≡◌, ◌∷◌, ◌++◌, ℕ, List, []};
ghost use Rattle.std.specs.Borrow.{ftrue};

use std::marker::Model;

/// Names of files in an order, which clauses alone see: a store notes here those that it was asked
/// for. It takes no bytes.
#[derive(Drop)]
pub struct ReadLog {
    seal: (),
    pub ghost names: { List (List ℕ) },
}

impl Model for ReadLog {
    ghost also_owns = { λ _. ftrue };
}

impl ReadLog {
    /// No name.
    pub fn empty() -> ReadLog
        ensures { result.names ≡ [] }
    {
        ReadLog { seal: () }
    }

    /// These names, and one more after them.
    pub fn and(&self, name: &str) -> ReadLog
        ensures { result.names ≡ self.now.names ++ name.now ∷ [] }
    {
        let _ = self;
        let _ = name;
        ReadLog { seal: () }
    }
}
