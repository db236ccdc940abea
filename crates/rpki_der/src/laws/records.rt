//! A record whose fields are read one after another is read exactly, up to the end of its value.

ghost use Rattle.std.specs.Prelude.{◌≡◌, ℕ, List, [], ◌∷◌, Bool, true, None, Some, if◌then◌else◌};
ghost use Rattle.rpki_der.specs.declared.mode.Mode.{Mode};
ghost use Rattle.rpki_der.specs.Grammar.{Within};
ghost use Rattle.rpki_der.specs.Read.Parse.{Parser, in_value};
ghost use Rattle.rpki_der.specs.Form.Law.{TagSet, IsPart, AreParts, nothing, is, or, are_apart};
ghost use Rattle.rpki_der.specs.Form.Made.{Ignored};
ghost use Rattle.rpki_der.specs.Form.Parts.{Parts, and_then};

use crate::laws::forms::Part;

/// The parts of a record that are still to be read, what reads them, and what is known of the
/// record before.
pub trait Fields {
    ghost at: { Parser Self };

    ghost parts: { Mode → Self → List (List ℕ → Type 0) };

    ghost known: { Self → Type 0 };
}

/// The parts of a record after a field, what reads them, and what is known of the record before
/// the field.
pub trait FieldsAfter<T> {
    ghost at: { T → Parser Self };

    ghost parts: { Mode → Self → List (List ℕ → Type 0) };

    ghost known: { Self → Type 0 };
}

/// A field, and then the others, whose reading may depend on it.
pub fn read_fields<T: Part, R: FieldsAfter<T>>()
    ensures { (first after apart : TagSet) (field : R → T) → IsPart first apart T.at T.form
        → ((x : T) → AreParts after (R.at x) R.parts (λ r. R.known r × (x ≡ field r)))
        → are_apart apart after ≡ true
        → AreParts (or first after) (and_then T.at R.at)
        (λ mode r. (λ o. T.form mode o (field r)) ∷ R.parts mode r) R.known }
{}

/// A part that says nothing of the record, and then its fields.
pub fn left_out_parts<T: Part, R: Fields>()
    ensures { (first after apart : TagSet) → IsPart first apart T.at T.form
        → AreParts after R.at R.parts R.known → are_apart apart after ≡ true
        → AreParts (or first after) (and_then T.at (λ _. R.at))
        (λ mode r. Ignored (T.form mode) ∷ R.parts mode r) R.known }
{}

/// A test of the fields before, which the record passes.
pub fn tested_fields<R: Fields>()
    ensures { (after : TagSet) (test : Bool) → ((r : R) → R.known r → test ≡ true)
        → (test ≡ true → AreParts after R.at R.parts R.known)
        → AreParts after (λ mode b. if test then R.at mode b else None) R.parts R.known }
{}

/// The end of the fields, where all are known, and the value that holds them (X.690, sections 8.9
/// to 8.12 and 8.14).
pub fn whole_records<R: Fields>()
    ensures done { (r : R) → R.known r → ((s : R) → R.known s → r ≡ s)
        → AreParts nothing (λ mode b. Some (r, b)) (λ mode s. []) R.known }
    ensures within { (tag : ℕ) (first : TagSet) → AreParts first R.at R.parts R.known
        → IsPart (is tag) nothing (in_value tag R.at)
        (λ mode o r. Within mode tag (Parts (R.parts mode r)) o × R.known r) }
{}
