//! What a call answers that reads a part of a form: all that the octets begin with in the form, or
//! that they begin with nothing in it.

ghost use Rattle.std.specs.Prelude.{ℕ, List, Result, Option};
ghost use Rattle.rpki_der.specs.declared.mode.Mode.{Mode};
ghost use Rattle.rpki_der.specs.declared.error.DecodeError.{DecodeError};
ghost use Rattle.rpki_der.specs.Grammar.{IsBytes};
ghost use Rattle.rpki_der.specs.Read.Parse.{optional};
ghost use Rattle.rpki_der.specs.Read.Reads.{Found, Reads};
ghost use Rattle.rpki_der.specs.Read.State.{State};
ghost use Rattle.rpki_der.specs.Form.Decodes.{Decodes, DecodesAll, DecodesNext, DecodesIfNext};
ghost use Rattle.rpki_der.specs.Form.Law.{TagSet, IsPart, nothing, is};
ghost use Rattle.rpki_der.specs.Form.Made.{to_end};

use crate::laws::forms::Part;

/// What decodes the front of octets, and what decodes all of them.
pub fn decoded_parts<T: Part>()
    ensures front { (first : TagSet) → IsPart first nothing T.at T.form
        → (mode : Mode) (octets : List ℕ) (result : Result T DecodeError) → IsBytes octets
        → Found (λ t. t) (T.at mode octets) result
        → Decodes (T.form mode) (λ t. t) octets result }
    ensures all { (first apart : TagSet) → IsPart first apart T.at T.form
        → (mode : Mode) (octets : List ℕ) (result : Result T DecodeError) → IsBytes octets
        → Found (λ t. t) (to_end T.at mode octets) result
        → DecodesAll (T.form mode) (λ t. t) octets result }
{}

/// What takes the next value from a reader, and what takes it where it may be absent.
pub fn taken_parts<T: Part>()
    ensures next { (first : TagSet) → IsPart first nothing T.at T.form
        → (old : State) (result : Result T DecodeError) (new : State) → IsBytes old.rest
        → Reads (λ t. t) T.at old result new → DecodesNext T.form (λ t. t) old result new }
    ensures if_next { (tag : ℕ) → IsPart (is tag) nothing T.at T.form
        → (old : State) (result : Result (Option T) DecodeError) (new : State) → IsBytes old.rest
        → Reads (λ t. t) (optional tag T.at) old result new
        → DecodesIfNext tag T.form (λ t. t) old result new }
{}
