//! What the words of ASN.1 say: where a part of a form is read exactly, in both modes, and what is
//! in it in DER is in it in BER, so it is with what the words make of it.

ghost use Rattle.std.specs.Prelude.{◌≡◌, ℕ, List, Bool, true, false, Option, Some};
ghost use Rattle.rpki_der.specs.Numbers.{MAX_DEPTH};
ghost use Rattle.rpki_der.specs.declared.mode.Mode.TheVariants.{Der};
ghost use Rattle.rpki_der.specs.declared.mode.Mode.{Mode};
ghost use Rattle.rpki_der.specs.Tags.{BIT_STRING, OCTET_STRING, OCTET_STRING_IN_PIECES};
ghost use Rattle.rpki_der.specs.Grammar.{Within, Items, Optional, IsUnique, IsBytes};
ghost use Rattle.rpki_der.specs.Read.Parse.{Parser, in_value, optional, all_at, tested, is_next};
ghost use Rattle.rpki_der.specs.Read.Parse.{octets_at, octets_in_bits_at};
ghost use Rattle.rpki_der.specs.Form.Parts.{items_at};
ghost use Rattle.rpki_der.specs.Form.Made.{Made, Partly, Ignored, WithOctets, Default, Choice};
ghost use Rattle.rpki_der.specs.Form.Made.{made, partly, ignored, with_octets, default_at};
ghost use Rattle.rpki_der.specs.Form.Made.{choice_at, understood, front_of, all_read, Begins};
ghost use Rattle.rpki_der.specs.Form.Made.{OctetStringHolding, BitStringHolding};
ghost use Rattle.rpki_der.specs.Form.Law.{TagSet, IsPart, nothing, every, is, or, has};
ghost use Rattle.rpki_der.specs.Form.Law.{RefusesMalformed};

/// A part of a form, and what reads it.
pub trait Part {
    ghost at: { Parser Self };

    ghost form: { Mode → List ℕ → Self → Type 0 };
}

/// What stands at the front in a form, whatever follows, is unique.
pub fn unique_parts<T: Part>()
    ensures { (first : TagSet) → IsPart first nothing T.at T.form → (mode : Mode)
        → IsUnique (T.form mode) }
{}

/// OPTIONAL and DEFAULT (X.680, section 25).
pub fn optional_parts<T: Part>()
    ensures optional { (tag : ℕ) → IsPart (is tag) nothing T.at T.form
        → IsPart (is tag) (is tag) (optional tag T.at) (λ mode. Optional (T.form mode)) }
    ensures default { (tag : ℕ) (default : T) → IsPart (is tag) nothing T.at T.form
        → IsPart (is tag) (is tag) (default_at default tag T.at)
        (λ mode. Default default (T.form mode)) }
    ensures refused { (tag : ℕ) → IsPart (is tag) nothing T.at T.form
        → RefusesMalformed tag T.form (optional tag T.at) }
    ensures refused_default { (tag : ℕ) (default : T) → IsPart (is tag) nothing T.at T.form
        → RefusesMalformed tag T.form (default_at default tag T.at) }
{}

/// Another part of a form, beside the first.
pub trait Other {
    ghost at: { Parser Self };

    ghost form: { Mode → List ℕ → Self → Type 0 };
}

/// CHOICE of two kinds with different tags (X.690, section 8.13).
pub fn chosen_parts<T: Part + Other>()
    ensures { (tag : ℕ) (second : TagSet) → IsPart (is tag) nothing T.Part.at T.Part.form
        → IsPart second nothing T.Other.at T.Other.form → has second tag ≡ false
        → IsPart (or (is tag) second) nothing (choice_at tag T.Part.at T.Other.at)
        (λ mode. Choice (T.Part.form mode) (T.Other.form mode)) }
{}

/// A value with a tag that holds a part: EXPLICIT, and SEQUENCE or SET of one part (X.690, sections
/// 8.9 to 8.14).
pub fn held_parts<T: Part>()
    ensures { (tag : ℕ) (first apart : TagSet) → IsPart first apart T.at T.form
        → IsPart (is tag) nothing (in_value tag T.at)
        (λ mode o x. Within mode tag (λ c. T.form mode c x) o) }
{}

/// What SEQUENCE OF and SET OF hold (X.690, sections 8.10 and 8.12).
pub fn listed_parts<T: Part>()
    ensures tagged { (tag : ℕ) → IsPart (is tag) nothing T.at T.form
        → IsPart (is tag) (is tag) (items_at tag T.at) (λ mode. Items (T.form mode)) }
    ensures any { (first : TagSet) → IsPart first nothing T.at T.form
        → IsPart first every (all_at T.at) (λ mode. Items (T.form mode)) }
    ensures end { (tag : ℕ) → IsPart (is tag) nothing T.at T.form → (mode : Mode) (octets : List ℕ)
        (items : List T) (rest : List ℕ) → IsBytes octets
        → items_at tag T.at mode octets ≡ Some (items, rest) → is_next tag rest ≡ false }
{}

/// What an OCTET STRING or a BIT STRING of whole octets holds in DER: what its octets begin with,
/// or all of them (X.690, sections 8.6 and 8.7).
pub fn encapsulated_parts<T: Part>()
    ensures begun { (first : TagSet) → IsPart first nothing T.at T.form
        → IsPart (or (is OCTET_STRING) (is OCTET_STRING_IN_PIECES)) nothing
        (understood (λ _. front_of T.at Der) (octets_at MAX_DEPTH))
        (λ mode. OctetStringHolding mode (Begins (T.form Der))) }
    ensures octets { (first apart : TagSet) → IsPart first apart T.at T.form
        → IsPart (or (is OCTET_STRING) (is OCTET_STRING_IN_PIECES)) nothing
        (understood (λ _. all_read T.at Der) (octets_at MAX_DEPTH))
        (λ mode. OctetStringHolding mode (T.form Der)) }
    ensures bits { (first apart : TagSet) → IsPart first apart T.at T.form
        → IsPart (is BIT_STRING) nothing
        (understood (λ _. all_read T.at Der) octets_in_bits_at)
        (λ mode. BitStringHolding mode (T.form Der)) }
{}

/// What is made of a part.
pub fn understood_parts<T: Part, U>()
    ensures made { (first apart : TagSet) (f : T → U) → IsPart first apart T.at T.form
        → IsPart first apart (made f T.at) (λ mode. Made f (T.form mode)) }
    ensures partly { (first apart : TagSet) (f : T → Option U) → IsPart first apart T.at T.form
        → IsPart first apart (partly f T.at) (λ mode. Partly f (T.form mode)) }
{}

/// A part that passes a test, one that is left out, and one whose octets are kept.
pub fn tested_parts<T: Part>()
    ensures tested { (first apart : TagSet) (test : T → Bool) → IsPart first apart T.at T.form
        → IsPart first apart (tested test T.at) (λ mode o x. T.form mode o x × (test x ≡ true)) }
    ensures ignored { (first apart : TagSet) → IsPart first apart T.at T.form
        → IsPart first apart (ignored T.at) (λ mode o _. Ignored (T.form mode) o) }
    ensures kept { (first apart : TagSet) → IsPart first apart T.at T.form
        → IsPart first apart (with_octets T.at) (λ mode o y. WithOctets (T.form mode) o y.0 y.1) }
{}
