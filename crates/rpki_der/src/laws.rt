//! What the definitions of reading say: laws, as functions that do nothing.
//!
//! Each says of one kind of value that reading it is exact, that it is unique, that DER is a part
//! of BER, and that one whole value that is refused alone is refused whatever octets follow it.

ghost use Rattle.std.specs.Prelude.{◌≡◌, ◌↔◌, ◌<◌, ◌^◌, ℕ, Bool, true, false, List, [], Some};
ghost use Rattle.std.specs.Prelude.{None, slice_index};
ghost use Rattle.rpki_der.specs.Numbers.{MAX_DEPTH};
ghost use Rattle.rpki_der.specs.Tags.{BOOLEAN, INTEGER, NULL, OBJECT_IDENTIFIER, IA5_STRING};
ghost use Rattle.rpki_der.specs.Tags.{SEQUENCE};
ghost use Rattle.rpki_der.specs.declared.mode.Mode.TheVariants.{Der, Ber};
ghost use Rattle.rpki_der.specs.declared.mode.Mode.{Mode};
ghost use Rattle.rpki_der.specs.Read.Parse.{any_at, value_at, primitive, boolean_at};
ghost use Rattle.rpki_der.specs.Read.Parse.{null_of, oid_at, these, bits_at, octets_in_bits_at};
ghost use Rattle.rpki_der.specs.Read.Parse.{ia5_at, in_value, optional, many, skip_at};
ghost use Rattle.rpki_der.specs.Read.Parse.{skip_opt_at, skip_all_at, at_end, octets_at, octets_of};
ghost use Rattle.rpki_der.specs.Read.Parse.{u8_at, u32_at, u160_at, this, captured};
ghost use Rattle.rpki_der.specs.Oid.{IsOid};
ghost use Rattle.rpki_der.specs.Form.Law.{IsPart, RefusesMalformed, every, is};
ghost use Rattle.rpki_der.specs.Form.Made.{Default, default_at};
ghost use Rattle.rpki_der.specs.Grammar.{Value, IntegerBelow, Boolean, Null};
ghost use Rattle.rpki_der.specs.Grammar.{ObjectIdentifier, BitString, OctetsInBits, Ia5String};
ghost use Rattle.rpki_der.specs.Grammar.{Within, Skipped, ListOf, OctetString, OctetStringOf};
ghost use Rattle.rpki_der.specs.Grammar.{Items, IsBytes};
ghost use Rattle.rpki_der.specs.Read.Exact.{IsReading, IsOptionalReading};

pub mod decoders;
pub mod forms;
pub mod keyed;
pub mod records;
pub mod written;

/// What a slice of octets holds is below 256.
pub fn slices_hold_octets(octets: &[u8])
    ensures octets { IsBytes octets.now }
    ensures each { (i : ℕ) → slice_index octets.now i < 256 }
{
    let _ = octets;
}

/// A value of any tag (X.690, section 8.1.1).
pub fn values()
    ensures { IsReading any_at (λ mode octets v. Value mode octets v.0 v.1) }
{}

/// A value with a given tag, and its contents (X.690, section 8.1.1).
pub fn tagged_values()
    ensures { (tag : ℕ) → IsReading (value_at tag)
        (λ mode octets contents. Value mode octets tag contents) }
{}

/// An INTEGER from 0 to 255 (X.690, section 8.3).
pub fn integers_of_one_octet()
    ensures { IsReading u8_at (IntegerBelow 256) }
{}

/// An INTEGER from 0 to 2^32 - 1 (X.690, section 8.3).
pub fn integers_of_four_octets()
    ensures { IsReading u32_at (IntegerBelow (2 ^ 32)) }
{}

/// An INTEGER from 0 to 2^160 - 1 (X.690, section 8.3).
pub fn integers_of_twenty_octets()
    ensures { IsReading u160_at (IntegerBelow (2 ^ 160)) }
{}

/// A BOOLEAN (X.690, sections 8.2 and 11.1).
pub fn booleans()
    ensures { IsReading boolean_at Boolean }
{}

/// A BOOLEAN that is false where it is left out (X.690, sections 8.2 and 11.1). An explicit false
/// is taken in both modes, against section 11.5, which is this project's own rule.
pub fn flags()
    ensures part { IsPart (is BOOLEAN) (is BOOLEAN) (default_at false BOOLEAN boolean_at)
        (λ mode. Default false (Boolean mode)) }
    ensures refused { RefusesMalformed BOOLEAN Boolean (default_at false BOOLEAN boolean_at) }
{}

/// A NULL (X.690, section 8.8).
pub fn nulls()
    ensures { IsReading (primitive NULL null_of) (λ mode octets _. Null mode octets) }
{}

/// An OBJECT IDENTIFIER (X.690, section 8.19).
pub fn object_identifiers()
    ensures { IsReading oid_at ObjectIdentifier }
{}

/// An OBJECT IDENTIFIER that has these contents (X.690, section 8.19).
pub fn given_object_identifiers()
    ensures { (oid : List ℕ) → IsOid oid
        → IsReading (primitive OBJECT_IDENTIFIER (these oid))
        (λ mode octets _. ObjectIdentifier mode octets oid) }
{}

/// A BIT STRING all of whose bits are used (X.690, section 8.6).
pub fn octets_in_bit_strings()
    ensures { IsReading octets_in_bits_at OctetsInBits }
{}

/// A BIT STRING (X.690, section 8.6).
pub fn bit_strings()
    ensures { IsReading bits_at BitString }
{}

/// An IA5String (X.690, section 8.23).
pub fn ia5_strings()
    ensures { IsReading ia5_at Ia5String }
{}

/// An OCTET STRING whose pieces nest at most to this depth (X.690, sections 8.7 and 10.2).
pub fn octet_strings()
    ensures { (depth : ℕ)
        → IsReading (octets_at depth) (λ mode octets string. OctetString mode depth octets string) }
{}

/// An OCTET STRING of a given length (X.690, sections 8.7 and 10.2).
pub fn octet_strings_of_a_length()
    ensures { (n : ℕ) → IsReading (octets_of n) (OctetStringOf n) }
{}

/// Any value or the end: whether octets are left, and that a value is gone past where they are
/// (X.690, section 8.1.1).
pub fn values_up_to_the_end()
    ensures end { (mode : Mode) (octets rest : List ℕ) (ends : Bool)
        → (at_end mode octets ≡ Some (ends, rest)) ↔
        ((rest ≡ octets) × ((ends ≡ true) ↔ (octets ≡ []))) }
    ensures none { (mode : Mode) (octets rest : List ℕ)
        → (skip_opt_at mode octets ≡ Some (None, rest)) ↔ ((octets ≡ []) × (rest ≡ [])) }
    ensures one { (mode : Mode) (octets rest : List ℕ)
        → (skip_opt_at mode octets ≡ Some (Some tt, rest)) ↔
        (skip_at MAX_DEPTH mode octets ≡ Some (tt, rest)) }
{}

/// A skipped value that nests at most to this depth (X.690, section 8.1.1).
pub fn skipped_values()
    ensures { (depth : ℕ) → IsReading (skip_at depth) (λ mode octets _. Skipped mode depth octets) }
{}

/// The contents of a value with a given tag, whatever they are (X.690, section 8.1.4).
pub fn contents_of_values()
    ensures { (tag : ℕ) → IsReading (primitive tag Some)
        (λ mode octets contents. Value mode octets tag contents) }
{}

/// An INTEGER from 0 to 255 that is this number (X.690, section 8.3).
pub fn given_integers()
    ensures { (n : ℕ) → n < 256
        → IsReading (primitive INTEGER (this n)) (λ mode octets _. IntegerBelow 256 mode octets n) }
{}

/// Skipped values up to the end (X.690, section 8.1.1).
pub fn skipped_contents()
    ensures exact { (mode : Mode) (octets : List ℕ) → IsBytes octets
        → (skip_all_at mode octets ≡ Some (tt, [])) ↔ ListOf (Skipped mode MAX_DEPTH) octets }
    ensures end { (mode : Mode) (octets rest : List ℕ) → skip_all_at mode octets ≡ Some (tt, rest)
        → rest ≡ [] }
    ensures relaxed { (octets : List ℕ) → ListOf (Skipped Der MAX_DEPTH) octets
        → ListOf (Skipped Ber MAX_DEPTH) octets }
    ensures part { IsPart every every skip_all_at
        (λ mode octets _. ListOf (Skipped mode MAX_DEPTH) octets) }
{}

/// What may be there: an INTEGER, a BOOLEAN, a NULL, an IA5String, the contents of a value with a
/// given tag, or a value with a given tag that is opened.
pub fn optional_values()
    ensures integer_u8 { IsOptionalReading INTEGER u8_at (IntegerBelow 256) }
    ensures integer_u32 { IsOptionalReading INTEGER u32_at (IntegerBelow (2 ^ 32)) }
    ensures boolean { IsOptionalReading BOOLEAN boolean_at Boolean }
    ensures null { IsOptionalReading NULL (primitive NULL null_of)
        (λ mode octets _. Null mode octets) }
    ensures ia5 { IsOptionalReading IA5_STRING ia5_at Ia5String }
    ensures contents { (tag : ℕ)
        → IsOptionalReading tag (primitive tag Some)
        (λ mode octets contents. Value mode octets tag contents) }
    ensures opened { (tag : ℕ)
        → IsOptionalReading tag (value_at tag)
        (λ mode octets contents. Value mode octets tag contents) }
{}

/// What is captured of a value are its octets: of one with a given tag, one that is skipped, and
/// each kind that a call of the reader takes. What is captured of all that is skipped up to the end
/// is all of it.
pub fn captured_values()
    ensures tagged { (tag : ℕ)
        → IsReading (captured (value_at tag))
        (λ mode octets kept. (kept ≡ octets) × (contents : List ℕ)
        × Value mode octets tag contents) }
    ensures skipped { (depth : ℕ)
        → IsReading (captured (skip_at depth))
        (λ mode octets kept. (kept ≡ octets) × Unit {0} × Skipped mode depth octets) }
    ensures contents { (tag : ℕ)
        → IsReading (captured (primitive tag Some))
        (λ mode octets kept. (kept ≡ octets) × (contents : List ℕ)
        × Value mode octets tag contents) }
    ensures string { (depth : ℕ)
        → IsReading (captured (octets_at depth))
        (λ mode octets kept. (kept ≡ octets) × (string : List ℕ)
        × OctetString mode depth octets string) }
    ensures oid { IsReading (captured oid_at)
        (λ mode octets kept. (kept ≡ octets) × (oid : List ℕ) × ObjectIdentifier mode octets oid) }
    ensures bits { IsReading (captured bits_at)
        (λ mode octets kept. (kept ≡ octets) × (bits : List ℕ × ℕ) × BitString mode octets bits) }
    ensures ia5 { IsReading (captured ia5_at)
        (λ mode octets kept. (kept ≡ octets) × (text : List ℕ) × Ia5String mode octets text) }
    ensures boolean { IsReading (captured boolean_at)
        (λ mode octets kept. (kept ≡ octets) × (b : Bool) × Boolean mode octets b) }
    ensures integer_u8 { IsReading (captured u8_at)
        (λ mode octets kept. (kept ≡ octets) × (n : ℕ) × IntegerBelow 256 mode octets n) }
    ensures integer_u32 { IsReading (captured u32_at)
        (λ mode octets kept. (kept ≡ octets) × (n : ℕ) × IntegerBelow (2 ^ 32) mode octets n) }
    ensures integer_given { (n : ℕ) → n < 256
        → IsReading (captured (primitive INTEGER (this n)))
        (λ mode octets kept. (kept ≡ octets) × Unit {0} × IntegerBelow 256 mode octets n) }
    ensures integer_u160 { IsReading (captured u160_at)
        (λ mode octets kept. (kept ≡ octets) × (n : ℕ) × IntegerBelow (2 ^ 160) mode octets n) }
    ensures oid_given { (oid : List ℕ) → IsOid oid
        → IsReading (captured (primitive OBJECT_IDENTIFIER (these oid)))
        (λ mode octets kept. (kept ≡ octets) × Unit {0} × ObjectIdentifier mode octets oid) }
    ensures whole_bits { IsReading (captured octets_in_bits_at)
        (λ mode octets kept. (kept ≡ octets) × (string : List ℕ)
        × OctetsInBits mode octets string) }
    ensures string_of { (n : ℕ)
        → IsReading (captured (octets_of n))
        (λ mode octets kept. (kept ≡ octets) × (string : List ℕ)
        × OctetStringOf n mode octets string) }
    ensures null { IsReading (captured (primitive NULL null_of))
        (λ mode octets kept. (kept ≡ octets) × Unit {0} × Null mode octets) }
    ensures all { (mode : Mode) (octets kept rest : List ℕ) → IsBytes octets
        → (captured skip_all_at mode octets ≡ Some (kept, rest)) ↔
        ((kept ≡ octets) × (rest ≡ []) × ListOf (Skipped mode MAX_DEPTH) octets) }
{}

/// A SEQUENCE of INTEGERs from 0 to 2^32 - 1 (X.690, sections 8.3 and 8.10).
pub fn lists_of_integers()
    ensures { IsReading (in_value SEQUENCE (many (optional INTEGER u32_at)))
        (λ mode octets ns. Within mode SEQUENCE
        (λ c. Items (IntegerBelow (2 ^ 32) mode) c ns) octets) }
{}
