//! What is written is what is read, as functions that do nothing.

ghost use Rattle.std.specs.Prelude.{◌≡◌, ◌+◌, ◌≤◌, ◌<◌, ◌^◌, ℕ, Bool, false, List, [], ◌∷◌, ◌++◌};
ghost use Rattle.std.specs.Prelude.{length, All, Some};
ghost use Rattle.std.specs.List.{flat_map};
ghost use Rattle.rpki_der.specs.Tags.{BOOLEAN, INTEGER, BIT_STRING, OCTET_STRING, NULL};
ghost use Rattle.rpki_der.specs.Tags.{OBJECT_IDENTIFIER, IA5_STRING, SEQUENCE};
ghost use Rattle.rpki_der.specs.declared.mode.Mode.{Mode};
ghost use Rattle.rpki_der.specs.declared.mode.Mode.TheVariants.{Der};
ghost use Rattle.rpki_der.specs.Identifier.{IsTag, is_constructed};
ghost use Rattle.rpki_der.specs.Oid.{IsOid};
ghost use Rattle.rpki_der.specs.Bits.{IsBits};
ghost use Rattle.rpki_der.specs.Read.Parse.{value_at, in_value, primitive, unsigned_of};
ghost use Rattle.rpki_der.specs.Read.Parse.{u8_at, u32_at, boolean_at, null_of, oid_at, bits_at};
ghost use Rattle.rpki_der.specs.Read.Parse.{ia5_at, octets_at, captured, many, optional, skip_at};
ghost use Rattle.rpki_der.specs.Numbers.{number};
ghost use Rattle.rpki_der.specs.Grammar.{Value, Within, IsBytes, Integer, Boolean, Null};
ghost use Rattle.rpki_der.specs.Grammar.{ObjectIdentifier, OctetString, BitString, Ia5String};
ghost use Rattle.rpki_der.specs.Grammar.{Items, Skipped, ListOf};
ghost use Rattle.rpki_der.specs.Write.Written.{value_octets, number_octets, integer_contents};
ghost use Rattle.rpki_der.specs.Write.Written.{significant, boolean_contents, bit_string_contents};
ghost use Rattle.rpki_der.specs.Write.Written.{unused_bits, zero_last};

/// What is written for a tag and contents is the one value in DER that has them, and it is read
/// again, whatever follows it.
pub fn values_are_written()
    ensures written { (tag : ℕ) (c : List ℕ) → IsTag tag → length c < 2 ^ 32
        → Value Der (value_octets tag c) tag c }
    ensures unique { (o : List ℕ) (tag : ℕ) (c : List ℕ) → IsBytes o → Value Der o tag c
        → o ≡ value_octets tag c }
    ensures read { (mode : Mode) (tag : ℕ) (c rest : List ℕ) → IsTag tag → length c < 2 ^ 32
        → value_at tag mode (value_octets tag c ++ rest) ≡ Some (c, rest) }
{}

/// An INTEGER is written of the digits of a number that is not negative, and its number is read
/// again by each call that takes numbers of that many octets.
pub fn integers_are_written()
    ensures written { (digits : List ℕ) → length digits + 1 < 2 ^ 32
        → Integer Der (value_octets INTEGER (integer_contents digits)) (number 0 digits) }
    ensures unique { (o digits : List ℕ) → IsBytes o → IsBytes digits
        → Integer Der o (number 0 digits) → o ≡ value_octets INTEGER (integer_contents digits) }
    ensures read { (mode : Mode) (most : ℕ) (digits rest : List ℕ) → length digits + 1 < 2 ^ 32
        → length (significant digits) ≤ most → 1 ≤ most
        → primitive INTEGER (unsigned_of most) mode
        (value_octets INTEGER (integer_contents digits) ++ rest) ≡ Some (number 0 digits, rest) }
{}

/// So is one of 32 bits or of 8.
pub fn numbers_are_written()
    ensures written { (n : ℕ) → n < 2 ^ 32 → Integer Der (number_octets n) n }
    ensures unique { (o : List ℕ) (n : ℕ) → IsBytes o → n < 2 ^ 32 → Integer Der o n
        → o ≡ number_octets n }
    ensures read { (mode : Mode) (n : ℕ) (rest : List ℕ) → n < 2 ^ 32
        → u32_at mode (number_octets n ++ rest) ≡ Some (n, rest) }
    ensures read_u8 { (mode : Mode) (n : ℕ) (rest : List ℕ) → n < 256
        → u8_at mode (number_octets n ++ rest) ≡ Some (n, rest) }
{}

/// A BOOLEAN is written in the one way that DER has for it, and read again.
pub fn booleans_are_written()
    ensures written { (b : Bool) → Boolean Der (value_octets BOOLEAN (boolean_contents b)) b }
    ensures unique { (o : List ℕ) (b : Bool) → IsBytes o → Boolean Der o b
        → o ≡ value_octets BOOLEAN (boolean_contents b) }
    ensures read { (mode : Mode) (b : Bool) (rest : List ℕ)
        → boolean_at mode (value_octets BOOLEAN (boolean_contents b) ++ rest) ≡ Some (b, rest) }
{}

/// So is a NULL.
pub fn nulls_are_written()
    ensures written { Null Der (value_octets NULL []) }
    ensures unique { (o : List ℕ) → IsBytes o → Null Der o → o ≡ value_octets NULL [] }
    ensures read { (mode : Mode) (rest : List ℕ)
        → primitive NULL null_of mode (value_octets NULL [] ++ rest) ≡ Some (tt, rest) }
{}

/// So is an OBJECT IDENTIFIER.
pub fn object_identifiers_are_written()
    ensures written { (oid : List ℕ) → IsOid oid → length oid < 2 ^ 32
        → ObjectIdentifier Der (value_octets OBJECT_IDENTIFIER oid) oid }
    ensures unique { (o oid : List ℕ) → IsBytes o → ObjectIdentifier Der o oid
        → o ≡ value_octets OBJECT_IDENTIFIER oid }
    ensures read { (mode : Mode) (oid rest : List ℕ) → IsOid oid → length oid < 2 ^ 32
        → oid_at mode (value_octets OBJECT_IDENTIFIER oid ++ rest) ≡ Some (oid, rest) }
{}

/// So is an OCTET STRING.
pub fn octet_strings_are_written()
    ensures written { (depth : ℕ) (s : List ℕ) → 1 ≤ depth → length s < 2 ^ 32
        → OctetString Der depth (value_octets OCTET_STRING s) s }
    ensures unique { (depth : ℕ) (o s : List ℕ) → IsBytes o → OctetString Der depth o s
        → o ≡ value_octets OCTET_STRING s }
    ensures read { (mode : Mode) (depth : ℕ) (s rest : List ℕ) → 1 ≤ depth → length s < 2 ^ 32
        → octets_at depth mode (value_octets OCTET_STRING s ++ rest) ≡ Some (s, rest) }
{}

/// So is an IA5String of characters below 80 hexadecimal.
pub fn ia5_strings_are_written()
    ensures written { (text : List ℕ) → All (λ b. b < 128) text → length text < 2 ^ 32
        → Ia5String Der (value_octets IA5_STRING text) text }
    ensures unique { (o text : List ℕ) → IsBytes o → Ia5String Der o text
        → o ≡ value_octets IA5_STRING text }
    ensures read { (mode : Mode) (text rest : List ℕ) → All (λ b. b < 128) text
        → length text < 2 ^ 32
        → ia5_at mode (value_octets IA5_STRING text ++ rest) ≡ Some (text, rest) }
{}

/// A BIT STRING is written with zeros for the bits that are not used, in the one way that there is
/// for such a string, and read again so. Where all bits are used, it is the octets as they are.
pub fn bit_strings_are_written()
    ensures written { (s : List ℕ) (unused : ℕ) → length s + 1 < 2 ^ 32
        → let u = unused_bits s unused in
        BitString Der (value_octets BIT_STRING (bit_string_contents s unused)) (zero_last s u, u) }
    ensures unique { (o s : List ℕ) (unused : ℕ) → IsBytes o → BitString Der o (s, unused)
        → zero_last s unused ≡ s
        → o ≡ value_octets BIT_STRING (bit_string_contents s unused) }
    ensures read { (mode : Mode) (s rest : List ℕ) (unused : ℕ) → length s + 1 < 2 ^ 32
        → let u = unused_bits s unused in
        bits_at mode (value_octets BIT_STRING (bit_string_contents s unused) ++ rest)
        ≡ Some ((zero_last s u, u), rest) }
    ensures whole { (s : List ℕ) → bit_string_contents s 0 ≡ 0 ∷ s }
    ensures bits { (s : List ℕ) (unused : ℕ) → IsBits s unused → unused_bits s unused ≡ unused }
{}

/// A SEQUENCE of INTEGERs of 32 bits is written in the one way that DER has for it, and read again.
pub fn lists_are_written()
    ensures written { (ns : List ℕ) → All (λ n. n < 2 ^ 32) ns
        → length (flat_map number_octets ns) < 2 ^ 32
        → Within Der SEQUENCE (λ c. Items (Integer Der) c ns)
        (value_octets SEQUENCE (flat_map number_octets ns)) }
    ensures unique { (o ns : List ℕ) → IsBytes o
        → Within Der SEQUENCE (λ c. Items (λ d n. Integer Der d n × (n < 2 ^ 32)) c ns) o
        → o ≡ value_octets SEQUENCE (flat_map number_octets ns) }
    ensures read { (mode : Mode) (ns rest : List ℕ) → All (λ n. n < 2 ^ 32) ns
        → length (flat_map number_octets ns) < 2 ^ 32
        → in_value SEQUENCE (many (optional INTEGER u32_at)) mode
        (value_octets SEQUENCE (flat_map number_octets ns) ++ rest) ≡ Some (ns, rest) }
{}

/// A value that is written is skipped in DER where it is primitive, and where its contents are
/// values that are skipped. What is written and is skipped in DER is gone past in both modes,
/// whatever follows it.
pub fn skipped_values_are_written()
    ensures primitive { (depth tag : ℕ) (c : List ℕ) → IsTag tag → is_constructed tag ≡ false
        → 1 ≤ depth → length c < 2 ^ 32 → Skipped Der depth (value_octets tag c) }
    ensures constructed { (depth tag : ℕ) (c : List ℕ) → IsTag tag → ListOf (Skipped Der depth) c
        → length c < 2 ^ 32 → Skipped Der (depth + 1) (value_octets tag c) }
    ensures read { (mode : Mode) (depth tag : ℕ) (c rest : List ℕ)
        → Skipped Der depth (value_octets tag c)
        → skip_at depth mode (value_octets tag c ++ rest) ≡ Some (tt, rest) }
{}

/// A value that was captured in DER is the octets that are written for its tag and contents, as
/// they stood in the source.
pub fn captured_values_are_written()
    ensures { (tag : ℕ) (source o rest : List ℕ) → IsBytes source
        → captured (value_at tag) Der source ≡ Some (o, rest)
        → (c : List ℕ) × (source ≡ o ++ rest) × Value Der o tag c × (o ≡ value_octets tag c) }
{}
