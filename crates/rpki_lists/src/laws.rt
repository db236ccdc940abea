//! What the definitions of lists say: laws, as functions that do nothing.

ghost use Rattle.std.specs.Prelude.{◌≡◌, ◌<◌, ◌^◌, ℕ, List, Option, MatchOption, All, length};
ghost use Rattle.std.specs.List.{flat_map};
ghost use Rattle.rpki_der.specs.Tags.{INTEGER, OCTET_STRING, IA5_STRING, SEQUENCE, context};
ghost use Rattle.rpki_der.specs.Numbers.{MAX_DEPTH};
ghost use Rattle.rpki_der.specs.declared.mode.Mode.TheVariants.{Der};
ghost use Rattle.rpki_der.specs.Grammar.{IsBytes, HasNoFront, Value, IntegerBelow, BitString};
ghost use Rattle.rpki_der.specs.Grammar.{Ia5String, OctetString};
ghost use Rattle.rpki_der.specs.Read.Parse.{octets_at, value_at, u8_at, u32_at, bits_at, ia5_at};
ghost use Rattle.rpki_der.specs.Read.Exact.{IsReading};
ghost use Rattle.rpki_der.specs.Form.Decodes.{IsOnlyFront};
ghost use Rattle.rpki_der.specs.Form.Law.{TagSet, IsPart, nothing, is};
ghost use Rattle.rpki_der.specs.Form.Parts.{SequenceOf};
ghost use Rattle.rpki_der.specs.Write.Written.{value_octets};
ghost use Rattle.rpki_lists.specs.Entries.{list_at};
ghost use Rattle.rpki_lists.specs.Named.{IpAddrBlocksForm, addresses_at};
ghost use Rattle.rpki_lists.specs.Slice.{FindsFront, IsTakenBy, IsTakenIfNextBy};

use rpki_der::laws::forms::Part;

/// A SEQUENCE OF entries in DER is read exactly where each entry is.
pub fn lists_of_entries<T: Part>()
    ensures part { (first : TagSet) → IsPart first nothing T.at T.form
        → IsPart (is SEQUENCE) nothing (list_at T.at) (λ mode. SequenceOf mode (T.form Der)) }
    ensures reading { (first : TagSet) → IsPart first nothing T.at T.form
        → IsReading (list_at T.at) (λ mode. SequenceOf mode (T.form Der)) }
{}

/// A list is in the form where each of its entries is as it is written, and in no other octets
/// where each entry is written in one way only.
pub fn lists_are_written<T: Part>()
    ensures written { (octets : T → List ℕ) (entries : List T)
        → All (λ x. T.form Der (octets x) x) entries → length (flat_map octets entries) < 2 ^ 32
        → SequenceOf Der (T.form Der) (value_octets SEQUENCE (flat_map octets entries)) entries }
    ensures only { (octets : T → List ℕ)
        → ((o : List ℕ) (x : T) → IsBytes o → T.form Der o x → o ≡ octets x)
        → (o : List ℕ) (entries : List T) → IsBytes o
        → SequenceOf Der (T.form Der) o entries
        → o ≡ value_octets SEQUENCE (flat_map octets entries) }
{}

/// What a call of a reader of a slice finds by a parser that reads a form exactly, stands at the
/// front of the octets in DER, and nothing else of the form does; where it finds nothing, nothing
/// of the form stands there.
pub fn fronts_are_found<U: Drop, T: Part>()
    ensures { IsReading T.at T.form → (view : U → T) (octets : List ℕ) (result : Option U)
        (rest : List ℕ) → IsBytes octets → FindsFront view T.at octets result rest
        → MatchOption result (HasNoFront (T.form Der) octets)
        (λ found. IsOnlyFront (T.form Der) octets (view found) rest) }
{}

/// The addresses that a content names, if it names any, are read exactly.
pub fn named_addresses()
    ensures { IsPart (is (context 1)) (is (context 1)) addresses_at IpAddrBlocksForm }
{}

/// In DER an OCTET STRING is one value, as the reader of a slice takes it (X.690, sections 8.7 and
/// 10.2).
pub fn octet_strings_in_der()
    ensures { (b : List ℕ) → octets_at MAX_DEPTH Der b ≡ value_at OCTET_STRING Der b }
{}

/// What the calls of a reader of a slice that answer a `T` find, by the grammar of X.690 alone: all
/// that the octets begin with in the form of the call, in DER, or that they begin with nothing in
/// it. A clause for each call, by the parser that its contract names.
pub fn slices_are_read<T: Drop>()
    ensures contents { (tag : ℕ)
        → IsTakenBy T (value_at tag) (λ octets contents. Value Der octets tag contents) }
    ensures sequence { IsTakenBy T (value_at SEQUENCE)
        (λ octets contents. Value Der octets SEQUENCE contents) }
    ensures u8 { IsTakenBy T u8_at (IntegerBelow 256 Der) }
    ensures opt_u8 { IsTakenIfNextBy T INTEGER u8_at (IntegerBelow 256 Der) }
    ensures u32 { IsTakenBy T u32_at (IntegerBelow (2 ^ 32) Der) }
    ensures bits { IsTakenBy T bits_at (BitString Der) }
    ensures ia5 { IsTakenBy T ia5_at (Ia5String Der) }
    ensures opt_ia5 { IsTakenIfNextBy T IA5_STRING ia5_at (Ia5String Der) }
    ensures octets { IsTakenBy T (value_at OCTET_STRING) (OctetString Der MAX_DEPTH) }
{}
