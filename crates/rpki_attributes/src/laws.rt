//! What the definitions of signed attributes say: laws, as functions that do nothing.

ghost use Rattle.std.specs.Prelude.{◌≡◌, ◌++◌, ◌≤◌, ℕ, List, length, Some};
ghost use Rattle.rpki_der.specs.declared.mode.Mode.{Mode};
ghost use Rattle.rpki_der.specs.declared.mode.Mode.TheVariants.{Der};
ghost use Rattle.rpki_der.specs.Form.After.{LeavesOctetsAfter};
ghost use Rattle.rpki_der.specs.Grammar.{Value, IsBytes};
ghost use Rattle.rpki_der.specs.Oid.{IsOid};
ghost use Rattle.rpki_der.specs.Read.Exact.{IsReading};
ghost use Rattle.rpki_der.specs.Tags.{SET};
ghost use Rattle.rpki_basics.specs.Moment.{Moment, IsMoment};
ghost use Rattle.rpki_attributes.specs.declared.attribute.OtherTypes.{OtherTypes};
ghost use Rattle.rpki_attributes.specs.declared.attribute.OtherTypes.TheVariants.{Refuse, Skip};
ghost use Rattle.rpki_attributes.specs.Attrs.{SignedAttributes, SignedAttrsForm, most_octets};
ghost use Rattle.rpki_attributes.specs.Attrs.Read.{attrs_at};
ghost use Rattle.rpki_attributes.specs.Attrs.Made.{InOrder, attributes_of, attrs_octets};
ghost use Rattle.rpki_attributes.specs.Attrs.Made.{message_of};

/// Reading signed attributes is exact and unique, and DER is a part of BER, whether attributes of
/// other types are refused or skipped (RFC 5652, section 5.3; RFC 6488, section 2.1.6.4).
pub fn signed_attributes()
    ensures { (others : OtherTypes) → IsReading (attrs_at others) (SignedAttrsForm others) }
{}

/// Octets after signed attributes change nothing: they are left. Nor do octets after one whole
/// value make it signed attributes that it is not.
pub fn octets_after_signed_attributes_are_left()
    ensures { (others : OtherTypes) (mode : Mode)
        → LeavesOctetsAfter mode (SignedAttrsForm others mode) }
{}

/// What `take_from` reads, `take_from_signed_message` reads alike.
pub fn attributes_without_others()
    ensures { (mode : Mode) (octets : List ℕ) (x : SignedAttributes)
        → SignedAttrsForm Refuse mode octets x → SignedAttrsForm Skip mode octets x }
{}

/// What is made of a type, a digest and a time is in the form, and read again in both modes and
/// both ways, whatever follows it.
pub fn attributes_are_made()
    ensures written { (type digest contents : List ℕ) (time : Moment) → IsOid type
        → IsMoment time → InOrder (attributes_of type digest time) contents
        → length contents ≤ most_octets
        → let x : SignedAttributes = record {
          contents = contents;
          content_type = type;
          message_digest = digest;
          signing_time = time;
        } in
        SignedAttrsForm Refuse Der (attrs_octets x) x }
    ensures read { (others : OtherTypes) (mode : Mode) (x : SignedAttributes) (rest : List ℕ)
        → SignedAttrsForm Refuse Der (attrs_octets x) x
        → attrs_at others mode (attrs_octets x ++ rest) ≡ Some (x, rest) }
{}

/// What was read in DER is written as it was read: there are no other octets in DER for these
/// contents. So what `take_from` has read in DER is written in the form that it was read in.
pub fn attributes_are_written()
    ensures { (others : OtherTypes) (octets : List ℕ) (x : SignedAttributes) → IsBytes octets
        → SignedAttrsForm others Der octets x → octets ≡ attrs_octets x }
{}

/// The message that is signed is the SET whose header is in DER and whose contents are the octets,
/// as they were read or made, and there is one such message alone.
pub fn messages()
    ensures written { (x : SignedAttributes) → length x.contents ≤ most_octets
        → Value Der (message_of x) SET x.contents }
    ensures unique { (octets : List ℕ) (x : SignedAttributes) → IsBytes octets
        → Value Der octets SET x.contents → octets ≡ message_of x }
{}
