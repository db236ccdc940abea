//! Identifier octets.

ghost use Rattle.std.specs.Prelude.{◌≡◌, MatchOption};
ghost use Rattle.rpki_der.specs.Identifier.{IsTag, is_tag};

/// An identifier octet (X.690, section 8.1.2): class, form and number. It is not 00, and its low
/// five bits are not all ones, so the number has no further octets.
#[derive(Clone, Copy, Debug, PartialEq, Eq)]
pub struct Tag {
    pub octet: u8,
    pub ghost valid: { IsTag octet },
}

impl Tag {
    /// A BOOLEAN (X.690, section 8.2).
    pub const BOOLEAN: Tag = Tag { octet: 0x01 };

    /// An INTEGER (X.690, section 8.3).
    pub const INTEGER: Tag = Tag { octet: 0x02 };

    /// A primitive BIT STRING (X.690, section 8.6).
    pub const BIT_STRING: Tag = Tag { octet: 0x03 };

    /// A primitive OCTET STRING (X.690, section 8.7).
    pub const OCTET_STRING: Tag = Tag { octet: 0x04 };

    /// An OCTET STRING in pieces (X.690, section 8.7.3).
    pub const OCTET_STRING_IN_PIECES: Tag = Tag { octet: 0x24 };

    /// A NULL (X.690, section 8.8).
    pub const NULL: Tag = Tag { octet: 0x05 };

    /// An OBJECT IDENTIFIER (X.690, section 8.19).
    pub const OBJECT_IDENTIFIER: Tag = Tag { octet: 0x06 };

    /// A primitive PrintableString (X.690, section 8.23).
    pub const PRINTABLE_STRING: Tag = Tag { octet: 0x13 };

    /// A primitive IA5String (X.690, section 8.23).
    pub const IA5_STRING: Tag = Tag { octet: 0x16 };

    /// A primitive UTCTime (X.690, section 8.25).
    pub const UTC_TIME: Tag = Tag { octet: 0x17 };

    /// A primitive GeneralizedTime (X.690, section 8.25).
    pub const GENERALIZED_TIME: Tag = Tag { octet: 0x18 };

    /// A SEQUENCE (X.690, section 8.9).
    pub const SEQUENCE: Tag = Tag { octet: 0x30 };

    /// A SET (X.690, section 8.11).
    pub const SET: Tag = Tag { octet: 0x31 };

    /// The context-specific tag 0, constructed.
    pub const CTX_0: Tag = Tag { octet: 0xA0 };

    /// The context-specific tag 1, constructed.
    pub const CTX_1: Tag = Tag { octet: 0xA1 };

    /// The context-specific tag 2, constructed.
    pub const CTX_2: Tag = Tag { octet: 0xA2 };

    /// The context-specific tag 3, constructed.
    pub const CTX_3: Tag = Tag { octet: 0xA3 };

    /// The context-specific tag 0, primitive.
    pub const CTX_0_PRIMITIVE: Tag = Tag { octet: 0x80 };

    /// The context-specific tag 6, primitive.
    pub const CTX_6_PRIMITIVE: Tag = Tag { octet: 0x86 };

    /// The tag with this octet, unless it is 00 or its low five bits are all ones (X.690, section
    /// 8.1.2): then `None`.
    pub fn new(octet: u8) -> Option<Tag>
        ensures { MatchOption result (IsTag octet → ⊥) (λ tag. tag.octet ≡ octet) }
    {
        if is_tag(octet) {
            Some(Tag { octet })
        } else {
            None
        }
    }
}

/// Whether an octet is an identifier.
#[inline(always)]
pub fn is_tag(t: u8) -> bool
    ensures { result ≡ is_tag t }
{
    if t == 0 {
        false
    } else if t % 32 == 31 {
        false
    } else {
        true
    }
}
