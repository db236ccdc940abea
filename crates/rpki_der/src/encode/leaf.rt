//! Values without values in them, as they are written.

ghost use Rattle.std.specs.Prelude.{◌≡◌, []};
ghost use Rattle.rpki_der.specs.Tags.{BOOLEAN, OCTET_STRING, NULL, OBJECT_IDENTIFIER, IA5_STRING};
ghost use Rattle.rpki_der.specs.Write.Written.{boolean_contents};

use crate::encode::raw::Raw;
use crate::encode::value::Value;
use crate::oid::Oid;
use crate::tag::Tag;

/// A value with this tag, primitive or constructed, and these contents, which are written as they
/// are (X.690, section 8.1.1).
pub fn primitive(tag: Tag, octets: &[u8]) -> Value<Raw<'_>>
    ensures tag { result.tag ≡ tag }
    ensures contents { result.contents.0.now ≡ octets.now }
{
    Value {
        tag,
        contents: Raw(octets),
    }
}

/// A BOOLEAN (X.690, sections 8.2 and 11.1): FF hexadecimal for true, 00 for false.
pub fn boolean(b: bool) -> Value<Raw<'static>>
    ensures tag { result.tag.octet ≡ BOOLEAN }
    ensures contents { result.contents.0.now ≡ boolean_contents b }
{
    primitive(Tag::BOOLEAN, if b { &[0xFF] } else { &[0] })
}

/// A NULL (X.690, section 8.8).
pub fn null() -> Value<Raw<'static>>
    ensures tag { result.tag.octet ≡ NULL }
    ensures contents { result.contents.0.now ≡ [] }
{
    primitive(Tag::NULL, &[])
}

/// An OBJECT IDENTIFIER (X.690, section 8.19).
pub fn oid(oid: &Oid) -> Value<Raw<'_>>
    ensures tag { result.tag.octet ≡ OBJECT_IDENTIFIER }
    ensures contents { result.contents.0.now ≡ oid.now }
{
    primitive(Tag::OBJECT_IDENTIFIER, oid.as_slice())
}

/// An OCTET STRING (X.690, section 8.7), in one piece.
pub fn octet_string(octets: &[u8]) -> Value<Raw<'_>>
    ensures tag { result.tag.octet ≡ OCTET_STRING }
    ensures contents { result.contents.0.now ≡ octets.now }
{
    primitive(Tag::OCTET_STRING, octets)
}

/// An IA5String (X.690, section 8.23) of these octets, which are characters where they are below 80
/// hexadecimal.
pub fn ia5(octets: &[u8]) -> Value<Raw<'_>>
    ensures tag { result.tag.octet ≡ IA5_STRING }
    ensures contents { result.contents.0.now ≡ octets.now }
{
    primitive(Tag::IA5_STRING, octets)
}

impl Oid {
    /// The identifier as a value.
    pub fn encode_ref(&self) -> Value<Raw<'_>>
        ensures tag { result.tag.octet ≡ OBJECT_IDENTIFIER }
        ensures contents { result.contents.0.now ≡ self.now }
    {
        oid(self)
    }
}
