//! Writing one extension (RFC 5280, section 4.1).

ghost use Rattle.std.specs.Prelude.{◌≡◌, option_map};
ghost use Rattle.rpki_der.specs.Write.Parts.{IsEach};
ghost use Rattle.rpki_issued.specs.Values.{flag_octets};
ghost use Rattle.rpki_issued.specs.Extensions.{octets_of, IsShortOptional, short_optional};

use rpki_der::encode::{primitive, sequence, tagged};
use rpki_der::{Encode, EncodeError, Sink, SinkFailed, Tag};
use std::marker::Model;

/// A BOOLEAN that is left out where it is false (X.690, section 11.5).
#[derive(Drop)]
pub struct Flag(pub bool);

impl Encode for Flag {
    ghost octets = { λ f. flag_octets f.0 };

    ghost is_short = { λ _. Unit {0} };

    ghost small = { λ _ _. tt };

    #[tactic(auto, unfolding(rpki_der::specs::Write::Written::length_octets))]
    fn encoded_len(&self) -> Result<u64, EncodeError> {
        if self.0 { Ok(3) } else { Ok(0) }
    }

    #[tactic(auto, unfolding(rpki_der::specs::Write::Written::length_octets))]
    fn put<W: Sink>(&self, _len: u64, out: &mut W) -> Result<(), SinkFailed> {
        if self.0 {
            out.take_all(&[0x01, 0x01, 0xFF])
        } else {
            Ok(())
        }
    }
}

/// What writes an extension (RFC 5280, section 4.1): its identifier, whether it is critical, and
/// what writes its value. Where there is no value, nothing is written.
#[derive(Drop)]
pub struct ExtensionEncoder<'a, V: Encode> {
    oid: &'a [u8],
    critical: bool,
    value: Option<V>,
}

impl<'a, V: Encode> Model for ExtensionEncoder<'a, V> {
    ghost use Rattle.std.specs.Prelude.{option_map};
    ghost use Rattle.rpki_der.specs.Write.Parts.{IsEach};
    ghost use Rattle.rpki_issued.specs.Extensions.{OptionalExtension};

    ghost Value = { OptionalExtension };

    ghost view = { λ p. record {
      oid = p.oid.now;
      critical = p.critical;
      value = option_map V.octets p.value;
    } };

    ghost invariant = { λ p. IsEach V.is_der p.value };
}

impl<'a, V: Encode> ExtensionEncoder<'a, V> {
    /// The extension with this identifier.
    pub fn new(oid: &'a [u8], critical: bool, value: Option<V>) -> Self
        requires { IsEach V.is_der value }
        ensures { result ≡ record {
          oid = oid.now;
          critical = critical;
          value = option_map V.octets value;
        } }
    {
        ExtensionEncoder {
            oid,
            critical,
            value,
        }
    }
}

impl<'a, V: Encode> Encode for ExtensionEncoder<'a, V> {
    ghost octets = { octets_of };

    ghost is_short = { IsShortOptional };

    ghost small = { short_optional };

    fn encoded_len(&self) -> Result<u64, EncodeError> {
        match &self.value {
            None => Ok(0),
            Some(value) => {
                let oid = primitive(Tag::OBJECT_IDENTIFIER, self.oid);
                let string = tagged(Tag::OCTET_STRING, value);
                sequence((oid, Flag(self.critical), string)).encoded_len()
            }
        }
    }

    fn put<W: Sink>(&self, len: u64, out: &mut W) -> Result<(), SinkFailed> {
        match &self.value {
            None => Ok(()),
            Some(value) => {
                let oid = primitive(Tag::OBJECT_IDENTIFIER, self.oid);
                let string = tagged(Tag::OCTET_STRING, value);
                sequence((oid, Flag(self.critical), string)).put(len, out)
            }
        }
    }
}
