//! Writing the extensions of a revocation list (RFC 5280, section 5.2; RFC 6487, section 5).

ghost use Rattle.std.specs.Prelude.{◌≡◌, ◌<◌, ◌^◌, length, false};
ghost use Rattle.rpki_der.specs.Tags.{SEQUENCE};
ghost use Rattle.rpki_der.specs.Write.Parts.{contents_small};
ghost use Rattle.rpki_basics.specs.Serial.{serial_octets};
ghost use Rattle.rpki_extensions.specs.Extensions.{authority_key_identifier};
ghost use Rattle.rpki_crls.specs.Extensions.{crl_number};
ghost use Rattle.rpki_issued.specs.Extensions.{always};
ghost use Rattle.rpki_issued.specs.Values.{authority_key_octets};
ghost use Rattle.rpki_issued_crls.specs.Lists.{extensions_contents, extensions_octets};

use rpki_basics::{KeyIdentifier, Serial, SerialEncoder};
use rpki_crls::{CRL_NUMBER, CrlExtensions};
use rpki_der::encode::{Raw, Value, primitive, sequence};
use rpki_der::{Encode, EncodeError, Sink, SinkFailed, Tag};
use rpki_extensions::identifiers::AUTHORITY_KEY_IDENTIFIER;
use rpki_issued::extension::ExtensionEncoder;

// The identifier of the issuer's key, as an extension and its value.
type AuthorityKey<'a> = ExtensionEncoder<'a, Value<Value<Raw<'a>>>>;

// The identifier of the issuer's key.
fn authority_key(id: &KeyIdentifier) -> AuthorityKey<'_>
    ensures { result ≡ always authority_key_identifier false (authority_key_octets id.now) }
{
    let value = sequence(primitive(Tag::CTX_0_PRIMITIVE, id.as_slice()));
    ExtensionEncoder::new(&AUTHORITY_KEY_IDENTIFIER, false, Some(value))
}

// The number of the list.
fn number(number: &Serial) -> ExtensionEncoder<'_, SerialEncoder<'_>>
    ensures { result ≡ always crl_number false (serial_octets number.now) }
{
    ExtensionEncoder::new(&CRL_NUMBER, false, Some(number.encode_ref()))
}

/// What writes the extensions of a revocation list: the identifier of the issuer's key, and the
/// number of the list. Neither is critical.
#[derive(Drop)]
pub struct CrlExtensionsEncoder<'a>(pub &'a CrlExtensions);

impl CrlExtensionsEncoder<'_> {
    // Both extensions, in the order in which they are written.
    fn fields(&self) -> (AuthorityKey<'_>, ExtensionEncoder<'_, SerialEncoder<'_>>)
        ensures authority_key { result.0 ≡ always authority_key_identifier false
            (authority_key_octets self.now.0.now.authority_key) }
        ensures number { result.1
            ≡ always crl_number false (serial_octets self.now.0.now.number) }
    {
        let x: &CrlExtensions = self.0;
        (authority_key(&x.authority_key), number(&x.number))
    }
}

impl Encode for CrlExtensionsEncoder<'_> {
    ghost octets = { λ e. extensions_octets e.0.now };

    ghost is_short = { λ e. length (extensions_contents e.0.now) < 2 ^ 32 };

    ghost small = { λ e h. contents_small SEQUENCE (extensions_contents e.0.now) h };

    fn encoded_len(&self) -> Result<u64, EncodeError> {
        sequence(self.fields()).encoded_len()
    }

    fn put<W: Sink>(&self, len: u64, out: &mut W) -> Result<(), SinkFailed> {
        sequence(self.fields()).put(len, out)
    }
}
