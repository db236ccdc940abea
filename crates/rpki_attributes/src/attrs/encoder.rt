//! Writing signed attributes.

ghost use Rattle.std.specs.Prelude.{◌≡◌, ◌<◌, ◌^◌, length};
ghost use Rattle.rpki_der.specs.declared.mode.Mode.TheVariants.{Der};
ghost use Rattle.rpki_der.specs.Tags.{context};
ghost use Rattle.rpki_der.specs.Write.Parts.{contents_small};
ghost use Rattle.rpki_attributes.specs.Attrs.Made.{attrs_octets};

use crate::attrs::SignedAttrs;
use rpki_der::encode::{Raw, Value, tagged};
use rpki_der::{Encode, EncodeError, Mode, Sink, SinkFailed, Tag};
use std::marker::Model;

/// Signed attributes, to be written in DER as they were read or made. Those that were read in BER
/// are refused by `NotDer`.
#[derive(Drop)]
pub struct SignedAttrsEncoder<'a> {
    attrs: &'a SignedAttrs,
}

impl<'a> Model for SignedAttrsEncoder<'a> {
    ghost use Rattle.rpki_attributes.specs.Attrs.{KeptAttributes};

    ghost Value = { KeptAttributes };

    ghost view = { λ e. e.attrs.now };
}

impl<'a> SignedAttrsEncoder<'a> {
    /// Makes the encoder of these attributes.
    pub(super) fn new(attrs: &'a SignedAttrs) -> SignedAttrsEncoder<'a>
        ensures { result ≡ attrs.now }
    {
        SignedAttrsEncoder { attrs }
    }

    // The attributes under their header.
    fn value(&self) -> Value<Raw<'a>>
        ensures tag { result.tag.octet ≡ context 0 }
        ensures contents { result.contents.0.now ≡ self.now.attributes.contents }
    {
        tagged(Tag::CTX_0, Raw(self.attrs.as_slice()))
    }
}

impl<'a> Encode for SignedAttrsEncoder<'a> {
    ghost octets = { λ e. attrs_octets e.attributes };

    ghost is_der = { λ e. e.mode ≡ Der };

    ghost is_short = { λ e. length e.attributes.contents < 2 ^ 32 };

    ghost small = { λ e h. contents_small (context 0) e.attributes.contents h };

    fn encoded_len(&self) -> Result<u64, EncodeError> {
        match self.attrs.mode() {
            Mode::Der => self.value().encoded_len(),
            Mode::Ber => Err(EncodeError::NotDer),
        }
    }

    fn put<W: Sink>(&self, len: u64, out: &mut W) -> Result<(), SinkFailed> {
        self.value().put(len, out)
    }
}
