//! Writing what a signer says.

ghost use Rattle.std.specs.Prelude.{◌≡◌};
ghost use Rattle.rpki_der.specs.declared.mode.Mode.TheVariants.{Der};
ghost use Rattle.rpki_der.specs.Tags.{OCTET_STRING, context_primitive};
ghost use Rattle.rpki_basics.specs.Algorithm.{digest_algorithm_octets, cms_algorithm_octets};
ghost use Rattle.rpki_sigobj.specs.SignerInfo.{cms_version};
ghost use Rattle.rpki_multi.specs.Written.{signer_octets, IsShortSigner, short_signer};

use crate::signer::SignerInfo;
use rpki_attributes::SignedAttrsEncoder;
use rpki_basics::{AlgorithmEncoder, DigestAlgorithm, RpkiSignatureAlgorithm};
use rpki_der::encode::{Raw, Unsigned, Value, integer_u8, octet_string, primitive, sequence};
use rpki_der::{Encode, EncodeError, Sink, SinkFailed, Tag};
use std::marker::Model;

/// What a signer says, to be written in DER. Where it was read in BER, `NotDer` is answered.
#[derive(Drop)]
pub struct SignerInfoEncoder<'a> {
    signer: &'a SignerInfo,
}

impl<'a> Model for SignerInfoEncoder<'a> {
    ghost use Rattle.rpki_sigobj.specs.SignerInfo.{KeptSigner};

    ghost Value = { KeptSigner };

    ghost view = { λ e. e.signer.now };
}

// The fields of what a signer says.
type Fields<'a> = (
    Unsigned,
    Value<Raw<'a>>,
    AlgorithmEncoder,
    SignedAttrsEncoder<'a>,
    AlgorithmEncoder,
    Value<Raw<'a>>,
);

impl<'a> SignerInfoEncoder<'a> {
    /// Makes the encoder of what this signer says.
    pub(super) fn new(signer: &'a SignerInfo) -> SignerInfoEncoder<'a>
        ensures { result ≡ signer.now }
    {
        SignerInfoEncoder { signer }
    }

    // The fields.
    fn fields(&self) -> Fields<'a>
        ensures version { result.0.0 ≡ cms_version }
        ensures sid_tag { result.1.tag.octet ≡ context_primitive 0 }
        ensures sid { result.1.contents.0.now ≡ self.now.signer.sid }
        ensures digest { result.2.0.now ≡ digest_algorithm_octets }
        ensures attributes { result.3.attributes ≡ self.now.signer.attributes }
        ensures mode { result.3.mode ≡ self.now.mode }
        ensures algorithm { result.4.0.now ≡ cms_algorithm_octets }
        ensures signature_tag { result.5.tag.octet ≡ OCTET_STRING }
        ensures signature { result.5.contents.0.now ≡ self.now.signer.signature }
    {
        let signer = self.signer;
        (
            integer_u8(3),
            primitive(Tag::CTX_0_PRIMITIVE, signer.sid().as_slice()),
            DigestAlgorithm::sha256().encode_ref(),
            signer.attributes().encode_ref(),
            RpkiSignatureAlgorithm::RsaSha256.encode_cms(),
            octet_string(signer.signature().value()),
        )
    }
}

impl<'a> Encode for SignerInfoEncoder<'a> {
    ghost octets = { λ e. signer_octets e.signer };

    ghost is_der = { λ e. e.mode ≡ Der };

    ghost is_short = { λ e. IsShortSigner e.signer };

    ghost small = { λ e h. short_signer e.signer h };

    #[tactic(auto, unfolding(crate::specs::Written::signer_octets, crate::specs::Written::IsShortSigner))]
    fn encoded_len(&self) -> Result<u64, EncodeError> {
        sequence(self.fields()).encoded_len()
    }

    #[tactic(auto, unfolding(crate::specs::Written::signer_octets, crate::specs::Written::IsShortSigner))]
    fn put<W: Sink>(&self, len: u64, out: &mut W) -> Result<(), SinkFailed> {
        sequence(self.fields()).put(len, out)
    }
}

/// What a signer says, as its encoder writes it.
impl Encode for SignerInfo {
    ghost octets = { λ s. signer_octets s.signer };

    ghost is_der = { λ s. s.mode ≡ Der };

    ghost is_short = { λ s. IsShortSigner s.signer };

    ghost small = { λ s h. short_signer s.signer h };

    fn encoded_len(&self) -> Result<u64, EncodeError> {
        self.encode_ref().encoded_len()
    }

    fn put<W: Sink>(&self, len: u64, out: &mut W) -> Result<(), SinkFailed> {
        self.encode_ref().put(len, out)
    }
}
