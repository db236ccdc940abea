//! Writing multi-signed objects.

ghost use Rattle.std.specs.Prelude.{◌≡◌, ◌<◌, ◌^◌, All, length};
ghost use Rattle.rpki_der.specs.declared.mode.Mode.TheVariants.{Der};
ghost use Rattle.rpki_der.specs.Tags.{OBJECT_IDENTIFIER, OCTET_STRING, SEQUENCE, SET, context};
ghost use Rattle.rpki_der.specs.Write.Parts.{contents_small};
ghost use Rattle.rpki_basics.specs.Algorithm.{digest_algorithm_octets};
ghost use Rattle.rpki_sigobj.specs.Object.{id_signed_data};
ghost use Rattle.rpki_sigobj.specs.SignerInfo.{cms_version};
ghost use Rattle.rpki_multi.specs.Multi.{AreIn, CarriedIn};
ghost use Rattle.rpki_multi.specs.Signer.{id_rta};
ghost use Rattle.rpki_multi.specs.Written.{content_octets, IsShortContent, short_content};
ghost use Rattle.rpki_multi.specs.Written.{crls_octets, AreShortCrls, short_crls};
ghost use Rattle.rpki_multi.specs.Written.{carried_octets, AreShortCarried, short_carried};
ghost use Rattle.rpki_multi.specs.Written.{data_octets, IsShortData, short_data};
ghost use Rattle.rpki_multi.specs.Written.{multi_contents, multi_octets};

use crate::multi::MultiSignedObject;
use crate::signer::{ID_RTA, SignerInfo};
use rpki_basics::{AlgorithmEncoder, DigestAlgorithm};
use rpki_certs::Cert;
use rpki_crls::Crl;
use rpki_der::encode::{
    Elements, Raw, Unsigned, Value, each, integer_u8, octet_string, primitive, sequence, set,
    tagged,
};
use rpki_der::{Encode, EncodeError, Mode, Sink, SinkFailed, Tag};
use rpki_sigobj::cms::ID_SIGNED_DATA;
use std::marker::Model;

/// A multi-signed object, to be written in DER. Where it, or a certificate, a revocation list or a
/// signer, was read in BER, `NotDer` is answered.
#[derive(Drop)]
pub struct MultiSignedObjectEncoder<'a> {
    object: &'a MultiSignedObject,
}

impl<'a> Model for MultiSignedObjectEncoder<'a> {
    ghost use Rattle.rpki_multi.specs.Multi.{KeptMulti};

    ghost Value = { KeptMulti };

    ghost view = { λ e. e.object.now };
}

impl<'a> MultiSignedObjectEncoder<'a> {
    /// Makes the encoder of this object.
    pub(super) fn new(object: &'a MultiSignedObject) -> MultiSignedObjectEncoder<'a>
        ensures { result ≡ object.now }
    {
        MultiSignedObjectEncoder { object }
    }

    // The fields: the type, and what is signed.
    fn fields(&self) -> (Value<Raw<'static>>, Value<DataField<'a>>)
        ensures oid { result.0.tag.octet ≡ OBJECT_IDENTIFIER }
        ensures kind { result.0.contents.0.now ≡ id_signed_data }
        ensures tag { result.1.tag.octet ≡ context 0 }
        ensures signed { result.1.contents.0.now ≡ self.now }
    {
        (
            primitive(Tag::OBJECT_IDENTIFIER, &ID_SIGNED_DATA),
            tagged(Tag::CTX_0, DataField(self.object)),
        )
    }
}

impl<'a> Encode for MultiSignedObjectEncoder<'a> {
    ghost octets = { multi_octets };

    ghost is_der = { AreIn Der };

    ghost is_short = { λ m. length (multi_contents m) < 2 ^ 32 };

    ghost small = { λ m h. contents_small SEQUENCE (multi_contents m) h };

    fn encoded_len(&self) -> Result<u64, EncodeError> {
        match self.object.mode() {
            Mode::Der => sequence(self.fields()).encoded_len(),
            Mode::Ber => Err(EncodeError::NotDer),
        }
    }

    fn put<W: Sink>(&self, len: u64, out: &mut W) -> Result<(), SinkFailed> {
        sequence(self.fields()).put(len, out)
    }
}

// What is signed (RFC 5652, section 5.1).
#[derive(Clone, Copy)]
struct DataField<'a>(&'a MultiSignedObject);

impl<'a> DataField<'a> {
    // The fields.
    fn fields(
        &self,
    ) -> (
        Unsigned,
        Value<AlgorithmEncoder>,
        ContentField<'a>,
        CarriedField<'a>,
    )
        ensures version { result.0.0 ≡ cms_version }
        ensures set { result.1.tag.octet ≡ SET }
        ensures digest { result.1.contents.0.now ≡ digest_algorithm_octets }
        ensures content { result.2.0.now ≡ self.now.0.now.content }
        ensures carried { result.3.0.now ≡ self.now.0.now }
    {
        (
            integer_u8(3),
            set(DigestAlgorithm::sha256().encode_ref()),
            ContentField(self.0.content().as_slice()),
            CarriedField(self.0),
        )
    }
}

impl Encode for DataField<'_> {
    ghost octets = { λ d. data_octets d.0.now };

    ghost is_der = { λ d. CarriedIn Der d.0.now };

    ghost is_short = { λ d. IsShortData d.0.now };

    ghost small = { λ d h. short_data d.0.now h };

    #[tactic(auto, unfolding(crate::specs::Written::data_octets, crate::specs::Written::IsShortData))]
    fn encoded_len(&self) -> Result<u64, EncodeError> {
        sequence(self.fields()).encoded_len()
    }

    #[tactic(auto, unfolding(crate::specs::Written::data_octets, crate::specs::Written::IsShortData))]
    fn put<W: Sink>(&self, len: u64, out: &mut W) -> Result<(), SinkFailed> {
        sequence(self.fields()).put(len, out)
    }
}

// A content of an attestation, with its type (RFC 5652, section 5.2).
#[derive(Clone, Copy)]
struct ContentField<'a>(&'a [u8]);

impl<'a> ContentField<'a> {
    // The fields.
    fn fields(&self) -> (Value<Raw<'static>>, Value<Value<Raw<'a>>>)
        ensures oid { result.0.tag.octet ≡ OBJECT_IDENTIFIER }
        ensures kind { result.0.contents.0.now ≡ id_rta }
        ensures tag { result.1.tag.octet ≡ context 0 }
        ensures string { result.1.contents.tag.octet ≡ OCTET_STRING }
        ensures content { result.1.contents.contents.0.now ≡ self.now.0.now }
    {
        (
            primitive(Tag::OBJECT_IDENTIFIER, &ID_RTA),
            tagged(Tag::CTX_0, octet_string(self.0)),
        )
    }
}

impl Encode for ContentField<'_> {
    ghost octets = { λ c. content_octets c.0.now };

    ghost is_short = { λ c. IsShortContent c.0.now };

    ghost small = { λ c h. short_content c.0.now h };

    #[tactic(auto, unfolding(crate::specs::Written::content_octets, crate::specs::Written::IsShortContent))]
    fn encoded_len(&self) -> Result<u64, EncodeError> {
        sequence(self.fields()).encoded_len()
    }

    #[tactic(auto, unfolding(crate::specs::Written::content_octets, crate::specs::Written::IsShortContent))]
    fn put<W: Sink>(&self, len: u64, out: &mut W) -> Result<(), SinkFailed> {
        sequence(self.fields()).put(len, out)
    }
}

// The certificates, the revocation lists and the signers (RFC 5652, section 5.1).
#[derive(Clone, Copy)]
struct CarriedField<'a>(&'a MultiSignedObject);

impl<'a> CarriedField<'a> {
    // The fields.
    fn fields(
        &self,
    ) -> (
        Value<Elements<'a, Cert>>,
        CrlsField<'a>,
        Value<Elements<'a, SignerInfo>>,
    )
        ensures certs_tag { result.0.tag.octet ≡ context 0 }
        ensures certs { result.0.contents.0.now ≡ self.now.0.now.certs }
        ensures crls { result.1.0.now ≡ self.now.0.now.crls }
        ensures signers_tag { result.2.tag.octet ≡ SET }
        ensures signers { result.2.contents.0.now ≡ self.now.0.now.signers }
    {
        (
            tagged(Tag::CTX_0, each(self.0.certificates())),
            CrlsField(self.0.crls()),
            set(each(self.0.signer_infos())),
        )
    }
}

impl Encode for CarriedField<'_> {
    ghost octets = { λ c. carried_octets c.0.now };

    ghost is_der = { λ c. CarriedIn Der c.0.now };

    ghost is_short = { λ c. AreShortCarried c.0.now };

    ghost small = { λ c h. short_carried c.0.now h };

    #[tactic(auto, unfolding(crate::specs::Written::carried_octets, crate::specs::Written::AreShortCarried))]
    fn encoded_len(&self) -> Result<u64, EncodeError> {
        self.fields().encoded_len()
    }

    #[tactic(auto, unfolding(crate::specs::Written::carried_octets, crate::specs::Written::AreShortCarried))]
    fn put<W: Sink>(&self, len: u64, out: &mut W) -> Result<(), SinkFailed> {
        self.fields().put(len, out)
    }
}

// The revocation lists under [1], and nothing where there is none (RFC 5652, section 5.1).
#[derive(Clone, Copy)]
struct CrlsField<'a>(&'a [Crl]);

impl Encode for CrlsField<'_> {
    ghost octets = { λ l. crls_octets l.0.now };

    ghost is_der = { λ l. All (λ c. c.mode ≡ Der) l.0.now };

    ghost is_short = { λ l. AreShortCrls l.0.now };

    ghost small = { λ l h. short_crls l.0.now h };

    fn encoded_len(&self) -> Result<u64, EncodeError> {
        match self.0 {
            [] => Ok(0),
            [_first, _others @ ..] => tagged(Tag::CTX_1, each(self.0)).encoded_len(),
        }
    }

    fn put<W: Sink>(&self, len: u64, out: &mut W) -> Result<(), SinkFailed> {
        match self.0 {
            [] => Ok(()),
            [_first, _others @ ..] => tagged(Tag::CTX_1, each(self.0)).put(len, out),
        }
    }
}
