//! Writing what is signed (RFC 5652, section 5).

ghost use Rattle.std.specs.Prelude.{◌≡◌};
ghost use Rattle.rpki_der.specs.Tags.{OBJECT_IDENTIFIER, OCTET_STRING, SET, context};
ghost use Rattle.rpki_der.specs.Tags.{context_primitive};
ghost use Rattle.rpki_basics.specs.Algorithm.{digest_algorithm_octets, cms_algorithm_octets};
ghost use Rattle.rpki_sigobj.specs.SignerInfo.{cms_version};
ghost use Rattle.rpki_signing.specs.Written.{signed_tail, IsShortTail, short_tail};
ghost use Rattle.rpki_signing.specs.Written.{signer_octets, IsShortSigner, short_signer};
ghost use Rattle.rpki_signing.specs.Written.{content_octets, IsShortContent, short_content};
ghost use Rattle.rpki_signing.specs.Written.{data_tail, IsShortDataTail, short_data_tail};
ghost use Rattle.rpki_signing.specs.Written.{data_octets, IsShortData, short_data};

use rpki_basics::{AlgorithmEncoder, DigestAlgorithm, RpkiSignatureAlgorithm};
use rpki_der::encode::{
    Raw, Unsigned, Value, integer_u8, octet_string, primitive, sequence, set, tagged,
};
use rpki_der::{Encode, EncodeError, Sink, SinkFailed, Tag};

// What writes the attributes, the algorithm and the signature.
#[derive(Drop)]
struct SignedTail<'a> {
    attributes: &'a [u8],
    signature: &'a [u8],
}

impl<'a> SignedTail<'a> {
    // The fields.
    fn fields(&self) -> (Value<Raw<'a>>, AlgorithmEncoder, Value<Raw<'a>>)
        ensures attributes_tag { result.0.tag.octet ≡ context 0 }
        ensures attributes { result.0.contents.0.now ≡ self.now.attributes.now }
        ensures algorithm { result.1.0.now ≡ cms_algorithm_octets }
        ensures signature_tag { result.2.tag.octet ≡ OCTET_STRING }
        ensures signature { result.2.contents.0.now ≡ self.now.signature.now }
    {
        (
            tagged(Tag::CTX_0, Raw(self.attributes)),
            RpkiSignatureAlgorithm::RsaSha256.encode_cms(),
            octet_string(self.signature),
        )
    }
}

impl Encode for SignedTail<'_> {
    ghost octets = { λ e. signed_tail e.attributes.now e.signature.now };

    ghost is_short = { λ e. IsShortTail e.attributes.now e.signature.now };

    ghost small = { λ e h. short_tail e.attributes.now e.signature.now h };

    #[tactic(auto, unfolding(crate::specs::Written::signed_tail, crate::specs::Written::IsShortTail))]
    fn encoded_len(&self) -> Result<u64, EncodeError> {
        self.fields().encoded_len()
    }

    #[tactic(auto, unfolding(crate::specs::Written::signed_tail, crate::specs::Written::IsShortTail))]
    fn put<W: Sink>(&self, len: u64, out: &mut W) -> Result<(), SinkFailed> {
        self.fields().put(len, out)
    }
}

/// What writes what a signer says (RFC 5652, section 5.3): the identifier of its key, the octets of
/// its attributes without their header, and its signature.
#[derive(Drop)]
pub struct SignerInfo<'a> {
    pub sid: &'a [u8],
    pub attributes: &'a [u8],
    pub signature: &'a [u8],
}

impl<'a> SignerInfo<'a> {
    // The fields.
    fn fields(&self) -> (Unsigned, Value<Raw<'a>>, AlgorithmEncoder, SignedTail<'a>)
        ensures version { result.0.0 ≡ cms_version }
        ensures tag { result.1.tag.octet ≡ context_primitive 0 }
        ensures sid { result.1.contents.0.now ≡ self.now.sid.now }
        ensures digest { result.2.0.now ≡ digest_algorithm_octets }
        ensures attributes { result.3.attributes.now ≡ self.now.attributes.now }
        ensures signature { result.3.signature.now ≡ self.now.signature.now }
    {
        (
            integer_u8(3),
            primitive(Tag::CTX_0_PRIMITIVE, self.sid),
            DigestAlgorithm::sha256().encode_ref(),
            SignedTail {
                attributes: self.attributes,
                signature: self.signature,
            },
        )
    }
}

impl Encode for SignerInfo<'_> {
    ghost octets = { λ e. signer_octets e.sid.now e.attributes.now e.signature.now };

    ghost is_short = { λ e. IsShortSigner e.sid.now e.attributes.now e.signature.now };

    ghost small = { λ e h. short_signer e.sid.now e.attributes.now e.signature.now h };

    #[tactic(auto, unfolding(crate::specs::Written::signer_octets, crate::specs::Written::IsShortSigner))]
    fn encoded_len(&self) -> Result<u64, EncodeError> {
        sequence(self.fields()).encoded_len()
    }

    #[tactic(auto, unfolding(crate::specs::Written::signer_octets, crate::specs::Written::IsShortSigner))]
    fn put<W: Sink>(&self, len: u64, out: &mut W) -> Result<(), SinkFailed> {
        sequence(self.fields()).put(len, out)
    }
}

/// What writes a content with its type (RFC 5652, section 5.2), which is the contents of an OBJECT
/// IDENTIFIER.
#[derive(Drop)]
pub struct Content<'a> {
    pub kind: &'a [u8],
    pub content: &'a [u8],
}

impl<'a> Content<'a> {
    // The fields.
    fn fields(&self) -> (Value<Raw<'a>>, Value<Value<Raw<'a>>>)
        ensures oid { result.0.tag.octet ≡ OBJECT_IDENTIFIER }
        ensures kind { result.0.contents.0.now ≡ self.now.kind.now }
        ensures tag { result.1.tag.octet ≡ context 0 }
        ensures string { result.1.contents.tag.octet ≡ OCTET_STRING }
        ensures content { result.1.contents.contents.0.now ≡ self.now.content.now }
    {
        (
            primitive(Tag::OBJECT_IDENTIFIER, self.kind),
            tagged(Tag::CTX_0, octet_string(self.content)),
        )
    }
}

impl Encode for Content<'_> {
    ghost octets = { λ e. content_octets e.kind.now e.content.now };

    ghost is_short = { λ e. IsShortContent e.kind.now e.content.now };

    ghost small = { λ e h. short_content e.kind.now e.content.now h };

    #[tactic(auto, unfolding(crate::specs::Written::content_octets, crate::specs::Written::IsShortContent))]
    fn encoded_len(&self) -> Result<u64, EncodeError> {
        sequence(self.fields()).encoded_len()
    }

    #[tactic(auto, unfolding(crate::specs::Written::content_octets, crate::specs::Written::IsShortContent))]
    fn put<W: Sink>(&self, len: u64, out: &mut W) -> Result<(), SinkFailed> {
        sequence(self.fields()).put(len, out)
    }
}

/// What writes a certificate and what its signer says.
#[derive(Drop)]
pub struct DataTail<'a> {
    pub cert: &'a [u8],
    pub signer: SignerInfo<'a>,
}

impl<'a> DataTail<'a> {
    // The fields.
    fn fields(&self) -> (Value<Raw<'a>>, Value<&SignerInfo<'a>>)
        ensures cert_tag { result.0.tag.octet ≡ context 0 }
        ensures cert { result.0.contents.0.now ≡ self.now.cert.now }
        ensures signer_tag { result.1.tag.octet ≡ SET }
        ensures signer { result.1.contents.now ≡ self.now.signer }
    {
        (tagged(Tag::CTX_0, Raw(self.cert)), set(&self.signer))
    }
}

impl Encode for DataTail<'_> {
    ghost octets = { λ e. data_tail e.cert.now
        (signer_octets e.signer.sid.now e.signer.attributes.now e.signer.signature.now) };

    ghost is_short = { λ e. IsShortDataTail e.cert.now
        (signer_octets e.signer.sid.now e.signer.attributes.now e.signer.signature.now) };

    ghost small = { λ e h. short_data_tail e.cert.now
        (signer_octets e.signer.sid.now e.signer.attributes.now e.signer.signature.now) h };

    #[tactic(auto, unfolding(crate::specs::Written::data_tail, crate::specs::Written::IsShortDataTail))]
    fn encoded_len(&self) -> Result<u64, EncodeError> {
        self.fields().encoded_len()
    }

    #[tactic(auto, unfolding(crate::specs::Written::data_tail, crate::specs::Written::IsShortDataTail))]
    fn put<W: Sink>(&self, len: u64, out: &mut W) -> Result<(), SinkFailed> {
        self.fields().put(len, out)
    }
}

/// What writes what is signed (RFC 5652, section 5.1).
#[derive(Drop)]
pub struct Data<'a> {
    pub content: Content<'a>,
    pub tail: DataTail<'a>,
}

impl<'a> Data<'a> {
    // The fields.
    fn fields(
        &self,
    ) -> (
        Unsigned,
        Value<AlgorithmEncoder>,
        &Content<'a>,
        &DataTail<'a>,
    )
        ensures version { result.0.0 ≡ cms_version }
        ensures set { result.1.tag.octet ≡ SET }
        ensures digest { result.1.contents.0.now ≡ digest_algorithm_octets }
        ensures content { result.2.now ≡ self.now.content }
        ensures tail { result.3.now ≡ self.now.tail }
    {
        (
            integer_u8(3),
            set(DigestAlgorithm::sha256().encode_ref()),
            &self.content,
            &self.tail,
        )
    }
}

impl Encode for Data<'_> {
    ghost octets = { λ e. data_octets (content_octets e.content.kind.now e.content.content.now)
        (data_tail e.tail.cert.now (signer_octets e.tail.signer.sid.now
        e.tail.signer.attributes.now e.tail.signer.signature.now)) };

    ghost is_short = { λ e. IsShortData (content_octets e.content.kind.now e.content.content.now)
        (data_tail e.tail.cert.now (signer_octets e.tail.signer.sid.now
        e.tail.signer.attributes.now e.tail.signer.signature.now)) };

    ghost small = { λ e h. short_data (content_octets e.content.kind.now e.content.content.now)
        (data_tail e.tail.cert.now (signer_octets e.tail.signer.sid.now
        e.tail.signer.attributes.now e.tail.signer.signature.now)) h };

    #[tactic(auto, unfolding(crate::specs::Written::data_octets, crate::specs::Written::IsShortData))]
    fn encoded_len(&self) -> Result<u64, EncodeError> {
        sequence(self.fields()).encoded_len()
    }

    #[tactic(auto, unfolding(crate::specs::Written::data_octets, crate::specs::Written::IsShortData))]
    fn put<W: Sink>(&self, len: u64, out: &mut W) -> Result<(), SinkFailed> {
        sequence(self.fields()).put(len, out)
    }
}
