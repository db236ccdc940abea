//! Writing what is signed of a certificate, its TBSCertificate (RFC 5280, section 4.1.2): the
//! fields up to the issuer, and those from the validity on.

ghost use Rattle.std.specs.Prelude.{◌≡◌};
ghost use Rattle.rpki_der.specs.declared.mode.Mode.TheVariants.{Der};
ghost use Rattle.rpki_der.specs.Tags.{context};
ghost use Rattle.rpki_basics.specs.Algorithm.{cert_algorithm_octets};
ghost use Rattle.rpki_basics.specs.Time.Form.{time_octets};
ghost use Rattle.rpki_certs.specs.Cert.{v3};
ghost use Rattle.rpki_issued.specs.Written.{issuer_fields_octets, AreShortIssuerFields};
ghost use Rattle.rpki_issued.specs.Written.{short_issuer_fields};
ghost use Rattle.rpki_issued.specs.Written.{validity_field_octets, IsShortValidity, short_validity};
ghost use Rattle.rpki_issued.specs.Written.{key_fields_octets, AreShortKeyFields};
ghost use Rattle.rpki_issued.specs.Written.{short_key_fields};
ghost use Rattle.rpki_issued.specs.Written.{subject_fields_octets, AreShortSubjectFields};
ghost use Rattle.rpki_issued.specs.Written.{short_subject_fields};

use crate::extensions::ExtensionsEncoder;
use crate::tbs::TbsCert;
use rpki_basics::{
    AlgorithmEncoder, KeyEncoder, Name, RpkiSignatureAlgorithm, SerialEncoder, Time, TimeEncoder,
};
use rpki_der::encode::{CapturedEncoder, Unsigned, Value, integer_u8, sequence, tagged};
use rpki_der::{Encode, EncodeError, Sink, SinkFailed, Tag};

// The number of the version v3 (RFC 5280, section 4.1.2.1).
const V3: u8 = 2;

/// What writes the version, the serial number, the algorithm and the issuer.
#[derive(Drop)]
pub struct IssuerFields<'a>(pub &'a TbsCert);

impl IssuerFields<'_> {
    // The version, the serial number, the algorithm and the issuer.
    fn fields(
        &self,
    ) -> (
        Value<Unsigned>,
        SerialEncoder<'_>,
        AlgorithmEncoder,
        CapturedEncoder<'_>,
    )
        ensures tag { result.0.tag.octet ≡ context 0 }
        ensures version { result.0.contents.0 ≡ v3 }
        ensures serial_number { result.1.0.now ≡ self.now.0.now.serial_number }
        ensures algorithm { result.2.0.now ≡ cert_algorithm_octets }
        ensures issuer { result.3.0.now ≡ self.now.0.now.issuer }
    {
        let t: &TbsCert = self.0;
        (
            tagged(Tag::CTX_0, integer_u8(V3)),
            t.serial_number.encode_ref(),
            RpkiSignatureAlgorithm::RsaSha256.encode_cert(),
            t.issuer.encode_ref(),
        )
    }
}

impl Encode for IssuerFields<'_> {
    ghost octets = { λ f. issuer_fields_octets f.0.now.serial_number f.0.now.issuer.octets };

    ghost is_der = { λ f. f.0.now.issuer.mode ≡ Der };

    ghost is_short = { λ f. AreShortIssuerFields f.0.now.serial_number };

    ghost small = { λ f h. short_issuer_fields f.0.now.serial_number f.0.now.issuer.octets h };

    #[tactic(auto, unfolding(crate::specs::Written::issuer_fields_octets, crate::specs::Written::AreShortIssuerFields))]
    fn encoded_len(&self) -> Result<u64, EncodeError> {
        self.fields().encoded_len()
    }

    #[tactic(auto, unfolding(crate::specs::Written::issuer_fields_octets, crate::specs::Written::AreShortIssuerFields))]
    fn put<W: Sink>(&self, len: u64, out: &mut W) -> Result<(), SinkFailed> {
        self.fields().put(len, out)
    }
}

// What writes a validity, by its two ends.
#[derive(Drop)]
struct ValidityField(Time, Time);

impl ValidityField {
    // Both ends.
    fn fields(&self) -> (TimeEncoder, TimeEncoder)
        ensures not_before { result.0 ≡ time_octets self.now.0 }
        ensures not_after { result.1 ≡ time_octets self.now.1 }
    {
        (self.0.encode_ref(), self.1.encode_ref())
    }
}

impl Encode for ValidityField {
    ghost octets = { λ v. validity_field_octets v.0 v.1 };

    ghost is_short = { λ v. IsShortValidity v.0 v.1 };

    ghost small = { λ v h. short_validity v.0 v.1 h };

    #[tactic(auto, unfolding(crate::specs::Written::validity_field_octets, crate::specs::Written::IsShortValidity))]
    fn encoded_len(&self) -> Result<u64, EncodeError> {
        sequence(self.fields()).encoded_len()
    }

    #[tactic(auto, unfolding(crate::specs::Written::validity_field_octets, crate::specs::Written::IsShortValidity))]
    fn put<W: Sink>(&self, len: u64, out: &mut W) -> Result<(), SinkFailed> {
        sequence(self.fields()).put(len, out)
    }
}

// What writes the key and the extensions.
#[derive(Drop)]
struct KeyFields<'a>(&'a TbsCert);

impl KeyFields<'_> {
    // The key and the extensions.
    fn fields(&self) -> (KeyEncoder<'_>, Value<ExtensionsEncoder<'_>>)
        ensures key { result.0.0.now ≡ self.now.0.now.key }
        ensures tag { result.1.tag.octet ≡ context 3 }
        ensures extensions { result.1.contents.0.now ≡ self.now.0.now.extensions }
    {
        let t: &TbsCert = self.0;
        (
            t.key.encode_ref(),
            tagged(Tag::CTX_3, ExtensionsEncoder(&t.extensions)),
        )
    }
}

impl Encode for KeyFields<'_> {
    ghost octets = { λ f. key_fields_octets f.0.now.key f.0.now.extensions };

    ghost is_short = { λ f. AreShortKeyFields f.0.now.key f.0.now.extensions };

    ghost small = { λ f h. short_key_fields f.0.now.key f.0.now.extensions h };

    #[tactic(auto, unfolding(crate::specs::Written::key_fields_octets, crate::specs::Written::AreShortKeyFields))]
    fn encoded_len(&self) -> Result<u64, EncodeError> {
        self.fields().encoded_len()
    }

    #[tactic(auto, unfolding(crate::specs::Written::key_fields_octets, crate::specs::Written::AreShortKeyFields))]
    fn put<W: Sink>(&self, len: u64, out: &mut W) -> Result<(), SinkFailed> {
        self.fields().put(len, out)
    }
}

/// What writes the validity, this subject, the key and the extensions.
#[derive(Drop)]
pub struct SubjectFields<'a> {
    pub tbs: &'a TbsCert,
    pub subject: &'a Name,
}

impl SubjectFields<'_> {
    // The validity, the subject, and the key with the extensions.
    fn fields(&self) -> (ValidityField, CapturedEncoder<'_>, KeyFields<'_>)
        ensures not_before { result.0.0 ≡ self.now.tbs.now.validity.not_before }
        ensures not_after { result.0.1 ≡ self.now.tbs.now.validity.not_after }
        ensures subject { result.1.0.now ≡ self.now.subject.now }
        ensures key { result.2.0.now ≡ self.now.tbs.now }
    {
        let t: &TbsCert = self.tbs;
        let validity = ValidityField(t.validity.not_before(), t.validity.not_after());
        (validity, self.subject.encode_ref(), KeyFields(t))
    }
}

impl Encode for SubjectFields<'_> {
    ghost octets = { λ f. subject_fields_octets f.tbs.now.validity f.subject.now.octets
        f.tbs.now.key f.tbs.now.extensions };

    ghost is_der = { λ f. f.subject.now.mode ≡ Der };

    ghost is_short = { λ f. AreShortSubjectFields f.tbs.now.validity f.tbs.now.key
        f.tbs.now.extensions };

    ghost small = { λ f h. short_subject_fields f.tbs.now.validity f.subject.now.octets
        f.tbs.now.key f.tbs.now.extensions h };

    #[tactic(auto, unfolding(crate::specs::Written::subject_fields_octets, crate::specs::Written::AreShortSubjectFields))]
    fn encoded_len(&self) -> Result<u64, EncodeError> {
        self.fields().encoded_len()
    }

    #[tactic(auto, unfolding(crate::specs::Written::subject_fields_octets, crate::specs::Written::AreShortSubjectFields))]
    fn put<W: Sink>(&self, len: u64, out: &mut W) -> Result<(), SinkFailed> {
        self.fields().put(len, out)
    }
}
