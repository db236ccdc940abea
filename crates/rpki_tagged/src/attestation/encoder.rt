//! Writing a content.

ghost use Rattle.std.specs.Prelude.{◌≡◌, ◌<◌, ◌^◌, length};
ghost use Rattle.std.specs.List.{flat_map};
ghost use Rattle.rpki_basics.specs.Algorithm.{digest_algorithm_octets};
ghost use Rattle.rpki_der.specs.Tags.{SEQUENCE, SET, context};
ghost use Rattle.rpki_der.specs.Write.Parts.{contents_small, optional_octets};
ghost use Rattle.rpki_der.specs.Write.Written.{value_octets};
ghost use Rattle.rpki_resources.specs.As.Written.{as_octets};
ghost use Rattle.rpki_tagged.specs.Attestation.{numbers_octets, named_contents};
ghost use Rattle.rpki_lists.specs.Named.{written_asns, families_octets, addresses_octets};

use crate::attestation::ResourceTaggedAttestation;
use rpki_attributes::MessageDigestEncoder;
use rpki_basics::{AlgorithmEncoder, KeyIdentifier};
use rpki_der::encode::{Value, each, sequence, set, tagged};
use rpki_der::{Encode, EncodeError, Sink, SinkFailed, Tag};
use rpki_lists::named::encoder::{AddressesField, is_empty_set, written_addresses};
use rpki_resources::{AsBlocks, AsBlocksEncoder};
use std::marker::Model;

/// A content, to be written in DER.
#[derive(Drop)]
pub struct AttestationEncoder<'a> {
    content: &'a ResourceTaggedAttestation,
}

impl<'a> Model for AttestationEncoder<'a> {
    ghost use Rattle.rpki_tagged.specs.Attestation.{Attestation};

    ghost Value = { Attestation };

    ghost view = { λ e. e.content.now };
}

impl<'a> AttestationEncoder<'a> {
    /// Makes the encoder of this content.
    pub(crate) fn new(content: &'a ResourceTaggedAttestation) -> AttestationEncoder<'a>
        ensures { result ≡ content.now }
    {
        AttestationEncoder { content }
    }

    // Gives the fields of the content: the keys, what is named, the algorithm and the digest.
    fn fields(
        &self,
    ) -> (
        KeysField<'a>,
        NamedField<'a>,
        AlgorithmEncoder,
        MessageDigestEncoder<'a>,
    )
        ensures keys { result.0.0.now ≡ self.now.subject_keys }
        ensures named { result.1.0.now ≡ self.now }
        ensures algorithm { result.2.0.now ≡ digest_algorithm_octets }
        ensures digest { result.3 ≡ self.now.message_digest }
    {
        let content = self.content;
        (
            KeysField(content.subject_keys()),
            NamedField(content),
            content.digest_algorithm().encode_ref(),
            content.message_digest().encode_ref(),
        )
    }
}

impl<'a> Encode for AttestationEncoder<'a> {
    ghost use Rattle.rpki_tagged.specs.Attestation.{attestation_contents, attestation_octets};

    ghost octets = { attestation_octets };

    ghost is_short = { λ a. length (attestation_contents a) < 2 ^ 32 };

    ghost small = { λ a h. contents_small SEQUENCE (attestation_contents a) h };

    fn encoded_len(&self) -> Result<u64, EncodeError> {
        sequence(self.fields()).encoded_len()
    }

    fn put<W: Sink>(&self, len: u64, out: &mut W) -> Result<(), SinkFailed> {
        sequence(self.fields()).put(len, out)
    }
}

/// The identifiers of the keys: a SET of them.
#[derive(Clone, Copy)]
struct KeysField<'a>(&'a [KeyIdentifier]);

impl Encode for KeysField<'_> {
    ghost use Rattle.rpki_basics.specs.Identifier.{key_identifier_octets};

    ghost octets = { λ s. value_octets SET (flat_map key_identifier_octets s.0.now) };

    ghost is_short = { λ s. length (flat_map key_identifier_octets s.0.now) < 2 ^ 32 };

    ghost small = { λ s h. contents_small SET (flat_map key_identifier_octets s.0.now) h };

    fn encoded_len(&self) -> Result<u64, EncodeError> {
        set(each(self.0)).encoded_len()
    }

    fn put<W: Sink>(&self, len: u64, out: &mut W) -> Result<(), SinkFailed> {
        set(each(self.0)).put(len, out)
    }
}

/// What is named: a SEQUENCE of the AS numbers and of the addresses.
#[derive(Clone, Copy)]
struct NamedField<'a>(&'a ResourceTaggedAttestation);

impl<'a> NamedField<'a> {
    // The AS numbers, unless there are none and addresses are named.
    fn numbers(&self) -> Option<NumbersField<'a>>
        ensures { optional_octets (λ f. numbers_octets f.0.now) result
            ≡ optional_octets numbers_octets (written_asns self.now.0.now.as_resources
            self.now.0.now.v4_resources self.now.0.now.v6_resources) }
    {
        let content = self.0;
        let numbers = content.as_resources();
        let no_address = is_empty_set(content.v4_resources())
            && is_empty_set(content.v6_resources());
        if is_empty_set(numbers) && !no_address {
            None
        } else {
            Some(NumbersField(numbers))
        }
    }

    // The addresses, if there are some.
    fn addresses(&self) -> Option<AddressesField<'a>>
        ensures { optional_octets
            (λ f. value_octets (context 1) (value_octets SEQUENCE (families_octets f.0 f.1))) result
            ≡ addresses_octets self.now.0.now.v4_resources self.now.0.now.v6_resources }
    {
        let content = self.0;
        written_addresses(content.v4_resources(), content.v6_resources())
    }
}

impl Encode for NamedField<'_> {
    ghost octets = { λ s. value_octets SEQUENCE (named_contents s.0.now) };

    ghost is_short = { λ s. length (named_contents s.0.now) < 2 ^ 32 };

    ghost small = { λ s h. contents_small SEQUENCE (named_contents s.0.now) h };

    fn encoded_len(&self) -> Result<u64, EncodeError> {
        sequence((self.numbers(), self.addresses())).encoded_len()
    }

    fn put<W: Sink>(&self, len: u64, out: &mut W) -> Result<(), SinkFailed> {
        sequence((self.numbers(), self.addresses())).put(len, out)
    }
}

/// The AS numbers under their tag.
#[derive(Clone, Copy)]
struct NumbersField<'a>(&'a AsBlocks);

impl<'a> NumbersField<'a> {
    // The value, with what it holds.
    fn value(&self) -> Value<Value<AsBlocksEncoder<'a>>>
        ensures outer { result.tag.octet ≡ context 0 }
        ensures list { result.contents.tag.octet ≡ SEQUENCE }
        ensures blocks { result.contents.contents ≡ self.now.0.now }
    {
        tagged(Tag::CTX_0, sequence(self.0.encode_ref()))
    }
}

impl Encode for NumbersField<'_> {
    ghost octets = { λ s. numbers_octets s.0.now };

    ghost is_short = { λ s. length (value_octets SEQUENCE (flat_map as_octets s.0.now)) < 2 ^ 32 };

    ghost small = { λ s h. contents_small (context 0)
        (value_octets SEQUENCE (flat_map as_octets s.0.now)) h };

    fn encoded_len(&self) -> Result<u64, EncodeError> {
        self.value().encoded_len()
    }

    fn put<W: Sink>(&self, len: u64, out: &mut W) -> Result<(), SinkFailed> {
        self.value().put(len, out)
    }
}
