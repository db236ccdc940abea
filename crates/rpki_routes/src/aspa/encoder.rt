//! Writing an ASPA content.

ghost use Rattle.std.specs.Prelude.{◌≡◌, ◌<◌, ◌^◌, length};
ghost use Rattle.rpki_der.specs.Tags.{SEQUENCE, context};
ghost use Rattle.rpki_der.specs.Write.Parts.{contents_small};
ghost use Rattle.rpki_der.specs.Write.Written.{number_octets, value_octets};
ghost use Rattle.rpki_routes.specs.Aspa.Written.{version_octets, providers_octets};

use crate::aspa::AsProviderAttestation;
use crate::aspa::providers::{ProviderAsSet, ProvidersIn};
use rpki_der::encode::{integer, sequence, tagged};
use rpki_der::{Encode, EncodeError, Sink, SinkFailed, Tag};
use rpki_lists::{EntriesEncoder, Written};
use rpki_resources::Asn;
use std::marker::Model;

/// A content, to be written in DER.
#[derive(Drop)]
pub struct AsProviderAttestationEncoder<'a> {
    content: &'a AsProviderAttestation,
}

impl<'a> Model for AsProviderAttestationEncoder<'a> {
    ghost use Rattle.rpki_routes.specs.Aspa.{Aspa};

    ghost Value = { Aspa };

    ghost view = { λ e. e.content.now };
}

impl<'a> AsProviderAttestationEncoder<'a> {
    /// Makes the encoder of this content.
    pub(crate) fn new(content: &'a AsProviderAttestation) -> AsProviderAttestationEncoder<'a>
        ensures { result ≡ content.now }
    {
        AsProviderAttestationEncoder { content }
    }

    // The fields of the content: its version, its customer and its providers.
    fn fields(&self) -> (Version, Asn, ProvidersField<'_>)
        ensures customer { result.1 ≡ self.now.customer }
        ensures providers { result.2.0.now ≡ self.now.providers }
    {
        (
            Version,
            self.content.customer_as(),
            ProvidersField(self.content.provider_as_set()),
        )
    }
}

impl<'a> Encode for AsProviderAttestationEncoder<'a> {
    ghost use Rattle.rpki_routes.specs.Aspa.Written.{aspa_contents, aspa_octets};

    ghost octets = { aspa_octets };

    ghost is_short = { λ a. length (aspa_contents a) < 2 ^ 32 };

    ghost small = { λ a h. contents_small SEQUENCE (aspa_contents a) h };

    fn encoded_len(&self) -> Result<u64, EncodeError> {
        sequence(self.fields()).encoded_len()
    }

    fn put<W: Sink>(&self, len: u64, out: &mut W) -> Result<(), SinkFailed> {
        sequence(self.fields()).put(len, out)
    }
}

/// The version field: [0] that holds the INTEGER 1.
#[derive(Clone, Copy)]
struct Version;

impl Encode for Version {
    ghost octets = { λ _. version_octets };

    ghost is_short = { λ _. length (number_octets 1) < 2 ^ 32 };

    ghost small = { λ _ h. contents_small (context 0) (number_octets 1) h };

    fn encoded_len(&self) -> Result<u64, EncodeError> {
        tagged(Tag::CTX_0, integer(1)).encoded_len()
    }

    fn put<W: Sink>(&self, len: u64, out: &mut W) -> Result<(), SinkFailed> {
        tagged(Tag::CTX_0, integer(1)).put(len, out)
    }
}

/// A provider is written as its number.
impl<'a> Written for ProvidersIn<'a> {
    ghost use Rattle.std.specs.Prelude.{◌≡◌, ◌↔◌};
    ghost use Rattle.rpki_der.specs.Write.Written.{number_octets};

    type Encoder = Asn;

    ghost octets = { number_octets };

    ghost is_short = { λ _. Unit {0} };

    fn encoder(number: Asn) -> Asn
        ensures octets { number_octets result ≡ number_octets number }
        ensures der { Unit {0} }
        ensures short { Unit {0} ↔ Unit {0} }
    {
        number
    }

    ghost small = { λ _ _. tt };
}

/// The field of the providers: a SEQUENCE of their numbers.
#[derive(Clone, Copy)]
struct ProvidersField<'a>(&'a ProviderAsSet);

impl Encode for ProvidersField<'_> {
    ghost octets = { λ s. value_octets SEQUENCE (providers_octets s.0.now) };

    ghost is_short = { λ s. length (providers_octets s.0.now) < 2 ^ 32 };

    ghost small = { λ s h. contents_small SEQUENCE (providers_octets s.0.now) h };

    fn encoded_len(&self) -> Result<u64, EncodeError> {
        sequence(EntriesEncoder(self.0.iter())).encoded_len()
    }

    fn put<W: Sink>(&self, len: u64, out: &mut W) -> Result<(), SinkFailed> {
        sequence(EntriesEncoder(self.0.iter())).put(len, out)
    }
}
