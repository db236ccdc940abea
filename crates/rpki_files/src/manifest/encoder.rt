//! Writing a content.

ghost use Rattle.std.specs.Prelude.{◌≡◌, ◌<◌, ◌^◌, length};
ghost use Rattle.rpki_basics.specs.Time.Form.{generalized_octets};
ghost use Rattle.rpki_basics.specs.Algorithm.{sha_256};
ghost use Rattle.rpki_der.specs.Tags.{SEQUENCE, OBJECT_IDENTIFIER};
ghost use Rattle.rpki_der.specs.Write.Parts.{contents_small};
ghost use Rattle.rpki_der.specs.Write.Written.{value_octets};
ghost use Rattle.rpki_files.specs.Manifest.{files_octets};

use crate::manifest::ManifestContent;
use crate::manifest::read::SHA_256;
use rpki_basics::{SerialEncoder, TimeEncoder};
use rpki_der::encode::{Raw, Value, primitive, sequence};
use rpki_der::{Encode, EncodeError, Sink, SinkFailed, Tag};
use rpki_lists::EntriesEncoder;
use std::marker::Model;

/// A content, to be written in DER.
#[derive(Drop)]
pub struct ManifestEncoder<'a> {
    content: &'a ManifestContent,
}

impl<'a> Model for ManifestEncoder<'a> {
    ghost use Rattle.rpki_files.specs.Manifest.{Manifest};

    ghost Value = { Manifest };

    ghost view = { λ e. e.content.now };
}

// The fields of a content: its number, its times, the algorithm and the files.
type Fields<'a> = (
    SerialEncoder<'a>,
    TimeEncoder,
    TimeEncoder,
    Value<Raw<'static>>,
    FilesField<'a>,
);

impl<'a> ManifestEncoder<'a> {
    /// Makes the encoder of this content.
    pub(crate) fn new(content: &'a ManifestContent) -> ManifestEncoder<'a>
        ensures { result ≡ content.now }
    {
        ManifestEncoder { content }
    }

    // Gives the fields of the content.
    fn fields(&self) -> Fields<'_>
        ensures number { result.0.0.now ≡ self.now.number }
        ensures this_update { result.1 ≡ generalized_octets self.now.this_update }
        ensures next_update { result.2 ≡ generalized_octets self.now.next_update }
        ensures tag { result.3.tag.octet ≡ OBJECT_IDENTIFIER }
        ensures algorithm { result.3.contents.0.now ≡ sha_256 }
        ensures files { result.4.0.now ≡ self.now }
    {
        let content = self.content;
        (
            content.number.encode_ref(),
            content.this_update.encode_generalized(),
            content.next_update.encode_generalized(),
            primitive(Tag::OBJECT_IDENTIFIER, &SHA_256),
            FilesField(content),
        )
    }
}

impl<'a> Encode for ManifestEncoder<'a> {
    ghost use Rattle.rpki_files.specs.Manifest.{manifest_contents, manifest_octets};

    ghost octets = { manifest_octets };

    ghost is_short = { λ m. length (manifest_contents m) < 2 ^ 32 };

    ghost small = { λ m h. contents_small SEQUENCE (manifest_contents m) h };

    fn encoded_len(&self) -> Result<u64, EncodeError> {
        sequence(self.fields()).encoded_len()
    }

    fn put<W: Sink>(&self, len: u64, out: &mut W) -> Result<(), SinkFailed> {
        sequence(self.fields()).put(len, out)
    }
}

// The field of the files: a SEQUENCE of them.
#[derive(Clone, Copy)]
struct FilesField<'a>(&'a ManifestContent);

impl Encode for FilesField<'_> {
    ghost octets = { λ s. value_octets SEQUENCE (files_octets s.0.now.files) };

    ghost is_short = { λ s. length (files_octets s.0.now.files) < 2 ^ 32 };

    ghost small = { λ s h. contents_small SEQUENCE (files_octets s.0.now.files) h };

    fn encoded_len(&self) -> Result<u64, EncodeError> {
        sequence(EntriesEncoder(self.0.iter())).encoded_len()
    }

    fn put<W: Sink>(&self, len: u64, out: &mut W) -> Result<(), SinkFailed> {
        sequence(EntriesEncoder(self.0.iter())).put(len, out)
    }
}
