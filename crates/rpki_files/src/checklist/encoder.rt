//! Writing a content.

ghost use Rattle.std.specs.Prelude.{◌≡◌, ◌<◌, ◌^◌, length};
ghost use Rattle.std.specs.List.{flat_map};
ghost use Rattle.rpki_basics.specs.Algorithm.{digest_algorithm_octets};
ghost use Rattle.rpki_der.specs.Tags.{SEQUENCE, context};
ghost use Rattle.rpki_der.specs.Write.Parts.{contents_small, optional_octets};
ghost use Rattle.rpki_der.specs.Write.Written.{value_octets};
ghost use Rattle.rpki_resources.specs.As.Written.{as_octets};
ghost use Rattle.rpki_lists.specs.Named.{written_asns, families_octets, addresses_octets};
ghost use Rattle.rpki_files.specs.Checklist.{numbers_octets, named_contents, files_octets};

use crate::checklist::ResourceSignedChecklist;
use rpki_basics::AlgorithmEncoder;
use rpki_der::encode::{Value, sequence, tagged};
use rpki_der::{Encode, EncodeError, Sink, SinkFailed, Tag};
use rpki_lists::EntriesEncoder;
use rpki_lists::named::encoder::{AddressesField, is_empty_set, written_addresses};
use rpki_resources::{AsBlocks, AsBlocksEncoder};
use std::marker::Model;

/// A content, to be written in DER.
#[derive(Drop)]
pub struct ChecklistEncoder<'a> {
    content: &'a ResourceSignedChecklist,
}

impl<'a> Model for ChecklistEncoder<'a> {
    ghost use Rattle.rpki_files.specs.Checklist.{Checklist};

    ghost Value = { Checklist };

    ghost view = { λ e. e.content.now };
}

impl<'a> ChecklistEncoder<'a> {
    /// Makes the encoder of this content.
    pub(crate) fn new(content: &'a ResourceSignedChecklist) -> ChecklistEncoder<'a>
        ensures { result ≡ content.now }
    {
        ChecklistEncoder { content }
    }

    // Gives the fields of the content: what is named, the algorithm and the files.
    fn fields(&self) -> (NamedField<'a>, AlgorithmEncoder, FilesField<'a>)
        ensures named { result.0.0.now ≡ self.now }
        ensures algorithm { result.1.0.now ≡ digest_algorithm_octets }
        ensures files { result.2.0.now ≡ self.now }
    {
        let content = self.content;
        (
            NamedField(content),
            content.digest_algorithm().encode_ref(),
            FilesField(content),
        )
    }
}

impl<'a> Encode for ChecklistEncoder<'a> {
    ghost use Rattle.rpki_files.specs.Checklist.{checklist_contents, checklist_octets};

    ghost octets = { checklist_octets };

    ghost is_short = { λ l. length (checklist_contents l) < 2 ^ 32 };

    ghost small = { λ l h. contents_small SEQUENCE (checklist_contents l) h };

    fn encoded_len(&self) -> Result<u64, EncodeError> {
        sequence(self.fields()).encoded_len()
    }

    fn put<W: Sink>(&self, len: u64, out: &mut W) -> Result<(), SinkFailed> {
        sequence(self.fields()).put(len, out)
    }
}

/// What is named: a SEQUENCE of the AS numbers and of the addresses.
#[derive(Clone, Copy)]
struct NamedField<'a>(&'a ResourceSignedChecklist);

impl<'a> NamedField<'a> {
    // The AS numbers, unless there are none and addresses are named.
    fn numbers(&self) -> Option<NumbersField<'a>>
        ensures { optional_octets (λ f. numbers_octets f.0.now) result
            ≡ optional_octets numbers_octets (written_asns self.now.0.now.as_resources
            self.now.0.now.v4_resources self.now.0.now.v6_resources) }
    {
        let content = self.0;
        let numbers = content.as_resources();
        let no_address = is_empty_set(content.v4_resources())
            && is_empty_set(content.v6_resources());
        if is_empty_set(numbers) && !no_address {
            None
        } else {
            Some(NumbersField(numbers))
        }
    }

    // The addresses, if there are some.
    fn addresses(&self) -> Option<AddressesField<'a>>
        ensures { optional_octets
            (λ f. value_octets (context 1) (value_octets SEQUENCE (families_octets f.0 f.1))) result
            ≡ addresses_octets self.now.0.now.v4_resources self.now.0.now.v6_resources }
    {
        let content = self.0;
        written_addresses(content.v4_resources(), content.v6_resources())
    }
}

impl Encode for NamedField<'_> {
    ghost octets = { λ s. value_octets SEQUENCE (named_contents s.0.now) };

    ghost is_short = { λ s. length (named_contents s.0.now) < 2 ^ 32 };

    ghost small = { λ s h. contents_small SEQUENCE (named_contents s.0.now) h };

    fn encoded_len(&self) -> Result<u64, EncodeError> {
        sequence((self.numbers(), self.addresses())).encoded_len()
    }

    fn put<W: Sink>(&self, len: u64, out: &mut W) -> Result<(), SinkFailed> {
        sequence((self.numbers(), self.addresses())).put(len, out)
    }
}

/// The AS numbers under their tags.
#[derive(Clone, Copy)]
struct NumbersField<'a>(&'a AsBlocks);

impl<'a> NumbersField<'a> {
    // The value, with what it holds.
    fn value(&self) -> Value<Value<Value<Value<AsBlocksEncoder<'a>>>>>
        ensures outer { result.tag.octet ≡ context 0 }
        ensures sequence { result.contents.tag.octet ≡ SEQUENCE }
        ensures inner { result.contents.contents.tag.octet ≡ context 0 }
        ensures list { result.contents.contents.contents.tag.octet ≡ SEQUENCE }
        ensures blocks { result.contents.contents.contents.contents ≡ self.now.0.now }
    {
        let list = sequence(self.0.encode_ref());
        tagged(Tag::CTX_0, sequence(tagged(Tag::CTX_0, list)))
    }
}

impl Encode for NumbersField<'_> {
    ghost octets = { λ s. numbers_octets s.0.now };

    ghost is_short = { λ s. length (value_octets SEQUENCE (value_octets (context 0)
        (value_octets SEQUENCE (flat_map as_octets s.0.now)))) < 2 ^ 32 };

    ghost small = { λ s h. contents_small (context 0) (value_octets SEQUENCE
        (value_octets (context 0) (value_octets SEQUENCE (flat_map as_octets s.0.now)))) h };

    fn encoded_len(&self) -> Result<u64, EncodeError> {
        self.value().encoded_len()
    }

    fn put<W: Sink>(&self, len: u64, out: &mut W) -> Result<(), SinkFailed> {
        self.value().put(len, out)
    }
}

/// The files: a SEQUENCE of them.
#[derive(Clone, Copy)]
struct FilesField<'a>(&'a ResourceSignedChecklist);

impl Encode for FilesField<'_> {
    ghost octets = { λ s. value_octets SEQUENCE (files_octets s.0.now) };

    ghost is_short = { λ s. length (files_octets s.0.now) < 2 ^ 32 };

    ghost small = { λ s h. contents_small SEQUENCE (files_octets s.0.now) h };

    fn encoded_len(&self) -> Result<u64, EncodeError> {
        sequence(EntriesEncoder(self.0.iter())).encoded_len()
    }

    fn put<W: Sink>(&self, len: u64, out: &mut W) -> Result<(), SinkFailed> {
        sequence(EntriesEncoder(self.0.iter())).put(len, out)
    }
}
