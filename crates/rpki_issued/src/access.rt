//! Writing access descriptions (RFC 5280, section 4.2.2).

ghost use Rattle.std.specs.Prelude.{◌≡◌, ◌<◌, ◌^◌, length, if◌then◌else◌, Some, None};
ghost use Rattle.rpki_der.specs.Tags.{SEQUENCE, OBJECT_IDENTIFIER};
ghost use Rattle.rpki_der.specs.Write.Parts.{IsEach, contents_small, optional_octets};
ghost use Rattle.rpki_der.specs.Write.Parts.{optional_small};
ghost use Rattle.rpki_extensions.specs.Access.{ca_repository, rpki_manifest, signed_object};
ghost use Rattle.rpki_extensions.specs.Access.{rpki_notify};
ghost use Rattle.rpki_extensions.specs.Names.{URI};
ghost use Rattle.rpki_issued.specs.Values.{access_contents, access_octets};
ghost use Rattle.rpki_issued.specs.Values.{subject_access_contents, subject_access_octets};
ghost use Rattle.rpki_issued.specs.Extensions.{said_access};

use rpki_basics::{Https, Rsync};
use rpki_der::encode::{Raw, Value, primitive, sequence};
use rpki_der::{Encode, EncodeError, Sink, SinkFailed, Tag};
use rpki_extensions::SubjectAccess;
use rpki_extensions::identifiers::{CA_REPOSITORY, RPKI_MANIFEST, RPKI_NOTIFY, SIGNED_OBJECT};

/// A method and a URI.
pub type AccessTo<'a> = Value<(Value<Raw<'a>>, Value<Raw<'a>>)>;

/// An access description with this method and this URI (RFC 5280, section 4.2.2.1).
pub fn access_to<'a>(method: &'a [u8], uri: &'a [u8]) -> AccessTo<'a>
    ensures tag { result.tag.octet ≡ SEQUENCE }
    ensures method_tag { result.contents.0.tag.octet ≡ OBJECT_IDENTIFIER }
    ensures method { result.contents.0.contents.0.now ≡ method.now }
    ensures uri_tag { result.contents.1.tag.octet ≡ URI }
    ensures uri { result.contents.1.contents.0.now ≡ uri.now }
{
    sequence((
        primitive(Tag::OBJECT_IDENTIFIER, method),
        primitive(Tag::CTX_6_PRIMITIVE, uri),
    ))
}

// An access description with this method, if there is a URI.
#[derive(Drop)]
struct RsyncAccess<'a> {
    method: &'a [u8],
    uri: &'a Option<Rsync>,
}

impl Encode for RsyncAccess<'_> {
    ghost octets = { λ a. optional_octets (access_octets a.method.now) a.uri.now };

    ghost is_short = { λ a. IsEach (λ u. length (access_contents a.method.now u) < 2 ^ 32)
        a.uri.now };

    ghost small = { λ a h. optional_small (access_octets a.method.now)
        (λ u. length (access_contents a.method.now u) < 2 ^ 32)
        (λ u k. contents_small SEQUENCE (access_contents a.method.now u) k) a.uri.now h };

    fn encoded_len(&self) -> Result<u64, EncodeError> {
        match self.uri {
            None => Ok(0),
            Some(uri) => access_to(self.method, uri.as_slice()).encoded_len(),
        }
    }

    fn put<W: Sink>(&self, len: u64, out: &mut W) -> Result<(), SinkFailed> {
        match self.uri {
            None => Ok(()),
            Some(uri) => access_to(self.method, uri.as_slice()).put(len, out),
        }
    }
}

// The same for a URI of another scheme.
#[derive(Drop)]
struct HttpsAccess<'a> {
    method: &'a [u8],
    uri: &'a Option<Https>,
}

impl Encode for HttpsAccess<'_> {
    ghost octets = { λ a. optional_octets (access_octets a.method.now) a.uri.now };

    ghost is_short = { λ a. IsEach (λ u. length (access_contents a.method.now u) < 2 ^ 32)
        a.uri.now };

    ghost small = { λ a h. optional_small (access_octets a.method.now)
        (λ u. length (access_contents a.method.now u) < 2 ^ 32)
        (λ u k. contents_small SEQUENCE (access_contents a.method.now u) k) a.uri.now h };

    fn encoded_len(&self) -> Result<u64, EncodeError> {
        match self.uri {
            None => Ok(0),
            Some(uri) => access_to(self.method, uri.as_slice()).encoded_len(),
        }
    }

    fn put<W: Sink>(&self, len: u64, out: &mut W) -> Result<(), SinkFailed> {
        match self.uri {
            None => Ok(()),
            Some(uri) => access_to(self.method, uri.as_slice()).put(len, out),
        }
    }
}

/// What writes what is to be had from a subject (RFC 6487, section 4.8.8).
#[derive(Drop)]
pub struct SubjectAccessEncoder<'a>(pub &'a SubjectAccess);

impl SubjectAccessEncoder<'_> {
    // Each description, in the order in which they are written.
    fn fields(
        &self,
    ) -> (
        RsyncAccess<'_>,
        RsyncAccess<'_>,
        RsyncAccess<'_>,
        HttpsAccess<'_>,
    )
        ensures ca_repository { (result.0.method.now ≡ ca_repository)
            × (result.0.uri.now ≡ self.now.0.now.ca_repository) }
        ensures rpki_manifest { (result.1.method.now ≡ rpki_manifest)
            × (result.1.uri.now ≡ self.now.0.now.rpki_manifest) }
        ensures signed_object { (result.2.method.now ≡ signed_object)
            × (result.2.uri.now ≡ self.now.0.now.signed_object) }
        ensures rpki_notify { (result.3.method.now ≡ rpki_notify)
            × (result.3.uri.now ≡ self.now.0.now.rpki_notify) }
    {
        let x: &SubjectAccess = self.0;
        (
            RsyncAccess {
                method: &CA_REPOSITORY,
                uri: &x.ca_repository,
            },
            RsyncAccess {
                method: &RPKI_MANIFEST,
                uri: &x.rpki_manifest,
            },
            RsyncAccess {
                method: &SIGNED_OBJECT,
                uri: &x.signed_object,
            },
            HttpsAccess {
                method: &RPKI_NOTIFY,
                uri: &x.rpki_notify,
            },
        )
    }
}

impl Encode for SubjectAccessEncoder<'_> {
    ghost octets = { λ e. subject_access_octets e.0.now };

    ghost is_short = { λ e. length (subject_access_contents e.0.now) < 2 ^ 32 };

    ghost small = { λ e h. contents_small SEQUENCE (subject_access_contents e.0.now) h };

    fn encoded_len(&self) -> Result<u64, EncodeError> {
        sequence(self.fields()).encoded_len()
    }

    fn put<W: Sink>(&self, len: u64, out: &mut W) -> Result<(), SinkFailed> {
        sequence(self.fields()).put(len, out)
    }
}

/// Whether anything is to be had from the subject.
pub fn says_something(access: &SubjectAccess) -> bool
    ensures { said_access access.now ≡ (if result then Some access.now else None) }
{
    match &access.ca_repository {
        Some(_) => true,
        None => match &access.rpki_manifest {
            Some(_) => true,
            None => match &access.signed_object {
                Some(_) => true,
                None => match &access.rpki_notify {
                    Some(_) => true,
                    None => false,
                },
            },
        },
    }
}
