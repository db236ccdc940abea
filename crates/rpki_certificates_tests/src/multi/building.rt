//! Attestations that are built and signed.

ghost use Rattle.std.specs.Prelude.{◌≡◌, [], IfOk};

use super::octets::{BUILT, EMPTY, WHOLE};
use super::reading::read;
use crate::shared::{Octets, Row, are_so, is_said};
use bytes::Bytes;
use rpki_attributes::MessageDigest;
use rpki_basics::standin::StandInSigner;
use rpki_basics::{BuildError, DigestAlgorithm, KeyIdentifier, Time};
use rpki_der::{EncodeError, Mode};
use rpki_multi::{IntoRtaBuilder, MultiSignedObject, Rta, RtaBuilder};
use rpki_resources::{AsBlock, Asn};
use rpki_tagged::{AttestationBuilder, ResourceTaggedAttestation};
use rpki_testing::{Fail, ok};
use std::alloc::{AllocError, Global};

/// Parts of an attestation.
enum Part {
    Certificate,
    List,
    Signer,
}

/// How an attestation is built.
enum Way {
    /// Of another one, without its signers; the second one signs first, and before it once more
    /// where the signer's call with this number fails, which leaves the builder as it was.
    Whole(u64),
    /// The content of AS64496 is built, or that of no numbers, and signed by key 3.
    Signed(bool),
    /// Of the content of another one, and with nothing else.
    Alone,
    /// The lists that a builder lends are cleared.
    Lent,
    /// Parts that are read in BER are added.
    InBer(Part),
}

/// How an attestation is built, and its octets or why there are none.
type Built = (Way, Octets);

static ROWS: [Built; 10] = [
    (Way::Whole(0), Ok(WHOLE)),
    (Way::Whole(1), Ok(WHOLE)),
    (Way::Whole(2), Ok(WHOLE)),
    (Way::Signed(true), Ok(BUILT)),
    (Way::Signed(false), Err("no resources")),
    (Way::Alone, Ok(EMPTY)),
    (Way::Lent, Ok(EMPTY)),
    (Way::InBer(Part::Certificate), Err("not in DER")),
    (Way::InBer(Part::List), Err("not in DER")),
    (Way::InBer(Part::Signer), Err("not in DER")),
];

/// The octets that what is built is written as.
fn finished(alloc: Global, builder: RtaBuilder) -> Result<Bytes, EncodeError> {
    let rta = builder.finalize()?;
    let written = rta.to_captured(alloc);
    drop(rta);
    written
}

/// Whether what is built is written as these octets, or refused so.
pub fn is_written(alloc: Global, builder: RtaBuilder, want: &Octets) -> Result<bool, Fail> {
    match (finished(alloc, builder), want) {
        (Ok(octets), Ok(want)) => Ok(octets.as_slice() == *want),
        (answer, Err(text)) => is_said(alloc, answer, text),
        (answer, Ok(_)) => is_said(alloc, answer, ""),
    }
}

/// The first moment of June 2024, and noon of the next day.
pub fn moments() -> Result<(Time, Time), Fail> {
    let first = Time::utc(2024, 6, 1, 0, 0, 0);
    let second = Time::utc(2024, 6, 2, 12, 0, 0);
    match (first, second) {
        (Some(first), Some(second)) => Ok((first, second)),
        _ => Err(Fail::Refused),
    }
}

/// A builder with what the attestation with these octets has.
pub fn of_octets(alloc: Global, octets: &'static [u8]) -> Result<RtaBuilder, Fail> {
    let rta = Rta::decode(alloc, Bytes::from_static(octets))?;
    Ok(RtaBuilder::from_rta(rta))
}

/// How many certificates, lists, signers and keys there are.
pub fn counts(builder: &RtaBuilder) -> (usize, usize, usize, usize) {
    (
        builder.certificates().len(),
        builder.crls().len(),
        builder.signer_infos().len(),
        builder.content().subject_keys().len(),
    )
}

/// A builder of the content for the document `document`, whose digest stands here, by key 3: of
/// AS64496, or of no numbers.
fn content(alloc: Global, is_named: bool) -> Result<AttestationBuilder, Fail>
    ensures { IfOk result (λ b. b.v4_resources ≡ []) }
{
    let digest = MessageDigest::from(Bytes::from_static(
        b"\x43\xCC\x23\xFA\x52\xB8\x7B\x4C\xC1\xD0\x2B\x5B\x11\x41\x54\x15\x1D\x6A\xDD\xDB\x17\xC9\
          \xFD\xDC\x06\xB0\x27\xFA\x99\xE2\x40\x08",
    ));
    let mut builder = AttestationBuilder::new(alloc, DigestAlgorithm::sha256(), digest);
    builder.push_key(KeyIdentifier::of(&3u64.to_be_bytes()))?;
    if is_named {
        builder.push_as(AsBlock::Id(Asn::from_u32(64496)))?;
    }
    Ok(builder)
}

/// A builder of the content of the attestation with these octets.
fn alone(alloc: Global, octets: &'static [u8]) -> Result<RtaBuilder, Fail> {
    let rta = Rta::decode(alloc, Bytes::from_static(octets))?;
    let content: Result<ResourceTaggedAttestation, _> = rta.content().clone();
    drop(rta);
    ok(alloc, RtaBuilder::from_attestation(alloc, content?))
}

/// What an attestation is built from.
fn begun(alloc: Global, way: &Way) -> Result<Result<RtaBuilder, BuildError>, Fail> {
    match way {
        Way::Signed(is_named) => Ok(content(alloc, *is_named)?.into_rta_builder(alloc)),
        Way::Alone => Ok(Ok(alone(alloc, WHOLE)?)),
        _ => Ok(Ok(of_octets(alloc, WHOLE)?)),
    }
}

/// Adds both signers, after one that fails.
fn sign_both(alloc: Global, builder: &mut RtaBuilder, fails: u64) -> Result<bool, Fail> {
    builder.signer_infos_mut().clear();
    let (first, second) = moments()?;
    let mut signer = StandInSigner::failing_at(alloc, fails);
    let is_refused = fails == 0
        || is_said(
            alloc,
            builder.sign(alloc, &mut signer, &5, second),
            "told to fail",
        )?;
    let is_left = counts(builder) == (2, 1, 0, 0);
    ok(alloc, builder.sign(alloc, &mut signer, &5, second))?;
    ok(alloc, builder.sign(alloc, &mut signer, &3, first))?;
    Ok(is_refused && is_left && counts(builder) == (2, 1, 2, 0))
}

/// Adds these parts of an object.
fn push_parts(
    builder: &mut RtaBuilder,
    object: &MultiSignedObject,
    part: &Part,
) -> Result<(), AllocError> {
    match part {
        Part::Certificate => {
            builder
                .certificates_mut()
                .extend_from_slice(object.certificates())
        }
        Part::List => builder.crls_mut().extend_from_slice(object.crls()),
        Part::Signer => {
            builder
                .signer_infos_mut()
                .extend_from_slice(object.signer_infos())
        }
    }
}

/// Adds parts that are read in BER.
fn push_in_ber(alloc: Global, builder: &mut RtaBuilder, part: &Part) -> Result<(), Fail> {
    let object = read(alloc, Bytes::from_static(WHOLE), Mode::Ber)?;
    let pushed = push_parts(builder, &object, part);
    drop(object);
    Ok(pushed?)
}

/// Builds an attestation, and tells whether all went as it should.
fn is_done(alloc: Global, builder: &mut RtaBuilder, way: &Way) -> Result<bool, Fail> {
    match way {
        Way::Whole(fails) => sign_both(alloc, builder, *fails),
        Way::Signed(_) => {
            let (first, _) = moments()?;
            let mut signer = StandInSigner::new(alloc);
            ok(alloc, builder.sign(alloc, &mut signer, &3, first))?;
            Ok(counts(builder) == (0, 0, 1, 1))
        }
        Way::Alone => Ok(true),
        Way::Lent => {
            builder.certificates_mut().clear();
            builder.crls_mut().clear();
            builder.signer_infos_mut().clear();
            Ok(counts(builder) == (0, 0, 0, 0))
        }
        Way::InBer(part) => {
            push_in_ber(alloc, builder, part)?;
            Ok(true)
        }
    }
}

impl Row for Built {
    fn is_so(&self, alloc: Global) -> Result<bool, Fail> {
        let (way, want) = self;
        match (begun(alloc, way)?, want) {
            (Ok(builder), _) => {
                let mut builder = builder;
                let is_done = is_done(alloc, &mut builder, way);
                let is_written = is_written(alloc, builder, want);
                Ok(is_done? && is_written?)
            }
            (Err(error), Err(text)) => is_said(alloc, Err::<(), _>(error), text),
            (Err(error), Ok(_)) => is_said(alloc, Err::<(), _>(error), ""),
        }
    }
}

#[test]
fn attestations_are_built(rt: HostRuntime) -> Result<(), Fail> {
    assert!(rt; are_so(rt.alloc(), &ROWS)?);
    Ok(())
}
