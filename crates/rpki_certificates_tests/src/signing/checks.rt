//! Built objects that are validated as by those who rely on them, each by one call or a few, and
//! signers whose calls fail.

use super::given::{are_claimed, issuer};
use super::objects::{ASPA, CHECKLIST, MANIFEST, NUMBER, Object, ROA, made};
use crate::shared::{Row, are_so, is_said};
use bytes::Bytes;
use rpki_basics::standin::{StandIn, StandInSigner};
use rpki_basics::{FixedClock, ManifestRule, ProviderLimit, Serial, Time};
use rpki_certs::{Cert, ResourceCert};
use rpki_der::{Constructed, Mode};
use rpki_faults::{ValidationError, VerificationError};
use rpki_files::{Manifest, ResourceSignedChecklist, ValidateManifest};
use rpki_routes::{AsProviderAttestation, Aspa, RouteOriginAttestation};
use rpki_signed::check;
use rpki_sigobj::{Content, Signed, SignedObject};
use rpki_testing::{Fail, year};
use std::alloc::Global;

/// A call that is made on the octets of an object.
enum Call {
    /// The check of its kind.
    Check,
    /// The same at each proper length, strict and relaxed.
    Cut,
    /// The same, strict and relaxed, where so many of the last octets are gone, and this octet
    /// follows, so often.
    Ending(usize, u8, usize),
    Validate,
    ValidateAt,
    ValidateDetached,
    ValidateDetachedAt,
    Process,
    /// That of an object which is read by the rules of BER.
    Taken,
    /// That of a checklist, a ROA or an ASPA, which is of its type.
    ProcessSigned,
    /// The check for which the type is a parameter, of a ROA.
    CheckType,
    /// Those of a manifest and of an ASPA.
    Manifest,
    ManifestAt,
    Aspa,
    /// The object has this content.
    Content(&'static [u8]),
    /// The content is read as the number 5.
    Number,
}

/// An object, the call of its signer that fails, the year of its signature, and the call that is
/// made on it with its answer. What is wrong with a content comes before the signer's fault. The
/// year is the serial number of the certificate too, by which the caller refuses.
type Made = (Object, u64, u16, Call, &'static str);

const TWO: Object = Object::Roa(Some(24));

const THREE: Object = Object::Aspa(&[64498, 64497, 64499]);

const REFUSED: &str = "refused by the caller";

const UNSIGNED: &str = "signature is not valid";

static SIGNED: [Made; 85] = [
    (Object::Number, 0, 2030, Call::Check, "yes"),
    (Object::Number, 0, 2031, Call::Check, "yes"),
    (
        Object::Number,
        0,
        2032,
        Call::Check,
        "signing time is after not_after validity time",
    ),
    (Object::Number, 1, 2030, Call::Check, "told to fail"),
    (Object::Number, 2, 2030, Call::Check, "told to fail"),
    (Object::Number, 3, 2030, Call::Check, "told to fail"),
    (Object::Number, 4, 2030, Call::Check, "yes"),
    (Object::Checklist, 0, 2030, Call::Check, "yes"),
    (Object::Checklist, 1, 2030, Call::Check, "told to fail"),
    (Object::Checklist, 2, 2030, Call::Check, "told to fail"),
    (Object::Checklist, 3, 2030, Call::Check, "told to fail"),
    (Object::Checklist, 4, 2030, Call::Check, "yes"),
    (Object::Manifest, 0, 2030, Call::Check, "yes"),
    (Object::Manifest, 1, 2030, Call::Check, "told to fail"),
    (Object::Manifest, 2, 2030, Call::Check, "told to fail"),
    (Object::Manifest, 3, 2030, Call::Check, "told to fail"),
    (Object::Manifest, 4, 2030, Call::Check, "yes"),
    (TWO, 0, 2030, Call::Check, "yes"),
    (TWO, 1, 2030, Call::Check, "told to fail"),
    (TWO, 2, 2030, Call::Check, "told to fail"),
    (TWO, 3, 2030, Call::Check, "told to fail"),
    (TWO, 4, 2030, Call::Check, "yes"),
    (
        Object::Roa(None),
        0,
        2030,
        Call::Check,
        "ROA without addresses",
    ),
    (
        Object::Roa(None),
        1,
        2030,
        Call::Check,
        "ROA without addresses",
    ),
    (
        Object::Roa(Some(33)),
        0,
        2030,
        Call::Check,
        "prefix too long",
    ),
    (
        Object::Roa(Some(33)),
        1,
        2030,
        Call::Check,
        "prefix too long",
    ),
    (THREE, 0, 2030, Call::Check, "yes"),
    (THREE, 1, 2030, Call::Check, "told to fail"),
    (THREE, 2, 2030, Call::Check, "told to fail"),
    (THREE, 3, 2030, Call::Check, "told to fail"),
    (THREE, 4, 2030, Call::Check, "yes"),
    (Object::Aspa(&[]), 0, 2030, Call::Check, "no provider"),
    (Object::Aspa(&[]), 1, 2030, Call::Check, "no provider"),
    (
        Object::Aspa(&[1, 64496]),
        1,
        2030,
        Call::Check,
        "customer is its own provider",
    ),
    (
        Object::Aspa(&[0, 1]),
        1,
        2030,
        Call::Check,
        "AS0 beside another provider",
    ),
    (Object::Aspa(&[0]), 0, 2030, Call::Check, "yes"),
    (Object::Number, 0, 2030, Call::Cut, "yes"),
    (Object::Checklist, 0, 2030, Call::Cut, "yes"),
    (Object::Manifest, 0, 2030, Call::Cut, "yes"),
    (TWO, 0, 2030, Call::Cut, "yes"),
    (THREE, 0, 2030, Call::Cut, "yes"),
    (Object::Number, 0, 2029, Call::Check, REFUSED),
    (Object::Checklist, 0, 2029, Call::Check, REFUSED),
    (Object::Manifest, 0, 2029, Call::Check, REFUSED),
    (TWO, 0, 2029, Call::Check, REFUSED),
    (THREE, 0, 2029, Call::Check, REFUSED),
    (Object::Number, 0, 2029, Call::Ending(32, 0, 32), UNSIGNED),
    (
        Object::Checklist,
        0,
        2029,
        Call::Ending(32, 0, 32),
        UNSIGNED,
    ),
    (Object::Manifest, 0, 2029, Call::Ending(32, 0, 32), UNSIGNED),
    (TWO, 0, 2029, Call::Ending(32, 0, 32), UNSIGNED),
    (THREE, 0, 2029, Call::Ending(32, 0, 32), UNSIGNED),
    (Object::Number, 0, 2030, Call::Ending(0, 0, 1), "yes"),
    (Object::Number, 0, 2030, Call::Ending(0, 0x30, 300), "yes"),
    (Object::Checklist, 0, 2030, Call::Ending(0, 0, 1), "yes"),
    (
        Object::Checklist,
        0,
        2030,
        Call::Ending(0, 0x30, 300),
        "yes",
    ),
    (Object::Manifest, 0, 2030, Call::Ending(0, 0, 1), "yes"),
    (Object::Manifest, 0, 2030, Call::Ending(0, 0x30, 300), "yes"),
    (TWO, 0, 2030, Call::Ending(0, 0, 1), "yes"),
    (TWO, 0, 2030, Call::Ending(0, 0x30, 300), "yes"),
    (THREE, 0, 2030, Call::Ending(0, 0, 1), "yes"),
    (THREE, 0, 2030, Call::Ending(0, 0x30, 300), "yes"),
    (Object::Number, 0, 2029, Call::Validate, "yes"),
    (Object::Number, 0, 2030, Call::ValidateDetached, "yes"),
    (Object::Number, 0, 2030, Call::ValidateDetachedAt, "yes"),
    (Object::Number, 0, 2029, Call::ValidateAt, "yes"),
    (Object::Number, 0, 2030, Call::Taken, "yes"),
    (Object::Checklist, 0, 2030, Call::ValidateDetached, "yes"),
    (Object::Checklist, 0, 2030, Call::ProcessSigned, "yes"),
    (TWO, 0, 2030, Call::ProcessSigned, "yes"),
    (THREE, 0, 2030, Call::ProcessSigned, "yes"),
    (Object::Checklist, 0, 2029, Call::ProcessSigned, REFUSED),
    (TWO, 0, 2029, Call::ProcessSigned, REFUSED),
    (THREE, 0, 2029, Call::ProcessSigned, REFUSED),
    (TWO, 0, 2030, Call::CheckType, "yes"),
    (TWO, 0, 2029, Call::CheckType, REFUSED),
    (Object::Manifest, 0, 2030, Call::Manifest, "yes"),
    (Object::Manifest, 0, 2030, Call::ManifestAt, "yes"),
    (THREE, 0, 2030, Call::Aspa, "yes"),
    (
        TWO,
        0,
        2030,
        Call::Aspa,
        "eContentType is not the one that is asked for",
    ),
    (Object::Number, 0, 2030, Call::Content(NUMBER), "yes"),
    (Object::Checklist, 0, 2030, Call::Content(CHECKLIST), "yes"),
    (Object::Manifest, 0, 2030, Call::Content(MANIFEST), "yes"),
    (TWO, 0, 2030, Call::Content(ROA), "yes"),
    (THREE, 0, 2030, Call::Content(ASPA), "yes"),
    (Object::Number, 0, 2030, Call::Number, "yes"),
];

/// The caller refuses the certificate with the number 2029.
fn ask(cert: &Cert) -> Result<(), ValidationError> {
    if cert.serial_number() == Serial::from(2029) {
        return Err(ValidationError::Verification(VerificationError::Caller));
    }
    Ok(())
}

/// Whether the check of its kind answers so to octets.
fn is_checked(
    alloc: Global,
    object: &Object,
    octets: Bytes,
    strict: bool,
    issuer: &ResourceCert,
    now: Time,
    want: &str,
) -> Result<bool, Fail> {
    let crypto = &StandIn;
    match object {
        Object::Number => match SignedObject::decode(alloc, octets, strict) {
            Err(error) => is_said(alloc, Err::<(), _>(error), want),
            Ok(object) => is_answered(alloc, &Call::Process, object, issuer, now, want),
        },
        Object::Checklist => is_said(
            alloc,
            check::rsc(alloc, octets, strict, issuer, crypto, now, ask),
            want,
        ),
        Object::Manifest => {
            let rule = ManifestRule::Registered;
            is_said(
                alloc,
                check::manifest(alloc, octets, strict, issuer, crypto, now, ask, rule),
                want,
            )
        }
        Object::Roa(_) => is_said(
            alloc,
            check::roa(alloc, octets, strict, issuer, crypto, now, ask),
            want,
        ),
        Object::Aspa(_) => {
            let limit = ProviderLimit::Narrow;
            is_said(
                alloc,
                check::aspa(alloc, octets, strict, issuer, crypto, now, ask, limit),
                want,
            )
        }
    }
}

/// Whether an object is refused by its check at each proper length, strict and relaxed.
fn is_cut(
    alloc: Global,
    object: &Object,
    octets: Bytes,
    issuer: &ResourceCert,
    now: Time,
) -> Result<bool, Fail> {
    for len in 0..octets.len() {
        for strict in [true, false] {
            let cut = octets.slice(0..len)?;
            if !is_checked(alloc, object, cut, strict, issuer, now, "malformed")? {
                return Ok(false);
            }
        }
    }
    Ok(true)
}

/// Whether the check of its kind answers so, strict and relaxed, to an object that ends so.
fn is_ending(
    alloc: Global,
    object: &Object,
    octets: Bytes,
    (gone, octet, count): (usize, u8, usize),
    issuer: &ResourceCert,
    now: Time,
    want: &str,
) -> Result<bool, Fail> {
    let left = octets.len().saturating_sub(gone);
    for strict in [true, false] {
        let mut all = Vec::from_slice(alloc, octets.as_slice())?;
        all.truncate(left);
        all.resize(left.saturating_add(count), octet)?;
        let all = Bytes::from_vec(all)?;
        if !is_checked(alloc, object, all, strict, issuer, now, want)? {
            return Ok(false);
        }
    }
    Ok(true)
}

/// Whether a call that validates an object of any type answers so.
fn is_answered(
    alloc: Global,
    call: &Call,
    object: SignedObject,
    issuer: &ResourceCert,
    now: Time,
    want: &str,
) -> Result<bool, Fail> {
    let clock = FixedClock(now);
    let crypto = &StandIn;
    match call {
        Call::Process => is_said(
            alloc,
            object.process(alloc, issuer, true, crypto, &clock, ask),
            want,
        ),
        Call::Validate => is_said(
            alloc,
            object.validate(alloc, issuer, true, crypto, &clock),
            want,
        ),
        Call::ValidateDetached => is_said(
            alloc,
            object.validate_detached(alloc, issuer, true, crypto, &clock),
            want,
        ),
        Call::ValidateDetachedAt => is_said(
            alloc,
            object.validate_detached_at(alloc, issuer, true, crypto, now),
            want,
        ),
        Call::Number => {
            let number = object.decode_content(|cons| cons.take_u8());
            drop(object);
            Ok(number? == 5)
        }
        Call::Content(content) => {
            let is_content = object.content().as_slice() == *content;
            drop(object);
            Ok(is_content)
        }
        _ => is_said(
            alloc,
            object.validate_at(alloc, issuer, true, crypto, now),
            want,
        ),
    }
}

/// Whether a call that validates a manifest answers so.
fn is_manifest(
    alloc: Global,
    call: &Call,
    octets: Bytes,
    issuer: &ResourceCert,
    now: Time,
    want: &str,
) -> Result<bool, Fail> {
    let manifest = Manifest::decode(alloc, octets, true, ManifestRule::Registered)?;
    match call {
        Call::ManifestAt => is_said(
            alloc,
            manifest.validate_at(alloc, issuer, true, &StandIn, now),
            want,
        ),
        _ => is_said(
            alloc,
            manifest.validate(alloc, issuer, true, &StandIn, &FixedClock(now)),
            want,
        ),
    }
}

/// Whether the call that validates an object of a type answers so.
fn is_processed<T: Content>(
    alloc: Global,
    octets: Bytes,
    rule: T::Rule,
    issuer: &ResourceCert,
    now: Time,
    want: &str,
) -> Result<bool, Fail> {
    let object: Signed<T> = Signed::decode(alloc, octets, true, rule)?;
    let clock = FixedClock(now);
    is_said(
        alloc,
        object.process(alloc, issuer, true, &StandIn, &clock, ask),
        want,
    )
}

/// Whether that of its own type does.
fn is_signed(
    alloc: Global,
    object: &Object,
    octets: Bytes,
    issuer: &ResourceCert,
    now: Time,
    want: &str,
) -> Result<bool, Fail> {
    match object {
        Object::Roa(_) => {
            is_processed::<RouteOriginAttestation>(alloc, octets, (), issuer, now, want)
        }
        Object::Aspa(_) => {
            let limit = ProviderLimit::Narrow;
            is_processed::<AsProviderAttestation>(alloc, octets, limit, issuer, now, want)
        }
        _ => is_processed::<ResourceSignedChecklist>(alloc, octets, (), issuer, now, want),
    }
}

/// Whether the check for which the type is a parameter answers so to the octets of a ROA.
fn is_of_type(
    alloc: Global,
    octets: Bytes,
    issuer: &ResourceCert,
    now: Time,
    want: &str,
) -> Result<bool, Fail> {
    is_said(
        alloc,
        check::object::<RouteOriginAttestation, _, _>(
            alloc,
            octets,
            true,
            issuer,
            &StandIn,
            now,
            ask,
            (),
        ),
        want,
    )
}

/// Whether a call answers so to the octets of an object.
fn is_right(
    alloc: Global,
    object: &Object,
    call: &Call,
    octets: Bytes,
    issuer: &ResourceCert,
    now: Time,
    want: &str,
) -> Result<bool, Fail> {
    match call {
        Call::Check => is_checked(alloc, object, octets, true, issuer, now, want),
        Call::Cut => is_cut(alloc, object, octets, issuer, now),
        Call::Ending(gone, octet, count) => {
            let end = (*gone, *octet, *count);
            is_ending(alloc, object, octets, end, issuer, now, want)
        }
        Call::Manifest | Call::ManifestAt => is_manifest(alloc, call, octets, issuer, now, want),
        Call::ProcessSigned => is_signed(alloc, object, octets, issuer, now, want),
        Call::CheckType => is_of_type(alloc, octets, issuer, now, want),
        Call::Aspa => is_said(
            alloc,
            Aspa::decode(alloc, octets, true, ProviderLimit::Wide),
            want,
        ),
        Call::Taken => {
            let take = |cons: &mut Constructed<'_>| SignedObject::take_from(alloc, cons);
            let object = Constructed::decode(octets, Mode::Ber, take)?;
            is_answered(alloc, call, object, issuer, now, want)
        }
        _ => {
            let object = SignedObject::decode(alloc, octets, true)?;
            is_answered(alloc, call, object, issuer, now, want)
        }
    }
}

impl Row for Made {
    fn is_so(&self, alloc: Global) -> Result<bool, Fail> {
        let (object, fails, at, call, want) = self;
        let mut signer = StandInSigner::failing_at(alloc, *fails);
        match made(alloc, object, &mut signer, *at)? {
            Err(fault) => is_said(alloc, Err::<(), _>(fault), want),
            Ok(octets) => {
                let now = year(2030)?;
                let issuer = issuer(alloc)?;
                let is_right = is_right(alloc, object, call, octets, &issuer, now, want);
                drop(issuer);
                is_right
            }
        }
    }
}

#[test]
fn objects_are_signed_and_checked(rt: HostRuntime) -> Result<(), Fail> {
    let alloc = rt.alloc();
    assert!(rt; are_so(alloc, &SIGNED)? && are_claimed(alloc)?);
    Ok(())
}
