//! Where the extensions of a certificate say that something lies.

ghost use Rattle.std.specs.Prelude.{◌≡◌, None};
ghost use Rattle.rpki_der.specs.Form.Made.{front_of};
ghost use Rattle.rpki_der.specs.declared.mode.Mode.TheVariants.{Der};
ghost use Rattle.rpki_der.specs.Read.Reads.{Tells};
ghost use Rattle.rpki_extensions.specs.Access.{authority_access_at, subject_access_at};
ghost use Rattle.rpki_extensions.specs.Extension.{stated};
ghost use Rattle.rpki_extensions.specs.Extensions.{stated_or, no_access, locations_of};
ghost use Rattle.rpki_extensions.specs.Extensions.{crl_distribution_points};
ghost use Rattle.rpki_extensions.specs.Extensions.{authority_info_access, subject_info_access};
ghost use Rattle.rpki_extensions.specs.Points.{points_at};

use crate::access::{SubjectAccess, take_authority_info_access, take_subject_info_access};
use crate::extension::{Extension, with_oid};
use crate::identifiers::{AUTHORITY_INFO_ACCESS, CRL_DISTRIBUTION_POINTS, SUBJECT_INFO_ACCESS};
use crate::points::take_crl_distribution_points;
use bytes::Bytes;
use rpki_basics::Rsync;
use rpki_der::{Constructed, DecodeError, Mode};
use std::alloc::{AllocError, Global};

/// Where the extensions of a certificate say that something lies.
#[derive(Debug, Drop)]
pub struct Locations {
    /// The revocation list (RFC 6487, section 4.8.6).
    pub crl: Option<Rsync>,
    /// The issuer's certificate (RFC 6487, section 4.8.7).
    pub ca_issuer: Option<Rsync>,
    /// What is to be had from the subject (RFC 6487, section 4.8.8).
    pub subject: SubjectAccess,
}

impl Clone for Locations {
    ghost is_clone = { λ x copy. copy ≡ x };

    fn clone(&self) -> Result<Locations, AllocError> {
        Ok(Locations {
            crl: self.crl.clone()?,
            ca_issuer: self.ca_issuer.clone()?,
            subject: self.subject.clone()?,
        })
    }
}

// The revocation list, in a value.
fn crl_in(alloc: Global, value: Bytes) -> Result<Rsync, DecodeError>
    ensures { Tells (λ uri. uri) (front_of points_at Der value) result }
{
    Constructed::decode(
        value,
        Mode::Der,
        |cons| take_crl_distribution_points(alloc, cons),
    )
}

// The revocation list.
fn crl(alloc: Global, list: &[Extension]) -> Result<Option<Rsync>, DecodeError>
    ensures { Tells (λ uri. uri) (stated crl_distribution_points points_at list.now) result }
{
    match with_oid(list, &CRL_DISTRIBUTION_POINTS) {
        None => Ok(None),
        Some(extension) => Ok(Some(crl_in(alloc, extension.value.clone()?)?)),
    }
}

// The issuer's certificate, in a value.
fn ca_issuer_in(alloc: Global, value: Bytes) -> Result<Option<Rsync>, DecodeError>
    ensures { Tells (λ uri. uri) (front_of authority_access_at Der value) result }
{
    Constructed::decode(
        value,
        Mode::Der,
        |cons| take_authority_info_access(alloc, cons),
    )
}

// The issuer's certificate.
fn ca_issuer(alloc: Global, list: &[Extension]) -> Result<Option<Rsync>, DecodeError>
    ensures { Tells (λ uri. uri)
        (stated_or None authority_info_access authority_access_at list.now) result }
{
    match with_oid(list, &AUTHORITY_INFO_ACCESS) {
        None => Ok(None),
        Some(extension) => ca_issuer_in(alloc, extension.value.clone()?),
    }
}

// What is to be had from the subject, in a value.
fn subject_in(alloc: Global, value: Bytes) -> Result<SubjectAccess, DecodeError>
    ensures { Tells (λ x. x) (front_of subject_access_at Der value) result }
{
    Constructed::decode(
        value,
        Mode::Der,
        |cons| take_subject_info_access(alloc, cons),
    )
}

// What is to be had from the subject.
fn subject(alloc: Global, list: &[Extension]) -> Result<SubjectAccess, DecodeError>
    ensures { Tells (λ x. x)
        (stated_or no_access subject_info_access subject_access_at list.now) result }
{
    match with_oid(list, &SUBJECT_INFO_ACCESS) {
        None => Ok(SubjectAccess {
            ca_repository: None,
            rpki_manifest: None,
            signed_object: None,
            rpki_notify: None,
        }),
        Some(extension) => subject_in(alloc, extension.value.clone()?),
    }
}

// Where the extensions say that something lies. Refuses by what the values are refused by, or by
// `Memory`.
#[tactic(auto, unfolding(crate::specs::Extensions::locations_of))]
pub fn locations_of(alloc: Global, list: &[Extension]) -> Result<Locations, DecodeError>
    ensures { Tells (λ x. x) (locations_of list.now) result }
{
    let crl = crl(alloc, list)?;
    let ca_issuer = ca_issuer(alloc, list)?;
    let subject = subject(alloc, list)?;
    Ok(Locations {
        crl,
        ca_issuer,
        subject,
    })
}
