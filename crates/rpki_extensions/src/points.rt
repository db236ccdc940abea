//! Where the revocation list is published.

ghost use Rattle.rpki_der.specs.Form.Decodes.{DecodesNext};
ghost use Rattle.rpki_der.specs.Form.Parts.{context_at};
ghost use Rattle.rpki_der.specs.Read.Reads.{Reads, Stays};
ghost use Rattle.rpki_extensions.specs.Points.{PointsForm, first_rsync_at, point_fields_at};
ghost use Rattle.rpki_extensions.specs.Points.{one_point_at, points_at};

use crate::faults;
use crate::name::{first_uri, take_general_names};
use rpki_basics::Rsync;
use rpki_der::{Constructed, DecodeError, Tag};
use std::alloc::Global;

// Reads names, and keeps the first rsync URI.
fn take_first(alloc: Global, cons: &mut Constructed<'_>) -> Result<Rsync, DecodeError>
    ensures { Reads (λ uri. uri) first_rsync_at cons.old result cons.new }
{
    let names = take_general_names(alloc, cons)?;
    match first_uri::<Rsync>(&names)? {
        Some(uri) => Ok(uri),
        None => Err(DecodeError::refusal(faults::NO_RSYNC_URI)),
    }
}

// Reads the full name.
fn take_full_name(alloc: Global, cons: &mut Constructed<'_>) -> Result<Rsync, DecodeError>
    ensures { Reads (λ uri. uri) (context_at 0 first_rsync_at) cons.old result cons.new }
{
    cons.take_constructed_if(Tag::CTX_0, |cons| take_first(alloc, cons))
}

// Reads what stands in the point.
#[tactic(auto, unfolding(crate::specs::Points::point_fields_at))]
fn take_fields(alloc: Global, cons: &mut Constructed<'_>) -> Result<Rsync, DecodeError>
    ensures { Reads (λ uri. uri) point_fields_at cons.old result cons.new }
{
    cons.take_constructed_if(Tag::CTX_0, |cons| take_full_name(alloc, cons))
}

// Reads the one point.
#[tactic(auto, unfolding(crate::specs::Points::one_point_at))]
fn take_point(alloc: Global, cons: &mut Constructed<'_>) -> Result<Rsync, DecodeError>
    ensures { Reads (λ uri. uri) one_point_at cons.old result cons.new }
{
    cons.take_sequence(|cons| take_fields(alloc, cons))
}

// Reads the points.
fn take_points(alloc: Global, cons: &mut Constructed<'_>) -> Result<Rsync, DecodeError>
    ensures reads { Reads (λ uri. uri) points_at cons.old result cons.new }
    ensures stays { Stays result cons.new }
{
    cons.take_sequence(|cons| take_point(alloc, cons))
}

/// Reads where the revocation list is published: the first rsync URI among the names of the one
/// distribution point (RFC 5280, section 4.2.1.13; RFC 6487, section 4.8.6). Names of other kinds
/// are gone past. That the first one counts is this project's own rule. Refuses by `NO_RSYNC_URI`
/// where there is none, by `Malformed`, or by `Memory`.
pub fn take_crl_distribution_points(
    alloc: Global,
    cons: &mut Constructed<'_>,
) -> Result<Rsync, DecodeError>
    ensures reads { Reads (λ uri. uri) points_at cons.old result cons.new }
    ensures decodes { DecodesNext PointsForm (λ uri. uri) cons.old result cons.new }
    ensures stays { Stays result cons.new }
{
    cons.holds_octets();
    take_points(alloc, cons)
}
