//! The lines of a ROA content.

ghost use Rattle.std.specs.List.{flat_map};
ghost use Rattle.rpki_routes.specs.Roa.{addresses};
ghost use Rattle.rpki_show.specs.Grows.{Grows};
ghost use Rattle.rpki_show.specs.Texts.Roa.{roa_text, as_line, origin_line};

use crate::texts::lines::push_each;
use rpki_resources::Asn;
use rpki_routes::RouteOriginAttestation;
use std::alloc::AllocError;
use std::fmt::Write;

/// Appends the lines of a ROA content. Refuses where memory runs out.
pub fn push_roa(text: &mut String, content: &RouteOriginAttestation) -> Result<(), AllocError>
    ensures { Grows result text.old text.new (roa_text content.now) }
{
    write!(text, "roa\n")?;
    push_as(text, content.as_id())?;
    push_origins(text, content)
}

/// Appends the line of the autonomous system.
fn push_as(text: &mut String, number: Asn) -> Result<(), AllocError>
    ensures { Grows result text.old text.new (as_line number) }
{
    write!(text, "as {number}\n")
}

/// Appends a line for each prefix, those of IPv4 first.
fn push_origins(text: &mut String, content: &RouteOriginAttestation) -> Result<(), AllocError>
    ensures { Grows result text.old text.new (flat_map origin_line (addresses content.now)) }
{
    push_each(text, content.iter(), |text, origin| {
        write!(text, "origin {origin}\n")
    })
}
