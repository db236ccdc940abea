//! The formats of payloads.

ghost use Rattle.std.specs.Prelude.{◌≡◌, ◌++◌, ℕ, List, OnOk, string_bytes};
ghost use Rattle.rpki_payloads.specs.Formats.{IsPayloadsText, payloads_in};
ghost use Rattle.rpki_show.specs.Grows.{Grows};

mod bird;
mod fields;
mod groups;
mod joined;
mod json_text;
mod lines;
mod long;
mod members;
mod openbgpd;
mod rows;
mod table;

use crate::formats::groups::groups_of;
use crate::formats::rows::{OriginRow, ProviderRow, origin_rows, provider_rows};
use crate::found::AnchorFindings;
use crate::slurm::Exceptions;
use rpki_basics::Time;
use std::alloc::{AllocError, Global};

/// The formats of payloads.
#[derive(Clone, Copy, Debug, PartialEq, Eq)]
pub enum PayloadFormat {
    /// A line for each origin, and for each customer with its providers.
    Lines,
    /// A line for each payload, with until when it holds and which object says it.
    Long,
    /// Origins in the columns of `rpki-client -c`.
    Csv,
    /// The JSON of Routinator.
    Json,
    /// The JSON of `rpki-client -j`.
    RpkiClient,
    /// Tables of BIRD 2.
    Bird,
    /// Sets of OpenBGPD.
    Openbgpd,
}

/// What is printed: the payloads as rows, and what was found, of which JSON has the refusals and
/// counts.
#[derive(Clone, Copy)]
pub(crate) struct Printed<'a, 'b> {
    pub(crate) moment: Time,
    pub(crate) found: &'b [AnchorFindings<'a>],
    pub(crate) origins: &'b [OriginRow<'a>],
    pub(crate) providers: &'b [ProviderRow<'a>],
}

/// Appends the payloads that were found, as of this moment, after these local exceptions, in a
/// format. Refuses where memory runs out.
///
/// Each payload that was found is held against each filter, so the work is in proportion to the
/// payloads, which CAs choose, times the filters, which are the operator's own. Memory holds a row
/// for each time that a payload is said, which is at most as often as there are names and
/// assertions of it, and the text.
pub fn push_payloads(
    alloc: Global,
    text: &mut String,
    format: PayloadFormat,
    moment: Time,
    found: &[AnchorFindings<'_>],
    exceptions: &[Exceptions],
) -> Result<(), AllocError>
    ensures { OnOk result ((more : List ℕ) × (string_bytes text.new ≡ string_bytes text.old ++ more)
        × IsPayloadsText exceptions.now format moment found.now more) }
{
    let origins = origin_rows(alloc, found, exceptions)?;
    let providers = provider_rows(alloc, found, exceptions)?;
    let printed = Printed {
        moment,
        found,
        origins: &origins,
        providers: &providers,
    };
    push_rows(alloc, text, format, &printed)
}

// Appends rows of payloads in a format.
fn push_rows(
    alloc: Global,
    text: &mut String,
    format: PayloadFormat,
    printed: &Printed<'_, '_>,
) -> Result<(), AllocError>
    ensures { Grows result text.old text.new (payloads_in format printed.now.moment
        printed.now.found.now printed.now.origins.now printed.now.providers.now) }
{
    let origins = printed.origins;
    let groups = groups_of(alloc, printed.providers)?;
    match format {
        PayloadFormat::Lines => lines::push_lines(text, origins, &groups),
        PayloadFormat::Long => long::push_long(text, origins, printed.providers),
        PayloadFormat::Csv => table::push_csv(alloc, text, origins),
        PayloadFormat::Json => json_text::push_json(alloc, text, printed, &groups),
        PayloadFormat::RpkiClient => json_text::push_client(alloc, text, printed, &groups),
        PayloadFormat::Bird => bird::push_bird(text, origins),
        PayloadFormat::Openbgpd => openbgpd::push_openbgpd(text, origins, &groups),
    }
}
