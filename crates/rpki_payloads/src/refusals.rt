//! The lines of what is refused.

ghost use Rattle.rpki_payloads.specs.Texts.Refusals.{refusals_text, refusals_under, refused_line};
ghost use Rattle.rpki_show.specs.Grows.{Grows};

use crate::found::AnchorFindings;
use rpki_relying_party::Refusal;
use rpki_show::texts::lines::push_each;
use std::alloc::AllocError;
use std::fmt::Write;

/// Appends a line for each refusal: name by name, in the order of the lines. Refuses where memory
/// runs out.
pub fn push_refusals(text: &mut String, found: &[AnchorFindings<'_>]) -> Result<(), AllocError>
    ensures { Grows result text.old text.new (refusals_text found.now) }
{
    push_each(text, found.iter(), |text, one| { push_found(text, one) })
}

/// Appends the lines of one name.
fn push_found(text: &mut String, one: &AnchorFindings<'_>) -> Result<(), AllocError>
    ensures { Grows result text.old text.new (refusals_under one.now) }
{
    for refusal in one.found().refusals.by_line.values() {
        push_refusal(text, refusal, one.name())?;
    }
    Ok(())
}

/// Appends the line of a refusal, with the CA and the name of the locator that it is below.
fn push_refusal(text: &mut String, refusal: &Refusal, name: &str) -> Result<(), AllocError>
    ensures { Grows result text.old text.new (refused_line name.now refusal.now) }
{
    let uri = refusal.uri.as_str();
    let cause = &refusal.cause;
    let under = refusal.under.as_str();
    write!(text, "refused {uri}: {cause} (under {under}, {name})\n")
}
