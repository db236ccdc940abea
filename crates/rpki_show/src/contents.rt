//! What the program shows of the octets of a file that is a bare content.

ghost use Rattle.rpki_cli.specs.Answer.{said};
ghost use Rattle.rpki_cli.specs.Shown.{IsShown, IsLinesOf};
ghost use Rattle.rpki_show.specs.Contents.{HasLines, LinesOf};
ghost use Rattle.rpki_show.specs.declared.texts.serial.Hexadecimal.TheVariants.{Plain};

use crate::kinds::{Action, Lines, answer_for};
use crate::texts::serial::Hexadecimal;
use bytes::Bytes;
use rpki_cli::answer::Answer;
use rpki_cli::words::{Kind, Options};
use rpki_cli::{Causes, refusal};
use std::alloc::Global;

/// Answers with the lines of the content of this kind at the front of the octets, if there is one.
pub fn show_kind<'a>(
    alloc: Global,
    causes: Causes,
    options: Options,
    kind: Kind,
    octets: Bytes,
) -> Answer<'a>
    ensures { IsShown causes (LinesOf options kind) octets (said result) }
{
    answer_for(alloc, options, kind, ShowContent { causes, octets })
}

/// To show the content at the front of the octets.
#[derive(Drop)]
struct ShowContent {
    causes: Causes,
    octets: Bytes,
}

impl Action for ShowContent {
    ghost says = { λ options X asked form text action s.
        IsShown action.causes (HasLines form text) action.octets s };

    fn answer<'a, C: Lines>(self, alloc: Global, options: Options) -> Answer<'a> {
        show::<C>(alloc, self.causes, options, self.octets)
    }
}

/// Answers with the lines of the content at the front of the source, if there is one.
fn show<'a, C: Lines>(alloc: Global, causes: Causes, options: Options, source: Bytes) -> Answer<'a>
    ensures { IsShown causes (HasLines (C.form (C.rule_of options)) (C.lines Plain)) source
        (said result) }
{
    match C::read(alloc, source, C::rule(options)) {
        Err(error) => refusal(alloc, causes, error),
        Ok(content) => show_lines(alloc, &content),
    }
}

/// The lines of a content.
fn show_lines<'a, C: Lines>(alloc: Global, content: &C) -> Answer<'a>
    ensures { IsLinesOf (C.lines Plain content.now) (said result) }
{
    let mut text = String::new(alloc);
    match content.push(alloc, &mut text, Hexadecimal::Plain) {
        Ok(()) => Answer::Shown(text),
        Err(_) => Answer::OutOfMemory,
    }
}
