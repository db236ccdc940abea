//! What the program shows of signed objects.

ghost use Rattle.rpki_sigobj.specs.Signed.{ObjectForm, whole_of};
ghost use Rattle.rpki_cli.specs.Answer.{said};
ghost use Rattle.rpki_cli.specs.Shown.{IsShown, IsLinesOf};
ghost use Rattle.rpki_show.specs.Contents.{HasLines};
ghost use Rattle.rpki_show.specs.Objects.{ObjectLinesOf};
ghost use Rattle.rpki_show.specs.Options.{read_mode};
ghost use Rattle.rpki_show.specs.Texts.Object.{object_text};
ghost use Rattle.rpki_show.specs.declared.texts.serial.Hexadecimal.TheVariants.{Plain};

use crate::kinds::{Action, Lines, answer_for};
use crate::texts::object::push_object;
use crate::texts::serial::Hexadecimal;
use bytes::Bytes;
use rpki_cli::answer::Answer;
use rpki_cli::words::{Kind, Options};
use rpki_cli::{Causes, refusal};
use rpki_sigobj::Signed;
use std::alloc::Global;

/// Answers with the lines of the signed object of this kind at the front of the octets, if there is
/// one.
pub fn show_object<'a>(
    alloc: Global,
    causes: Causes,
    options: Options,
    kind: Kind,
    octets: Bytes,
) -> Answer<'a>
    ensures { IsShown causes (ObjectLinesOf options kind) octets (said result) }
{
    answer_for(alloc, options, kind, ShowObject { causes, octets })
}

/// To show the object at the front of the octets.
#[derive(Drop)]
struct ShowObject {
    causes: Causes,
    octets: Bytes,
}

impl Action for ShowObject {
    ghost says = { λ options X asked form text action s.
        IsShown action.causes
        (HasLines (ObjectForm asked.type form (read_mode options)) (object_text Plain text))
        action.octets s };

    fn answer<'a, C: Lines>(self, alloc: Global, options: Options) -> Answer<'a> {
        show::<C>(alloc, self.causes, options, self.octets)
    }
}

/// Answers with the lines of the object at the front of the source, if there is one.
fn show<'a, C: Lines>(alloc: Global, causes: Causes, options: Options, source: Bytes) -> Answer<'a>
    ensures { IsShown causes (HasLines (ObjectForm C.kind.type (C.form (C.rule_of options))
        (read_mode options)) (object_text Plain (C.lines Plain))) source (said result) }
{
    match Signed::<C>::decode(alloc, source, !options.relaxed, C::rule(options)) {
        Err(error) => refusal(alloc, causes, error),
        Ok(object) => {
            let answer = show_lines(alloc, &object);
            drop(object);
            answer
        }
    }
}

/// The lines of an object.
fn show_lines<'a, C: Lines>(alloc: Global, object: &Signed<C>) -> Answer<'a>
    ensures { IsLinesOf (object_text Plain (C.lines Plain) (whole_of object.now)) (said result) }
{
    let mut text = String::new(alloc);
    match push_object(alloc, &mut text, Hexadecimal::Plain, object) {
        Ok(()) => Answer::Shown(text),
        Err(_) => Answer::OutOfMemory,
    }
}
