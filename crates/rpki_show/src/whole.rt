//! What the program shows of signed objects and of the certificates of their signers.

ghost use Rattle.rpki_sigobj.specs.Signed.{ObjectForm, whole_of};
ghost use Rattle.rpki_cli.specs.Answer.{said};
ghost use Rattle.rpki_cli.specs.Shown.{IsShown, IsLinesOf};
ghost use Rattle.rpki_show.specs.Contents.{HasLines};
ghost use Rattle.rpki_show.specs.Objects.{WholeObjectLinesOf};
ghost use Rattle.rpki_show.specs.Options.{read_mode};
ghost use Rattle.rpki_show.specs.Texts.Object.{whole_text};
ghost use Rattle.rpki_show.specs.declared.texts.serial.Hexadecimal.TheVariants.{Octets};

use crate::kinds::{Action, Lines, answer_for};
use crate::texts::object::push_whole;
use bytes::Bytes;
use rpki_cli::answer::Answer;
use rpki_cli::words::{Kind, Options};
use rpki_cli::{Causes, refusal};
use rpki_sigobj::Signed;
use std::alloc::Global;

/// Answers with the lines of the signed object of this kind at the front of the octets, and those
/// of its signer's certificate, if there is one.
pub fn show_whole_object<'a>(
    alloc: Global,
    causes: Causes,
    options: Options,
    kind: Kind,
    octets: Bytes,
) -> Answer<'a>
    ensures { IsShown causes (WholeObjectLinesOf options kind) octets (said result) }
{
    answer_for(alloc, options, kind, ShowWholeObject { causes, octets })
}

/// To show the object at the front of the octets with its signer's certificate.
#[derive(Drop)]
struct ShowWholeObject {
    causes: Causes,
    octets: Bytes,
}

impl Action for ShowWholeObject {
    ghost way = { Octets };

    ghost says = { λ options X asked form text action s.
        IsShown action.causes
        (HasLines (ObjectForm asked.type form (read_mode options)) (whole_text text))
        action.octets s };

    fn answer<'a, C: Lines>(self, alloc: Global, options: Options) -> Answer<'a> {
        show::<C>(alloc, self.causes, options, self.octets)
    }
}

/// Answers with the lines of the object at the front of the source and those of its signer's
/// certificate, if there is one.
fn show<'a, C: Lines>(alloc: Global, causes: Causes, options: Options, source: Bytes) -> Answer<'a>
    ensures { IsShown causes (HasLines (ObjectForm C.kind.type (C.form (C.rule_of options))
        (read_mode options)) (whole_text (C.lines Octets))) source (said result) }
{
    match Signed::<C>::decode(alloc, source, !options.relaxed, C::rule(options)) {
        Err(error) => refusal(alloc, causes, error),
        Ok(object) => {
            let answer = show_lines(alloc, &object);
            drop(object);
            answer
        }
    }
}

/// The lines of an object and those of its signer's certificate.
fn show_lines<'a, C: Lines>(alloc: Global, object: &Signed<C>) -> Answer<'a>
    ensures { IsLinesOf (whole_text (C.lines Octets) (whole_of object.now)) (said result) }
{
    let mut text = String::new(alloc);
    match push_whole(alloc, &mut text, object) {
        Ok(()) => Answer::Shown(text),
        Err(_) => Answer::OutOfMemory,
    }
}
