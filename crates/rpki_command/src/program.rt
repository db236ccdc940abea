//! The program with verdicts as a function.

ghost use Rattle.std.specs.Prelude.{◌≡◌, ◌∷◌, ◌++◌, []};
ghost use Rattle.rpki_cli.specs.Answer.{said};
ghost use Rattle.rpki_cli.specs.Command.{HasRead, IsTaskAnswer, IsOfFile, IsAnswer};
ghost use Rattle.rpki_cli.specs.Command.{HaveRead};
ghost use Rattle.rpki_cli.specs.Shown.{IsShown};
ghost use Rattle.rpki_cli.specs.Words.{texts};
ghost use Rattle.rpki_cli.specs.declared.causes.Causes.TheVariants.{Omitted};
ghost use Rattle.rpki_show.specs.Attestation.{AttestationLines, RtaLines};
ghost use Rattle.rpki_show.specs.Contents.{LinesOf};
ghost use Rattle.rpki_show.specs.Objects.{ObjectLinesOf};
ghost use Rattle.rpki_show.specs.Texts.Tal.{TalLines};
ghost use Rattle.rpki_command.specs.Command.{objects_program, command_task};

use crate::check::CheckByList;
use crate::rta::RtaByList;
use crate::walk::WalkByList;
use rpki_cli::answer::Answer;
use rpki_cli::words::{Command, Kind, Options, Order, parse};
use rpki_cli::{Causes, Program, Store, answer_anchors, answer_files, answer_tail, unread};
use rpki_show::{show_attestation, show_kind, show_object, show_rta, show_tal};
use std::alloc::Global;

/// The program with verdicts, `rpki_objects`: it shows contents, objects and locators, checks
/// objects by a list of verdicts, and tells which files a manifest holds.
#[derive(Clone, Copy, Debug)]
pub struct Objects;

impl Program for Objects {
    ghost program = { λ _. objects_program };

    fn answer<'a, S: Store>(
        &self,
        alloc: Global,
        words: &'a [&'a str],
        store: &mut S,
    ) -> Answer<'a> {
        answer(alloc, words, store)
    }
}

/// What the program answers to its words.
fn answer<'a, S: Store>(alloc: Global, words: &'a [&'a str], store: &mut S) -> Answer<'a>
    ensures said { IsAnswer objects_program (S.told store.old) (texts words.now)
        (S.reads store.old) (S.reads store.new) (said result) }
    ensures reads { HaveRead objects_program (texts words.now)
        (S.reads store.old) (S.reads store.new) }
    ensures same { S.told store.new ≡ S.told store.old }
{
    match parse(words) {
        None => Answer::Usage,
        Some(order) => answer_order(alloc, &order, store),
    }
}

/// What the program answers to an order.
fn answer_order<'a, S: Store>(
    alloc: Global,
    order: &Order<Command<'a>>,
    store: &mut S,
) -> Answer<'a>
    ensures said { IsTaskAnswer (S.told store.old)
        (command_task order.now.options order.now.command)
        (S.reads store.old) (S.reads store.new) (said result) }
    ensures reads { HasRead (command_task order.now.options order.now.command)
        (S.reads store.old) (S.reads store.new) }
    ensures same { S.told store.new ≡ S.told store.old }
{
    let options = order.options;
    match &order.command {
        Command::Content { kind, file } => show_file(alloc, options, *kind, file.0, store),
        Command::ContentRta { file } => show_attestation_file(alloc, file.0, store),
        Command::Show { kind, file } => show_signed(alloc, options, *kind, file.0, store),
        Command::ShowRta { file } => show_rta_file(alloc, file.0, store),
        Command::ShowTal { file } => show_locator(alloc, file.0, store),
        Command::Check {
            kind,
            file,
            moment,
            verdicts,
            anchor,
            chain,
        } => {
            let check = CheckByList {
                options,
                kind: *kind,
                moment: *moment,
            };
            let first = [file.0, verdicts.0, anchor.0];
            answer_files(alloc, check, &first, chain.0, store)
        }
        Command::Walk {
            file,
            moment,
            verdicts,
            anchor,
            tail,
        } => {
            let walk = WalkByList {
                options,
                moment: *moment,
                tail: tail.0,
            };
            let before = [file.0, verdicts.0, anchor.0];
            answer_tail(alloc, walk, &before, tail.0, store)
        }
        Command::Rta {
            file,
            moment,
            verdicts,
            anchors,
        } => {
            let rta = RtaByList {
                moment: *moment,
                anchors: anchors.0,
            };
            let before = [file.0, verdicts.0];
            answer_anchors(alloc, rta, &before, anchors.0, store)
        }
    }
}

/// Answers with the lines of the content of this kind in a file, if there is one.
fn show_file<'a, S: Store>(
    alloc: Global,
    options: Options,
    kind: Kind,
    file: &'a str,
    store: &mut S,
) -> Answer<'a>
    ensures said { IsOfFile (S.told store.old) file.now
        (IsShown Omitted (LinesOf options kind)) (said result) }
    ensures reads { S.reads store.new ≡ S.reads store.old ++ file.now ∷ [] }
    ensures same { S.told store.new ≡ S.told store.old }
{
    match store.read(alloc, file) {
        Ok(octets) => show_kind(alloc, Causes::Omitted, options, kind, octets),
        Err(error) => unread(error, file),
    }
}

/// Answers with the lines of the signed object of this kind in a file, if there is one.
fn show_signed<'a, S: Store>(
    alloc: Global,
    options: Options,
    kind: Kind,
    object: &'a str,
    store: &mut S,
) -> Answer<'a>
    ensures said { IsOfFile (S.told store.old) object.now
        (IsShown Omitted (ObjectLinesOf options kind)) (said result) }
    ensures reads { S.reads store.new ≡ S.reads store.old ++ object.now ∷ [] }
    ensures same { S.told store.new ≡ S.told store.old }
{
    match store.read(alloc, object) {
        Ok(octets) => show_object(alloc, Causes::Omitted, options, kind, octets),
        Err(error) => unread(error, object),
    }
}

/// Answers with the lines of the content of an attestation in a file, if there is one.
fn show_attestation_file<'a, S: Store>(alloc: Global, content: &'a str, store: &mut S) -> Answer<'a>
    ensures said { IsOfFile (S.told store.old) content.now
        (IsShown Omitted AttestationLines) (said result) }
    ensures reads { S.reads store.new ≡ S.reads store.old ++ content.now ∷ [] }
    ensures same { S.told store.new ≡ S.told store.old }
{
    match store.read(alloc, content) {
        Ok(octets) => show_attestation(alloc, Causes::Omitted, octets),
        Err(error) => unread(error, content),
    }
}

/// Answers with the lines of the attestation in a file, if there is one.
fn show_rta_file<'a, S: Store>(alloc: Global, rta: &'a str, store: &mut S) -> Answer<'a>
    ensures said { IsOfFile (S.told store.old) rta.now (IsShown Omitted RtaLines)
        (said result) }
    ensures reads { S.reads store.new ≡ S.reads store.old ++ rta.now ∷ [] }
    ensures same { S.told store.new ≡ S.told store.old }
{
    match store.read(alloc, rta) {
        Ok(octets) => show_rta(alloc, Causes::Omitted, octets),
        Err(error) => unread(error, rta),
    }
}

/// Answers with the lines of the trust anchor locator that the file of this name is, if it is one.
fn show_locator<'a, S: Store>(alloc: Global, name: &'a str, store: &mut S) -> Answer<'a>
    ensures said { IsOfFile (S.told store.old) name.now (IsShown Omitted TalLines)
        (said result) }
    ensures reads { S.reads store.new ≡ S.reads store.old ++ name.now ∷ [] }
    ensures same { S.told store.new ≡ S.told store.old }
{
    match store.read(alloc, name) {
        Ok(octets) => show_tal(alloc, octets.as_slice()),
        Err(error) => unread(error, name),
    }
}
