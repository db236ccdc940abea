//! Shows and checks signed objects of the RPKI.
#![tactic(auto)]

ghost use Rattle.std.specs.Prelude.{◌≡◌};
ghost use Rattle.rpki_cli.specs.Answer.{run_of};
ghost use Rattle.rpki_cli.specs.Command.{HaveRead, IsRunOf};
ghost use Rattle.rpki_cli.specs.Words.{texts};
ghost use Rattle.rpki_command.specs.Command.{objects_program};

use rpki_cli::answer::{Answer, say};
use rpki_cli::{ProcessArguments, Store, SystemFiles, WordsError, texts_of, words_of};
use rpki_command::Objects;
use rpki_der::{Counted, Sink};
use std::alloc::Global;
use std::process::ExitCode;

/// Does what the words ask for, which follow the program's name, with the files of the store. Gives
/// the exit status, as `rpki_cli::command` has it.
pub fn command<S: Store, O: Sink, E: Sink>(
    alloc: Global,
    words: &[&str],
    store: &mut S,
    out: &mut O,
    err: &mut E,
) -> u8
    ensures run { IsRunOf objects_program (S.told store.old) (texts words.now)
        (S.reads store.old) (S.reads store.new)
        (run_of O.taken O.failures out.old out.new E.taken E.failures err.old err.new result) }
    ensures reads { HaveRead objects_program (texts words.now)
        (S.reads store.old) (S.reads store.new) }
    ensures same { S.told store.new ≡ S.told store.old }
{
    rpki_cli::command(alloc, &Objects, words, store, out, err)
}

fn main(rt: HostRuntime) -> ExitCode {
    let alloc = rt.alloc();
    let mut store = SystemFiles::new(&rt);
    let mut out = Counted::new(rt.stdout());
    let mut err = Counted::new(rt.stderr());
    let status = match words_of(alloc, &ProcessArguments::new(&rt)) {
        Err(WordsError::NoText) => command(alloc, &[], &mut store, &mut out, &mut err),
        Err(WordsError::Memory) => say(&Answer::OutOfMemory, &mut out, &mut err),
        Ok(words) => match texts_of(alloc, &words) {
            Err(_) => say(&Answer::OutOfMemory, &mut out, &mut err),
            Ok(words) => command(alloc, &words, &mut store, &mut out, &mut err),
        },
    };
    ExitCode::from(status)
}
