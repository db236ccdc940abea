//! What a program is, and how it is run.

ghost use Rattle.std.specs.Prelude.{◌≡◌, IfOk, map, string_bytes};
ghost use Rattle.rpki_cli.specs.Answer.{Run, IsSaid, run_of, said};
ghost use Rattle.rpki_cli.specs.Command.{Program, IsRunOf, HaveRead};
ghost use Rattle.rpki_cli.specs.Words.{texts};

use crate::answer::{Answer, say};
use crate::store::Store;
use rpki_der::Sink;
use std::alloc::{AllocError, Global};

/// A program of signed objects.
pub trait Program {
    // How its orders are written, and what each comes to.
    ghost program: { Self → Program };

    /// What it answers to its words: who says it, once the files are read, has run them.
    fn answer<'a, S: Store>(&self, alloc: Global, words: &'a [&'a str], store: &mut S) -> Answer<'a>
        ensures run { (run : Run) → IsSaid (said result) run
            → IsRunOf (program self.now) (S.told store.old) (texts words.now)
            (S.reads store.old) (S.reads store.new) run }
        ensures reads { HaveRead (program self.now) (texts words.now)
            (S.reads store.old) (S.reads store.new) }
        ensures same { S.told store.new ≡ S.told store.old };
}

/// Runs a program: does what the words ask for, which follow its name, with the files of the store.
/// Gives the exit status: 0 where lines were shown, after a `yes` where an object was checked, 1
/// for `malformed`, `refused: CAUSE` and `issuer refused: CAUSE`, all on standard output; 2 for
/// wrong words, `bad verdicts` and `cannot read FILE`, and 3 for `out of memory`, on standard error;
/// and 2 where a write failed, after which nothing more is written.
pub fn command<P: Program, S: Store, O: Sink, E: Sink>(
    alloc: Global,
    program: &P,
    words: &[&str],
    store: &mut S,
    out: &mut O,
    err: &mut E,
) -> u8
    ensures run { IsRunOf (P.program program.now) (S.told store.old) (texts words.now)
        (S.reads store.old) (S.reads store.new)
        (run_of O.taken O.failures out.old out.new E.taken E.failures err.old err.new result) }
    ensures reads { HaveRead (P.program program.now) (texts words.now)
        (S.reads store.old) (S.reads store.new) }
    ensures same { S.told store.new ≡ S.told store.old }
{
    say(&program.answer(alloc, words, store), out, err)
}

/// Gives the texts of the words, in their order. Refuses where memory runs out.
pub fn texts_of(alloc: Global, words: &[String]) -> Result<Vec<&str>, AllocError>
    ensures { IfOk result (λ texts. map (λ t. t.now) texts.items ≡ map string_bytes words.now) }
{
    let mut texts = Vec::new(alloc);
    for word in words {
        texts.push(word.as_str())?;
    }
    Ok(texts)
}
