//! What the program is asked.

ghost use Rattle.std.specs.Prelude.{◌≡◌, ◌∷◌, ◌++◌, Bool, MatchOption, codes};
ghost use Rattle.rpki_basics.specs.Moment.{Moment, IsMoment};
ghost use Rattle.rpki_cli.specs.Options.{provider_limit, manifest_rule};
ghost use Rattle.rpki_cli.specs.Command.{objects_language};
ghost use Rattle.rpki_cli.specs.Language.{IsAsked, AskForNothing};
ghost use Rattle.rpki_cli.specs.Words.{texts, kind_word, word_if, word_registered, word_wide};
ghost use Rattle.rpki_cli.specs.Words.{with_options, command_words, files_of, are_named};
ghost use Rattle.rpki_cli.specs.Words.{moment_word, IsProper, AskForNoWalk, AskForNoRta};
ghost use Rattle.rpki_cli.specs.Words.{AskForNothingElse};
ghost use Rattle.rpki_cli.specs.declared.words.Kind.{Kind};
ghost use Rattle.rpki_cli.specs.declared.words.Command.{Command};
ghost use Rattle.rpki_cli.specs.declared.words.Order.{Order};

use crate::anchor_words::{are_anchors, are_anchors_named};
use crate::pairs::{are_others_named, has_with};
use rpki_basics::{ManifestRule, ProviderLimit, Time};
use std::marker::Model;

/// The kinds of signed objects that may be shown and checked.
#[derive(Clone, Copy, Debug, PartialEq, Eq)]
pub enum Kind {
    /// An Autonomous System Provider Authorization.
    Aspa,
    /// A manifest.
    Manifest,
    /// A Route Origin Authorization.
    Roa,
    /// An RPKI Signed Checklist.
    Rsc,
}

/// A word of the command line.
#[derive(Drop)]
pub struct Word<'a>(pub &'a str);

impl<'a> Model for Word<'a> {
    ghost use Rattle.std.specs.Prelude.{ℕ, List};

    ghost Value = { List ℕ };

    ghost view = { λ w. w.0.now };
}

/// Words of the command line.
#[derive(Drop)]
pub struct Words<'a>(pub &'a [&'a str]);

impl<'a> Model for Words<'a> {
    ghost use Rattle.std.specs.Prelude.{ℕ, List, map};

    ghost Value = { List (List ℕ) };

    ghost view = { λ w. map (λ t. t.now) w.0.now };
}

/// What is to be done.
#[derive(Drop)]
pub enum Command<'a> {
    /// To show a bare content.
    Content {
        kind: Kind,
        file: Word<'a>,
    },
    /// To show the bare content of a Resource Tagged Attestation, which has one signer or more.
    ContentRta {
        file: Word<'a>,
    },
    /// To show a signed object.
    Show {
        kind: Kind,
        file: Word<'a>,
    },
    /// To show a Resource Tagged Attestation.
    ShowRta {
        file: Word<'a>,
    },
    /// To show a trust anchor locator.
    ShowTal {
        file: Word<'a>,
    },
    /// To check a signed object under an issuer, which is the last certificate of a chain that
    /// begins with a trust anchor.
    Check {
        kind: Kind,
        file: Word<'a>,
        moment: Time,
        verdicts: Word<'a>,
        anchor: Word<'a>,
        chain: Words<'a>,
    },
    /// To check a manifest in the same way, and to say which of its entries files at hand hold. The
    /// words after the trust anchor are the certificates of CAs, `with`, and pairs NAME=PATH.
    Walk {
        file: Word<'a>,
        moment: Time,
        verdicts: Word<'a>,
        anchor: Word<'a>,
        tail: Words<'a>,
    },
    /// To check a Resource Tagged Attestation under these anchors: locators, tal=FILE, and CAs,
    /// ca=FILE[:FILE ..], each of which is the last certificate of a chain that begins with a trust
    /// anchor.
    Rta {
        file: Word<'a>,
        moment: Time,
        verdicts: Word<'a>,
        anchors: Words<'a>,
    },
}

/// How it is to be done.
#[derive(Clone, Copy, Debug, PartialEq, Eq)]
pub struct Options {
    /// Objects may be in BER.
    pub relaxed: bool,
    /// The names in a manifest have registered extensions, and none stands there twice.
    pub registered: bool,
    /// A customer may have more providers.
    pub wide: bool,
}

impl Options {
    /// How many providers a customer may have.
    pub fn provider_limit(self) -> ProviderLimit
        ensures { result ≡ provider_limit self }
    {
        if self.wide {
            ProviderLimit::Wide
        } else {
            ProviderLimit::Narrow
        }
    }

    /// Which names a manifest may have.
    pub fn manifest_rule(self) -> ManifestRule
        ensures { result ≡ manifest_rule self }
    {
        if self.registered {
            ManifestRule::Registered
        } else {
            ManifestRule::Any
        }
    }
}

/// What a program is asked: a command of its own, and options.
#[derive(Drop)]
pub struct Order<C> {
    pub options: Options,
    pub command: C,
}

/// What the words ask for, if they ask for anything.
pub fn parse<'a>(words: &'a [&'a str]) -> Option<Order<Command<'a>>>
    ensures { MatchOption result (AskForNothing objects_language (texts words.now))
        (IsAsked objects_language (texts words.now)) }
{
    let order = parse_relaxed(words)?;
    if each_named(&order.command) {
        Some(order)
    } else {
        None
    }
}

/// Whether each file has a name.
fn each_named(command: &Command<'_>) -> bool
    ensures { result ≡ are_named (files_of command.now) }
{
    match command {
        Command::Content { file, .. } => !file.0.is_empty(),
        Command::ContentRta { file } => !file.0.is_empty(),
        Command::Show { file, .. } => !file.0.is_empty(),
        Command::ShowRta { file } => !file.0.is_empty(),
        Command::ShowTal { file } => !file.0.is_empty(),
        Command::Check {
            file,
            verdicts,
            anchor,
            chain,
            ..
        } => {
            !file.0.is_empty()
                && !verdicts.0.is_empty()
                && !anchor.0.is_empty()
                && all_named(chain.0)
        }
        Command::Walk {
            file,
            verdicts,
            anchor,
            tail,
            ..
        } => {
            !file.0.is_empty()
                && !verdicts.0.is_empty()
                && !anchor.0.is_empty()
                && are_others_named(tail.0)
        }
        Command::Rta {
            file,
            verdicts,
            anchors,
            ..
        } => !file.0.is_empty() && !verdicts.0.is_empty() && are_anchors_named(anchors.0),
    }
}

/// Whether each of these files has a name.
pub fn all_named(files: &[&str]) -> bool
    ensures { result ≡ are_named (texts files.now) }
{
    for file in files {
        if file.is_empty() {
            return false;
        }
    }
    true
}

/// The order of words that may begin with the first option.
fn parse_relaxed<'a>(words: &'a [&'a str]) -> Option<Order<Command<'a>>>
    ensures { MatchOption result
        ((o : Order Command) → texts words.now ≡ with_options o.options (command_words o.command)
        → IsProper o.command → ⊥)
        (λ o. (texts words.now ≡ with_options o.options (command_words o.command))
        × IsProper o.command) }
{
    match words {
        ["--relaxed", rest @ ..] => parse_registered(true, rest),
        _ => parse_registered(false, words),
    }
}

/// The order of words that may begin with the second option.
fn parse_registered<'a>(relaxed: bool, words: &'a [&'a str]) -> Option<Order<Command<'a>>>
    ensures { MatchOption result
        ((registered wide : Bool) (c : Command)
        → texts words.now ≡ word_if registered word_registered
        ++ (word_if wide word_wide ++ command_words c) → IsProper c → ⊥)
        (λ o. (o.options.relaxed ≡ relaxed)
        × (texts words.now ≡ word_if o.options.registered word_registered
        ++ (word_if o.options.wide word_wide ++ command_words o.command))
        × IsProper o.command) }
{
    match words {
        ["--registered", rest @ ..] => parse_wide(relaxed, true, rest),
        _ => parse_wide(relaxed, false, words),
    }
}

/// The order of words that may begin with the third option.
fn parse_wide<'a>(
    relaxed: bool,
    registered: bool,
    words: &'a [&'a str],
) -> Option<Order<Command<'a>>>
    ensures { MatchOption result
        ((wide : Bool) (c : Command) → texts words.now ≡ word_if wide word_wide ++ command_words c
        → IsProper c → ⊥)
        (λ o. (o.options.relaxed ≡ relaxed) × (o.options.registered ≡ registered)
        × (texts words.now ≡ word_if o.options.wide word_wide ++ command_words o.command)
        × IsProper o.command) }
{
    match words {
        ["--wide", rest @ ..] => Some(Order {
            options: Options {
                relaxed,
                registered,
                wide: true,
            },
            command: parse_command(rest)?,
        }),
        _ => Some(Order {
            options: Options {
                relaxed,
                registered,
                wide: false,
            },
            command: parse_command(words)?,
        }),
    }
}

/// The command of words without options.
#[tactic(auto, using(crate::proofs::Orders::by_first_word))]
fn parse_command<'a>(words: &'a [&'a str]) -> Option<Command<'a>>
    ensures { MatchOption result
        ((c : Command) → texts words.now ≡ command_words c → IsProper c → ⊥)
        (λ c. (texts words.now ≡ command_words c) × IsProper c) }
{
    match words {
        ["walk", rest @ ..] => parse_walk(rest),
        ["rta", rest @ ..] => parse_rta(rest),
        _ => parse_other(words),
    }
}

/// The command of words that ask for no walk and no check of an attestation.
fn parse_other<'a>(words: &'a [&'a str]) -> Option<Command<'a>>
    ensures { MatchOption result (AskForNothingElse (texts words.now))
        (λ c. (texts words.now ≡ command_words c) × IsProper c) }
{
    match words {
        ["content", "rta", file] => Some(Command::ContentRta { file: Word(file) }),
        ["content", kind, file] => Some(Command::Content {
            kind: kind_of(kind)?,
            file: Word(file),
        }),
        ["show", "rta", file] => Some(Command::ShowRta { file: Word(file) }),
        ["show", "tal", file] => Some(Command::ShowTal { file: Word(file) }),
        ["show", kind, file] => Some(Command::Show {
            kind: kind_of(kind)?,
            file: Word(file),
        }),
        ["check", kind, file, moment, verdicts, anchor, chain @ ..] => Some(Command::Check {
            kind: kind_of(kind)?,
            moment: moment_of(moment)?,
            file: Word(file),
            verdicts: Word(verdicts),
            anchor: Word(anchor),
            chain: Words(chain),
        }),
        _ => None,
    }
}

/// The walk that these words ask for, after the first.
fn parse_walk<'a>(words: &'a [&'a str]) -> Option<Command<'a>>
    ensures { MatchOption result (AskForNoWalk (texts words.now))
        (λ c. (codes "walk" ∷ texts words.now ≡ command_words c) × IsProper c) }
{
    match words {
        [file, moment, verdicts, anchor, tail @ ..] => {
            let moment = moment_of(moment)?;
            if has_with(tail) {
                Some(Command::Walk {
                    file: Word(file),
                    moment,
                    verdicts: Word(verdicts),
                    anchor: Word(anchor),
                    tail: Words(tail),
                })
            } else {
                None
            }
        }
        _ => None,
    }
}

/// The check of an attestation that these words ask for, after the first.
fn parse_rta<'a>(words: &'a [&'a str]) -> Option<Command<'a>>
    ensures { MatchOption result (AskForNoRta (texts words.now))
        (λ c. (codes "rta" ∷ texts words.now ≡ command_words c) × IsProper c) }
{
    match words {
        [file, moment, verdicts, anchors @ ..] => {
            let moment = moment_of(moment)?;
            if are_anchors(anchors) {
                Some(Command::Rta {
                    file: Word(file),
                    moment,
                    verdicts: Word(verdicts),
                    anchors: Words(anchors),
                })
            } else {
                None
            }
        }
        _ => None,
    }
}

/// The moment that a word names, if it names one.
#[tactic(auto, unfolding(crate::specs::Words::moment_word))]
fn moment_of(word: &str) -> Option<Time>
    ensures { MatchOption result ((m : Moment) → word.now ≡ moment_word m → IsMoment m → ⊥)
        (λ m. (word.now ≡ moment_word m) × IsMoment m) }
{
    Time::from_generalized(word.as_bytes())
}

/// The kind of this name.
fn kind_of(word: &str) -> Option<Kind>
    ensures { MatchOption result ((k : Kind) → word.now ≡ kind_word k → ⊥)
        (λ k. word.now ≡ kind_word k) }
{
    match word {
        "aspa" => Some(Kind::Aspa),
        "manifest" => Some(Kind::Manifest),
        "roa" => Some(Kind::Roa),
        "rsc" => Some(Kind::Rsc),
        _ => None,
    }
}
