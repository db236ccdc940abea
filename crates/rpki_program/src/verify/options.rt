//! The table of commands and options, from which usage texts, the manual page's synopsis and the
//! completion are made.

ghost use Rattle.std.specs.Prelude.{◌≡◌, ◌==◌, not, length, IfSome};
ghost use Rattle.rpki_program.specs.Verify.Words.{option_word, takes_value, IsWordOf, is_same};
ghost use Rattle.rpki_program.specs.Verify.Words.{command_word, takes};

use crate::verify::request::CommandName;
use crate::verify::request::CommandName::{Check, Explain, Files, Payloads, Rta, Show, Verdicts};

/// An option.
#[derive(Clone, Copy, Debug, PartialEq, Eq)]
pub enum OptionName {
    At,
    Json,
    Relaxed,
    Registered,
    Wide,
    Kind,
    Ta,
    Tal,
    Ca,
    Crl,
    Format,
    Long,
    Slurm,
    Limit,
    MaxFile,
    Verbose,
    Help,
}

/// How often an option stands among the words of a command.
#[derive(Clone, Copy, Debug, PartialEq, Eq)]
pub enum Times {
    /// At most once; a flag may be repeated.
    Once,
    /// Exactly once.
    Always,
    /// As often as it is wanted.
    Often,
}

/// What there is to say of an option.
#[derive(Clone, Copy, Debug)]
pub struct OptionRow {
    /// Its word.
    pub word: &'static str,
    /// The word for its value; a flag has none.
    pub value: &'static str,
    /// What the value has to be, if not any word is.
    pub form: &'static str,
    pub times: Times,
    /// What it does.
    pub help: &'static str,
}

/// The options, in the order of the usage texts.
pub const OPTIONS: [OptionName; 17] = [
    OptionName::At,
    OptionName::Json,
    OptionName::Relaxed,
    OptionName::Registered,
    OptionName::Wide,
    OptionName::Kind,
    OptionName::Ta,
    OptionName::Tal,
    OptionName::Ca,
    OptionName::Crl,
    OptionName::Format,
    OptionName::Long,
    OptionName::Slurm,
    OptionName::Limit,
    OptionName::MaxFile,
    OptionName::Verbose,
    OptionName::Help,
];

impl OptionName {
    /// What there is to say of this option.
    pub fn row(self) -> OptionRow
        ensures word { result.word.now ≡ option_word self }
        ensures value { not (length result.value.now == 0) ≡ takes_value self }
    {
        match self {
            OptionName::At => OptionRow {
                word: "--at",
                value: "TIME",
                form: "now, 20261201000000Z or 2026-12-01T00:00:00Z",
                times: Times::Once,
                help: "the time of the check, by default now",
            },
            OptionName::Json => OptionRow {
                word: "--json",
                value: "",
                form: "",
                times: Times::Once,
                help: "print JSON, one line for each file",
            },
            OptionName::Relaxed => OptionRow {
                word: "--relaxed",
                value: "",
                form: "",
                times: Times::Once,
                help: "accept objects in BER too",
            },
            OptionName::Registered => OptionRow {
                word: "--registered",
                value: "",
                form: "",
                times: Times::Once,
                help: "require registered extensions in a manifest, no name twice",
            },
            OptionName::Wide => OptionRow {
                word: "--wide",
                value: "",
                form: "",
                times: Times::Once,
                help: "allow 16,380 providers in an ASPA instead of 10,000",
            },
            OptionName::Kind => OptionRow {
                word: "--kind",
                value: "KIND",
                form: "roa, aspa, manifest, rsc, rta, certificate, crl or tal",
                times: Times::Once,
                help: "the kind of the files, whatever their extensions",
            },
            OptionName::Ta => OptionRow {
                word: "--ta",
                value: "CER",
                form: "",
                times: Times::Always,
                help: "the certificate of the trust anchor",
            },
            OptionName::Tal => OptionRow {
                word: "--tal",
                value: "TAL",
                form: "",
                times: Times::Once,
                help: "the locator whose key the trust anchor must have",
            },
            OptionName::Ca => OptionRow {
                word: "--ca",
                value: "CER",
                form: "",
                times: Times::Often,
                help: "the certificate of a CA, issued by the one before",
            },
            OptionName::Crl => OptionRow {
                word: "--crl",
                value: "CRL",
                form: "",
                times: Times::Often,
                help: "a revocation list; without one, revocation is not checked",
            },
            OptionName::Format => OptionRow {
                word: "--format",
                value: "FORMAT",
                form: "lines, csv, json, rpki-client, bird or openbgpd",
                times: Times::Once,
                help: "the format of the payloads, by default lines",
            },
            OptionName::Long => OptionRow {
                word: "--long",
                value: "",
                form: "",
                times: Times::Once,
                help: "add to each line when it expires, and the URI of its object",
            },
            OptionName::Slurm => OptionRow {
                word: "--slurm",
                value: "FILE",
                form: "",
                times: Times::Often,
                help: "local exceptions (SLURM, RFC 8416)",
            },
            OptionName::Limit => OptionRow {
                word: "--limit",
                value: "N",
                form: "a number, such as 8589934592",
                times: Times::Once,
                help: "work limit per locator (1 per octet, 1,024 or more per file)",
            },
            OptionName::MaxFile => OptionRow {
                word: "--max-file",
                value: "N",
                form: "a number, such as 4000000",
                times: Times::Once,
                help: "read no file larger than N octets",
            },
            OptionName::Verbose => OptionRow {
                word: "-v",
                value: "",
                form: "",
                times: Times::Once,
                help: "show progress",
            },
            OptionName::Help => OptionRow {
                word: "--help",
                value: "",
                form: "",
                times: Times::Once,
                help: "print this usage",
            },
        }
    }

    /// Whether a value stands behind this option.
    pub fn takes_value(self) -> bool
        ensures { result ≡ takes_value self }
    {
        !self.row().value.is_empty()
    }

    /// Whether this option is that one.
    #[tactic(auto, unfolding(crate::specs::Verify::Words::is_same))]
    pub fn is(self, other: OptionName) -> bool
        ensures { result ≡ is_same self other }
    {
        self.row().word == other.row().word
    }

    /// Whether a command takes this option.
    pub fn is_of(self, command: CommandName) -> bool
        ensures { result ≡ takes command self }
    {
        match self {
            OptionName::At => matches!(command, Check | Files | Rta | Payloads | Explain),
            OptionName::Json => matches!(command, Check | Files | Show),
            OptionName::Relaxed | OptionName::Registered => {
                matches!(command, Check | Files | Show | Verdicts)
            }
            OptionName::Wide => matches!(command, Check | Files | Show | Verdicts | Payloads),
            OptionName::Kind => matches!(command, Check | Show),
            OptionName::Ta | OptionName::Ca => matches!(command, Check | Files | Verdicts),
            OptionName::Tal | OptionName::Crl => matches!(command, Check | Files),
            OptionName::Format
            | OptionName::Long
            | OptionName::Slurm
            | OptionName::Limit
            | OptionName::MaxFile
            | OptionName::Verbose => matches!(command, Payloads),
            OptionName::Help => true,
        }
    }
}

/// The option of this word, if there is one.
#[tactic(auto, using(crate::proofs::Asked::by_word))]
pub fn option_of(word: &str) -> Option<OptionName>
    ensures { IfSome result (λ n. IsWordOf word.now n) }
{
    if word == "-h" {
        return Some(OptionName::Help);
    }
    for name in OPTIONS {
        if name.row().word == word {
            return Some(name);
        }
    }
    None
}

/// What there is to say of a command.
#[derive(Clone, Copy, Debug)]
pub struct CommandRow {
    /// Its word.
    pub word: &'static str,
    /// Its operands.
    pub operands: &'static str,
    /// Its operands where no option stands, if they may be others then.
    pub bare: &'static str,
    /// What it does.
    pub help: &'static str,
}

/// The commands, in the order of the usage texts.
pub const COMMANDS: [CommandName; 7] = [Check, Files, Rta, Show, Verdicts, Payloads, Explain];

impl CommandName {
    /// What there is to say of this command.
    pub fn row(self) -> CommandRow
        ensures { result.word.now ≡ command_word self }
    {
        match self {
            Check => CommandRow {
                word: "check",
                operands: "FILE ...",
                bare: "",
                help: "check whether files are good under a trust anchor",
            },
            Files => CommandRow {
                word: "files",
                operands: "OBJECT FOLDER",
                bare: "",
                help: "check whether a folder has the files of a manifest or a checklist",
            },
            Rta => CommandRow {
                word: "rta",
                operands: "FILE ANCHOR ...",
                bare: "",
                help: "check an attestation under anchors, tal=FILE or ca=CER[:CER ...]",
            },
            Show => CommandRow {
                word: "show",
                operands: "FILE ...",
                bare: "",
                help: "print what files say, without checking them",
            },
            Verdicts => CommandRow {
                word: "verdicts",
                operands: "FILE",
                bare: "FILE.rta ANCHOR ...",
                help: "list the good signatures that a check asks about, for rpki_objects",
            },
            Payloads => CommandRow {
                word: "payloads",
                operands: "COPY TAL ...",
                bare: "",
                help: "list the payloads of a local copy of the repositories",
            },
            Explain => CommandRow {
                word: "explain",
                operands: "COPY TAL FILE|URI",
                bare: "",
                help: "explain why an object of a copy gives its payloads, or does not",
            },
        }
    }
}

/// The command of this word, if there is one.
pub fn command_of(word: &str) -> Option<CommandName>
    ensures { IfSome result (λ c. word.now ≡ command_word c) }
{
    for command in COMMANDS {
        if command.row().word == word {
            return Some(command);
        }
    }
    None
}
