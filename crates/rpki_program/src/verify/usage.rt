//! What is said of words that ask for nothing, and of how the program is called.

use crate::verify::options::{COMMANDS, OPTIONS, OptionName, OptionRow, Times};
use crate::verify::request::CommandName;
use std::alloc::{AllocError, AllocFailed, Global};
use std::fmt;
use std::fmt::Write;

/// The name of the program, and which version of it this is.
pub const VERSION: &str = "rpki_verify 0.1.0\n";

/// How many columns a line of a usage text has.
const COLUMNS: usize = 80;

/// Why words ask for nothing.
#[derive(Clone, Copy, Debug)]
pub enum Fault<'a> {
    /// There is no word.
    NoCommand,
    /// No command has this word.
    UnknownCommand(&'a str),
    /// No option has this word.
    UnknownOption(&'a str),
    /// The value of this option is missing after the last word.
    NoValue(OptionName),
    /// A value stands behind this flag.
    NoValueTaken(OptionName),
    /// The command does not have this option.
    NotHere(OptionName),
    /// This option has two values, and may have one.
    Twice(OptionName),
    /// This option has to stand.
    Missing(OptionName),
    /// The value of this option is not of its form.
    WrongValue(OptionName, &'a str),
    /// A word is empty, or has a control character.
    Unprintable,
    /// Operands are missing.
    TooFew,
    /// This operand is one too many.
    TooMany(&'a str),
    /// Operands are no anchors.
    NoAnchors,
    /// This option stands beside anchors, and is not read there.
    WithoutAnchor(OptionName),
    /// Payloads that are not in lines have no long form.
    LongLines,
    /// No memory was to be had.
    Memory,
}

impl From<AllocError> for Fault<'_> {
    fn from(_error: AllocError) -> Self {
        Fault::Memory
    }
}

impl<T: Drop> From<AllocFailed<T>> for Fault<'_> {
    fn from(_failed: AllocFailed<T>) -> Self {
        Fault::Memory
    }
}

/// What is wrong, and what to do.
impl fmt::Display for Fault<'_> {
    fn fmt<W: fmt::Write>(&self, f: &mut fmt::Formatter<W>) -> fmt::Result {
        match self {
            Fault::NoCommand => f.write_str("no command: use one of these"),
            Fault::UnknownCommand(word) => {
                write!(f, "unknown command {word:?}: use one of these")
            }
            Fault::UnknownOption(word) => write!(
                f,
                "unknown option {word:?}: put -- before a file whose name begins with -"
            ),
            Fault::NoValue(name) | Fault::Missing(name) => {
                let row = name.row();
                write!(f, "missing {} {}: {}", row.word, row.value, row.help)
            }
            Fault::NoValueTaken(name) => write!(f, "{} takes no value", name.row().word),
            Fault::NotHere(name) => write!(f, "this command does not take {}", name.row().word),
            Fault::Twice(name) => write!(f, "{} is given more than once", name.row().word),
            Fault::WrongValue(name, word) => {
                let row = name.row();
                write!(f, "write {} as {}, not as {word:?}", row.value, row.form)
            }
            Fault::Unprintable => f.write_str("an argument is empty or has a control character"),
            Fault::TooFew => f.write_str("an operand is missing"),
            Fault::TooMany(word) => write!(f, "unexpected operand {word:?}"),
            Fault::NoAnchors => f.write_str("give each ANCHOR as tal=FILE or ca=CER[:CER ...]"),
            Fault::WithoutAnchor(name) => write!(f, "{} needs --ta CER", name.row().word),
            Fault::LongLines => f.write_str("--long is only for --format lines"),
            Fault::Memory => f.write_str("out of memory"),
        }
    }
}

/// What is answered to words that ask for nothing.
#[derive(Debug, Drop)]
pub enum WrongWords {
    /// This is said of them.
    Usage(String),
    /// No memory was to be had.
    Memory,
}

/// What is answered to words that ask for nothing, by this fault: what to do, and how the command
/// is called.
pub fn wrong(alloc: Global, command: Option<CommandName>, fault: Fault<'_>) -> WrongWords {
    match wrong_text(alloc, command, fault) {
        Ok(text) => WrongWords::Usage(text),
        Err(_) => WrongWords::Memory,
    }
}

fn wrong_text(
    alloc: Global,
    command: Option<CommandName>,
    fault: Fault<'_>,
) -> Result<String, AllocError> {
    if matches!(fault, Fault::Memory) {
        return Err(AllocError);
    }
    let mut text = format!(in alloc; "rpki_verify: {fault}\n")?;
    match command {
        None => push_commands(&mut text)?,
        Some(command) => {
            push_usage(alloc, &mut text, command)?;
            let word = command.row().word;
            write!(text, "rpki_verify {word} --help says more\n")?;
        }
    }
    Ok(text)
}

/// How the program, or a command of it, is called.
pub fn help(alloc: Global, command: Option<CommandName>) -> Result<String, AllocError> {
    let mut text = String::new(alloc);
    match command {
        None => push_commands(&mut text)?,
        Some(command) => {
            push_usage(alloc, &mut text, command)?;
            write!(text, "\n{}\n\n", command.row().help)?;
            for name in OPTIONS {
                if name.is_of(command) {
                    push_option(alloc, &mut text, name)?;
                }
            }
            text.push_str("\nAfter --, every argument is an operand; - is standard input.\n")?;
        }
    }
    text.push_str(
        "Status: 0 yes or shown, 1 no, 2 wrong usage or output failed, 3 out of memory, \
        4 a file can't be read\n",
    )?;
    Ok(text)
}

/// Appends the commands, a line each.
fn push_commands(text: &mut String) -> Result<(), AllocError> {
    text.push_str("usage: rpki_verify COMMAND ...\n")?;
    text.push_str("       rpki_verify COMMAND --help\n")?;
    text.push_str("       rpki_verify --help | --version\n")?;
    for command in COMMANDS {
        let row = command.row();
        write!(text, "  {:<10}{}\n", row.word, row.help)?;
    }
    Ok(())
}

/// Appends the line of an option.
fn push_option(alloc: Global, text: &mut String, name: OptionName) -> Result<(), AllocError> {
    let row = name.row();
    let head = format!(in alloc; "{} {}", row.word, row.value)?;
    write!(text, "  {head:<18}{}", row.help)?;
    if !row.form.is_empty() {
        write!(text, ": {}", row.form)?;
    }
    text.push_str("\n")
}

/// Appends how a command is called.
fn push_usage(alloc: Global, text: &mut String, command: CommandName) -> Result<(), AllocError> {
    let row = command.row();
    write!(text, "usage: rpki_verify {}", row.word)?;
    let mut column = 19_usize.saturating_add(row.word.len());
    for name in OPTIONS {
        if name.is_of(command) && name != OptionName::Help {
            let part = synopsis_of(alloc, name.row())?;
            column = push_part(text, column, &part)?;
        }
    }
    push_part(text, column, row.operands)?;
    if !row.bare.is_empty() {
        write!(text, "\n       rpki_verify {} {}", row.word, row.bare)?;
    }
    text.push_str("\n")
}

/// Appends a part of a usage text, in a further line where it is too long for this one, which has
/// so many columns. Gives the columns of the line then.
fn push_part(text: &mut String, column: usize, part: &str) -> Result<usize, AllocError> {
    let further = column.saturating_add(1).saturating_add(part.len());
    if further > COLUMNS {
        write!(text, "\n           {part}")?;
        Ok(11_usize.saturating_add(part.len()))
    } else {
        write!(text, " {part}")?;
        Ok(further)
    }
}

/// How an option stands in a usage text.
fn synopsis_of(alloc: Global, row: OptionRow) -> Result<String, AllocError> {
    if row.value.is_empty() {
        return format!(in alloc; "[{}]", row.word);
    }
    match row.times {
        Times::Once => format!(in alloc; "[{} {}]", row.word, row.value),
        Times::Always => format!(in alloc; "{} {}", row.word, row.value),
        Times::Often => format!(in alloc; "[{} {} ...]", row.word, row.value),
    }
}

/// The table of commands and options, for tools. A line of a command has its word, its operands,
/// those where no option stands, and what it does; one of an option the word of the command, that
/// of the option, that of the value, how often it stands, what the value has to be, and what it
/// does. A tab stands between two.
pub fn table(alloc: Global) -> Result<String, AllocError> {
    let mut text = String::new(alloc);
    for command in COMMANDS {
        let row = command.row();
        write!(
            text,
            "{}\t{}\t{}\t{}\n",
            row.word, row.operands, row.bare, row.help
        )?;
        for name in OPTIONS {
            if name.is_of(command) {
                push_row(&mut text, row.word, name.row())?;
            }
        }
    }
    Ok(text)
}

/// Appends the line of an option in the table.
fn push_row(text: &mut String, command: &str, row: OptionRow) -> Result<(), AllocError> {
    let times = match row.times {
        Times::Once => "once",
        Times::Always => "always",
        Times::Often => "often",
    };
    write!(text, "{command}\t{}\t{}\t{times}\t", row.word, row.value)?;
    write!(text, "{}\t{}\n", row.form, row.help)
}
