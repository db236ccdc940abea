//! What the words of the command line ask for.

ghost use Rattle.std.specs.Prelude.{◌≡◌, ◌∷◌, All, List, [], IfOk, IfSome, OnOk, None, true};
ghost use Rattle.std.specs.List.{list_any};
ghost use Rattle.rpki_cli.specs.Words.{texts, are_anchors};
ghost use Rattle.rpki_payloads.specs.declared.formats.PayloadFormat.TheVariants.{Lines};
ghost use Rattle.rpki_program.specs.Verify.Items.{AreItems, values, operands};
ghost use Rattle.rpki_program.specs.Verify.Requests.{AskFor, IsAsked, AreOf, AreUnder, IsAt};
ghost use Rattle.rpki_program.specs.Verify.Requests.{IsKind, manner_of, limit_of, IsGiven};
ghost use Rattle.rpki_program.specs.Verify.Requests.{IsFormat, IsOperand, IsPrintable, IsTaken};
ghost use Rattle.rpki_program.specs.Verify.Requests.{is_control};
ghost use Rattle.rpki_program.specs.Verify.Requests.{SaysFormat, SaysNumber};
ghost use Rattle.rpki_program.specs.Verify.Words.{takes};
ghost use Rattle.rpki_program.specs.declared.verify.items.Item.{Item};
ghost use Rattle.rpki_program.specs.declared.verify.options.OptionName.{OptionName};
ghost use Rattle.rpki_program.specs.declared.verify.request.CommandName.{CommandName};

use crate::verify::items::{Item, is_set, items_of, operands, value, values};
use crate::verify::kinds::kind_of_word;
use crate::verify::options::{OptionName, command_of};
use crate::verify::request::{
    CheckRequest, CommandName, ExplainRequest, FileKind, FilesRequest, IssuerFiles,
    PayloadsRequest, Request, RtaRequest, RtaVerdictsRequest, ShowRequest, VerdictsRequest, When,
};
use crate::verify::time::time_of;
use crate::verify::usage::{Fault, WrongWords, wrong};
use rpki_basics::{ManifestRule, ProviderLimit};
use rpki_cli::anchor_words::{are_anchors, are_anchors_named};
use rpki_payloads::formats::PayloadFormat;
use rpki_validation::question::Manner;
use std::alloc::{AllocError, Global};

/// What the words ask for: each field is the word behind its option. Refuses where they ask for
/// nothing, or where memory runs out.
pub fn parse<'a>(alloc: Global, words: &'a [&'a str]) -> Result<Request<'a>, WrongWords>
    ensures { IfOk result (λ request. AskFor (texts words.now) request) }
{
    let Some((word, rest)) = words.split_first() else {
        return Err(wrong(alloc, None, Fault::NoCommand));
    };
    if let Some(request) = asked_alone(word) {
        return Ok(request);
    }
    match command_of(word) {
        None => Err(wrong(alloc, None, Fault::UnknownCommand(word))),
        Some(command) => match request_of(alloc, command, rest) {
            Ok(request) => Ok(request),
            Err(fault) => Err(wrong(alloc, Some(command), fault)),
        },
    }
}

/// What a word that is none of a command asks for.
fn asked_alone<'a>(word: &str) -> Option<Request<'a>>
    ensures { IfSome result (λ request. IsAsked word.now request) }
{
    match word {
        "--help" | "-h" => Some(Request::Help(None)),
        "--version" => Some(Request::Version),
        "--options" => Some(Request::Options),
        _ => None,
    }
}

/// What the words after a command ask for.
fn request_of<'a>(
    alloc: Global,
    command: CommandName,
    words: &'a [&'a str],
) -> Result<Request<'a>, Fault<'a>>
    ensures { IfOk result (λ request. (items : List Item) × AreItems (texts words.now) items
        × All (IsTaken command) items × AreOf command items request) }
{
    let items = items_of(alloc, words)?;
    refuse_others(command, &items)?;
    if is_set(&items, OptionName::Help) {
        return Ok(Request::Help(Some(command)));
    }
    command_request(alloc, command, &items)
}

/// What the items of a command ask for.
fn command_request<'a>(
    alloc: Global,
    command: CommandName,
    items: &[Item<'a>],
) -> Result<Request<'a>, Fault<'a>>
    ensures { IfOk result (λ request. AreOf command items.now request) }
{
    match command {
        CommandName::Check => check(alloc, items),
        CommandName::Files => files(alloc, items),
        CommandName::Rta => rta(alloc, items),
        CommandName::Show => show(alloc, items),
        CommandName::Verdicts => match value(items, OptionName::Ta)? {
            Some(ta) => verdicts(alloc, items, ta),
            None => {
                refuse_options(items)?;
                rta_verdicts(alloc, items)
            }
        },
        CommandName::Payloads => payloads(alloc, items),
        CommandName::Explain => explain(alloc, items),
    }
}

/// Refuses an option of another command, and a value or an operand that is empty or has a control
/// character.
fn refuse_others<'a>(command: CommandName, items: &[Item<'a>]) -> Result<(), Fault<'a>>
    ensures { OnOk result (All (IsTaken command) items.now) }
{
    for item in items {
        refuse_other(command, item)?;
    }
    Ok(())
}

/// The same of one item.
fn refuse_other<'a>(command: CommandName, item: &Item<'a>) -> Result<(), Fault<'a>>
    ensures { OnOk result (IsTaken command item.now) }
{
    match item {
        Item::Flag(name) => refuse_name(command, *name),
        Item::Value(name, word) => {
            refuse_name(command, *name)?;
            refuse_unprintable(word.0)
        }
        Item::Operand(word) => refuse_unprintable(word.0),
    }
}

/// Refuses an option of another command.
fn refuse_name<'a>(command: CommandName, name: OptionName) -> Result<(), Fault<'a>>
    ensures { OnOk result (takes command name ≡ true) }
{
    if name.is_of(command) {
        Ok(())
    } else {
        Err(Fault::NotHere(name))
    }
}

/// Refuses a word that is empty or has a control character.
fn refuse_unprintable<'a>(word: &'a str) -> Result<(), Fault<'a>>
    ensures { OnOk result (IsPrintable word.now) }
{
    if word.is_empty() || has_control(word.as_bytes()) {
        Err(Fault::Unprintable)
    } else {
        Ok(())
    }
}

/// Whether one of the octets is a control character.
fn has_control(octets: &[u8]) -> bool
    ensures { result ≡ list_any is_control octets.now }
{
    octets.iter().any(|octet| *octet < 0x20 || *octet == 0x7F)
}

/// Refuses an option, where operands alone are read.
fn refuse_options<'a>(items: &[Item<'a>]) -> Result<(), Fault<'a>>
    ensures { OnOk result (All IsOperand items.now) }
{
    for item in items {
        refuse_option(item)?;
    }
    Ok(())
}

/// The same of one item.
fn refuse_option<'a>(item: &Item<'a>) -> Result<(), Fault<'a>>
    ensures { OnOk result (IsOperand item.now) }
{
    match item {
        Item::Flag(name) => Err(Fault::WithoutAnchor(*name)),
        Item::Value(name, _) => Err(Fault::WithoutAnchor(*name)),
        Item::Operand(_) => Ok(()),
    }
}

// ---- operands

/// The first of these words, and those after it.
fn first_of<'a, 's>(words: &'s [&'a str]) -> Result<(&'a str, &'s [&'a str]), Fault<'a>>
    ensures { IfOk result (λ p. texts words.now ≡ p.0.now ∷ texts p.1.now) }
{
    match words.split_first() {
        Some((first, rest)) => Ok((*first, rest)),
        None => Err(Fault::TooFew),
    }
}

/// Refuses a word too many.
fn end_of<'a>(words: &[&'a str]) -> Result<(), Fault<'a>>
    ensures { OnOk result (texts words.now ≡ []) }
{
    match words.split_first() {
        Some((first, _)) => Err(Fault::TooMany(*first)),
        None => Ok(()),
    }
}

/// The operands, of which there is one at least.
fn some_operands<'a>(alloc: Global, items: &[Item<'a>]) -> Result<Vec<&'a str>, Fault<'a>>
    ensures operands { IfOk result (λ v. operands items.now ≡ texts v.items) }
    ensures some { IfOk result (λ v. v.items ≡ [] → ⊥) }
{
    let words = operands(alloc, items)?;
    if words.is_empty() {
        Err(Fault::TooFew)
    } else {
        Ok(words)
    }
}

/// The only operand.
fn one_operand<'a>(alloc: Global, items: &[Item<'a>]) -> Result<&'a str, Fault<'a>>
    ensures { IfOk result (λ w. operands items.now ≡ w.now ∷ []) }
{
    let words = operands(alloc, items)?;
    let (word, rest) = first_of(&words)?;
    end_of(rest)?;
    Ok(word)
}

/// The first operand, and those after it, of which there is one at least.
fn several_operands<'a>(
    alloc: Global,
    items: &[Item<'a>],
) -> Result<(&'a str, Vec<&'a str>), Fault<'a>>
    ensures operands { IfOk result (λ p. operands items.now ≡ p.0.now ∷ texts p.1.items) }
    ensures some { IfOk result (λ p. p.1.items ≡ [] → ⊥) }
{
    let words = operands(alloc, items)?;
    let (word, rest) = first_of(&words)?;
    if rest.is_empty() {
        return Err(Fault::TooFew);
    }
    Ok((word, Vec::from_slice(alloc, rest)?))
}

/// The first operand, and the anchors after it.
fn anchored<'a>(alloc: Global, items: &[Item<'a>]) -> Result<(&'a str, Vec<&'a str>), Fault<'a>>
    ensures { IfOk result (λ p. (operands items.now ≡ p.0.now ∷ texts p.1.items)
        × (are_anchors (texts p.1.items) ≡ true)) }
{
    let (object, anchors) = several_operands(alloc, items)?;
    if are_anchors(&anchors) && are_anchors_named(&anchors) {
        Ok((object, anchors))
    } else {
        Err(Fault::NoAnchors)
    }
}

// ---- values

/// The moment of a check, that of the clock by default.
fn time_in<'a>(items: &[Item<'a>]) -> Result<When, Fault<'a>>
    ensures { IfOk result (λ at. IsAt items.now at) }
{
    match value(items, OptionName::At)? {
        None => Ok(When::Now),
        Some(word) => match time_of(word) {
            Some(at) => Ok(at),
            None => Err(Fault::WrongValue(OptionName::At, word)),
        },
    }
}

/// The kind of files, if it is given.
fn kind_in<'a>(items: &[Item<'a>]) -> Result<Option<FileKind>, Fault<'a>>
    ensures { IfOk result (λ kind. IsKind items.now kind) }
{
    match value(items, OptionName::Kind)? {
        None => Ok(None),
        Some(word) => match kind_of_word(word) {
            Some(kind) => Ok(Some(kind)),
            None => Err(Fault::WrongValue(OptionName::Kind, word)),
        },
    }
}

/// The format of payloads, plain lines by default, which `--long` makes longer.
fn format_in<'a>(items: &[Item<'a>]) -> Result<PayloadFormat, Fault<'a>>
    ensures { IfOk result (λ f. IsFormat items.now f) }
{
    let format = format_given(items)?;
    if !is_set(items, OptionName::Long) {
        return Ok(format);
    }
    match format {
        PayloadFormat::Lines => Ok(PayloadFormat::Long),
        _ => Err(Fault::LongLines),
    }
}

/// The format that is given, plain lines by default.
fn format_given<'a>(items: &[Item<'a>]) -> Result<PayloadFormat, Fault<'a>>
    ensures { IfOk result (λ f. IsGiven SaysFormat Lines (values OptionName.Format items.now) f) }
{
    match value(items, OptionName::Format)? {
        None => Ok(PayloadFormat::Lines),
        Some(word) => match format_of(word) {
            Some(format) => Ok(format),
            None => Err(Fault::WrongValue(OptionName::Format, word)),
        },
    }
}

/// The format of this word, if there is one.
fn format_of(word: &str) -> Option<PayloadFormat>
    ensures { IfSome result (λ f. SaysFormat word.now f) }
{
    match word {
        "lines" => Some(PayloadFormat::Lines),
        "csv" => Some(PayloadFormat::Csv),
        "json" => Some(PayloadFormat::Json),
        "rpki-client" => Some(PayloadFormat::RpkiClient),
        "bird" => Some(PayloadFormat::Bird),
        "openbgpd" => Some(PayloadFormat::Openbgpd),
        _ => None,
    }
}

/// The number that an option gives, if it stands.
fn number_in<'a>(items: &[Item<'a>], name: OptionName) -> Result<Option<u64>, Fault<'a>>
    ensures { IfOk result (λ n. IsGiven SaysNumber None (values name items.now) n) }
{
    match value(items, name)? {
        None => Ok(None),
        Some(word) => match word.parse::<u64>() {
            Ok(number) => Ok(Some(number)),
            Err(_) => Err(Fault::WrongValue(name, word)),
        },
    }
}

/// How many providers a customer may have.
fn limit_in(items: &[Item<'_>]) -> ProviderLimit
    ensures { result ≡ limit_of items.now }
{
    if is_set(items, OptionName::Wide) {
        ProviderLimit::Wide
    } else {
        ProviderLimit::Narrow
    }
}

/// How objects are read.
fn manner_in(items: &[Item<'_>]) -> Manner
    ensures { result ≡ manner_of items.now }
{
    Manner {
        strict: !is_set(items, OptionName::Relaxed),
        names: if is_set(items, OptionName::Registered) {
            ManifestRule::Registered
        } else {
            ManifestRule::Any
        },
        limit: limit_in(items),
    }
}

/// The certificate of the trust anchor.
fn anchor_in<'a>(items: &[Item<'a>]) -> Result<&'a str, Fault<'a>>
    ensures { IfOk result (λ ta. values OptionName.Ta items.now ≡ ta.now ∷ []) }
{
    match value(items, OptionName::Ta)? {
        Some(ta) => Ok(ta),
        None => Err(Fault::Missing(OptionName::Ta)),
    }
}

/// The files of certificates and lists.
fn under<'a>(alloc: Global, items: &[Item<'a>]) -> Result<IssuerFiles<'a>, Fault<'a>>
    ensures { IfOk result (λ u. AreUnder items.now u) }
{
    Ok(IssuerFiles {
        ta: anchor_in(items)?,
        tal: value(items, OptionName::Tal)?,
        cas: values(alloc, items, OptionName::Ca)?,
        crls: values(alloc, items, OptionName::Crl)?,
    })
}

// ---- the commands

fn check<'a>(alloc: Global, items: &[Item<'a>]) -> Result<Request<'a>, Fault<'a>>
    ensures { IfOk result (λ r. AreOf CommandName.Check items.now r) }
{
    Ok(Request::Check(CheckRequest {
        at: time_in(items)?,
        manner: manner_in(items),
        json: is_set(items, OptionName::Json),
        kind: kind_in(items)?,
        under: under(alloc, items)?,
        files: some_operands(alloc, items)?,
    }))
}

fn files<'a>(alloc: Global, items: &[Item<'a>]) -> Result<Request<'a>, Fault<'a>>
    ensures { IfOk result (λ r. AreOf CommandName.Files items.now r) }
{
    let words = operands(alloc, items)?;
    let (object, rest) = first_of(&words)?;
    let (folder, rest) = first_of(rest)?;
    end_of(rest)?;
    Ok(Request::Files(FilesRequest {
        at: time_in(items)?,
        manner: manner_in(items),
        json: is_set(items, OptionName::Json),
        under: under(alloc, items)?,
        object,
        folder,
    }))
}

fn rta<'a>(alloc: Global, items: &[Item<'a>]) -> Result<Request<'a>, Fault<'a>>
    ensures { IfOk result (λ r. AreOf CommandName.Rta items.now r) }
{
    let (object, anchors) = anchored(alloc, items)?;
    Ok(Request::Rta(RtaRequest {
        at: time_in(items)?,
        object,
        anchors,
    }))
}

fn show<'a>(alloc: Global, items: &[Item<'a>]) -> Result<Request<'a>, Fault<'a>>
    ensures { IfOk result (λ r. AreOf CommandName.Show items.now r) }
{
    Ok(Request::Show(ShowRequest {
        manner: manner_in(items),
        json: is_set(items, OptionName::Json),
        kind: kind_in(items)?,
        files: some_operands(alloc, items)?,
    }))
}

fn verdicts<'a>(alloc: Global, items: &[Item<'a>], ta: &'a str) -> Result<Request<'a>, Fault<'a>>
    requires { values OptionName.Ta items.now ≡ ta.now ∷ [] }
    ensures { IfOk result (λ r. AreOf CommandName.Verdicts items.now r) }
{
    Ok(Request::Verdicts(VerdictsRequest {
        manner: manner_in(items),
        ta,
        cas: values(alloc, items, OptionName::Ca)?,
        object: one_operand(alloc, items)?,
    }))
}

fn rta_verdicts<'a>(alloc: Global, items: &[Item<'a>]) -> Result<Request<'a>, Fault<'a>>
    requires { All IsOperand items.now }
    ensures { IfOk result (λ r. AreOf CommandName.Verdicts items.now r) }
{
    let (object, anchors) = anchored(alloc, items)?;
    Ok(Request::RtaVerdicts(RtaVerdictsRequest { object, anchors }))
}

fn payloads<'a>(alloc: Global, items: &[Item<'a>]) -> Result<Request<'a>, Fault<'a>>
    ensures { IfOk result (λ r. AreOf CommandName.Payloads items.now r) }
{
    let (copy, tals) = several_operands(alloc, items)?;
    Ok(Request::Payloads(PayloadsRequest {
        at: time_in(items)?,
        providers: limit_in(items),
        format: format_in(items)?,
        slurm: values(alloc, items, OptionName::Slurm)?,
        limit: number_in(items, OptionName::Limit)?,
        max_file: number_in(items, OptionName::MaxFile)?,
        verbose: is_set(items, OptionName::Verbose),
        copy,
        tals,
    }))
}

fn explain<'a>(alloc: Global, items: &[Item<'a>]) -> Result<Request<'a>, Fault<'a>>
    ensures { IfOk result (λ r. AreOf CommandName.Explain items.now r) }
{
    let words = operands(alloc, items)?;
    let (copy, rest) = first_of(&words)?;
    let (tal, rest) = first_of(rest)?;
    let (target, rest) = first_of(rest)?;
    end_of(rest)?;
    Ok(Request::Explain(ExplainRequest {
        at: time_in(items)?,
        copy,
        tal,
        target,
    }))
}
