//! The line of JSON of a file.

ghost use Rattle.std.specs.Prelude.{◌≡◌, IfOk, OnOk, Some, codes, false, string_bytes};
ghost use Rattle.serde_json.specs.Data.{boolean, string};
ghost use Rattle.serde_json.specs.Find.{get_member};
ghost use Rattle.serde_json.specs.View.{members_view};
ghost use Rattle.rpki_program.specs.Verify.Judged.{is_yes};
ghost use Rattle.rpki_program.specs.Verify.Report.{IsLine, IsLineOf};

use crate::verify::check::judged::Judged;
use crate::verify::request::FileKind;
use bytes::Bytes;
use rpki_basics::{ManifestRule, ProviderLimit};
use rpki_cli::words::{Kind, Options};
use rpki_show::{
    Unshown, attestation_members, certificate_members, crl_members, locator_members, object_members,
};
use rpki_validation::question::Manner;
use serde_json::{Map, Value, push, put};
use std::alloc::{AllocError, Global};

/// The members of an object of JSON, in the order of their names.
pub type Members = Map<String, Value>;

/// The line of the file of this name and kind, with these octets, of which this is said.
pub fn line_of(
    alloc: Global,
    manner: Manner,
    name: &str,
    kind: FileKind,
    octets: &Bytes,
    judged: &Judged,
) -> Result<String, AllocError>
    ensures { IfOk result (λ text. IsLine name.now (is_yes judged.now) (string_bytes text)) }
{
    match judged {
        Judged::No(cause) => no_line(alloc, name, kind.word(), cause),
        Judged::Yes(lines) => {
            let members = good_members(alloc, manner, kind, octets, lines)?;
            line_with(alloc, members, name, kind.word(), true)
        }
    }
}

/// The line of a file of this name and type that is not good, for this cause.
pub fn no_line(alloc: Global, name: &str, word: &str, cause: &str) -> Result<String, AllocError>
    ensures { IfOk result (λ text. IsLine name.now false (string_bytes text)) }
{
    let mut members = Map::new(alloc);
    put_text(alloc, &mut members, "reason", cause)?;
    line_with(alloc, members, name, word, false)
}

/// The line of an object of this name and type whose files are all held, or not, and what is said of
/// them.
pub fn state_line(
    alloc: Global,
    name: &str,
    word: &str,
    valid: bool,
    lines: &str,
) -> Result<String, AllocError>
    ensures { IfOk result (λ text. IsLine name.now valid (string_bytes text)) }
{
    let mut members = Map::new(alloc);
    put_lines(alloc, &mut members, lines)?;
    line_with(alloc, members, name, word, valid)
}

/// What a file of this kind shows, as `show --json` shows it.
pub fn members_of(
    alloc: Global,
    manner: Manner,
    kind: FileKind,
    octets: Bytes,
) -> Result<Members, Unshown> {
    let options = options_of(manner);
    match kind {
        FileKind::Roa => object_members(alloc, options, Kind::Roa, octets),
        FileKind::Aspa => object_members(alloc, options, Kind::Aspa, octets),
        FileKind::Manifest => object_members(alloc, options, Kind::Manifest, octets),
        FileKind::Checklist => object_members(alloc, options, Kind::Rsc, octets),
        FileKind::Attestation => attestation_members(alloc, octets),
        FileKind::Certificate => certificate_members(alloc, octets),
        FileKind::RevocationList => crl_members(alloc, octets),
        FileKind::Locator => locator_members(alloc, octets.as_slice()),
    }
}

/// The options of this manner.
pub fn options_of(manner: Manner) -> Options {
    Options {
        relaxed: !manner.strict,
        registered: manner.names == ManifestRule::Registered,
        wide: manner.limit == ProviderLimit::Wide,
    }
}

/// What a good file shows, or else its lines.
fn good_members(
    alloc: Global,
    manner: Manner,
    kind: FileKind,
    octets: &Bytes,
    lines: &str,
) -> Result<Members, AllocError> {
    match members_of(alloc, manner, kind, octets.clone()?) {
        Ok(members) => Ok(members),
        Err(Unshown::Memory) => Err(AllocError),
        Err(Unshown::Malformed(_)) => {
            let mut members = Map::new(alloc);
            put_lines(alloc, &mut members, lines)?;
            Ok(members)
        }
    }
}

/// The line of an object with these members, and those that say its name, its type and whether it
/// is good.
fn line_with(
    alloc: Global,
    members: Members,
    name: &str,
    word: &str,
    valid: bool,
) -> Result<String, AllocError>
    ensures { IfOk result (λ text. IsLine name.now valid (string_bytes text)) }
{
    let mut members = members;
    match put_verdict(alloc, &mut members, name, word, valid) {
        Ok(()) => object_line(alloc, members),
        Err(error) => {
            drop(members);
            Err(error)
        }
    }
}

/// Puts the members that say a name, a type and whether it is good.
fn put_verdict(
    alloc: Global,
    members: &mut Members,
    name: &str,
    word: &str,
    valid: bool,
) -> Result<(), AllocError>
    ensures file { OnOk result (get_member (codes "file") (members_view members.new.entries)
        ≡ Some (string name.now)) }
    ensures valid { OnOk result (get_member (codes "valid") (members_view members.new.entries)
        ≡ Some (boolean valid)) }
{
    put_named(alloc, members, name, word)?;
    put(members, alloc, "valid", Value::from(valid))?;
    Ok(())
}

/// Puts the members that say a name and a type.
pub fn put_named(
    alloc: Global,
    members: &mut Members,
    name: &str,
    word: &str,
) -> Result<(), AllocError>
    ensures { OnOk result (get_member (codes "file") (members_view members.new.entries)
        ≡ Some (string name.now)) }
{
    put_text(alloc, members, "type", word)?;
    put_text(alloc, members, "file", name)
}

/// The line of an object with these members.
pub fn object_line(alloc: Global, members: Members) -> Result<String, AllocError>
    ensures { IfOk result (λ text. IsLineOf members (string_bytes text)) }
{
    // Its contract says that the names ascend.
    let _ = members.len();
    let object = Value::Object(members);
    let line = object.to_string(alloc);
    drop(object);
    let line = line?;
    format!(in alloc; "{line}\n")
}

/// Puts a member that is a text.
fn put_text(alloc: Global, members: &mut Members, name: &str, text: &str) -> Result<(), AllocError>
    ensures { OnOk result (get_member name.now (members_view members.new.entries)
        ≡ Some (string text.now)) }
{
    let text = String::from_str(alloc, text)?;
    put(members, alloc, name, Value::from(text))?;
    Ok(())
}

/// Puts lines as a list of texts, one each.
fn put_lines(alloc: Global, members: &mut Members, lines: &str) -> Result<(), AllocError> {
    let mut values = Vec::new(alloc);
    for line in lines.lines() {
        let text = String::from_str(alloc, line)?;
        push(&mut values, Value::String(text))?;
    }
    put(members, alloc, "lines", Value::Array(values))
}
