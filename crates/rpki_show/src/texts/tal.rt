//! The lines of a trust anchor locator.

ghost use Rattle.std.specs.List.{flat_map};
ghost use Rattle.rpki_show.specs.Grows.{Grows};
ghost use Rattle.rpki_show.specs.Texts.Tal.{tal_text, uri_line, key_line};

use crate::texts::lines::push_each;
use rpki_basics::PublicKey;
use rpki_tal::Tal;
use std::alloc::AllocError;
use std::fmt::Write;

/// Appends the lines of a locator. Refuses where memory runs out.
pub fn push_tal(text: &mut String, tal: &Tal) -> Result<(), AllocError>
    ensures { Grows result text.old text.new (tal_text tal.now.uris tal.now.key) }
{
    write!(text, "tal\n")?;
    push_uris(text, tal)?;
    push_key(text, tal.key_info())
}

/// Appends a line for each URI.
fn push_uris(text: &mut String, tal: &Tal) -> Result<(), AllocError>
    ensures { Grows result text.old text.new (flat_map uri_line tal.now.uris) }
{
    push_each(text, tal.uris(), |text, uri| write!(text, "uri {uri}\n"))
}

/// Appends the line of the key.
fn push_key(text: &mut String, key: &PublicKey) -> Result<(), AllocError>
    ensures { Grows result text.old text.new (key_line key.now) }
{
    let identifier = key.key_identifier();
    write!(text, "key {identifier}\n")
}
