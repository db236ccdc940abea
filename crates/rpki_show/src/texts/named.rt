//! Lines of what a certificate or a revocation list says: a name and what it says.

ghost use Rattle.std.specs.Prelude.{option_map};
ghost use Rattle.rpki_show.specs.Grows.{Grows};
ghost use Rattle.rpki_show.specs.Texts.Named.{serial_line, moment_line, key_line, uri_line};

use crate::texts::serial::serial_hex;
use rpki_basics::{Https, KeyIdentifier, Rsync, Serial, Time};
use std::alloc::{AllocError, Global};
use std::fmt::Write;

/// Appends the line of a serial number. Refuses where memory runs out.
#[tactic(auto, unfolding(crate::specs::Texts::Named::serial_line))]
pub fn push_serial(
    alloc: Global,
    text: &mut String,
    name: &str,
    serial: Serial,
) -> Result<(), AllocError>
    ensures { Grows result text.old text.new (serial_line name.now serial) }
{
    let serial = serial_hex(alloc, serial)?;
    write!(text, "{name} {serial}\n")
}

/// Appends the line of a moment. Refuses where memory runs out.
#[tactic(auto, unfolding(crate::specs::Texts::Named::moment_line))]
pub fn push_moment(text: &mut String, name: &str, moment: Time) -> Result<(), AllocError>
    ensures { Grows result text.old text.new (moment_line name.now moment) }
{
    write!(text, "{name} {moment}\n")
}

/// Appends the line of the identifier of a key. Refuses where memory runs out.
#[tactic(auto, unfolding(crate::specs::Texts::Named::key_line))]
pub fn push_key(text: &mut String, name: &str, key: KeyIdentifier) -> Result<(), AllocError>
    ensures { Grows result text.old text.new (key_line name.now key) }
{
    write!(text, "{name} {key}\n")
}

/// Appends the line of an rsync URI, if there is one. Refuses where memory runs out.
#[tactic(auto, unfolding(crate::specs::Texts::Named::uri_line))]
pub fn push_rsync(text: &mut String, name: &str, uri: Option<&Rsync>) -> Result<(), AllocError>
    ensures { Grows result text.old text.new (uri_line name.now (option_map (λ u. u.now) uri.entry)) }
{
    match uri {
        None => Ok(()),
        Some(uri) => {
            let uri = uri.as_str();
            write!(text, "{name} {uri}\n")
        }
    }
}

/// Appends the line of an https URI, if there is one. Refuses where memory runs out.
#[tactic(auto, unfolding(crate::specs::Texts::Named::uri_line))]
pub fn push_https(text: &mut String, name: &str, uri: Option<&Https>) -> Result<(), AllocError>
    ensures { Grows result text.old text.new (uri_line name.now (option_map (λ u. u.now) uri.entry)) }
{
    match uri {
        None => Ok(()),
        Some(uri) => {
            let uri = uri.as_str();
            write!(text, "{name} {uri}\n")
        }
    }
}
