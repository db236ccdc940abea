//! Trust anchor locators in files.

ghost use Rattle.std.specs.Prelude.{MatchResult};
ghost use Rattle.rpki_payloads.specs.Locators.{AreLocators, IsNamedLocator, IsNoLocator, IsFaultOf};

use bytes::Bytes;
use rpki_relying_party::locator_name;
use rpki_show::locator_of;
use rpki_tal::{ReadError, Tal};
use std::alloc::Global;

/// A locator, and its name: that of its file, without the folders and `.tal`.
#[derive(Drop)]
pub struct NamedLocator<'a> {
    pub name: &'a str,
    pub locator: Tal,
}

/// Why files are not all locators.
#[derive(Drop)]
pub enum LocatorFault<'a> {
    /// This one is none.
    Bad(&'a str),
    /// No memory was to be had.
    Memory,
}

// The locator in a file, which this word names.
fn locate<'a>(
    alloc: Global,
    word: &'a str,
    octets: &[u8],
) -> Result<NamedLocator<'a>, LocatorFault<'a>>
    ensures { MatchResult result (IsNamedLocator (word.entry, octets.now))
        (IsNoLocator (word.entry, octets.now)) }
{
    match locator_of(alloc, octets) {
        Ok(locator) => Ok(NamedLocator {
            name: locator_name(word),
            locator,
        }),
        Err(error) => Err(fault_of(error, word)),
    }
}

// Why the file that this word names is no locator.
fn fault_of<'a>(error: ReadError, word: &'a str) -> LocatorFault<'a>
    ensures { IsFaultOf error word.now result }
{
    match error {
        ReadError::Memory => LocatorFault::Memory,
        ReadError::Io
        | ReadError::UnexpectedEof
        | ReadError::BadUri(_)
        | ReadError::BadKeyInfoEncoding
        | ReadError::BadKeyInfo(_) => LocatorFault::Bad(word),
    }
}

/// The locators in these files, each with the word that names it. Refuses by the first that is none.
pub fn locators_in<'a>(
    alloc: Global,
    files: &[(&'a str, Bytes)],
) -> Result<Vec<NamedLocator<'a>>, LocatorFault<'a>>
    ensures { AreLocators files.now result }
{
    let mut locators = Vec::new(alloc);
    for (word, octets) in files {
        match locate(alloc, word, octets) {
            Err(fault) => return Err(fault),
            Ok(one) => {
                if locators.push(one).is_err() {
                    return Err(LocatorFault::Memory);
                }
            }
        }
    }
    Ok(locators)
}
