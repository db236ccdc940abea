//! Anchors of attestations: trust anchor locators, and CAs that chains of certificates make.

ghost use Rattle.std.specs.Prelude.{◌≡◌, ◌≤◌, IfOk, length, map, true};
ghost use Rattle.rpki_rta.specs.Refused.{supply_in};
ghost use Rattle.rpki_cli.specs.Words.{texts, files_of_anchors};
ghost use Rattle.rpki_command.specs.Anchors.{given_in, AreMade, IsLocated, IsChained, MakesOf};
ghost use Rattle.rpki_command.specs.Anchors.{locator_fault};
ghost use Rattle.rpki_command.specs.Rta.{supply_of};

use bytes::Bytes;
use rpki_basics::{Crypto, Time};
use rpki_certs::{IssuerError, ResourceCert, issuer_at};
use rpki_cli::anchor_words::{count_of, is_locator};
use rpki_paths::Supplied;
use rpki_rta::Supply;
use rpki_show::locator_of;
use rpki_tal::{ReadError, Tal};
use std::alloc::{AllocError, Global};

/// What paths are anchored under.
#[derive(Drop)]
pub enum Anchor {
    /// A trust anchor locator.
    Tal(Tal),
    /// A CA whose certificate was validated.
    Ca(ResourceCert),
}

/// Why files make no anchor.
#[derive(Debug, Drop)]
pub enum AnchorError {
    /// The file of a locator is none.
    NoLocator,
    /// The certificates of a chain make no issuer, for this cause.
    NoIssuer(IssuerError),
    /// No memory was to be had.
    Memory,
}

/// The anchors that these words name, by the octets of their files, which stand in the order of the
/// words. Each is made before the next; refuses by the fault of the first that is not, or by
/// `Memory`.
pub fn anchors_of<K: Crypto>(
    alloc: Global,
    words: &[&str],
    files: &[Bytes],
    crypto: &K,
    now: Time,
) -> Result<Vec<Anchor>, AnchorError>
    requires { length (files_of_anchors (texts words.now)) ≤ length files.now }
    ensures { AreMade (K.is_signed crypto.now) now
        (given_in (texts words.now) files.now) result }
{
    let mut anchors = Vec::new(alloc);
    let mut rest = files;
    for word in words {
        let (own, others) = rest.split_at(count_of(word));
        rest = others;
        match anchor_of(alloc, is_locator(word), own, crypto, now) {
            Err(error) => return Err(error),
            Ok(anchor) => {
                if anchors.push(anchor).is_err() {
                    return Err(AnchorError::Memory);
                }
            }
        }
    }
    Ok(anchors)
}

/// The anchor that these files make, of a locator or of a chain.
fn anchor_of<K: Crypto>(
    alloc: Global,
    locates: bool,
    files: &[Bytes],
    crypto: &K,
    now: Time,
) -> Result<Anchor, AnchorError>
    requires some { 1 ≤ length files.now }
    requires one { locates ≡ true → length files.now ≡ 1 }
    ensures { MakesOf (K.is_signed crypto.now) now locates files.now result }
{
    match files {
        [first, others @ ..] => {
            if locates {
                located(alloc, first)
            } else {
                chained(alloc, first, others, crypto, now)
            }
        }
        _ => unreachable!(),
    }
}

/// The locator that the file is.
fn located(alloc: Global, octets: &[u8]) -> Result<Anchor, AnchorError>
    ensures { IsLocated octets.now result }
{
    match locator_of(alloc, octets) {
        Ok(tal) => Ok(Anchor::Tal(tal)),
        Err(error) => Err(fault_of(error)),
    }
}

/// Why there is no anchor, where a locator is refused so.
fn fault_of(error: ReadError) -> AnchorError
    ensures { result ≡ locator_fault error }
{
    match error {
        ReadError::Memory => AnchorError::Memory,
        ReadError::Io
        | ReadError::UnexpectedEof
        | ReadError::BadUri(_)
        | ReadError::BadKeyInfoEncoding
        | ReadError::BadKeyInfo(_) => AnchorError::NoLocator,
    }
}

/// The CA that these certificates make.
fn chained<K: Crypto>(
    alloc: Global,
    first: &Bytes,
    others: &[Bytes],
    crypto: &K,
    now: Time,
) -> Result<Anchor, AnchorError>
    ensures { IsChained (K.is_signed crypto.now) now first.now others.now result }
{
    match issuer_at(alloc, first, others, crypto, now) {
        Ok(ca) => Ok(Anchor::Ca(ca)),
        Err(error) => Err(AnchorError::NoIssuer(error)),
    }
}

/// What these anchors supply, in their order. Refuses where memory runs out.
pub fn supplies_of<'s>(alloc: Global, anchors: &'s [Anchor]) -> Result<Vec<Supply<'s>>, AllocError>
    ensures { IfOk result (λ supplies. map supply_in supplies.items ≡ map supply_of anchors.now) }
{
    let mut supplies = Vec::new(alloc);
    for anchor in anchors {
        supplies.push(supply_of(anchor))?;
    }
    Ok(supplies)
}

/// What an anchor supplies.
fn supply_of<'s>(anchor: &'s Anchor) -> Supply<'s>
    ensures { supply_in result ≡ supply_of anchor.now }
{
    match anchor {
        Anchor::Tal(tal) => Supplied::Tal(tal),
        Anchor::Ca(ca) => Supplied::Ca(ca),
    }
}
