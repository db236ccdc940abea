//! A run over a small tree: what is found, until when, and what is refused. The answers follow by
//! hand from what the tree's files say.

use super::octets::{
    ANCHOR, ANCHOR_LIST, ANCHOR_MANIFEST, ANCHOR_ROA, ASPA, CA, EMPTY_CA, LIST, LOCATOR, MANIFEST,
    ROA,
};
use crate::folder::files::Files;
use rpki_basics::standin::StandIn;
use rpki_basics::{ProviderLimit, Time};
use rpki_der::Counted;
use rpki_relying_party::{
    FolderCopy, Found, Held, NoFile, Origin, Pass, Provider, RunFault, Why, refuse_unread,
    run_under,
};
use rpki_tal::{ReadError, Tal};
use rpki_testing::Fail;
use std::alloc::Global;

/// The files of the tree. The certificate of the trust anchor is where `rpki-client` keeps it, and
/// nothing stands at its URI.
pub static FILES: [(&str, Result<&[u8], NoFile>); 14] = [
    ("ta/one/t.cer", Ok(ANCHOR)),
    ("ta/large/t.cer", Err(NoFile::TooLarge)),
    ("ta/two/t.cer", Ok(b"none")),
    ("h/m/t/t.crl", Ok(ANCHOR_LIST)),
    ("h/m/t/t.mft", Ok(ANCHOR_MANIFEST)),
    ("h/m/t/a.cer", Ok(CA)),
    ("h/m/t/b.cer", Ok(EMPTY_CA)),
    ("h/m/t/t.roa", Ok(ANCHOR_ROA)),
    ("h/m/t/x.roa", Ok(b"none")),
    ("h/m/a/a.crl", Ok(LIST)),
    ("h/m/a/a.mft", Ok(MANIFEST)),
    ("h/m/a/a.roa", Ok(ROA)),
    ("h/m/a/a.asa", Ok(ASPA)),
    ("ta/three/t.cer", Ok(ANCHOR)),
];

/// What is refused of the tree.
static REFUSED: [&str; 2] = [
    "rsync://h/m/b/b.mft: manifest is not in the copy (under rsync://h/m/t/t.mft)",
    "rsync://h/m/t/x.roa: malformed (under rsync://h/m/t/t.mft)",
];

/// Origins, and the objects that say them.
static ORIGINS: [(Origin, &str); 2] = [
    (
        Origin {
            family: 1,
            addr: 0x0a01_0000 << 96,
            len: 16,
            max_len: 24,
            asn: 65001,
        },
        "rsync://h/m/a/a.roa",
    ),
    (
        Origin {
            family: 1,
            addr: 0xc000_0200 << 96,
            len: 24,
            max_len: 24,
            asn: 65100,
        },
        "rsync://h/m/t/t.roa",
    ),
];

/// Providers of the customer AS65001.
static PROVIDERS: [u32; 2] = [65010, 65011];

/// The first moment of a year.
pub fn moment(year: u16) -> Result<Time, Fail> {
    match Time::utc(year, 1, 1, 0, 0, 0) {
        Some(moment) => Ok(moment),
        None => Err(Fail::Refused),
    }
}

// Whether this holds until the first moment of 2036, when manifests and lists end, by this object.
fn is_held(held: Option<&Held>, object: &str) -> Result<bool, Fail> {
    let end = moment(2036)?;
    Ok(match held {
        None => false,
        Some(held) => held.until == end && held.object.as_str() == object,
    })
}

fn are_origins(found: &Found) -> Result<bool, Fail> {
    for (origin, object) in &ORIGINS {
        if !is_held(found.payloads.origins.get(origin), object)? {
            return Ok(false);
        }
    }
    Ok(found.payloads.origins.len() == ORIGINS.len())
}

fn are_providers(found: &Found) -> Result<bool, Fail> {
    for provider in &PROVIDERS {
        let pair = Provider {
            customer: 65001,
            provider: *provider,
        };
        if !is_held(found.payloads.providers.get(&pair), "rsync://h/m/a/a.asa")? {
            return Ok(false);
        }
    }
    Ok(found.payloads.providers.len() == PROVIDERS.len())
}

fn are_refused(found: &Found) -> bool {
    for line in &REFUSED {
        if !found.refusals.by_line.contains_key(*line) {
            return false;
        }
    }
    found.refusals.by_line.len() == REFUSED.len()
}

// Runs over the tree within a limit: whether all was found, and nothing left unread.
fn run_within(alloc: Global, tal: &Tal, limit: u64, found: &mut Found) -> Result<bool, Fail> {
    let folders = Files { files: &FILES };
    let copy = FolderCopy {
        folders: &folders,
        folder: "copy",
        name: "one",
    };
    let pass = Pass {
        copy: &copy,
        crypto: &StandIn,
        moment: moment(2027)?,
        providers: ProviderLimit::Narrow,
    };
    match run_under(alloc, &pass, tal, limit, found) {
        Err(RunFault::Memory) => Err(Fail::Memory),
        Err(fault) => {
            drop(fault);
            Err(Fail::Refused)
        }
        Ok(unread) => {
            if unread.iter().any(|left| left.why == Why::Memory) {
                return Err(Fail::Memory);
            }
            refuse_unread(alloc, &unread, found)?;
            Ok(unread.is_empty())
        }
    }
}

fn is_whole(alloc: Global, tal: &Tal) -> Result<bool, Fail> {
    let mut found = Found::new(alloc);
    let is_all = run_within(alloc, tal, 1_000_000, &mut found)?;
    Ok(is_all && are_origins(&found)? && are_providers(&found)? && are_refused(&found))
}

/// The locator of the tree.
pub fn locator(alloc: Global) -> Result<Tal, Fail> {
    match Tal::read_named(alloc, String::new(alloc), &mut Counted::new(LOCATOR)) {
        Ok(tal) => Ok(tal),
        Err(ReadError::Memory) => Err(Fail::Memory),
        Err(_) => Err(Fail::Refused),
    }
}

#[test]
fn each_place_is_read(rt: HostRuntime) -> Result<(), Fail> {
    let locator = locator(rt.alloc())?;
    assert!(rt; is_whole(rt.alloc(), &locator)?);
    Ok(())
}
