//! What is reported of locators over a folder that holds the tree.

use super::octets::{LOCATOR, OTHER_KEY, OTHER_URIS};
use super::tree::FILES;
use crate::folder::files::Files;
use bytes::Bytes;
use rpki_basics::standin::StandIn;
use rpki_basics::{ProviderLimit, Time};
use rpki_payloads::formats::PayloadFormat;
use rpki_payloads::{FolderParty, LocatorFault, PayloadsReport, locators_in, report_payloads};
use rpki_relying_party::{Fetched, Folders};
use rpki_testing::Fail;
use std::alloc::{AllocError, Global};

/// In which form, in which year and within which limit what is asked, of which files of locators
/// with which octets.
type Asked = (
    PayloadFormat,
    u16,
    u64,
    &'static [&'static str],
    &'static [&'static [u8]],
);

/// What is answered.
enum Wanted {
    /// That this file is no locator.
    Bad(&'static str),
    /// This on standard output and on standard error, and this status.
    Reported(&'static str, &'static str, u8),
}

/// More than all of the tree costs.
const MOST: u64 = 1_000_000;

const LINES: &str = "origin AS65001 10.1.0.0/16-24\norigin AS65100 192.0.2.0/24\n\
    aspa AS65001 AS65010 AS65011\n";

const CSV: &str = "ASN,IP Prefix,Max Length,Trust Anchor,Expires\n\
    AS65001,10.1.0.0/16,24,one,2082758400\nAS65100,192.0.2.0/24,24,one,2082758400\n";

const JSON: &str = "{\"aspas\":[
{\"customer\":\"AS65001\",\"expires\":2082758400,\"providers\":[\"AS65010\",\"AS65011\"],\
\"ta\":\"one\"}
],
\"metadata\":
{\"buildtime\":\"2027-01-01T00:00:00Z\",\"generated\":1798761600,\
\"generatedTime\":\"2027-01-01T00:00:00Z\",\
\"locators\":[{\"name\":\"one\",\"origins\":2,\"providers\":2,\"refused\":2}]},
\"refused\":[
{\"ca\":\"rsync://h/m/t/t.mft\",\"reason\":\"manifest is not in the copy\",\"ta\":\"one\",\
\"uri\":\"rsync://h/m/b/b.mft\"},
{\"ca\":\"rsync://h/m/t/t.mft\",\"reason\":\"malformed\",\"ta\":\"one\",\"uri\":\"rsync://h/m/t/x.roa\"}
],
\"roas\":[
{\"asn\":\"AS65001\",\"expires\":2082758400,\"maxLength\":24,\"prefix\":\"10.1.0.0/16\",\
\"ta\":\"one\"},
{\"asn\":\"AS65100\",\"expires\":2082758400,\"maxLength\":24,\"prefix\":\"192.0.2.0/24\",\
\"ta\":\"one\"}
]}
";

const NO_CSV: &str = "ASN,IP Prefix,Max Length,Trust Anchor,Expires\n";

/// What is refused of the tree.
const REFUSED: &str = "\
    refused rsync://h/m/b/b.mft: manifest is not in the copy (under rsync://h/m/t/t.mft, one)\n\
    refused rsync://h/m/t/x.roa: malformed (under rsync://h/m/t/t.mft, one)\n";

static ROWS: [(Asked, Wanted); 18] = [
    (
        (PayloadFormat::Lines, 2027, MOST, &["one.tal"], &[LOCATOR]),
        Wanted::Reported(LINES, REFUSED, 0),
    ),
    (
        (
            PayloadFormat::Csv,
            2027,
            MOST,
            &["tals/one.tal"],
            &[LOCATOR],
        ),
        Wanted::Reported(CSV, REFUSED, 0),
    ),
    (
        (PayloadFormat::Json, 2027, MOST, &["one.tal"], &[LOCATOR]),
        Wanted::Reported(JSON, REFUSED, 0),
    ),
    // the point of the trust anchor is more than the limit; or it is not, and those below it are
    (
        (PayloadFormat::Csv, 2027, 20_000, &["one.tal"], &[LOCATOR]),
        Wanted::Reported(NO_CSV, "refused one: not read: limit reached\n", 1),
    ),
    (
        (PayloadFormat::Lines, 2027, 64_472, &["one.tal"], &[LOCATOR]),
        Wanted::Reported(
            "origin AS65100 192.0.2.0/24\n",
            "refused rsync://h/m/t/t.mft: not read: 2 CAs, limit reached \
             (under rsync://h/m/t/t.mft, one)\n\
             refused rsync://h/m/t/x.roa: malformed (under rsync://h/m/t/t.mft, one)\n",
            0,
        ),
    ),
    (
        (PayloadFormat::Lines, 2027, MOST, &["two.tal"], &[LOCATOR]),
        Wanted::Reported("", "refused two: no certificate with its key\n", 1),
    ),
    (
        (PayloadFormat::Lines, 2027, MOST, &["one.tal"], &[OTHER_KEY]),
        Wanted::Reported("", "refused one: no certificate with its key\n", 1),
    ),
    (
        (PayloadFormat::Lines, 2027, MOST, &["large.tal"], &[LOCATOR]),
        Wanted::Reported("", "refused large: its certificate is too large\n", 1),
    ),
    (
        (
            PayloadFormat::Lines,
            2027,
            MOST,
            &["x.tal", "one.tal"],
            &[OTHER_URIS, LOCATOR],
        ),
        Wanted::Reported(
            LINES,
            "refused x: its certificate is not in the copy\n\
             refused rsync://h/m/b/b.mft: manifest is not in the copy \
             (under rsync://h/m/t/t.mft, one)\n\
             refused rsync://h/m/t/x.roa: malformed (under rsync://h/m/t/t.mft, one)\n",
            1,
        ),
    ),
    (
        (
            PayloadFormat::Csv,
            2027,
            MOST,
            &["a.tal", "tals/b", "c"],
            &[OTHER_URIS, OTHER_URIS, OTHER_URIS],
        ),
        Wanted::Reported(
            NO_CSV,
            "refused a: its certificate is not in the copy\n\
             refused b: its certificate is not in the copy\n\
             refused c: its certificate is not in the copy\n",
            1,
        ),
    ),
    // locators of one name have an answer each, and a payload of both is printed once
    (
        (
            PayloadFormat::Csv,
            2027,
            MOST,
            &["one.tal", "tals/one.tal"],
            &[LOCATOR, LOCATOR],
        ),
        Wanted::Reported(
            "ASN,IP Prefix,Max Length,Trust Anchor,Expires\n\
             AS65001,10.1.0.0/16,24,one,2082758400\nAS65100,192.0.2.0/24,24,one,2082758400\n",
            "refused rsync://h/m/b/b.mft: manifest is not in the copy \
             (under rsync://h/m/t/t.mft, one)\n\
             refused rsync://h/m/t/x.roa: malformed (under rsync://h/m/t/t.mft, one)\n\
             refused rsync://h/m/b/b.mft: manifest is not in the copy \
             (under rsync://h/m/t/t.mft, one)\n\
             refused rsync://h/m/t/x.roa: malformed (under rsync://h/m/t/t.mft, one)\n",
            0,
        ),
    ),
    (
        (
            PayloadFormat::Lines,
            2027,
            MOST,
            &["three.tal", "one.tal"],
            &[LOCATOR, LOCATOR],
        ),
        Wanted::Reported(
            LINES,
            "refused rsync://h/m/b/b.mft: manifest is not in the copy \
             (under rsync://h/m/t/t.mft, three)\n\
             refused rsync://h/m/t/x.roa: malformed (under rsync://h/m/t/t.mft, three)\n\
             refused rsync://h/m/b/b.mft: manifest is not in the copy \
             (under rsync://h/m/t/t.mft, one)\n\
             refused rsync://h/m/t/x.roa: malformed (under rsync://h/m/t/t.mft, one)\n",
            0,
        ),
    ),
    // before all is made, at the last moment of manifests and lists, and later
    (
        (PayloadFormat::Lines, 2025, MOST, &["one.tal"], &[LOCATOR]),
        Wanted::Reported(
            "",
            "refused one: its certificate is refused: certificate is not yet valid\n",
            1,
        ),
    ),
    (
        (PayloadFormat::Lines, 2036, MOST, &["one.tal"], &[LOCATOR]),
        Wanted::Reported(LINES, REFUSED, 0),
    ),
    (
        (PayloadFormat::Lines, 2037, MOST, &["one.tal"], &[LOCATOR]),
        Wanted::Reported(
            "",
            "refused one: manifest is stale: nextUpdate 2036-01-01T00:00:00Z\n",
            1,
        ),
    ),
    (
        (PayloadFormat::Lines, 2041, MOST, &["one.tal"], &[LOCATOR]),
        Wanted::Reported(
            "",
            "refused one: its certificate is refused: certificate has expired\n",
            1,
        ),
    ),
    (
        (
            PayloadFormat::Lines,
            2027,
            MOST,
            &["one.tal", "tals/b.tal", "c"],
            &[LOCATOR, b"none", b""],
        ),
        Wanted::Bad("tals/b.tal"),
    ),
    (
        (PayloadFormat::Lines, 2027, MOST, &["c"], &[b""]),
        Wanted::Bad("c"),
    ),
];

/// A file of the tree for which no memory is to be had, what is asked, and what is answered.
static LACKING: [(&str, Asked, Wanted); 4] = [
    // that of a trust anchor, before another one and after it
    (
        "ta/two/t.cer",
        (
            PayloadFormat::Lines,
            2027,
            MOST,
            &["two.tal", "one.tal"],
            &[LOCATOR, LOCATOR],
        ),
        Wanted::Reported(
            LINES,
            "refused two: out of memory\n\
             refused rsync://h/m/b/b.mft: manifest is not in the copy \
             (under rsync://h/m/t/t.mft, one)\n\
             refused rsync://h/m/t/x.roa: malformed (under rsync://h/m/t/t.mft, one)\n",
            3,
        ),
    ),
    (
        "ta/two/t.cer",
        (
            PayloadFormat::Csv,
            2027,
            MOST,
            &["one.tal", "two.tal"],
            &[LOCATOR, LOCATOR],
        ),
        Wanted::Reported(
            CSV,
            "refused two: out of memory\n\
             refused rsync://h/m/b/b.mft: manifest is not in the copy \
             (under rsync://h/m/t/t.mft, one)\n\
             refused rsync://h/m/t/x.roa: malformed (under rsync://h/m/t/t.mft, one)\n",
            3,
        ),
    ),
    // one of the trust anchor's own point, and one of a point below it
    (
        "h/m/t/t.crl",
        (PayloadFormat::Lines, 2027, MOST, &["one.tal"], &[LOCATOR]),
        Wanted::Reported("", "refused one: out of memory\n", 3),
    ),
    (
        "h/m/a/a.mft",
        (PayloadFormat::Lines, 2027, MOST, &["one.tal"], &[LOCATOR]),
        Wanted::Reported(
            "origin AS65100 192.0.2.0/24\n",
            "refused rsync://h/m/b/b.mft: manifest is not in the copy \
             (under rsync://h/m/t/t.mft, one)\n\
             refused rsync://h/m/t/t.mft: not read: 1 CA, out of memory \
             (under rsync://h/m/t/t.mft, one)\n\
             refused rsync://h/m/t/x.roa: malformed (under rsync://h/m/t/t.mft, one)\n",
            0,
        ),
    ),
];

/// Files in memory, and the name of one for which no memory is to be had.
#[derive(Drop)]
struct LackingFiles<'a> {
    files: Files<'a>,
    name: &'a str,
}

impl Folders for LackingFiles<'_> {
    ghost use Rattle.std.specs.Prelude.{◌≡◌};
    ghost use Rattle.rpki_relying_party_tests.specs.Files.{found_in};

    ghost finds = { λ t _ name found. found ≡ found_in t.files.files.now name };

    fn read(
        &self,
        alloc: Global,
        folder: &str,
        name: &[u8],
        most: u64,
    ) -> Result<Fetched, AllocError> {
        if name == self.name.as_bytes() {
            Err(AllocError)
        } else {
            self.files.read(alloc, folder, name, most)
        }
    }
}

// The files of these names, with their octets.
fn files_of<'a>(
    alloc: Global,
    names: &[&'a str],
    octets: &[&[u8]],
) -> Result<Vec<(&'a str, Bytes)>, AllocError> {
    let mut files = Vec::new(alloc);
    for (name, file) in names.iter().zip(octets.iter()) {
        files.push((*name, Bytes::copy_from_slice(alloc, file)?))?;
    }
    Ok(files)
}

// Whether this is said. That memory ran out, also for a locator or a point, is handed on, unless it
// is wanted.
fn is_said(said: (&str, &str, u8), wanted: (&str, &str, u8)) -> Result<bool, AllocError> {
    let is_same = said == wanted;
    if !is_same && said.1.contains("out of memory") {
        return Err(AllocError);
    }
    Ok(is_same)
}

// Whether this is reported.
fn is_wanted(report: &PayloadsReport, wanted: &Wanted) -> Result<bool, AllocError> {
    match wanted {
        Wanted::Bad(_) => Ok(false),
        Wanted::Reported(lines, refused, status) => is_said(
            (report.out.as_str(), report.err.as_str(), report.status),
            (lines, refused, *status),
        ),
    }
}

// Whether this is answered over these folders.
fn answers<F: Folders>(
    alloc: Global,
    folders: &F,
    asked: &Asked,
    files: &[(&str, Bytes)],
    moment: Time,
    wanted: &Wanted,
) -> Result<bool, AllocError> {
    let (format, _, limit, _, _) = asked;
    match locators_in(alloc, files) {
        Err(LocatorFault::Memory) => Err(AllocError),
        Err(LocatorFault::Bad(bad)) => Ok(matches!(wanted, Wanted::Bad(name) if *name == bad)),
        Ok(locators) => {
            let party = FolderParty {
                folders,
                crypto: &StandIn,
                copy: "copy",
                moment,
                providers: ProviderLimit::Narrow,
                limit: *limit,
            };
            is_wanted(
                &report_payloads(alloc, &party, &locators, *format, &[])?,
                wanted,
            )
        }
    }
}

fn is_answered<F: Folders>(
    alloc: Global,
    folders: &F,
    asked: &Asked,
    wanted: &Wanted,
) -> Result<bool, AllocError> {
    let files = files_of(alloc, asked.3, asked.4)?;
    match Time::utc(asked.1, 1, 1, 0, 0, 0) {
        None => Ok(false),
        Some(moment) => answers(alloc, folders, asked, &files, moment, wanted),
    }
}

// How many rows are answered before the first that is not, or all.
fn answered(alloc: Global, rows: &[(Asked, Wanted)]) -> Result<usize, AllocError> {
    let folders = Files { files: &FILES };
    for (place, (asked, wanted)) in rows.iter().enumerate() {
        if !is_answered(alloc, &folders, asked, wanted)? {
            return Ok(place);
        }
    }
    Ok(rows.len())
}

// The same, with no memory for the file that each row names.
fn answered_without(alloc: Global, rows: &[(&str, Asked, Wanted)]) -> Result<usize, AllocError> {
    for (place, (name, asked, wanted)) in rows.iter().enumerate() {
        let folders = LackingFiles {
            files: Files { files: &FILES },
            name: *name,
        };
        if !is_answered(alloc, &folders, asked, wanted)? {
            return Ok(place);
        }
    }
    Ok(rows.len())
}

#[test]
fn locators_are_reported(rt: HostRuntime) -> Result<(), Fail> {
    assert_eq!(rt; answered(rt.alloc(), &ROWS)?, ROWS.len());
    Ok(())
}

#[test]
fn no_memory_is_the_locators_own(rt: HostRuntime) -> Result<(), Fail> {
    assert_eq!(rt; answered_without(rt.alloc(), &LACKING)?, LACKING.len());
    Ok(())
}
