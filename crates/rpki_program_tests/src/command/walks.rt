//! Walks over the files of a manifest.

use super::octets::{ANCHOR, AUTHORITY, HELD, HELD_VERDICTS, ORIGIN};
use super::rows::{By, File, MALFORMED, OUT_OF_MEMORY, Row, Said, USAGE, answered};
use std::test::Fail;

/// The manifest has `a.cer`, `b.roa` and `c.crl`, each with the hash of `foobar`.
static FILES: [File; 9] = [
    ("ta.cer", ANCHOR),
    ("ca.cer", AUTHORITY),
    ("origin.roa", ORIGIN),
    ("held.mft", HELD),
    ("v", HELD_VERDICTS),
    ("f", b"foobar"),
    ("b", b"barfoo"),
    ("x=y", b"foobar"),
    ("empty", b""),
];

const YES: Said = Said::Yes("yes\n");

/// What the program with signatures says of the manifest, whose signature is for another content.
const NOT_SIGNED: Said = Said::No("refused: signature is not valid\n");

static ROWS: [Row; 30] = [
    (
        By::Objects,
        "walk held.mft 20270101000000Z v ta.cer ca.cer with b.roa=f a.cer=b a.cer=f d.cer=f",
        Said::Yes("yes\nheld b.roa\n"),
        8,
    ),
    (
        By::Objects,
        "walk held.mft 20270101000000Z v ta.cer ca.cer with",
        YES,
        4,
    ),
    (
        By::Objects,
        "walk held.mft 20270101000000Z v ta.cer ca.cer with a.cer=f a.cer=b",
        Said::Yes("yes\nheld a.cer\n"),
        6,
    ),
    (
        By::Objects,
        "walk held.mft 20270101000000Z v ta.cer ca.cer with c.crl=f b.roa=f a.cer=f",
        Said::Yes("yes\nheld a.cer\nheld b.roa\nheld c.crl\n"),
        7,
    ),
    (
        By::Objects,
        "walk held.mft 20270101000000Z v ta.cer ca.cer with c.crl=x=y",
        Said::Yes("yes\nheld c.crl\n"),
        5,
    ),
    (
        By::Objects,
        "walk held.mft 20270101000000Z v ta.cer ca.cer with =f with=f a.cer=empty",
        YES,
        7,
    ),
    (
        By::Objects,
        "--relaxed walk held.mft 20270101000000Z v ta.cer ca.cer with",
        YES,
        4,
    ),
    (
        By::Objects,
        "--registered walk held.mft 20270101000000Z v ta.cer ca.cer with",
        YES,
        4,
    ),
    (
        By::Objects,
        "walk held.mft 20270101000000Z v ta.cer with a.cer=f",
        Said::No("refused: not issued by this CA\n"),
        4,
    ),
    (
        By::Objects,
        "walk held.mft 20270101000000Z v ta.cer origin.roa with a.cer=f",
        Said::No("issuer refused: malformed\n"),
        5,
    ),
    (
        By::Objects,
        "walk origin.roa 20270101000000Z v ta.cer ca.cer with",
        MALFORMED,
        4,
    ),
    (
        By::Objects,
        "walk held.mft 20270101000000Z f ta.cer ca.cer with",
        Said::Error(2, "bad verdicts\n"),
        4,
    ),
    (
        By::Objects,
        "walk held.mft 20270101000000Z v ta.cer ca.cer with a.cer=none",
        Said::Error(2, "cannot read none\n"),
        5,
    ),
    (
        By::Objects,
        "walk held.mft 20270101000000Z v ta.cer gone with a.cer=none",
        Said::Error(2, "cannot read gone\n"),
        4,
    ),
    (
        By::Objects,
        "walk held.mft 20270101000000Z v ta.cer ca.cer with x=f a.cer=b.roa=1",
        Said::Error(2, "cannot read b.roa=1\n"),
        6,
    ),
    (
        By::Objects,
        "walk held.mft 20270101000000Z v ta.cer origin.roa with a.cer=none",
        Said::Error(2, "cannot read none\n"),
        5,
    ),
    (
        By::Objects,
        "walk held.mft 20270101000000Z v ta.cer ca.cer with a.cer=large",
        OUT_OF_MEMORY,
        5,
    ),
    (
        By::Objects,
        "walk held.mft 20270101000000Z v ta.cer ca.cer",
        USAGE,
        0,
    ),
    (
        By::Objects,
        "walk held.mft 20270101000000Z v ta.cer ca.cer a.cer=f",
        USAGE,
        0,
    ),
    (
        By::Objects,
        "walk held.mft 20270101000000Z v ta.cer ca.cer with foobar",
        USAGE,
        0,
    ),
    (
        By::Objects,
        "walk held.mft 20270101000000Z v ta.cer ca.cer with a.cer=",
        USAGE,
        0,
    ),
    (
        By::Objects,
        "walk held.mft 20270101000000Z v ta.cer ca.cer with with",
        USAGE,
        0,
    ),
    (
        By::Objects,
        "walk held.mft 20270101000000Z v ta.cer  with a.cer=f",
        USAGE,
        0,
    ),
    (
        By::Objects,
        "walk held.mft 20270101000000Z v ta.cer",
        USAGE,
        0,
    ),
    (
        By::Objects,
        "walk held.mft 20270229000000Z v ta.cer with",
        USAGE,
        0,
    ),
    (
        By::Objects,
        "walk held.mft 20270101000000Z v with",
        USAGE,
        0,
    ),
    (
        By::Verify,
        "check --ta ta.cer --ca ca.cer held.mft",
        NOT_SIGNED,
        3,
    ),
    (
        By::Verify,
        "files --ta ta.cer --ca ca.cer held.mft d",
        Said::Error(4, "no such folder: d\n"),
        3,
    ),
    (
        By::Verify,
        "files --ta ta.cer --ca gone held.mft d",
        Said::Error(4, "cannot read gone: no such file\n"),
        2,
    ),
    (
        By::WithoutClock,
        "files --ta ta.cer held.mft d",
        Said::Error(2, "cannot read the clock\n"),
        0,
    ),
];

#[test]
fn entries_are_held(rt: HostRuntime) -> Result<(), Fail> {
    assert_eq!(rt; answered(rt.alloc(), &FILES, &ROWS)?, ROWS.len());
    Ok(())
}
