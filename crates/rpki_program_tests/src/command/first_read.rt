//! Which file is read first.

use super::rows::{By, File, Row, Said, answered};
use std::test::Fail;

/// There is no file.
static FILES: [File; 0] = [];

/// The first file that is read, after words that stand in the place of others.
static FIRST_READ: [Row; 9] = [
    (
        By::Verify,
        "check --ta --json a.roa",
        Said::Error(4, "cannot read --json: no such file\n"),
        1,
    ),
    (
        By::Verify,
        "check --ta -- a.roa",
        Said::Error(4, "cannot read --: no such file\n"),
        1,
    ),
    (
        By::Verify,
        "check a.roa --ta -",
        Said::Error(4, "cannot read -: no such file\n"),
        1,
    ),
    (
        By::Verify,
        "check --ca b.cer --ta a.cer -- --ta.roa",
        Said::Error(4, "cannot read a.cer: no such file\n"),
        1,
    ),
    (
        By::Verify,
        "show -- --json.roa",
        Said::Unread("cannot be read: no such file\n"),
        1,
    ),
    (
        By::Verify,
        "show --kind manifest -",
        Said::Unread("cannot be read: no such file\n"),
        1,
    ),
    (
        By::Verify,
        "show --kind roa a b",
        Said::Unread("a: cannot be read: no such file\nb: cannot be read: no such file\n"),
        2,
    ),
    (
        By::Verify,
        "show b~\u{80}.roa",
        Said::Unread("cannot be read: no such file\n"),
        1,
    ),
    (By::Verify, "--version", Said::Yes("rpki_verify 0.1.0\n"), 0),
];

#[test]
fn files_are_named_by_words(rt: HostRuntime) -> Result<(), Fail> {
    assert_eq!(rt;
        answered(rt.alloc(), &FILES, &FIRST_READ)?,
        FIRST_READ.len()
    );
    Ok(())
}
