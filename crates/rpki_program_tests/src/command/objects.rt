//! Objects of `examples/` that are shown and checked, each under a CA and its trust anchor.

use super::octets::{ANCHOR, AUTHORITY, ORIGIN, VERDICTS};
use super::rows::{By, File, MALFORMED, OUT_OF_MEMORY, Row, Said, answered};
use std::test::Fail;

static FILES: [File; 5] = [
    ("anchor.cer", ANCHOR),
    ("authority.cer", AUTHORITY),
    ("origin.roa", ORIGIN),
    ("origin.verdicts", VERDICTS),
    ("empty", b""),
];

/// What is said of the ROA where it is good.
const ORIGIN_YES: Said = Said::Yes(
    "yes\nroa\nas AS64496\norigin 192.0.2.0/24-26\norigin 2001:db8::/32-48\n",
);

/// What the program with signatures says of an object of another kind.
const OTHER_TYPE: Said = Said::No("malformed: eContentType is not the one that is asked for\n");

const NOT_ISSUED: Said = Said::No("refused: not issued by this CA\n");

/// Objects that are shown, and checked by verdicts and by signatures.
static ROWS: [Row; 23] = [
    (
        By::Objects,
        "show roa origin.roa",
        Said::Yes(
            "roa\nas AS64496\norigin 192.0.2.0/24-26\norigin 2001:db8::/32-48\n\
             signing 2026-11-01T00:00:00Z\nee 1 D499B0BF9D1519CFF7E9C67B077CDAECD7CBCA67\n",
        ),
        1,
    ),
    (By::Objects, "show aspa origin.roa", MALFORMED, 1),
    (By::Verify, "show --kind aspa origin.roa", OTHER_TYPE, 1),
    (By::Objects, "show roa anchor.cer", MALFORMED, 1),
    (By::Objects, "show roa empty", MALFORMED, 1),
    (
        By::Objects,
        "show roa gone.roa",
        Said::Error(2, "cannot read gone.roa\n"),
        1,
    ),
    (
        By::Verify,
        "show gone.roa",
        Said::Unread("cannot be read: no such file\n"),
        1,
    ),
    (By::Objects, "show roa large", OUT_OF_MEMORY, 1),
    (
        By::Objects,
        "check roa origin.roa 20270101000000Z origin.verdicts anchor.cer authority.cer",
        ORIGIN_YES,
        4,
    ),
    (
        By::Objects,
        "check roa origin.roa 20270101000000Z origin.verdicts anchor.cer",
        NOT_ISSUED,
        3,
    ),
    (
        By::Objects,
        "check roa origin.roa 20260101000000Z origin.verdicts anchor.cer authority.cer",
        ORIGIN_YES,
        4,
    ),
    (
        By::Objects,
        "check roa origin.roa 20251231235959Z origin.verdicts anchor.cer authority.cer",
        Said::No("issuer refused: certificate is not yet valid\n"),
        4,
    ),
    (
        By::Objects,
        "check roa f 20240601120000Z v t c",
        Said::Error(2, "cannot read f\n"),
        1,
    ),
    (
        By::Objects,
        "check roa empty 20240601120000Z v t c",
        Said::Error(2, "cannot read v\n"),
        2,
    ),
    (
        By::Verify,
        "check --ta anchor.cer --ca authority.cer origin.roa",
        ORIGIN_YES,
        3,
    ),
    (
        By::Verify,
        "check --at 20270101000000Z --ta anchor.cer --ca=authority.cer origin.roa",
        ORIGIN_YES,
        3,
    ),
    (
        By::Verify,
        "check --at=2027-01-01T00:00:00Z --ta anchor.cer --ca authority.cer -- origin.roa",
        ORIGIN_YES,
        3,
    ),
    (
        By::WithoutClock,
        "check --ta anchor.cer --ca authority.cer origin.roa",
        Said::Error(2, "cannot read the clock\n"),
        0,
    ),
    (
        By::Verify,
        "check --ta anchor.cer origin.roa",
        Said::No(
            "refused: not issued by this CA: its issuer has the key \
             C78637259551E49913A293A978985D33FBECF9C1 (rsync://rpki.example.net/anchor/authority.cer), \
             and anchor.cer has 1A3A434D3CB238F39188C4ED212421A717BB7C97: give its CA before it, with --ca\n",
        ),
        2,
    ),
    (
        By::Verify,
        "check --kind manifest --ta anchor.cer --ca authority.cer origin.roa",
        OTHER_TYPE,
        3,
    ),
    (
        By::Verify,
        "verdicts --ta anchor.cer --ca authority.cer origin.roa",
        Said::Yes(
            "6ba2c1362dc62e57a317e138d9fe4a9a13ae609ebb18c813a7f7312affe3ee9b \
             8e78cc0b387f97fe9ac0b67fe8027bf699a15c279d2454728c22b280591a3307 \
             f8b9fa761f7cf3c54f2f6e421351604c52e2727ea7b69ca6ec8d44e74afa6f85\n\
             6ba2c1362dc62e57a317e138d9fe4a9a13ae609ebb18c813a7f7312affe3ee9b \
             b678aaaeb90d8e9537cbf52dcdf521a6a2f2c045f3220e7a61a9bf9015a01f86 \
             1442bbe5ee215d67b78ff279be3385369c47de8ffc3543e798d7939f53d4feb4\n\
             b6d278583e68e63e963bc22cac55fa8412e1bdc63caf00cff064ddf33bf8b367 \
             9f64298f2b048138e336b6d46f306abdfa308a0b559937f04dc6a8fd228b4b26 \
             c760f1c600c1dc3be834a9dffb385ef84d697b1eff97a9debcbe19eaa241ca85\n\
             1aa81722b0b893327f7c3f0a67c92905261c975b8e7f80c86751477bcd843b84 \
             9c6f9894667414cd6a44ea23083288f30e7c1f2cbc4375b5226d604fc0702a85 \
             68bdf0aee949edc711b33b6c65ac2d74be850008e4c50fc0e05271ca790638b7\n",
        ),
        3,
    ),
    (
        By::Verify,
        "verdicts --ta anchor.cer anchor.cer",
        MALFORMED,
        2,
    ),
    (
        By::Verify,
        "verdicts --ta anchor.cer gone.roa",
        Said::Error(4, "cannot read gone.roa: no such file\n"),
        1,
    ),
];

#[test]
fn objects_are_shown_and_checked(rt: HostRuntime) -> Result<(), Fail> {
    assert_eq!(rt; answered(rt.alloc(), &FILES, &ROWS)?, ROWS.len());
    Ok(())
}
