//! Objects of another program that are checked by verdicts, under a trust anchor whose signatures
//! are not by RSA.

use super::rows::{By, File, MALFORMED, OUT_OF_MEMORY, Row, Said, answered};
use super::signed::{
    ASPA, ASPA_NOT_HELD, CHECKLIST, FEW_NUMBERS, MANIFEST, ROA, ROA_IN_BER, SIGNED_VERDICTS,
    TRUST_ANCHOR,
};
use std::test::Fail;

static FILES: [File; 12] = [
    ("ta.cer", TRUST_ANCHOR),
    ("few.cer", FEW_NUMBERS),
    ("a.asa", ASPA),
    ("a.roa", ROA),
    ("ber.roa", ROA_IN_BER),
    ("a.mft", MANIFEST),
    ("a.sig", CHECKLIST),
    ("few.asa", ASPA_NOT_HELD),
    ("verdicts", SIGNED_VERDICTS),
    ("empty", b""),
    ("one-octet", b"x"),
    (
        "short-line",
        b"6009a4f91b943a2732f78d551fc6e98b304598a8aca84ac2f93bdfa810a8235e\n",
    ),
];

/// What the program with signatures says of an object of another kind.
const OTHER_TYPE: Said = Said::No("malformed: eContentType is not the one that is asked for\n");

const NO_ISSUER: Said = Said::No("issuer refused: malformed\n");

const BAD_VERDICTS: Said = Said::Error(2, "bad verdicts\n");

const ROA_YES: Said = Said::Yes("yes\nroa\nas AS64496\norigin 192.0.2.0/24\n");

/// Objects that are shown, and checked by signatures and by verdicts.
static ROWS: [Row; 29] = [
    (By::Objects, "show roa ber.roa", MALFORMED, 1),
    (By::Objects, "show manifest a.sig", MALFORMED, 1),
    (By::Objects, "show rsc a.mft", MALFORMED, 1),
    (By::Verify, "show --kind manifest a.sig", OTHER_TYPE, 1),
    (
        By::Verify,
        "check --at 20240601120000Z --ta ta.cer a.roa",
        Said::No("issuer refused: ta.cer: signature is not valid\n"),
        1,
    ),
    (By::Verify, "verdicts --ta ta.cer a.roa", Said::Yes(""), 2),
    (
        By::Objects,
        "check aspa a.asa 20240601120000Z verdicts ta.cer",
        Said::Yes(
            "yes\naspa\ncustomer AS15562\n\
             provider AS2914\nprovider AS8283\nprovider AS51088\nprovider AS206238\n",
        ),
        3,
    ),
    (
        By::Objects,
        "check roa a.roa 20240601120000Z verdicts ta.cer",
        ROA_YES,
        3,
    ),
    (
        By::Objects,
        "check manifest a.mft 20240601120000Z verdicts ta.cer",
        Said::Yes(
            "yes\nmanifest\nnumber c\nthis 2024-01-01T00:00:00Z\nnext 2024-01-08T00:00:00Z\n\
             file file.cer 68617368\nfile file.cer 68617368\n",
        ),
        3,
    ),
    (
        By::Objects,
        "check rsc a.sig 20240601120000Z verdicts ta.cer",
        Said::Yes("yes\nrsc\nas AS64496\nunnamed 68617368\n"),
        3,
    ),
    (
        By::Objects,
        "--registered check manifest a.mft 20240601120000Z verdicts ta.cer",
        MALFORMED,
        3,
    ),
    (
        By::Objects,
        "check roa ber.roa 20240601120000Z verdicts ta.cer",
        MALFORMED,
        3,
    ),
    (
        By::Objects,
        "--relaxed check roa ber.roa 20240601120000Z verdicts ta.cer",
        ROA_YES,
        3,
    ),
    (
        By::Objects,
        "--relaxed check roa a.roa 20240601120000Z verdicts ta.cer",
        ROA_YES,
        3,
    ),
    (
        By::Objects,
        "check aspa a.roa 20240601120000Z verdicts ta.cer",
        MALFORMED,
        3,
    ),
    (
        By::Objects,
        "check rsc a.roa 20240601120000Z verdicts ta.cer",
        MALFORMED,
        3,
    ),
    (
        By::Objects,
        "check aspa few.asa 20240601120000Z verdicts few.cer",
        Said::No("refused: customer AS not held\n"),
        3,
    ),
    (
        By::Objects,
        "check roa a.roa 20300101000000Z verdicts ta.cer",
        Said::No("issuer refused: certificate has expired\n"),
        3,
    ),
    (
        By::Objects,
        "check roa a.roa 20240601120000Z empty ta.cer",
        Said::No("issuer refused: signature is not valid\n"),
        3,
    ),
    (
        By::Objects,
        "check roa a.roa 20240601120000Z verdicts a.roa",
        NO_ISSUER,
        3,
    ),
    (
        By::Objects,
        "check roa a.roa 20240601120000Z verdicts ta.cer empty",
        NO_ISSUER,
        4,
    ),
    (
        By::Objects,
        "check roa a.roa 20240601120000Z verdicts ta.cer ta.cer",
        Said::No("issuer refused: missing AKI\n"),
        4,
    ),
    (
        By::Objects,
        "check roa a.roa 20240601120000Z one-octet ta.cer",
        BAD_VERDICTS,
        3,
    ),
    (
        By::Objects,
        "check roa a.roa 20240601120000Z short-line empty",
        BAD_VERDICTS,
        3,
    ),
    (
        By::Objects,
        "check roa a.roa 20240601120000Z empty empty",
        NO_ISSUER,
        3,
    ),
    (
        By::Objects,
        "check roa empty 20240601120000Z one-octet t c",
        Said::Error(2, "cannot read t\n"),
        3,
    ),
    (
        By::Objects,
        "check roa empty 20240601120000Z one-octet empty c",
        Said::Error(2, "cannot read c\n"),
        4,
    ),
    (
        By::Objects,
        "check roa empty 20240601120000Z one-octet empty empty",
        BAD_VERDICTS,
        4,
    ),
    (
        By::Objects,
        "check roa a.roa 20240601120000Z verdicts large",
        OUT_OF_MEMORY,
        3,
    ),
];

#[test]
fn objects_are_checked_by_verdicts(rt: HostRuntime) -> Result<(), Fail> {
    assert_eq!(rt; answered(rt.alloc(), &FILES, &ROWS)?, ROWS.len());
    Ok(())
}
