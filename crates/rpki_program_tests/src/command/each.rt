//! Checks and shows of several files, in lines and in JSON.
//!
//! The files are those of `examples/`, which `openssl` signed.

use super::octets::{ANCHOR, AUTHORITY, LOCATOR, ORIGIN, REVOKING};
use super::rows::{By, File, OUT_OF_MEMORY, Row, Said, answered};
use std::test::Fail;

static FILES: [File; 7] = [
    ("ta.cer", ANCHOR),
    ("ca.cer", AUTHORITY),
    ("origin.roa", ORIGIN),
    ("other.roa", ANCHOR),
    ("anchor.tal", LOCATOR),
    ("other.tal", b"x"),
    ("revoking.crl", REVOKING),
];

/// What is said of the good one alone.
const YES: Said = Said::Yes(
    "yes\nroa\nas AS64496\norigin 192.0.2.0/24-26\norigin 2001:db8::/32-48\n",
);

/// What is said of it and of one that is none.
const BOTH: Said = Said::No(
    "origin.roa: yes\n  roa\n  as AS64496\n  origin 192.0.2.0/24-26\n  \
     origin 2001:db8::/32-48\nother.roa: malformed\n",
);

/// The same in JSON.
const BOTH_IN_JSON: Said = Said::No(
    "{\"aia\":\"rsync://rpki.example.net/anchor/authority.cer\",\
     \"aki\":\"C78637259551E49913A293A978985D33FBECF9C1\",\"cert_ipv4\":[\"192.0.2.0/24\"],\
     \"cert_ipv6\":[\"2001:db8::/32\"],\"cert_serial\":\"01\",\
     \"crl\":\"rsync://rpki.example.net/authority/authority.crl\",\"file\":\"origin.roa\",\
     \"sia\":\"rsync://rpki.example.net/authority/origin.roa\",\
     \"signing_time\":\"2026-11-01T00:00:00Z\",\
     \"ski\":\"D499B0BF9D1519CFF7E9C67B077CDAECD7CBCA67\",\"type\":\"roa\",\"valid\":true,\
     \"valid_since\":\"2026-01-01T00:00:00Z\",\"valid_until\":\"2040-01-01T00:00:00Z\",\
     \"vrps\":[{\"asn\":\"AS64496\",\"maxLength\":26,\"prefix\":\"192.0.2.0/24\"},\
     {\"asn\":\"AS64496\",\"maxLength\":48,\"prefix\":\"2001:db8::/32\"}]}\n\
     {\"file\":\"other.roa\",\"reason\":\"malformed\",\"type\":\"roa\",\"valid\":false}\n",
);

/// What is said of it and of one that is not there.
const WITH_GONE: Said = Said::Unread(
    "origin.roa: yes\n  roa\n  as AS64496\n  origin 192.0.2.0/24-26\n  \
     origin 2001:db8::/32-48\ngone.roa: cannot be read: no such file\n",
);

/// What is said of it where a list revokes the certificate of its signer.
const REVOKED: Said = Said::No("refused: revoked by revoking.crl\n");

/// What is said of a list that is none.
const NO_LIST: Said = Said::Error(2, "bad list other.roa\n");

/// What is said in JSON of a file under certificates that make no issuer.
const UNISSUED_IN_JSON: Said = Said::No(
    "{\"file\":\"origin.roa\",\"reason\":\"issuer refused: origin.roa: malformed\",\
     \"type\":\"roa\",\"valid\":false}\n",
);

/// What a file of each of two kinds says, and that a third is none, in JSON.
const SHOWN_IN_JSON: Said = Said::No(
    "{\"aia\":\"rsync://rpki.example.net/anchor/authority.cer\",\
     \"aki\":\"C78637259551E49913A293A978985D33FBECF9C1\",\"cert_ipv4\":[\"192.0.2.0/24\"],\
     \"cert_ipv6\":[\"2001:db8::/32\"],\"cert_serial\":\"01\",\
     \"crl\":\"rsync://rpki.example.net/authority/authority.crl\",\"file\":\"origin.roa\",\
     \"sia\":\"rsync://rpki.example.net/authority/origin.roa\",\
     \"signing_time\":\"2026-11-01T00:00:00Z\",\
     \"ski\":\"D499B0BF9D1519CFF7E9C67B077CDAECD7CBCA67\",\"type\":\"roa\",\
     \"valid_since\":\"2026-01-01T00:00:00Z\",\"valid_until\":\"2040-01-01T00:00:00Z\",\
     \"vrps\":[{\"asn\":\"AS64496\",\"maxLength\":26,\"prefix\":\"192.0.2.0/24\"},\
     {\"asn\":\"AS64496\",\"maxLength\":48,\"prefix\":\"2001:db8::/32\"}]}\n\
     {\"file\":\"other.roa\",\"reason\":\"malformed\",\"type\":\"roa\",\"valid\":false}\n\
     {\"asns\":[\"AS0-AS4294967295\"],\"ca\":true,\
     \"carepository\":\"rsync://rpki.example.net/anchor/\",\"cert_serial\":\"01\",\
     \"file\":\"ta.cer\",\"ipv4\":[\"0.0.0.0/0\"],\"ipv6\":[\"::/0\"],\
     \"manifest\":\"rsync://rpki.example.net/anchor/anchor.mft\",\
     \"ski\":\"1A3A434D3CB238F39188C4ED212421A717BB7C97\",\"type\":\"certificate\",\
     \"valid_since\":\"2026-01-01T00:00:00Z\",\"valid_until\":\"2040-01-01T00:00:00Z\"}\n",
);

/// What the good one says, with the certificate of its signer.
const SHOWN: Said = Said::Yes(
    "roa\nas AS64496\norigin 192.0.2.0/24-26\norigin 2001:db8::/32-48\n\
     signing 2026-11-01T00:00:00Z\nee 01 D499B0BF9D1519CFF7E9C67B077CDAECD7CBCA67\n\
     certificate\nserial 01\nvalid-from 2026-01-01T00:00:00Z\n\
     valid-until 2040-01-01T00:00:00Z\n\
     key-id D499B0BF9D1519CFF7E9C67B077CDAECD7CBCA67\n\
     authority-key-id C78637259551E49913A293A978985D33FBECF9C1\nee\n\
     signed-object rsync://rpki.example.net/authority/origin.roa\n\
     ca-issuers rsync://rpki.example.net/anchor/authority.cer\n\
     crl rsync://rpki.example.net/authority/authority.crl\n\
     ipv4 192.0.2.0/24\nipv6 2001:db8::/32\n",
);

static ROWS: [Row; 19] = [
    (
        By::Verify,
        "check --ta ta.cer --ca ca.cer --at 2026-11-28T00:00:00Z origin.roa",
        YES,
        3,
    ),
    (
        By::Verify,
        "check --ta ta.cer --ca ca.cer origin.roa",
        YES,
        3,
    ),
    (
        By::Verify,
        "check origin.roa --at now --ca ca.cer --ta ta.cer --kind roa",
        YES,
        3,
    ),
    (
        By::Verify,
        "check --relaxed --ta ta.cer --ca ca.cer --at 2026-11-28T00:00:00Z origin.roa",
        YES,
        3,
    ),
    (
        By::WithoutClock,
        "check --ta ta.cer --ca ca.cer origin.roa",
        Said::Error(2, "cannot read the clock\n"),
        0,
    ),
    (
        By::Verify,
        "check --ta ta.cer --ca ca.cer --at 2026-11-28T00:00:00Z --tal anchor.tal origin.roa",
        YES,
        4,
    ),
    (
        By::Verify,
        "check --ta ta.cer --ca ca.cer --at 2026-11-28T00:00:00Z --crl revoking.crl origin.roa",
        REVOKED,
        4,
    ),
    (
        By::Verify,
        "check --ta ta.cer --ca ca.cer --at 2026-11-28T00:00:00Z --crl other.roa origin.roa",
        NO_LIST,
        3,
    ),
    (
        By::Verify,
        "check --ta ta.cer --ca ca.cer --at 2026-11-28T00:00:00Z origin.roa other.roa",
        BOTH,
        4,
    ),
    (
        By::Verify,
        "check --ta ta.cer --ca ca.cer --at 2026-11-28T00:00:00Z origin.roa --json other.roa",
        BOTH_IN_JSON,
        4,
    ),
    (
        By::Verify,
        "check --ta ta.cer --ca ca.cer --at 2026-11-28T00:00:00Z --ca origin.roa origin.roa --json",
        UNISSUED_IN_JSON,
        3,
    ),
    (
        By::Verify,
        "check --ta ta.cer --ca ca.cer --at 2026-11-28T00:00:00Z --tal other.tal origin.roa",
        Said::Error(2, "bad locator other.tal\n"),
        3,
    ),
    (
        By::Verify,
        "check --ta ta.cer --ca ca.cer --at 2026-11-28T00:00:00Z origin.roa gone.roa",
        WITH_GONE,
        4,
    ),
    (
        By::Verify,
        "check --ta ta.cer --ca ca.cer --at 2026-11-28T00:00:00Z --crl gone.crl gone.roa",
        Said::Error(4, "cannot read gone.crl: no such file\n"),
        3,
    ),
    (
        By::Verify,
        "check --ta gone.cer --ca ca.cer origin.roa",
        Said::Error(4, "cannot read gone.cer: no such file\n"),
        1,
    ),
    (
        By::Verify,
        "check --ta ta.cer --ca ca.cer --at 2026-11-28T00:00:00Z --kind roa large",
        OUT_OF_MEMORY,
        3,
    ),
    (By::Verify, "show origin.roa", SHOWN, 1),
    (By::Verify, "show --kind roa origin.roa", SHOWN, 1),
    (
        By::Verify,
        "show origin.roa other.roa --json ta.cer",
        SHOWN_IN_JSON,
        3,
    ),
];

#[test]
fn several_files_are_checked(rt: HostRuntime) -> Result<(), Fail> {
    assert_eq!(rt; answered(rt.alloc(), &FILES, &ROWS)?, ROWS.len());
    Ok(())
}
