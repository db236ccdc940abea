//! Attestations that are shown, checked, and whose good signatures are listed.

use super::attested::{ALL, ALL_IN_BER, EMPTY, NOTHING, NOTHING_AND_MORE, UNNAMED, WHOLE};
use super::granted::{ANCHOR, AUTHORITY, GRANTED, GRANTED_VERDICTS, OTHER_TAL, TAL};
use super::rows::{By, File, MALFORMED, OUT_OF_MEMORY, Row, Said, USAGE, answered};
use std::test::Fail;

static FILES: [File; 16] = [
    ("nothing", NOTHING),
    ("nothing-and-more", NOTHING_AND_MORE),
    (
        "nothing-cut",
        b"\x30\x37\x31\x00\x30\x04\xA0\x02\x30\x00\x30\x0B\x06\x09\x60\x86",
    ),
    ("unnamed", UNNAMED),
    ("all", ALL),
    ("all-in-ber", ALL_IN_BER),
    ("whole.rta", WHOLE),
    ("empty.rta", EMPTY),
    ("granted.rta", GRANTED),
    ("verdicts", GRANTED_VERDICTS),
    ("tal", TAL),
    ("other:tal", OTHER_TAL),
    ("anchor.cer", ANCHOR),
    ("ca.cer", AUTHORITY),
    ("no-verdicts", b""),
    ("octet", b"x"),
];

/// What is said of the content that names nothing.
const NOTHING_SHOWN: Said = Said::Yes(
    "rta\ndigest 0000000000000000000000000000000000000000000000000000000000000000\n",
);

const ALL_SHOWN: Said = Said::Yes(
    "rta\nkey 0102030405060708090A0B0C0D0E0F1011121314\n\
     key E1E2E3E4E5E6E7E8E9EAEBECEDEEEFF0F1F2F3F4\n\
     as AS64496\nas AS64498-AS64511\nv4 192.0.2.0/24\nv6 2001:db8::/32\ndigest 68617368\n",
);

const WHOLE_SHOWN: Said = Said::Yes(
    "rta\ndigest 0000000000000000000000000000000000000000000000000000000000000000\n\
     certificates 2\ncrls 1\nsigners 2\n",
);

/// What is said of it and of what it carries.
const CARRIED_SHOWN: Said = Said::Yes(
    "rta\ndigest 0000000000000000000000000000000000000000000000000000000000000000\n\
     certificates 2\ncrls 1\nsigners 2\n\
     certificate\nserial 03\nvalid-from 2024-01-01T00:00:00Z\n\
     valid-until 2034-12-31T23:59:59Z\nkey-id 461D6580E38CCB6DC72699B6C945E53831DCDF03\n\
     authority-key-id 07AAE1B618F604C684EE3189FA1723BEF8656FE4\nee\n\
     certificate\nserial 02\nvalid-from 2024-01-01T00:00:00Z\n\
     valid-until 2034-12-31T23:59:59Z\nkey-id 07AAE1B618F604C684EE3189FA1723BEF8656FE4\n\
     authority-key-id CB473678976F425D6EC1339838F11011007AD27D\nca\n\
     crl\nnumber 0C\nthis-update 2024-01-01T00:00:00Z\nnext-update 2024-01-08T00:00:00Z\n\
     authority-key-id 07AAE1B618F604C684EE3189FA1723BEF8656FE4\n\
     revoked 04 2024-01-01T00:00:00Z\nrevoked 07 2024-01-01T00:00:00Z\n",
);

/// The same in JSON.
const CARRIED_IN_JSON: Said = Said::Yes(
    "{\"asns\":[],\"certificates\":[{\"aki\":\"07AAE1B618F604C684EE3189FA1723BEF8656FE4\",\
     \"ca\":false,\"cert_serial\":\"03\",\"ski\":\"461D6580E38CCB6DC72699B6C945E53831DCDF03\",\
     \"valid_since\":\"2024-01-01T00:00:00Z\",\"valid_until\":\"2034-12-31T23:59:59Z\"},\
     {\"aki\":\"CB473678976F425D6EC1339838F11011007AD27D\",\"ca\":true,\"cert_serial\":\"02\",\
     \"ski\":\"07AAE1B618F604C684EE3189FA1723BEF8656FE4\",\
     \"valid_since\":\"2024-01-01T00:00:00Z\",\"valid_until\":\"2034-12-31T23:59:59Z\"}],\
     \"crls\":[{\"aki\":\"07AAE1B618F604C684EE3189FA1723BEF8656FE4\",\"crl_serial\":\"0C\",\
     \"revoked_certs\":[{\"date\":\"2024-01-01T00:00:00Z\",\"serial\":\"04\"},\
     {\"date\":\"2024-01-01T00:00:00Z\",\"serial\":\"07\"}],\
     \"valid_since\":\"2024-01-01T00:00:00Z\",\"valid_until\":\"2024-01-08T00:00:00Z\"}],\
     \"digest\":\"0000000000000000000000000000000000000000000000000000000000000000\",\
     \"file\":\"whole.rta\",\"ipv4\":[],\"ipv6\":[],\"keys\":[],\"signers\":2,\
     \"type\":\"rta\"}\n",
);

static SHOWN: [Row; 15] = [
    (By::Objects, "content rta nothing", NOTHING_SHOWN, 1),
    (
        By::Objects,
        "content rta nothing-and-more",
        NOTHING_SHOWN,
        1,
    ),
    (By::Objects, "content rta nothing-cut", MALFORMED, 1),
    (By::Objects, "content rta all", ALL_SHOWN, 1),
    (By::Objects, "--relaxed content rta all", ALL_SHOWN, 1),
    (
        By::Objects,
        "--relaxed content rta all-in-ber",
        MALFORMED,
        1,
    ),
    (By::Objects, "content rta unnamed", MALFORMED, 1),
    (By::Objects, "content rta empty.rta", MALFORMED, 1),
    (
        By::Objects,
        "show rta empty.rta",
        Said::Yes(
            "rta\ndigest 0000000000000000000000000000000000000000000000000000000000000000\n\
             certificates 0\ncrls 0\nsigners 0\n",
        ),
        1,
    ),
    (By::Objects, "show rta whole.rta", WHOLE_SHOWN, 1),
    (By::Objects, "--relaxed show rta whole.rta", WHOLE_SHOWN, 1),
    (By::Objects, "show rta nothing", MALFORMED, 1),
    (By::Verify, "show whole.rta", CARRIED_SHOWN, 1),
    (By::Verify, "show --kind rta whole.rta", CARRIED_SHOWN, 1),
    (By::Verify, "show --json whole.rta", CARRIED_IN_JSON, 1),
];

/// What is said where it is granted.
const YES: Said = Said::Yes(
    "yes\nrta\nkey 7F028DDBB42E47AC2CD00E27A37BD191F1C2B925\n\
     key F2CD4B0184C354C1D748CE5D617DB44F3FBF4110\nas AS15-AS20\nas AS64500\ndigest 68617368\n",
);

const EMPTY_YES: Said = Said::Yes(
    "yes\nrta\ndigest 0000000000000000000000000000000000000000000000000000000000000000\n",
);

const NOT_ANCHORED: Said = Said::No("refused: RTA could not be validated\n");

const NO_ISSUER: Said = Said::No("issuer refused: malformed\n");

/// What is said where no revocation list is a CA's own, since its signature is not good.
const MISSING_CRL: Said = Said::No("refused: missing CRL\n");

static CHECKED: [Row; 36] = [
    (
        By::Objects,
        "rta granted.rta 20270101000000Z verdicts tal=tal ca=anchor.cer:ca.cer",
        YES,
        5,
    ),
    (
        By::Objects,
        "rta granted.rta 20270101000000Z verdicts ca=anchor.cer:ca.cer tal=other:tal tal=tal",
        YES,
        6,
    ),
    (
        By::Objects,
        "--relaxed rta granted.rta 20270101000000Z verdicts tal=tal ca=anchor.cer:ca.cer",
        YES,
        5,
    ),
    (
        By::Objects,
        "rta granted.rta 20270101000000Z verdicts tal=tal",
        NOT_ANCHORED,
        3,
    ),
    (
        By::Objects,
        "rta granted.rta 20270101000000Z verdicts tal=other:tal ca=anchor.cer:ca.cer",
        NOT_ANCHORED,
        5,
    ),
    (
        By::Objects,
        "rta granted.rta 20270101000000Z verdicts tal=tal ca=anchor.cer",
        NOT_ANCHORED,
        4,
    ),
    (
        By::Objects,
        "rta granted.rta 20270101000000Z verdicts tal=anchor.cer ca=tal",
        MALFORMED,
        4,
    ),
    (
        By::Objects,
        "rta granted.rta 20270101000000Z verdicts ca=tal tal=anchor.cer",
        NO_ISSUER,
        4,
    ),
    (
        By::Objects,
        "rta granted.rta 20270101000000Z verdicts tal=tal ca=anchor.cer:anchor.cer",
        Said::No("issuer refused: missing AKI\n"),
        5,
    ),
    (
        By::Objects,
        "rta granted.rta 20270101000000Z verdicts tal=tal ca=anchor.cer:ca.cer:verdicts",
        NO_ISSUER,
        6,
    ),
    (
        By::Objects,
        "rta granted.rta 20270101000000Z no-verdicts tal=tal",
        MISSING_CRL,
        3,
    ),
    (
        By::Objects,
        "rta granted.rta 20270101000000Z verdicts tal=none",
        Said::Error(2, "cannot read none\n"),
        3,
    ),
    (
        By::Objects,
        "rta granted.rta 20270101000000Z verdicts tal=anchor.cer ca=tal:gone",
        Said::Error(2, "cannot read gone\n"),
        5,
    ),
    (
        By::Objects,
        "rta granted.rta 20270101000000Z verdicts tal=other:tal ca=other:tal",
        Said::Error(2, "cannot read other\n"),
        4,
    ),
    (
        By::Objects,
        "rta granted.rta 20270101000000Z verdicts tal=large",
        OUT_OF_MEMORY,
        3,
    ),
    (
        By::Objects,
        "rta granted.rta 20270101000000Z tal tal=anchor.cer",
        Said::Error(2, "bad verdicts\n"),
        3,
    ),
    (
        By::Objects,
        "rta octet 20270101000000Z octet ca=octet:no-verdicts tal=t",
        Said::Error(2, "cannot read t\n"),
        5,
    ),
    (
        By::Objects,
        "rta granted.rta 20270101000000Z verdicts ",
        USAGE,
        0,
    ),
    (
        By::Objects,
        "rta granted.rta 20270101000000Z verdicts anchor.cer",
        USAGE,
        0,
    ),
    (
        By::Objects,
        "rta granted.rta 20270101000000Z verdicts tal",
        USAGE,
        0,
    ),
    (
        By::Objects,
        "rta granted.rta 20270101000000Z verdicts tal=",
        USAGE,
        0,
    ),
    (
        By::Objects,
        "rta granted.rta 20270101000000Z verdicts ca=anchor.cer:",
        USAGE,
        0,
    ),
    (
        By::Objects,
        "rta granted.rta 20270101000000Z verdicts ca=:anchor.cer",
        USAGE,
        0,
    ),
    (
        By::Objects,
        "rta granted.rta 20270101000000Z verdicts ca=anchor.cer::ca.cer",
        USAGE,
        0,
    ),
    (
        By::Objects,
        "rta granted.rta 20270101000000Z verdicts tal=tal TAL=tal",
        USAGE,
        0,
    ),
    (
        By::Objects,
        "rta granted.rta 20270101000000Z verdicts tal=tal with ca=anchor.cer",
        USAGE,
        0,
    ),
    (
        By::Objects,
        "rta granted.rta 20270101000000Z verdicts x=y",
        USAGE,
        0,
    ),
    (
        By::Objects,
        "rta granted.rta 20270101000000Z verdicts",
        USAGE,
        0,
    ),
    (
        By::Objects,
        "rta granted.rta 20270229000000Z verdicts tal=tal",
        USAGE,
        0,
    ),
    (
        By::Objects,
        "rta granted.rta now verdicts tal=tal",
        USAGE,
        0,
    ),
    (
        By::Objects,
        "rta empty.rta 20270101000000Z verdicts tal=tal",
        EMPTY_YES,
        3,
    ),
    (
        By::Verify,
        "rta --at 20270101000000Z empty.rta tal=tal",
        EMPTY_YES,
        2,
    ),
    (By::Verify, "rta empty.rta tal=tal", EMPTY_YES, 2),
    (
        By::WithoutClock,
        "rta empty.rta tal=tal",
        Said::Error(2, "cannot read the clock\n"),
        0,
    ),
    (
        By::Verify,
        "rta --at 20270101000000Z granted.rta tal=tal",
        MISSING_CRL,
        2,
    ),
    (By::Verify, "rta anchor.cer tal=tal", MALFORMED, 2),
];

/// A list without a line: no signature of these files is one by RSA.
const NONE_LISTED: Said = Said::Yes("");

static LISTED: [Row; 6] = [
    (
        By::Verify,
        "verdicts granted.rta tal=tal ca=anchor.cer:ca.cer",
        NONE_LISTED,
        3,
    ),
    (
        By::Verify,
        "verdicts empty.rta tal=anchor.cer",
        NONE_LISTED,
        1,
    ),
    (By::Verify, "verdicts anchor.cer tal=tal", MALFORMED, 1),
    (
        By::Verify,
        "verdicts empty.rta tal=tal ca=tal",
        NO_ISSUER,
        2,
    ),
    (
        By::Verify,
        "verdicts empty.rta ca=anchor.cer:none",
        Said::Error(4, "cannot read none: no such file\n"),
        2,
    ),
    (By::Objects, "verdicts rta empty.rta tal=tal", USAGE, 0),
];

#[test]
fn attestations_are_shown(rt: HostRuntime) -> Result<(), Fail> {
    assert_eq!(rt; answered(rt.alloc(), &FILES, &SHOWN)?, SHOWN.len());
    Ok(())
}

#[test]
fn attestations_are_granted(rt: HostRuntime) -> Result<(), Fail> {
    assert_eq!(rt; answered(rt.alloc(), &FILES, &CHECKED)?, CHECKED.len());
    Ok(())
}

#[test]
fn good_signatures_of_attestations_are_listed(rt: HostRuntime) -> Result<(), Fail> {
    assert_eq!(rt; answered(rt.alloc(), &FILES, &LISTED)?, LISTED.len());
    Ok(())
}
