//! Certificates and revocation lists that are shown.
//!
//! The lines say what `openssl x509 -text -serial` and `openssl crl -text -crlnumber` print of the
//! same octets, in this program's words.

use super::issued_octets::{ANCHOR_CRL, INHERITS, RANGES, REVOKED, ROUTER};
use super::octets::{ANCHOR, AUTHORITY, ORIGIN};
use super::rows::{By, File, MALFORMED, OUT_OF_MEMORY, Row, Said, USAGE, answered};
use std::test::Fail;

static FILES: [File; 10] = [
    ("anchor.cer", ANCHOR),
    ("authority.cer", AUTHORITY),
    ("ranges.cer", RANGES),
    ("inherits.cer", INHERITS),
    ("router.cer", ROUTER),
    (
        "cut.cer",
        b"\x30\x82\x04\xB8\x30\x82\x03\xA0\xA0\x03\x02\x01\x02",
    ),
    ("origin.roa", ORIGIN),
    ("anchor.crl", ANCHOR_CRL),
    ("revoked.crl", REVOKED),
    ("cut.crl", b"\x30\x82\x01\xEF\x30\x81\xD8\x02\x01\x01"),
];

const ANCHOR_SHOWN: Said = Said::Yes(
    "certificate\nserial 01\n\
     valid-from 2026-01-01T00:00:00Z\nvalid-until 2040-01-01T00:00:00Z\n\
     key-id 1A3A434D3CB238F39188C4ED212421A717BB7C97\nca\n\
     ca-repository rsync://rpki.example.net/anchor/\n\
     rpki-manifest rsync://rpki.example.net/anchor/anchor.mft\n\
     as AS0-AS4294967295\nipv4 0.0.0.0/0\nipv6 ::/0\n",
);

const AUTHORITY_SHOWN: Said = Said::Yes(
    "certificate\nserial 02\n\
     valid-from 2026-01-01T00:00:00Z\nvalid-until 2040-01-01T00:00:00Z\n\
     key-id C78637259551E49913A293A978985D33FBECF9C1\n\
     authority-key-id 1A3A434D3CB238F39188C4ED212421A717BB7C97\nca\n\
     ca-repository rsync://rpki.example.net/authority/\n\
     rpki-manifest rsync://rpki.example.net/authority/authority.mft\n\
     ca-issuers rsync://rpki.example.net/anchor.cer\n\
     crl rsync://rpki.example.net/anchor/anchor.crl\n\
     as AS64496-AS64511\nipv4 192.0.2.0/24\nipv4 198.51.100.0/24\nipv6 2001:db8::/32\n",
);

const RANGES_SHOWN: Said = Said::Yes(
    "certificate\nserial 8F3C0AA1B2C3D4E5F60718293A4B5C6D7E8F9001\n\
     valid-from 2026-11-28T00:06:33Z\nvalid-until 2035-02-14T00:06:33Z\n\
     key-id 10B831B69C42BB996F88DAEE2C486492627E8E7D\n\
     authority-key-id 5A597F821F27B9C31B808012300F929EB67F3093\nca\n\
     ca-repository rsync://rpki.example.net/ranges/\n\
     rpki-manifest rsync://rpki.example.net/ranges/ranges.mft\n\
     rpki-notify https://rrdp.example.net/notification.xml\n\
     ca-issuers rsync://rpki.example.net/anchor.cer\n\
     crl rsync://rpki.example.net/anchor/anchor.crl\n\
     as AS64496-AS64500\nas AS64505\nas AS4294967295\n\
     ipv4 192.0.2.0/24\nipv4 198.51.100.1-198.51.100.6\nipv4 203.0.113.7/32\n\
     ipv6 2001:db8::/32\nipv6 2001:db9::1-2001:dba::\n",
);

const INHERITS_SHOWN: Said = Said::Yes(
    "certificate\nserial 0ABC\n\
     valid-from 2026-11-28T00:06:34Z\nvalid-until 2035-02-14T00:06:34Z\n\
     key-id 10B831B69C42BB996F88DAEE2C486492627E8E7D\n\
     authority-key-id 5A597F821F27B9C31B808012300F929EB67F3093\nee\n\
     signed-object rsync://rpki.example.net/anchor/anchor.mft\n\
     ca-issuers rsync://rpki.example.net/anchor.cer\n\
     crl rsync://rpki.example.net/anchor/anchor.crl\n\
     as inherit\nipv4 inherit\nipv6 inherit\n",
);

const ANCHOR_CRL_SHOWN: Said = Said::Yes(
    "crl\nnumber 01\n\
     this-update 2026-11-01T00:00:00Z\nnext-update 2036-01-01T00:00:00Z\n\
     authority-key-id 1A3A434D3CB238F39188C4ED212421A717BB7C97\n",
);

const REVOKED_SHOWN: Said = Said::Yes(
    "crl\nnumber 10A0\n\
     this-update 2026-05-01T00:00:00Z\nnext-update 2050-06-01T00:00:00Z\n\
     authority-key-id 5A597F821F27B9C31B808012300F929EB67F3093\n\
     revoked 07 2026-01-02T03:04:05Z\nrevoked 0ABC 2026-03-01T12:00:00Z\n\
     revoked 8F3C0AA1B2C3D4E5F60718293A4B5C6D7E8F9001 2026-04-15T06:30:05Z\n",
);

static ROWS: [Row; 19] = [
    (By::Verify, "show anchor.cer", ANCHOR_SHOWN, 1),
    (
        By::Verify,
        "show --kind certificate authority.cer",
        AUTHORITY_SHOWN,
        1,
    ),
    (
        By::Verify,
        "show authority.cer --relaxed",
        AUTHORITY_SHOWN,
        1,
    ),
    (
        By::Verify,
        "show --kind=certificate ranges.cer",
        RANGES_SHOWN,
        1,
    ),
    (By::Verify, "show ranges.cer", RANGES_SHOWN, 1),
    (By::Verify, "show inherits.cer", INHERITS_SHOWN, 1),
    (By::Verify, "show router.cer", MALFORMED, 1),
    (
        By::Verify,
        "show cut.cer",
        Said::No("malformed: ends early\n"),
        1,
    ),
    (
        By::Verify,
        "show --kind certificate origin.roa",
        MALFORMED,
        1,
    ),
    (
        By::Verify,
        "show --kind certificate revoked.crl",
        MALFORMED,
        1,
    ),
    (By::Verify, "show anchor.crl", ANCHOR_CRL_SHOWN, 1),
    (By::Verify, "show --kind crl revoked.crl", REVOKED_SHOWN, 1),
    (By::Verify, "show revoked.crl", REVOKED_SHOWN, 1),
    (
        By::Verify,
        "show cut.crl",
        Said::No("malformed: ends early\n"),
        1,
    ),
    (By::Verify, "show --kind crl anchor.cer", MALFORMED, 1),
    (
        By::Verify,
        "show --kind crl other",
        Said::Unread("cannot be read: no such file\n"),
        1,
    ),
    (By::Verify, "show --kind crl large", OUT_OF_MEMORY, 1),
    (By::Objects, "show certificate anchor.cer", USAGE, 0),
    (By::Objects, "show crl anchor.crl", USAGE, 0),
];

#[test]
fn certificates_and_lists_are_shown(rt: HostRuntime) -> Result<(), Fail> {
    assert_eq!(rt; answered(rt.alloc(), &FILES, &ROWS)?, ROWS.len());
    Ok(())
}
