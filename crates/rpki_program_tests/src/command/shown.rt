//! Contents and locators that are shown.

use super::octets::{
    CONTENT, CONTENT_AND_MORE, CONTENT_CUT, CONTENT_IN_BER, CUSTOMER_AS0, LARGEST_CUSTOMER,
    LARGEST_PROVIDER, WITHOUT_VERSION,
};
use super::rows::{By, File, MALFORMED, OUT_OF_MEMORY, Row, Said, answered};
use std::test::Fail;

static FILES: [File; 52] = [
    ("aspa", &CONTENT),
    ("aspa-in-ber", &CONTENT_IN_BER),
    ("aspa-and-more", &CONTENT_AND_MORE),
    ("aspa-cut", &CONTENT_CUT),
    ("aspa-without-version", &WITHOUT_VERSION),
    ("aspa-of-as0", &CUSTOMER_AS0),
    ("aspa-of-largest", &LARGEST_CUSTOMER),
    ("aspa-by-largest", &LARGEST_PROVIDER),
    (
        "aspa-as0-beside-another",
        b"0\x12\xA0\x03\x02\x01\x01\x02\x02<\xCA0\x07\x02\x01\x00\x02\x02 [",
    ),
    (
        "aspa-swapped",
        b"0\x13\xA0\x03\x02\x01\x01\x02\x02<\xCA0\x08\x02\x02 [\x02\x02\x0Bb",
    ),
    (
        "aspa-of-none",
        b"0\x0B\xA0\x03\x02\x01\x01\x02\x02<\xCA0\x00",
    ),
    (
        "aspa-as0-alone",
        b"0\x0E\xA0\x03\x02\x01\x01\x02\x02<\xCA0\x03\x02\x01\x00",
    ),
    (
        "aspa-provider-twice",
        b"0\x11\xA0\x03\x02\x01\x01\x02\x02<\xCA0\x06\x02\x01\x05\x02\x01\x05",
    ),
    (
        "aspa-customer-provides",
        b"0\x12\xA0\x03\x02\x01\x01\x02\x02<\xCA0\x07\x02\x01\x05\x02\x02<\xCA",
    ),
    (
        "aspa-version-0",
        b"0\x0D\xA0\x03\x02\x01\x00\x02\x01\x010\x03\x02\x01\x02",
    ),
    (
        "aspa-version-2",
        b"0\x0D\xA0\x03\x02\x01\x02\x02\x01\x010\x03\x02\x01\x02",
    ),
    (
        "roa",
        b"0\x17\x02\x03\x00\xFB\xF00\x100\x0E\x04\x02\x00\x010\x080\x06\x03\x04\x00\xC0\
      \x00\x02",
    ),
    (
        "roa-26",
        b"0\x1A\x02\x03\x00\xFB\xF00\x130\x11\x04\x02\x00\x010\x0B0\x09\x03\x04\x00\xC0\
      \x00\x02\x02\x01\x1A",
    ),
    (
        "roa-23",
        b"0\x1A\x02\x03\x00\xFB\xF00\x130\x11\x04\x02\x00\x010\x0B0\x09\x03\x04\x00\xC0\
      \x00\x02\x02\x01\x17",
    ),
    (
        "roa-33",
        b"0\x1A\x02\x03\x00\xFB\xF00\x130\x11\x04\x02\x00\x010\x0B0\x09\x03\x04\x00\xC0\
      \x00\x02\x02\x01!",
    ),
    (
        "roa-24",
        b"0\x1A\x02\x03\x00\xFB\xF00\x130\x11\x04\x02\x00\x010\x0B0\x09\x03\x04\x00\xC0\
      \x00\x02\x02\x01\x18",
    ),
    (
        "roa-32",
        b"0\x1A\x02\x03\x00\xFB\xF00\x130\x11\x04\x02\x00\x010\x0B0\x09\x03\x04\x00\xC0\
      \x00\x02\x02\x01 ",
    ),
    ("roa-empty", b"0\x07\x02\x03\x00\xFB\xF00\x00"),
    (
        "roa-ipv4-twice",
        b"0'\x02\x03\x00\xFB\xF00 0\x0E\x04\x02\x00\x010\x080\x06\x03\x04\x00\xC0\x00\x020\
      \x0E\x04\x02\x00\x010\x080\x06\x03\x04\x00\xC0\x00\x02",
    ),
    (
        "roa-long-prefix",
        b"0\x17\x02\x01\x010\x120\x10\x04\x02\x00\x010\n0\x08\x03\x06\x07\xC0\x00\x02\x00\
      \x00",
    ),
    (
        "roa-unused-bits",
        b"0\x17\x02\x03\x00\xFB\xF00\x100\x0E\x04\x02\x00\x010\x080\x06\x03\x04\x03\xC0\
      \x00\x07",
    ),
    (
        "roa-of-both",
        b"0>\x02\x01\x01090\x0E\x04\x02\x00\x010\x080\x06\x03\x01\x00\x02\x01 0'\x04\x02\
      \x00\x020!0\n\x03\x05\x00 \x01\x0D\xB8\x02\x0100\x13\x03\x11\x00\x00\x00\x00\x00\
      \x00\x00\x00\x00\x00\x00\x00\x00\x00\x00\x00\x01",
    ),
    (
        "mft",
        b"0X\x02\x01\x0C\x18\x0F20240101000000Z\x18\x0F20240108000000Z\x06\x09`\x86H\x01e\
      \x03\x04\x02\x010&0\x11\x16\x08file.cer\x03\x05\x00hash0\x11\x16\x08file.cer\x03\
      \x05\x00hash",
    ),
    (
        "mft-of-no-time",
        b"0X\x02\x01\x0C\x18\x0F20240101000000Z\x18\x0F20240101000000Z\x06\x09`\x86H\x01e\
      \x03\x04\x02\x010&0\x11\x16\x08file.cer\x03\x05\x00hash0\x11\x16\x08file.cer\x03\
      \x05\x00hash",
    ),
    (
        "mft-backwards",
        b"0X\x02\x01\x0C\x18\x0F20240108000001Z\x18\x0F20240108000000Z\x06\x09`\x86H\x01e\
      \x03\x04\x02\x010&0\x11\x16\x08file.cer\x03\x05\x00hash0\x11\x16\x08file.cer\x03\
      \x05\x00hash",
    ),
    (
        "mft-upper-case",
        b"0D\x02\x01\x01\x18\x0F20240101000000Z\x18\x0F20240108000000Z\x06\x09`\x86H\x01e\
      \x03\x04\x02\x010\x120\x10\x16\x0Bcorrect.ASA\x03\x01\x00",
    ),
    (
        "mft-other-type",
        b"0M\x02\x01\x01\x18\x0F20240101000000Z\x18\x0F20240108000000Z\x06\x09`\x86H\x01e\
      \x03\x04\x02\x010\x1B0\x19\x16\x14unknownextension.abc\x03\x01\x00",
    ),
    (
        "mft-slash",
        b"0F\x02\x01\x01\x18\x0F20240101000000Z\x18\x0F20240108000000Z\x06\x09`\x86H\x01e\
      \x03\x04\x02\x010\x140\x12\x16\x0Dslash//es.mft\x03\x01\x00",
    ),
    (
        "mft-dots",
        b"0W\x02\x01\x01\x18\x0F20240101000000Z\x18\x0F20240108000000Z\x06\x09`\x86H\x01e\
      \x03\x04\x02\x010%0#\x16\x1Emultiple.dots.in.file.name.roa\x03\x01\x00",
    ),
    (
        "mft-long-type",
        b"0P\x02\x01\x01\x18\x0F20240101000000Z\x18\x0F20240108000000Z\x06\x09`\x86H\x01e\
      \x03\x04\x02\x010\x1E0\x1C\x16\x17too_long_extension.koen\x03\x01\x00",
    ),
    (
        "mft-no-name",
        b"09\x02\x01\x01\x18\x0F20240101000000Z\x18\x0F20240108000000Z\x06\x09`\x86H\x01e\
      \x03\x04\x02\x010\x070\x05\x16\x00\x03\x01\x00",
    ),
    (
        "mft-line-end",
        b"0G\x02\x01\x01\x18\x0F20240101000000Z\x18\x0F20240108000000Z\x06\x09`\x86H\x01e\
      \x03\x04\x02\x010\x150\x13\x16\x0Enew\x0D\nlines.gbr\x03\x01\x00",
    ),
    (
        "mft-short-type",
        b"0>\x02\x01\x01\x18\x0F20240101000000Z\x18\x0F20240108000000Z\x06\x09`\x86H\x01e\
      \x03\x04\x02\x010\x0C0\n\x16\x05bar.b\x03\x01\x00",
    ),
    (
        "mft-once",
        b"0E\x02\x01\x0C\x18\x0F20240101000000Z\x18\x0F20240108000000Z\x06\x09`\x86H\x01e\
      \x03\x04\x02\x010\x130\x11\x16\x08file.cer\x03\x05\x00hash",
    ),
    (
        "rsc",
        b"0&0\x0D\xA0\x0B0\x09\xA0\x070\x05\x02\x03\x00\xFB\xF00\x0B\x06\x09`\x86H\x01e\
      \x03\x04\x02\x010\x080\x06\x04\x04hash",
    ),
    (
        "rsc-of-all",
        b"0^0=\xA0\x110\x0F\xA0\x0D0\x0B\x02\x01\x010\x06\x02\x01\n\x02\x01\x14\xA1(0&0\
      \x19\x04\x02\x00\x010\x13\x03\x02\x00\n0\x0D\x03\x04\x01\xC0\x00\x02\x03\x05\x00\
      \xC0\x00\x02\x020\x09\x04\x02\x00\x020\x03\x03\x01\x000\x0B\x06\x09`\x86H\x01e\
      \x03\x04\x02\x010\x100\x08\x16\x03a.b\x04\x01\x010\x04\x04\x02\x02\x03",
    ),
    (
        "rta-v6",
        b"0}1\x16\x04\x14\xAB\xAB\xAB\xAB\xAB\xAB\xAB\xAB\xAB\xAB\xAB\xAB\xAB\xAB\xAB\xAB\
      \xAB\xAB\xAB\xAB04\xA12000.\x04\x02\x00\x020(0&\x03\x11\x00 \x01\x0D\xB8\x00\x00\
      \x00\x00\x00\x00\x00\x00\x00\x00\x00\x01\x03\x11\x02 \x01\x0D\xB8\x00\x00\x00\
      \x00\x00\x00\x00\x00\x00\x00\x00\x000\x0B\x06\x09`\x86H\x01e\x03\x04\x02\x01\x04\
      \x20\xCD\xCD\xCD\xCD\xCD\xCD\xCD\xCD\xCD\xCD\xCD\xCD\xCD\xCD\xCD\xCD\xCD\xCD\xCD\
      \xCD\xCD\xCD\xCD\xCD\xCD\xCD\xCD\xCD\xCD\xCD\xCD\xCD",
    ),
    (
        "tal",
        b"# c\nrsync://a.example.com/1/1\n\nMBUwDQYJKoZIhvcNAQEBBQADBABhYmM=\n",
    ),
    ("tal-none", b"x"),
    (
        "roa-v6-first",
        b"0'\x02\x01\x010\"0\x0F\x04\x02\x00\x020\x090\x07\x03\x05\x00 \x01\x0D\xB80\x0F\
      \x04\x02\x00\x010\x090\x07\x03\x02\x00\n\x02\x01\x08",
    ),
    (
        "mft-of-none",
        b"02\x02\x01\x00\x18\x0F20240229235959Z\x18\x0F20240229235959Z\x06\x09`\x86H\x01e\
      \x03\x04\x02\x010\x00",
    ),
    (
        "mft-of-any-type",
        b"0C\x02\x02\x124\x18\x0F20240229235959Z\x18\x0F20240229235959Z\x06\x09`\x86H\x01e\
      \x03\x04\x02\x010\x100\x0E\x16\x09F-_o0.abc\x03\x01\x00",
    ),
    (
        "rsc-of-ranges",
        b"0e0;\xA0\x110\x0F\xA0\x0D0\x0B\x02\x01\n0\x06\x02\x01\x14\x02\x01\x1E\xA1&0$0\
      \x16\x04\x02\x00\x020\x100\x0E\x03\x05\x03 \x01\x0D\xB8\x03\x05\x00 \x01\x0D\xBA\
      0\n\x04\x02\x00\x010\x04\x03\x02\x00\n0\x0B\x06\x09`\x86H\x01e\x03\x04\x02\x010\
      \x190\x0C\x16\x06a.b_-9\x04\x02\xAB\xCD0\x02\x04\x000\x05\x16\x00\x04\x01\x00",
    ),
    (
        "rsc-of-nothing",
        b"0\x110\x000\x0B\x06\x09`\x86H\x01e\x03\x04\x02\x010\x00",
    ),
    (
        "tal-of-two",
        b"https://a.example.com/1\r\nrsync://a.example.com/1/1\r\n\r\n\
      MBUwDQYJKoZIhvcNAQEBBQADBABhYmM=\r\n",
    ),
    ("tal-without-key", b"# c\nrsync://a.example.com/1/1\n"),
    ("uri-alone", b"rsync://a.example.com/1/1\n"),
];

/// What is said of the first content.
const ASPA: Said = Said::Yes(
    "aspa\ncustomer AS15562\n\
     provider AS2914\nprovider AS8283\nprovider AS51088\nprovider AS206238\n",
);

static ROWS: [Row; 79] = [
    (By::Objects, "content aspa aspa", ASPA, 1),
    (By::Objects, "--relaxed content aspa aspa", ASPA, 1),
    (By::Objects, "--registered content aspa aspa", ASPA, 1),
    (By::Objects, "--wide content aspa aspa", ASPA, 1),
    (
        By::Objects,
        "--relaxed --registered --wide content aspa aspa",
        ASPA,
        1,
    ),
    (
        By::Objects,
        "--relaxed content aspa aspa-in-ber",
        MALFORMED,
        1,
    ),
    (By::Objects, "content aspa aspa-and-more", ASPA, 1),
    (By::Objects, "content aspa aspa-cut", MALFORMED, 1),
    (
        By::Objects,
        "content aspa aspa-without-version",
        MALFORMED,
        1,
    ),
    (By::Objects, "content aspa aspa-of-as0", MALFORMED, 1),
    (
        By::Objects,
        "content aspa aspa-of-largest",
        Said::Yes("aspa\ncustomer AS4294967295\nprovider AS1\n"),
        1,
    ),
    (
        By::Objects,
        "content aspa aspa-by-largest",
        Said::Yes("aspa\ncustomer AS1\nprovider AS4294967295\n"),
        1,
    ),
    (By::Objects, "show aspa aspa", MALFORMED, 1),
    (
        By::Objects,
        "content aspa other",
        Said::Error(2, "cannot read other\n"),
        1,
    ),
    (By::Objects, "content aspa large", OUT_OF_MEMORY, 1),
    (
        By::Objects,
        "content aspa aspa-as0-beside-another",
        MALFORMED,
        1,
    ),
    (By::Objects, "content aspa aspa-swapped", MALFORMED, 1),
    (By::Objects, "content aspa aspa-of-none", MALFORMED, 1),
    (
        By::Objects,
        "content aspa aspa-as0-alone",
        Said::Yes("aspa\ncustomer AS15562\nprovider AS0\n"),
        1,
    ),
    (
        By::Objects,
        "content aspa aspa-provider-twice",
        MALFORMED,
        1,
    ),
    (
        By::Objects,
        "content aspa aspa-customer-provides",
        MALFORMED,
        1,
    ),
    (By::Objects, "content aspa aspa-version-0", MALFORMED, 1),
    (By::Objects, "content aspa aspa-version-2", MALFORMED, 1),
    (
        By::Objects,
        "content roa roa",
        Said::Yes("roa\nas AS64496\norigin 192.0.2.0/24\n"),
        1,
    ),
    (
        By::Objects,
        "content roa roa-26",
        Said::Yes("roa\nas AS64496\norigin 192.0.2.0/24-26\n"),
        1,
    ),
    (By::Objects, "content roa roa-23", MALFORMED, 1),
    (By::Objects, "content roa roa-33", MALFORMED, 1),
    (
        By::Objects,
        "content roa roa-24",
        Said::Yes("roa\nas AS64496\norigin 192.0.2.0/24-24\n"),
        1,
    ),
    (
        By::Objects,
        "content roa roa-32",
        Said::Yes("roa\nas AS64496\norigin 192.0.2.0/24-32\n"),
        1,
    ),
    (
        By::Objects,
        "content roa roa-empty",
        Said::Yes("roa\nas AS64496\n"),
        1,
    ),
    (By::Objects, "content roa roa-ipv4-twice", MALFORMED, 1),
    (By::Objects, "content roa roa-long-prefix", MALFORMED, 1),
    (
        By::Objects,
        "content roa roa-unused-bits",
        Said::Yes("roa\nas AS64496\norigin 192.0.0.0/21\n"),
        1,
    ),
    (
        By::Objects,
        "content roa roa-of-both",
        Said::Yes("roa\nas AS1\norigin 0.0.0.0/0-32\norigin 2001:db8::/32-48\norigin ::1/128\n"),
        1,
    ),
    (
        By::Objects,
        "content manifest mft",
        Said::Yes(
            "manifest\nnumber c\nthis 2024-01-01T00:00:00Z\nnext 2024-01-08T00:00:00Z\n\
             file file.cer 68617368\nfile file.cer 68617368\n",
        ),
        1,
    ),
    (
        By::Objects,
        "content manifest mft-of-no-time",
        Said::Yes(
            "manifest\nnumber c\nthis 2024-01-01T00:00:00Z\nnext 2024-01-01T00:00:00Z\n\
             file file.cer 68617368\nfile file.cer 68617368\n",
        ),
        1,
    ),
    (By::Objects, "content manifest mft-backwards", MALFORMED, 1),
    (
        By::Objects,
        "content manifest mft-upper-case",
        Said::Yes(
            "manifest\nnumber 1\nthis 2024-01-01T00:00:00Z\nnext 2024-01-08T00:00:00Z\n\
             file correct.ASA \n",
        ),
        1,
    ),
    (
        By::Objects,
        "content manifest mft-other-type",
        Said::Yes(
            "manifest\nnumber 1\nthis 2024-01-01T00:00:00Z\nnext 2024-01-08T00:00:00Z\n\
             file unknownextension.abc \n",
        ),
        1,
    ),
    (By::Objects, "content manifest mft-slash", MALFORMED, 1),
    (By::Objects, "content manifest mft-dots", MALFORMED, 1),
    (By::Objects, "content manifest mft-long-type", MALFORMED, 1),
    (By::Objects, "content manifest mft-no-name", MALFORMED, 1),
    (By::Objects, "content manifest mft-line-end", MALFORMED, 1),
    (By::Objects, "content manifest mft-short-type", MALFORMED, 1),
    (
        By::Objects,
        "content manifest mft-once",
        Said::Yes(
            "manifest\nnumber c\nthis 2024-01-01T00:00:00Z\nnext 2024-01-08T00:00:00Z\n\
             file file.cer 68617368\n",
        ),
        1,
    ),
    (
        By::Objects,
        "content rsc rsc",
        Said::Yes("rsc\nas AS64496\nunnamed 68617368\n"),
        1,
    ),
    (
        By::Objects,
        "content rsc rsc-of-all",
        Said::Yes(
            "rsc\nas AS1\nas AS10-AS20\nv4 10.0.0.0/8\nv4 192.0.2.0-192.0.2.2\nv6 ::/0\n\
             named a.b 01\nunnamed 0203\n",
        ),
        1,
    ),
    (
        By::Objects,
        "content rta rta-v6",
        Said::Yes(
            "rta\nkey ABABABABABABABABABABABABABABABABABABABAB\nv6 2001:db8::1-2001:db8::3\n\
             digest cdcdcdcdcdcdcdcdcdcdcdcdcdcdcdcdcdcdcdcdcdcdcdcdcdcdcdcdcdcdcdcd\n",
        ),
        1,
    ),
    (
        By::Objects,
        "show tal tal",
        Said::Yes(
            "tal\nuri rsync://a.example.com/1/1\nkey A9993E364706816ABA3E25717850C26C9CD0D89D\n",
        ),
        1,
    ),
    (By::Objects, "show tal tal-none", MALFORMED, 1),
    (
        By::Objects,
        "--registered content manifest mft",
        MALFORMED,
        1,
    ),
    (
        By::Objects,
        "--registered content manifest mft-once",
        Said::Yes(
            "manifest\nnumber c\nthis 2024-01-01T00:00:00Z\nnext 2024-01-08T00:00:00Z\n\
             file file.cer 68617368\n",
        ),
        1,
    ),
    (
        By::Objects,
        "--registered content manifest mft-other-type",
        MALFORMED,
        1,
    ),
    (By::Objects, "show tal aspa", MALFORMED, 1),
    (By::Objects, "content roa rsc", MALFORMED, 1),
    (By::Objects, "content manifest roa", MALFORMED, 1),
    (
        By::Objects,
        "content roa roa-v6-first",
        Said::Yes("roa\nas AS1\norigin 10.0.0.0/8-8\norigin 2001:db8::/32\n"),
        1,
    ),
    (
        By::Objects,
        "--relaxed --registered --wide content roa roa-26",
        Said::Yes("roa\nas AS64496\norigin 192.0.2.0/24-26\n"),
        1,
    ),
    (By::Objects, "content roa aspa", MALFORMED, 1),
    (By::Objects, "content aspa roa", MALFORMED, 1),
    (
        By::Objects,
        "--wide content aspa aspa-as0-beside-another",
        MALFORMED,
        1,
    ),
    (
        By::Objects,
        "--wide content aspa aspa-swapped",
        MALFORMED,
        1,
    ),
    (
        By::Objects,
        "--wide content aspa aspa-of-none",
        MALFORMED,
        1,
    ),
    (
        By::Objects,
        "--wide content aspa aspa-provider-twice",
        MALFORMED,
        1,
    ),
    (
        By::Objects,
        "--wide content aspa aspa-customer-provides",
        MALFORMED,
        1,
    ),
    (
        By::Objects,
        "content manifest mft-of-none",
        Said::Yes("manifest\nnumber 0\nthis 2024-02-29T23:59:59Z\nnext 2024-02-29T23:59:59Z\n"),
        1,
    ),
    (
        By::Objects,
        "content manifest mft-of-any-type",
        Said::Yes(
            "manifest\nnumber 1234\nthis 2024-02-29T23:59:59Z\nnext 2024-02-29T23:59:59Z\n\
             file F-_o0.abc \n",
        ),
        1,
    ),
    (
        By::Objects,
        "--registered content manifest mft-of-any-type",
        MALFORMED,
        1,
    ),
    (
        By::Objects,
        "content rsc rsc-of-ranges",
        Said::Yes(
            "rsc\nas AS10\nas AS20-AS30\nv4 10.0.0.0/8\n\
             v6 2001:db8::-2001:dba:ffff:ffff:ffff:ffff:ffff:ffff\n\
             named a.b_-9 abcd\nunnamed \nnamed  00\n",
        ),
        1,
    ),
    (By::Objects, "content rsc rsc-of-nothing", MALFORMED, 1),
    (By::Objects, "content rsc mft", MALFORMED, 1),
    (By::Objects, "--relaxed show manifest mft", MALFORMED, 1),
    (
        By::Objects,
        "--relaxed show tal tal",
        Said::Yes(
            "tal\nuri rsync://a.example.com/1/1\nkey A9993E364706816ABA3E25717850C26C9CD0D89D\n",
        ),
        1,
    ),
    (
        By::Objects,
        "show tal tal-of-two",
        Said::Yes(
            "tal\nuri https://a.example.com/1\nuri rsync://a.example.com/1/1\n\
             key A9993E364706816ABA3E25717850C26C9CD0D89D\n",
        ),
        1,
    ),
    (By::Objects, "show tal tal-without-key", MALFORMED, 1),
    (By::Objects, "show tal uri-alone", MALFORMED, 1),
    (
        By::Objects,
        "show tal other",
        Said::Error(2, "cannot read other\n"),
        1,
    ),
    (By::Objects, "show tal large", OUT_OF_MEMORY, 1),
];

#[test]
fn words_are_answered(rt: HostRuntime) -> Result<(), Fail> {
    assert_eq!(rt; answered(rt.alloc(), &FILES, &ROWS)?, ROWS.len());
    Ok(())
}
