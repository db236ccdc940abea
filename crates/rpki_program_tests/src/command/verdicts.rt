//! Verdicts that are read from a text.

use rpki_verdicts::Verdicts;
use std::test::Fail;

/// Two lines: the SHA-256 digests of `key`, `message` and `signature`, and those of `other`,
/// `message` and the empty signature.
const TEXT: &str = "2c70e12b7a0646f92279f427c7b38e7334d8e5389cff167a1dc30e73f826b683 \
    ab530a13e45914982b79f9b7e3fba994cfd1f3fb22f71cea1afbf02b460c6d1d \
    1a2fc26dc7ea5a2a4748b7cb2b1ef193d96ab2c99f93092f69e63075b28d1278\n\
    d9298a10d1b0735837dc4bd85dac641b0f3cef27a47e5d53a54f2f3f5b2fcffa \
    ab530a13e45914982b79f9b7e3fba994cfd1f3fb22f71cea1afbf02b460c6d1d \
    e3b0c44298fc1c149afbf4c8996fb92427ae41e4649b934ca495991b7852b855\n";

/// A text, the two parts of a key, a message and a signature, and whether the text has a verdict on
/// them, or none where it is no list of verdicts.
type Row = (&'static str, [&'static str; 4], Option<bool>);

static ROWS: [Row; 17] = [
    (TEXT, ["key", "", "message", "signature"], Some(true)),
    (TEXT, ["k", "ey", "message", "signature"], Some(true)),
    (TEXT, ["", "key", "message", "signature"], Some(true)),
    (TEXT, ["other", "", "message", ""], Some(true)),
    (TEXT, ["other", "", "message", "signature"], Some(false)),
    (TEXT, ["key", "", "message", ""], Some(false)),
    (TEXT, ["key", "y", "message", "signature"], Some(false)),
    (TEXT, ["", "", "message", "signature"], Some(false)),
    (TEXT, ["key", "", "signature", "message"], Some(false)),
    (TEXT, ["message", "", "key", "signature"], Some(false)),
    (TEXT, ["key", "", "messag", "signature"], Some(false)),
    (TEXT, ["key", "", "message", "signature "], Some(false)),
    ("", ["key", "", "message", "signature"], Some(false)),
    ("\n", ["key", "", "message", "signature"], None),
    ("2c70e12b", ["key", "", "message", "signature"], None),
    (
        "2C70e12b7a0646f92279f427c7b38e7334d8e5389cff167a1dc30e73f826b683 \
         ab530a13e45914982b79f9b7e3fba994cfd1f3fb22f71cea1afbf02b460c6d1d \
         1a2fc26dc7ea5a2a4748b7cb2b1ef193d96ab2c99f93092f69e63075b28d1278\n",
        ["key", "", "message", "signature"],
        None,
    ),
    (
        "2c70e12b7a0646f92279f427c7b38e7334d8e5389cff167a1dc30e73f826b683 \
         ab530a13e45914982b79f9b7e3fba994cfd1f3fb22f71cea1afbf02b460c6d1d \
         1a2fc26dc7ea5a2a4748b7cb2b1ef193d96ab2c99f93092f69e63075b28d1278",
        ["key", "", "message", "signature"],
        None,
    ),
];

fn verdict(text: &str, [head, rest, message, signature]: &[&str; 4]) -> Option<bool> {
    let verdicts = Verdicts::read(text.as_bytes())?;
    Some(verdicts.verify(
        head.as_bytes(),
        rest.as_bytes(),
        message.as_bytes(),
        signature.as_bytes(),
    ))
}

fn are_right(rows: &[Row]) -> bool {
    for (text, signed, wanted) in rows {
        if verdict(text, signed) != *wanted {
            return false;
        }
    }
    true
}

#[test]
fn listed_triples_are_a_yes(rt: HostRuntime) -> Result<(), Fail> {
    assert!(rt; are_right(&ROWS));
    Ok(())
}
