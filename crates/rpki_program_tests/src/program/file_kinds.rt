//! Kinds of files.

use rpki_program::verify::kinds::{kind_of_name, kind_of_word};
use rpki_program::verify::request::FileKind;
use std::test::Fail;

/// Each kind, its word, and the end of the names of its files.
static KINDS: [(FileKind, &str, &str); 8] = [
    (FileKind::Roa, "roa", ".roa"),
    (FileKind::Aspa, "aspa", ".asa"),
    (FileKind::Manifest, "manifest", ".mft"),
    (FileKind::Checklist, "rsc", ".sig"),
    (FileKind::Attestation, "rta", ".rta"),
    (FileKind::Certificate, "certificate", ".cer"),
    (FileKind::RevocationList, "crl", ".crl"),
    (FileKind::Locator, "tal", ".tal"),
];

/// Names, and the kinds that they say.
static NAMES: [(&str, Option<FileKind>); 17] = [
    ("origin.roa", Some(FileKind::Roa)),
    (
        "rpki.example.net/authority/providers.asa",
        Some(FileKind::Aspa),
    ),
    ("authority.mft", Some(FileKind::Manifest)),
    ("checklist.sig", Some(FileKind::Checklist)),
    ("agreement.rta", Some(FileKind::Attestation)),
    ("anchor.cer", Some(FileKind::Certificate)),
    ("authority.crl", Some(FileKind::RevocationList)),
    ("anchor.tal", Some(FileKind::Locator)),
    ("ORIGIN.ROA", Some(FileKind::Roa)),
    ("anchor.cER", Some(FileKind::Certificate)),
    ("a.tal.roa", Some(FileKind::Roa)),
    (".roa", Some(FileKind::Roa)),
    ("roa", None),
    ("origin_roa", None),
    ("origin.roa.txt", None),
    ("origin.aspa", None),
    ("", None),
];

/// Words of no kind.
static NO_KINDS: [&str; 3] = ["asa", "ROA", ""];

fn are_kinds(rows: &[(FileKind, &str, &str)]) -> bool {
    for (kind, word, extension) in rows {
        if kind.word() != *word
            || kind_of_name(extension) != Some(*kind)
            || kind_of_word(word) != Some(*kind)
        {
            return false;
        }
    }
    true
}

fn are_none(words: &[&str]) -> bool {
    for word in words {
        if kind_of_word(word).is_some() {
            return false;
        }
    }
    true
}

fn are_named(rows: &[(&str, Option<FileKind>)]) -> bool {
    for (name, kind) in rows {
        if kind_of_name(name) != *kind {
            return false;
        }
    }
    true
}

#[test]
fn kinds_have_words_and_names(rt: HostRuntime) -> Result<(), Fail> {
    assert!(rt; are_kinds(&KINDS) && are_none(&NO_KINDS) && are_named(&NAMES));
    Ok(())
}
