//! Names of files.

use bytes::Bytes;
use rpki_files::FileAndHash;

/// Octets, and whether they are the name of a file.
static NAMES: [(&[u8], bool); 19] = [
    (b"correct.cer", true),
    (b"correct.ASA", true),
    (b"unknownextension.abc", true),
    (b"dashes-and_underscores.gbr", true),
    (b"f-_oo00F.bar", true),
    (b"0.roa", true),
    (b"slash//es.mft", false),
    (b"multiple.dots.in.file.name.roa", false),
    (b"too_long_extension.koen", false),
    (b".bar", false),
    (b"bar.", false),
    (b"bar.ba", false),
    (b"bar", false),
    (b"", false),
    (b"a$(.bar", false),
    (b"bar.a00", false),
    (b"bar-cer", false),
    (b"b\x80.cer", false),
    (b"a.c{r", false),
];

fn are_told() -> bool {
    for (name, is_name) in &NAMES {
        if FileAndHash::<Bytes, Bytes>::validate_file_name(name).is_ok() != *is_name {
            return false;
        }
    }
    true
}

#[test]
fn names(rt: HostRuntime) {
    assert!(rt; are_told());
}
