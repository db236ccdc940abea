//! Contents of manifests that are built: what they are written as, or why they are refused.

use crate::contents::{Answer, Row, are_so, is_built};
use rpki_basics::{BuildError, DigestAlgorithm, ManifestRule, Serial, Time};
use rpki_files::{FileAndHash, ManifestContent};
use std::alloc::{AllocError, Global};

/// The name and the hash of an entry.
type FileRow = (&'static [u8], &'static [u8]);

/// The entries of a row.
type FileRows = &'static [FileRow];

/// A rule, the day and the second of January 2024 of thisUpdate, entries, and what the content is
/// written as, whose number is 12 and whose nextUpdate is the beginning of 2024-01-08, or why it is
/// refused.
struct Built(ManifestRule, (u8, u8), FileRows, Answer<'static>);

static ROWS: [Built; 17] = [
    Built(
        ManifestRule::Any,
        (1, 0),
        &[(b"file.cer", b"hash"), (b"file.cer", b"hash")],
        Ok(
            b"0X\x02\x01\x0C\x18\x0F20240101000000Z\x18\x0F20240108000000Z\x06\x09`\x86H\x01e\
          \x03\x04\x02\x010&0\x11\x16\x08file.cer\x03\x05\x00hash0\x11\x16\x08file.cer\x03\
          \x05\x00hash",
        ),
    ),
    Built(
        ManifestRule::Any,
        (1, 0),
        &[(b"file.cer", b"hash")],
        Ok(
            b"0E\x02\x01\x0C\x18\x0F20240101000000Z\x18\x0F20240108000000Z\x06\x09`\x86H\x01e\
          \x03\x04\x02\x010\x130\x11\x16\x08file.cer\x03\x05\x00hash",
        ),
    ),
    Built(
        ManifestRule::Registered,
        (1, 0),
        &[(b"file.cer", b"hash")],
        Ok(
            b"0E\x02\x01\x0C\x18\x0F20240101000000Z\x18\x0F20240108000000Z\x06\x09`\x86H\x01e\
          \x03\x04\x02\x010\x130\x11\x16\x08file.cer\x03\x05\x00hash",
        ),
    ),
    Built(
        ManifestRule::Any,
        (1, 0),
        &[(b"unknownextension.abc", b"\x01\x02")],
        Ok(
            b"0O\x02\x01\x0C\x18\x0F20240101000000Z\x18\x0F20240108000000Z\x06\x09`\x86H\x01e\
          \x03\x04\x02\x010\x1D0\x1B\x16\x14unknownextension.abc\x03\x03\x00\x01\x02",
        ),
    ),
    Built(
        ManifestRule::Registered,
        (1, 0),
        &[(b"correct.ASA", b"")],
        Ok(
            b"0D\x02\x01\x0C\x18\x0F20240101000000Z\x18\x0F20240108000000Z\x06\x09`\x86H\x01e\
          \x03\x04\x02\x010\x120\x10\x16\x0Bcorrect.ASA\x03\x01\x00",
        ),
    ),
    Built(
        ManifestRule::Registered,
        (1, 0),
        &[
            (b"b.roa", b"\xFF"),
            (b"a.cer", b"\x00"),
            (b"A.cer", b"hash"),
        ],
        Ok(
            b"0\\\x02\x01\x0C\x18\x0F20240101000000Z\x18\x0F20240108000000Z\x06\x09`\x86H\x01e\
          \x03\x04\x02\x010*0\x0B\x16\x05b.roa\x03\x02\x00\xFF0\x0B\x16\x05a.cer\x03\x02\x00\
          \x000\x0E\x16\x05A.cer\x03\x05\x00hash",
        ),
    ),
    Built(
        ManifestRule::Registered,
        (1, 0),
        &[],
        Ok(
            b"02\x02\x01\x0C\x18\x0F20240101000000Z\x18\x0F20240108000000Z\x06\x09`\x86H\x01e\
          \x03\x04\x02\x010\x00",
        ),
    ),
    Built(
        ManifestRule::Any,
        (8, 0),
        &[],
        Ok(
            b"02\x02\x01\x0C\x18\x0F20240108000000Z\x18\x0F20240108000000Z\x06\x09`\x86H\x01e\
          \x03\x04\x02\x010\x00",
        ),
    ),
    Built(
        ManifestRule::Any,
        (8, 1),
        &[(b"file.cer", b"hash")],
        Err("thisUpdate is after nextUpdate"),
    ),
    Built(
        ManifestRule::Registered,
        (8, 1),
        &[
            (b"multiple.dots.roa", b""),
            (b"a.abc", b""),
            (b"a.abc", b""),
        ],
        Err("thisUpdate is after nextUpdate"),
    ),
    Built(
        ManifestRule::Any,
        (8, 0),
        &[(b"file.cer", b""), (b"bar", b"")],
        Err("bad file name"),
    ),
    Built(
        ManifestRule::Any,
        (1, 0),
        &[(b"", b"hash"), (b"file.cer", b"")],
        Err("bad file name"),
    ),
    Built(
        ManifestRule::Registered,
        (1, 0),
        &[(b"a.abc", b""), (b"a.abc", b""), (b"bar.a00", b"")],
        Err("bad file name"),
    ),
    Built(
        ManifestRule::Registered,
        (1, 0),
        &[(b"unknownextension.abc", b"hash")],
        Err("file type not registered"),
    ),
    Built(
        ManifestRule::Registered,
        (1, 0),
        &[(b"a.cer", b""), (b"a.cer", b""), (b"a.abc", b"")],
        Err("file type not registered"),
    ),
    Built(
        ManifestRule::Registered,
        (1, 0),
        &[(b"file.cer", b"hash"), (b"file.cer", b"hash")],
        Err("repeated file name"),
    ),
    Built(
        ManifestRule::Registered,
        (1, 0),
        &[(b"a.cer", b"1"), (b"b.cer", b"2"), (b"a.cer", b"3")],
        Err("repeated file name"),
    ),
];

/// A moment in January 2024.
fn moment((day, second): (u8, u8)) -> Result<Time, BuildError> {
    match Time::utc(2024, 1, day, 0, 0, second) {
        Some(time) => Ok(time),
        None => Err(BuildError::TooLong),
    }
}

/// The content of these entries.
fn content(
    alloc: Global,
    rule: ManifestRule,
    this: (u8, u8),
    entries: FileRows,
) -> Result<ManifestContent, BuildError> {
    ManifestContent::new(
        alloc,
        Serial::from(12),
        moment(this)?,
        moment((8, 0))?,
        DigestAlgorithm::sha256(),
        entries
            .iter()
            .map(|(name, hash)| FileAndHash::new(*name, *hash)),
        rule,
    )
}

/// The content of the entries of another one, with its number and its times.
fn again(alloc: Global, content: &ManifestContent) -> Result<ManifestContent, BuildError> {
    ManifestContent::new(
        alloc,
        content.manifest_number(),
        content.this_update(),
        content.next_update(),
        content.file_hash_alg(),
        content.iter(),
        ManifestRule::Any,
    )
}

/// The content of these entries, built of what one of them hands out.
fn copied(
    alloc: Global,
    rule: ManifestRule,
    this: (u8, u8),
    entries: FileRows,
) -> Result<ManifestContent, BuildError> {
    match content(alloc, rule, this, entries) {
        Ok(content) => {
            let copy = again(alloc, &content);
            drop(content);
            copy
        }
        Err(error) => Err(error),
    }
}

impl Row for Built {
    fn is_so(&self, alloc: Global) -> Result<bool, AllocError> {
        let Built(rule, this, entries, wanted) = self;
        is_built(alloc, copied(alloc, *rule, *this, *entries), *wanted)
    }
}

#[test]
fn contents_are_built(rt: HostRuntime) -> Result<(), AllocError> {
    assert!(rt; are_so(rt.alloc(), &ROWS)?);
    Ok(())
}
