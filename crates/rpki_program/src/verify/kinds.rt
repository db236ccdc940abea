//! Which kind of file a word says, or a name.

ghost use Rattle.std.specs.Prelude.{◌≡◌, IfSome, MatchOption};
ghost use Rattle.rpki_program.specs.Verify.Kinds.{IsKindOf, IsNameOf, extension, kind_word};
ghost use Rattle.rpki_program.specs.declared.verify.request.FileKind.{FileKind as Kinds};

use crate::verify::request::FileKind;

impl FileKind {
    /// The word of this kind.
    pub fn word(self) -> &'static str
        ensures { result.now ≡ kind_word self }
    {
        match self {
            FileKind::Roa => "roa",
            FileKind::Aspa => "aspa",
            FileKind::Manifest => "manifest",
            FileKind::Checklist => "rsc",
            FileKind::Attestation => "rta",
            FileKind::Certificate => "certificate",
            FileKind::RevocationList => "crl",
            FileKind::Locator => "tal",
        }
    }
}

/// The kind that a word says, if it says one.
pub fn kind_of_word(word: &str) -> Option<FileKind>
    ensures { IfSome result (λ k. word.now ≡ kind_word k) }
{
    match word {
        "roa" => Some(FileKind::Roa),
        "aspa" => Some(FileKind::Aspa),
        "manifest" => Some(FileKind::Manifest),
        "rsc" => Some(FileKind::Checklist),
        "rta" => Some(FileKind::Attestation),
        "certificate" => Some(FileKind::Certificate),
        "crl" => Some(FileKind::RevocationList),
        "tal" => Some(FileKind::Locator),
        _ => None,
    }
}

/// The kind of the files whose names end with this, if there is one.
fn kind_of_extension(ending: &[u8]) -> Option<FileKind>
    ensures { MatchOption result ((k : Kinds) → ending.now ≡ extension k → ⊥)
        (λ k. ending.now ≡ extension k) }
{
    match ending {
        b".roa" => Some(FileKind::Roa),
        b".asa" => Some(FileKind::Aspa),
        b".mft" => Some(FileKind::Manifest),
        b".sig" => Some(FileKind::Checklist),
        b".rta" => Some(FileKind::Attestation),
        b".cer" => Some(FileKind::Certificate),
        b".crl" => Some(FileKind::RevocationList),
        b".tal" => Some(FileKind::Locator),
        _ => None,
    }
}

/// The kind that a name says by its end, in any case, if it says one.
pub fn kind_of_name(name: &str) -> Option<FileKind>
    ensures { MatchOption result ((k : Kinds) → IsNameOf name.now k → ⊥) (IsNameOf name.now) }
{
    match name.as_bytes() {
        [.., dot, first, second, third] => kind_of_extension(&[
            dot.to_ascii_lowercase(),
            first.to_ascii_lowercase(),
            second.to_ascii_lowercase(),
            third.to_ascii_lowercase(),
        ]),
        _ => None,
    }
}

/// The kind of a file: the one that is given, or else the one that its name says, if it says one.
pub fn kind_of_file(given: Option<FileKind>, name: &str) -> Option<FileKind>
    ensures { MatchOption result ((k : Kinds) → IsKindOf given name.now k → ⊥)
        (IsKindOf given name.now) }
{
    match given {
        Some(kind) => Some(kind),
        None => kind_of_name(name),
    }
}
