//! Kinds of files in a publication point.

ghost use Rattle.std.specs.Prelude.{◌≡◌};
ghost use Rattle.rpki_relying_party.specs.Kind.{kind_of};

use rpki_files::is_type;

/// Of which kind a file that a manifest lists is, by the end of its name.
#[derive(Clone, Copy, Debug, PartialEq, Eq)]
pub enum ListedKind {
    /// `.roa`: a Route Origin Authorization.
    Roa,
    /// `.asa`: an Autonomous System Provider Authorization.
    Aspa,
    /// `.cer`: a certificate.
    Ca,
    /// Any other, of which nothing is said.
    Other,
}

/// The kind of a file, by the last three letters of its name, or of its URI, which ends with the
/// name (RFC 9286, section 4.2.2).
pub(crate) fn kind_of(name: &[u8]) -> ListedKind
    ensures { result ≡ kind_of name.now }
{
    let (_, letters) = name.split_at(name.len().saturating_sub(3));
    if is_type(letters, b'r', b'o', b'a') {
        ListedKind::Roa
    } else if is_type(letters, b'a', b's', b'a') {
        ListedKind::Aspa
    } else if is_type(letters, b'c', b'e', b'r') {
        ListedKind::Ca
    } else {
        ListedKind::Other
    }
}
