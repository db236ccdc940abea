//! Names of files in a manifest (RFC 9286, section 4.2.2).

ghost use Rattle.std.specs.Prelude.{◌≡◌, ◌∷◌, []};
ghost use Rattle.std.specs.List.{list_all};
ghost use Rattle.rpki_files.specs.Manifest.Files.{is_allowed};
ghost use Rattle.rpki_files.specs.Name.{is_letter, is_stem, is_ending, is_file_name};
ghost use Rattle.rpki_files.specs.Name.{lower, is_type, is_registered};

use rpki_basics::ManifestRule;

// Whether a character is a letter.
#[inline(always)]
fn is_letter(b: u8) -> bool
    ensures { result ≡ is_letter b }
{
    (b'a'..=b'z').contains(&b) || (b'A'..=b'Z').contains(&b)
}

/// Whether a character may stand before the dot.
#[inline(always)]
pub fn is_stem(b: u8) -> bool
    ensures { result ≡ is_stem b }
{
    is_letter(b) || (b'0'..=b'9').contains(&b) || b == b'-' || b == b'_'
}

// Whether octets are a dot and three letters.
fn is_ending(octets: &[u8]) -> bool
    ensures { result ≡ is_ending octets.now }
{
    match octets {
        [d, x, y, z] => *d == b'.' && is_letter(*x) && is_letter(*y) && is_letter(*z),
        _ => false,
    }
}

// Whether each character may stand before the dot.
fn are_stem(octets: &[u8]) -> bool
    ensures { result ≡ list_all is_stem octets.now }
{
    octets.iter().all(|b| is_stem(*b))
}

/// Whether octets are the name of a file.
#[tactic(auto, unfolding(crate::specs::Name::is_file_name))]
pub fn is_file_name(octets: &[u8]) -> bool
    ensures { result ≡ is_file_name octets.now }
{
    if octets.len() < 5 {
        return false;
    }
    let (stem, ending) = octets.split_at(octets.len() - 4);
    are_stem(stem) && is_ending(ending)
}

// A letter in lower case.
fn lower(b: u8) -> u8
    ensures { result ≡ lower b }
{
    if (b'A'..=b'Z').contains(&b) {
        b + 0x20
    } else {
        b
    }
}

/// Whether octets are these three letters, which are given in lower case, in any case.
pub fn is_type(octets: &[u8], a: u8, b: u8, c: u8) -> bool
    ensures { result ≡ is_type octets.now (a ∷ b ∷ c ∷ []) }
{
    match octets {
        [x, y, z] => lower(*x) == a && lower(*y) == b && lower(*z) == c,
        _ => false,
    }
}

// Whether the name has a registered type.
#[tactic(auto, unfolding(crate::specs::Name::is_registered))]
fn is_registered(name: &[u8]) -> bool
    ensures { result ≡ is_registered name.now }
{
    let (_, ending) = name.split_at(name.len().saturating_sub(3));
    is_type(ending, b'a', b's', b'a')
        || is_type(ending, b'c', b'e', b'r')
        || is_type(ending, b'c', b'r', b'l')
        || is_type(ending, b'g', b'b', b'r')
        || is_type(ending, b'm', b'f', b't')
        || is_type(ending, b'r', b'o', b'a')
        || is_type(ending, b's', b'i', b'g')
        || is_type(ending, b't', b'a', b'k')
}

/// Whether the rule allows the name.
pub fn is_allowed(rule: ManifestRule, name: &[u8]) -> bool
    ensures { result ≡ is_allowed rule name.now }
{
    match rule {
        ManifestRule::Any => true,
        ManifestRule::Registered => is_registered(name),
    }
}
