//! The syntax of URIs, as tests on octets (RFC 3986, section 3).

ghost use Rattle.std.specs.Prelude.{◌≡◌, ◌↔◌, ◌++◌, ℕ, List, codes, map, MatchOption, IsTrue};
ghost use Rattle.std.specs.Char.{to_ascii_lowercase};
ghost use Rattle.std.specs.List.{list_all};
ghost use Rattle.rpki_basics.specs.Segments.{segments};
ghost use Rattle.rpki_basics.specs.Uri.{is_uri_octet, Follows, HasScheme, GoesOn, AreRsyncSegments};
ghost use Rattle.rpki_basics.specs.Uri.{AreHttpsSegments};
ghost use Rattle.rpki_basics.specs.Uri.Tests.{is_dot_segment, is_path, are_rsync_segments};
ghost use Rattle.rpki_basics.specs.Uri.Tests.{are_https_segments};

use super::segments::split_segment;

// Whether a URI may have this octet.
fn is_uri_octet(octet: u8) -> bool
    ensures { result ≡ is_uri_octet octet }
{
    match octet {
        b'"' | b'#' | b'<' | b'>' | b'\\' | b'^' | b'`' | b'{' | b'|' | b'}' => false,
        0x21..=0x7E => true,
        _ => false,
    }
}

// Whether a URI may have these octets.
pub fn are_uri_octets(text: &[u8]) -> bool
    ensures { result ≡ list_all is_uri_octet text.now }
{
    text.iter().all(|octet| is_uri_octet(*octet))
}

// What follows this scheme, in any letters, and its colon.
pub fn after_scheme<'a>(scheme: &[u8], text: &'a [u8]) -> Option<&'a [u8]>
    requires { map to_ascii_lowercase scheme.now ≡ scheme.now }
    ensures { MatchOption result (¬ HasScheme scheme.now text.now)
        (λ rest. Follows scheme.now text.now rest.now) }
{
    let len = scheme.len();
    if text.len() <= len {
        return None;
    }
    if text[len] != b':' {
        return None;
    }
    if text[..len].eq_ignore_ascii_case(scheme) {
        Some(&text[len + 1..])
    } else {
        None
    }
}

// What follows two slashes.
fn after_slashes(text: &[u8]) -> Option<&[u8]>
    ensures { MatchOption result ((rest : List ℕ) → text.now ≡ codes "//" ++ rest → ⊥)
        (λ rest. text.now ≡ codes "//" ++ rest.now) }
{
    match text {
        [b'/', b'/', rest @ ..] => Some(rest),
        _ => None,
    }
}

// Whether a segment of a path is . or ..
fn is_dot_segment(segment: &[u8]) -> bool
    ensures { result ≡ is_dot_segment segment.now }
{
    match segment {
        [b'.'] => true,
        [b'.', b'.'] => true,
        _ => false,
    }
}

// Whether these are the segments of a path.
fn is_path(text: &[u8]) -> bool
    ensures { result ≡ is_path (segments text.now) }
{
    let mut rest = text;
    'segments: loop {
        let (segment, more) = split_segment(rest);
        if is_dot_segment(segment) {
            return false;
        }
        match more {
            None => return true,
            Some(more) => {
                if segment.is_empty() {
                    return false;
                }
                rest = more;
            }
        }
    }
}

// Whether these are an authority, a module and a path.
fn is_rsync(text: &[u8]) -> bool
    ensures { result ≡ are_rsync_segments (segments text.now) }
{
    let (authority, more) = split_segment(text);
    match more {
        None => false,
        Some(rest) => {
            let (folder, path) = split_segment(rest);
            if authority.is_empty() || folder.is_empty() || is_dot_segment(folder) {
                return false;
            }
            match path {
                None => true,
                Some(path) => is_path(path),
            }
        }
    }
}

// Whether these are an authority, and anything after it.
fn is_https(text: &[u8]) -> bool
    ensures { result ≡ are_https_segments (segments text.now) }
{
    let (authority, _) = split_segment(text);
    !authority.is_empty()
}

// Whether the octets after `rsync:` are two slashes, an authority, a module and a path.
pub fn goes_on_as_rsync(text: &[u8]) -> bool
    ensures { IsTrue result ↔ GoesOn AreRsyncSegments text.now }
{
    match after_slashes(text) {
        None => false,
        Some(rest) => is_rsync(rest),
    }
}

// Whether the octets after `https:` are two slashes, an authority, and anything after it.
pub fn goes_on_as_https(text: &[u8]) -> bool
    ensures { IsTrue result ↔ GoesOn AreHttpsSegments text.now }
{
    match after_slashes(text) {
        None => false,
        Some(rest) => is_https(rest),
    }
}
