//! The lines of a text.

ghost use Rattle.std.specs.Prelude.{◌≡◌, ◌<◌, ◌++◌, ◌∷◌, length, MatchOption, IfSome, IfOk};
ghost use Rattle.rpki_der.specs.Grammar.{Front};
ghost use Rattle.rpki_tal.specs.Lines.{LINE_FEED, without_cr, is_blank, without_blanks};
ghost use Rattle.rpki_tal.specs.Lines.{IsOneLine, IsLine};

use std::alloc::{AllocError, Global};

/// The octet of a form feed, which Rust has no escape for.
const FORM_FEED: u8 = 0x0C;

/// The text of the first line, and what follows its line feed, or nothing where there is no line
/// feed.
pub fn take_line(text: &[u8]) -> Option<(&[u8], &[u8])>
    ensures line { MatchOption result (IsOneLine text.now)
        (λ l. Front IsLine text.now l.0.now l.1.now) }
    ensures shorter { IfSome result (λ l. length l.1.now < length text.now) }
{
    let (line, rest) = split_at_line_feed(text)?;
    Some((without_cr(line), rest))
}

// The octets up to the first line feed, and what follows it.
fn split_at_line_feed(text: &[u8]) -> Option<(&[u8], &[u8])>
    ensures line { MatchOption result (IsOneLine text.now)
        (λ l. (text.now ≡ l.0.now ++ LINE_FEED ∷ l.1.now) × IsOneLine l.0.now) }
    ensures shorter { IfSome result (λ l. length l.1.now < length text.now) }
{
    'octets: for i in 0..text.len() {
        if text[i] == b'\n' {
            return Some((&text[..i], &text[i + 1..]));
        }
    }
    None
}

// The octets without one carriage return at their end.
fn without_cr(line: &[u8]) -> &[u8]
    ensures { result.now ≡ without_cr line.now }
{
    let len = line.len();
    if len > 0 && line[len - 1] == b'\r' {
        &line[..len - 1]
    } else {
        line
    }
}

/// The octets without those that may break base64 up. Refuses where memory runs out.
pub fn without_blanks(alloc: Global, text: &[u8]) -> Result<Vec<u8>, AllocError>
    ensures { IfOk result (λ symbols. symbols.items ≡ without_blanks text.now) }
{
    text.iter()
        .copied()
        .filter(|octet| !is_blank(*octet))
        .collect(alloc)
}

// Whether an octet is a space, a tab, a line feed, a form feed or a carriage return.
fn is_blank(octet: u8) -> bool
    ensures { result ≡ is_blank octet }
{
    matches!(octet, b' ' | b'\t' | b'\n' | FORM_FEED | b'\r')
}
