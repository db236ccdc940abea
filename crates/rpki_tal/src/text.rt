//! The text of a locator, from its first line on.

ghost use Rattle.std.specs.Prelude.{IfOk, IfErr, MatchOption};
ghost use Rattle.rpki_tal.specs.Form.{HasComments, HasUris, HasList, IsOnlyTal, IsNoTal};
ghost use Rattle.rpki_tal.specs.Faults.{EndsInComment, IsUrisFault, IsListFault, IsFault, Refuses};

use crate::error::ReadError;
use crate::key_text::read_key;
use crate::lines::take_line;
use crate::uri::TalUri;
use rpki_basics::PublicKey;
use std::alloc::Global;

/// Reads the URIs and the key of a whole text (RFC 8630, section 2.2). Refuses by `UnexpectedEof`
/// or `BadUri`, by what comes first, else by `BadKeyInfoEncoding` or `BadKeyInfo`, or by `Memory`.
pub fn read_text(alloc: Global, text: &[u8]) -> Result<(Vec<TalUri>, PublicKey), ReadError>
    ensures ok { IfOk result (λ tal. IsOnlyTal text.now tal.0.items tal.1) }
    ensures err { IfErr result (λ e. Refuses e (IsFault text.now e × IsNoTal text.now)) }
{
    let Some(list) = skip_comments(text) else {
        return Err(ReadError::UnexpectedEof);
    };
    read_list(alloc, list)
}

// Leaves the comments at the front of a text. Nothing is left where the last one lacks its line
// feed.
fn skip_comments(text: &[u8]) -> Option<&[u8]>
    ensures { MatchOption result (EndsInComment text.now) (λ list. HasComments text.now list.now) }
{
    let mut rest = text;
    'comments: loop {
        if rest.is_empty() || rest[0] != b'#' {
            return Some(rest);
        }
        match take_line(rest) {
            None => return None,
            Some((_, more)) => rest = more,
        }
    }
}

// Reads the list of URIs, and the key that follows it.
fn read_list(alloc: Global, list: &[u8]) -> Result<(Vec<TalUri>, PublicKey), ReadError>
    ensures ok { IfOk result (λ tal. HasList list.now tal.0.items tal.1) }
    ensures err { IfErr result (λ e. Refuses e (IsListFault list.now e)) }
{
    let (uris, rest) = take_uris(alloc, list)?;
    let key = read_key(alloc, rest)?;
    Ok((uris, key))
}

// Reads URIs, each on a line, and the empty line that ends them. The rest is left.
fn take_uris(alloc: Global, list: &[u8]) -> Result<(Vec<TalUri>, &[u8]), ReadError>
    ensures ok { IfOk result (λ r. HasUris list.now r.0.items r.1.now) }
    ensures err { IfErr result (λ e. Refuses e (IsUrisFault list.now e)) }
{
    let mut uris = Vec::new(alloc);
    let mut rest = list;
    'lines: loop {
        let Some((line, more)) = take_line(rest) else {
            return Err(ReadError::UnexpectedEof);
        };
        if line.is_empty() {
            return Ok((uris, more));
        }
        let uri = TalUri::from_slice(alloc, line)?;
        uris.push(uri)?;
        rest = more;
    }
}
