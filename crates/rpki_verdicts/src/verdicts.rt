//! A list of verdicts as a text.

ghost use Rattle.std.specs.Prelude.{◌≡◌, ◌↔◌, ◌++◌, ℕ, List, All, Contains, MatchOption, IsTrue};
ghost use Rattle.hex.specs.Hex.{encode_lower};
ghost use Rattle.rpki_verdicts.specs.Parts.{IsSpaced, HasParts, HasDigests};
ghost use Rattle.rpki_verdicts.specs.Verdicts.{AreDigits, line_of, IsLine, AreVerdicts};
ghost use Rattle.rpki_verdicts.specs.Verdicts.{digest_text, IsYes};

use hex::encode_to_slice;
use sha2::{Digest, Sha256};
use std::marker::Model;

/// The hexadecimal digits of a SHA-256 digest.
pub(crate) const DIGITS: usize = 64;

/// Where the digest of the message begins in a line: after that of the key and a space.
const MESSAGE: usize = DIGITS + 1;

/// Where the digest of the signature begins: after that of the message and a space.
const SIGNATURE: usize = MESSAGE + DIGITS + 1;

/// Where LF stands: after the digest of the signature.
const END: usize = SIGNATURE + DIGITS;

/// The octets of a line.
const LINE: usize = END + 1;

/// A list of verdicts: by their SHA-256 digests, the triples of a key, a message and a signature
/// to which the answer is yes. To every other triple it is no. It borrows its text, and takes no
/// memory.
#[derive(Drop)]
pub struct Verdicts<'a> {
    pub(crate) lines: &'a [[u8; LINE]],
}

impl<'a> Model for Verdicts<'a> {
    ghost use Rattle.std.specs.Prelude.{ℕ, List};

    ghost Value = { List (List ℕ) };

    ghost view = { λ v. v.lines.now };
}

impl<'a> Verdicts<'a> {
    /// The verdicts that a text lists, or `None` where it is no list of verdicts. Each line has the
    /// SHA-256 digests of a key, of a message and of a signature, in 64 lower hexadecimal digits
    /// each, with one space between them and LF at the end. Lines stand in any order, and may
    /// repeat. The empty text is a list of none.
    pub fn read(text: &'a [u8]) -> Option<Verdicts<'a>>
        ensures { MatchOption result ((lines : List (List ℕ)) → AreVerdicts text.now lines → ⊥)
            (AreVerdicts text.now) }
    {
        let (lines, rest) = text.as_chunks::<LINE>();
        if !rest.is_empty() {
            return None;
        }
        if are_lines(lines) {
            Some(Verdicts { lines })
        } else {
            None
        }
    }

    /// Whether the list says yes to this signature of the message by the key. The octets of the key
    /// are those of its SubjectPublicKeyInfo, as `PublicKey::to_info_bytes` of `rpki_basics` writes
    /// them, handed in as two pieces: those before its bits, and its bits.
    pub fn verify(&self, key_head: &[u8], key_rest: &[u8], message: &[u8], signature: &[u8]) -> bool
        ensures { IsTrue result ↔ IsYes self.now
            (key_head.now ++ key_rest.now) message.now signature.now }
    {
        let key = digest_text(key_head, key_rest);
        let message = digest_text(message, &[]);
        let signature = digest_text(signature, &[]);
        lists(self.lines, &key, &message, &signature)
    }
}

/// The digest of two parts, as one message, in lower hexadecimal digits.
pub(crate) fn digest_text(first: &[u8], second: &[u8]) -> [u8; DIGITS]
    ensures { result ≡ digest_text (first.now ++ second.now) }
{
    let mut hasher = Sha256::new();
    hasher.update(first);
    hasher.update(second);
    text_of(hasher.finalize())
}

/// A digest in lower hexadecimal digits.
pub(crate) fn text_of(digest: [u8; 32]) -> [u8; DIGITS]
    ensures { result ≡ encode_lower digest }
{
    let mut text = [0; DIGITS];
    // It fits: two digits for each of the 32 octets of a digest.
    let _ = encode_to_slice(digest, &mut text);
    text
}

/// Whether one of the lines is that of these three digests.
#[tactic(auto, using(crate::proofs::Line::line_has_parts, crate::proofs::Line::parts_make_line))]
pub(crate) fn lists(
    lines: &[[u8; LINE]],
    key: &[u8; DIGITS],
    message: &[u8; DIGITS],
    signature: &[u8; DIGITS],
) -> bool
    ensures { IsTrue result ↔ Contains lines.now (line_of key.now message.now signature.now) }
{
    for line in lines {
        if is_line_of(line, key, message, signature) {
            return true;
        }
    }
    false
}

/// Whether this is the line of these three digests.
fn is_line_of(
    line: &[u8; LINE],
    key: &[u8; DIGITS],
    message: &[u8; DIGITS],
    signature: &[u8; DIGITS],
) -> bool
    ensures { IsTrue result ↔ HasParts line.now key.now message.now signature.now }
{
    is_spaced(line)
        && &line[..DIGITS] == key.as_slice()
        && &line[MESSAGE..MESSAGE + DIGITS] == message.as_slice()
        && &line[SIGNATURE..END] == signature.as_slice()
}

/// Whether each is a line of three digests.
#[tactic(auto, using(crate::proofs::Line::line_has_digits, crate::proofs::Line::digits_make_line))]
fn are_lines(lines: &[[u8; LINE]]) -> bool
    ensures { IsTrue result ↔ All IsLine lines.now }
{
    for line in lines {
        if !is_line(line) {
            return false;
        }
    }
    true
}

/// Whether this is a line of three digests.
fn is_line(line: &[u8; LINE]) -> bool
    ensures { IsTrue result ↔ HasDigests line.now }
{
    is_spaced(line)
        && are_digits(&line[..DIGITS])
        && are_digits(&line[MESSAGE..MESSAGE + DIGITS])
        && are_digits(&line[SIGNATURE..END])
}

/// Whether a space stands after each of the first two digests, and LF at the end.
fn is_spaced(line: &[u8; LINE]) -> bool
    ensures { IsTrue result ↔ IsSpaced line.now }
{
    line[DIGITS] == b' ' && line[MESSAGE + DIGITS] == b' ' && line[END] == b'\n'
}

/// Whether each is a lower hexadecimal digit.
fn are_digits(text: &[u8]) -> bool
    ensures { IsTrue result ↔ AreDigits text.now }
{
    for octet in text {
        if !matches!(*octet, b'0'..=b'9' | b'a'..=b'f') {
            return false;
        }
    }
    true
}
