//! Why a file has no content to show or check, in words that say what to do.

ghost use Rattle.std.specs.Prelude.{◌≡◌, ◌++◌, IfOk, codes, string_bytes};
ghost use Rattle.rpki_cli.specs.Store.{reason_text};
ghost use Rattle.rpki_program.specs.Verify.Entry.{SaysRight};
ghost use Rattle.rpki_program.specs.declared.verify.check.judged.Judged.TheVariants.{No};

use rpki_cli::Reason;
use std::alloc::{AllocError, Global};

/// What a text of PEM begins with (RFC 7468, section 2).
const PEM: &[u8] = b"-----BEGIN ";

/// That a file can't be read.
pub fn unreadable(alloc: Global, reason: Reason) -> Result<String, AllocError>
    ensures { IfOk result (λ cause.
        string_bytes cause ≡ codes "cannot be read" ++ reason_text reason) }
{
    format!(in alloc; "cannot be read{}", reason.text())
}

/// That octets are not, or do not begin with, what was asked for, by what can be seen of them.
pub fn malformed(alloc: Global, octets: &[u8]) -> Result<String, AllocError>
    ensures { IfOk result (λ cause. SaysRight (No cause)) }
{
    let hint = if octets.starts_with(PEM) {
        ": this is PEM, convert it to DER, as by openssl x509 -outform DER"
    } else if ends_early(octets) {
        ": ends early"
    } else {
        ""
    };
    format!(in alloc; "malformed{hint}")
}

/// Whether the length of the first value says that there are more octets (X.690, section 8.1.3).
fn ends_early(octets: &[u8]) -> bool {
    let (length, rest) = match octets {
        [_, 0x84, a, b, c, d, rest @ ..] => (u32::from_be_bytes([*a, *b, *c, *d]), rest),
        [_, 0x83, a, b, c, rest @ ..] => (u32::from_be_bytes([0, *a, *b, *c]), rest),
        [_, 0x82, a, b, rest @ ..] => (u32::from_be_bytes([0, 0, *a, *b]), rest),
        [_, 0x81, a, rest @ ..] => (u32::from(*a), rest),
        [_, first, ..] if *first > 0x84 || *first == 0x80 => return false,
        [_, first, rest @ ..] if *first < 0x80 => (u32::from(*first), rest),
        _ => return true,
    };
    rest.len() < length as usize
}
