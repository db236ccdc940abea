//! Rows of revocation lists.

use super::parts::{
    BOTH, CRITICAL_BOTH, EMPTY, ENTRIES, LARGE, LATE, NAME, NEGATIVE, NEXT, NO_DAY, NO_KEY,
    NO_NUMBER, NO_SECONDS, NUMBER_IN_BER, NUMBER_TWICE, OTHER_ORDER, RSA, RSA_ALONE, SHA_256,
    SIGNATURE, THIS, TIMELESS, TWICE, UNKNOWN, UNUSED, USAGE, V2, V3, WRONG_ENTRY, WRONG_NUMBER,
};
use crate::shared::{Row, Says, are_so, is_told};
use bytes::Bytes;
use rpki_basics::Serial;
use rpki_crls::Crl;
use rpki_der::{Constructed, DecodeError, Mode};
use rpki_testing::{Fail, copied, joined, value};
use std::alloc::{AllocError, Global};

/// What is signed, what stands after it, and what is said or why it is refused: the two times, the
/// number, the identifier of the key, and which numbers from 0 to 3 are revoked.
type Listed = (
    &'static [&'static [u8]],
    &'static [&'static [u8]],
    &'static str,
);

/// The algorithm and the signature.
const SIGNED: &[&[u8]] = &[RSA, SIGNATURE];

/// Revocation lists.
pub static ROWS: [Listed; 34] = [
    (
        &[V2, RSA, NAME, THIS, NEXT, ENTRIES, BOTH],
        SIGNED,
        "2024-01-01T00:00:00Z 2024-01-08T00:00:00Z c 4142434445464748494A4B4C4D4E4F5051525354 13",
    ),
    (
        &[V2, RSA, NAME, THIS, NEXT, BOTH],
        SIGNED,
        "2024-01-01T00:00:00Z 2024-01-08T00:00:00Z c 4142434445464748494A4B4C4D4E4F5051525354 ",
    ),
    (
        &[V2, RSA, NAME, THIS, NEXT, EMPTY, BOTH],
        SIGNED,
        "2024-01-01T00:00:00Z 2024-01-08T00:00:00Z c 4142434445464748494A4B4C4D4E4F5051525354 ",
    ),
    (
        &[V2, RSA_ALONE, NAME, LATE, NEXT, TWICE, OTHER_ORDER],
        SIGNED,
        "2050-01-01T00:00:00Z 2024-01-08T00:00:00Z c 4142434445464748494A4B4C4D4E4F5051525354 13",
    ),
    (
        &[V2, RSA, EMPTY, THIS, THIS, LARGE, CRITICAL_BOTH],
        &[RSA_ALONE, SIGNATURE],
        "2024-01-01T00:00:00Z 2024-01-01T00:00:00Z c 4142434445464748494A4B4C4D4E4F5051525354 ",
    ),
    (&[V3, RSA, NAME, THIS, NEXT, BOTH], SIGNED, "malformed"),
    (&[RSA, NAME, THIS, NEXT, BOTH], SIGNED, "malformed"),
    (
        &[V2, SHA_256, NAME, THIS, NEXT, BOTH],
        SIGNED,
        "algorithm is none that the profile names",
    ),
    (
        &[V2, RSA, NAME, THIS, NEXT, BOTH],
        &[SHA_256, SIGNATURE],
        "algorithm is none that the profile names",
    ),
    (&[V2, RSA, THIS, NEXT, BOTH], SIGNED, "malformed"),
    (&[V2, RSA, NAME, THIS, BOTH], SIGNED, "malformed"),
    (
        &[V2, RSA, NAME, THIS, NO_SECONDS, BOTH],
        SIGNED,
        "time is not in the form of DER",
    ),
    (
        &[V2, RSA, NAME, THIS, NO_DAY, BOTH],
        SIGNED,
        "there is no such date or time of day",
    ),
    (&[V2, RSA, NAME, THIS, NEXT], SIGNED, "malformed"),
    (&[V2, RSA, NAME, THIS, NEXT, ENTRIES], SIGNED, "malformed"),
    (
        &[V2, RSA, NAME, THIS, NEXT, BOTH, ENTRIES],
        SIGNED,
        "malformed",
    ),
    (
        &[V2, RSA, NAME, THIS, NEXT, ENTRIES, EMPTY, BOTH],
        SIGNED,
        "malformed",
    ),
    (
        &[V2, RSA, NAME, THIS, NEXT, BOTH, BOTH],
        SIGNED,
        "malformed",
    ),
    (
        &[V2, RSA, NAME, THIS, NEXT, WRONG_ENTRY, BOTH],
        SIGNED,
        "malformed",
    ),
    (
        &[V2, RSA, NAME, THIS, NEXT, NEGATIVE, BOTH],
        SIGNED,
        "malformed",
    ),
    (
        &[V2, RSA, NAME, THIS, NEXT, TIMELESS, BOTH],
        SIGNED,
        "malformed",
    ),
    (
        &[V2, RSA, NAME, THIS, NEXT, UNKNOWN],
        SIGNED,
        "unknown extension is critical",
    ),
    (
        &[V2, RSA, NAME, THIS, NEXT, USAGE],
        SIGNED,
        "unknown extension is critical",
    ),
    (
        &[V2, RSA, NAME, THIS, NEXT, NUMBER_TWICE],
        SIGNED,
        "extension stands more than once",
    ),
    (
        &[V2, RSA, NAME, THIS, NEXT, NO_NUMBER],
        SIGNED,
        "cRLNumber is missing",
    ),
    (
        &[V2, RSA, NAME, THIS, NEXT, NO_KEY],
        SIGNED,
        "authorityKeyIdentifier is missing",
    ),
    (
        &[V2, RSA, NAME, THIS, NEXT, WRONG_NUMBER],
        SIGNED,
        "malformed",
    ),
    (
        &[V2, RSA, NAME, THIS, NEXT, NUMBER_IN_BER],
        SIGNED,
        "malformed",
    ),
    (
        &[V2, RSA, NAME, THIS, NEXT, BOTH],
        &[RSA, UNUSED],
        "malformed",
    ),
    (&[V2, RSA, NAME, THIS, NEXT, BOTH], &[RSA], "malformed"),
    (
        &[V2, RSA, NAME, THIS, NEXT, BOTH],
        &[SIGNATURE],
        "malformed",
    ),
    (
        &[V2, RSA, NAME, THIS, NEXT, BOTH],
        &[RSA, SIGNATURE, SIGNATURE],
        "malformed",
    ),
    (&[], SIGNED, "malformed"),
    (&[], &[], "malformed"),
];

/// The octets of a revocation list.
pub fn list(alloc: Global, signed: &[&[u8]], after: &[&[u8]]) -> Result<Bytes, AllocError> {
    let signed = value(alloc, 0x30, signed)?;
    let after = joined(alloc, after)?;
    Ok(Bytes::from_vec(value(alloc, 0x30, &[&signed, &after])?)?)
}

/// A revocation list that is read in this mode.
pub fn read(alloc: Global, source: Bytes, mode: Mode) -> Result<Crl, DecodeError> {
    match mode {
        Mode::Der => Ok(copied(Crl::decode(alloc, source)?)?),
        Mode::Ber => Constructed::decode(source, mode, |cons| Crl::take_from(alloc, cons)),
    }
}

impl Says for Crl {
    fn text(&self, alloc: Global) -> Result<String, AllocError> {
        let (this, next) = (self.this_update(), self.next_update());
        let (number, key) = (self.crl_number(), self.authority_key_identifier());
        let mut text = format!(in alloc; "{this} {next} {number} {key} ")?;
        for number in 0..4u64 {
            if self.contains(Serial::from(number)) {
                write!(text, "{number}")?;
            }
        }
        Ok(text)
    }
}

impl Row for Listed {
    fn is_so(&self, alloc: Global) -> Result<bool, Fail> {
        let (signed, after, want) = *self;
        Ok(
            is_told(
                alloc,
                read(alloc, list(alloc, signed, after)?, Mode::Der),
                want,
            )? && is_told(
                alloc,
                read(alloc, list(alloc, signed, after)?, Mode::Ber),
                want,
            )?,
        )
    }
}

#[test]
fn rows(rt: HostRuntime) -> Result<(), Fail> {
    assert!(rt; are_so(rt.alloc(), &ROWS)?);
    Ok(())
}
