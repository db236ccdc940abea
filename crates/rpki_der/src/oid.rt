//! Object identifiers.

ghost use Rattle.std.specs.Prelude.{◌≡◌, nat_eq, Some, MatchOption};
ghost use Rattle.std.specs.Cmp.{partial_equiv_from_equiv};
ghost use Rattle.std.specs.Cmp.Lexicographic.{pointwise, nat_list_eq_equiv};
ghost use Rattle.rpki_der.specs.Oid.{IsOid, is_oid};

mod arcs;

use crate::hex::LowerHex;
use arcs::small_arcs;
use bytes::Bytes;
use std::alloc::AllocError;
use std::fmt;
use std::marker::Model;

/// An OBJECT IDENTIFIER, kept as its contents octets (X.690, section 8.19).
#[derive(Drop, Debug)]
pub struct Oid {
    contents: Bytes,
}

impl Model for Oid {
    ghost use Rattle.std.specs.Prelude.{ℕ, List};
    ghost use Rattle.rpki_der.specs.Oid.{IsOid};

    ghost Value = { List ℕ };

    ghost view = { λ o. o.contents };

    ghost invariant = { λ o. IsOid o.contents };
}

impl Oid {
    /// The identifier with these contents, if they are those of one: not empty, and the last octet
    /// below 80 hexadecimal.
    pub fn from_bytes(contents: Bytes) -> Option<Oid>
        ensures { MatchOption result (IsOid contents → ⊥)
            (λ oid. (oid ≡ contents) × IsOid contents) }
    {
        if is_oid(contents.as_slice()) {
            Some(Oid { contents })
        } else {
            None
        }
    }

    /// The contents octets.
    pub fn as_slice(&self) -> &[u8]
        ensures octets { result.now ≡ self.now }
        ensures valid { IsOid self.now }
    {
        self.contents.as_slice()
    }
}

impl Clone for Oid {
    ghost is_clone = { λ o copy. copy ≡ o };

    fn clone(&self) -> Result<Oid, AllocError> {
        Ok(Oid {
            contents: self.contents.clone()?,
        })
    }
}

impl PartialEq for Oid {
    ghost eq = { pointwise nat_eq };

    ghost laws = { partial_equiv_from_equiv nat_list_eq_equiv };

    fn eq(&self, other: &Oid) -> bool {
        self.as_slice() == other.as_slice()
    }
}

impl Eq for Oid {
    ghost laws = { nat_list_eq_equiv };
}

// Whether octets are the contents of an OBJECT IDENTIFIER.
fn is_oid(contents: &[u8]) -> bool
    ensures { result ≡ is_oid contents.now }
{
    match contents.last() {
        None => false,
        Some(last) => *last < 128,
    }
}

/// The arcs in decimal digits with dots between them, as `1.2.840`. Where an arc passes 32 bits:
/// `x` and the contents octets in lower hexadecimal digits.
impl fmt::Display for Oid {
    ghost use Rattle.rpki_der.specs.Oid.{oid_text};

    ghost output = { λ oid. Some (oid_text oid) };

    fn fmt<W: fmt::Write>(&self, f: &mut fmt::Formatter<W>) -> fmt::Result {
        let contents = self.as_slice();
        match small_arcs(contents) {
            Some((head, points)) => write!(f, "{head}{points}"),
            None => {
                let hex = LowerHex(contents);
                write!(f, "x{hex}")
            }
        }
    }
}
